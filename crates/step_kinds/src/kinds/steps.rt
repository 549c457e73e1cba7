//! `steps`: a session goes through a script, and how many layouts are made at its start and by each
//! edit is told.
//!
//! A step is a layout that is made. How many were taken can't be read, since they take no bytes,
//! and an edit of a session also drops what it had of the elements that were changed. So an equal
//! tree goes the same way beside it, by the calls of `memo_tree`, where layouts are counted; at
//! each line both have to hold the same, with as many layouts and cells.
ghost use Rattle.std.specs.Prelude.{◌≡◌, ◌<◌, OnOk};
ghost use Rattle.memo_tree.specs.States.{IsIn, Sealed};

use crate::counted::Beside;
use crate::edits::edit_and_back;
use crate::given::tree_in;
use crate::same::{is_fresh, is_same_tree, not_same};
use crate::session::{carry_out, is_held, kept_by, show, started};
use crate::words::{add_judged, add_made, add_refusal, add_word};
use case_format::{Case, Fault, Fields};
use edit_session::Session;
use fixed_units::Steps;
use font_metrics::Metrics;
use math_tree::Tree;
use memo_tree::MemoTree;
use outcomes::Equations;
use serde_json::Value;
use std::alloc::Global;
use std::marker::Brand;
use std::sync::ledger::{Blank, Ledger};

/// The edit that a session and one over a copy of its tree carry out in the end.
const INSERTION: &str =
    "{\"op\":\"insert\",\"node\":1,\"index\":0,\"element\":{\"name\":\"mn\",\"text\":\"1\"}}";

/// A case of this kind.
#[derive(Clone, Copy)]
struct Script<'a> {
    case: Case<'a>,
    fields: Fields<'a>,
    lines: &'a [Value],
}

/// Adds the words of the answer to a case of this kind.
pub fn add_steps(case: Case, words: &mut String) -> Result<(), Fault> {
    let fields = Fields::of_value(case.value, &["metrics", "tree", "script"])?;
    let lines = fields.items("script")?;
    let tree = tree_in(case.alloc, fields)?;
    let script = Script {
        case,
        fields,
        lines,
    };
    add_answer(script, tree, words)
}

/// Adds the answer for a tree.
fn add_answer(script: Script, tree: Tree, words: &mut String) -> Result<(), Fault> {
    match script.metrics() {
        Ok(metrics) => add_counted::<Brand>(script, tree, metrics, words, Blank::new(1)),
        Err(fault) => {
            tree.discard();
            Err(fault)
        }
    }
}

/// The same with steps on the ledger `L`.
fn add_counted<L: Ledger>(
    script: Script,
    tree: Tree,
    metrics: Metrics,
    words: &mut String,
    blank: Blank,
) -> Result<(), Fault>
    requires name { blank.name ≡ L.name }
    requires parts { blank.parts ≡ L.parts }
    requires some { 0 < blank.parts }
{
    let mut steps = Steps::<L>::new(blank);
    match started(script.case.alloc, tree, metrics, &mut steps) {
        Ok(mut session) => {
            let added = script.add_session(&mut session, words, &mut steps);
            session.end();
            added
        }
        Err(refusal) => add_refusal(refusal, words),
    }
}

impl<'a> Script<'a> {
    /// The metrics of the case, read anew.
    fn metrics(self) -> Result<Metrics, Fault> {
        self.case.metrics(self.fields)
    }

    /// Adds what comes of a session that was just started.
    fn add_session<L: Ledger>(
        self,
        session: &mut Session,
        words: &mut String,
        steps: &mut Steps<L>,
    ) -> Result<(), Fault> {
        let is_same = self.add_beside(session, words, steps)?;
        let is_fresh = is_fresh(self.case.alloc, session.layouts(), steps)?;
        let is_copied = self.is_copied(session, steps)?;
        add_judged("; fresh", is_fresh, words)?;
        add_judged("; session", is_same, words)?;
        add_judged("; copy", is_copied, words)
    }

    /// Adds what comes of the start and of each line, and says whether an equal tree beside the
    /// session holds the same each time.
    fn add_beside<L: Ledger>(
        self,
        session: &mut Session,
        words: &mut String,
        steps: &mut Steps<L>,
    ) -> Result<bool, Fault> {
        let tree = session.tree(self.case.alloc)?;
        match self.metrics() {
            Ok(metrics) => match MemoTree::start::<Equations, _>(
                self.case.alloc,
                tree,
                metrics,
                steps,
            ) {
                Ok(laid) => {
                    let mut beside = Beside::over(laid);
                    let is_so = self.add_all(session, &mut beside, words, steps);
                    beside.end();
                    is_so
                }
                Err(refusal) => not_same(refusal),
            },
            Err(fault) => {
                tree.discard();
                Err(fault)
            }
        }
    }

    fn add_all<L: Ledger>(
        self,
        session: &mut Session,
        beside: &mut Beside,
        words: &mut String,
        steps: &mut Steps<L>,
    ) -> Result<bool, Fault>
        requires { IsIn Sealed beside.old.laid }
    {
        add_made(beside.laid.kept(), kept_by(session), words)?;
        let mut is_same = is_held(self.case.alloc, session, &beside.laid)?;
        for value in self.lines {
            add_word("; ", words)?;
            let text = value.to_string(self.case.alloc)?;
            let is_so = add_line(
                self.case.alloc,
                text.as_bytes(),
                session,
                beside,
                words,
                steps,
            );
            drop(text);
            is_same = is_so? && is_same;
        }
        Ok(is_same)
    }

    /// Whether a session over a copy of a session's tree holds the same, also after an edit of
    /// both.
    fn is_copied<L: Ledger>(
        self,
        session: &mut Session,
        steps: &mut Steps<L>,
    ) -> Result<bool, Fault> {
        show(self.case.alloc, session)?;
        let tree = session.tree(self.case.alloc)?;
        match self.metrics() {
            Ok(metrics) => match started(self.case.alloc, tree, metrics, steps) {
                Ok(mut copied) => {
                    let is_so = stays_same(self.case.alloc, session, &mut copied, steps);
                    copied.end();
                    is_so
                }
                Err(refusal) => not_same(refusal),
            },
            Err(fault) => {
                tree.discard();
                Err(fault)
            }
        }
    }
}

/// Carries a line out in a session and beside it, adds what came of it, and says whether both hold
/// the same.
fn add_line<L: Ledger>(
    alloc: Global,
    line: &[u8],
    session: &mut Session,
    beside: &mut Beside,
    words: &mut String,
    steps: &mut Steps<L>,
) -> Result<bool, Fault>
    requires { IsIn Sealed beside.old.laid }
    ensures { OnOk result (IsIn Sealed beside.new.laid) }
{
    let outcome = carry_out(alloc, session, line, steps)?;
    let (of_beside, made) = beside.carry_out_counted(alloc, line, steps)?;
    outcome.add(made, kept_by(session), words)?;
    let is_so = is_held(alloc, session, &beside.laid)?;
    Ok(is_so && outcome == of_beside)
}

/// Whether two sessions hold the same, and after the same edit of both too; and whether a copy of
/// the tree is as before when the edit was made of it and taken back.
fn stays_same<L: Ledger>(
    alloc: Global,
    session: &mut Session,
    copied: &mut Session,
    steps: &mut Steps<L>,
) -> Result<bool, Fault> {
    let is_equal = is_held(alloc, session, copied.layouts())?;
    let is_restored = is_restored(alloc, session)?;
    let outcome = carry_out(alloc, session, INSERTION.as_bytes(), steps)?;
    let of_copy = carry_out(alloc, copied, INSERTION.as_bytes(), steps)?;
    let is_still_equal = is_held(alloc, session, copied.layouts())?;
    Ok(is_equal && is_restored && is_still_equal && outcome == of_copy)
}

/// Whether a copy of a session's tree is as before when an edit was made of it and taken back.
fn is_restored(alloc: Global, session: &Session) -> Result<bool, Fault> {
    let mut tree = session.tree(alloc)?;
    let is_so = is_as_before(alloc, &mut tree, session.layouts().tree());
    tree.discard();
    is_so
}

/// Whether an equal tree is as before when an edit was made of it and taken back.
fn is_as_before(alloc: Global, tree: &mut Tree, before: &Tree) -> Result<bool, Fault> {
    let is_made = edit_and_back(alloc, tree, INSERTION.as_bytes())?;
    Ok(is_made && is_same_tree(alloc, before, tree)?)
}
