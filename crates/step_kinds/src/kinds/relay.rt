//! `relay`: a tree of which no layout is kept is laid out, and then as much of it is kept as of one
//! that was laid out from the start.
ghost use Rattle.std.specs.Prelude.{◌≡◌, ◌<◌};
ghost use Rattle.memo_tree.specs.States.{Changed, IsIn, Sealed};

use crate::given::tree_in;
use crate::same::{is_equal, kept_of, not_same};
use crate::words::{add_judged, add_kept, add_made, add_refusal, add_word};
use case_format::{Case, Fault, Fields};
use fixed_units::Steps;
use math_tree::Tree;
use memo_tree::MemoTree;
use outcomes::Equations;
use std::marker::Brand;
use std::sync::ledger::{Blank, Ledger};

/// Adds the words of the answer to a case of the kind `relay`.
pub fn add_relay(case: Case, words: &mut String) -> Result<(), Fault> {
    let fields = Fields::of_value(case.value, &["metrics", "tree"])?;
    let tree = tree_in(case.alloc, fields)?;
    let added = add_answer(case, fields, &tree, words);
    tree.discard();
    added
}

/// Adds the answer for a tree, of which a copy is laid out.
fn add_answer(case: Case, fields: Fields, tree: &Tree, words: &mut String) -> Result<(), Fault> {
    let copied = tree.copy(case.alloc)?;
    match case.metrics(fields) {
        Ok(metrics) => match MemoTree::make(case.alloc, copied, metrics) {
            Ok(mut laid) => {
                let added = add_counted::<Brand>(
                    case,
                    fields,
                    tree,
                    &mut laid,
                    words,
                    Blank::new(1),
                );
                laid.discard();
                added
            }
            Err(_) => Err(Fault::Memory),
        },
        Err(fault) => {
            copied.discard();
            Err(fault)
        }
    }
}

/// The same for one of which nothing is kept, with steps on the ledger `L`.
fn add_counted<L: Ledger>(
    case: Case,
    fields: Fields,
    tree: &Tree,
    laid: &mut MemoTree,
    words: &mut String,
    blank: Blank,
) -> Result<(), Fault>
    requires name { blank.name ≡ L.name }
    requires parts { blank.parts ≡ L.parts }
    requires some { 0 < blank.parts }
    requires changed { IsIn Changed laid.old }
{
    let mut steps = Steps::<L>::new(blank);
    match laid.relay::<Equations, _>(case.alloc, &mut steps) {
        Ok(()) => {
            let made = laid.kept();
            laid.seal();
            add_made(made, kept_of(laid), words)?;
            add_judged(
                "; start",
                is_started(case, fields, tree, laid, &mut steps)?,
                words,
            )
        }
        Err(refusal) => {
            laid.undo_pass();
            add_refusal(refusal, words)?;
            add_word(", ", words)?;
            add_kept(kept_of(laid), words)
        }
    }
}

/// Whether what is kept is what is kept of an equal tree that is laid out from the start.
fn is_started<L: Ledger>(
    case: Case,
    fields: Fields,
    tree: &Tree,
    laid: &MemoTree,
    steps: &mut Steps<L>,
) -> Result<bool, Fault>
    requires { IsIn Sealed laid.now }
{
    let copied = tree.copy(case.alloc)?;
    match case.metrics(fields) {
        Ok(metrics) => match MemoTree::start::<Equations, _>(case.alloc, copied, metrics, steps) {
            Ok(started) => {
                let is_so = is_equal(case.alloc, laid, &started);
                started.discard();
                is_so
            }
            Err(refusal) => not_same(refusal),
        },
        Err(fault) => {
            copied.discard();
            Err(fault)
        }
    }
}
