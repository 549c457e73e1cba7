//! Lines of a script, carried out by the calls of a session.
ghost use Rattle.memo_tree.specs.States.{IsIn, Sealed};

use crate::counted::Outcome;
use crate::same::{is_same_tree, kept_of};
use crate::words::Kept;
use case_format::Fault;
use edit_session::{Session, SessionRefusal};
use fixed_units::{LayRefusal, Steps};
use font_metrics::Metrics;
use math_tree::Tree;
use memo_tree::MemoTree;
use std::alloc::Global;
use std::sync::ledger::Ledger;
use tree_edits::{Command, CommandRefusal, read_command};

/// Carries a line out in a session.
pub fn carry_out<L: Ledger>(
    alloc: Global,
    session: &mut Session,
    line: &[u8],
    steps: &mut Steps<L>,
) -> Result<Outcome, Fault> {
    match read_command(alloc, line) {
        Ok(Command::Show) => show(alloc, session),
        Ok(Command::Change(edit)) => outcome_of(session.edit(alloc, edit, steps)),
        Err(CommandRefusal::BadLine) => Ok(Outcome::Refused),
        Err(CommandRefusal::Memory) => Err(Fault::Memory),
    }
}

/// Shows a session. Like the other calls that stand alone in a function here, it has long clauses
/// that nothing needs behind it.
pub fn show(alloc: Global, session: &mut Session) -> Result<Outcome, Fault> {
    match session.show(alloc) {
        Ok(_placed) => Ok(Outcome::Shown),
        Err(_) => Err(Fault::Memory),
    }
}

/// Starts a session.
pub fn started<L: Ledger>(
    alloc: Global,
    tree: Tree,
    metrics: Metrics,
    steps: &mut Steps<L>,
) -> Result<Session, LayRefusal> {
    Session::start(alloc, tree, metrics, steps)
}

/// What came of an edit.
fn outcome_of(edited: Result<(), SessionRefusal>) -> Result<Outcome, Fault> {
    match edited {
        Ok(()) => Ok(Outcome::Edited),
        Err(SessionRefusal::Edit(_)) => Ok(Outcome::Refused),
        Err(SessionRefusal::Range) => Ok(Outcome::OutOfRange),
        Err(SessionRefusal::Memory) => Err(Fault::Memory),
    }
}

/// What a session keeps.
pub fn kept_by(session: &Session) -> Kept {
    Kept {
        layouts: session.kept(),
        cells: session.cells(),
    }
}

/// Whether a session holds what stands beside it: the same tree, as many layouts and cells, and the
/// same box of the root.
pub fn is_held(alloc: Global, session: &Session, laid: &MemoTree) -> Result<bool, Fault>
    requires { IsIn Sealed laid.now }
{
    let tree = session.tree(alloc)?;
    let is_same = is_same_tree(alloc, &tree, laid.tree());
    tree.discard();
    let is_so = kept_by(session) == kept_of(laid) && session.root_box() == laid.root_box();
    Ok(is_so && is_same?)
}
