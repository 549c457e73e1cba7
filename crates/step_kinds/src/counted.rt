//! Lines of a script, carried out by the calls of `memo_tree` as a session does, where layouts are
//! counted.
ghost use Rattle.std.specs.Prelude.{◌≡◌, OnOk};
ghost use Rattle.memo_tree.specs.States.{IsIn, Sealed};
ghost use Rattle.tree_edits.specs.Applying.{IsProperEdit};
ghost use Rattle.tree_edits.specs.Commands.{IsProperCommand};

use crate::words::{Kept, OUT_OF_RANGE, REFUSED, add_kept, add_made, add_word};
use case_format::Fault;
use fixed_units::{LayRefusal, Steps};
use memo_tree::MemoTree;
use outcomes::Equations;
use std::alloc::Global;
use std::sync::ledger::Ledger;
use tree_edits::{Command, CommandRefusal, Edit, EditRefusal, read_command};

/// A session drops what its tree doesn't need before an edit where more layouts are kept than this.
const MOST_UNSWEPT: usize = 131_072;

/// What came of a line.
#[derive(Clone, Copy, PartialEq, Eq)]
pub enum Outcome {
    /// An edit was made.
    Edited,
    /// The tree was shown, and what it doesn't need was dropped.
    Shown,
    /// The edited tree is out of range, so the edit wasn't made.
    OutOfRange,
    /// The edit wasn't made for another reason, or the line is no command.
    Refused,
}

impl Outcome {
    /// Adds its words, with how many layouts were made and what is kept.
    pub fn add(self, made: usize, kept: Kept, words: &mut String) -> Result<(), Fault> {
        match self {
            Outcome::Edited => add_made(made, kept, words),
            Outcome::Shown => add_kept(kept, words),
            Outcome::OutOfRange => add_word(OUT_OF_RANGE, words),
            Outcome::Refused => add_word(REFUSED, words),
        }
    }
}

/// A tree with its kept layouts that goes the way of a session.
#[derive(Drop)]
pub struct Beside {
    pub laid: MemoTree,
    /// How many cells the last sweep left.
    pub swept_cells: usize,
}

impl Beside {
    /// Of a tree that was just laid out.
    pub fn over(laid: MemoTree) -> Beside
        ensures { result.laid ≡ laid }
    {
        let swept_cells = laid.cells();
        Beside { laid, swept_cells }
    }

    /// Gives the tree up, with all that is kept of it.
    pub fn end(self) {
        self.laid.discard();
    }

    /// Carries a line out as a session does, and says how many layouts were made.
    pub fn carry_out_counted<L: Ledger>(
        &mut self,
        alloc: Global,
        line: &[u8],
        steps: &mut Steps<L>,
    ) -> Result<(Outcome, usize), Fault>
        requires { IsIn Sealed self.old.laid }
        ensures { OnOk result (IsIn Sealed self.new.laid) }
    {
        match read_command(alloc, line) {
            Ok(command) => self.answer_counted(alloc, command, steps),
            Err(CommandRefusal::BadLine) => Ok((Outcome::Refused, 0)),
            Err(CommandRefusal::Memory) => Err(Fault::Memory),
        }
    }

    /// The same for the command that the line says.
    fn answer_counted<L: Ledger>(
        &mut self,
        alloc: Global,
        command: Command,
        steps: &mut Steps<L>,
    ) -> Result<(Outcome, usize), Fault>
        requires proper { IsProperCommand command }
        requires sealed { IsIn Sealed self.old.laid }
        ensures { OnOk result (IsIn Sealed self.new.laid) }
    {
        match command {
            Command::Show => {
                self.sweep(alloc)?;
                Ok((Outcome::Shown, 0))
            }
            Command::Change(edit) => match self.sweep_where_due(alloc) {
                Ok(()) => edit_counted(alloc, &mut self.laid, edit, steps),
                Err(fault) => {
                    // Dropped by a call, so that the proof here doesn't go through all parts.
                    drop(edit);
                    Err(fault)
                }
            },
        }
    }

    /// Drops what the tree doesn't need where so much is kept that an edit does that first.
    fn sweep_where_due(&mut self, alloc: Global) -> Result<(), Fault>
        requires { IsIn Sealed self.old.laid }
        ensures { OnOk result (IsIn Sealed self.new.laid) }
    {
        let is_due = self.laid.kept() > MOST_UNSWEPT
            || self.laid.cells() > self.swept_cells.saturating_mul(2);
        if is_due { self.sweep(alloc) } else { Ok(()) }
    }

    /// Drops what the tree doesn't need.
    fn sweep(&mut self, alloc: Global) -> Result<(), Fault>
        requires { IsIn Sealed self.old.laid }
        ensures { OnOk result (IsIn Sealed self.new.laid) }
    {
        self.laid.sweep(alloc)?;
        self.swept_cells = self.laid.cells();
        Ok(())
    }
}

/// Carries an edit out. A pass that is done keeps as many layouts more as it made.
fn edit_counted<L: Ledger>(
    alloc: Global,
    laid: &mut MemoTree,
    edit: Edit,
    steps: &mut Steps<L>,
) -> Result<(Outcome, usize), Fault>
    requires proper { IsProperEdit edit }
    requires sealed { IsIn Sealed laid.old }
    ensures { OnOk result (IsIn Sealed laid.new) }
{
    let reversal = match laid.change(alloc, edit) {
        Ok(reversal) => reversal,
        Err(refusal) => return not_made(refusal),
    };
    let before = laid.kept();
    match laid.relay::<Equations, _>(alloc, steps) {
        Ok(()) => {
            let made = laid.kept().saturating_sub(before);
            laid.seal();
            // Dropped by a call, so that the proof here doesn't go through all parts.
            drop(reversal);
            Ok((Outcome::Edited, made))
        }
        Err(refusal) => {
            laid.undo_pass();
            laid.undo_change(reversal);
            not_laid(refusal)
        }
    }
}

/// What came of an edit that can't be made.
fn not_made(refusal: EditRefusal) -> Result<(Outcome, usize), Fault> {
    match refusal {
        EditRefusal::Memory => Err(Fault::Memory),
        _ => Ok((Outcome::Refused, 0)),
    }
}

/// What came of an edit that was taken back.
fn not_laid(refusal: LayRefusal) -> Result<(Outcome, usize), Fault> {
    match refusal {
        LayRefusal::Range => Ok((Outcome::OutOfRange, 0)),
        LayRefusal::Memory => Err(Fault::Memory),
    }
}
