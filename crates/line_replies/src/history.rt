//! The lines of a script whose edits can be undone.
ghost use Rattle.std.specs.Prelude.{Some, None};
ghost use Rattle.tree_edits.specs.Applying.{IsProperEdit};
ghost use Rattle.tree_edits.specs.Commands.{IsProperCommand};
ghost use Rattle.tree_edits.specs.declared.command.Command.TheVariants.{Show, Change};
ghost use Rattle.command_reader.specs.Moves.{move_in};
ghost use Rattle.command_reader.specs.declared.moves.Move.TheVariants.{Undo, Redo, Other};
ghost use Rattle.line_replies.specs.History.{reply_by_move, reply_to};
ghost use Rattle.line_replies.specs.HistoryParts.{Makes, TellsEdit, TellsMove, kept_after_move};
ghost use Rattle.line_replies.specs.HistorySteps.{TakesForLine, TakesForMove, kept_after, kept_by, ring_of};

use crate::reply::{Cause, Reply};
use crate::script::is_white_space;
use command_reader::{CommandReader, Move, move_in};
use edit_ring::{GroundRefusal, Ring, RingRefusal};
use edit_session::Undoable;
use fixed_units::{Memory, Steps};
use std::alloc::Global;
use std::sync::ledger::Ledger;
use tree_edits::{Command, CommandRefusal, Edit};

/// Does what a line of a script asks for, and says what is answered. Where memory is refused, the
/// ring is as before.
pub fn reply_to<L: Ledger>(
    alloc: Global,
    ring: &mut Ring<Undoable>,
    commands: &mut CommandReader,
    line: &[u8],
    steps: &mut Steps<L>,
) -> Result<Reply, Memory>
    ensures made { Makes (reply_to (kept_by (ring_of ring.old)).history line.now)
        (kept_after (kept_by (ring_of ring.old)) line.now)
        (ring_of ring.old) (ring_of ring.new) result }
    ensures taken { TakesForLine (ring_of ring.old) line.now steps.old steps.new }
{
    if is_white_space(line) {
        return Ok(Reply::Nothing);
    }
    match commands.read(alloc, line) {
        Ok(command) => carry_out(alloc, ring, command, steps),
        Err(CommandRefusal::BadLine) => go(alloc, ring, line, steps),
        Err(CommandRefusal::Memory) => Err(Memory),
    }
}

/// Goes through the history as a line asks for that is no other command, or says that it asks for
/// nothing.
fn go<L: Ledger>(
    alloc: Global,
    ring: &mut Ring<Undoable>,
    line: &[u8],
    steps: &mut Steps<L>,
) -> Result<Reply, Memory>
    ensures made { Makes
        (reply_by_move (move_in line.now) (kept_by (ring_of ring.old)).history None)
        (kept_after_move (move_in line.now) (kept_by (ring_of ring.old)) None)
        (ring_of ring.old) (ring_of ring.new) result }
    ensures taken { TakesForMove (move_in line.now) (ring_of ring.old) None
        steps.old steps.new }
{
    match move_in(alloc, line) {
        Ok(Move::Undo) => undo(alloc, ring, steps),
        Ok(Move::Redo) => redo(alloc, ring, steps),
        Ok(Move::Other) => Ok(Reply::Refused(Cause::NoCommand)),
        Err(Memory) => Err(Memory),
    }
}

/// Undoes the last edit, or says that there is none.
fn undo<L: Ledger>(
    alloc: Global,
    ring: &mut Ring<Undoable>,
    steps: &mut Steps<L>,
) -> Result<Reply, Memory>
    ensures made { Makes (reply_by_move Undo (kept_by (ring_of ring.old)).history None)
        (kept_after_move Undo (kept_by (ring_of ring.old)) None)
        (ring_of ring.old) (ring_of ring.new) result }
    ensures taken { TakesForMove Undo (ring_of ring.old) None steps.old steps.new }
{
    told_move(ring.undo(alloc, steps))
}

/// Makes the edit again that was undone last, or says that there is none.
fn redo<L: Ledger>(
    alloc: Global,
    ring: &mut Ring<Undoable>,
    steps: &mut Steps<L>,
) -> Result<Reply, Memory>
    ensures made { Makes (reply_by_move Redo (kept_by (ring_of ring.old)).history None)
        (kept_after_move Redo (kept_by (ring_of ring.old)) None)
        (ring_of ring.old) (ring_of ring.new) result }
    ensures taken { TakesForMove Redo (ring_of ring.old) None steps.old steps.new }
{
    told_move(ring.redo(alloc, steps))
}

/// What is answered to a line that goes through the history.
fn told_move(moved: Result<(), RingRefusal>) -> Result<Reply, Memory>
    ensures { TellsMove moved result }
{
    match moved {
        Ok(()) => Ok(Reply::Accepted),
        Err(RingRefusal::Nothing) => Ok(Reply::Refused(Cause::NoneHeld)),
        Err(RingRefusal::Memory) => Err(Memory),
    }
}

/// Does what a command asks for.
fn carry_out<L: Ledger>(
    alloc: Global,
    ring: &mut Ring<Undoable>,
    command: Command,
    steps: &mut Steps<L>,
) -> Result<Reply, Memory>
    requires { IsProperCommand command }
    ensures made { Makes
        (reply_by_move Other (kept_by (ring_of ring.old)).history (Some command))
        (kept_after_move Other (kept_by (ring_of ring.old)) (Some command))
        (ring_of ring.old) (ring_of ring.new) result }
    ensures taken { TakesForMove Other (ring_of ring.old) (Some command) steps.old steps.new }
{
    match command {
        Command::Show => show(alloc, ring),
        Command::Change(edit) => change(alloc, ring, edit, steps),
    }
}

/// Shows the tree.
pub fn show(alloc: Global, ring: &mut Ring<Undoable>) -> Result<Reply, Memory>
    ensures { Makes (reply_by_move Other (kept_by (ring_of ring.old)).history (Some Show))
        (kept_after_move Other (kept_by (ring_of ring.old)) (Some Show))
        (ring_of ring.old) (ring_of ring.new) result }
{
    match ring.show(alloc) {
        Ok(placed) => {
            // What writing needs to know of the metrics: the call does nothing.
            ring.metrics().is_taken();
            Ok(Reply::Shown(placed))
        }
        Err(Memory) => Err(Memory),
    }
}

/// Carries an edit out, or says why it isn't made.
fn change<L: Ledger>(
    alloc: Global,
    ring: &mut Ring<Undoable>,
    edit: Edit,
    steps: &mut Steps<L>,
) -> Result<Reply, Memory>
    requires { IsProperEdit edit }
    ensures made { Makes
        (reply_by_move Other (kept_by (ring_of ring.old)).history (Some (Change edit)))
        (kept_after_move Other (kept_by (ring_of ring.old)) (Some (Change edit)))
        (ring_of ring.old) (ring_of ring.new) result }
    ensures taken { TakesForMove Other (ring_of ring.old) (Some (Change edit))
        steps.old steps.new }
{
    told_edit(ring.edit(alloc, edit, steps))
}

/// What is answered to an edit.
fn told_edit(made: Result<(), GroundRefusal>) -> Result<Reply, Memory>
    ensures { TellsEdit made result }
{
    match made {
        Ok(()) => Ok(Reply::Accepted),
        Err(GroundRefusal::Edit(reason)) => Ok(Reply::Refused(Cause::Unmade(reason))),
        Err(GroundRefusal::Range) => Ok(Reply::Refused(Cause::OutOfRange)),
        Err(GroundRefusal::Memory) => Err(Memory),
    }
}
