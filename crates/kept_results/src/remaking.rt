//! An entry that a pass makes anew, and what it was before.
ghost use Rattle.std.specs.Prelude.{◌≡◌, ◌≤◌, ◌<◌, length, Some, slice_get, slice_set};
ghost use Rattle.kept_results.specs.Ends.{restored};
ghost use Rattle.kept_results.specs.Looking.{remade, turned};

use crate::memo::{Before, Entry, Origin};
use box_pool::RunId;
use fixed_units::{List, Room};
use layout_model::Reply;
use std::alloc::Global;
use std::mem;

/// Puts the reply of a child in place of the one that an entry has, and gives that one.
pub fn turn(entry: &mut Entry, child: usize, reply: Reply) -> Reply
    requires { child < length entry.old.one }
    ensures had { slice_get entry.old.one child ≡ Some result }
    ensures turned { entry.new ≡ turned entry.old child reply }
{
    mem::replace(entry.one.at_mut(child), reply)
}

/// Gives an entry the run of a new outcome, and has it hold what it had before.
pub fn remake(
    alloc: Global,
    entry: &mut Entry,
    run: RunId,
    child: usize,
    reply: Reply,
    room: Room<Before>,
)
    requires { 1 ≤ room }
    ensures { entry.new ≡ remade entry.old run child reply }
{
    let before = Before {
        child,
        reply,
        run: entry.run,
    };
    entry.run = run;
    let mut was = List::make(alloc);
    was.insert(0, before, room);
    // Dropped by a call, here and below, so that the proof doesn't go through all parts.
    drop(mem::replace(&mut entry.origin, Origin::Remade(was)));
}

/// Makes an entry what it was before the present pass.
pub fn restore(entry: &mut Entry, before: Before)
    ensures { entry.new ≡ restored entry.old before }
{
    let Before { child, reply, run } = before;
    put(&mut entry.one, child, reply);
    entry.run = run;
    drop(mem::replace(&mut entry.origin, Origin::Standing));
}

/// Puts an item in place of the one at a place, where there is one.
fn put<T: Drop>(items: &mut List<T>, place: usize, item: T)
    ensures { items.new ≡ slice_set items.old place item }
{
    if place < items.len() {
        *items.at_mut(place) = item;
    }
}
