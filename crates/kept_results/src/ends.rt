ghost use Rattle.std.specs.Prelude.{◌≡◌, ℕ, ◌<◌, ◌-◌, ◌^◌, None, Some, filter, length, min, slice_get};
ghost use Rattle.std.specs.List.{remove};
ghost use Rattle.kept_results.specs.Ends.{IsUndoneBut, all_undone, each_below, fresh_below, fresh_count, sealed, settled, settled_all, stripped};
ghost use Rattle.kept_results.specs.Kept.{is_fresh};
ghost use Rattle.kept_results.specs.Tidy.{AreTidy, IsTidy, only_entered, only_touched};
ghost use Rattle.kept_results.specs.declared.memo.Memo.TheViews.{out-Memo};

use crate::entries::{is_calm, is_live, is_marked, only_entered, only_touched};
use crate::memo::{Before, Entry, Memo, Origin};
use crate::remaking::restore;
use fixed_units::List;
use std::mem;

/// Undoes a pass: what it made is dropped, what it made anew is what it was, and all else is as
/// before it. It goes only where the edit and the pass went, and takes no memory.
#[cycle(undo_pass)]
pub fn undo_pass(memo: &mut Memo)
    requires tidy { IsTidy memo.old }
    ensures { memo.new ≡ stripped memo.old }
{
    if !is_calm(memo) {
        undo_through(memo);
    }
}

/// The same, whatever the edit and the pass did. It stands apart, so that an element that they left
/// alone is passed by without the frame of this call: most were.
#[cycle(undo_pass)]
#[inline(never)]
fn undo_through(memo: &mut Memo)
    requires tidy { IsTidy memo.old }
    ensures { memo.new ≡ stripped memo.old }
{
    undo_below(memo);
    undo_entries(&mut memo.entries);
}

/// Undoes a pass below an element. Where it is known that only one child can have a trace of the
/// pass, it goes to that child alone.
#[cycle(undo_pass)]
fn undo_below(memo: &mut Memo)
    requires tidy { IsTidy memo.old }
    ensures { memo.new ≡ each_below stripped (out-Memo memo.old) }
{
    match only_touched(memo) {
        Some(child) => undo_only(memo, child),
        None => undo_all(memo),
    }
}

/// Undoes a pass over one child of an element. The others have no trace of it.
#[cycle(undo_pass)]
fn undo_only(memo: &mut Memo, child: usize)
    requires tidy { IsTidy memo.old }
    requires only { only_touched (out-Memo memo.old) ≡ Some child }
    ensures { memo.new ≡ each_below stripped (out-Memo memo.old) }
{
    if child < memo.below.len() {
        undo_pass(memo.below.at_mut(child));
    }
}

/// Undoes a pass over each child of an element.
#[cycle(undo_pass)]
fn undo_all(memo: &mut Memo)
    requires tidy { AreTidy (out-Memo memo.old).below }
    ensures { memo.new ≡ each_below stripped (out-Memo memo.old) }
{
    for at in 0..memo.below.len() {
        undo_pass(memo.below.at_mut(at));
    }
}

/// Undoes what a refused pass over an element made of those children that the end of a pass passes
/// by. All else stays as it is.
pub fn undo_beside(memo: &mut Memo)
    requires tidy { AreTidy (out-Memo memo.old).below }
    ensures undone { (child : ℕ) → only_entered (out-Memo memo.old) ≡ Some child
        → IsUndoneBut child memo.old memo.new }
    ensures unchanged { only_entered (out-Memo memo.old) ≡ None → memo.new ≡ memo.old }
{
    if let Some(child) = only_entered(memo) {
        undo_others(memo, child);
    }
}

/// Undoes a pass over each child of an element but that at a place.
fn undo_others(memo: &mut Memo, child: usize)
    requires tidy { AreTidy (out-Memo memo.old).below }
    ensures { IsUndoneBut child memo.old memo.new }
{
    for at in 0..memo.below.len() {
        if at != child {
            undo_pass(memo.below.at_mut(at));
        }
    }
}

/// Ends a pass that was done: older entries are dropped, marks are cleared, and what the pass made
/// stands from then on. It goes only where the edit and the pass went, and takes no memory. It says
/// how many entries the pass made, out of others too, and 2^64 - 1 where there are more.
#[cycle(seal)]
pub fn seal(memo: &mut Memo) -> usize
    requires tidy { IsTidy memo.old }
    ensures sealed { memo.new ≡ sealed memo.old }
    ensures made { result ≡ min (fresh_count memo.old) (2 ^ 64 - 1) }
{
    if is_calm(memo) { 0 } else { seal_through(memo) }
}

/// The same, whatever the edit and the pass did. It stands apart, so that an element that they left
/// alone is passed by without the frame of this call: most were.
#[cycle(seal)]
#[inline(never)]
fn seal_through(memo: &mut Memo) -> usize
    requires tidy { IsTidy memo.old }
    ensures sealed { memo.new ≡ sealed memo.old }
    ensures made { result ≡ min (fresh_count memo.old) (2 ^ 64 - 1) }
{
    let own = count_fresh(memo.entries.as_slice());
    let below = seal_below(memo);
    let marked = is_marked(memo);
    drop_older(&mut memo.entries, marked);
    memo.former = None;
    own.saturating_add(below)
}

/// Seals what is below an element: of its children the one alone that the pass asked, where that is
/// known.
#[cycle(seal)]
fn seal_below(memo: &mut Memo) -> usize
    requires tidy { IsTidy memo.old }
    ensures sealed { memo.new ≡ each_below sealed (out-Memo memo.old) }
    ensures made { result ≡ min (fresh_below (out-Memo memo.old).below) (2 ^ 64 - 1) }
{
    match only_touched(memo) {
        Some(child) => seal_only(memo, child),
        None => seal_all(memo),
    }
}

/// Seals a child of an element. The others are sealed already.
#[cycle(seal)]
fn seal_only(memo: &mut Memo, child: usize) -> usize
    requires tidy { IsTidy memo.old }
    requires only { only_touched (out-Memo memo.old) ≡ Some child }
    ensures sealed { memo.new ≡ each_below sealed (out-Memo memo.old) }
    ensures made { result ≡ min (fresh_below (out-Memo memo.old).below) (2 ^ 64 - 1) }
{
    if child < memo.below.len() {
        seal(memo.below.at_mut(child))
    } else {
        0
    }
}

/// Seals each child of an element.
#[cycle(seal)]
fn seal_all(memo: &mut Memo) -> usize
    requires tidy { AreTidy (out-Memo memo.old).below }
    ensures sealed { memo.new ≡ each_below sealed (out-Memo memo.old) }
    ensures made { result ≡ min (fresh_below (out-Memo memo.old).below) (2 ^ 64 - 1) }
{
    let mut made = 0usize;
    for at in 0..memo.below.len() {
        made = made.saturating_add(seal(memo.below.at_mut(at)));
    }
    made
}

/// How many of these entries the present pass made.
fn count_fresh(entries: &[Entry]) -> usize
    ensures { result ≡ length (filter is_fresh entries.now) }
{
    let mut made = 0;
    for entry in entries {
        if entry.is_fresh() {
            made += 1;
        }
    }
    made
}

/// Drops the entries that the present pass made, and makes those that it made out of others what
/// they were.
fn undo_entries(entries: &mut List<Entry>)
    ensures { entries.new ≡ all_undone entries.old }
{
    let count = entries.len();
    for step in 0..count {
        let at = count - 1 - step;
        match take_origin(entries.at_mut(at)) {
            Origin::Standing => {}
            Origin::Made => drop_at(entries, at),
            Origin::Remade(was) => match first_of(was) {
                Some(before) => restore(entries.at_mut(at), before),
                // (an entry that was made anew holds what it was)
                None => drop_at(entries, at),
            },
        }
    }
}

/// What stands first in a list.
fn first_of(was: List<Before>) -> Option<Before>
    ensures { result ≡ slice_get was 0 }
{
    let mut was = was;
    if was.is_empty() {
        None
    } else {
        Some(was.remove(0))
    }
}

/// How an entry stands to the present pass; from then on it is one that the pass left as it was.
fn take_origin(entry: &mut Entry) -> Origin
    ensures origin { result ≡ entry.old.origin }
    ensures entry { entry.new ≡ settled entry.old }
{
    mem::replace(&mut entry.origin, Origin::Standing)
}

/// Has an entry stand from now on. Of one that the pass made out of nothing there is nothing to let
/// go of: most are such.
fn settle(entry: &mut Entry)
    ensures { entry.new ≡ settled entry.old }
{
    if entry.is_new() {
        entry.origin = Origin::Standing;
    } else {
        drop(take_origin(entry));
    }
}

/// Drops the older entries. The others stand from then on.
fn drop_older(entries: &mut List<Entry>, marked: bool)
    ensures { entries.new ≡ settled_all marked entries.old }
{
    let count = entries.len();
    for step in 0..count {
        let at = count - 1 - step;
        if is_live(marked, &entries.as_slice()[at]) {
            settle(entries.at_mut(at));
        } else {
            drop_at(entries, at);
        }
    }
}

/// Drops the entry at a place. It stands apart, so that entries that stay are passed by without the
/// frame of this call, which has room for an entry.
#[inline(never)]
fn drop_at(entries: &mut List<Entry>, at: usize)
    requires { at < length entries.old }
    ensures { entries.new ≡ remove entries.old at }
{
    drop(entries.remove(at));
}
