ghost use Rattle.std.specs.Prelude.{◌≡◌, ℕ, ◌+◌, ◌<◌, ◌≤◌, length, take, false, slice_index_or, eqb};
ghost use Rattle.std.specs.List.{All, copy_within, filter, list_any, IsDistinct};
ghost use Rattle.std.specs.List.Sorted.{IsPermutation};
ghost use Rattle.box_pool.specs.Runs.{runs_at, Follows, is_listed, is_marked};

use crate::cell::Cell;
use crate::place::{Extent, Place};
use crate::pool::RunId;

/// Marks exactly the listed ids.
pub(crate) fn mark_listed(marks: &mut [bool], keep: &[RunId])
    requires { All (λ run. run.0 < length marks.old) keep.now }
    ensures { (id : ℕ) → id < length marks.new →
        slice_index_or marks.new id false ≡ is_listed keep.now id }
{
    marks.fill(false);
    for run in keep {
        marks[run.0 as usize] = true;
    }
}

/// Moves the cells of a run to a place in front of it, or leaves them where they are to stay. They
/// are copied at once where the two don't overlap.
fn slide(cells: &mut [Cell], run: Place, to: usize)
    requires forward { to ≤ run.start }
    requires within { run.start + run.count ≤ length cells.old }
    ensures { cells.new ≡ copy_within cells.old run.start (run.start + run.count) to }
{
    if to == run.start {
        return;
    }
    if run.count <= run.start - to {
        let (front, back) = cells.split_at_mut(run.start);
        front[to..to + run.count].copy_from_slice(&back[..run.count]);
    } else {
        cells.copy_within(run.start..run.start + run.count, to);
    }
}

/// Moves the marked runs to the front of the block, in their order, and their ids to the front of
/// the order of ids.
pub(crate) fn compact(
    cells: &mut [Cell],
    places: &mut [Place],
    order: &mut [usize],
    marks: &[bool],
    now: Extent,
) -> Extent
    requires distinct { IsDistinct eqb order.old }
    requires placed { All (λ id. id < length places.old) order.old }
    requires marked { All (λ id. id < length marks.now) order.old }
    requires live { now.live ≤ length order.old }
    requires used { now.used ≤ length cells.old }
    requires follows { Follows places.old 0 (take now.live order.old) now.used }
    ensures permuted { IsPermutation order.old order.new }
    ensures live { result.live ≤ now.live }
    ensures used { result.used ≤ now.used }
    ensures follows { Follows places.new 0 (take result.live order.new) result.used }
    ensures runs { runs_at places.new cells.new (take result.live order.new)
        ≡ filter (is_marked marks.now) (runs_at places.old cells.old (take now.live order.old)) }
{
    let mut live = 0;
    let mut used = 0;
    for at in 0..now.live {
        let id = order[at];
        if marks[id] {
            let place = places[id];
            slide(cells, place, used);
            places[id] = Place {
                start: used,
                count: place.count,
            };
            order.swap(live, at);
            used += place.count;
            live += 1;
        }
    }
    Extent { live, used }
}
