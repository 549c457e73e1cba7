ghost use Rattle.std.specs.Prelude.{◌≡◌, ℕ, ◌+ℤ◌, ◌-ℤ◌, Bool, [], ◌↔◌, IsNone, filter};
ghost use Rattle.hit_test.specs.Hits.{ComesFirst, box_in, boxes_of, hit_of, holding, holds, id_of_box, last_of, lies_between};
ghost use Rattle.hit_test.specs.Running.{or_last};

use box_writer::{Placed, PlacedBox, PlacedItem};
use math_tree::NodeId;

/// The element that a point lies in: the last of the deepest ones whose boxes hold it. A box holds
/// its left and its upper edge, but not the others. It takes no memory.
///
/// Boxes stand in document order, each before those inside its element. So the last one that holds
/// the point is the last of the deepest.
pub fn hit(placed: &Placed, x: i64, y: i64) -> Option<NodeId>
    ensures last { result ≡ id_of_box (last_of (holding x y placed.now)) }
    ensures deepest { (inside : ℕ → ℕ → Bool) → ComesFirst inside (boxes_of placed.now)
        → result ≡ hit_of inside x y placed.now }
    ensures none { IsNone result ↔ (holding x y placed.now ≡ []) }
{
    let mut last = None;
    for item in placed.items.as_slice() {
        last = or_hit(last, item, x, y);
    }
    last
}

/// The last hit, with one more item.
fn or_hit(last: Option<NodeId>, item: &PlacedItem, x: i64, y: i64) -> Option<NodeId>
    ensures { result ≡ or_last last (filter (holds x y) (box_in item.now)) }
{
    match item {
        PlacedItem::Frame(placed) => {
            if holds(placed, x, y) {
                Some(placed.id)
            } else {
                last
            }
        }
        PlacedItem::Drawn(_) => last,
    }
}

/// Whether a box holds a point.
fn holds(placed: &PlacedBox, x: i64, y: i64) -> bool
    ensures { result ≡ holds x y placed.now }
{
    let frame = &placed.frame;
    is_across(x, placed.x, frame.width) & is_along(y, placed.y, frame.ascent, frame.descent)
}

/// Whether a place lies from one on to before the end of a width.
fn is_across(place: i64, from: i64, width: i64) -> bool
    ensures { result ≡ lies_between place from (from +ℤ width) }
{
    lies_between(place, i128::from(from), more(from, width))
}

/// Whether a place lies from so far above a baseline on to before so far below it.
fn is_along(place: i64, baseline: i64, ascent: i64, descent: i64) -> bool
    ensures { result ≡ lies_between place (baseline -ℤ ascent) (baseline +ℤ descent) }
{
    lies_between(place, less(baseline, ascent), more(baseline, descent))
}

/// Whether a number lies from one on to before another.
fn lies_between(number: i64, from: i128, to: i128) -> bool
    ensures { result ≡ lies_between number from to }
{
    (from <= i128::from(number)) & (i128::from(number) < to)
}

fn more(number: i64, other: i64) -> i128
    ensures { result ≡ number +ℤ other }
{
    i128::from(number) + i128::from(other)
}

fn less(number: i64, other: i64) -> i128
    ensures { result ≡ number -ℤ other }
{
    i128::from(number) - i128::from(other)
}
