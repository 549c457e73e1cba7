ghost use Rattle.std.specs.Prelude.{◌≡◌, ◌<◌, ◌≤◌, ◌^◌, IfOk, length, slice_index_or};
ghost use Rattle.std.specs.List.{All};
ghost use Rattle.fixed_units.specs.Sums.{list_to};
ghost use Rattle.multiscripts.specs.Along.{IsPairStored};
ghost use Rattle.multiscripts.specs.Placing.{multi_of};
ghost use Rattle.layout_model.specs.Elements.{font, frame_at};
ghost use Rattle.layout_model.specs.Equations.{has_large_base, multi_outcome, offset_in, pair_at, pairs_of, spot_at, spot_of};
ghost use Rattle.outcomes.specs.Outcomes.{IsOutcome};
ghost use Rattle.outcomes.specs.Reach.{offset_reached};

use crate::direction::placed_in;
use crate::element::Element;
use crate::script::has_large_base;
use embellished::View;
use fixed_units::{List, Memory};
use layout_model::{Offset, Outcome};
use multiscripts::{Multi, Pair, multi};
use scripts::Spot;
use std::alloc::Global;

/// A base with scripts in pairs, behind it and before it (MathML Core 3.4.3).
#[tactic(auto, using(fixed_units::proofs::Signed::from_bits), unfolding(layout_model::specs::Equations::multi_outcome))]
pub fn multi_outcome<V: View>(alloc: Global, e: &Element<V>) -> Result<Outcome, Memory>
    ensures { IfOk result (IsOutcome (multi_outcome e.now)) }
{
    let multi = multi_in(alloc, e)?;
    let offsets = offsets_in(alloc, e, &multi)?;
    Ok(e.outcome(alloc, multi.frame, offsets, List::make(alloc)))
}

fn multi_in<V: View>(alloc: Global, e: &Element<V>) -> Result<Multi, Memory>
    ensures { IfOk result (λ multi. multi ≡ multi_of e.now.metrics (frame_at e.now 0)
        (has_large_base e.now)
        e.now.context.style.cramped (pairs_of e.now) (font e.now)) }
{
    let pairs = pairs_of(alloc, e)?;
    let base = e.frame(0);
    let large = has_large_base(e);
    let cramped = e.context().style.cramped;
    multi(alloc, &base, large, cramped, &pairs, e.size(), e.metrics())
}

/// The scripts two and two, the subscript first.
#[tactic(auto, unfolding(layout_model::specs::Equations::pairs_of))]
fn pairs_of<V: View>(alloc: Global, e: &Element<V>) -> Result<List<Pair>, Memory>
    ensures value { IfOk result (λ pairs. pairs ≡ pairs_of e.now) }
    ensures few { IfOk result (λ pairs. length pairs ≤ 65_536) }
    ensures stored { IfOk result (All IsPairStored) }
{
    let count = e.count().saturating_sub(1) / 2;
    let mut pairs = List::make(alloc);
    for index in 0..count {
        pairs.push(pair_at(e, index))?;
    }
    Ok(pairs)
}

fn pair_at<V: View>(e: &Element<V>, index: usize) -> Pair
    requires { index < 2 ^ 32 }
    ensures value { result ≡ pair_at e.now index }
    ensures stored { IsPairStored result }
{
    let place = 2 * index + 1;
    Pair {
        sub: e.frame(place),
        sup: e.frame(place + 1),
        before: e.view().prescripts() <= place,
    }
}

/// The base and its scripts, where they stand.
fn offsets_in<V: View>(alloc: Global, e: &Element<V>, multi: &Multi) -> Result<List<Offset>, Memory>
    ensures { IfOk result (λ offsets.
        offsets ≡ list_to (length e.now.seen.kids) (λ kid. offset_reached (offset_in e.now multi.now
        kid))) }
{
    let mut offsets = List::make(alloc);
    for kid in 0..e.count() {
        let spot = spot_of(multi, kid);
        offsets.push(placed_in(e, &multi.frame, kid as u32, spot.x, spot.y))?;
    }
    Ok(offsets)
}

/// Where the child at a place stands.
#[tactic(auto, unfolding(layout_model::specs::Equations::spot_of))]
fn spot_of(multi: &Multi, place: usize) -> Spot
    ensures { result ≡ spot_of multi.now place }
{
    if place == 0 {
        multi.base
    } else if place % 2 == 1 {
        spot_at(multi.subs.as_slice(), place / 2)
    } else {
        spot_at(multi.sups.as_slice(), place / 2 - 1)
    }
}

fn spot_at(spots: &[Spot], index: usize) -> Spot
    ensures { result ≡ spot_at spots.now index }
{
    match spots.get(index) {
        Some(spot) => *spot,
        None => Spot { x: 0, y: 0 },
    }
}
