ghost use Rattle.std.specs.Prelude.{◌≡◌, ◌≤◌, ◌<◌, length, IfOk, map};
ghost use Rattle.embellished.specs.Fences.{fences_in};
ghost use Rattle.embellished.specs.Seen.{seen_of};
ghost use Rattle.layout_model.specs.Questions.{asking, base_asks_of, first_asks, has_moved_limits, kid_pulls, second_asks};

use crate::children::{base_properties, kid_axis};
use embellished::{Fences, View};
use fixed_units::{List, MathBox, Memory, Pull};
use font_metrics::Metrics;
use layout_model::{Asking, Context};
use op_dictionary::Axis;
use row_stretch::{Ask, KidPull, Plan, add_asks, row_wave_one, row_wave_two};
use scripts::{limit_wave_one, limit_wave_two};
use std::alloc::Global;

/// What is known of the children in flow before they are laid out.
#[tactic(auto, unfolding(layout_model::specs::Questions::kid_pulls))]
pub fn kid_pulls<V: View>(
    alloc: Global,
    parent: &V,
    fences: Fences,
    context: &Context,
    metrics: &Metrics,
) -> Result<List<KidPull>, Memory>
    requires known { fences ≡ fences_in (seen_of (V.element parent.now)).kids }
    ensures { IfOk result (λ pulls. pulls
        ≡ kid_pulls metrics.now (seen_of (V.element parent.now)) context.now) }
{
    let mut pulls = List::with_room(alloc, parent.kids())?;
    for index in 0..parent.kids() {
        let axis = kid_axis(parent, fences, context.form, metrics, index);
        pulls.push(KidPull { axis })?;
    }
    Ok(pulls)
}

/// Whether limits stand beside their base as scripts (MathML Core 3.4.2): the base has
/// `movablelimits`, and the element isn't in display style.
pub fn has_moved_limits<V: View>(
    parent: &V,
    fences: Fences,
    context: &Context,
    metrics: &Metrics,
) -> bool
    requires known { fences ≡ fences_in (seen_of (V.element parent.now)).kids }
    ensures { result ≡ has_moved_limits metrics.now (seen_of (V.element parent.now)) context.now }
{
    !context.style.display
        && match base_properties(parent, fences, context, metrics) {
            Some(base) => base.movablelimits,
            None => false,
        }
}

/// How an element asks its children in a context.
#[tactic(auto, unfolding(layout_model::specs::Questions::asking))]
pub fn asking<V: View>(parent: &V, fences: Fences, context: &Context, metrics: &Metrics) -> Asking
    requires known { fences ≡ fences_in (seen_of (V.element parent.now)).kids }
    ensures { result ≡ asking metrics.now (seen_of (V.element parent.now)) context.now }
{
    match Asking::of(parent.facts().laid) {
        Asking::AsLimits => {
            if has_moved_limits(parent, fences, context, metrics) {
                Asking::ForTheBase
            } else {
                Asking::AsLimits
            }
        }
        other => other,
    }
}

/// Which children are asked in the first wave, and with which pull.
#[tactic(auto, unfolding(layout_model::specs::Questions::first_asks))]
pub fn first_asks(
    alloc: Global,
    asking: Asking,
    kids: &List<KidPull>,
    own: Pull,
) -> Result<List<Ask>, Memory>
    requires few { length kids.now ≤ 65_535 }
    ensures { IfOk result (λ asks. asks ≡ first_asks asking kids.now own) }
{
    match asking {
        Asking::Nothing => Ok(List::make(alloc)),
        Asking::Plainly | Asking::AsTable => {
            let asks = List::with_room(alloc, kids.len())?;
            add_asks(asks, 0, kids.as_slice(), UNSTRETCHED)
        }
        Asking::ForTheBase => base_asks(alloc, kids, own),
        Asking::AsRow => row_wave_one(alloc, kids, own),
        Asking::AsLimits => limit_wave_one(alloc, kids, own),
    }
}

/// All children, none of them stretched.
const UNSTRETCHED: Plan = Plan {
    axis: Axis::Block,
    stretching: Some(Pull::Free),
    others: Some(Pull::Free),
};

/// The base with what stretches the element, and the others unstretched.
fn base_asks(alloc: Global, kids: &List<KidPull>, own: Pull) -> Result<List<Ask>, Memory>
    requires few { length kids.now ≤ 65_535 }
    ensures { IfOk result (λ asks. asks ≡ base_asks_of kids.now own) }
{
    let mut asks = List::with_room(alloc, kids.len())?;
    let Some((_, others)) = kids.as_slice().split_first() else {
        return Ok(asks);
    };
    asks.push(Ask { kid: 0, pull: own })?;
    add_asks(asks, 1, others, UNSTRETCHED)
}

/// Which children are asked in the second wave, over the boxes that the first one gave.
#[tactic(auto, unfolding(layout_model::specs::Questions::second_asks))]
pub fn second_asks(
    alloc: Global,
    asking: Asking,
    kids: &List<KidPull>,
    own: Pull,
    first: &List<MathBox>,
) -> Result<List<Ask>, Memory>
    requires few { length kids.now ≤ 65_535 }
    ensures { IfOk result (λ asks. asks ≡ second_asks asking kids.now own first.now) }
{
    match asking {
        Asking::AsRow => row_wave_two(alloc, kids, own, first),
        Asking::AsLimits => limit_wave_two(alloc, kids, own, first),
        _ => Ok(List::make(alloc)),
    }
}
