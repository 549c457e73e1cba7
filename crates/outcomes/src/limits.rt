ghost use Rattle.std.specs.Prelude.{◌≡◌, IfOk, IfSome, [], ◌∷◌};
ghost use Rattle.fixed_units.specs.Boxes.{IsStored};
ghost use Rattle.layout_model.specs.Contexts.{kid_axis};
ghost use Rattle.layout_model.specs.Elements.{offset, outcome};
ghost use Rattle.layout_model.specs.Equations.{is_inline, limit_case, limits_in, over_outcome, sub_outcome, sub_sup_outcome, sup_outcome, under_outcome, under_over_outcome, unless_moved};
ghost use Rattle.layout_model.specs.Questions.{has_moved_limits};
ghost use Rattle.outcomes.specs.Outcomes.{IsOutcome};

use crate::element::Element;
use crate::listing::list_of;
use crate::script::{has_large_base, sub_outcome, sub_sup_outcome, sup_outcome};
use child_questions::{has_moved_limits, is_true, kid_axis};
use embellished::{View, fences_of};
use fixed_units::{List, MathBox, Memory};
use layout_model::{Offset, Outcome};
use op_dictionary::Axis;
use scripts::{LimitCase, Limits, Spot, under_over};
use std::alloc::Global;

/// A base with a limit below it, or with a subscript where that is moved (MathML Core 3.4.2).
pub fn under_or_sub<V: View>(alloc: Global, e: &Element<V>) -> Result<Outcome, Memory>
    ensures { IfOk result
        (IsOutcome (unless_moved e.now (under_outcome e.now) (sub_outcome e.now))) }
{
    if are_moved(e) {
        sub_outcome(alloc, e)
    } else {
        with_under(alloc, e, &limits_in(e, Some(e.frame(1)), None))
    }
}

fn with_under<V: View>(alloc: Global, e: &Element<V>, limits: &Limits) -> Result<Outcome, Memory>
    ensures { IfOk result (λ made. made ≡ outcome e.now limits.now.frame
        (offset 0 limits.now.base.x limits.now.base.y ∷ offset 1 limits.now.under.x
        limits.now.under.y ∷ []) []) }
{
    let base = offset_at(0, &limits.base);
    let offsets = list_of(alloc, &[base, offset_at(1, &limits.under)])?;
    Ok(e.outcome(alloc, limits.frame, offsets, List::make(alloc)))
}

/// A base with a limit above it, or with a superscript where that is moved (MathML Core 3.4.2).
pub fn over_or_sup<V: View>(alloc: Global, e: &Element<V>) -> Result<Outcome, Memory>
    ensures { IfOk result
        (IsOutcome (unless_moved e.now (over_outcome e.now) (sup_outcome e.now))) }
{
    if are_moved(e) {
        sup_outcome(alloc, e)
    } else {
        with_over(alloc, e, &limits_in(e, None, Some(e.frame(1))))
    }
}

fn with_over<V: View>(alloc: Global, e: &Element<V>, limits: &Limits) -> Result<Outcome, Memory>
    ensures { IfOk result (λ made. made ≡ outcome e.now limits.now.frame
        (offset 0 limits.now.base.x limits.now.base.y ∷ offset 1 limits.now.over.x limits.now.over.y
        ∷ []) []) }
{
    let base = offset_at(0, &limits.base);
    let offsets = list_of(alloc, &[base, offset_at(1, &limits.over)])?;
    Ok(e.outcome(alloc, limits.frame, offsets, List::make(alloc)))
}

/// A base with limits below and above it, or with two scripts where those are moved (MathML Core
/// 3.4.2).
pub fn limits_or_scripts<V: View>(alloc: Global, e: &Element<V>) -> Result<Outcome, Memory>
    ensures { IfOk result (IsOutcome (unless_moved e.now (under_over_outcome e.now) (sub_sup_outcome
        e.now))) }
{
    if are_moved(e) {
        sub_sup_outcome(alloc, e)
    } else {
        with_limits(alloc, e, &limits_in(e, Some(e.frame(1)), Some(e.frame(2))))
    }
}

fn with_limits<V: View>(alloc: Global, e: &Element<V>, limits: &Limits) -> Result<Outcome, Memory>
    ensures { IfOk result (λ made. made ≡ outcome e.now limits.now.frame
        (offset 0 limits.now.base.x limits.now.base.y ∷ offset 1 limits.now.under.x
        limits.now.under.y
        ∷ offset 2 limits.now.over.x limits.now.over.y ∷ []) []) }
{
    let base = offset_at(0, &limits.base);
    let under = offset_at(1, &limits.under);
    let over = offset_at(2, &limits.over);
    let offsets = list_of(alloc, &[base, under, over])?;
    Ok(e.outcome(alloc, limits.frame, offsets, List::make(alloc)))
}

/// A child at a place.
fn offset_at(kid: u32, spot: &Spot) -> Offset
    ensures { result ≡ offset kid spot.now.x spot.now.y }
{
    Offset {
        kid,
        x: spot.x,
        y: spot.y,
    }
}

/// Whether limits stand beside their base as scripts.
fn are_moved<V: View>(e: &Element<V>) -> bool
    ensures { result ≡ has_moved_limits e.now.metrics e.now.seen e.now.context }
{
    let view = e.view();
    has_moved_limits(view, fences_of(view), e.context(), e.metrics())
}

/// The base with these limits.
fn limits_in<V: View>(e: &Element<V>, under: Option<MathBox>, over: Option<MathBox>) -> Limits
    requires under_fits { IfSome under IsStored }
    requires over_fits { IfSome over IsStored }
    ensures { result ≡ limits_in e.now under over }
{
    let attributes = e.attributes();
    under_over(
        &e.frame(0),
        under,
        over,
        limit_case(e),
        is_true("accent", attributes),
        is_true("accentunder", attributes),
        e.size(),
        e.metrics(),
    )
}

/// As what the limits are laid out.
#[tactic(auto, using(fixed_units::proofs::Signed::from_bits), unfolding(layout_model::specs::Equations::limit_case))]
fn limit_case<V: View>(e: &Element<V>) -> LimitCase
    ensures { result ≡ limit_case e.now }
{
    if has_large_base(e) {
        LimitCase::Large
    } else if is_inline(base_axis(e)) {
        LimitCase::Stretchy
    } else {
        LimitCase::Plain
    }
}

fn is_inline(axis: Option<Axis>) -> bool
    ensures { result ≡ is_inline axis }
{
    matches!(axis, Some(Axis::Inline))
}

/// The axis along which the base stretches, where it does.
#[tactic(auto, using(fixed_units::proofs::Signed::from_bits), unfolding(layout_model::specs::Contexts::kid_axis))]
fn base_axis<V: View>(e: &Element<V>) -> Option<Axis>
    ensures { result ≡ kid_axis e.now.metrics e.now.seen e.now.context.form 0 }
{
    if e.count() == 0 {
        return None;
    }
    let view = e.view();
    kid_axis(view, fences_of(view), e.context().form, e.metrics(), 0)
}
