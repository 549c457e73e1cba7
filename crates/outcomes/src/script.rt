ghost use Rattle.std.specs.Prelude.{◌≡◌, IfOk, pos, [], ◌∷◌};
ghost use Rattle.scripts.specs.Beside.{sub_of, sub_sup_of, sup_of};
ghost use Rattle.layout_model.specs.Elements.{font, frame_at, outcome, placed_in};
ghost use Rattle.layout_model.specs.Equations.{has_large_base, sub_corners, sub_outcome, sub_sup_corners, sub_sup_outcome, sup_corners, sup_outcome};
ghost use Rattle.outcomes.specs.Outcomes.{IsOutcome};

use crate::corners::{sub_corners, sub_sup_corners, sup_corners};
use crate::direction::placed_in;
use crate::element::Element;
use crate::listing::list_of;
use child_questions::base_properties;
use embellished::{View, fences_of};
use fixed_units::{List, Memory};
use layout_model::Outcome;
use scripts::{Scripted, sub, sub_sup, sup};
use std::alloc::Global;

/// Whether the base is a large operator.
pub fn has_large_base<V: View>(e: &Element<V>) -> bool
    ensures { result ≡ has_large_base e.now }
{
    let view = e.view();
    match base_properties(view, fences_of(view), e.context(), e.metrics()) {
        Some(base) => base.largeop,
        None => false,
    }
}

/// A base with a subscript (MathML Core 3.4.1).
pub fn sub_outcome<V: View>(alloc: Global, e: &Element<V>) -> Result<Outcome, Memory>
    ensures { IfOk result (IsOutcome (sub_outcome e.now)) }
{
    let scripted = sub_in(alloc, e)?;
    with_sub(alloc, e, &scripted)
}

fn sub_in<V: View>(alloc: Global, e: &Element<V>) -> Result<Scripted, Memory>
    ensures { IfOk result (λ scripted. scripted ≡ sub_of e.now.metrics (frame_at e.now 0)
        (has_large_base e.now) (frame_at e.now 1)
        (sub_corners e.now) (font e.now)) }
{
    let from = sub_corners(alloc, e)?;
    let large = has_large_base(e);
    let (base, script) = (e.frame(0), e.frame(1));
    Ok(sub(&base, large, &script, &from, e.size(), e.metrics()))
}

fn with_sub<V: View>(alloc: Global, e: &Element<V>, scripted: &Scripted) -> Result<Outcome, Memory>
    ensures { IfOk result (IsOutcome (outcome e.now scripted.now.frame
        (placed_in e.now scripted.now.frame 0 (pos 0) (pos 0)
        ∷ placed_in e.now scripted.now.frame 1 scripted.now.sub.x scripted.now.sub.y ∷ []) [])) }
{
    let frame = &scripted.frame;
    let base = placed_in(e, frame, 0, 0, 0);
    let script = placed_in(e, frame, 1, scripted.sub.x, scripted.sub.y);
    let offsets = list_of(alloc, &[base, script])?;
    Ok(e.outcome(alloc, scripted.frame, offsets, List::make(alloc)))
}

/// A base with a superscript (MathML Core 3.4.1).
pub fn sup_outcome<V: View>(alloc: Global, e: &Element<V>) -> Result<Outcome, Memory>
    ensures { IfOk result (IsOutcome (sup_outcome e.now)) }
{
    let scripted = sup_in(alloc, e)?;
    with_sup(alloc, e, &scripted)
}

fn sup_in<V: View>(alloc: Global, e: &Element<V>) -> Result<Scripted, Memory>
    ensures { IfOk result (λ scripted. scripted ≡ sup_of e.now.metrics (frame_at e.now 0)
        (has_large_base e.now) e.now.context.style.cramped
        (frame_at e.now 1) (sup_corners e.now) (font e.now)) }
{
    let from = sup_corners(alloc, e)?;
    let large = has_large_base(e);
    let cramped = e.context().style.cramped;
    let (base, script) = (e.frame(0), e.frame(1));
    let size = e.size();
    Ok(sup(&base, large, cramped, &script, &from, size, e.metrics()))
}

fn with_sup<V: View>(alloc: Global, e: &Element<V>, scripted: &Scripted) -> Result<Outcome, Memory>
    ensures { IfOk result (IsOutcome (outcome e.now scripted.now.frame
        (placed_in e.now scripted.now.frame 0 (pos 0) (pos 0)
        ∷ placed_in e.now scripted.now.frame 1 scripted.now.sup.x scripted.now.sup.y ∷ []) [])) }
{
    let frame = &scripted.frame;
    let base = placed_in(e, frame, 0, 0, 0);
    let script = placed_in(e, frame, 1, scripted.sup.x, scripted.sup.y);
    let offsets = list_of(alloc, &[base, script])?;
    Ok(e.outcome(alloc, scripted.frame, offsets, List::make(alloc)))
}

/// A base with a subscript and a superscript (MathML Core 3.4.1).
pub fn sub_sup_outcome<V: View>(alloc: Global, e: &Element<V>) -> Result<Outcome, Memory>
    ensures { IfOk result (IsOutcome (sub_sup_outcome e.now)) }
{
    let scripted = sub_sup_in(alloc, e)?;
    with_both(alloc, e, &scripted)
}

fn sub_sup_in<V: View>(alloc: Global, e: &Element<V>) -> Result<Scripted, Memory>
    ensures { IfOk result (λ scripted. scripted ≡ sub_sup_of e.now.metrics (frame_at e.now 0)
        (has_large_base e.now) e.now.context.style.cramped
        (frame_at e.now 1) (frame_at e.now 2) (sub_sup_corners e.now) (font e.now)) }
{
    let from = sub_sup_corners(alloc, e)?;
    let large = has_large_base(e);
    let cramped = e.context().style.cramped;
    let (base, below, above) = (e.frame(0), e.frame(1), e.frame(2));
    let size = e.size();
    Ok(sub_sup(
        &base,
        large,
        cramped,
        &below,
        &above,
        &from,
        size,
        e.metrics(),
    ))
}

fn with_both<V: View>(alloc: Global, e: &Element<V>, scripted: &Scripted) -> Result<Outcome, Memory>
    ensures { IfOk result (IsOutcome (outcome e.now scripted.now.frame
        (placed_in e.now scripted.now.frame 0 (pos 0) (pos 0)
        ∷ placed_in e.now scripted.now.frame 1 scripted.now.sub.x scripted.now.sub.y
        ∷ placed_in e.now scripted.now.frame 2 scripted.now.sup.x scripted.now.sup.y ∷ []) [])) }
{
    let frame = &scripted.frame;
    let base = placed_in(e, frame, 0, 0, 0);
    let below = placed_in(e, frame, 1, scripted.sub.x, scripted.sub.y);
    let above = placed_in(e, frame, 2, scripted.sup.x, scripted.sup.y);
    let offsets = list_of(alloc, &[base, below, above])?;
    Ok(e.outcome(alloc, scripted.frame, offsets, List::make(alloc)))
}
