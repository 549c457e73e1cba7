//! Which corners of glyphs move the scripts of a base.
ghost use Rattle.std.specs.Prelude.{◌≡◌, ◌<◌, ◌^◌, pos, ◌≤ℤ◌, length, IfOk, IfSome};
ghost use Rattle.font_metrics.specs.declared.corner.Corner.{Corner as CornerValue};
ghost use Rattle.layout_model.specs.Direction.{turned_corner};
ghost use Rattle.layout_model.specs.Equations.{corner_at, sub_corners, sub_sup_corners, sup_corners};
ghost use Rattle.scripts.specs.Kerns.{AreInked};
ghost use Rattle.outcomes.specs.Corners.{CountAs, IsAlone, cornered};

use crate::direction::turned_corner;
use crate::element::Element;
use embellished::View;
use fixed_units::Memory;
use font_metrics::{Corner, GlyphId};
use scripts::{Inked, KernFrom, NO_CORNERS};
use std::alloc::Global;
use token_boxes::token_glyph;

/// The corners at which from left to right a subscript meets its base, and a superscript its.
const BASE_OF_SUB: Corner = Corner::BottomRight;

const SUB: Corner = Corner::TopLeft;

const BASE_OF_SUP: Corner = Corner::TopRight;

const SUP: Corner = Corner::BottomLeft;

/// The only glyph that a child shows, at the child's font size in units.
#[derive(Clone, Copy, Debug, PartialEq, Eq)]
pub struct Alone {
    pub glyph: GlyphId,
    pub size: i64,
}

/// The corners of a base and its subscript. Where no glyph has a kern none is looked for.
pub fn sub_corners<V: View>(alloc: Global, e: &Element<V>) -> Result<KernFrom, Memory>
    ensures value { IfOk result (λ from. CountAs e.now.metrics from (sub_corners e.now)) }
    ensures inked { IfOk result (AreInked (length e.now.metrics.glyphs)) }
{
    if e.metrics().has_no_kerns() {
        return Ok(NO_CORNERS);
    }
    let rtl = e.context().style.rtl;
    let base = alone_at(alloc, e, 0)?;
    let sub = alone_at(alloc, e, 1)?;
    Ok(KernFrom {
        base_sub: corner_of(rtl, base, BASE_OF_SUB),
        sub: corner_of(rtl, sub, SUB),
        base_sup: None,
        sup: None,
    })
}

/// The corners of a base and its superscript. Where no glyph has a kern none is looked for.
pub fn sup_corners<V: View>(alloc: Global, e: &Element<V>) -> Result<KernFrom, Memory>
    ensures value { IfOk result (λ from. CountAs e.now.metrics from (sup_corners e.now)) }
    ensures inked { IfOk result (AreInked (length e.now.metrics.glyphs)) }
{
    if e.metrics().has_no_kerns() {
        return Ok(NO_CORNERS);
    }
    let rtl = e.context().style.rtl;
    let base = alone_at(alloc, e, 0)?;
    let sup = alone_at(alloc, e, 1)?;
    Ok(KernFrom {
        base_sub: None,
        sub: None,
        base_sup: corner_of(rtl, base, BASE_OF_SUP),
        sup: corner_of(rtl, sup, SUP),
    })
}

/// The corners of a base and its two scripts. Where no glyph has a kern none is looked for.
pub fn sub_sup_corners<V: View>(alloc: Global, e: &Element<V>) -> Result<KernFrom, Memory>
    ensures value { IfOk result (λ from. CountAs e.now.metrics from (sub_sup_corners e.now)) }
    ensures inked { IfOk result (AreInked (length e.now.metrics.glyphs)) }
{
    if e.metrics().has_no_kerns() {
        return Ok(NO_CORNERS);
    }
    let rtl = e.context().style.rtl;
    let base = alone_at(alloc, e, 0)?;
    let sub = alone_at(alloc, e, 1)?;
    let sup = alone_at(alloc, e, 2)?;
    Ok(KernFrom {
        base_sub: corner_of(rtl, base, BASE_OF_SUB),
        sub: corner_of(rtl, sub, SUB),
        base_sup: corner_of(rtl, base, BASE_OF_SUP),
        sup: corner_of(rtl, sup, SUP),
    })
}

/// The only glyph that the child in flow at a place shows, where there is one.
#[tactic(auto, using(fixed_units::proofs::Signed::from_bits), unfolding(layout_model::specs::Equations::corner_at))]
fn alone_at<V: View>(alloc: Global, e: &Element<V>, index: usize) -> Result<Option<Alone>, Memory>
    ensures value { IfOk result (λ alone. (corner : CornerValue) →
        cornered (turned_corner e.now.context.style.rtl corner) alone ≡ corner_at e.now corner
        index) }
    ensures alone { IfOk result (λ alone. IfSome alone (IsAlone (length e.now.metrics.glyphs))) }
{
    if index >= e.count() {
        return Ok(None);
    }
    match token_glyph(alloc, e.view().kid(index), e.metrics())? {
        None => Ok(None),
        Some(glyph) => {
            let size = e.size_of_kid(index);
            Ok(Some(Alone { glyph, size }))
        }
    }
}

/// A corner of the only glyph that a child shows, or from right to left the one on the other side.
fn corner_of(rtl: bool, alone: Option<Alone>, corner: Corner) -> Option<Inked>
    ensures { result ≡ cornered (turned_corner rtl corner) alone }
{
    match alone {
        None => None,
        Some(alone) => Some(Inked {
            glyph: alone.glyph,
            corner: turned_corner(rtl, corner),
            size: alone.size,
        }),
    }
}
