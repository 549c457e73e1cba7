ghost use Rattle.std.specs.Prelude.{◌≡◌, map, IfOk};
ghost use Rattle.radicals.specs.Placing.{root_with_index_of};
ghost use Rattle.layout_model.specs.Elements.{font, frame_at};
ghost use Rattle.layout_model.specs.Equations.{root_marks, root_outcome, with_index};
ghost use Rattle.outcomes.specs.Outcomes.{IsOutcome};
ghost use Rattle.outcomes.specs.Reach.{mark_reached};

use crate::direction::{placed_in, turned_mark, x_of};
use crate::element::Element;
use crate::listing::list_of;
use embellished::View;
use fixed_units::{List, Memory};
use font_metrics::Mark;
use layout_model::Outcome;
use radicals::{Radical, root_with_index};
use std::alloc::Global;

/// A root with an index (MathML Core 3.3.3.3).
pub fn root_outcome<V: View>(alloc: Global, e: &Element<V>) -> Result<Outcome, Memory>
    ensures { IfOk result (IsOutcome (root_outcome e.now)) }
{
    with_index(alloc, e, &root_in(e))
}

fn root_in<V: View>(e: &Element<V>) -> Radical
    ensures { result ≡ root_with_index_of e.now.metrics (frame_at e.now 0) (frame_at e.now 1)
        e.now.context.style.display (font e.now) }
{
    let (base, index) = (e.frame(0), e.frame(1));
    let display = e.context().style.display;
    root_with_index(&base, &index, display, e.size(), e.metrics())
}

fn with_index<V: View>(alloc: Global, e: &Element<V>, root: &Radical) -> Result<Outcome, Memory>
    ensures { IfOk result (IsOutcome (with_index e.now root.now)) }
{
    let base = placed_in(e, &root.frame, 0, root.base.x, root.base.y);
    let index = placed_in(e, &root.frame, 1, root.index.x, root.index.y);
    let offsets = list_of(alloc, &[base, index])?;
    let marks = root_marks(alloc, e, e.frame(0).width, root)?;
    Ok(e.outcome(alloc, root.frame, offsets, marks))
}

/// The surd, which ends where the base begins, and the rule over a base of this width, in the
/// direction of the element.
pub fn root_marks<V: View>(
    alloc: Global,
    e: &Element<V>,
    base: i64,
    root: &Radical,
) -> Result<List<Mark>, Memory>
    ensures { IfOk result (λ marks. marks ≡ map mark_reached (root_marks e.now base root.now)) }
{
    let rtl = e.context().style.rtl;
    let width = i128::from(root.base.x) - i128::from(x_of(&root.surd));
    let surd = turned_mark(rtl, root.frame.width, width, &root.surd);
    let rule = turned_mark(rtl, root.frame.width, i128::from(base), &root.rule);
    list_of(alloc, &[surd, rule])
}
