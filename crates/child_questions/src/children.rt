ghost use Rattle.std.specs.Prelude.{codes, ◌≡◌, ◌<◌, ◌≤◌, ◌^◌, pos, ◌≤ℤ◌, length};
ghost use Rattle.embellished.specs.Fences.{fences_in};
ghost use Rattle.embellished.specs.Seen.{seen_of};
ghost use Rattle.style_scope.specs.Sizes.{IsStyle, size_of};
ghost use Rattle.layout_model.specs.Contexts.{is_subscript, is_true, kid_axis, kid_context, kid_style, place_of};
ghost use Rattle.layout_model.specs.Questions.{base_properties};
ghost use Rattle.child_questions.specs.Surveys.{survey_of};

use crate::survey::Survey;
use embellished::{Fences, View, form_within, operator_properties, stretch_axis};
use fixed_units::is_word;
use font_metrics::Metrics;
use layout_model::{Context, Stretch};
use math_tree::{Attributes, Kind};
use op_dictionary::{Axis, Form, Properties};
use style_scope::{Place, Style, child_style};

/// Whether an attribute is `true`, in any case of ASCII letters.
pub fn is_true(name: &str, attributes: &Attributes) -> bool
    ensures { result ≡ is_true name.now attributes.now }
{
    match attributes.get(name) {
        Some(value) => is_word(value, "true"),
        None => false,
    }
}

/// Whether a child is a subscript of a valid `mmultiscripts`.
fn is_subscript<V: View>(parent: &V, index: usize) -> bool
    ensures { result ≡ is_subscript (seen_of (V.element parent.now)) index }
{
    matches!(parent.facts().laid, Kind::Mmultiscripts) && index % 2 == 1
}

/// Where a child in flow stands; what its parent's attributes say of accents is given.
fn place_of<V: View>(parent: &V, accent: bool, accentunder: bool, index: usize) -> Place
    requires accent { accent ≡ is_true (codes "accent")
        (seen_of (V.element parent.now)).head.attributes }
    requires accentunder { accentunder
        ≡ is_true (codes "accentunder") (seen_of (V.element parent.now)).head.attributes }
    requires index { index < 2 ^ 32 }
    ensures { result ≡ place_of (seen_of (V.element parent.now)) index }
{
    let subscript = is_subscript(parent, index);
    Place {
        parent: parent.head().kind,
        index: index as u32,
        accent,
        accentunder,
        subscript,
    }
}

/// The style of a child in flow.
pub fn style_of_kid<V: View>(
    parent: &V,
    context: &Context,
    metrics: &Metrics,
    index: usize,
) -> Style
    requires within { index < length (seen_of (V.element parent.now)).kids }
    requires style { IsStyle context.now.style }
    requires size { size_of metrics.now context.now.style ≤ℤ pos (2 ^ 20) }
    ensures value { result ≡ kid_style metrics.now (seen_of (V.element parent.now))
        context.now.style index }
    ensures style { IsStyle result }
{
    let attributes = &parent.head().attributes;
    let accent = is_true("accent", attributes);
    let accentunder = is_true("accentunder", attributes);
    kid_style(parent, accent, accentunder, context, metrics, index)
}

/// The same where it is known what its parent's attributes say of accents.
#[tactic(auto, unfolding(layout_model::specs::Contexts::kid_style))]
fn kid_style<V: View>(
    parent: &V,
    accent: bool,
    accentunder: bool,
    context: &Context,
    metrics: &Metrics,
    index: usize,
) -> Style
    requires accent { accent ≡ is_true (codes "accent")
        (seen_of (V.element parent.now)).head.attributes }
    requires accentunder { accentunder
        ≡ is_true (codes "accentunder") (seen_of (V.element parent.now)).head.attributes }
    requires within { index < length (seen_of (V.element parent.now)).kids }
    requires style { IsStyle context.now.style }
    requires size { size_of metrics.now context.now.style ≤ℤ pos (2 ^ 20) }
    ensures value { result ≡ kid_style metrics.now (seen_of (V.element parent.now))
        context.now.style index }
    ensures style { IsStyle result }
{
    let _count = parent.kids();
    let place = place_of(parent, accent, accentunder, index);
    child_style(&context.style, place, parent.kid(index), metrics)
}

/// What a child in flow is asked with, by what its parent sees.
pub fn kid_context<V: View>(
    parent: &V,
    survey: &Survey,
    context: &Context,
    metrics: &Metrics,
    index: usize,
    stretch: Stretch,
) -> Context
    requires known { survey.now
        ≡ survey_of metrics.now (seen_of (V.element parent.now)) context.now }
    requires within { index < length (seen_of (V.element parent.now)).kids }
    requires style { IsStyle context.now.style }
    requires size { size_of metrics.now context.now.style ≤ℤ pos (2 ^ 20) }
    ensures value { result ≡ kid_context metrics.now (seen_of (V.element parent.now)) context.now
        index stretch }
    ensures style { IsStyle result.style }
{
    let (accent, accentunder) = (survey.accent, survey.accentunder);
    Context {
        style: kid_style(parent, accent, accentunder, context, metrics, index),
        form: form_within(parent, survey.fences, index, context.form),
        stretch,
    }
}

/// The axis along which a child in flow stretches, where it does, below an element of this form.
#[tactic(auto, unfolding(layout_model::specs::Contexts::kid_axis))]
pub fn kid_axis<V: View>(
    parent: &V,
    fences: Fences,
    own: Form,
    metrics: &Metrics,
    index: usize,
) -> Option<Axis>
    requires known { fences ≡ fences_in (seen_of (V.element parent.now)).kids }
    requires within { index < length (seen_of (V.element parent.now)).kids }
    ensures { result ≡ kid_axis metrics.now (seen_of (V.element parent.now)) own index }
{
    let form = form_within(parent, fences, index, own);
    stretch_axis(parent.kid_facts(index), form, metrics.extra())
}

/// The properties of the first child's core in the form in which that child is asked, where it is
/// an embellished operator.
#[tactic(auto, unfolding(layout_model::specs::Questions::base_properties))]
pub fn base_properties<V: View>(
    parent: &V,
    fences: Fences,
    context: &Context,
    metrics: &Metrics,
) -> Option<Properties>
    requires known { fences ≡ fences_in (seen_of (V.element parent.now)).kids }
    ensures { result ≡ base_properties metrics.now (seen_of (V.element parent.now)) context.now }
{
    if parent.kids() == 0 {
        return None;
    }
    let core = parent.kid_facts(0).core?;
    let form = form_within(parent, fences, 0, context.form);
    Some(operator_properties(&core, form, metrics.extra()))
}
