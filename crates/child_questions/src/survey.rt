ghost use Rattle.std.specs.Prelude.{◌≡◌, true, false, is_none, IfOk, OnOk, Err};
ghost use Rattle.std.specs.List.{list_all};
ghost use Rattle.fixed_units.specs.declared.refusal.LayRefusal.TheVariants.{Range};
ghost use Rattle.embellished.specs.Seen.{seen_of};
ghost use Rattle.style_scope.specs.Sizes.{IsStyle, size_of};
ghost use Rattle.layout_model.specs.Range.{is_font_size};
ghost use Rattle.child_questions.specs.Surveys.{has_one_wave, survey_of};

use crate::asks::{asking, kid_pulls};
use crate::children::is_true;
use embellished::{Fences, View, fences_of};
use fixed_units::{LayRefusal, List, Memory};
use font_metrics::Metrics;
use layout_model::{Asking, Context};
use row_stretch::KidPull;
use std::alloc::Global;
use style_scope::{Style, font_size};

/// What an element that is to be laid out in a context sees of its children before it asks them:
/// the questions of both waves come from it.
#[derive(Debug, Drop)]
pub struct Survey {
    /// How it asks them.
    pub asking: Asking,
    /// Which of them are fences.
    pub fences: Fences,
    /// Along which axis each of them stretches.
    pub pulls: List<KidPull>,
    /// Whether its attributes say that what stands over it is an accent.
    pub accent: bool,
    /// The same of what stands under it.
    pub accentunder: bool,
}

impl Survey {
    /// That of an element; neither wave looks through the children again. It is refused with
    /// `Range` exactly where the font size lies outside 0 to 2^20 units.
    pub fn make<V: View>(
        alloc: Global,
        view: &V,
        context: &Context,
        metrics: &Metrics,
    ) -> Result<Survey, LayRefusal>
        requires style { IsStyle context.now.style }
        ensures ok { IfOk result (λ survey. survey
            ≡ survey_of metrics.now (seen_of (V.element view.now)) context.now) }
        ensures fit { OnOk result (is_font_size (size_of metrics.now context.now.style) ≡ true) }
        ensures range { result ≡ Err Range
            → is_font_size (size_of metrics.now context.now.style) ≡ false }
    {
        if !has_font_size(&context.style, metrics) {
            return Err(LayRefusal::Range);
        }
        Ok(Survey::look(alloc, view, context, metrics)?)
    }

    /// The same where the font size isn't looked at.
    pub(crate) fn look<V: View>(
        alloc: Global,
        view: &V,
        context: &Context,
        metrics: &Metrics,
    ) -> Result<Survey, Memory>
        ensures { IfOk result (λ survey. survey
            ≡ survey_of metrics.now (seen_of (V.element view.now)) context.now) }
    {
        let fences = fences_of(view);
        let asking = asking(view, fences, context, metrics);
        let pulls = kid_pulls(alloc, view, fences, context, metrics)?;
        let attributes = &view.head().attributes;
        Ok(Survey {
            asking,
            fences,
            pulls,
            accent: is_true("accent", attributes),
            accentunder: is_true("accentunder", attributes),
        })
    }

    /// Whether it can be told beforehand that the first wave is all that the element asks, whatever
    /// is answered: it is no table, and no child stretches.
    pub fn has_one_wave(&self) -> bool
        ensures { result ≡ has_one_wave self.now }
    {
        !matches!(self.asking, Asking::AsTable) && none_stretches(self.pulls.as_slice())
    }
}

/// Whether no child stretches along any axis.
fn none_stretches(pulls: &[KidPull]) -> bool
    ensures { result ≡ list_all (λ kid. is_none kid.axis) pulls.now }
{
    pulls.iter().all(|kid| kid.axis.is_none())
}

/// Whether the font size of a style lies in 0 to 2^20 units.
fn has_font_size(style: &Style, metrics: &Metrics) -> bool
    requires { IsStyle style.now }
    ensures { result ≡ is_font_size (size_of metrics.now style.now) }
{
    font_size(style, metrics).is_some()
}
