ghost use Rattle.std.specs.Prelude.{◌≡◌, ◌+◌, ◌^◌, pos, ◌≤ℤ◌, true, false, IfOk, OnOk, Err};
ghost use Rattle.fixed_units.specs.declared.refusal.LayRefusal.TheVariants.{Range};
ghost use Rattle.embellished.specs.Seen.{seen_of};
ghost use Rattle.style_scope.specs.Sizes.{size_of};
ghost use Rattle.layout_model.specs.Answers.{answers_in};
ghost use Rattle.layout_model.specs.Fits.{AreSpans, IsContext, RepliesAll};
ghost use Rattle.layout_model.specs.Layout.{equation};
ghost use Rattle.layout_model.specs.Range.{outcome_fits};

use crate::context::Context;
use crate::outcome::Outcome;
use crate::reply::Reply;
use embellished::View;
use fixed_units::{LayRefusal, List, Steps};
use font_metrics::Metrics;
use std::alloc::Global;
use std::sync::ledger::Ledger;

/// What computes the outcome of an element once its children have answered. Kept layouts take it as
/// a type parameter, and know no equation of a kind.
pub trait Finish {
    /// The outcome of an element over the replies to both waves of its questions. It is refused
    /// with `Range` exactly where a number of it can't be stored. It takes one step.
    fn finish_replies<V: View, L: Ledger>(
        alloc: Global,
        view: &V,
        context: &Context,
        metrics: &Metrics,
        one: &List<Reply>,
        two: &List<Reply>,
        steps: &mut Steps<L>,
    ) -> Result<Outcome, LayRefusal>
        requires fits { IsContext context.now }
        requires size { size_of metrics.now context.now.style ≤ℤ pos (2 ^ 20) }
        requires replies { RepliesAll metrics.now (seen_of (V.element view.now)) context.now one.now
            two.now }
        ensures ok { IfOk result (λ outcome.
            outcome ≡ equation metrics.now (seen_of (V.element view.now)) context.now (answers_in
            one.now) (answers_in two.now)) }
        ensures fit { OnOk result (outcome_fits
            (equation metrics.now (seen_of (V.element view.now)) context.now (answers_in one.now)
            (answers_in two.now)) ≡ true) }
        ensures range { result ≡ Err Range → outcome_fits
            (equation metrics.now (seen_of (V.element view.now)) context.now (answers_in one.now)
            (answers_in two.now)) ≡ false }
        ensures spans { IfOk result (λ outcome. AreSpans outcome.answer) }
        ensures step { steps.new ≡ steps.old + 1 };
}
