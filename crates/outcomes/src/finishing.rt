ghost use Rattle.std.specs.Prelude.{◌≡◌, ◌+◌, ◌^◌, pos, ◌≤ℤ◌, length, true, false, IfOk, OnOk, Err};
ghost use Rattle.fixed_units.specs.declared.refusal.LayRefusal.TheVariants.{Range};
ghost use Rattle.embellished.specs.Seen.{seen_of};
ghost use Rattle.style_scope.specs.Sizes.{IsStyle, size_of};
ghost use Rattle.layout_model.specs.Answers.{answers_in, no_answer, questions_in};
ghost use Rattle.layout_model.specs.Fits.{AnswersAll, AreSpans, IsContext, RepliesAll};
ghost use Rattle.layout_model.specs.Layout.{equation};
ghost use Rattle.layout_model.specs.Range.{is_font_size, outcome_fits};
ghost use Rattle.outcomes.specs.Outcomes.{IsOutcome};

use crate::element::Element;
use crate::kinds::outcome_by;
use child_questions::{wave_one, wave_two};
use embellished::View;
use fixed_units::{LayRefusal, List, Memory, Steps};
use font_metrics::Metrics;
use layout_model::{Answer, Context, Finish, Outcome, Question, Reply, outcome_fits};
use std::alloc::Global;
use std::sync::ledger::Ledger;
use style_scope::{Style, font_size};

/// The outcome of an element over the answers to both waves of its questions. It is refused with
/// `Range` exactly where a number of it can't be stored. It takes one step. It asks both waves
/// again, and copies the answers; `Equations::finish_replies` is for a caller that has the
/// replies.
pub fn finish<V: View, L: Ledger>(
    alloc: Global,
    view: &V,
    context: &Context,
    metrics: &Metrics,
    first: &List<Answer>,
    second: &List<Answer>,
    steps: &mut Steps<L>,
) -> Result<Outcome, LayRefusal>
    requires fits { IsContext context.now }
    requires size { size_of metrics.now context.now.style ≤ℤ pos (2 ^ 20) }
    requires answers { AnswersAll metrics.now (seen_of (V.element view.now)) context.now first.now
        second.now }
    ensures ok { IfOk result (λ outcome. outcome ≡ equation metrics.now (seen_of (V.element
        view.now)) context.now first.now second.now) }
    ensures fit { OnOk result (outcome_fits (equation metrics.now (seen_of (V.element view.now))
        context.now first.now second.now) ≡ true) }
    ensures range { result ≡ Err Range →
        outcome_fits (equation metrics.now (seen_of (V.element view.now)) context.now first.now
        second.now) ≡ false }
    ensures spans { IfOk result (λ outcome. AreSpans outcome.answer) }
    ensures step { steps.new ≡ steps.old + 1 }
{
    match both_waves(alloc, view, context, metrics, first, second) {
        Ok((one, two)) => {
            Equations::finish_replies(alloc, view, context, metrics, &one, &two, steps)
        }
        Err(refusal) => {
            steps.tick();
            Err(refusal)
        }
    }
}

/// The questions of both waves with the answers to them.
fn both_waves<V: View>(
    alloc: Global,
    view: &V,
    context: &Context,
    metrics: &Metrics,
    first: &List<Answer>,
    second: &List<Answer>,
) -> Result<(List<Reply>, List<Reply>), LayRefusal>
    requires fits { IsContext context.now }
    requires size { size_of metrics.now context.now.style ≤ℤ pos (2 ^ 20) }
    requires answers { AnswersAll metrics.now (seen_of (V.element view.now)) context.now first.now
        second.now }
    ensures replies { IfOk result (λ both. RepliesAll metrics.now (seen_of (V.element view.now))
        context.now both.0 both.1) }
    ensures first { IfOk result (λ both. answers_in both.0 ≡ first.now) }
    ensures second { IfOk result (λ both. answers_in both.1 ≡ second.now) }
    ensures range { result ≡ Err Range → ⊥ }
{
    no_size_is_negative(&context.style, metrics);
    let asked = wave_one(alloc, view, context, metrics)?;
    let one = replies(alloc, asked.as_slice(), first.as_slice())?;
    let asked = wave_two(alloc, view, context, metrics, first)?;
    let two = replies(alloc, asked.as_slice(), second.as_slice())?;
    Ok((one, two))
}

/// Questions with the answers to them.
fn replies(alloc: Global, asks: &[Question], answers: &[Answer]) -> Result<List<Reply>, Memory>
    requires { length answers.now ≡ length asks.now }
    ensures questions { IfOk result (λ replies. questions_in replies ≡ asks.now) }
    ensures answers { IfOk result (λ replies. answers_in replies ≡ answers.now) }
{
    let mut replies = List::with_room(alloc, asks.len())?;
    for place in 0..asks.len() {
        let question = asks[place].copy(alloc)?;
        let answer = answers[place].copy(alloc)?;
        replies.push(Reply { question, answer })?;
    }
    Ok(replies)
}

/// What computes outcomes: each kind by its equation.
pub struct Equations;

impl Finish for Equations {
    #[tactic(auto, using(fixed_units::proofs::Signed::from_bits, layout_model::proofs::Spans::equation_spans), unfolding(layout_model::specs::Layout::equation))]
    fn finish_replies<V: View, L: Ledger>(
        alloc: Global,
        view: &V,
        context: &Context,
        metrics: &Metrics,
        one: &List<Reply>,
        two: &List<Reply>,
        steps: &mut Steps<L>,
    ) -> Result<Outcome, LayRefusal> {
        steps.tick();
        let nothing = Answer::none(alloc);
        let outcome = outcome_over(alloc, view, context, metrics, one, two, &nothing);
        // Dropped by a call, so that this function's proof doesn't go through all parts.
        drop(nothing);
        storable(outcome?)
    }
}

/// The outcome over replies; `nothing` is the answer of a child that wasn't asked.
#[tactic(auto, using(fixed_units::proofs::Signed::from_bits), unfolding(layout_model::specs::Layout::equation))]
fn outcome_over<V: View>(
    alloc: Global,
    view: &V,
    context: &Context,
    metrics: &Metrics,
    one: &List<Reply>,
    two: &List<Reply>,
    nothing: &Answer,
) -> Result<Outcome, Memory>
    requires nothing { nothing.now ≡ no_answer }
    requires fits { IsContext context.now }
    requires size { size_of metrics.now context.now.style ≤ℤ pos (2 ^ 20) }
    requires replies { RepliesAll metrics.now (seen_of (V.element view.now)) context.now one.now
        two.now }
    ensures { IfOk result (IsOutcome (equation metrics.now (seen_of (V.element view.now))
        context.now (answers_in one.now) (answers_in two.now))) }
{
    let element = Element::make(alloc, view, context, metrics, one, two, nothing)?;
    let outcome = outcome_by(alloc, view.facts().laid, &element);
    drop(element);
    outcome
}

/// A font size that isn't too large is in range. A caller gets the fact by a call.
fn no_size_is_negative(style: &Style, metrics: &Metrics)
    requires style { IsStyle style.now }
    requires size { size_of metrics.now style.now ≤ℤ pos (2 ^ 20) }
    ensures { is_font_size (size_of metrics.now style.now) ≡ true }
{
    let _size = font_size(style, metrics);
}

/// An outcome, where all its numbers can be stored.
fn storable(outcome: Outcome) -> Result<Outcome, LayRefusal>
    ensures ok { IfOk result (λ kept. kept ≡ outcome) }
    ensures fit { OnOk result (outcome_fits outcome ≡ true) }
    ensures range { result ≡ Err Range → outcome_fits outcome ≡ false }
{
    if outcome_fits(&outcome) {
        Ok(outcome)
    } else {
        Err(LayRefusal::Range)
    }
}
