ghost use Rattle.std.specs.Prelude.{◌≡◌, ◌≤◌, ◌^◌, ◌<◌, pos, ◌≤ℤ◌, length, map, true, false, IfOk, OnOk, Err};
ghost use Rattle.std.specs.List.{All};
ghost use Rattle.fixed_units.specs.declared.refusal.LayRefusal.TheVariants.{Range};
ghost use Rattle.embellished.specs.Seen.{seen_of};
ghost use Rattle.style_scope.specs.Sizes.{IsStyle, size_of};
ghost use Rattle.layout_model.specs.Answers.{questions_in};
ghost use Rattle.layout_model.specs.Questions.{IsAskBelow, asked, asked_all, first, second};
ghost use Rattle.layout_model.specs.Fits.{AreAnswers, HasStyle};
ghost use Rattle.layout_model.specs.Range.{is_font_size};
ghost use Rattle.child_questions.specs.Surveys.{survey_of};

use crate::asks::{first_asks, second_asks};
use crate::children::kid_context;
use crate::survey::Survey;
use crate::tables::rows_asked;
use embellished::View;
use fixed_units::{LayRefusal, List, MathBox, Memory};
use font_metrics::Metrics;
use layout_model::{Answer, Answered, Asking, Context, Question, Reply, Stretch};
use row_stretch::Ask;
use std::alloc::Global;

/// The questions of an element in the first wave. It is refused with `Range` exactly where the font
/// size lies outside 0 to 2^20 units.
pub fn wave_one<V: View>(
    alloc: Global,
    view: &V,
    context: &Context,
    metrics: &Metrics,
) -> Result<List<Question>, LayRefusal>
    requires style { IsStyle context.now.style }
    ensures ok { IfOk result (λ asks. asks
        ≡ first metrics.now (seen_of (V.element view.now)) context.now) }
    ensures fit { OnOk result (is_font_size (size_of metrics.now context.now.style) ≡ true) }
    ensures range { result ≡ Err Range
        → is_font_size (size_of metrics.now context.now.style) ≡ false }
    ensures styles { IfOk result (All HasStyle) }
{
    let survey = Survey::make(alloc, view, context, metrics)?;
    let asked = first_wave(alloc, view, &survey, context, metrics)?;
    Ok(questions_in(alloc, asked.as_slice())?)
}

/// The questions of an element in the second wave, over the answers to those of the first.
pub fn wave_two<V: View>(
    alloc: Global,
    view: &V,
    context: &Context,
    metrics: &Metrics,
    first: &List<Answer>,
) -> Result<List<Question>, Memory>
    requires style { IsStyle context.now.style }
    requires size { size_of metrics.now context.now.style ≤ℤ pos (2 ^ 20) }
    requires answers { AreAnswers first.now }
    ensures styles { IfOk result (All HasStyle) }
    ensures value { IfOk result (λ asks. asks
        ≡ second metrics.now (seen_of (V.element view.now)) context.now first.now) }
{
    let survey = Survey::look(alloc, view, context, metrics)?;
    let asked = second_wave(alloc, view, &survey, context, metrics, first)?;
    questions_in(alloc, asked.as_slice())
}

/// The questions of the first wave, by what the element sees. None is answered yet.
#[tactic(auto, unfolding(layout_model::specs::Questions::first))]
pub fn first_wave<V: View>(
    alloc: Global,
    view: &V,
    survey: &Survey,
    context: &Context,
    metrics: &Metrics,
) -> Result<List<Reply>, Memory>
    requires known { survey.now ≡ survey_of metrics.now (seen_of (V.element view.now)) context.now }
    requires style { IsStyle context.now.style }
    requires size { size_of metrics.now context.now.style ≤ℤ pos (2 ^ 20) }
    ensures ok { IfOk result (λ asked. questions_in asked
        ≡ first metrics.now (seen_of (V.element view.now)) context.now) }
    ensures styles { IfOk result (λ asked. All HasStyle (questions_in asked)) }
{
    // The view's count bounds how many pulls there are.
    let _count = view.kids();
    let own = context.stretch.pull();
    let asks = first_asks(alloc, survey.asking, &survey.pulls, own)?;
    asked_all(alloc, view, survey, context, metrics, &asks)
}

/// The questions of the second wave, by what the element sees, over the answers to those of the
/// first. None is answered yet.
#[tactic(auto, unfolding(layout_model::specs::Questions::second))]
pub fn second_wave<V: View, A: Answered>(
    alloc: Global,
    view: &V,
    survey: &Survey,
    context: &Context,
    metrics: &Metrics,
    one: &List<A>,
) -> Result<List<Reply>, Memory>
    requires known { survey.now ≡ survey_of metrics.now (seen_of (V.element view.now)) context.now }
    requires style { IsStyle context.now.style }
    requires size { size_of metrics.now context.now.style ≤ℤ pos (2 ^ 20) }
    requires answers { AreAnswers (map A.told one.now) }
    ensures styles { IfOk result (λ asked. All HasStyle (questions_in asked)) }
    ensures value { IfOk result (λ asked.
        questions_in asked ≡ second metrics.now (seen_of (V.element view.now)) context.now
        (map A.told one.now)) }
{
    if survey.has_one_wave() {
        return Ok(List::make(alloc));
    }
    if matches!(survey.asking, Asking::AsTable) {
        return rows_asked(alloc, view, survey, context, metrics, one);
    }
    // The view's count bounds how many pulls there are.
    let _count = view.kids();
    let frames = frames_of(alloc, one.as_slice())?;
    let own = context.stretch.pull();
    let asks = second_asks(alloc, survey.asking, &survey.pulls, own, &frames)?;
    asked_all(alloc, view, survey, context, metrics, &asks)
}

/// The questions to children with their pulls. None is answered yet.
fn asked_all<V: View>(
    alloc: Global,
    view: &V,
    survey: &Survey,
    context: &Context,
    metrics: &Metrics,
    asks: &List<Ask>,
) -> Result<List<Reply>, Memory>
    requires known { survey.now ≡ survey_of metrics.now (seen_of (V.element view.now)) context.now }
    requires style { IsStyle context.now.style }
    requires size { size_of metrics.now context.now.style ≤ℤ pos (2 ^ 20) }
    requires within { All (IsAskBelow (length (seen_of (V.element view.now)).kids)) asks.now }
    ensures styles { IfOk result (λ asked. All HasStyle (questions_in asked)) }
    ensures value { IfOk result (λ asked.
        questions_in asked ≡ asked_all metrics.now (seen_of (V.element view.now)) context.now
        asks.now) }
{
    let mut all = Vec::with_capacity(alloc, asks.len())?;
    for ask in asks.as_slice() {
        let question = asked(view, survey, context, metrics, ask);
        all.push_reserved(Reply::to_come(alloc, question));
    }
    Ok(List::from(all))
}

/// The question to a child with its pull.
fn asked<V: View>(
    view: &V,
    survey: &Survey,
    context: &Context,
    metrics: &Metrics,
    ask: &Ask,
) -> Question
    requires known { survey.now ≡ survey_of metrics.now (seen_of (V.element view.now)) context.now }
    requires style { IsStyle context.now.style }
    requires size { size_of metrics.now context.now.style ≤ℤ pos (2 ^ 20) }
    requires within { IsAskBelow (length (seen_of (V.element view.now)).kids) ask.now }
    ensures value { result ≡ asked metrics.now (seen_of (V.element view.now)) context.now ask.now }
    ensures style { HasStyle result }
{
    let stretch = Stretch::of(ask.pull);
    let context = kid_context(view, survey, context, metrics, ask.kid as usize, stretch);
    Question {
        kid: ask.kid,
        context,
    }
}

/// The questions of replies.
fn questions_in(alloc: Global, replies: &[Reply]) -> Result<List<Question>, Memory>
    ensures { IfOk result (λ asks. asks ≡ questions_in replies.now) }
{
    let mut asks = List::with_room(alloc, replies.len())?;
    for reply in replies {
        asks.push(reply.question.copy(alloc)?)?;
    }
    Ok(asks)
}

/// The boxes of answers.
fn frames_of<A: Answered>(alloc: Global, answers: &[A]) -> Result<List<MathBox>, Memory>
    ensures { IfOk result (λ frames. frames
        ≡ map (λ answer. answer.frame) (map A.told answers.now)) }
{
    let mut frames = List::with_room(alloc, answers.len())?;
    for answered in answers {
        frames.push(answered.answer().frame)?;
    }
    Ok(frames)
}
