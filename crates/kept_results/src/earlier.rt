ghost use Rattle.std.specs.Prelude.{◌≡◌, ◌<◌, ◌^◌, pos, ◌≤ℤ◌, true, false, length, IfOk, IfNone, IfSome};
ghost use Rattle.embellished.specs.Seen.{seen_of};
ghost use Rattle.style_scope.specs.Sizes.{IsStyle, size_of};
ghost use Rattle.layout_model.specs.Answers.{questions_in};
ghost use Rattle.layout_model.specs.Fits.{HasStyle};
ghost use Rattle.child_questions.specs.Surveys.{survey_of};
ghost use Rattle.kept_results.specs.Looking.{CanServe, HasNoEarlier, IsEarlier};
ghost use Rattle.kept_results.specs.Regular.{AreInOrder, IsRegular, restyled};
ghost use Rattle.kept_results.specs.declared.memo.Memo.TheViews.{out-Memo};

use crate::memo::{Entry, Memo};
use crate::whole_view::WholeView;
use child_questions::{Survey, style_of_kid};
use embellished::{NodeView, View};
use fixed_units::{List, Memory};
use font_metrics::Metrics;
use layout_model::{Context, Question, Reply};
use std::alloc::Global;

/// An entry of before the present edit from which a pass takes over what an element asks.
#[derive(Clone, Copy, Debug)]
pub struct Earlier {
    /// Where it stands among the entries of the element.
    pub entry: usize,
    /// The place of the element's child on the way to the edit.
    pub child: usize,
}

/// The entry of an element in a context from which a pass may take over what it asks, where there
/// is one: it is of before the present edit, the element was regular, and it is known that layout
/// sees the same of it as then, but for a child.
pub fn find_earlier(memo: &Memo, context: &Context) -> Option<Earlier>
    ensures some { IfSome result (IsEarlier (out-Memo memo.now) context.now) }
    ensures none { IfNone result (HasNoEarlier (out-Memo memo.now) context.now) }
{
    let child = memo.former?.alike_but?;
    for entry in 0..memo.entries.len() {
        if can_serve(&memo.entries.as_slice()[entry], context, child) {
            return Some(Earlier { entry, child });
        }
    }
    None
}

/// Is this an entry of before the edit, in a context, of a regular element that asked the child at
/// a place?
fn can_serve(entry: &Entry, context: &Context, child: usize) -> bool
    ensures yes { result ≡ true → CanServe entry.now context.now child }
    ensures no { result ≡ false → CanServe entry.now context.now child → ⊥ }
{
    !entry.is_fresh() && entry.regular && child < entry.one.len() && entry.context.is_same(context)
}

/// A question of before the edit again, with the style that the child has now to which it goes.
pub fn asked_again(
    alloc: Global,
    view: &WholeView,
    asked: &Question,
    context: &Context,
    metrics: &Metrics,
) -> Result<Question, Memory>
    requires within { asked.now.kid < length (seen_of view.now.node.now).kids }
    requires style { IsStyle context.now.style }
    requires size { size_of metrics.now context.now.style ≤ℤ pos (2 ^ 20) }
    ensures ok { IfOk result (λ again. again ≡ restyled metrics.now (seen_of view.now.node.now)
        context.now asked.now) }
    ensures style { IfOk result HasStyle }
{
    let style = style_of_kid(view, context, metrics, asked.kid as usize);
    let stretch = asked.context.stretch.copy(alloc)?;
    let context = Context {
        style,
        form: asked.context.form,
        stretch,
    };
    Ok(Question {
        kid: asked.kid,
        context,
    })
}

/// Whether an element has all its children in flow, and no prescripts, and asks each child once, in
/// order, in the first wave, whatever is answered.
pub fn is_regular(
    view: &NodeView,
    survey: &Survey,
    context: &Context,
    metrics: &Metrics,
    one: &List<Reply>,
) -> bool
    requires { survey.now ≡ survey_of metrics.now (seen_of view.now.node.now) context.now }
    ensures { result ≡ true →
        IsRegular metrics.now view.now.node.now context.now (questions_in one.now) }
{
    let all = view.node().children.len();
    if (view.kids() != all) | (view.prescripts() != all) | !survey.has_one_wave() {
        return false;
    }
    are_in_order(one.as_slice())
}

/// Does each question go to the child in flow of its own place?
fn are_in_order(replies: &[Reply]) -> bool
    ensures { result ≡ true → AreInOrder (questions_in replies.now) }
{
    for index in 0..replies.len() {
        if replies[index].question.kid as usize != index {
            return false;
        }
    }
    true
}
