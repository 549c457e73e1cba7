//! An entry of before the edit, made anew: its layout over what its child on the way answers now.
ghost use Rattle.std.specs.Prelude.{◌≡◌, ◌≤◌, ◌<◌, ◌+◌, ◌^◌, pos, ◌≤ℤ◌, true, false, [], length, Err, IfOk, OnErr, OnOk};
ghost use Rattle.std.specs.List.{All};
ghost use Rattle.std.specs.Option.{IsSome};
ghost use Rattle.embellished.specs.Seen.{seen_of};
ghost use Rattle.fixed_units.specs.declared.refusal.LayRefusal.TheVariants.{Range};
ghost use Rattle.style_scope.specs.Sizes.{size_of};
ghost use Rattle.layout_model.specs.Answers.{answers_in, questions_in};
ghost use Rattle.layout_model.specs.Fits.{AreAnswers, HasFont, IsContext};
ghost use Rattle.layout_model.specs.Layout.{equation};
ghost use Rattle.layout_model.specs.Questions.{first};
ghost use Rattle.layout_model.specs.Range.{outcome_fits};
ghost use Rattle.outcome_cells.specs.Store.{PutsOutcome};
ghost use Rattle.child_questions.specs.Surveys.{has_one_wave, survey_of};
ghost use Rattle.kept_results.specs.Looking.{IsMadeAgain, one_at, one_with};
ghost use Rattle.kept_results.specs.Regular.{IsShownBy};
ghost use Rattle.kept_results.specs.declared.memo.Memo.TheViews.{out-Memo};

use box_pool::RunId;
use fixed_units::{LayRefusal, List, Memory, Room, Steps};
use font_metrics::Metrics;
use kept_results::{Before, Earlier, Memo, WholeView, answer_in, remake, turn};
use layout_model::{Answer, Context, Finish, Outcome, Reply};
use math_tree::Node;
use outcome_cells::Store;
use std::alloc::Global;
use std::sync::ledger::Ledger;

/// Makes an entry of before the edit anew, of which this is the reply of the child on the way
/// since. It takes one step. The entry's other replies stay where they are. Where it is refused,
/// the entry and the store are as they were.
pub fn make_again<F: Finish, L: Ledger>(
    alloc: Global,
    node: &Node,
    memo: &mut Memo,
    store: &mut Store,
    context: &Context,
    before: Earlier,
    reply: Reply,
    metrics: &Metrics,
    steps: &mut Steps<L>,
) -> Result<Answer, LayRefusal>
    requires begun { IsSome store.old.checkpoint }
    requires entry { before.entry < length (out-Memo memo.old).entries }
    requires asked { before.child < length (one_at (out-Memo memo.old) before.entry) }
    requires shown { IsShownBy memo.old node.now }
    requires fits { IsContext context.now }
    requires size { size_of metrics.now context.now.style ≤ℤ pos (2 ^ 20) }
    requires one_wave { has_one_wave (survey_of metrics.now (seen_of node.now) context.now) ≡ true }
    requires ones { questions_in (one_with memo.old before reply) ≡ first metrics.now
        (seen_of node.now) context.now }
    requires stored { AreAnswers (answers_in (one_with memo.old before reply)) }
    requires fonts { All (HasFont metrics.now) (questions_in (one_with memo.old before reply)) }
    ensures ok { IfOk result (λ answer.
        answer ≡ (equation metrics.now (seen_of node.now) context.now
        (answers_in (one_with memo.old before reply)) []).answer) }
    ensures fit { OnOk result
        (outcome_fits (equation metrics.now (seen_of node.now) context.now
        (answers_in (one_with memo.old before reply)) []) ≡ true) }
    ensures range { result ≡ Err Range →
        outcome_fits (equation metrics.now (seen_of node.now) context.now
        (answers_in (one_with memo.old before reply)) []) ≡ false }
    ensures made { OnOk result (IsMadeAgain memo.old memo.new store.old store.new before
        (equation metrics.now (seen_of node.now) context.now
        (answers_in (one_with memo.old before reply)) []) reply) }
    ensures unchanged { OnErr result (memo.new ≡ memo.old) }
    ensures same { OnErr result (store.new ≡ store.old) }
    ensures step { steps.new ≡ steps.old + 1 }
{
    let had = turn(memo.entries.at_mut(before.entry), before.child, reply);
    let made = lay_again::<F, _>(
        alloc,
        node,
        memo,
        store,
        context,
        before.entry,
        metrics,
        steps,
    );
    let entry = memo.entries.at_mut(before.entry);
    match made {
        Ok(LaidAgain { run, answer, room }) => {
            remake(alloc, entry, run, before.child, had, room);
            Ok(answer)
        }
        Err(refusal) => {
            drop(turn(entry, before.child, had));
            Err(refusal)
        }
    }
}

/// The run of a layout that was made, its answer, and room for what there was before it.
struct LaidAgain {
    run: RunId,
    answer: Answer,
    room: Room<Before>,
}

/// Makes the layout over the questions and answers of an entry, and keeps it. It takes one step.
fn lay_again<F: Finish, L: Ledger>(
    alloc: Global,
    node: &Node,
    memo: &Memo,
    store: &mut Store,
    context: &Context,
    entry: usize,
    metrics: &Metrics,
    steps: &mut Steps<L>,
) -> Result<LaidAgain, LayRefusal>
    requires begun { IsSome store.old.checkpoint }
    requires entry { entry < length (out-Memo memo.now).entries }
    requires shown { IsShownBy memo.now node.now }
    requires fits { IsContext context.now }
    requires size { size_of metrics.now context.now.style ≤ℤ pos (2 ^ 20) }
    requires one_wave { has_one_wave (survey_of metrics.now (seen_of node.now) context.now) ≡ true }
    requires ones { questions_in (one_at (out-Memo memo.now) entry) ≡ first metrics.now
        (seen_of node.now) context.now }
    requires stored { AreAnswers (answers_in (one_at (out-Memo memo.now) entry)) }
    requires fonts { All (HasFont metrics.now) (questions_in (one_at (out-Memo memo.now) entry)) }
    ensures put { IfOk result
        (λ laid. PutsOutcome store.old store.new laid.run.0 (equation metrics.now (seen_of node.now)
        context.now (answers_in (one_at (out-Memo memo.now) entry)) [])) }
    ensures answer { IfOk result
        (λ laid. laid.answer ≡ (equation metrics.now (seen_of node.now) context.now
        (answers_in (one_at (out-Memo memo.now) entry)) []).answer) }
    ensures unchanged { OnErr result (store.new ≡ store.old) }
    ensures room { IfOk result (λ laid. 1 ≤ laid.room) }
    ensures fit { OnOk result
        (outcome_fits (equation metrics.now (seen_of node.now) context.now
        (answers_in (one_at (out-Memo memo.now) entry)) []) ≡ true) }
    ensures range { result ≡ Err Range →
        outcome_fits (equation metrics.now (seen_of node.now) context.now
        (answers_in (one_at (out-Memo memo.now) entry)) []) ≡ false }
    ensures step { steps.new ≡ steps.old + 1 }
{
    let view = WholeView::of(node, memo);
    let entry = &memo.entries.as_slice()[entry];
    let outcome = outcome_of::<F, _>(alloc, &view, context, metrics, &entry.one, steps)?;
    match keep_again(alloc, store, outcome) {
        Ok(laid) => Ok(laid),
        Err(Memory) => Err(LayRefusal::Memory),
    }
}

/// Keeps an outcome as the layout of an entry. Where memory is refused, the store is as it was.
fn keep_again(alloc: Global, store: &mut Store, outcome: Outcome) -> Result<LaidAgain, Memory>
    requires begun { IsSome store.old.checkpoint }
    ensures put { IfOk result (λ laid. PutsOutcome store.old store.new laid.run.0 outcome) }
    ensures answer { IfOk result (λ laid. laid.answer ≡ outcome.answer) }
    ensures room { IfOk result (λ laid. 1 ≤ laid.room) }
    ensures unchanged { OnErr result (store.new ≡ store.old) }
{
    match put_with_room(alloc, store, &outcome) {
        Ok((run, room)) => Ok(LaidAgain {
            run,
            answer: answer_in(outcome),
            room,
        }),
        Err(Memory) => {
            // Dropped by a call, so that this function's proof doesn't go through all parts.
            drop(outcome);
            Err(Memory)
        }
    }
}

/// Makes room for what was there before an outcome, and puts the outcome into the store. Where
/// memory is refused, the store is as it was.
fn put_with_room(
    alloc: Global,
    store: &mut Store,
    outcome: &Outcome,
) -> Result<(RunId, Room<Before>), Memory>
    requires begun { IsSome store.old.checkpoint }
    ensures put { IfOk result (λ put. PutsOutcome store.old store.new put.0.0 outcome.now) }
    ensures room { IfOk result (λ put. 1 ≤ put.1) }
    ensures unchanged { OnErr result (store.new ≡ store.old) }
{
    let room = Room::make(alloc, 1)?;
    let run = store.put(outcome)?;
    Ok((run, room))
}

/// The outcome of a regular element over the replies to what it asks. It takes one step.
fn outcome_of<F: Finish, L: Ledger>(
    alloc: Global,
    view: &WholeView,
    context: &Context,
    metrics: &Metrics,
    one: &List<Reply>,
    steps: &mut Steps<L>,
) -> Result<Outcome, LayRefusal>
    requires fits { IsContext context.now }
    requires size { size_of metrics.now context.now.style ≤ℤ pos (2 ^ 20) }
    requires one_wave { has_one_wave (survey_of metrics.now (seen_of view.now.node.now) context.now)
        ≡ true }
    requires ones { questions_in one.now ≡ first metrics.now (seen_of view.now.node.now)
        context.now }
    requires stored { AreAnswers (answers_in one.now) }
    requires fonts { All (HasFont metrics.now) (questions_in one.now) }
    ensures ok { IfOk result (λ outcome. outcome ≡ equation metrics.now (seen_of view.now.node.now)
        context.now (answers_in one.now) []) }
    ensures fit { OnOk result
        (outcome_fits (equation metrics.now (seen_of view.now.node.now) context.now
        (answers_in one.now) []) ≡ true) }
    ensures range { result ≡ Err Range →
        outcome_fits (equation metrics.now (seen_of view.now.node.now) context.now
        (answers_in one.now) []) ≡ false }
    ensures step { steps.new ≡ steps.old + 1 }
{
    let two = List::make(alloc);
    F::finish_replies(alloc, view, context, metrics, one, &two, steps)
}
