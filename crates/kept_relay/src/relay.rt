ghost use Rattle.std.specs.Prelude.{◌≡◌, ◌≤◌, map, true, false, IfOk, OnErr, OnOk, Err};
ghost use Rattle.std.specs.List.{All, AllByRecursion, flat_map, list_all};
ghost use Rattle.std.specs.Option.{IsSome};
ghost use Rattle.fixed_units.specs.declared.refusal.LayRefusal.TheVariants.{Range};
ghost use Rattle.math_tree.specs.Trees.{element_count};
ghost use Rattle.layout_model.specs.Answers.{answers_in, questions_in};
ghost use Rattle.layout_model.specs.Laws.{answer_of, visits_below};
ghost use Rattle.layout_model.specs.Layout.{in_range, lay, visit_fits};
ghost use Rattle.kept_results.specs.Backed.{Grows, IsBacked};
ghost use Rattle.kept_results.specs.Contexts.{IsProper, Suits};
ghost use Rattle.kept_results.specs.Kept.{Agrees, IsKept, IsMissing, NamesKept, is_marked};
ghost use Rattle.kept_results.specs.Looking.{IsEarlier};
ghost use Rattle.kept_results.specs.Passes.{AnswersNeed, Needs, Passes};
ghost use Rattle.kept_results.specs.Tidy.{AreTidy, IsTidy};
ghost use Rattle.kept_results.specs.declared.memo.Memo.TheViews.{out-Memo};

use crate::making::make_again;
use child_questions::{Survey, first_wave, second_wave};
use embellished::NodeView;
use fixed_units::{LayRefusal, List, Steps};
use font_metrics::Metrics;
use kept_results::{
    Asked, Earlier, Memo, WholeView, asked_again, facts_below, find_earlier, is_regular, keep,
    kept_answer, undo_beside,
};
use layout_model::{Answer, Context, Finish, Reply};
use math_tree::Node;
use outcome_cells::Store;
use std::alloc::Global;
use std::sync::ledger::Ledger;

/// The answer of an element in a context, from what is kept of it and of all below it; what isn't
/// kept is computed, and kept from then on. Each layout that is computed ticks a step. It is
/// refused with `Range` exactly where a number of a layout that this one needs can't be stored.
/// Where it is refused, it leaves a trace only where `undo_pass` looks for it.
#[cycle(relay)]
pub fn relay_element<F: Finish, L: Ledger>(
    alloc: Global,
    node: &Node,
    memo: &mut Memo,
    store: &mut Store,
    context: &Context,
    metrics: &Metrics,
    steps: &mut Steps<L>,
) -> Result<Answer, LayRefusal>
    requires begun { IsSome store.old.checkpoint }
    requires agrees { Agrees metrics.now node.now memo.old }
    requires backed { IsBacked metrics.now store.old.runs node.now memo.old }
    requires tidy { IsTidy memo.old }
    requires few { element_count node.now ≤ 65_536 }
    requires context { Suits metrics.now node.now context.now }
    ensures passes { Passes metrics.now node.now (Needs metrics.now node.now context.now) memo.old
        memo.new steps.old steps.new false }
    ensures passed { OnOk result
        (Passes metrics.now node.now (Needs metrics.now node.now context.now) memo.old memo.new
        steps.old steps.new true) }
    ensures grows { Grows metrics.now node.now memo.old memo.new store.old store.new steps.old
        steps.new false }
    ensures grown { OnOk result
        (Grows metrics.now node.now memo.old memo.new store.old store.new steps.old steps.new
        true) }
    ensures kept { OnOk result (IsKept (out-Memo memo.new) context.now) }
    ensures tidy { IsTidy memo.new }
    ensures ok { IfOk result (λ answer. answer ≡ (lay metrics.now node.now context.now).answer) }
    ensures fit { OnOk result (in_range metrics.now node.now context.now ≡ true) }
    ensures range { result ≡ Err Range → in_range metrics.now node.now context.now ≡ false }
{
    match kept_answer(alloc, memo, store, context)? {
        Some(answer) => Ok(answer),
        None => match find_earlier(memo, context) {
            Some(before) => relay_again::<F, _>(
                alloc, node, memo, store, context, before, metrics, steps,
            ),
            None => {
                let made = relay_anew::<F, _>(alloc, node, memo, store, context, metrics, steps);
                if made.is_err() {
                    undo_beside(memo);
                }
                made
            }
        },
    }
}

/// The answer of an element of which none is kept: it is asked anew, and its layout is kept. Where
/// it is refused, its own entries are as they were, and what its children made may be left. It
/// stands apart, so that a kept answer is found without the frame of this call: most elements that
/// a pass asks have one.
#[cycle(relay)]
#[inline(never)]
fn relay_anew<F: Finish, L: Ledger>(
    alloc: Global,
    node: &Node,
    memo: &mut Memo,
    store: &mut Store,
    context: &Context,
    metrics: &Metrics,
    steps: &mut Steps<L>,
) -> Result<Answer, LayRefusal>
    requires begun { IsSome store.old.checkpoint }
    requires agrees { Agrees metrics.now node.now memo.old }
    requires backed { IsBacked metrics.now store.old.runs node.now memo.old }
    requires tidy { AreTidy (out-Memo memo.old).below }
    requires few { element_count node.now ≤ 65_536 }
    requires context { Suits metrics.now node.now context.now }
    requires missing { IsMissing (is_marked (out-Memo memo.old)) context.now
        (out-Memo memo.old).entries }
    ensures passes { Passes metrics.now node.now (Needs metrics.now node.now context.now) memo.old
        memo.new steps.old steps.new false }
    ensures passed { OnOk result
        (Passes metrics.now node.now (Needs metrics.now node.now context.now) memo.old memo.new
        steps.old steps.new true) }
    ensures grows { Grows metrics.now node.now memo.old memo.new store.old store.new steps.old
        steps.new false }
    ensures grown { OnOk result
        (Grows metrics.now node.now memo.old memo.new store.old store.new steps.old steps.new
        true) }
    ensures kept { OnOk result (IsKept (out-Memo memo.new) context.now) }
    ensures tidy { OnOk result (IsTidy memo.new) }
    ensures below { OnErr result (AreTidy (out-Memo memo.new).below) }
    ensures own { OnErr result ((out-Memo memo.new).entries ≡ (out-Memo memo.old).entries) }
    ensures ok { IfOk result (λ answer. answer ≡ (lay metrics.now node.now context.now).answer) }
    ensures fit { OnOk result (in_range metrics.now node.now context.now ≡ true) }
    ensures range { result ≡ Err Range → in_range metrics.now node.now context.now ≡ false }
{
    let kids = facts_below(alloc, memo.below.as_slice())?;
    let view = NodeView::make(alloc, node, memo.facts, &kids)?;
    let survey = Survey::make(alloc, &view, context, metrics)?;
    let mut one = first_wave(alloc, &view, &survey, context, metrics)?;
    relay_all::<F, _>(alloc, node, memo, store, &view, &mut one, metrics, steps)?;
    let mut two = second_wave(alloc, &view, &survey, context, metrics, &one)?;
    relay_all::<F, _>(alloc, node, memo, store, &view, &mut two, metrics, steps)?;
    let outcome = F::finish_replies(alloc, &view, context, metrics, &one, &two, steps)?;
    let regular = is_regular(&view, &survey, context, metrics, &one);
    let asked = Asked { one, two, regular };
    Ok(keep(alloc, memo, store, context, outcome, asked)?)
}

/// As `relay_element`, where an entry of before the edit tells what the element asks, and only its
/// child on the way to the edit may answer something else: no other child is asked, and no entry of
/// one is looked for. The entry is made anew where it stands.
#[cycle(relay)]
#[inline(never)]
fn relay_again<F: Finish, L: Ledger>(
    alloc: Global,
    node: &Node,
    memo: &mut Memo,
    store: &mut Store,
    context: &Context,
    before: Earlier,
    metrics: &Metrics,
    steps: &mut Steps<L>,
) -> Result<Answer, LayRefusal>
    requires begun { IsSome store.old.checkpoint }
    requires agrees { Agrees metrics.now node.now memo.old }
    requires backed { IsBacked metrics.now store.old.runs node.now memo.old }
    requires tidy { IsTidy memo.old }
    requires few { element_count node.now ≤ 65_536 }
    requires context { Suits metrics.now node.now context.now }
    requires missing { IsMissing (is_marked (out-Memo memo.old)) context.now
        (out-Memo memo.old).entries }
    requires before { IsEarlier (out-Memo memo.old) context.now before }
    ensures passes { Passes metrics.now node.now (Needs metrics.now node.now context.now) memo.old
        memo.new steps.old steps.new false }
    ensures passed { OnOk result
        (Passes metrics.now node.now (Needs metrics.now node.now context.now) memo.old memo.new
        steps.old steps.new true) }
    ensures grows { Grows metrics.now node.now memo.old memo.new store.old store.new steps.old
        steps.new false }
    ensures grown { OnOk result
        (Grows metrics.now node.now memo.old memo.new store.old store.new steps.old steps.new
        true) }
    ensures kept { OnOk result (IsKept (out-Memo memo.new) context.now) }
    ensures tidy { IsTidy memo.new }
    ensures ok { IfOk result (λ answer. answer ≡ (lay metrics.now node.now context.now).answer) }
    ensures fit { OnOk result (in_range metrics.now node.now context.now ≡ true) }
    ensures range { result ≡ Err Range → in_range metrics.now node.now context.now ≡ false }
{
    let place = before.child;
    let entry = &memo.entries.as_slice()[before.entry];
    let was = &entry.one.as_slice()[place];
    let view = WholeView::of(node, memo);
    let asked = asked_again(alloc, &view, &was.question, context, metrics)?;
    let child = &node.children.as_slice()[place];
    let below = memo.below.at_mut(place);
    let answer = relay_element::<F, _>(alloc, child, below, store, &asked.context, metrics, steps)?;
    let reply = Reply {
        question: asked,
        answer,
    };
    make_again::<F, _>(
        alloc, node, memo, store, context, before, reply, metrics, steps,
    )
}

/// Has the children that an element asks answer, in order.
#[cycle(relay)]
fn relay_all<F: Finish, L: Ledger>(
    alloc: Global,
    node: &Node,
    memo: &mut Memo,
    store: &mut Store,
    view: &NodeView,
    replies: &mut List<Reply>,
    metrics: &Metrics,
    steps: &mut Steps<L>,
) -> Result<(), LayRefusal>
    requires shown { view.now.node.now ≡ node.now }
    requires begun { IsSome store.old.checkpoint }
    requires agrees { Agrees metrics.now node.now memo.old }
    requires backed { IsBacked metrics.now store.old.runs node.now memo.old }
    requires tidy { AreTidy (out-Memo memo.old).below }
    requires few { element_count node.now ≤ 65_536 }
    requires proper { All (IsProper metrics.now node.now) (questions_in replies.old) }
    ensures passes { Passes metrics.now node.now
        (AnswersNeed metrics.now node.now (questions_in replies.old)) memo.old memo.new steps.old
        steps.new false }
    ensures passed { OnOk result
        (Passes metrics.now node.now (AnswersNeed metrics.now node.now (questions_in replies.old))
        memo.old memo.new steps.old steps.new true) }
    ensures grows { Grows metrics.now node.now memo.old memo.new store.old store.new steps.old
        steps.new false }
    ensures grown { OnOk result
        (Grows metrics.now node.now memo.old memo.new store.old store.new steps.old steps.new
        true) }
    ensures own { (out-Memo memo.new).entries ≡ (out-Memo memo.old).entries }
    ensures marked { (out-Memo memo.new).former ≡ (out-Memo memo.old).former }
    ensures kept { OnOk result (AllByRecursion (NamesKept node.now (out-Memo memo.new).below)
        (questions_in replies.old)) }
    ensures tidy { AreTidy (out-Memo memo.new).below }
    ensures asked { OnOk result (questions_in replies.new ≡ questions_in replies.old) }
    ensures ok { OnOk result (answers_in replies.new ≡ map (answer_of metrics.now node.now)
        (questions_in replies.old)) }
    ensures fit { OnOk result
        (list_all (visit_fits metrics.now)
        (flat_map (visits_below metrics.now node.now) (questions_in replies.old)) ≡ true) }
    ensures range { result ≡ Err Range →
        list_all (visit_fits metrics.now)
        (flat_map (visits_below metrics.now node.now) (questions_in replies.old)) ≡ false }
{
    for index in 0..replies.len() {
        let reply = replies.at_mut(index);
        let place = reply.question.kid as usize;
        let kid = view.node_at(place);
        let below = memo.below.at_mut(view.place(place));
        let context = &reply.question.context;
        let answer = relay_element::<F, _>(alloc, kid, below, store, context, metrics, steps)?;
        reply.answer = answer;
    }
    Ok(())
}
