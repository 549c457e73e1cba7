ghost use Rattle.std.specs.Prelude.{◌≡◌, ◌+◌, ◌≤◌, ◌<◌, [], ◌∷◌, ◌++◌, length, map, slice_set, true, false, Some, IfOk, OnOk, Err};
ghost use Rattle.std.specs.List.{All, flat_map, list_all};
ghost use Rattle.fixed_units.specs.declared.refusal.LayRefusal.TheVariants.{Range};
ghost use Rattle.math_tree.specs.Trees.{element_count};
ghost use Rattle.math_tree.specs.declared.node.Node.TheViews.{out-Node};
ghost use Rattle.embellished.specs.Known.{known_of};
ghost use Rattle.embellished.specs.Seen.{seen_of};
ghost use Rattle.layout_model.specs.Fits.{HasStyle, IsContext};
ghost use Rattle.layout_model.specs.Laws.{answer_of, visits_below};
ghost use Rattle.layout_model.specs.Layout.{in_range, is_tree_in_range, laid, laid_tree, visit_fits, visits};
ghost use Rattle.layout_model.specs.Questions.{IsBelow};
ghost use Rattle.layout_model.specs.declared.laid.Laid.TheViews.{out-Laid, roll-Laid};
ghost use Rattle.layout_model.proofs.Asked.{IsQuestionStored};
ghost use Rattle.layout_core.specs.Made.{made_afresh};
ghost use Rattle.layout_core.specs.Slots.{filled, with_laid};

use crate::slots::{empty_slots, filled};
use child_questions::{wave_one, wave_two};
use embellished::{Known, NodeView, View, known_of};
use fixed_units::{LayRefusal, List, Memory, Steps};
use font_metrics::Metrics;
use layout_model::{Answer, Context, Laid, Outcome, Question};
use math_tree::{Node, Tree};
use outcomes::finish;
use std::alloc::Global;
use std::mem;
use std::sync::ledger::Ledger;

/// Lays out a tree, every element afresh. It is refused with `Range` exactly where a number of a
/// layout that is made on the way can't be stored. Where it is done, it took one step for each
/// layout that was made, and no other.
pub fn lay_fresh<L: Ledger>(
    alloc: Global,
    tree: &Tree,
    metrics: &Metrics,
    steps: &mut Steps<L>,
) -> Result<Laid, LayRefusal>
    ensures ok { IfOk result (λ all. all ≡ laid_tree metrics.now tree.now) }
    ensures steps { OnOk result (steps.new ≡ steps.old + made_afresh metrics.now tree.now) }
    ensures fit { OnOk result (is_tree_in_range metrics.now tree.now ≡ true) }
    ensures range { result ≡ Err Range → is_tree_in_range metrics.now tree.now ≡ false }
{
    let root = tree.root();
    let known = known_of(alloc, root)?;
    let context = Context::at_root(&root.head, metrics);
    lay_element(alloc, root, &known, &context, metrics, steps)
}

/// Lays out an element and all below it in a context.
#[cycle(lay)]
fn lay_element<L: Ledger>(
    alloc: Global,
    node: &Node,
    known: &Known,
    context: &Context,
    metrics: &Metrics,
    steps: &mut Steps<L>,
) -> Result<Laid, LayRefusal>
    requires known { known.now ≡ known_of node.now }
    requires few { element_count node.now ≤ 65_536 }
    requires context { IsContext context.now }
    ensures ok { IfOk result (λ all. all ≡ laid metrics.now node.now context.now) }
    ensures steps { OnOk result
        (steps.new ≡ steps.old + length (visits metrics.now node.now context.now)) }
    ensures fit { OnOk result (in_range metrics.now node.now context.now ≡ true) }
    ensures range { result ≡ Err Range → in_range metrics.now node.now context.now ≡ false }
{
    let view = NodeView::make(alloc, node, known.facts, &known.kids)?;
    let mut slots = empty_slots(alloc, view.kids())?;
    let ones = wave_one(alloc, &view, context, metrics)?;
    let one = ask_all(alloc, node, known, &view, &ones, metrics, &mut slots, steps)?;
    let twos = wave_two(alloc, &view, context, metrics, &one)?;
    let two = ask_all(alloc, node, known, &view, &twos, metrics, &mut slots, steps)?;
    let outcome = finish(alloc, &view, context, metrics, &one, &two, steps)?;
    Ok(laid_over(alloc, node, outcome, slots)?)
}

/// An element that is laid out, over its children in flow at their places.
fn laid_over(
    alloc: Global,
    node: &Node,
    outcome: Outcome,
    slots: Vec<Option<Laid>>,
) -> Result<Laid, Memory>
    ensures { IfOk result (λ all. all ≡ roll-Laid record {
      head = (out-Node node.now).head;
      outcome = outcome;
      kids = filled slots.items;
    }) }
{
    match filled(alloc, slots) {
        Ok(kids) => with_head(alloc, node, outcome, kids),
        Err(memory) => {
            drop(outcome);
            Err(memory)
        }
    }
}

/// The same over its children, laid out.
fn with_head(alloc: Global, node: &Node, outcome: Outcome, kids: List<Laid>) -> Result<Laid, Memory>
    ensures { IfOk result (λ all. all ≡ roll-Laid record {
      head = (out-Node node.now).head;
      outcome = outcome;
      kids = kids;
    }) }
{
    match node.head.copy(alloc) {
        Ok(head) => Ok(Laid {
            head,
            outcome,
            kids,
        }),
        Err(memory) => {
            drop(outcome);
            drop(kids);
            Err(memory)
        }
    }
}

/// Lays out the children that an element asks, and gives their answers in order. Each is kept at
/// its place.
#[cycle(lay)]
fn ask_all<L: Ledger>(
    alloc: Global,
    node: &Node,
    known: &Known,
    view: &NodeView,
    asks: &List<Question>,
    metrics: &Metrics,
    slots: &mut Vec<Option<Laid>>,
    steps: &mut Steps<L>,
) -> Result<List<Answer>, LayRefusal>
    requires shown { view.now.node.now ≡ node.now }
    requires known { known.now ≡ known_of node.now }
    requires few { element_count node.now ≤ 65_536 }
    requires places { length slots.old.items ≡ length (seen_of node.now).kids }
    requires within { All (IsBelow (length (seen_of node.now).kids)) asks.now }
    requires styles { All HasStyle asks.now }
    requires stretches { All IsQuestionStored asks.now }
    ensures ok { IfOk result (λ answers. answers ≡ map (answer_of metrics.now node.now) asks.now) }
    ensures steps { OnOk result
        (steps.new ≡ steps.old + length (flat_map (visits_below metrics.now node.now) asks.now)) }
    ensures slots { OnOk result
        (slots.new.items ≡ with_laid metrics.now node.now asks.now slots.old.items) }
    ensures fit { OnOk result
        (list_all (visit_fits metrics.now) (flat_map (visits_below metrics.now node.now) asks.now) ≡
        true) }
    ensures range { result ≡ Err Range →
        list_all (visit_fits metrics.now) (flat_map (visits_below metrics.now node.now) asks.now) ≡
        false }
{
    let mut answers = List::with_room(alloc, asks.len())?;
    for asked in asks.as_slice() {
        let index = asked.kid as usize;
        let kid = view.node_at(index);
        let below = &known.below.as_slice()[view.place(index)];
        let laid = lay_element(alloc, kid, below, &asked.context, metrics, steps)?;
        take_in(alloc, &mut answers, slots, index, laid)?;
    }
    Ok(answers)
}

/// Takes in the layout of a child: its answer, and itself at its place. What is let go is dropped
/// by a call, here and where an element is laid out, so that the proof doesn't go through all its
/// parts.
fn take_in(
    alloc: Global,
    answers: &mut List<Answer>,
    slots: &mut Vec<Option<Laid>>,
    index: usize,
    laid: Laid,
) -> Result<(), Memory>
    requires { index < length slots.old.items }
    ensures answers { OnOk result (answers.new ≡ answers.old ++ (out-Laid laid).outcome.answer ∷
        []) }
    ensures slots { OnOk result (slots.new.items ≡ slice_set slots.old.items index (Some laid)) }
{
    match add_answer(alloc, answers, &laid.outcome.answer) {
        Ok(()) => {
            drop(mem::replace(&mut slots[index], Some(laid)));
            Ok(())
        }
        Err(memory) => {
            drop(laid);
            Err(memory)
        }
    }
}

/// Adds an answer again.
fn add_answer(alloc: Global, answers: &mut List<Answer>, answer: &Answer) -> Result<(), Memory>
    ensures { OnOk result (answers.new ≡ answers.old ++ answer.now ∷ []) }
{
    answers.push(answer.copy(alloc)?)
}
