ghost use Rattle.std.specs.Prelude.{◌≡◌, IfOk};
ghost use Rattle.token_boxes.specs.Operator.{operator_of};
ghost use Rattle.token_boxes.specs.Space.{space_of};
ghost use Rattle.token_boxes.specs.Token.{IsLeaf, token_of};
ghost use Rattle.layout_model.specs.Contexts.{pull_of};
ghost use Rattle.layout_model.specs.Elements.{font};
ghost use Rattle.layout_model.specs.Equations.{leaf_outcome, operator_outcome, operator_with, space_outcome, token_outcome};
ghost use Rattle.outcomes.specs.Outcomes.{IsOutcome};

use crate::element::Element;
use embellished::{Core, View};
use fixed_units::{List, MathBox, Memory};
use layout_model::{Answer, Outcome};
use std::alloc::Global;
use token_boxes::{Leaf, operator, space, token};

/// The text of a token (MathML Core 3.2.1).
#[tactic(auto, using(fixed_units::proofs::Signed::from_bits, crate::proofs::Leaves::leaf_exactly), unfolding(layout_model::specs::Equations::token_outcome))]
pub fn token_outcome<V: View>(alloc: Global, e: &Element<V>) -> Result<Outcome, Memory>
    ensures { IfOk result (IsOutcome (token_outcome e.now)) }
{
    let leaf = token_in(alloc, e)?;
    Ok(leaf_outcome(alloc, leaf))
}

fn token_in<V: View>(alloc: Global, e: &Element<V>) -> Result<Leaf, Memory>
    ensures { IfOk result (IsLeaf (token_of e.now.metrics e.now.seen.head (font e.now))) }
{
    token(alloc, e.view().head(), e.size(), e.metrics())
}

/// An operator, with its spaces (MathML Core 3.2.4).
#[tactic(auto, using(fixed_units::proofs::Signed::from_bits), unfolding(layout_model::specs::Equations::operator_outcome))]
pub fn operator_outcome<V: View>(alloc: Global, e: &Element<V>) -> Result<Outcome, Memory>
    ensures { IfOk result (IsOutcome (operator_outcome e.now)) }
{
    match e.view().facts().core {
        Some(core) => operator_with(alloc, e, &core),
        None => token_outcome(alloc, e),
    }
}

#[tactic(auto, using(fixed_units::proofs::Signed::from_bits, crate::proofs::Leaves::leaf_exactly))]
fn operator_with<V: View>(alloc: Global, e: &Element<V>, core: &Core) -> Result<Outcome, Memory>
    ensures { IfOk result (IsOutcome (operator_with e.now core.now)) }
{
    let leaf = operator_in(alloc, e, core)?;
    Ok(leaf_outcome(alloc, leaf))
}

fn operator_in<V: View>(alloc: Global, e: &Element<V>, core: &Core) -> Result<Leaf, Memory>
    ensures { IfOk result (IsLeaf (operator_of e.now.metrics e.now.seen.head core.now
        e.now.context.style
        (font e.now) e.now.context.form (pull_of e.now.context.stretch))) }
{
    let context = e.context();
    operator(
        alloc,
        e.view().head(),
        core,
        &context.style,
        e.size(),
        context.form,
        context.stretch.pull(),
        e.metrics(),
    )
}

/// A space (MathML Core 3.2.5).
#[tactic(auto, using(fixed_units::proofs::Signed::from_bits), unfolding(layout_model::specs::Equations::space_outcome))]
pub fn space_outcome<V: View>(alloc: Global, e: &Element<V>) -> Outcome
    ensures { result ≡ space_outcome e.now }
{
    let leaf = Leaf {
        frame: space_in(e),
        before: 0,
        after: 0,
        marks: List::make(alloc),
    };
    leaf_outcome(alloc, leaf)
}

fn space_in<V: View>(e: &Element<V>) -> MathBox
    ensures { result ≡ space_of e.now.metrics e.now.seen.head (font e.now) }
{
    space(e.view().head(), e.size(), e.metrics())
}

/// What is drawn of a leaf is all that there is of it.
fn leaf_outcome(alloc: Global, leaf: Leaf) -> Outcome
    ensures { result ≡ leaf_outcome leaf }
{
    Outcome {
        answer: Answer {
            frame: leaf.frame,
            before: leaf.before,
            after: leaf.after,
            cells: List::make(alloc),
            spans: List::make(alloc),
        },
        offsets: List::make(alloc),
        marks: leaf.marks,
    }
}
