//! What holds of all elements, whatever their children are.
//!
//! A law is proved where it is a contract, so each function here has one and computes nothing.
//! Proofs above cite `proofs/ElementLaws`, `proofs/FlowLaws` and `proofs/CoreLaws` themselves.
ghost use Rattle.std.specs.Prelude.{◌≡◌, ◌↔◌, List, length, true, Some, None, IfSome};
ghost use Rattle.math_tree.specs.declared.kind.Kind.TheVariants.{Mmultiscripts};
ghost use Rattle.math_tree.specs.declared.node.Head.{Head};
ghost use Rattle.math_tree.specs.declared.node.Node.{Node};
ghost use Rattle.op_dictionary.specs.declared.extra.OperatorLine.{OperatorLine};
ghost use Rattle.op_dictionary.specs.declared.operator.Axis.{Axis};
ghost use Rattle.op_dictionary.specs.declared.operator.Form.{Form};
ghost use Rattle.embellished.specs.Facts.{facts, facts_over};
ghost use Rattle.embellished.specs.Forms.{StretchesAlong, stretch_axis};
ghost use Rattle.embellished.specs.Laws.{CoreLaw, HasScripts, IsFlow, IsTabular, children_of};
ghost use Rattle.embellished.specs.Seen.{seen_of};
ghost use Rattle.embellished.specs.declared.facts.Facts.{Facts};

/// No element is both space-like and an embellished operator. So the only child of a grouping
/// element that isn't space-like is the one that the standard speaks of.
pub fn no_element_is_space_like_and_embellished()
    ensures { (head : Head) (kids : List Facts) →
        (facts_over head kids).space_like ≡ true → (facts_over head kids).core ≡ None }
{}

/// An embellished element other than `mo` has exactly one child in flow that leads to its core, and
/// that child's core is its own.
pub fn one_child_leads_to_the_core()
    ensures { CoreLaw }
{}

/// An element that is laid out by an equation of its own has the children that the equation names.
pub fn valid_elements_have_their_children()
    ensures { (node : Node) →
        IfSome (children_of (facts node).laid) (λ count. length (seen_of node).kids ≡ count) }
{}

/// A valid `mmultiscripts` has a base, pairs of scripts, and where its prescripts begin pairs
/// again.
pub fn scripts_come_in_pairs()
    ensures { (node : Node) → (facts node).laid ≡ Mmultiscripts → HasScripts (seen_of node) }
{}

/// In flow a valid table has rows alone, and a valid row cells alone.
pub fn tables_have_rows_of_cells()
    ensures { (node : Node) → IsTabular (seen_of node) }
{}

/// No annotation is in flow. What a view shows are the nodes in flow, in the order of their places.
pub fn children_in_flow_are_children()
    ensures { (node : Node) → IsFlow node }
{}

/// An element stretches along an axis exactly where its core does in its form.
pub fn stretching_is_that_of_the_core()
    ensures { (facts : Facts) (form : Form) (lines : List OperatorLine) (axis : Axis) →
        (stretch_axis facts form lines ≡ Some axis) ↔ StretchesAlong facts form lines axis }
{}
