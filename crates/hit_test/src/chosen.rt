ghost use Rattle.std.specs.Prelude.{◌≡◌, ◌∷◌, [], ◌||◌, nat_eq, map, IfOk};
ghost use Rattle.hit_test.specs.Elements.{flow_tree, id_of};
ghost use Rattle.hit_test.specs.Running.{IsSpanned};
ghost use Rattle.hit_test.specs.Selecting.{marked_below};

use crate::look::Found;
use embellished::{NodeView, View};
use fixed_units::{List, Memory};
use math_tree::NodeId;
use std::alloc::Global;

/// The elements to mark where this one is the lowest over two others: itself, where it is one of
/// them, else its children in flow from the one that leads to one of them to the one that leads to
/// the other.
pub fn chosen(
    alloc: Global,
    found: &Found,
    first: NodeId,
    second: NodeId,
) -> Result<List<NodeId>, Memory>
    requires { IsSpanned first.0 second.0 found.now }
    ensures { IfOk result (λ ids. map (λ id. id.0) ids
        ≡ map id_of (marked_below first.0 second.0 (flow_tree found.now.node.now))) }
{
    let id = found.node.head.id;
    if is_either(id, first, second) {
        return only(alloc, id);
    }
    let known = found.known;
    let view = NodeView::make(alloc, found.node, known.facts, &known.kids)?;
    let mut ids = List::make(alloc);
    for index in found.span.from..found.span.to {
        ids.push(view.kid(index).id)?;
    }
    Ok(ids)
}

/// Whether an id is one of two.
fn is_either(id: NodeId, first: NodeId, second: NodeId) -> bool
    ensures { result ≡ (nat_eq id.0 first.0 || nat_eq id.0 second.0) }
{
    (id.0 == first.0) | (id.0 == second.0)
}

/// One id alone.
fn only(alloc: Global, id: NodeId) -> Result<List<NodeId>, Memory>
    ensures { IfOk result (λ ids. ids ≡ id ∷ []) }
{
    let mut ids = List::make(alloc);
    ids.push(id)?;
    Ok(ids)
}
