ghost use Rattle.std.specs.Prelude.{◌≡◌, IfOk};
ghost use Rattle.embellished.specs.Known.{IsKnown, known_of};

use crate::facts::{Facts, facts_of};
use fixed_units::{List, Memory};
use math_tree::Node;
use std::alloc::Global;

/// What an element of a tree and all elements below it are among operators.
///
/// It is plain data that holds itself, in the shape of the tree: contracts read a layer as
/// `out-Known` of it.
#[derive(Debug, Drop)]
pub struct Known {
    /// What the element is.
    pub facts: Facts,
    /// What its children are, in order, as a view of the element takes them.
    pub kids: List<Facts>,
    /// The same of each child.
    pub below: List<Known>,
}

/// Finds out what an element and all below it are, each of them once, from the leaves up.
pub fn known_of(alloc: Global, node: &Node) -> Result<Known, Memory>
    ensures exact { IfOk result (λ known. known ≡ known_of node.now) }
    ensures tells { IfOk result (λ known. IsKnown node.now known) }
{
    let mut kids = List::with_room(alloc, node.children.len())?;
    let mut below = List::with_room(alloc, node.children.len())?;
    for child in node.children.as_slice() {
        let known = known_of(alloc, child)?;
        kids.push(known.facts)?;
        below.push(known)?;
    }
    let facts = facts_of(alloc, &node.head, &kids)?;
    Ok(Known { facts, kids, below })
}
