//! The ids of new elements.
ghost use Rattle.std.specs.Prelude.{◌≡◌, ◌+◌, ◌≤◌, ◌^◌};
ghost use Rattle.math_tree.specs.Numbering.{renumbered};
ghost use Rattle.math_tree.specs.Trees.{element_count};

use math_tree::{Node, NodeId};

/// Gives an element and all below it their ids, in document order from this one on, and answers the
/// one that comes next. It takes no memory.
pub fn renumber(element: &mut Node, id: u64) -> u64
    requires { id + element_count element.old ≤ 2 ^ 32 }
    ensures element { element.new ≡ renumbered id element.old }
    ensures next { result ≡ id + element_count element.old }
{
    element.head.id = NodeId(id as u32);
    let mut next = id + 1;
    for place in 0..element.children.len() {
        next = renumber(element.children.at_mut(place), next);
    }
    next
}
