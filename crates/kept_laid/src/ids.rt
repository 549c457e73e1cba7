ghost use Rattle.std.specs.Prelude.{◌≡◌, ℕ};
ghost use Rattle.std.specs.List.{list_any};
ghost use Rattle.math_tree.specs.Trees.{listed};
ghost use Rattle.kept_laid.specs.Boxes.{has_id};

use math_tree::{Node, NodeId};

/// Whether an element or one below it has an id.
pub fn has_id(node: &Node, id: NodeId) -> bool
    ensures { (level : ℕ) → result ≡ list_any (has_id id) (listed level node.now) }
{
    if node.head.id.0 == id.0 {
        return true;
    }
    for child in node.children.as_slice() {
        if has_id(child, id) {
            return true;
        }
    }
    false
}
