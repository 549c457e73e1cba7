//! Notes of which element stands over which, made at the first edit.
ghost use Rattle.std.specs.Prelude.{IfOk};
ghost use Rattle.tree_edits.specs.Paths.{Finds};

use fixed_units::Memory;
use math_tree::{Node, NodeId, Tree};
use std::alloc::Global;
use tree_edits::{Parents, Path, path_to};

/// Which element stands over which, once an edit asked for it: a tree that is only laid out needs
/// no notes. They are a hint, and no contract speaks of them.
#[derive(Drop)]
pub struct Notes {
    made: Option<Parents>,
}

impl Notes {
    /// No notes yet. It takes no memory.
    pub fn none() -> Notes {
        Notes { made: None }
    }

    /// The way to the element of an id, from the root of a tree. All elements are noted where none
    /// is yet.
    pub fn find(&mut self, alloc: Global, tree: &Tree, id: NodeId) -> Result<Option<Path>, Memory>
        ensures { IfOk result (Finds id.0 1 tree.now.root) }
    {
        if self.made.is_none() {
            self.made = Some(Parents::make(alloc, tree.root())?);
        }
        match &self.made {
            Some(parents) => Ok(parents.find(tree, id)),
            None => Ok(path_to(tree, id)),
        }
    }

    /// Notes a part that was put below an element, with all below it.
    pub fn note(&mut self, root: &Node, over: NodeId, part: &Node) -> Result<(), Memory> {
        match &mut self.made {
            Some(parents) => parents.note(root, over, part),
            None => Ok(()),
        }
    }
}
