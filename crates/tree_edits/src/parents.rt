//! Which element stands right over which, as it was last noted.
ghost use Rattle.std.specs.Prelude.{◌≡◌, ◌≤◌, ◌+◌, ◌<◌, [], length, true, IfOk, IfSome};
ghost use Rattle.math_tree.specs.Forms.{most_elements, most_levels};
ghost use Rattle.math_tree.specs.Trees.{element_count};
ghost use Rattle.tree_edits.specs.Notes.{AreBegun, AreMore};
ghost use Rattle.tree_edits.specs.Paths.{Finds, LeadsTo};

use crate::path::{Path, path_to};
use arrayvec::ArrayVec;
use fixed_units::Memory;
use math_tree::{Node, NodeId, Tree};
use std::alloc::Global;
use std::collections::HashMap;
use std::marker::Model;

/// So many notes are kept beside twice as many as a tree has elements.
const SPARE_NOTES: usize = 512;

/// By the ids of elements, the id of the element right over each, as it was last noted. This is a
/// hint, and no answer rests on it: what is noted is looked up in the tree at each use. Contracts
/// see how many notes there are, and how many there may be before they are begun anew.
#[derive(Drop)]
pub struct Parents {
    over: HashMap<u32, u32>,
    /// Where there are more notes than this, the next one begins all of them anew.
    most: usize,
}

impl Model for Parents {
    ghost use Rattle.std.specs.HashMap.{hash_map_len};
    ghost use Rattle.tree_edits.specs.Notes.{Notes};

    ghost Value = { Notes };

    ghost view = { λ parents. record { count = hash_map_len parents.over; most = parents.most } };
}

impl Parents {
    /// Those of a root and all below it.
    pub fn make(alloc: Global, root: &Node) -> Result<Parents, Memory>
        ensures begun { IfOk result (AreBegun root.now) }
    {
        let mut parents = Parents {
            over: HashMap::new(alloc),
            most: 0,
        };
        parents.note_all(root)?;
        Ok(parents)
    }

    /// Notes a part that was put below an element, with all below it. Notes of elements that are
    /// gone stay until there are some hundreds more than twice as many as the root had below it
    /// when they were begun; then all below the root, this part too, is noted anew.
    pub fn note(&mut self, root: &Node, over: NodeId, part: &Node) -> Result<(), Memory>
        ensures few { AreMore root.now part.now self.old self.new }
    {
        if self.over.len() > self.most {
            self.note_all(root)
        } else {
            self.over.insert(part.head.id.0, over.0)?;
            self.note_below(part)
        }
    }

    /// The way to the element of an id, from the root of a tree. It takes no memory, and looks
    /// through the tree only where what was noted doesn't lead to such an element.
    pub fn find(&self, tree: &Tree, id: NodeId) -> Option<Path>
        ensures { Finds id.0 1 tree.now.root result }
    {
        match self.way(tree, id) {
            Some(path) => Some(path),
            None => path_to(tree, id),
        }
    }

    /// Drops what was noted, and notes all below a root.
    fn note_all(&mut self, root: &Node) -> Result<(), Memory>
        ensures begun { AreBegun root.now self.new }
    {
        self.over.clear();
        self.most = 0;
        self.note_below(root)?;
        self.most = self
            .over
            .len()
            .saturating_mul(2)
            .saturating_add(SPARE_NOTES);
        Ok(())
    }

    /// Notes all below an element.
    fn note_below(&mut self, element: &Node) -> Result<(), Memory>
        ensures few { self.new.count < self.old.count + element_count element.now }
        ensures most { self.new.most ≡ self.old.most }
    {
        for child in element.children.as_slice() {
            self.over.insert(child.head.id.0, element.head.id.0)?;
            self.note_below(child)?;
        }
        Ok(())
    }

    /// The way to the element of an id, where what was noted leads to such an element.
    fn way(&self, tree: &Tree, id: NodeId) -> Option<Path>
        ensures { IfSome result (LeadsTo id.0 1 tree.now.root) }
    {
        let root = tree.root();
        let ids = self.ids_up(id, root.head.id)?;
        let mut path = Path::here();
        if leads(root, ids.as_slice(), id, 1, &mut path) {
            Some(path)
        } else {
            None
        }
    }

    /// The ids from one up to a root, without that of the root, as they were noted. A tree has at
    /// most 60 levels, so more of them lead nowhere.
    fn ids_up(&self, id: NodeId, root: NodeId) -> Option<ArrayVec<u32, 59>> {
        let mut ids = ArrayVec::new();
        let mut id = id.0;
        for _ in 0..60 {
            if id == root.0 {
                return Some(ids);
            }
            ids.try_push(id).ok()?;
            id = self.over.get(&id).copied()?;
        }
        None
    }
}

/// Whether ids, the last of them first, lead from an element at that level down to the element of
/// an id. The way there is written where it is wanted.
#[tactic(auto, using(crate::proofs::Paths::leads_here, crate::proofs::Paths::leads_further))]
fn leads(node: &Node, ids: &[u32], id: NodeId, level: usize, path: &mut Path) -> bool
    requires short { level + length ids.now ≤ most_levels }
    requires few { element_count node.now ≤ most_elements }
    requires level { 1 ≤ level }
    requires empty { path.old ≡ [] }
    ensures { result ≡ true → LeadsTo id.0 level node.now path.new }
{
    let Some((next, rest)) = ids.split_last() else {
        return node.head.id.0 == id.0;
    };
    let children = node.children.as_slice();
    let Some(place) = place_of(children, *next) else {
        return false;
    };
    if leads(&children[place], rest, id, level + 1, path) {
        path.begin_at(place);
        return true;
    }
    false
}

/// The place of a child of that id.
fn place_of(children: &[Node], id: u32) -> Option<usize>
    ensures { IfSome result (λ place. place < length children.now) }
{
    children.iter().position(|child| child.head.id.0 == id)
}
