//! Whether the ids that an element keeps may be had in a tree.
ghost use Rattle.std.specs.Prelude.{◌≡◌, ◌++◌, IfOk, map};
ghost use Rattle.std.specs.List.{list_any};
ghost use Rattle.math_tree.specs.Trees.{ids_of, listed};
ghost use Rattle.tree_edits.specs.Edits.{are_taken, is_taken};
ghost use Rattle.tree_edits.specs.FreeIds.{AreFree, is_among};

use crate::Edit;
use fixed_units::{List, Memory};
use math_tree::{Node, Tree};
use std::alloc::Global;
use std::collections::HashSet;

/// Whether an edit keeps an id that stands twice in the element that it brings, wasn't given yet,
/// or is that of an element of the tree.
pub fn is_taken(alloc: Global, tree: &Tree, edit: &Edit) -> Result<bool, Memory>
    ensures { IfOk result
        (λ taken. taken ≡ is_taken edit.now tree.now.next_id (listed 1 tree.now.root)) }
{
    match edit {
        Edit::Graft(_, _, element) | Edit::Swap(_, element) => are_taken(alloc, tree, element),
        _ => Ok(false),
    }
}

fn are_taken(alloc: Global, tree: &Tree, element: &Node) -> Result<bool, Memory>
    ensures { IfOk result (λ taken. taken ≡ are_taken (ids_of (listed 1 element.now))
        tree.now.next_id (ids_of (listed 1 tree.now.root))) }
{
    let mut ids = List::make(alloc);
    gather(element, &mut ids)?;
    match set_of_free(alloc, ids.as_slice(), tree.next_id())? {
        Some(own) => Ok(holds_one(tree.root(), &own)),
        None => Ok(true),
    }
}

/// Adds the ids of an element and of all below it, in document order.
fn gather(element: &Node, ids: &mut List<u32>) -> Result<(), Memory>
    ensures { IfOk result (λ _. ids.new ≡ ids.old ++ ids_of (listed 1 element.now)) }
{
    ids.push(element.head.id.0)?;
    for child in element.children.as_slice() {
        gather(child, ids)?;
    }
    Ok(())
}

/// These ids as a set, or nothing where one stands twice or isn't below the next id.
fn set_of_free(alloc: Global, ids: &[u32], next: u64) -> Result<Option<HashSet<u32>>, Memory>
    ensures { IfOk result (AreFree ids.now next) }
{
    let mut own = HashSet::new(alloc);
    for id in ids {
        if u64::from(*id) >= next {
            return Ok(None);
        }
        if !own.insert(*id)? {
            return Ok(None);
        }
    }
    Ok(Some(own))
}

/// Whether an element, or one below it, has one of these ids.
fn holds_one(element: &Node, ids: &HashSet<u32>) -> bool
    ensures { result ≡ list_any (is_among ids.now.keys) (ids_of (listed 1 element.now)) }
{
    if ids.contains(&element.head.id.0) {
        return true;
    }
    for child in element.children.as_slice() {
        if holds_one(child, ids) {
            return true;
        }
    }
    false
}
