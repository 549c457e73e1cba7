//! Whether two trees with their kept layouts are the same, by what their public calls show of them.
ghost use Rattle.memo_tree.specs.States.{IsIn, Sealed};

use crate::words::Kept;
use case_format::Fault;
use fixed_units::{LayRefusal, Steps};
use layout_core::{Laid, lay_fresh};
use math_tree::Tree;
use memo_tree::MemoTree;
use std::alloc::Global;
use std::sync::ledger::Ledger;
use tree_json::print_tree;

/// What is kept of a tree.
pub fn kept_of(laid: &MemoTree) -> Kept {
    Kept {
        layouts: laid.kept(),
        cells: laid.cells(),
    }
}

/// Whether two trees are the same, with as many layouts and cells that are kept of them, and with
/// the same box of the root.
pub fn is_equal(alloc: Global, one: &MemoTree, other: &MemoTree) -> Result<bool, Fault>
    requires one { IsIn Sealed one.now }
    requires other { IsIn Sealed other.now }
{
    let is_so = kept_of(one) == kept_of(other) && one.root_box() == other.root_box();
    Ok(is_so && is_same_tree(alloc, one.tree(), other.tree())?)
}

/// Whether two trees are printed the same and have the same next id.
pub fn is_same_tree(alloc: Global, one: &Tree, other: &Tree) -> Result<bool, Fault> {
    let print = print_tree(alloc, one)?;
    let other_print = print_tree(alloc, other)?;
    Ok(one.next_id() == other.next_id() && print.as_slice() == other_print.as_slice())
}

/// Whether the layout that is kept is the one that is made afresh of a copy of the tree.
pub fn is_fresh<L: Ledger>(
    alloc: Global,
    laid: &MemoTree,
    steps: &mut Steps<L>,
) -> Result<bool, Fault>
    requires { IsIn Sealed laid.now }
{
    let tree = laid.tree().copy(alloc)?;
    let is_so = is_laid_afresh(alloc, laid, &tree, steps);
    tree.discard();
    is_so
}

/// Whether the layout that is kept is the one that is made afresh of a tree.
fn is_laid_afresh<L: Ledger>(
    alloc: Global,
    laid: &MemoTree,
    tree: &Tree,
    steps: &mut Steps<L>,
) -> Result<bool, Fault>
    requires { IsIn Sealed laid.now }
{
    match lay_fresh(alloc, tree, laid.metrics(), steps) {
        Ok(fresh) => {
            let is_so = is_laid_as(alloc, laid, &fresh);
            drop(fresh);
            is_so
        }
        Err(refusal) => not_same(refusal),
    }
}

/// Whether the layout that is kept is this one.
fn is_laid_as(alloc: Global, laid: &MemoTree, fresh: &Laid) -> Result<bool, Fault>
    requires { IsIn Sealed laid.now }
{
    let kept = laid.laid(alloc)?;
    let is_so = is_same(alloc, &kept, fresh);
    drop(kept);
    is_so
}

/// What isn't laid out isn't the same.
pub fn not_same(refusal: LayRefusal) -> Result<bool, Fault> {
    match refusal {
        LayRefusal::Range => Ok(false),
        LayRefusal::Memory => Err(Fault::Memory),
    }
}

/// Whether two layouts are the same, as they are printed.
fn is_same(alloc: Global, one: &Laid, other: &Laid) -> Result<bool, Fault> {
    Ok(format!(in alloc; "{one:?}")? == format!(in alloc; "{other:?}")?)
}
