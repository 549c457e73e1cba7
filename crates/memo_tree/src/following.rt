//! The kept layouts of a tree after an edit of it, and what is noted of the edit.
ghost use Rattle.std.specs.Prelude.{IfOk, ◌≡◌, OnErr};
ghost use Rattle.kept_edits.specs.Followed.{HasPlace, IsBefore, IsFollowed};

use crate::notes::Notes;
use fixed_units::Memory;
use kept_edits::{Way, follow_way};
use kept_results::Memo;
use math_tree::Node;
use splices::{Site, Splice};
use std::alloc::Global;
use tree_edits::element_at;

/// Changes memos as an edit changed their tree, of which this is the root by now, and answers the
/// splice that takes this back. What the edit put in is noted.
pub fn follow(
    alloc: Global,
    root: &Node,
    memo: &mut Memo,
    notes: &mut Notes,
    way: &Way,
) -> Result<Splice<Memo>, Memory>
    requires before { IsBefore root.now memo.old way.now }
    ensures followed { IfOk result (λ back. (before : IsBefore root.now memo.old way.now) →
        IsFollowed root.now memo.old way.now before memo.new back) }
    ensures unchanged { OnErr result (memo.new ≡ memo.old) }
{
    let path = way.path.as_slice();
    let element = element_at(root, path);
    note_new(root, notes, element, way.site)?;
    follow_way(alloc, root, memo, way)
}

/// Notes what was put in among the children of an element.
fn note_new(root: &Node, notes: &mut Notes, element: &Node, site: Site) -> Result<(), Memory>
    requires { HasPlace site element.now }
{
    match site {
        Site::Put(index) | Site::Swap(index) => {
            let child = &element.children.as_slice()[index];
            notes.note(root, element.head.id, child)
        }
        Site::Stay | Site::Take(_) => Ok(()),
    }
}
