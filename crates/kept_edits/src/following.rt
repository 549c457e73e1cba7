//! The memos of a tree after an edit of it.
ghost use Rattle.std.specs.Prelude.{◌≡◌, IfOk, OnErr};
ghost use Rattle.kept_edits.specs.Known.{IsKnownOn};
ghost use Rattle.kept_edits.specs.Followed.{HasPlace, IsBefore, IsFollowed, IsOfElement, IsOfWay};
ghost use Rattle.kept_edits.specs.Rooms.{HasRoom};

use crate::blanks::blank;
use crate::change::{Renewal, change_memo};
use crate::known::known_on;
use crate::way::Way;
use fixed_units::{List, Memory, Room};
use kept_results::Memo;
use math_tree::Node;
use splices::{Site, Splice};
use std::alloc::Global;
use tree_edits::element_at;

/// Changes memos as an edit changed their tree, of which this is the root by now, and answers the
/// splice that takes this back. Where memory is refused, the memos are as they were.
pub fn follow_way(
    alloc: Global,
    root: &Node,
    memo: &mut Memo,
    way: &Way,
) -> Result<Splice<Memo>, Memory>
    requires before { IsBefore root.now memo.old way.now }
    ensures followed { IfOk result (λ back. (before : IsBefore root.now memo.old way.now) →
        IsFollowed root.now memo.old way.now before memo.new back) }
    ensures unchanged { OnErr result (memo.new ≡ memo.old) }
{
    let Prepared {
        splice,
        known,
        room,
    } = prepare(alloc, root, memo, way)?;
    let taken = change_memo(memo, way.path.as_slice(), known.as_slice(), splice);
    Ok(way.site.inverse(taken, room))
}

/// All memory that a splice of memos and the one back take.
#[derive(Debug, Drop)]
struct Prepared {
    splice: Splice<Memo>,
    /// What the elements on the way are after the edit.
    known: List<Renewal>,
    /// Room for what is taken out, to put it back.
    room: Room<Memo>,
}

fn prepare(alloc: Global, root: &Node, memo: &Memo, way: &Way) -> Result<Prepared, Memory>
    requires { IsBefore root.now memo.now way.now }
    ensures splice { IfOk result (λ made. IsOfWay root.now way.now made.splice) }
    ensures known { IfOk result (λ made. IsKnownOn way.now.path root.now memo.now made.known) }
    ensures room { IfOk result (λ made. HasRoom made.room way.now.path memo.now) }
{
    let path = way.path.as_slice();
    let element = element_at(root, path);
    let splice = memo_splice(alloc, element, way.site)?;
    let known = known_on(alloc, root, memo, path, &splice)?;
    let room = Room::make(alloc, element.children.as_slice().len() + 2)?;
    Ok(Prepared {
        splice,
        known,
        room,
    })
}

/// The splice of memos for what became of the children of an element.
fn memo_splice(alloc: Global, element: &Node, site: Site) -> Result<Splice<Memo>, Memory>
    requires { HasPlace site element.now }
    ensures { IfOk result (IsOfElement site element.now) }
{
    let children = element.children.as_slice();
    match site {
        Site::Stay => Ok(Splice::Stay),
        Site::Put(index) => {
            let child = blank(alloc, &children[index])?;
            let room = Room::make(alloc, children.len() + 2)?;
            Ok(Splice::Put(index, child, room))
        }
        Site::Take(index) => Ok(Splice::Take(index)),
        Site::Swap(index) => {
            let child = blank(alloc, &children[index])?;
            Ok(Splice::Swap(index, child))
        }
    }
}
