ghost use Rattle.std.specs.Prelude.{◌≡◌, IfOk};
ghost use Rattle.kept_edits.specs.Blank.{blank};

use embellished::facts_of;
use fixed_units::{List, Memory};
use kept_results::Memo;
use math_tree::Node;
use std::alloc::Global;

/// The memo of an element that was never laid out, with all below it: nothing is kept. It has room
/// for one layout, since most elements are asked in one context.
pub fn blank(alloc: Global, node: &Node) -> Result<Memo, Memory>
    ensures { IfOk result (λ memo. memo ≡ blank node.now) }
{
    let count = node.children.len();
    let mut kids = List::with_room(alloc, count)?;
    let mut below = List::with_room(alloc, count)?;
    for child in node.children.as_slice() {
        let memo = blank(alloc, child)?;
        kids.push(memo.facts)?;
        below.push(memo)?;
    }
    let facts = facts_of(alloc, &node.head, &kids)?;
    let entries = List::with_room(alloc, 1)?;
    Ok(Memo {
        former: None,
        facts,
        entries,
        below,
    })
}
