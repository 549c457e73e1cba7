ghost use Rattle.std.specs.Prelude.{◌≡◌, IfOk, IfSome};
ghost use Rattle.tree_reader.specs.Read.{IsTreeOf, IsTreeOfText};

use crate::element::element;
use crate::seen::Seen;
use fixed_units::Memory;
use json::{Reader, Scratch};
use math_tree::Tree;
use std::alloc::Global;

/// The tree that bytes are, or none: where they are no JSON text, or that of a tree with a fault,
/// or where an element has a key twice, a text of white space that is dropped, or `children` on a
/// text element, even an empty array.
pub fn tree_by_tokens(alloc: Global, bytes: &[u8]) -> Result<Option<Tree>, Memory>
    ensures { IfOk result (λ found. IfSome found (IsTreeOf bytes.now)) }
{
    match std::str::from_utf8(bytes) {
        Ok(text) => tree_of_text(alloc, text),
        Err(_) => Ok(None),
    }
}

/// The same of a text.
fn tree_of_text(alloc: Global, text: &str) -> Result<Option<Tree>, Memory>
    ensures { IfOk result (λ found. IfSome found (IsTreeOfText text.now)) }
{
    let mut scratch = Scratch::new(alloc);
    let mut reader = Reader::new(text, &mut scratch)?;
    let mut seen = Seen {
        elements: 0,
        bytes: 0,
    };
    let Some(root) = element(alloc, &mut reader, 1, &mut seen)? else {
        return Ok(None);
    };
    if reader.next().is_some() {
        return Ok(None);
    }
    let next_id = seen.elements as u64 + 1;
    Ok(Some(Tree::whole(root, next_id, seen.elements, seen.bytes)))
}
