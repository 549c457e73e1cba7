ghost use Rattle.std.specs.Prelude.{◌≡◌, ◌+◌, ◌≤◌, map, IfOk};
ghost use Rattle.serde_json.specs.View.{view};
ghost use Rattle.math_tree.specs.Forms.{most_levels, most_elements, most_bytes};
ghost use Rattle.tree_json.specs.Parts.{AreOrderedAt, IsOrderedAt, ReadsElement, ReadsElements};
ghost use Rattle.tree_json.specs.Reading.{Reads, part_of, tree_of};
ghost use Rattle.math_tree.specs.Trees.{IsPart};

use crate::check::fault_of;
use crate::element::{Keys, below, bytes_held};
use crate::head::head_of;
use crate::portion::Portion;
use crate::{TreeFault, TreeRefusal};
use fixed_units::List;
use math_tree::{Node, NodeId, Tree};
use serde_json::Value;
use std::alloc::Global;

/// Reads the tree that a JSON value stands for. Its elements are numbered from 1 in document order,
/// each before its children, and the next id follows.
///
/// An element is an object with the key `name`, and optionally `attributes` (an object of texts),
/// `children` (an array of elements) and `text`. `Fault` answers the first faulty element, and the
/// first of its faults.
pub fn read_tree(alloc: Global, value: &Value) -> Result<Tree, TreeRefusal>
    ensures reads { Reads (tree_of (view value.now)) result }
{
    let mut seen = Seen {
        elements: 0,
        bytes: 0,
    };
    let root = read_element(alloc, Portion::Whole, value, 1, &mut seen)?;
    let next_id = seen.elements as u64 + 1;
    Ok(Tree::whole(root, next_id, seen.elements, seen.bytes))
}

/// Reads an element with all below it that is to stand in a tree, as a line of a script has it. The
/// rules are those of a tree, but that it needn't be `math`; levels, places and ids are counted
/// from 1 as there, and it gets its own when it is put into a tree.
pub fn read_part(alloc: Global, value: &Value) -> Result<Node, TreeRefusal>
    ensures reads { Reads (part_of (view value.now)) result }
    ensures sound { IfOk result IsPart }
{
    let mut seen = Seen {
        elements: 0,
        bytes: 0,
    };
    read_element(alloc, Portion::Part, value, 1, &mut seen)
}

/// The elements that were read so far: how many there are, and how many bytes they hold together.
#[derive(Drop)]
struct Seen {
    elements: u32,
    bytes: u64,
}

/// Reads an element and all below it.
#[cycle(read)]
fn read_element(
    alloc: Global,
    portion: Portion,
    value: &Value,
    level: u32,
    seen: &mut Seen,
) -> Result<Node, TreeRefusal>
    requires level { level ≤ most_levels + 1 }
    requires elements { seen.old.elements ≤ most_elements }
    requires bytes { seen.old.bytes ≤ most_bytes }
    ensures reads { ReadsElement portion level (view value.now) seen.old seen.new result }
    ensures order { IfOk result (IsOrderedAt level) }
{
    let keys = Keys::of(value);
    seen.elements += 1;
    seen.bytes = seen.bytes.saturating_add(bytes_held(&keys));
    if let Some(fault) = fault_of(portion, &keys, level, seen.elements, seen.bytes) {
        return Err(TreeRefusal::Fault(TreeFault {
            element: seen.elements,
            kind: fault.number(),
        }));
    }
    let head = head_of(alloc, NodeId(seen.elements), &keys)?;
    let _in_order = head.attributes.as_slice();
    let children = read_elements(alloc, portion, below(&keys), level + 1, seen)?;
    Ok(Node { head, children })
}

/// Reads elements that stand side by side, and all below them.
#[cycle(read)]
fn read_elements(
    alloc: Global,
    portion: Portion,
    values: &[Value],
    level: u32,
    seen: &mut Seen,
) -> Result<List<Node>, TreeRefusal>
    requires level { level ≤ most_levels + 1 }
    requires elements { seen.old.elements ≤ most_elements }
    requires bytes { seen.old.bytes ≤ most_bytes }
    ensures reads { ReadsElements portion level (map view values.now) seen.old seen.new result }
    ensures order { IfOk result (AreOrderedAt level) }
{
    let mut nodes = List::make(alloc);
    for value in values {
        nodes.push(read_element(alloc, portion, value, level, seen)?)?;
    }
    Ok(nodes)
}
