ghost use Rattle.std.specs.Prelude.{◌≡◌, All, Some, None, map, IfOk, OnOk, IfErr};
ghost use Rattle.hit_test.specs.Elements.{flow_tree, id_of};
ghost use Rattle.hit_test.specs.Running.{IsSpanned, IsUnseen, unseen};
ghost use Rattle.hit_test.specs.Selecting.{IsInReach, IsMissing, areas_of as marked_areas, marked_below, missing_id, selected_areas};

use crate::areas::{Area, areas_of};
use crate::chosen::chosen;
use crate::look::{Found, Sight, look};
use box_writer::Placed;
use embellished::known_of;
use fixed_units::{List, Memory};
use math_tree::{NodeId, Tree};
use std::alloc::Global;
use thiserror::Error;

/// Why nothing is marked between two elements.
#[derive(Clone, Copy, Debug, PartialEq, Eq, Error)]
pub enum SelectRefusal {
    /// No element in flow has this id.
    #[error("no element in flow has the id {}", .0.0)]
    NoNode(NodeId),
    /// Memory was refused.
    #[error("memory was refused")]
    Memory,
}

/// The areas to mark between two elements, in document order. Only elements in flow count. Where
/// the lowest element that is or contains both is one of them, that is its box; else those of its
/// children from the one that is or contains one of them to the one that is or contains the other.
/// An element without a box on the page gives nothing.
pub fn selection(
    alloc: Global,
    tree: &Tree,
    placed: &Placed,
    first: NodeId,
    second: NodeId,
) -> Result<List<Area>, SelectRefusal>
    requires { All IsInReach placed.now }
    ensures exact { IfOk result (λ areas. areas
        ≡ selected_areas first.0 second.0 (flow_tree tree.now.root) placed.now) }
    ensures there { OnOk result (missing_id first.0 second.0 (flow_tree tree.now.root) ≡ None) }
    ensures missing { IfErr result (IsMissing first.0 second.0 (flow_tree tree.now.root)) }
{
    let root = tree.root();
    let known = known_of(alloc, root)?;
    let sight = look(alloc, root, &known, first, second)?;
    match found_in(&sight, first, second) {
        Ok(found) => {
            let areas = areas_below(alloc, &found, placed, first, second)?;
            Ok(areas)
        }
        Err(refusal) => Err(refusal),
    }
}

/// The areas to mark where an element is the lowest over the two.
fn areas_below(
    alloc: Global,
    found: &Found,
    placed: &Placed,
    first: NodeId,
    second: NodeId,
) -> Result<List<Area>, Memory>
    requires spanned { IsSpanned first.0 second.0 found.now }
    requires reach { All IsInReach placed.now }
    ensures { IfOk result (λ areas. areas ≡ marked_areas
        (map id_of (marked_below first.0 second.0 (flow_tree found.now.node.now))) placed.now) }
{
    let ids = chosen(alloc, found, first, second)?;
    areas_of(alloc, placed.items.as_slice(), ids.as_slice())
}

/// The lowest element over both, or the first of the two that isn't there.
fn found_in<'a>(
    sight: &Sight<'a>,
    first: NodeId,
    second: NodeId,
) -> Result<Found<'a>, SelectRefusal>
    ensures found { IfOk result (λ found. sight.now.over ≡ Some found) }
    ensures there { OnOk result (unseen first.0 second.0 sight.now ≡ None) }
    ensures missing { IfErr result (IsUnseen first.0 second.0 sight.now) }
{
    if !sight.first {
        return Err(SelectRefusal::NoNode(first));
    }
    match sight.over {
        Some(found) => Ok(found),
        None => Err(SelectRefusal::NoNode(second)),
    }
}

impl From<Memory> for SelectRefusal {
    ghost use Rattle.hit_test.specs.declared.select.SelectRefusal.TheVariants.{Memory as NoMemory};
    ghost use Rattle.std.specs.Prelude.{◌≡◌};

    ghost from_gives = { λ _ refusal. refusal ≡ NoMemory };

    fn from(_: Memory) -> Self {
        SelectRefusal::Memory
    }
}
