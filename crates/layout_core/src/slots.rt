ghost use Rattle.std.specs.Prelude.{◌≡◌, replicate, None, IfOk};
ghost use Rattle.layout_core.specs.Slots.{filled};

use fixed_units::{List, Memory};
use layout_model::Laid;
use std::alloc::Global;

/// A place for each child in flow, none of which is laid out so far.
pub fn empty_slots(alloc: Global, count: usize) -> Result<Vec<Option<Laid>>, Memory>
    ensures { IfOk result (λ slots. slots.items ≡ replicate count None) }
{
    let mut slots = Vec::with_capacity(alloc, count)?;
    for _ in 0..count {
        slots.push(None)?;
    }
    Ok(slots)
}

/// The children that are laid out, in order.
pub fn filled(alloc: Global, slots: Vec<Option<Laid>>) -> Result<List<Laid>, Memory>
    ensures { IfOk result (λ kids. kids ≡ filled slots.items) }
{
    let mut kids = List::with_room(alloc, slots.len())?;
    for slot in slots {
        if let Some(laid) = slot {
            kids.push(laid)?;
        }
    }
    Ok(kids)
}
