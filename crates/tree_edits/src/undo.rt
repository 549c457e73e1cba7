//! What undoing a change takes, besides what the change replaced.
ghost use Rattle.std.specs.Prelude.{◌≡◌, IfOk, Some, is_some, true};
ghost use Rattle.tree_edits.specs.Paths.{Fits};
ghost use Rattle.tree_edits.specs.Undoing.{IsOrdered, completed, room_for, undo_of};

use crate::change::{Change, Replaced};
use fixed_units::{Memory, Room, Txt};
use math_tree::{Attribute, Node};
use splices::Site;
use std::alloc::Global;

/// The undo record of a change: where that which it replaces goes back to, and the memory for it.
/// It is made before the change, so that undoing takes none.
#[derive(Drop)]
pub enum Undo {
    /// The element gets a text.
    Text,
    /// It gets a value for the attribute of that name, or loses the attribute.
    Value(Txt, Room<Attribute>),
    /// Its children are spliced back.
    Children(Site, Room<Node>),
}

impl Undo {
    /// The record of a change of an element.
    pub fn make(alloc: Global, change: &Change, element: &Node) -> Result<Undo, Memory>
        requires { Fits change.now element.now }
        ensures undo { IfOk result
            (λ undo. undo ≡ undo_of change.now (room_for change.now element.now)) }
        ensures order { IsOrdered change.now element.now }
    {
        match change {
            Change::SetText(_) => Ok(Undo::Text),
            Change::SetValue(name, _, _) => {
                let room = Room::make(alloc, element.head.attributes.as_slice().len() + 2)?;
                match name.copy(alloc) {
                    Ok(name) => Ok(Undo::Value(name, room)),
                    Err(memory) => {
                        drop(room);
                        Err(memory)
                    }
                }
            }
            Change::Children(splice) => {
                let room = splice.room_back(alloc, &element.children)?;
                Ok(Undo::Children(splice.site(), room))
            }
        }
    }

    /// The change that undoes the one of which this is the record, by what that one replaced.
    pub fn completed(self, replaced: Replaced) -> Change
        requires { is_some (completed self replaced) ≡ true }
        ensures { completed self replaced ≡ Some result }
    {
        match (self, replaced) {
            (Undo::Text, Replaced::Text(text)) => Change::SetText(text),
            (Undo::Value(name, room), Replaced::Value(value)) => {
                Change::SetValue(name, value, room)
            }
            (Undo::Children(site, room), Replaced::Child(child)) => {
                Change::Children(site.inverse(child, room))
            }
            _ => unreachable!(),
        }
    }
}
