ghost use Rattle.std.specs.Prelude.{◌≡◌, IfOk};

use crate::{Attributes, Kind};
use fixed_units::{List, Memory, Txt};
use std::alloc::Global;

/// An element with its children, in document order.
///
/// It is plain data that holds itself: contracts read the layer of a node as `out-Node` of it.
#[derive(Debug, Drop)]
pub struct Node {
    pub head: Head,
    pub children: List<Node>,
}

/// What is said of an element itself.
#[derive(Debug, Drop)]
pub struct Head {
    pub id: NodeId,
    /// The element's name as it was written.
    pub name: Txt,
    /// The kind that the name decides.
    pub kind: Kind,
    pub attributes: Attributes,
    /// The text of a text element, empty where none was written. Other elements have none.
    pub text: Txt,
}

/// The number of an element in its tree. The root has 1, and no number is given twice.
#[derive(Clone, Copy, Debug, PartialEq, Eq)]
pub struct NodeId(pub u32);

impl Head {
    /// The same again, with its id.
    pub fn copy(&self, alloc: Global) -> Result<Head, Memory>
        ensures { IfOk result (λ copied. copied ≡ self.now) }
    {
        Ok(Head {
            id: self.id,
            name: self.name.copy(alloc)?,
            kind: self.kind,
            attributes: self.attributes.copy(alloc)?,
            text: self.text.copy(alloc)?,
        })
    }
}

impl Node {
    /// The same element again with all below it, and with their ids.
    pub fn copy(&self, alloc: Global) -> Result<Node, Memory>
        ensures { IfOk result (λ copied. copied ≡ self.now) }
    {
        let mut children = List::make(alloc);
        for child in self.children.as_slice() {
            children.push(child.copy(alloc)?)?;
        }
        Ok(Node {
            head: self.head.copy(alloc)?,
            children,
        })
    }

    /// Gives the element up, with all below it. A crate that calls this needn't prove how.
    pub fn discard(self) {
        drop(self);
    }
}
