//! How much there is in an element. No call takes memory.
ghost use Rattle.std.specs.Prelude.{◌≡◌, ◌+◌, ◌-◌, ◌≤◌, ◌^◌};
ghost use Rattle.math_tree.specs.Attributes.{bytes_of_attributes};
ghost use Rattle.math_tree.specs.Forms.{most_levels};
ghost use Rattle.math_tree.specs.Trees.{byte_count, bytes_of_head, element_count, listed};
ghost use Rattle.tree_edits.specs.Edits.{is_deep};
ghost use Rattle.tree_edits.specs.Sizes.{capped, size_of};

use math_tree::{Attribute, Head, MOST_LEVELS, Node, Tree};

/// How many elements there are, and how many bytes of names, attributes and texts they hold. The
/// greatest number stands for all that are greater.
#[derive(Clone, Copy)]
pub struct Size {
    pub elements: u64,
    pub bytes: u64,
}

impl Size {
    /// The size of an element with all below it.
    pub fn of(element: &Node) -> Size
        ensures { result ≡ size_of element.now }
    {
        let mut size = Size {
            elements: 1,
            bytes: head_bytes(&element.head),
        };
        for child in element.children.as_slice() {
            size = size.and(Size::of(child));
        }
        size
    }

    /// The size of a tree. It counts nothing.
    pub fn of_tree(tree: &Tree) -> Size
        ensures elements { result.elements ≡ element_count tree.now.root }
        ensures bytes { result.bytes ≡ byte_count tree.now.root }
    {
        Size {
            elements: u64::from(tree.elements()),
            bytes: tree.bytes(),
        }
    }

    /// This size and another together.
    pub fn and(self, other: Size) -> Size
        ensures elements { result.elements ≡ capped (self.elements + other.elements) }
        ensures bytes { result.bytes ≡ capped (self.bytes + other.bytes) }
    {
        Size {
            elements: self.elements.saturating_add(other.elements),
            bytes: self.bytes.saturating_add(other.bytes),
        }
    }

    /// What is left of this size without a part of it.
    pub fn without(self, part: Size) -> Size
        requires elements { part.elements ≤ self.elements }
        requires bytes { part.bytes ≤ self.bytes }
        ensures elements { result.elements ≡ self.elements - part.elements }
        ensures bytes { result.bytes ≡ self.bytes - part.bytes }
    {
        Size {
            elements: self.elements - part.elements,
            bytes: self.bytes - part.bytes,
        }
    }
}

/// The bytes of an element's name, its text and its attributes.
fn head_bytes(head: &Head) -> u64
    ensures { result ≡ capped (bytes_of_head head.now) }
{
    let texts = head.name.as_str().len() as u64 + head.text.as_str().len() as u64;
    texts.saturating_add(attribute_bytes(head.attributes.as_slice()))
}

fn attribute_bytes(attributes: &[Attribute]) -> u64
    ensures { result ≡ capped (bytes_of_attributes attributes.now) }
{
    let mut bytes: u64 = 0;
    for attribute in attributes {
        let one = attribute.name.as_str().len() as u64 + attribute.value.as_str().len() as u64;
        bytes = bytes.saturating_add(one);
    }
    bytes
}

/// Whether an element at a level, or one below it, stands deeper than those of a tree may.
pub fn is_deep(element: &Node, level: u32) -> bool
    requires { level ≤ most_levels + 1 }
    ensures { result ≡ is_deep (listed level element.now) }
{
    if level > MOST_LEVELS {
        return true;
    }
    for child in element.children.as_slice() {
        if is_deep(child, level + 1) {
            return true;
        }
    }
    false
}
