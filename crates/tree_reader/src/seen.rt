ghost use Rattle.std.specs.Prelude.{◌≡◌, ◌≤◌, ◌^◌, ◌-◌, ◌+◌, true, min, length};
ghost use Rattle.math_tree.specs.Attributes.{bytes_of_attributes};
ghost use Rattle.tree_reader.specs.Read.{HasCounted};

use crate::attributes::attribute_bytes;
use math_tree::{Head, MOST_BYTES};

/// The elements that were read so far: how many there are, and how many bytes those of them hold
/// together that are read to their end.
#[derive(Clone, Copy, Debug, Drop)]
pub struct Seen {
    pub elements: u32,
    pub bytes: u64,
}

impl Seen {
    /// Counts the bytes of an element, and tells whether they are no more than a tree may have.
    pub fn count(&mut self, head: &Head) -> bool
        ensures { result ≡ true → HasCounted head.now self.old self.new }
    {
        self.bytes = self.bytes.saturating_add(bytes_held(head));
        self.bytes <= MOST_BYTES
    }
}

/// The bytes that an element holds, or the greatest number where they are more.
fn bytes_held(head: &Head) -> u64
    ensures { result ≡ min (length head.now.name + length head.now.text
        + bytes_of_attributes head.now.attributes) (2 ^ 64 - 1) }
{
    let texts = head.name.as_str().len() as u64 + head.text.as_str().len() as u64;
    texts.saturating_add(attribute_bytes(&head.attributes))
}
