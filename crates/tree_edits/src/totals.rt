//! What an edited tree would be, in numbers. No call takes memory.
ghost use Rattle.std.specs.Prelude.{◌≡◌, ◌+◌, ◌≤◌, ◌<◌, ◌^◌, length, option_map};
ghost use Rattle.math_tree.specs.Attributes.{IsInOrder, value_of};
ghost use Rattle.math_tree.specs.Forms.{most_levels};
ghost use Rattle.math_tree.specs.Trees.{byte_count, element_count};
ghost use Rattle.tree_edits.specs.Edits.{edited, head_of};
ghost use Rattle.tree_edits.specs.Reasons.{broken_limit};
ghost use Rattle.tree_edits.specs.Sizes.{attribute_bytes, totals_of, with_bytes, without, Adds, AddsOwn};
ghost use Rattle.tree_edits.specs.Planning.{Allows};

use crate::measure::{Size, is_deep};
use crate::path::Path;
use crate::{Edit, EditRefusal};
use fixed_units::Txt;
use math_tree::{MOST_BYTES, MOST_ELEMENTS, Node, Tree};

/// How deep and how large a tree is, and how far its ids go.
#[derive(Clone, Copy)]
pub struct Totals {
    /// Whether an element stands deeper than those of a tree may.
    pub deep: bool,
    pub size: Size,
    /// The id that the next new element gets.
    pub next_id: u64,
}

impl Totals {
    /// Those of a tree. It counts nothing.
    fn of_tree(tree: &Tree) -> Totals
        ensures { result ≡ totals_of tree.now }
    {
        Totals {
            deep: false,
            size: Size::of_tree(tree),
            next_id: tree.next_id(),
        }
    }

    /// Those of a tree once it is edited, where the way leads to the element that the edit names.
    pub fn of_edited(tree: &Tree, path: &Path, element: &Node, edit: &Edit) -> Totals
        requires { Allows edit.now tree.now path.now element.now }
        ensures { result ≡ totals_of (edited tree.now edit.now) }
    {
        let before = Totals::of_tree(tree);
        match edit {
            Edit::Text(_, text) => before.with_bytes(bytes_of(text), bytes_of(&element.head.text)),
            Edit::Attr(_, name, value) => {
                let former = former_value(element, name);
                before.with_bytes(
                    attribute_bytes(name, lent(value)),
                    attribute_bytes(name, former),
                )
            }
            Edit::Insert(_, _, new) => before.with(path.level() + 1, new),
            Edit::Remove(_) => before.without(element),
            Edit::Replace(_, new) => before.without(element).with(path.level(), new),
            Edit::Graft(_, _, new) => before.with_own(path.level() + 1, new),
            Edit::Swap(_, new) => before.without(element).with_own(path.level(), new),
        }
    }

    /// With some bytes more, and some less.
    fn with_bytes(self, more: u64, less: u64) -> Totals
        requires fits { self.size.bytes + more < 2 ^ 64 }
        requires within { less ≤ self.size.bytes + more }
        ensures { result ≡ with_bytes more less self }
    {
        Totals {
            size: Size {
                bytes: self.size.bytes + more - less,
                ..self.size
            },
            ..self
        }
    }

    /// With an element that is put in at a level.
    fn with(self, level: u32, new: &Node) -> Totals
        requires { level ≤ most_levels + 1 }
        ensures { Adds level new.now self result }
    {
        let added = Size::of(new);
        Totals {
            deep: self.deep || is_deep(new, level),
            size: self.size.and(added),
            next_id: self.next_id.saturating_add(added.elements),
        }
    }

    /// With an element that is put in at a level with ids of its own.
    fn with_own(self, level: u32, new: &Node) -> Totals
        requires { level ≤ most_levels + 1 }
        ensures { AddsOwn level new.now self result }
    {
        Totals {
            next_id: self.next_id,
            ..self.with(level, new)
        }
    }

    /// Without an element of it.
    fn without(self, element: &Node) -> Totals
        requires elements { element_count element.now ≤ self.size.elements }
        requires bytes { byte_count element.now ≤ self.size.bytes }
        ensures { result ≡ without element.now self }
    {
        Totals {
            size: self.size.without(Size::of(element)),
            ..self
        }
    }

    /// The first limit that such a tree would break.
    pub fn broken_limit(self) -> Option<EditRefusal>
        ensures { result
            ≡ broken_limit self.deep self.size.elements self.size.bytes self.next_id }
    {
        if self.deep {
            Some(EditRefusal::TooDeep)
        } else if self.size.elements > u64::from(MOST_ELEMENTS) || self.size.bytes > MOST_BYTES {
            Some(EditRefusal::TooMany)
        } else if self.next_id > 1 << 32 {
            Some(EditRefusal::IdsSpent)
        } else {
            None
        }
    }
}

fn bytes_of(text: &Txt) -> u64
    ensures { result ≡ length text.now }
{
    text.as_str().len() as u64
}

/// The value that an attribute of an element has. Its attributes stand in order.
fn former_value<'a>(element: &'a Node, name: &Txt) -> Option<&'a str>
    ensures value { option_map (λ value. value.now) result
        ≡ value_of name.now (head_of element.now).attributes }
    ensures order { IsInOrder (head_of element.now).attributes }
{
    let _in_order = element.head.attributes.as_slice();
    element.head.attributes.get(name.as_str())
}

fn lent(value: &Option<Txt>) -> Option<&str>
    ensures { option_map (λ value. value.now) result ≡ value.now }
{
    match value {
        Some(value) => Some(value.as_str()),
        None => None,
    }
}

/// The bytes of an attribute of that name, where it has a value.
fn attribute_bytes(name: &Txt, value: Option<&str>) -> u64
    ensures { result ≡ attribute_bytes name.now (option_map (λ value. value.now) value.entry) }
{
    match value {
        Some(value) => name.as_str().len() as u64 + value.len() as u64,
        None => 0,
    }
}
