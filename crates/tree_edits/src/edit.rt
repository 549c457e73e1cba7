ghost use Rattle.std.specs.Prelude.{◌≡◌, IfOk, Some};
ghost use Rattle.tree_edits.specs.Edits.{named};
ghost use Rattle.tree_edits.specs.Texts.{text_of_refusal};

use fixed_units::{Memory, Txt};
use math_tree::{Node, NodeId};
use std::alloc::Global;
use std::error::Error;
use std::fmt;

/// A change of one element of a tree.
#[derive(Debug, Drop)]
pub enum Edit {
    /// Sets the text of a text element.
    Text(NodeId, Txt),
    /// Sets the attribute of that name, or removes it where there is no value. Where there is none
    /// to remove, nothing changes.
    Attr(NodeId, Txt, Option<Txt>),
    /// Puts an element into the element of that id, before the child at the index or behind the
    /// last one. It gets new ids, with all below it.
    Insert(NodeId, u32, Node),
    /// Removes an element with all below it.
    Remove(NodeId),
    /// Puts an element in place of another. It gets new ids, with all below it.
    Replace(NodeId, Node),
    /// Puts an element into the element of that id as `Insert` does, but with the ids that it has.
    Graft(NodeId, u32, Node),
    /// Puts an element in place of another as `Replace` does, but with the ids that it has.
    Swap(NodeId, Node),
}

impl Edit {
    /// The id of the element that it names.
    pub fn named(&self) -> NodeId
        ensures { result.0 ≡ named self.now }
    {
        match self {
            Edit::Text(id, _)
            | Edit::Attr(id, _, _)
            | Edit::Insert(id, _, _)
            | Edit::Remove(id)
            | Edit::Replace(id, _)
            | Edit::Graft(id, _, _)
            | Edit::Swap(id, _) => *id,
        }
    }

    /// The same edit again, with the ids of its element.
    pub fn copy(&self, alloc: Global) -> Result<Edit, Memory>
        ensures { IfOk result (λ copied. copied ≡ self.now) }
    {
        match self {
            Edit::Text(id, text) => Ok(Edit::Text(*id, text.copy(alloc)?)),
            Edit::Attr(id, name, value) => {
                let value = copy_of(alloc, value)?;
                Ok(Edit::Attr(*id, name.copy(alloc)?, value))
            }
            Edit::Insert(id, index, new) => Ok(Edit::Insert(*id, *index, new.copy(alloc)?)),
            Edit::Remove(id) => Ok(Edit::Remove(*id)),
            Edit::Replace(id, new) => Ok(Edit::Replace(*id, new.copy(alloc)?)),
            Edit::Graft(id, index, new) => Ok(Edit::Graft(*id, *index, new.copy(alloc)?)),
            Edit::Swap(id, new) => Ok(Edit::Swap(*id, new.copy(alloc)?)),
        }
    }
}

/// A value of an attribute again, where there is one.
fn copy_of(alloc: Global, value: &Option<Txt>) -> Result<Option<Txt>, Memory>
    ensures { IfOk result (λ copied. copied ≡ value.now) }
{
    match value {
        Some(value) => Ok(Some(value.copy(alloc)?)),
        None => Ok(None),
    }
}

/// Why an edit is refused, in the order in which it is looked for; the tree is then as it was.
#[derive(Clone, Copy, Debug, PartialEq, Eq)]
pub enum EditRefusal {
    /// No element has the id.
    UnknownNode,
    /// Only a text element has a text.
    NotText,
    /// A text element has no children.
    IsText,
    /// The index is above the number of children.
    IndexPast,
    /// The root is neither removed nor replaced.
    RootFixed,
    /// The name of the attribute isn't in its form.
    BadName,
    /// The text or the value has more than 65,536 bytes.
    TextLong,
    /// The tree would have more than 60 levels.
    TooDeep,
    /// The tree would have more than 65,536 elements, or names, attributes and texts of more than
    /// 4,194,304 bytes.
    TooMany,
    /// No ids are left for the new elements.
    IdsSpent,
    /// An id that the element is to keep stands twice in it, wasn't given yet, or is that of an
    /// element of the tree.
    IdTaken,
    /// Memory was refused.
    Memory,
}

impl EditRefusal {
    /// The reason in words. A look-up of texts, which are then written at one place, takes a proof
    /// less than half as long as a message written in each arm.
    fn text(self) -> &'static str
        ensures { result.now ≡ text_of_refusal self }
    {
        match self {
            EditRefusal::UnknownNode => "no element has the id",
            EditRefusal::NotText => "only a text element has a text",
            EditRefusal::IsText => "a text element has no children",
            EditRefusal::IndexPast => "the index is above the number of children",
            EditRefusal::RootFixed => "the root is neither removed nor replaced",
            EditRefusal::BadName => "the name of the attribute isn't in its form",
            EditRefusal::TextLong => "the text or the value is too long",
            EditRefusal::TooDeep => "the tree would have too many levels",
            EditRefusal::TooMany => "the tree would have too many elements or bytes",
            EditRefusal::IdsSpent => "no ids are left for the new elements",
            EditRefusal::IdTaken => "an id of the element isn't free",
            EditRefusal::Memory => "memory was refused",
        }
    }
}

impl fmt::Display for EditRefusal {
    ghost output = { λ refusal. Some (text_of_refusal refusal) };

    fn fmt<W: fmt::Write>(&self, f: &mut fmt::Formatter<W>) -> fmt::Result {
        f.write_str(self.text())
    }
}

impl Error for EditRefusal {}

impl From<Memory> for EditRefusal {
    ghost use Rattle.std.specs.Prelude.{◌≡◌};
    ghost use Rattle.tree_edits.specs.declared.edit.EditRefusal.TheVariants.{Memory as OutOfMemory};

    ghost from_gives = { λ _ refusal. refusal ≡ OutOfMemory };

    fn from(_: Memory) -> Self {
        EditRefusal::Memory
    }
}
