//! The reasons against an edit that lie in the edit itself and in the element that it names.
ghost use Rattle.std.specs.Prelude.{◌≡◌, ◌∷◌, [], length, nat_eq, nat_lt, not};
ghost use Rattle.math_tree.specs.Forms.{is_name, is_short_enough};
ghost use Rattle.math_tree.specs.Kinds.{is_text_kind};
ghost use Rattle.tree_edits.specs.Edits.{head_of, is_long_value};
ghost use Rattle.tree_edits.specs.Paths.{children_of};
ghost use Rattle.tree_edits.specs.Reasons.{first_reason, own_reason, shown};
ghost use Rattle.tree_edits.specs.declared.edit.EditRefusal.TheVariants.{NotText, IsText, IndexPast, RootFixed, BadName, TextLong};

use crate::{Edit, EditRefusal};
use fixed_units::Txt;
use math_tree::{Kind, Node, is_name, is_short_enough};

/// The first of these reasons against an edit of an element at a level.
pub fn own_reason(edit: &Edit, level: u32, element: &Node) -> Option<EditRefusal>
    ensures { result ≡ own_reason edit.now (shown level element.now) }
{
    match edit {
        Edit::Text(_, text) => against_text(element.head.kind, text),
        Edit::Attr(_, name, value) => against_attribute(name, value),
        Edit::Insert(_, index, _) | Edit::Graft(_, index, _) => against_child(element, *index),
        Edit::Remove(_) | Edit::Replace(_, _) | Edit::Swap(_, _) => against_going(level),
    }
}

/// Against a text for an element of a kind.
fn against_text(kind: Kind, text: &Txt) -> Option<EditRefusal>
    ensures { result ≡ first_reason (
        (not (is_text_kind kind), NotText)
        ∷ (not (is_short_enough text.now), TextLong)
        ∷ []) }
{
    if !kind.is_text() {
        Some(EditRefusal::NotText)
    } else if !is_short_enough(text.as_str()) {
        Some(EditRefusal::TextLong)
    } else {
        None
    }
}

/// Against a value for an attribute.
fn against_attribute(name: &Txt, value: &Option<Txt>) -> Option<EditRefusal>
    ensures { result ≡ first_reason (
        (not (is_name name.now), BadName)
        ∷ (is_long_value value.now, TextLong)
        ∷ []) }
{
    if !is_name(name.as_str()) {
        Some(EditRefusal::BadName)
    } else if is_long_value(value) {
        Some(EditRefusal::TextLong)
    } else {
        None
    }
}

fn is_long_value(value: &Option<Txt>) -> bool
    ensures { result ≡ is_long_value value.now }
{
    match value {
        Some(value) => !is_short_enough(value.as_str()),
        None => false,
    }
}

/// Against a child at a place in an element.
fn against_child(element: &Node, index: u32) -> Option<EditRefusal>
    ensures { result ≡ first_reason (
        (is_text_kind (head_of element.now).kind, IsText)
        ∷ (nat_lt (length (children_of element.now)) index, IndexPast)
        ∷ []) }
{
    if element.head.kind.is_text() {
        Some(EditRefusal::IsText)
    } else if element.children.len() < index as usize {
        Some(EditRefusal::IndexPast)
    } else {
        None
    }
}

/// Against removing or replacing an element at a level.
fn against_going(level: u32) -> Option<EditRefusal>
    ensures { result ≡ first_reason ((nat_eq level 1, RootFixed) ∷ []) }
{
    if level == 1 {
        Some(EditRefusal::RootFixed)
    } else {
        None
    }
}
