//! Whether an element is in its form, fault by fault. No call takes memory.
ghost use Rattle.std.specs.Prelude.{◌≡◌};
ghost use Rattle.serde_json.specs.View.{view, members_view};
ghost use Rattle.tree_json.specs.Elements.{is_element_key, has_known_keys, has_attributes};
ghost use Rattle.tree_json.specs.Elements.{are_attributes, is_map_of_attributes, is_attribute};
ghost use Rattle.tree_json.specs.Elements.{has_text, has_children};
ghost use Rattle.tree_json.specs.Faults.{fault_of, is_misplaced};
ghost use Rattle.tree_json.specs.Keys.{IsSaid};

use crate::element::Keys;
use crate::fault::ElementFault;
use crate::portion::Portion;
use math_tree::{MOST_BYTES, MOST_ELEMENTS, MOST_LEVELS, is_name, is_short_enough, is_white_space};
use serde_json::{Map, Value};

/// The first fault of an element, where it has one: by what is read, by the element's level, its
/// place in document order, both from 1, and the bytes that it and all elements before it hold.
#[tactic(auto, unfolding(crate::specs::Faults::fault_of))]
pub fn fault_of(
    portion: Portion,
    keys: &Keys,
    level: u32,
    place: u32,
    bytes: u64,
) -> Option<ElementFault>
    requires said { IsSaid keys.now }
    ensures { result
        ≡ fault_of portion place bytes (record { level = level; value = view keys.now.value.now }) }
{
    if level > MOST_LEVELS {
        Some(ElementFault::TooDeep)
    } else if place > MOST_ELEMENTS {
        Some(ElementFault::TooMany)
    } else if !keys.value.is_object() {
        Some(ElementFault::NotAnObject)
    } else if !has_known_keys(keys.value) {
        Some(ElementFault::UnknownKey)
    } else if !is_name(keys.name) {
        Some(ElementFault::BadName)
    } else if is_misplaced(portion, place, keys.name) {
        Some(ElementFault::NotMath)
    } else if !has_attributes(keys) {
        Some(ElementFault::BadAttributes)
    } else if !has_text(keys) {
        Some(ElementFault::BadText)
    } else if !has_children(keys) {
        Some(ElementFault::BadChildren)
    } else if bytes > MOST_BYTES {
        Some(ElementFault::TooLong)
    } else {
        None
    }
}

/// Whether this is the first element of a whole tree and isn't `math`.
fn is_misplaced(portion: Portion, place: u32, name: &str) -> bool
    ensures { result ≡ is_misplaced portion place name.now }
{
    matches!(portion, Portion::Whole) && place == 1 && name != "math"
}

/// Whether the value has no key but the four of an element.
#[tactic(auto, unfolding(crate::specs::Elements::has_known_keys))]
fn has_known_keys(value: &Value) -> bool
    ensures { result ≡ has_known_keys (view value.now) }
{
    match value {
        Value::Object(members) => members.keys().all(|key| is_known(key)),
        _ => true,
    }
}

fn is_known(key: &str) -> bool
    ensures { result ≡ is_element_key key.now }
{
    matches!(key, "name" | "attributes" | "children" | "text")
}

/// Whether `attributes`, if there are any, are an object of texts under names.
#[tactic(auto, unfolding(crate::specs::Elements::has_attributes))]
fn has_attributes(keys: &Keys) -> bool
    requires said { IsSaid keys.now }
    ensures { result ≡ has_attributes (view keys.now.value.now) }
{
    match keys.attributes {
        Some(Value::Object(members)) => are_attributes(members),
        Some(_) => false,
        None => true,
    }
}

fn are_attributes(members: &Map<String, Value>) -> bool
    ensures { result ≡ are_attributes (members_view members.now.entries) }
{
    members
        .iter()
        .all(|(name, value)| is_attribute(name, value))
}

/// Whether the name is in its form and the value a text that isn't too long.
fn is_attribute(name: &str, value: &Value) -> bool
    ensures { result ≡ is_attribute name.now (view value.now) }
{
    is_name(name) && value.as_str().is_some_and(|text| is_short_enough(text))
}

/// Whether `text` is a text that isn't too long, and on an element that isn't a text element white
/// space alone.
#[tactic(auto, unfolding(crate::specs::Elements::has_text))]
fn has_text(keys: &Keys) -> bool
    requires said { IsSaid keys.now }
    ensures { result ≡ has_text (view keys.now.value.now) }
{
    match keys.text {
        Some(text) => is_short_enough(text) && (keys.kind.is_text() || is_white_space(text)),
        None => false,
    }
}

/// Whether `children` are an array, and on a text element an empty one.
#[tactic(auto, using(crate::proofs::Items::some_below), unfolding(crate::specs::Elements::has_children))]
fn has_children(keys: &Keys) -> bool
    requires said { IsSaid keys.now }
    ensures { result ≡ has_children (view keys.now.value.now) }
{
    match keys.children {
        Some([]) => true,
        Some(_) => !keys.kind.is_text(),
        None => false,
    }
}
