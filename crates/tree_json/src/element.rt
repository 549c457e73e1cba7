//! What a JSON value says of an element. Each key is looked up once. No call takes memory.
ghost use Rattle.std.specs.Prelude.{◌≡◌, ◌^◌, ◌-◌, min, map};
ghost use Rattle.std.specs.Option.{option_map};
ghost use Rattle.serde_json.specs.View.{view, items_view, members_view};
ghost use Rattle.math_tree.specs.Attributes.{bytes_of_attribute, bytes_of_attributes};
ghost use Rattle.tree_json.specs.Elements.{name_in, attributes_in, text_in, children_in};
ghost use Rattle.tree_json.specs.Elements.{below, attribute_of, attributes_of, attributes_held, text_held, bytes_held};
ghost use Rattle.tree_json.specs.Elements.{text_or_empty};
ghost use Rattle.tree_json.specs.Keys.{IsSaid};

use math_tree::Kind;
use serde_json::{Map, Value};

/// What a JSON value says of an element.
#[derive(Clone, Copy, Debug)]
pub struct Keys<'a> {
    pub value: &'a Value,
    /// The name, where it is a text, and else the empty one, which isn't in the form of a name.
    pub name: &'a str,
    /// The kind that the name decides.
    pub kind: Kind,
    pub attributes: Option<&'a Value>,
    /// The text, where it is one; where the key is absent, the empty text.
    pub text: Option<&'a str>,
    /// The children, where they are an array; where the key is absent, none.
    pub children: Option<&'a [Value]>,
}

impl<'a> Keys<'a> {
    /// Looks each key up.
    pub fn of(value: &'a Value) -> Keys<'a>
        ensures value { result.value.now ≡ value.now }
        ensures said { IsSaid result }
    {
        let name = name_in(value);
        Keys {
            value,
            name,
            kind: Kind::of_name(name),
            attributes: value.get("attributes"),
            text: text_in(value),
            children: children_in(value),
        }
    }
}

/// The name, where it is a text, and else the empty one, which isn't in the form of a name.
#[tactic(auto, unfolding(crate::specs::Elements::name_in))]
fn name_in(value: &Value) -> &str
    ensures { result.now ≡ name_in (view value.now) }
{
    value.get("name").map_or("", text_or_empty)
}

/// The text that a value is; all other values stand for the empty one.
pub fn text_or_empty(value: &Value) -> &str
    ensures { result.now ≡ text_or_empty (view value.now) }
{
    value.as_str().unwrap_or("")
}

/// The text, where it is one; where the key is absent, the empty text.
#[tactic(auto, unfolding(crate::specs::Elements::text_in))]
fn text_in(value: &Value) -> Option<&str>
    ensures { option_map (λ text. text.now) result ≡ text_in (view value.now) }
{
    value.get("text").map_or(Some(""), Value::as_str)
}

/// The children, where they are an array; where the key is absent, none.
#[tactic(auto, unfolding(crate::specs::Elements::children_in))]
fn children_in(value: &Value) -> Option<&[Value]>
    ensures { option_map (λ children. items_view children.now) result
        ≡ children_in (view value.now) }
{
    match value.get("children") {
        Some(Value::Array(children)) => Some(children.as_slice()),
        Some(_) => None,
        None => Some(&[]),
    }
}

/// The members of `attributes`, where it is an object.
#[tactic(auto, unfolding(crate::specs::Elements::attributes_in))]
pub fn attributes_in<'a>(keys: &Keys<'a>) -> Option<&'a Map<String, Value>>
    requires said { IsSaid keys.now }
    ensures { option_map (λ members. members_view members.now.entries) result
        ≡ attributes_in (view keys.now.value.now) }
{
    keys.attributes.and_then(Value::as_object)
}

/// The elements right below an element: where `children` is an array, its items.
#[tactic(auto, using(crate::proofs::Items::listed_view))]
pub fn below<'a>(keys: &Keys<'a>) -> &'a [Value]
    requires said { IsSaid keys.now }
    ensures { map view result.now ≡ below (view keys.now.value.now) }
{
    match keys.children {
        Some(children) => children,
        None => &[],
    }
}

/// The text of a text element. That of another element, white space alone, is dropped.
#[tactic(auto, unfolding(crate::specs::Elements::text_held))]
pub fn text_held<'a>(keys: &Keys<'a>) -> &'a str
    requires said { IsSaid keys.now }
    ensures { result.now ≡ text_held (view keys.now.value.now) }
{
    if keys.kind.is_text() {
        keys.text.unwrap_or("")
    } else {
        ""
    }
}

/// The bytes of an element's name, its attributes and its text, or the greatest number where they
/// are more.
#[tactic(auto, unfolding(crate::specs::Elements::bytes_held))]
pub fn bytes_held(keys: &Keys) -> u64
    requires said { IsSaid keys.now }
    ensures { result ≡ min (bytes_held (view keys.now.value.now)) (2 ^ 64 - 1) }
{
    let texts = keys.name.len() as u64 + text_held(keys).len() as u64;
    texts.saturating_add(attribute_bytes(keys))
}

/// The bytes of its attributes' names and values, likewise.
#[tactic(auto, unfolding(crate::specs::Elements::attributes_held, math_tree::specs::Attributes::bytes_of_attributes))]
fn attribute_bytes(keys: &Keys) -> u64
    requires said { IsSaid keys.now }
    ensures { result
        ≡ min (bytes_of_attributes (attributes_held (view keys.now.value.now))) (2 ^ 64 - 1) }
{
    match attributes_in(keys) {
        Some(members) => member_bytes(members),
        None => 0,
    }
}

/// The bytes of the names and values of these members, likewise.
fn member_bytes(members: &Map<String, Value>) -> u64
    ensures { result
        ≡ min (bytes_of_attributes (attributes_of (members_view members.now.entries)))
        (2 ^ 64 - 1) }
{
    let mut bytes: u64 = 0;
    for (name, value) in members.iter() {
        bytes = bytes.saturating_add(bytes_of_member(name, value));
    }
    bytes
}

fn bytes_of_member(name: &str, value: &Value) -> u64
    ensures { result ≡ bytes_of_attribute (attribute_of name.now (view value.now)) }
{
    name.len() as u64 + text_or_empty(value).len() as u64
}
