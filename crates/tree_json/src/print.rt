ghost use Rattle.std.specs.Prelude.{◌≡◌, IfOk, OnOk, map, codes, option_map, Some, Ok};
ghost use Rattle.serde_json.specs.Data.{string, array, object, no_members, member, put};
ghost use Rattle.serde_json.specs.Read.{read};
ghost use Rattle.serde_json.specs.View.{view, members_view};
ghost use Rattle.math_tree.specs.Attributes.{IsInOrder};
ghost use Rattle.tree_json.specs.Reading.{tree_of};
ghost use Rattle.math_tree.specs.Numbering.{anew};
ghost use Rattle.tree_json.specs.Print.{members_of, items_of, member_if_any, object_of, value_of, print_of, GoesFirst};

use fixed_units::{List, Memory};
use math_tree::{Attribute, Head, Node, Tree};
use serde_json::{Map, Value};
use std::alloc::Global;

/// The canonical print: the compact JSON text of the tree, without its ids. JSON reads it as the
/// value of the tree, and that stands for the same tree, with its ids numbered anew.
pub fn print_tree(alloc: Global, tree: &Tree) -> Result<List<u8>, Memory>
    ensures print { IfOk result (λ text. text ≡ print_of tree.now) }
    ensures reads_back { IfOk result
        (λ text. option_map tree_of (read text) ≡ Some (Ok (anew tree.now))) }
{
    let text = value_of(alloc, tree.root())?.to_string(alloc)?;
    Ok(List::from(text.into_bytes()))
}

/// The JSON value of an element with all below it.
fn value_of(alloc: Global, node: &Node) -> Result<Value, Memory>
    ensures { IfOk result (λ value. view value ≡ value_of node.now) }
{
    let mut children = Vec::new(alloc);
    for child in node.children.as_slice() {
        children.push(value_of(alloc, child)?)?;
    }
    object_of(alloc, &node.head, children)
}

/// The object of an element over the values of its children. Its keys are added from the last to
/// the first.
fn object_of(alloc: Global, head: &Head, children: Vec<Value>) -> Result<Value, Memory>
    ensures { IfOk result
        (λ value. view value ≡ object_of head.now (map view children.items)) }
{
    let text = text_member(alloc, head.text.as_str())?;
    let name = text_value(alloc, head.name.as_str())?;
    let named = with_first(alloc, "name", name, text)?;
    let over = with_children(alloc, children, named)?;
    let whole = with_attributes(alloc, head.attributes.as_slice(), over)?;
    Ok(Value::Object(whole))
}

/// The member of a text, where there is one.
fn text_member(alloc: Global, text: &str) -> Result<Map<String, Value>, Memory>
    ensures { IfOk result (λ members. members_view members.entries
        ≡ member_if_any text.now (codes "text") (string text.now) no_members) }
{
    let none = Map::new(alloc);
    if text.is_empty() {
        return Ok(none);
    }
    with_first(alloc, "text", text_value(alloc, text)?, none)
}

/// Adds the member of the children, where there are any.
fn with_children(
    alloc: Global,
    children: Vec<Value>,
    members: Map<String, Value>,
) -> Result<Map<String, Value>, Memory>
    requires { GoesFirst (codes "children") (members_view members.entries) }
    ensures { IfOk result (λ all. members_view all.entries
        ≡ member_if_any (map view children.items) (codes "children")
        (array (items_of (map view children.items))) (members_view members.entries)) }
{
    if children.is_empty() {
        return Ok(members);
    }
    with_first(alloc, "children", Value::Array(children), members)
}

/// Adds the member of the attributes, where there are any.
fn with_attributes(
    alloc: Global,
    attributes: &[Attribute],
    members: Map<String, Value>,
) -> Result<Map<String, Value>, Memory>
    requires order { IsInOrder attributes.now }
    requires first { GoesFirst (codes "attributes") (members_view members.entries) }
    ensures { IfOk result (λ all. members_view all.entries
        ≡ member_if_any attributes.now (codes "attributes")
        (object (members_of attributes.now)) (members_view members.entries)) }
{
    if attributes.is_empty() {
        return Ok(members);
    }
    let values = Value::Object(attribute_members(alloc, attributes)?);
    with_first(alloc, "attributes", values, members)
}

/// Adds a member whose key comes before all others.
fn with_first(
    alloc: Global,
    key: &str,
    value: Value,
    members: Map<String, Value>,
) -> Result<Map<String, Value>, Memory>
    requires { GoesFirst key.now (members_view members.entries) }
    ensures { IfOk result (λ all. members_view all.entries
        ≡ member key.now (view value) (members_view members.entries)) }
{
    let mut all = members;
    put(alloc, &mut all, key, value)?;
    Ok(all)
}

/// Puts a value at a key.
fn put(
    alloc: Global,
    members: &mut Map<String, Value>,
    key: &str,
    value: Value,
) -> Result<(), Memory>
    ensures { OnOk result (members_view members.new.entries
        ≡ put key.now (view value) (members_view members.old.entries)) }
{
    let _ = members.insert(String::from_str(alloc, key)?, value)?;
    Ok(())
}

/// A text as a value.
fn text_value(alloc: Global, text: &str) -> Result<Value, Memory>
    ensures { IfOk result (λ value. view value ≡ string text.now) }
{
    Ok(Value::String(String::from_str(alloc, text)?))
}

/// The members of an object that has the attributes.
fn attribute_members(alloc: Global, attributes: &[Attribute]) -> Result<Map<String, Value>, Memory>
    requires { IsInOrder attributes.now }
    ensures { IfOk result (λ members. members_view members.entries ≡ members_of attributes.now) }
{
    let mut members = Map::new(alloc);
    for attribute in attributes {
        let value = text_value(alloc, attribute.value.as_str())?;
        put(alloc, &mut members, attribute.name.as_str(), value)?;
    }
    Ok(members)
}
