//! An element and all below it.
ghost use Rattle.std.specs.Prelude.{◌≡◌, ◌≤◌, ◌+◌, true, IfOk, IfSome};
ghost use Rattle.math_tree.specs.Forms.{most_bytes, most_elements, most_levels};
ghost use Rattle.tree_reader.specs.Read.{AreRead, HasSaid, IsRead, SaysMore};
ghost use Rattle.tree_reader.specs.Said.{IsUnsaid};

use crate::attributes::attributes;
use crate::keys::{Key, begins_array, begins_object, next_key, text};
use crate::said::Said;
use crate::seen::Seen;
use fixed_units::{List, Memory};
use json::Reader;
use math_tree::{MOST_ELEMENTS, MOST_LEVELS, Node, NodeId};
use std::alloc::Global;

/// An element that begins here, with all below it.
#[cycle(read)]
pub fn element(
    alloc: Global,
    reader: &mut Reader<'_>,
    level: u32,
    seen: &mut Seen,
) -> Result<Option<Node>, Memory>
    requires low { 1 ≤ level }
    requires level { level ≤ most_levels + 1 }
    requires elements { seen.old.elements ≤ most_elements }
    requires bytes { seen.old.bytes ≤ most_bytes }
    ensures { IfOk result (λ found. IfSome found
        (IsRead level reader.old seen.old reader.new seen.new)) }
{
    if level > MOST_LEVELS || seen.elements >= MOST_ELEMENTS {
        return Ok(None);
    }
    seen.elements += 1;
    let id = NodeId(seen.elements);
    let Some(said) = members(alloc, reader, level, seen)? else {
        return Ok(None);
    };
    let Some(node) = said.into_node(alloc, id)? else {
        return Ok(None);
    };
    if seen.count(&node.head) {
        Ok(Some(node))
    } else {
        Ok(None)
    }
}

/// The members of an element that begins here, each at most once, with all below its children.
#[cycle(read)]
fn members(
    alloc: Global,
    reader: &mut Reader<'_>,
    level: u32,
    seen: &mut Seen,
) -> Result<Option<Said>, Memory>
    requires low { 1 ≤ level }
    requires level { level ≤ most_levels }
    requires elements { seen.old.elements ≤ most_elements }
    requires bytes { seen.old.bytes ≤ most_bytes }
    ensures { IfOk result (λ found. IfSome found
        (HasSaid level reader.old seen.old reader.new seen.new)) }
{
    if !begins_object(reader) {
        return Ok(None);
    }
    let mut said = Said::nothing();
    'members: loop {
        let Some(key) = next_key(reader) else {
            return Ok(None);
        };
        if let Key::End = key {
            return Ok(Some(said));
        }
        if said.has(key) || !member(alloc, reader, level, seen, key, &mut said)? {
            return Ok(None);
        }
    }
}

/// The member of a key that is read, and isn't there yet. Tells whether it is one of an element.
#[cycle(read)]
fn member(
    alloc: Global,
    reader: &mut Reader<'_>,
    level: u32,
    seen: &mut Seen,
    key: Key,
    said: &mut Said,
) -> Result<bool, Memory>
    requires low { 1 ≤ level }
    requires level { level ≤ most_levels }
    requires elements { seen.old.elements ≤ most_elements }
    requires bytes { seen.old.bytes ≤ most_bytes }
    requires unsaid { IsUnsaid key said.old }
    ensures { IfOk result (λ done. done ≡ true →
        SaysMore level key reader.old seen.old said.old reader.new seen.new said.new) }
{
    match key {
        Key::Name => {
            said.name = text(alloc, reader)?;
            Ok(said.name.is_some())
        }
        Key::Attributes => {
            said.attributes = attributes(alloc, reader)?;
            Ok(said.attributes.is_some())
        }
        Key::Text => {
            said.text = text(alloc, reader)?;
            Ok(said.text.is_some())
        }
        Key::Children => {
            said.children = children(alloc, reader, level + 1, seen)?;
            Ok(said.children.is_some())
        }
        Key::End => Ok(false),
    }
}

/// The children of an element, each with all below it.
#[cycle(read)]
fn children(
    alloc: Global,
    reader: &mut Reader<'_>,
    level: u32,
    seen: &mut Seen,
) -> Result<Option<List<Node>>, Memory>
    requires low { 1 ≤ level }
    requires level { level ≤ most_levels + 1 }
    requires elements { seen.old.elements ≤ most_elements }
    requires bytes { seen.old.bytes ≤ most_bytes }
    ensures { IfOk result (λ found. IfSome found
        (AreRead level reader.old seen.old reader.new seen.new)) }
{
    if !begins_array(reader) {
        return Ok(None);
    }
    let mut nodes = List::make(alloc);
    'items: while !reader.take_end_array() {
        let Some(node) = element(alloc, reader, level, seen)? else {
            return Ok(None);
        };
        nodes.push(node)?;
    }
    Ok(Some(nodes))
}
