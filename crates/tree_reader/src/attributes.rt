ghost use Rattle.std.specs.Prelude.{◌≡◌, ◌^◌, ◌-◌, min, IfOk, IfSome};
ghost use Rattle.math_tree.specs.Attributes.{bytes_of_attributes};
ghost use Rattle.tree_reader.specs.Said.{SaysAttributes};

use crate::keys::{begins_object, text};
use fixed_units::{Memory, Room, Txt};
use json::Reader;
use math_tree::{Attribute, Attributes, is_name};
use std::alloc::Global;

/// The attributes that come next: an object of texts under names. The last of those with one name
/// stays.
pub fn attributes(alloc: Global, reader: &mut Reader<'_>) -> Result<Option<Attributes>, Memory>
    ensures { IfOk result (λ found. IfSome found
        (λ attributes. SaysAttributes reader.old attributes reader.new)) }
{
    if !begins_object(reader) {
        return Ok(None);
    }
    let mut found = Attributes::make(alloc);
    'members: loop {
        let Ok(next) = reader.next_key() else {
            return Ok(None);
        };
        let Some(name) = next else {
            return Ok(Some(found));
        };
        if !is_name(name) {
            return Ok(None);
        }
        let name = Txt::make(alloc, name)?;
        let Some(value) = text(alloc, reader)? else {
            return Ok(None);
        };
        let room = Room::make(alloc, found.as_slice().len() + 1)?;
        drop(found.put(Attribute { name, value }, room));
    }
}

/// The bytes of the names and values of attributes, or the greatest number where they are more.
pub fn attribute_bytes(attributes: &Attributes) -> u64
    ensures { result ≡ min (bytes_of_attributes attributes.now) (2 ^ 64 - 1) }
{
    let mut bytes: u64 = 0;
    for attribute in attributes.as_slice() {
        let own = attribute.name.as_str().len() as u64 + attribute.value.as_str().len() as u64;
        bytes = bytes.saturating_add(own);
    }
    bytes
}
