//! A line that is read token by token.
ghost use Rattle.std.specs.Prelude.{◌≡◌, ◌∷◌, true, IfOk, IfSome, Some};
ghost use Rattle.json.specs.Json.{value};
ghost use Rattle.json.specs.Token as spec;
ghost use Rattle.serde_json.specs.Read.{converted, max_depth, of_json, read};
ghost use Rattle.tree_edits.specs.Commands.{json_in};
ghost use Rattle.command_reader.specs.Said.{IsUnsaid, SaysMore, line_of};

use crate::keys::{Key, next_key, next_number, next_op, next_text, next_text_or_null};
use crate::said::Said;
use fixed_units::Memory;
use json::{Reader, Scratch, Token};
use std::alloc::Global;

/// What a line says, or none where it is no object, or has a member that no such command has, or
/// a key twice.
pub fn said_in(alloc: Global, scratch: &mut Scratch, line: &[u8]) -> Result<Option<Said>, Memory>
    ensures { IfOk result (λ found. IfSome found (λ said. json_in line.now ≡ Some (line_of said))) }
{
    match std::str::from_utf8(line) {
        Ok(text) => said_in_text(alloc, scratch, text),
        Err(_) => Ok(None),
    }
}

/// The same of a text.
fn said_in_text(alloc: Global, scratch: &mut Scratch, text: &str) -> Result<Option<Said>, Memory>
    ensures { IfOk result (λ found. IfSome found (λ said. read text.now ≡ Some (line_of said))) }
{
    let mut reader = Reader::new(text, scratch)?;
    let found = members(alloc, &mut reader)?;
    if reader.next().is_some() {
        return Ok(None);
    }
    Ok(found)
}

/// The members of an object that comes next, each at most once.
fn members(alloc: Global, reader: &mut Reader<'_>) -> Result<Option<Said>, Memory>
    ensures { IfOk result (λ found. IfSome found (λ said.
        converted of_json (value max_depth reader.old) ≡ Some (line_of said, reader.new))) }
{
    if !begins_object(reader) {
        return Ok(None);
    }
    let mut said = Said::nothing();
    'members: loop {
        let Some(key) = next_key(reader) else {
            return Ok(None);
        };
        if let Key::End = key {
            return Ok(Some(said));
        }
        if said.has(key) || !member(alloc, reader, key, &mut said)? {
            return Ok(None);
        }
    }
}

/// Whether an object begins here. A token is taken in any case.
fn begins_object(reader: &mut Reader<'_>) -> bool
    ensures { result ≡ true → reader.old ≡ spec.begin_object ∷ reader.new }
{
    matches!(reader.next(), Some(Token::BeginObject))
}

/// The member of a key that is read, and isn't there yet. Tells whether its value is of the kind
/// that the key wants.
fn member(alloc: Global, reader: &mut Reader<'_>, key: Key, said: &mut Said) -> Result<bool, Memory>
    requires unsaid { IsUnsaid key said.old }
    ensures { IfOk result (λ done. done ≡ true →
        SaysMore key reader.old said.old reader.new said.new) }
{
    match key {
        Key::Op => {
            said.op = next_op(reader);
            Ok(said.op.is_some())
        }
        Key::Node => {
            said.node = next_number(reader);
            Ok(said.node.is_some())
        }
        Key::Name => {
            said.name = next_text(alloc, reader)?;
            Ok(said.name.is_some())
        }
        Key::Text => {
            said.text = next_text(alloc, reader)?;
            Ok(said.text.is_some())
        }
        Key::Value => {
            said.value = next_text_or_null(alloc, reader)?;
            Ok(said.value.is_some())
        }
        Key::End => Ok(false),
    }
}
