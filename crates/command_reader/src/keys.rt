//! What comes next in a line that is read token by token: a key, or what stands under one. Only a
//! text takes memory.
ghost use Rattle.std.specs.Prelude.{◌≡◌, ◌∷◌, IfOk, IfSome, Some};
ghost use Rattle.json.specs.Json.{read_key};
ghost use Rattle.json.specs.Token as spec;
ghost use Rattle.command_reader.specs.Said.{SaysNumber, text_of, token_for, word_of};

use crate::number::whole_number;
use fixed_units::{Memory, Txt};
use json::{Reader, Token};
use std::alloc::Global;

/// A key of a line, or the end of its keys.
#[derive(Clone, Copy, Debug, PartialEq, Eq)]
pub enum Key {
    Op,
    Node,
    Name,
    Text,
    Value,
    End,
}

/// The word of a command that brings no element.
#[derive(Clone, Copy, Debug, PartialEq, Eq)]
pub enum Op {
    Show,
    Text,
    Attr,
    Remove,
}

/// The key that comes next, where it is one of these, or the end of the keys.
pub fn next_key(reader: &mut Reader<'_>) -> Option<Key>
    ensures { IfSome result (λ key. read_key reader.old ≡ Some (text_of key, reader.new)) }
{
    let Ok(found) = reader.next_key() else {
        return None;
    };
    match found {
        Some(name) => key_of(name),
        None => Some(Key::End),
    }
}

/// The key that has this name. Its bytes are compared in place, where texts would be by calls.
fn key_of(name: &str) -> Option<Key>
    ensures { IfSome result (λ key. text_of key ≡ Some name.now) }
{
    match name.as_bytes() {
        b"op" => Some(Key::Op),
        b"node" => Some(Key::Node),
        b"name" => Some(Key::Name),
        b"text" => Some(Key::Text),
        b"value" => Some(Key::Value),
        _ => None,
    }
}

/// The word of a command that comes next.
pub fn next_op(reader: &mut Reader<'_>) -> Option<Op>
    ensures { IfSome result (λ op. reader.old ≡ spec.string (word_of op) ∷ reader.new) }
{
    match reader.next() {
        Some(Token::String(word)) => op_of(word),
        _ => None,
    }
}

/// The command that has this word, whose bytes are compared in the same way.
fn op_of(word: &str) -> Option<Op>
    ensures { IfSome result (λ op. word_of op ≡ word.now) }
{
    match word.as_bytes() {
        b"show" => Some(Op::Show),
        b"text" => Some(Op::Text),
        b"attr" => Some(Op::Attr),
        b"remove" => Some(Op::Remove),
        _ => None,
    }
}

/// The whole number that comes next.
pub fn next_number(reader: &mut Reader<'_>) -> Option<u64>
    ensures { IfSome result (λ number. SaysNumber reader.old number reader.new) }
{
    match reader.next() {
        Some(Token::Number(text)) => whole_number(text),
        _ => None,
    }
}

/// The text that comes next.
pub fn next_text(alloc: Global, reader: &mut Reader<'_>) -> Result<Option<Txt>, Memory>
    ensures { IfOk result (λ found. IfSome found
        (λ text. reader.old ≡ spec.string text ∷ reader.new)) }
{
    match reader.next() {
        Some(Token::String(text)) => Ok(Some(Txt::make(alloc, text)?)),
        _ => Ok(None),
    }
}

/// The text or the null that comes next.
pub fn next_text_or_null(
    alloc: Global,
    reader: &mut Reader<'_>,
) -> Result<Option<Option<Txt>>, Memory>
    ensures { IfOk result (λ found. IfSome found
        (λ given. reader.old ≡ token_for given ∷ reader.new)) }
{
    match reader.next() {
        Some(Token::String(text)) => Ok(Some(Some(Txt::make(alloc, text)?))),
        Some(Token::Null) => Ok(Some(None)),
        _ => Ok(None),
    }
}
