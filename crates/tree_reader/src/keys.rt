//! Keys, texts and brackets that come next. Only a text takes memory.
ghost use Rattle.std.specs.Prelude.{◌≡◌, ◌∷◌, true, IfOk, IfSome, Some};
ghost use Rattle.json.specs.Json.{read_key};
ghost use Rattle.json.specs.Token as spec;
ghost use Rattle.math_tree.specs.Forms.{is_short_enough};
ghost use Rattle.tree_reader.specs.Keys.{text_of};

use fixed_units::{Memory, Txt};
use json::{Reader, Token};
use math_tree::is_short_enough;
use std::alloc::Global;

/// A key of an element, or the end of its keys.
#[derive(Clone, Copy, Debug, PartialEq, Eq)]
pub enum Key {
    Name,
    Attributes,
    Text,
    Children,
    End,
}

/// The key that comes next, where it is one of an element, or the end of its keys.
pub fn next_key(reader: &mut Reader<'_>) -> Option<Key>
    ensures { IfSome result (λ key. read_key reader.old ≡ Some (text_of key, reader.new)) }
{
    let Ok(found) = reader.next_key() else {
        return None;
    };
    match found {
        Some(name) => key_of(name),
        None => Some(Key::End),
    }
}

/// The key of an element that has this name.
fn key_of(name: &str) -> Option<Key>
    ensures { IfSome result (λ key. text_of key ≡ Some name.now) }
{
    if name == "name" {
        Some(Key::Name)
    } else if name == "attributes" {
        Some(Key::Attributes)
    } else if name == "text" {
        Some(Key::Text)
    } else if name == "children" {
        Some(Key::Children)
    } else {
        None
    }
}

/// Whether an object begins here. A token is taken in any case.
pub fn begins_object(reader: &mut Reader<'_>) -> bool
    ensures { result ≡ true → reader.old ≡ spec.begin_object ∷ reader.new }
{
    matches!(reader.next(), Some(Token::BeginObject))
}

/// Whether an array begins here. A token is taken in any case.
pub fn begins_array(reader: &mut Reader<'_>) -> bool
    ensures { result ≡ true → reader.old ≡ spec.begin_array ∷ reader.new }
{
    matches!(reader.next(), Some(Token::BeginArray))
}

/// The text that comes next, where it isn't too long.
pub fn text(alloc: Global, reader: &mut Reader<'_>) -> Result<Option<Txt>, Memory>
    ensures read { IfOk result (λ found. IfSome found
        (λ text. reader.old ≡ spec.string text ∷ reader.new)) }
    ensures short { IfOk result (λ found. IfSome found (λ text. is_short_enough text ≡ true)) }
{
    match reader.next() {
        Some(Token::String(text)) => short_text(alloc, text),
        _ => Ok(None),
    }
}

/// A text, where it isn't too long.
fn short_text(alloc: Global, text: &str) -> Result<Option<Txt>, Memory>
    ensures same { IfOk result (λ found. IfSome found (λ copied. copied ≡ text.now)) }
    ensures short { IfOk result (λ found. IfSome found (λ text. is_short_enough text ≡ true)) }
{
    if is_short_enough(text) {
        Ok(Some(Txt::make(alloc, text)?))
    } else {
        Ok(None)
    }
}
