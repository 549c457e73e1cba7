ghost use Rattle.std.specs.Prelude.{◌≡◌, chars, string_bytes, encode_utf8_all, IfOk, OnOk};
ghost use Rattle.embellished.specs.Texts.{joined, shown, two, op_text, with_piece};
ghost use Rattle.unicode_normalization.specs.Forms.{nfc};

use fixed_units::Memory;
use op_dictionary::OpText;
use std::alloc::Global;
use unicode_normalization::{IsNormalized, is_nfc_quick, to_nfc};

/// The text that an element shows: without white space at its ends, with one space for each run of
/// white space inside, and in Unicode's normal form C.
///
/// White space is U+0009, U+000A, U+000C, U+000D and U+0020. The single letter of an `mi` stays as
/// it is here: that it is shown in italics (MathML Core 3.2.2) is for the layout of an `mi`.
#[tactic(auto, unfolding(crate::specs::Texts::shown))]
pub fn shown_text(alloc: Global, text: &str) -> Result<String, Memory>
    ensures { IfOk result (λ made. string_bytes made ≡ shown text.now) }
{
    composed(alloc, joined(alloc, text)?)
}

/// The text in normal form C: itself, where a look at its characters shows that it is so already.
fn composed(alloc: Global, text: String) -> Result<String, Memory>
    ensures { IfOk result (λ made.
        string_bytes made ≡ encode_utf8_all (nfc (chars (string_bytes text)))) }
{
    match is_nfc_quick(text.as_str().chars()) {
        IsNormalized::Yes => Ok(text),
        IsNormalized::No | IsNormalized::Maybe => Ok(to_nfc(alloc, text.as_str())?),
    }
}

fn joined(alloc: Global, text: &str) -> Result<String, Memory>
    ensures { IfOk result (λ made. string_bytes made ≡ joined text.now) }
{
    let mut made = String::new(alloc);
    for piece in text.split_ascii_whitespace() {
        add_piece(&mut made, piece)?;
    }
    Ok(made)
}

/// Adds a piece, behind a space where something stands already.
fn add_piece(made: &mut String, piece: &str) -> Result<(), Memory>
    ensures { OnOk result (string_bytes made.new ≡ with_piece (string_bytes made.old) piece.now) }
{
    if !made.is_empty() {
        made.push(' ')?;
    }
    made.push_str(piece)?;
    Ok(())
}

/// The characters of a text, as the operator dictionary tells them apart.
#[tactic(auto, unfolding(crate::specs::Texts::op_text))]
pub fn op_text(text: &str) -> OpText
    ensures { result ≡ op_text (chars text.now) }
{
    let mut letters = text.chars();
    match (letters.next(), letters.next(), letters.next()) {
        (None, _, _) => OpText::Empty,
        (Some(letter), None, _) => OpText::One(letter),
        (Some(first), Some(second), None) => two(first, second),
        (Some(_), Some(_), Some(_)) => OpText::Other,
    }
}

/// The text of two characters, neither of which is above U+FFFF, or else `Other`.
fn two(first: char, second: char) -> OpText
    ensures { result ≡ two first second }
{
    if (first <= '\u{FFFF}') & (second <= '\u{FFFF}') {
        OpText::Two(first, second)
    } else {
        OpText::Other
    }
}
