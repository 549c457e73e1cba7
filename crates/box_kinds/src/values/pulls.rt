//! How pulls are read and written.
ghost use Rattle.std.specs.Prelude.{IfOk};
ghost use Rattle.glyph_assembly.specs.Targets.{IsStretch};
ghost use Rattle.token_boxes.specs.Operator.{IsPull};

use crate::values::numbers::stored;
use case_format::{Fault, Fields};
use fixed_units::Pull;
use serde_json::Value;
use std::alloc::AllocError;
use std::fmt::Write;

/// The pull of a key, whose numbers can be stored.
pub fn pull_in(fields: Fields, key: &'static str) -> Result<Pull, Fault>
    ensures { IfOk result IsPull }
{
    match fields.value(key)?.as_str() {
        Some("free") => Ok(Pull::Free),
        _ => stretch_in(fields, key),
    }
}

/// The pull of a key where something pulls: a word for the axis, and how far.
pub fn stretch_in(fields: Fields, key: &'static str) -> Result<Pull, Fault>
    ensures stretch { IfOk result IsStretch }
    ensures pull { IfOk result IsPull }
{
    match fields.items(key)? {
        [axis, ascent, descent] if is_word(axis, "block") => {
            Ok(Pull::Block(stored(key, ascent)?, stored(key, descent)?))
        }
        [axis, width] if is_word(axis, "inline") => Ok(Pull::Inline(stored(key, width)?)),
        _ => Err(Fault::wrong_type(key)),
    }
}

fn is_word(value: &Value, word: &str) -> bool {
    value.as_str() == Some(word)
}

/// Adds a pull.
pub fn add_pull(pull: Pull, words: &mut String) -> Result<(), AllocError> {
    match pull {
        Pull::Free => words.push_str("free"),
        Pull::Block(ascent, descent) => write!(words, "block {ascent} {descent}"),
        Pull::Inline(width) => write!(words, "inline {width}"),
    }
}
