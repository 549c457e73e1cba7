//! Lines of a script that go through its history.
ghost use Rattle.std.specs.Prelude.{◌≡◌, IfOk};
ghost use Rattle.serde_json.specs.View.{view};
ghost use Rattle.command_reader.specs.Moves.{asks_for, has_op_alone, is_op, move_in, move_of};

use fixed_units::Memory;
use serde_json::Value;
use std::alloc::Global;

/// Which way a line of a script goes through its history.
#[derive(Clone, Copy, Debug, PartialEq, Eq)]
pub enum Move {
    /// The last edit is undone.
    Undo,
    /// The edit that was undone last is made again.
    Redo,
    /// The line asks for something else, or for nothing.
    Other,
}

/// The way that a line asks for: `{"op":"undo"}`, `{"op":"redo"}`, or none of these.
pub fn move_in(alloc: Global, line: &[u8]) -> Result<Move, Memory>
    ensures { IfOk result (λ way. way ≡ move_in line.now) }
{
    match Value::from_slice(alloc, line) {
        Ok(value) => Ok(move_of(&value)),
        Err(error) => {
            if error.is_memory() {
                Err(Memory)
            } else {
                Ok(Move::Other)
            }
        }
    }
}

/// The way that the value of a line asks for.
#[tactic(auto, unfolding(crate::specs::Moves::move_of))]
fn move_of(value: &Value) -> Move
    ensures { result ≡ move_of (view value.now) }
{
    if asks_for("undo", value) {
        Move::Undo
    } else if asks_for("redo", value) {
        Move::Redo
    } else {
        Move::Other
    }
}

/// Whether a value is an object with the one key `op`, under which this word stands.
fn asks_for(word: &str, value: &Value) -> bool
    ensures { result ≡ asks_for word.now (view value.now) }
{
    value
        .get("op")
        .and_then(Value::as_str)
        .is_some_and(|op| op == word)
        && has_op_alone(value)
}

/// Whether the value has no key but `op`.
#[tactic(auto, unfolding(crate::specs::Moves::has_op_alone))]
fn has_op_alone(value: &Value) -> bool
    ensures { result ≡ has_op_alone (view value.now) }
{
    match value {
        Value::Object(members) => members.keys().all(|key| is_op(key)),
        _ => true,
    }
}

fn is_op(key: &str) -> bool
    ensures { result ≡ is_op key.now }
{
    key == "op"
}
