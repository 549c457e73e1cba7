//! What the value of a line says under each key.
ghost use Rattle.std.specs.Prelude.{◌≡◌, All, IfOk, option_map};
ghost use Rattle.serde_json.specs.View.{view};
ghost use Rattle.math_tree.specs.Trees.{IsProper, listed};
ghost use Rattle.tree_edits.specs.Commands.{as_id, id_in, index_in, text_at, value_in, element_in, Gives};

use crate::CommandRefusal;
use fixed_units::Txt;
use math_tree::{Node, NodeId};
use serde_json::Value;
use std::alloc::Global;
use tree_json::read_part;

/// The id under `node`.
#[tactic(auto, unfolding(crate::specs::Commands::id_in))]
pub fn id_in(value: &Value) -> Result<NodeId, CommandRefusal>
    ensures { Gives (id_in (view value.now)) result }
{
    match value.get("node").and_then(Value::as_u64) {
        Some(number) => Ok(as_id(number)),
        None => Err(CommandRefusal::BadLine),
    }
}

/// A number as an id. One that is larger than any id stands for 0, which no element of a tree that
/// was read has.
fn as_id(number: u64) -> NodeId
    ensures { result ≡ as_id number }
{
    if number < 1 << 32 {
        NodeId(number as u32)
    } else {
        NodeId(0)
    }
}

/// The number under `index`, or 2^32 - 1 where it is larger.
#[tactic(auto, unfolding(crate::specs::Commands::index_in))]
pub fn index_in(value: &Value) -> Result<u32, CommandRefusal>
    ensures { Gives (index_in (view value.now)) result }
{
    match value.get("index").and_then(Value::as_u64) {
        Some(number) => Ok(number.min(u64::from(u32::MAX)) as u32),
        None => Err(CommandRefusal::BadLine),
    }
}

/// The text under a key.
#[tactic(auto, unfolding(crate::specs::Commands::text_at))]
pub fn text_at(alloc: Global, key: &str, value: &Value) -> Result<Txt, CommandRefusal>
    ensures { Gives (text_at key.now (view value.now)) result }
{
    match value.get(key).and_then(Value::as_str) {
        Some(text) => Ok(Txt::make(alloc, text)?),
        None => Err(CommandRefusal::BadLine),
    }
}

/// The value of an attribute, or none where it is to be removed.
#[tactic(auto, unfolding(crate::specs::Commands::value_in))]
pub fn value_in(alloc: Global, value: &Value) -> Result<Option<Txt>, CommandRefusal>
    ensures { Gives (value_in (view value.now)) result }
{
    match value.get("value") {
        Some(Value::String(text)) => Ok(Some(Txt::make(alloc, text.as_str())?)),
        Some(Value::Null) | None => Ok(None),
        Some(_) => Err(CommandRefusal::BadLine),
    }
}

/// The element that is to stand in a tree, which is in its form with all below it.
#[tactic(auto, unfolding(crate::specs::Commands::element_in))]
pub fn element_in(alloc: Global, value: &Value) -> Result<Node, CommandRefusal>
    ensures reads { Gives (element_in (view value.now)) result }
    ensures proper { IfOk result (λ element. All IsProper (listed 1 element)) }
{
    match value.get("element") {
        Some(element) => Ok(read_part(alloc, element)?),
        None => Err(CommandRefusal::BadLine),
    }
}
