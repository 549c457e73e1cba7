//! Reading a line of a script.
ghost use Rattle.std.specs.Prelude.{◌≡◌, Option, option_map, IfOk};
ghost use Rattle.std.specs.List.{list_any};
ghost use Rattle.std.specs.Str.{bytes_eq};
ghost use Rattle.serde_json.specs.View.{view};
ghost use Rattle.tree_edits.specs.Commands.{command_in, command_of, command_under, command_by};
ghost use Rattle.tree_edits.specs.Commands.{text_edit, attribute_edit, insert_edit, replace_edit};
ghost use Rattle.tree_edits.specs.Commands.{id_in, op_of, op_in, is_key_of, has_only};
ghost use Rattle.tree_edits.specs.Applying.{IsProperEdit};
ghost use Rattle.tree_edits.specs.Commands.{Gives, IsProperCommand};
ghost use Rattle.tree_edits.specs.declared.command.Command.TheVariants.{Change};
ghost use Rattle.tree_edits.specs.declared.edit.Edit.{Edit as EditValue};
ghost use Rattle.tree_edits.specs.declared.edit.Edit.TheVariants.{Remove};

use crate::keys::{element_in, id_in, index_in, text_at, value_in};
use crate::{Command, CommandRefusal, Edit};
use serde_json::Value;
use std::alloc::Global;

/// What a line asks for, as the word under `op` says it.
#[derive(Clone, Copy, Debug, PartialEq, Eq)]
pub enum Op {
    Showing,
    Texting,
    Marking,
    Inserting,
    Removing,
    Replacing,
}

/// Reads a line of a script: a JSON object with the keys of its command and no others. The elements
/// in it are in their form.
pub fn read_command(alloc: Global, line: &[u8]) -> Result<Command, CommandRefusal>
    ensures reads { Gives (command_in line.now) result }
    ensures proper { IfOk result IsProperCommand }
{
    match Value::from_slice(alloc, line) {
        Ok(value) => command_of(alloc, &value),
        Err(error) => {
            if error.is_memory() {
                Err(CommandRefusal::Memory)
            } else {
                Err(CommandRefusal::BadLine)
            }
        }
    }
}

/// What the JSON value of a line asks for: an object with the keys of its command and no others.
#[tactic(auto, unfolding(crate::specs::Commands::command_of))]
fn command_of(alloc: Global, value: &Value) -> Result<Command, CommandRefusal>
    ensures reads { Gives (command_of (view value.now)) result }
    ensures proper { IfOk result IsProperCommand }
{
    match op_in(value) {
        Some(op) => command_under(alloc, op, value),
        None => Err(CommandRefusal::BadLine),
    }
}

fn command_under(alloc: Global, op: Op, value: &Value) -> Result<Command, CommandRefusal>
    ensures reads { Gives (command_under op (view value.now)) result }
    ensures proper { IfOk result IsProperCommand }
{
    if has_only(op, value) {
        command_by(alloc, op, value)
    } else {
        Err(CommandRefusal::BadLine)
    }
}

fn command_by(alloc: Global, op: Op, value: &Value) -> Result<Command, CommandRefusal>
    ensures reads { Gives (command_by op (view value.now)) result }
    ensures proper { IfOk result IsProperCommand }
{
    match op {
        Op::Showing => Ok(Command::Show),
        Op::Texting => change(text_edit(alloc, value)),
        Op::Marking => change(attribute_edit(alloc, value)),
        Op::Inserting => change(insert_edit(alloc, value)),
        Op::Removing => change(remove_edit(value)),
        Op::Replacing => change(replace_edit(alloc, value)),
    }
}

/// The change that an edit is, where there is one.
fn change(edit: Result<Edit, CommandRefusal>) -> Result<Command, CommandRefusal>
    ensures reads { (meant : Option EditValue) → Gives meant edit →
        Gives (option_map Change meant) result }
    ensures proper { IfOk edit IsProperEdit → IfOk result IsProperCommand }
{
    Ok(Command::Change(edit?))
}

fn text_edit(alloc: Global, value: &Value) -> Result<Edit, CommandRefusal>
    ensures reads { Gives (text_edit (view value.now)) result }
    ensures proper { IfOk result IsProperEdit }
{
    let id = id_in(value)?;
    let text = text_at(alloc, "text", value)?;
    Ok(Edit::Text(id, text))
}

fn attribute_edit(alloc: Global, value: &Value) -> Result<Edit, CommandRefusal>
    ensures reads { Gives (attribute_edit (view value.now)) result }
    ensures proper { IfOk result IsProperEdit }
{
    let id = id_in(value)?;
    let name = text_at(alloc, "name", value)?;
    match value_in(alloc, value) {
        Ok(set) => Ok(Edit::Attr(id, name, set)),
        Err(refusal) => {
            drop(name);
            Err(refusal)
        }
    }
}

fn insert_edit(alloc: Global, value: &Value) -> Result<Edit, CommandRefusal>
    ensures reads { Gives (insert_edit (view value.now)) result }
    ensures proper { IfOk result IsProperEdit }
{
    let id = id_in(value)?;
    let index = index_in(value)?;
    let element = element_in(alloc, value)?;
    Ok(Edit::Insert(id, index, element))
}

fn remove_edit(value: &Value) -> Result<Edit, CommandRefusal>
    ensures reads { Gives (option_map Remove (id_in (view value.now))) result }
    ensures proper { IfOk result IsProperEdit }
{
    Ok(Edit::Remove(id_in(value)?))
}

fn replace_edit(alloc: Global, value: &Value) -> Result<Edit, CommandRefusal>
    ensures reads { Gives (replace_edit (view value.now)) result }
    ensures proper { IfOk result IsProperEdit }
{
    let id = id_in(value)?;
    let element = element_in(alloc, value)?;
    Ok(Edit::Replace(id, element))
}

/// What the word under `op` asks for, where there is one.
#[tactic(auto, unfolding(crate::specs::Commands::op_in))]
fn op_in(value: &Value) -> Option<Op>
    ensures { result ≡ op_in (view value.now) }
{
    let word = value.get("op").and_then(Value::as_str)?;
    op_of(word)
}

#[tactic(auto, unfolding(crate::specs::Commands::op_of))]
fn op_of(word: &str) -> Option<Op>
    ensures { result ≡ op_of word.now }
{
    match word {
        "show" => Some(Op::Showing),
        "text" => Some(Op::Texting),
        "attr" => Some(Op::Marking),
        "insert" => Some(Op::Inserting),
        "remove" => Some(Op::Removing),
        "replace" => Some(Op::Replacing),
        _ => None,
    }
}

/// Whether the value has no keys but those of the command.
#[tactic(auto, unfolding(crate::specs::Commands::has_only))]
fn has_only(op: Op, value: &Value) -> bool
    ensures { result ≡ has_only op (view value.now) }
{
    match value {
        Value::Object(members) => members.keys().all(|key| is_key_of(op, key)),
        _ => true,
    }
}

fn is_key_of(op: Op, key: &str) -> bool
    ensures { result ≡ is_key_of op key.now }
{
    match op {
        Op::Showing => is_one_of(key, &["op"]),
        Op::Texting => is_one_of(key, &["op", "node", "text"]),
        Op::Marking => is_one_of(key, &["op", "node", "name", "value"]),
        Op::Inserting => is_one_of(key, &["op", "node", "index", "element"]),
        Op::Removing => is_one_of(key, &["op", "node"]),
        Op::Replacing => is_one_of(key, &["op", "node", "element"]),
    }
}

/// Whether a word is one of these.
fn is_one_of(word: &str, known: &[&str]) -> bool
    ensures { result ≡ list_any (λ k. bytes_eq k.now word.now) known.now }
{
    for one in known {
        if *one == word {
            return true;
        }
    }
    false
}
