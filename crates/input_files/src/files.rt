//! What files hold, by their bytes.
ghost use Rattle.std.specs.Prelude.{◌≡◌, ◌≤◌, Err, IfErr, IfOk, Some, length};
ghost use Rattle.tree_edits.specs.Commands.{json_in};
ghost use Rattle.input_files.specs.Files.{metrics_in, tree_in, tree_of_json, of_metrics_file, of_tree_file, GivesOr};
ghost use Rattle.metrics_file.specs.Reading.{metrics_of, most_file_bytes};
ghost use Rattle.tree_json.specs.Reading.{tree_of};
ghost use Rattle.serde_json.specs.View.{view};

use crate::refusal::Refusal;
use font_metrics::Metrics;
use math_tree::Tree;
use metrics_file::{MOST_FILE_BYTES, read_metrics};
use serde_json::Value;
use std::alloc::Global;
use tree_json::read_tree;
use tree_reader::tree_by_tokens;

/// The most bytes that a tree file may have: 4 MiB.
pub const TREE_LIMIT: usize = 4_194_304;

/// The metrics of a file's bytes, which may be too many.
#[tactic(auto, unfolding(crate::specs::Files::metrics_in))]
pub fn metrics_in(alloc: Global, bytes: &[u8]) -> Result<Metrics, Refusal>
    ensures { GivesOr (metrics_in bytes.now) result }
{
    if bytes.len() > MOST_FILE_BYTES {
        return Err(Refusal::MetricsLong);
    }
    metrics_of(alloc, bytes)
}

/// The metrics of a file's bytes, which aren't too many.
pub fn metrics_of(alloc: Global, bytes: &[u8]) -> Result<Metrics, Refusal>
    requires { length bytes.now ≤ most_file_bytes }
    ensures { GivesOr (of_metrics_file (metrics_of bytes.now)) result }
{
    Ok(read_metrics(alloc, bytes)?)
}

/// The tree of a file's bytes, which may be too many.
#[tactic(auto, unfolding(crate::specs::Files::tree_in))]
pub fn tree_in(alloc: Global, bytes: &[u8]) -> Result<Tree, Refusal>
    ensures { GivesOr (tree_in bytes.now) result }
{
    if bytes.len() > TREE_LIMIT {
        return Err(Refusal::TreeLong);
    }
    tree_of(alloc, bytes)
}

/// The tree of a file's bytes, however many. It is read token by token where `tree_by_tokens`
/// gives it, and else by its JSON value, which also tells what is at fault.
pub fn tree_of(alloc: Global, bytes: &[u8]) -> Result<Tree, Refusal>
    ensures { GivesOr (tree_of_json (json_in bytes.now)) result }
{
    match tree_by_tokens(alloc, bytes)? {
        Some(tree) => Ok(tree),
        None => tree_by_value(alloc, bytes),
    }
}

/// The same by the JSON value of the bytes.
fn tree_by_value(alloc: Global, bytes: &[u8]) -> Result<Tree, Refusal>
    ensures { GivesOr (tree_of_json (json_in bytes.now)) result }
{
    let value = value_of(alloc, bytes)?;
    tree_of_value(alloc, &value)
}

/// The JSON value of a file's bytes.
fn value_of(alloc: Global, bytes: &[u8]) -> Result<Value, Refusal>
    ensures read { IfOk result (λ value. json_in bytes.now ≡ Some (view value)) }
    ensures refused { IfErr result (λ refusal. GivesOr (tree_of_json (json_in bytes.now))
        (Err refusal)) }
{
    match Value::from_slice(alloc, bytes) {
        Ok(value) => Ok(value),
        Err(error) => {
            if error.is_memory() {
                Err(Refusal::Memory)
            } else {
                Err(Refusal::TreeJson)
            }
        }
    }
}

/// The tree of a JSON value.
fn tree_of_value(alloc: Global, value: &Value) -> Result<Tree, Refusal>
    ensures { GivesOr (of_tree_file (tree_of (view value.now))) result }
{
    Ok(read_tree(alloc, value)?)
}
