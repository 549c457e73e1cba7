ghost use Rattle.std.specs.Prelude.{◌≡◌, ◌<◌, map, replicate, IfOk};
ghost use Rattle.serde_json.specs.View.{view};
ghost use Rattle.seeded_edits.specs.Document.{document, row_value};
ghost use Rattle.seeded_edits.specs.Start.{row_count, row_id, start_tree};

use fixed_units::Memory;
use math_tree::Tree;
use serde_json::{Value, json};
use std::alloc::Global;
use tree_json::{TreeRefusal, read_tree};

/// How many rows the tree has.
pub const ROW_COUNT: u32 = 64;

/// How many elements each row has.
const ROW_SIZE: u32 = 13;

/// A row, as it stands in a tree file: x + 1/2 - b^2 (4).
const ROW: &str = r#"{"name": "mrow", "children": [
    {"name": "mi", "text": "x"},
    {"name": "mo", "text": "+"},
    {"name": "mfrac", "children": [{"name": "mn", "text": "1"}, {"name": "mn", "text": "2"}]},
    {"name": "mo", "text": "-"},
    {"name": "msup", "children": [{"name": "mi", "text": "b"}, {"name": "mn", "text": "2"}]},
    {"name": "mo", "text": "("},
    {"name": "mn", "text": "4"},
    {"name": "mo", "text": ")"}
]}"#;

/// The id of a row, counted from 0.
pub fn row_id(row: u32) -> u32
    requires { row < row_count }
    ensures { result ≡ row_id row }
{
    2 + ROW_SIZE * row
}

/// The tree with which a run begins.
pub fn start_tree(alloc: Global) -> Result<Tree, Memory>
    ensures { IfOk result (λ tree. tree ≡ start_tree) }
{
    let document = document(alloc)?;
    let tree = tree_of(alloc, &document);
    // Dropped by a call, so that the proof doesn't go through all parts.
    drop(document);
    tree
}

/// The tree of the document, which has no fault.
fn tree_of(alloc: Global, value: &Value) -> Result<Tree, Memory>
    requires { view value.now ≡ document }
    ensures { IfOk result (λ tree. tree ≡ start_tree) }
{
    match read_tree(alloc, value) {
        Ok(tree) => Ok(tree),
        Err(TreeRefusal::Fault(_)) => unreachable!(),
        Err(TreeRefusal::Memory) => Err(Memory),
    }
}

/// The tree as a file has it.
#[tactic(auto, unfolding(crate::specs::Document::document))]
fn document(alloc: Global) -> Result<Value, Memory>
    ensures { IfOk result (λ value. view value ≡ document) }
{
    let rows = rows(alloc)?;
    Ok(json!(in alloc; {"name": "math", "children": Value::Array(rows)})?)
}

/// Its rows.
fn rows(alloc: Global) -> Result<Vec<Value>, Memory>
    ensures { IfOk result (λ rows. map view rows.items ≡ replicate row_count row_value) }
{
    let mut rows = Vec::new(alloc);
    for _ in 0..ROW_COUNT {
        rows.push(row(alloc)?)?;
    }
    Ok(rows)
}

/// A row of it.
fn row(alloc: Global) -> Result<Value, Memory>
    ensures { IfOk result (λ row. view row ≡ row_value) }
{
    match Value::from_str(alloc, ROW) {
        Ok(row) => Ok(row),
        // The text has a reading, so nothing else can be refused.
        Err(_) => Err(Memory),
    }
}
