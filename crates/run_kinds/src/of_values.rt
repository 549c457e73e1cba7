//! `layout`, `check`, `edit`: a command over a metrics file and values of a case.

use crate::ends::{Program, end_of_run};
use crate::given::{add_known, add_word, ample_sink};
use case_format::{Case, Ended, Fault, Fields};
use doc_io::MemoryInputs;
use fixed_units::List;
use serde_json::Value;
use std::alloc::Global;

/// The names of the files that hold a tree and a script. No known file has these names.
const TREE: &str = "the tree";

const SCRIPT: &str = "the script";

/// The run of a command with a case's metrics file and its tree: the kinds `layout` and `check`.
pub fn run_of_command<P: Program>(program: &P, command: &str, case: Case) -> Result<Ended, Fault> {
    let fields = Fields::of_value(case.value, &["metrics", "tree", "sum"])?;
    let mut words = Vec::new(case.alloc);
    let mut inputs = MemoryInputs::make(case.alloc);
    run_over_two(program, command, case, fields, &mut words, &mut inputs)
}

/// The run of `edit` with a case's metrics file, its tree and its script: the kind `edit`.
pub fn run_of_edit<P: Program>(program: &P, case: Case) -> Result<Ended, Fault> {
    let fields = Fields::of_value(case.value, &["metrics", "tree", "script", "sum"])?;
    let mut words = Vec::new(case.alloc);
    let mut inputs = MemoryInputs::make(case.alloc);
    run_over_three(program, case, fields, &mut words, &mut inputs)
}

/// What comes of a command over the metrics file and the tree.
fn run_over_two<P: Program>(
    program: &P,
    command: &str,
    case: Case,
    fields: Fields,
    words: &mut Vec<String>,
    inputs: &mut MemoryInputs,
) -> Result<Ended, Fault> {
    add_command(case.alloc, command, fields, words)?;
    add_two(case, fields, inputs)?;
    run_into(program, case.alloc, fields, words.as_slice(), inputs)
}

/// What comes of `edit` over the metrics file, the tree and the script.
fn run_over_three<P: Program>(
    program: &P,
    case: Case,
    fields: Fields,
    words: &mut Vec<String>,
    inputs: &mut MemoryInputs,
) -> Result<Ended, Fault> {
    add_command(case.alloc, "edit", fields, words)?;
    add_word(case.alloc, SCRIPT, words)?;
    add_two(case, fields, inputs)?;
    add_script(case.alloc, fields, inputs)?;
    run_into(program, case.alloc, fields, words.as_slice(), inputs)
}

/// Adds the words of a command with a case's metrics file and its tree.
fn add_command(
    alloc: Global,
    command: &str,
    fields: Fields,
    words: &mut Vec<String>,
) -> Result<(), Fault> {
    add_word(alloc, command, words)?;
    add_word(alloc, fields.text("metrics")?, words)?;
    add_word(alloc, TREE, words)
}

/// Adds the metrics file, and a file with the tree's text.
fn add_two(case: Case, fields: Fields, inputs: &mut MemoryInputs) -> Result<(), Fault> {
    add_known(case, fields.text("metrics")?, inputs)?;
    let text = fields.value("tree")?.to_string(case.alloc)?;
    inputs.add_file(TREE, text.as_bytes())?;
    Ok(())
}

/// Adds a file with the text of each value of the script, a line each.
fn add_script(alloc: Global, fields: Fields, inputs: &mut MemoryInputs) -> Result<(), Fault> {
    let values = fields.items("script")?;
    let mut script = List::make(alloc);
    add_script_of(alloc, values, &mut script, inputs)
}

fn add_script_of(
    alloc: Global,
    values: &[Value],
    script: &mut List<u8>,
    inputs: &mut MemoryInputs,
) -> Result<(), Fault> {
    for value in values {
        add_line(alloc, value, script)?;
    }
    inputs.add_file(SCRIPT, script.as_slice())?;
    Ok(())
}

fn add_line(alloc: Global, value: &Value, script: &mut List<u8>) -> Result<(), Fault> {
    let text = value.to_string(alloc)?;
    script.push_all(text.as_bytes())?;
    script.push(b'\n')?;
    Ok(())
}

/// What comes of these words over the inputs and a sink with ample room.
fn run_into<P: Program>(
    program: &P,
    alloc: Global,
    fields: Fields,
    words: &[String],
    inputs: &mut MemoryInputs,
) -> Result<Ended, Fault> {
    let summed = fields.flag_or_false("sum")?;
    let sink = ample_sink(alloc)?;
    Ok(end_of_run(program, alloc, words, inputs, sink, summed))
}
