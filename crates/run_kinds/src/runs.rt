//! `run`: a run over files in memory.

use crate::ends::{Program, end_of_run};
use crate::given::{add_files, add_words, set_failing, sink_of};
use case_format::{Case, Ended, Fault, Fields};
use doc_io::MemoryInputs;

const KEYS: [&str; 7] = [
    "words",
    "files",
    "cut",
    "fail_read",
    "fail_write",
    "room",
    "sum",
];

/// A run of the program with the words and over the files that a case names: the kind `run`.
pub fn run_of<P: Program>(program: &P, case: Case) -> Result<Ended, Fault> {
    let fields = Fields::of_value(case.value, &KEYS)?;
    let mut words = Vec::new(case.alloc);
    let mut inputs = MemoryInputs::make(case.alloc);
    run_with(program, case, fields, &mut words, &mut inputs)
}

/// What comes of a case's words over its files. It owns neither: a function that does drops them at
/// each `?`, and each drop is proved.
fn run_with<P: Program>(
    program: &P,
    case: Case,
    fields: Fields,
    words: &mut Vec<String>,
    inputs: &mut MemoryInputs,
) -> Result<Ended, Fault> {
    add_words(case.alloc, fields, words)?;
    add_files(case, fields, inputs)?;
    set_failing(fields, inputs)?;
    let summed = fields.flag_or_false("sum")?;
    let sink = sink_of(case.alloc, fields)?;
    Ok(end_of_run(program, case.alloc, words.as_slice(), inputs, sink, summed))
}
