//! Files of the system: one that takes several reads, one that isn't there, a folder, and a name
//! below a file.

use crate::adapters::outputs::write_piece;
use doc_io::{FileInputs, Inputs, ReadRefusal, read_all};
use fixed_units::List;
use std::alloc::Global;
use std::io::{self, Write};
use std::rt::Files;

/// A file of 40,000 bytes in the folder in which the program runs.
const BLOCKS: &str = "blocks";

/// A name below it: to open it is an error, and not the one of a name that isn't found.
const BELOW: &str = "blocks/absent";

/// Tries the files of the folder in which the program runs.
pub fn try_files(rt: &(impl Print + Files + AllocGlobal)) -> io::Result<()> {
    let mut inputs = FileInputs::make(rt);
    try_read(rt, &mut inputs, BLOCKS, 40_000)?;
    try_read(rt, &mut inputs, BLOCKS, 39_999)?;
    try_read(rt, &mut inputs, "absent", 100)?;
    try_read(rt, &mut inputs, ".", 100)?;
    try_name_below(rt, &mut inputs)
}

/// Reads a whole file, and tells what came of it and how often a call failed so far. What was read
/// is written whole by an adapter too.
fn try_read<R: Print + Files + AllocGlobal>(
    rt: &R,
    inputs: &mut FileInputs<R>,
    name: &str,
    limit: usize,
) -> io::Result<()> {
    let mut out = io::writer(rt);
    write!(out, "{name} of at most {limit} bytes: ")?;
    match read_whole(rt.alloc(), inputs, name, limit) {
        Ok(bytes) => {
            writeln!(out, "{} bytes", bytes.len())?;
            write_piece(rt, bytes.as_slice());
        }
        Err(refusal) => writeln!(out, "{refusal}")?,
    }
    add_counts(inputs, &mut out)
}

/// Reads a whole file. The call stands alone, so that none of its clauses is carried further.
fn read_whole<I: Inputs>(
    alloc: Global,
    inputs: &mut I,
    name: &str,
    limit: usize,
) -> Result<List<u8>, ReadRefusal> {
    read_all(alloc, inputs, name, limit)
}

/// Selects a name below a file, and then reads where nothing is selected.
fn try_name_below<R: Print + Files>(rt: &R, inputs: &mut FileInputs<R>) -> io::Result<()> {
    let mut out = io::writer(rt);
    let is_selected = inputs.select(BELOW).is_ok();
    writeln!(out, "{BELOW} is selected: {is_selected}")?;
    add_counts(inputs, &mut out)?;
    match inputs.read(&mut [0; 8]) {
        Ok(count) => writeln!(out, "read where nothing is selected: {count} bytes")?,
        Err(_) => writeln!(out, "read where nothing is selected: it failed")?,
    }
    add_counts(inputs, &mut out)
}

/// How often a call failed so far.
fn add_counts<R: Files, W: Write>(inputs: &FileInputs<R>, out: &mut W) -> io::Result<()> {
    let (missing, faults) = (inputs.missing(), inputs.faults());
    writeln!(out, "missing {missing}, faults {faults}")
}
