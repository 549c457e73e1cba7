//! The words, the inputs and the sink that a case gives.

use case_format::{Case, Fault, Fields, count_in, text_in};
use doc_io::{MemoryInputs, MemorySink};
use fixed_units::Memory;
use std::alloc::Global;

/// The room of a sink in bytes, where a case gives none: more than any run writes.
const AMPLE: usize = 67_108_864;

/// The number of no call.
pub const NO_CALL: u64 = 0;

/// Adds the words that a case gives.
pub fn add_words(alloc: Global, fields: Fields, words: &mut Vec<String>) -> Result<(), Fault> {
    for word in fields.items("words")? {
        add_word(alloc, text_in("words", word)?, words)?;
    }
    Ok(())
}

/// Adds a word.
pub fn add_word(alloc: Global, word: &str, words: &mut Vec<String>) -> Result<(), Fault> {
    words.push(String::from_str(alloc, word)?)?;
    Ok(())
}

/// Adds the files that a case names, and sets where reads stop.
pub fn add_files(case: Case, fields: Fields, inputs: &mut MemoryInputs) -> Result<(), Fault> {
    for file in fields.items("files")? {
        add_known(case, text_in("files", file)?, inputs)?;
    }
    set_cuts(fields, inputs)
}

/// Adds a known file under its name.
pub fn add_known(case: Case, name: &str, inputs: &mut MemoryInputs) -> Result<(), Fault> {
    inputs.add_file(name, case.files.bytes(name)?)?;
    Ok(())
}

/// Sets where reads stop.
fn set_cuts(fields: Fields, inputs: &mut MemoryInputs) -> Result<(), Fault> {
    for place in fields.items_or_none("cut")? {
        inputs.cut_at(count_in("cut", place)?)?;
    }
    Ok(())
}

/// Sets which calls of the inputs fail.
pub fn set_failing(fields: Fields, inputs: &mut MemoryInputs) -> Result<(), Fault> {
    for call in fields.items_or_none("fail_read")? {
        inputs.fail_at(count_in("fail_read", call)?)?;
    }
    Ok(())
}

/// A sink with the room and the failing calls that a case gives.
pub fn sink_of(alloc: Global, fields: Fields) -> Result<MemorySink, Fault> {
    let mut sink = MemorySink::make(alloc, room_in(fields)?)?;
    set_failures(fields, &mut sink)?;
    Ok(sink)
}

/// The room of the sink.
fn room_in(fields: Fields) -> Result<usize, Fault> {
    if !fields.has("room") {
        return Ok(AMPLE);
    }
    let room = fields.count("room")?;
    if room <= AMPLE as u64 {
        Ok(room as usize)
    } else {
        Err(Fault::out_of_range("room"))
    }
}

/// Sets which calls of the sink fail.
fn set_failures(fields: Fields, sink: &mut MemorySink) -> Result<(), Fault> {
    for call in fields.items_or_none("fail_write")? {
        sink.fail_at(count_in("fail_write", call)?)?;
    }
    Ok(())
}

/// A sink with ample room.
pub fn ample_sink(alloc: Global) -> Result<MemorySink, Memory> {
    MemorySink::make(alloc, AMPLE)
}

/// A sink with ample room of which this call fails.
pub fn failing_sink(alloc: Global, call: u64) -> Result<MemorySink, Memory> {
    let mut sink = ample_sink(alloc)?;
    sink.fail_at(call)?;
    Ok(sink)
}
