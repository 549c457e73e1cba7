use case_format::Ended;
use doc_io::{MemoryInputs, MemorySink};
use std::alloc::Global;

/// A program, as far as its runs are cases.
pub trait Program {
    /// Runs it with these words over the inputs and the sink, and gives the number of its exit
    /// status.
    fn run(
        &self,
        alloc: Global,
        words: &[String],
        inputs: &mut MemoryInputs,
        out: &mut MemorySink,
    ) -> u8;
}

/// Runs a program with these words over the inputs and a sink, and says how it ended.
pub fn end_of_run<P: Program>(
    program: &P,
    alloc: Global,
    words: &[String],
    inputs: &mut MemoryInputs,
    mut sink: MemorySink,
    summed: bool,
) -> Ended {
    let status = program.run(alloc, words, inputs, &mut sink);
    Ended {
        status,
        written: sink,
        summed,
    }
}
