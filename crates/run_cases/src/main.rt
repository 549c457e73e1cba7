//! The program `run_cases`: it carries out whole runs of the program `mathlay`, which are lines of
//! its standard input, and writes how each ended and what it wrote: the words of a command over
//! files in memory, with reads that stop, calls that fail and a sink with little room.
//!
//! `stdin` has the cases, and `stdout` what must come of them, which was found out by a second
//! program (docs/CASES.md has the format and says how). The gate runs this program and compares.
//!
//! - Proved: that every input is gone through to its end, without undefined behaviour. What is
//!   written is compared, so no function here has an `ensures`.
//! - Knows nothing of: what the words mean, and how a run is written.
//! - Add to what a run may be, or a kind of case: the crate `run_kinds`.
#![tactic(auto)]

mod counted; // a run that counts its steps

use case_format::carry_out;
use counted::run_once;
use doc_io::{MemoryInputs, MemorySink};
use run_kinds::{OfRuns, Program};
use std::alloc::Global;
use std::io;
use std::process::ExitCode;

/// The program whose runs are cases.
struct Mathlay;

impl Program for Mathlay {
    fn run(
        &self,
        alloc: Global,
        words: &[String],
        inputs: &mut MemoryInputs,
        out: &mut MemorySink,
    ) -> u8 {
        run_once(alloc, words, inputs, out).number()
    }
}

fn main(rt: HostRuntime) -> io::Result<ExitCode> {
    carry_out(&rt, &OfRuns { program: Mathlay })
}
