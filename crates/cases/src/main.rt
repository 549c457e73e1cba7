//! The program `cases`: it carries out cases of single calls, which are lines of its standard
//! input, and writes what came of each. Before them it tries what `doc_io` has for the system,
//! which no case can reach.
//!
//! `stdin` has the cases, `data/` the files, and `stdout` what must come of them, which was found
//! out by a second program (docs/CASES.md has the format and says how). The gate runs this program
//! in a copy of `data/` and compares.
//!
//! - Proved: that every input is gone through to its end, without undefined behaviour. What is
//!   written is compared, so no function here has an `ensures`.
//! - Knows nothing of: any kind but by its library.
//! - Add a kind of case: in the library whose crates it calls, `base_kinds`, `box_kinds` or
//!   `step_kinds`. Add what is tried of a file of the system, or what an output may do:
//!   `src/adapters/`.
#![tactic(auto)]

mod adapters; // files of the system, and outputs
mod kinds; // the kinds of cases, by the libraries that have them

use adapters::try_adapters;
use case_format::carry_out;
use kinds::Calls;
use std::io;
use std::process::ExitCode;

fn main(rt: HostRuntime) -> io::Result<ExitCode> {
    try_adapters(&rt)?;
    carry_out(&rt, &Calls)
}
