//! A run that counts its steps.
ghost use Rattle.std.specs.Prelude.{◌≡◌, ◌<◌};

use commands::{Status, run};
use doc_io::{MemoryInputs, MemorySink};
use fixed_units::Steps;
use std::alloc::Global;
use std::marker::Brand;
use std::sync::ledger::{Blank, Ledger};

/// Runs the program with these words over the inputs and a sink, on a ledger of its own.
pub fn run_once(
    alloc: Global,
    words: &[String],
    inputs: &mut MemoryInputs,
    out: &mut MemorySink,
) -> Status {
    run_counted::<Brand>(alloc, words, inputs, out, Blank::new(1))
}

/// Runs the program, which counts on the ledger `L`.
fn run_counted<L: Ledger>(
    alloc: Global,
    words: &[String],
    inputs: &mut MemoryInputs,
    out: &mut MemorySink,
    blank: Blank,
) -> Status
    requires name { blank.name ≡ L.name }
    requires parts { blank.parts ≡ L.parts }
    requires some { 0 < blank.parts }
{
    run(alloc, words, inputs, out, &mut Steps::<L>::new(blank))
}
