//! The program `mathlay`: it lays out the tree of one file with the metrics of another and writes
//! what stands where, answers the lines of a script that edits the tree, or prints both files in
//! their canonical form.
//!
//! `main` hands the words of the command line, the system's files and standard output to
//! `commands::run`, which does all that the program does, and ends with the number of its status.
//!
//! - Models: the words and the exit status of a POSIX program.
//! - Proved: of the words that it is given, `exit_code` ends with the status of a run
//!   (`specs/Exit.antt`). That it is given those of the environment is tested (`tools/tests`).
//! - Knows nothing of: what the words mean.
//! - Change what is answered: `crates/commands`.
#![tactic(auto)]

ghost use Rattle.std.specs.Prelude.{◌≡◌, ◌≢◌, ◌<◌, None, IfOk, IfErr, map, string_bytes};
ghost use Rattle.std.specs.Process.{exit_status};
ghost use Rattle.command_words.specs.Command.{asked_by};
ghost use Rattle.input_files.specs.Status.{number_of};
ghost use Rattle.mathlay.specs.Exit.{Exits};

use commands::{Status, run};
use doc_io::{FileInputs, Inputs, Sink, StdSink, command_line};
use fixed_units::Steps;
use std::alloc::Global;
use std::io::{self, ErrorKind};
use std::marker::Brand;
use std::process::ExitCode;
use std::rt::Env;
use std::sync::ledger::{Blank, Ledger};

fn main(rt: HostRuntime) -> ExitCode {
    started::<Brand>(
        &rt,
        &mut FileInputs::make(&rt),
        &mut StdSink::make(io::writer(&rt)),
        Blank::new(1),
    )
}

/// Runs with the words of an environment, and counts on the ledger `L`, which takes no bytes.
fn started<L: Ledger>(
    rt: &(impl Env + AllocGlobal),
    inputs: &mut impl Inputs,
    out: &mut impl Sink,
    blank: Blank,
) -> ExitCode
    requires name { blank.name ≡ L.name }
    requires parts { blank.parts ≡ L.parts }
    requires some { 0 < blank.parts }
{
    let words = command_line(rt);
    let words = match &words {
        Ok(words) => Ok(words.as_slice()),
        Err(error) => Err(error.kind()),
    };
    exit_code(rt.alloc(), words, inputs, out, &mut Steps::<L>::new(blank))
}

/// Runs with the words, or with the kind of the error that came in place of them: words that are no
/// text are no command, and without memory for the words nothing is done.
fn exit_code<I: Inputs, O: Sink, L: Ledger>(
    alloc: Global,
    words: Result<&[String], ErrorKind>,
    inputs: &mut I,
    out: &mut O,
    steps: &mut Steps<L>,
) -> ExitCode
    ensures given { IfOk words.entry (λ words. Exits (asked_by (map string_bytes words.now))
        (I.told inputs.old) (I.told inputs.new)
        (O.told out.old) (O.told out.new) result) }
    ensures no_text { IfErr words.entry (λ kind. kind ≢ ErrorKind.OutOfMemory → Exits None
        (I.told inputs.old) (I.told inputs.new)
        (O.told out.old) (O.told out.new) result) }
    ensures no_memory { IfErr words.entry (λ kind. kind ≡ ErrorKind.OutOfMemory →
        (exit_status result ≡ number_of Status.Memory) × (inputs.new ≡ inputs.old)
        × (out.new ≡ out.old)) }
{
    match words {
        Ok(words) => run(alloc, words, inputs, out, steps).exit_code(),
        Err(ErrorKind::OutOfMemory) => Status::Memory.exit_code(),
        Err(_) => run(alloc, &[], inputs, out, steps).exit_code(),
    }
}
