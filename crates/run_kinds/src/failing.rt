//! `failing_reads`, `failing_writes`: runs in which each call fails in turn.

use crate::ends::{Program, end_of_run};
use crate::given::{NO_CALL, add_files, add_words, failing_sink};
use case_format::{Case, Ended, Fault, Fields};
use doc_io::MemoryInputs;
use std::alloc::AllocError;
use std::fmt::Write;

/// The most runs of a case.
const MOST_RUNS: u64 = 10_000;

/// Whose calls fail.
#[derive(Clone, Copy)]
pub enum Side {
    Inputs,
    Sink,
}

/// How a run ended in which a call fails.
#[derive(Clone, Copy, PartialEq, Eq)]
struct Ending {
    status: u8,
    written: Extent,
}

/// How much was written of what is written where no call fails.
#[derive(Clone, Copy, PartialEq, Eq)]
enum Extent {
    Whole,
    Front,
    Other,
}

/// Adds how the runs of the program end in which the first call of a side fails, then the second,
/// and so on, up to the first run that ends as one without failing calls: the kinds `failing_reads`
/// and `failing_writes`.
pub fn add_failing<P: Program>(
    program: &P,
    side: Side,
    case: Case,
    words: &mut String,
) -> Result<(), Fault> {
    let fields = Fields::of_value(case.value, &["words", "files", "cut"])?;
    let mut command = Vec::new(case.alloc);
    add_failing_of(program, side, case, fields, &mut command, words)
}

fn add_failing_of<P: Program>(
    program: &P,
    side: Side,
    case: Case,
    fields: Fields,
    command: &mut Vec<String>,
    words: &mut String,
) -> Result<(), Fault> {
    add_words(case.alloc, fields, command)?;
    let run = Run {
        program,
        case,
        fields,
        command: command.as_slice(),
        side,
    };
    run.add_endings(words)
}

/// What is run again and again.
#[derive(Drop)]
struct Run<'a, P: Program> {
    program: &'a P,
    case: Case<'a>,
    fields: Fields<'a>,
    command: &'a [String],
    /// Whose calls fail.
    side: Side,
}

impl<'a, P: Program> Run<'a, P> {
    /// Adds how the runs ended.
    fn add_endings(&self, words: &mut String) -> Result<(), Fault> {
        let whole = self.ended(NO_CALL)?;
        self.add_endings_until(&whole, words)
    }

    /// Adds how the runs ended, up to the first that ended as the whole one did: where several in a
    /// row ended in the same way, it is told once.
    fn add_endings_until(&self, whole: &Ended, words: &mut String) -> Result<(), Fault> {
        let mut last = None;
        for call in 1..=MOST_RUNS {
            let ending = self.ending(call, whole)?;
            if last != Some(ending) {
                add_ending(ending, words)?;
            }
            if ending.is_of(whole) {
                break;
            }
            last = Some(ending);
        }
        Ok(())
    }

    /// How the run ended in which this call fails.
    fn ending(&self, call: u64, whole: &Ended) -> Result<Ending, Fault> {
        let ended = self.ended(call)?;
        Ok(Ending {
            status: ended.status,
            written: Extent::of(ended.written.bytes(), whole.written.bytes()),
        })
    }

    fn ended(&self, call: u64) -> Result<Ended, Fault> {
        let mut inputs = MemoryInputs::make(self.case.alloc);
        self.ended_over(call, &mut inputs)
    }

    fn ended_over(&self, call: u64, inputs: &mut MemoryInputs) -> Result<Ended, Fault> {
        let (read, write) = self.side.failing(call);
        add_files(self.case, self.fields, inputs)?;
        inputs.fail_at(read)?;
        let sink = failing_sink(self.case.alloc, write)?;
        Ok(end_of_run(
            self.program,
            self.case.alloc,
            self.command,
            inputs,
            sink,
            false,
        ))
    }
}

impl Side {
    /// Which call of the inputs and which of the sink fails.
    fn failing(self, call: u64) -> (u64, u64) {
        match self {
            Side::Inputs => (call, NO_CALL),
            Side::Sink => (NO_CALL, call),
        }
    }
}

impl Ending {
    /// Whether a run ended so too, and wrote no more and no less.
    fn is_of(self, whole: &Ended) -> bool {
        self.status == whole.status && self.written == Extent::Whole
    }
}

impl Extent {
    fn of(bytes: &[u8], whole: &[u8]) -> Extent {
        if bytes == whole {
            Extent::Whole
        } else if whole.starts_with(bytes) {
            Extent::Front
        } else {
            Extent::Other
        }
    }

    fn word(self) -> &'static str {
        match self {
            Extent::Whole => "whole",
            Extent::Front => "front",
            Extent::Other => "other",
        }
    }
}

/// Adds an ending, behind those that are told.
fn add_ending(ending: Ending, words: &mut String) -> Result<(), AllocError> {
    if !words.is_empty() {
        words.push_str("; ")?;
    }
    let (status, written) = (ending.status, ending.written.word());
    write!(words, "{status} {written}")
}
