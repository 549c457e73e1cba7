//! The lines of a script, each answered before the next is read.
ghost use Rattle.std.specs.Prelude.{◌≡◌, OnOk};
ghost use Rattle.script_answers.specs.Lines.{AnswersEach, AnswersLines, AnswersNext, ComesToLine, Tells};
ghost use Rattle.script_answers.specs.Responders.{LineSteps, Responder};
ghost use Rattle.script_answers.specs.Steps.{TakesForNext, TakesForScript, lines_left};

use crate::stop::Stop;
use command_reader::CommandReader;
use doc_io::{Inputs, Line, LineReader, Sink};
use fixed_units::Steps;
use input_files::Status;
use std::alloc::Global;
use std::sync::ledger::Ledger;

/// What answers the lines of a script.
pub trait Respond {
    /// What is told of a line by what is known, and what is known then.
    ghost responder: { Responder };

    /// Which steps a line may take.
    ghost takes: { LineSteps responder };

    /// What is known.
    ghost known: { Self → responder.Known };

    /// Does what a line asks for, and writes the reply. The commands among the lines are read by
    /// one reader.
    fn answer_line<O: Sink, L: Ledger>(
        &mut self,
        alloc: Global,
        commands: &mut CommandReader,
        line: &[u8],
        out: &mut O,
        steps: &mut Steps<L>,
    ) -> Result<(), Stop>
        ensures told { Tells (responder.told_of (known self.old) line.now)
            (O.told out.old) (O.told out.new) result }
        ensures after { OnOk result
            (known self.new ≡ responder.after_line (known self.old) line.now) }
        ensures taken { takes (known self.old) line.now steps.old steps.new };
}

/// Answers the lines of a script, each before the next is read: to its end, or to the first line
/// that passes a limit.
pub fn answer_lines<A: Respond, I: Inputs, O: Sink, L: Ledger>(
    alloc: Global,
    answerer: &mut A,
    reader: &mut LineReader,
    inputs: &mut I,
    out: &mut O,
    steps: &mut Steps<L>,
) -> Status
    ensures answers { AnswersLines A.responder (A.known answerer.old) reader.old
        (I.told inputs.old) (I.told inputs.new) (O.told out.old) (O.told out.new) result }
    ensures taken { TakesForScript A.responder A.takes (A.known answerer.old)
        (lines_left reader.old (I.told inputs.old)) steps.old steps.new }
{
    let mut commands = CommandReader::make(alloc);
    match answer_each(alloc, answerer, &mut commands, reader, inputs, out, steps) {
        Ok(()) => Status::Done,
        Err(stop) => stop.status(),
    }
}

/// Answers the lines of a script, each before the next is read.
fn answer_each<A: Respond, I: Inputs, O: Sink, L: Ledger>(
    alloc: Global,
    answerer: &mut A,
    commands: &mut CommandReader,
    reader: &mut LineReader,
    inputs: &mut I,
    out: &mut O,
    steps: &mut Steps<L>,
) -> Result<(), Stop>
    ensures answers { AnswersEach A.responder (A.known answerer.old) reader.old
        (I.told inputs.old) (I.told inputs.new) (O.told out.old) (O.told out.new) result }
    ensures taken { TakesForScript A.responder A.takes (A.known answerer.old)
        (lines_left reader.old (I.told inputs.old)) steps.old steps.new }
{
    while answer_next(alloc, answerer, commands, reader, inputs, out, steps)? {}
    Ok(())
}

/// Reads the next line of a script and answers it, and says whether there was one. When it returns,
/// the reply to the line that was read is written.
fn answer_next<A: Respond, I: Inputs, O: Sink, L: Ledger>(
    alloc: Global,
    answerer: &mut A,
    commands: &mut CommandReader,
    reader: &mut LineReader,
    inputs: &mut I,
    out: &mut O,
    steps: &mut Steps<L>,
) -> Result<bool, Stop>
    ensures answers { AnswersNext A.responder (A.known answerer.old) (A.known answerer.new)
        reader.old reader.new (I.told inputs.old) (I.told inputs.new)
        (O.told out.old) (O.told out.new) result }
    ensures taken { TakesForNext A.responder A.takes (A.known answerer.old) reader.old reader.new
        (I.told inputs.old) (I.told inputs.new) steps.old steps.new result }
{
    if !next_line(reader, inputs)? {
        return Ok(false);
    }
    answerer.answer_line(alloc, commands, reader.line(), out, steps)?;
    Ok(true)
}

/// Goes on to the next line of a script, and says whether there is one.
fn next_line<I: Inputs>(reader: &mut LineReader, inputs: &mut I) -> Result<bool, Stop>
    ensures { ComesToLine reader.old reader.new (I.told inputs.old) (I.told inputs.new) result }
{
    match reader.next_line(inputs) {
        Ok(line) => Ok(line == Line::Whole),
        Err(refusal) => Err(Stop::of_reading(refusal)),
    }
}
