use crate::ends::Program;
use crate::failing::{Side, add_failing};
use crate::of_values::{run_of_command, run_of_edit};
use crate::runs::run_of;
use case_format::{Answer, Case, Ended, Fault, Kinds};

/// The kinds for whole runs of a program.
pub struct OfRuns<P: Program> {
    /// The program that is run.
    pub program: P,
}

impl<P: Program> Kinds for OfRuns<P> {
    fn answer(&self, kind: &str, case: Case) -> Result<Answer, Fault> {
        match kind {
            "failing_reads" => one_answer(&self.program, Side::Inputs, case),
            "failing_writes" => one_answer(&self.program, Side::Sink, case),
            _ => Ok(Answer::Run(run_of_kind(&self.program, kind, case)?)),
        }
    }
}

/// The one answer to a case of runs in which each call of a side fails in turn.
fn one_answer<P: Program>(program: &P, side: Side, case: Case) -> Result<Answer, Fault> {
    let mut words = String::new(case.alloc);
    add_failing(program, side, case, &mut words)?;
    Ok(Answer::One(words))
}

/// How the run of a case ended.
fn run_of_kind<P: Program>(program: &P, kind: &str, case: Case) -> Result<Ended, Fault> {
    match kind {
        "check" => run_of_command(program, "check", case),
        "edit" => run_of_edit(program, case),
        "layout" => run_of_command(program, "layout", case),
        "run" => run_of(program, case),
        _ => Err(Fault::UnknownKind),
    }
}
