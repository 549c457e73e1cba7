use base_kinds::add_answer_of_base;
use box_kinds::add_answer_of_boxes;
use case_format::{Answer, Case, Fault, Kinds};
use step_kinds::add_answer_of_steps;

/// The kinds for single calls, which stand in three libraries.
pub struct Calls;

impl Kinds for Calls {
    fn answer(&self, kind: &str, case: Case) -> Result<Answer, Fault> {
        let mut words = String::new(case.alloc);
        add_answer(kind, case, &mut words)?;
        Ok(Answer::One(words))
    }
}

/// Adds the words of the one answer to a case. Each library is asked whose kind it is: first what
/// stands below layout.
fn add_answer(kind: &str, case: Case, words: &mut String) -> Result<(), Fault> {
    match add_answer_of_base(kind, case, words) {
        Err(Fault::UnknownKind) => add_answer_of_layout(kind, case, words),
        answered => answered,
    }
}

/// The same for what is laid out, in one step or in many.
fn add_answer_of_layout(kind: &str, case: Case, words: &mut String) -> Result<(), Fault> {
    match add_answer_of_boxes(kind, case, words) {
        Err(Fault::UnknownKind) => add_answer_of_steps(kind, case, words),
        answered => answered,
    }
}
