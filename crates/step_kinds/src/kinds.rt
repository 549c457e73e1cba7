mod relay;
mod steps;

use case_format::{Case, Fault};
use relay::add_relay;
use steps::add_steps;

/// Adds the words of the one answer to a case of a kind for layouts that are made and kept.
pub fn add_answer_of_steps(kind: &str, case: Case, words: &mut String) -> Result<(), Fault> {
    match kind {
        "relay" => add_relay(case, words),
        "steps" => add_steps(case, words),
        _ => Err(Fault::UnknownKind),
    }
}
