mod asks;
mod fraction;
mod leaf;
mod limits;
mod multi;
mod radical;
mod row;
mod script;
mod shape;
mod spans;
mod table;
mod target;

use crate::values::by_metrics;
use asks::{Asking, Wave};
use case_format::{Case, Fault};
use fraction::OfFraction;
use leaf::{OfOperator, OfSpace, OfToken};
use limits::OfUnderOver;
use multi::OfMulti;
use radical::{OfRootWithIndex, OfSquareRoot};
use script::{OfSub, OfSubSup, OfSup};
use shape::{OfDisplayVariant, OfShape};
use table::{Across, OfCell, OfTableFinish};

/// Adds the words of the one answer to a case of a kind for what is laid out in one step: here for
/// shapes and leaves.
pub fn add_answer_of_boxes(kind: &str, case: Case, words: &mut String) -> Result<(), Fault> {
    match kind {
        "display_variant" => by_metrics::<OfDisplayVariant>(case, words),
        "operator" => by_metrics::<OfOperator>(case, words),
        "shape" => by_metrics::<OfShape>(case, words),
        "space" => by_metrics::<OfSpace>(case, words),
        "target" => target::answer(case, words),
        "token" => by_metrics::<OfToken>(case, words),
        _ => add_answer_of_rows(kind, case, words),
    }
}

/// The same for rows and tables, and for what rows and limits ask.
fn add_answer_of_rows(kind: &str, case: Case, words: &mut String) -> Result<(), Fault> {
    match kind {
        "cell" => by_metrics::<OfCell>(case, words),
        "columns" => table::answer_columns(case, words),
        "limit_wave_one" => asks::answer(Asking::Limits, Wave::One, case, words),
        "limit_wave_two" => asks::answer(Asking::Limits, Wave::Two, case, words),
        "row_finish" => row::answer(case, words),
        "row_of_cells" => table::answer_row(Across::Columns, case, words),
        "row_of_slots" => table::answer_row(Across::Slots, case, words),
        "row_wave_one" => asks::answer(Asking::Row, Wave::One, case, words),
        "row_wave_two" => asks::answer(Asking::Row, Wave::Two, case, words),
        "span_of" => spans::answer_span(case, words),
        "spans" => spans::answer_table(case, words),
        "table_finish" => by_metrics::<OfTableFinish>(case, words),
        _ => add_answer_of_equations(kind, case, words),
    }
}

/// The same for fractions, roots, scripts and limits.
fn add_answer_of_equations(kind: &str, case: Case, words: &mut String) -> Result<(), Fault> {
    match kind {
        "fraction" => by_metrics::<OfFraction>(case, words),
        "multi" => by_metrics::<OfMulti>(case, words),
        "root_with_index" => by_metrics::<OfRootWithIndex>(case, words),
        "square_root" => by_metrics::<OfSquareRoot>(case, words),
        "sub" => by_metrics::<OfSub>(case, words),
        "sub_sup" => by_metrics::<OfSubSup>(case, words),
        "sup" => by_metrics::<OfSup>(case, words),
        "under_over" => by_metrics::<OfUnderOver>(case, words),
        _ => Err(Fault::UnknownKind),
    }
}
