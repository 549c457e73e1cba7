mod axis;
mod category;
mod elements;
mod facts;
mod fits;
mod glyph;
mod half;
mod length;
mod metrics;
mod operators;
mod properties;
mod resolve;
mod round;
mod shown;
mod style;
mod tree;
mod word;

use axis::OfAxis;
use case_format::{Case, Fault};
use category::OfCategory;
use operators::by_lines;
use properties::OfProperties;

/// Adds the words of the one answer to a case of a kind for the crates below layout.
pub fn add_answer_of_base(kind: &str, case: Case, words: &mut String) -> Result<(), Fault> {
    match kind {
        "axis" => by_lines::<OfAxis>(case, words),
        "category" => by_lines::<OfCategory>(case, words),
        "fits" => fits::answer(case, words),
        "glyph" => glyph::answer(case, words),
        "half" => half::answer(case, words),
        "length" => length::answer(case, words),
        "metrics" => metrics::answer(case, words),
        "resolve" => resolve::answer(case, words),
        "round" => round::answer(case, words),
        "word" => word::answer(case, words),
        _ => add_answer_of_elements(kind, case, words),
    }
}

/// The same for the kinds on elements and trees.
fn add_answer_of_elements(kind: &str, case: Case, words: &mut String) -> Result<(), Fault> {
    match kind {
        "facts" => facts::answer(case, words),
        "factsfile" => facts::answer_file(case, words),
        "properties" => by_lines::<OfProperties>(case, words),
        "shown" => shown::answer(case, words),
        "style" => style::answer(case, words),
        "tree" => tree::answer(case, words),
        "treefile" => tree::answer_file(case, words),
        _ => Err(Fault::UnknownKind),
    }
}
