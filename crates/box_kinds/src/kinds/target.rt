//! `target`: what a stretched operator is to cover.
ghost use Rattle.std.specs.Prelude.{◌≤ℤ◌, ◌^◌, pos, IfOk, IfSome};

use crate::values::stretch_in;
use case_format::{Case, Fault, Fields, written};
use glyph_assembly::target;
use op_dictionary::{Category, properties};
use std::fmt::Write;

const KEYS: [&str; 5] = ["pull", "symmetric", "least", "most", "axis_height"];

/// The largest size of an operator.
const CAP: i64 = 268_435_456;

/// How far the axis may lie from the baseline.
const FAR: i64 = 4_294_967_296;

/// Adds the answer of a case of `target`.
pub fn answer(case: Case, words: &mut String) -> Result<(), Fault> {
    let fields = Fields::of_value(case.value, &KEYS)?;
    let pull = stretch_in(fields, "pull")?;
    let symmetric = fields.flag("symmetric")?;
    let least = fields.within("least", 0, CAP)?;
    let most = most_in(fields, least)?;
    let axis_height = fields.within("axis_height", -FAR, FAR)?;
    let mut properties = properties(Category::Default);
    properties.symmetric = symmetric;
    let (ascent, descent) = target(pull, &properties, least, most, axis_height);
    written(write!(words, "{ascent} {descent}"))
}

/// The largest size, where one is given.
fn most_in(fields: Fields, least: i64) -> Result<Option<i64>, Fault>
    ensures { IfOk result (λ most. IfSome most
        (λ most. (least ≤ℤ most) × (most ≤ℤ pos (2 ^ 28)))) }
{
    if fields.has("most") {
        Ok(Some(fields.within("most", least, CAP)?))
    } else {
        Ok(None)
    }
}
