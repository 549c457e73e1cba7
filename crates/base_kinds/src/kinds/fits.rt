//! `fits`: whether a box can be stored.

use crate::kinds::elements::yes_or_no;
use case_format::{Case, Fault, box_of, written};
use fixed_units::fits;

/// Adds the answer of a case of `fits`.
pub fn answer(case: Case, words: &mut String) -> Result<(), Fault> {
    let frame = box_of(case.value).ok_or(Fault::WrongValue)?;
    written(words.push_str(yes_or_no(fits(&frame))))
}
