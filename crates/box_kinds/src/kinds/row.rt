//! `row_finish`: where the children of a row stand.
ghost use Rattle.std.specs.Prelude.{◌≤◌, length, IfOk};
ghost use Rattle.std.specs.List.{All};
ghost use Rattle.row_stretch.specs.Equation.{IsKidStored};

use crate::values::{add_numbers, items_in, stored, stored_box};
use case_format::{Case, Fault, Fields, add_box, written};
use fixed_units::{List, MathBox};
use row_stretch::{RowKid, row_finish};
use serde_json::Value;
use std::alloc::{AllocError, Global};

/// Adds the answer of a case of `row_finish`.
pub fn answer(case: Case, words: &mut String) -> Result<(), Fault> {
    let fields = Fields::of_value(case.value, &["kids", "spaces"])?;
    let kids = kids_in(case.alloc, fields)?;
    let spaces = fields.flag("spaces")?;
    let made = row_finish(case.alloc, &kids, spaces);
    // Dropped by a call, so that the `?` below doesn't drop it.
    drop(kids);
    let row = made?;
    written(add_row(&row.frame, &row.offsets, words))
}

/// The children of the key `kids`.
fn kids_in(alloc: Global, fields: Fields) -> Result<List<RowKid>, Fault>
    ensures few { IfOk result (λ kids. length kids ≤ 65_536) }
    ensures stored { IfOk result (All IsKidStored) }
{
    let items = items_in(fields, "kids")?;
    let mut kids = List::make(alloc);
    for item in items {
        kids.push(kid_of(item)?)?;
    }
    Ok(kids)
}

/// A child: its box, the spaces before and after it, and whether it is an embellished operator.
fn kid_of(value: &Value) -> Result<RowKid, Fault>
    ensures { IfOk result IsKidStored }
{
    let parts = value.as_array().ok_or(Fault::wrong_type("kids"))?;
    let [frame, before, after, embellished] = parts.as_slice() else {
        return Err(Fault::wrong_type("kids"));
    };
    Ok(RowKid {
        frame: stored_box("kids", frame)?,
        before: stored("kids", before)?,
        after: stored("kids", after)?,
        embellished: embellished.as_bool().ok_or(Fault::wrong_type("kids"))?,
    })
}

/// Adds the box and the offsets of a row or a table.
pub fn add_row(frame: &MathBox, offsets: &List<i64>, words: &mut String) -> Result<(), AllocError> {
    add_box(frame, words)?;
    words.push_str("; ")?;
    add_numbers(offsets, words)
}
