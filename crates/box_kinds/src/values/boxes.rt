//! How boxes are read: those that can be stored, and that of a row, which may be wider.
ghost use Rattle.std.specs.Prelude.{◌≤◌, ◌^◌, length, IfOk};
ghost use Rattle.std.specs.List.{All};
ghost use Rattle.fixed_units.specs.Boxes.{IsBoxWithin, IsStored, farthest};
ghost use Rattle.fixed_units.specs.Numbers.{IsWithin};
ghost use Rattle.radicals.specs.Equation.{IsRow};

use crate::values::numbers::{in_range, items_in};
use case_format::{Fault, Fields, box_of};
use fixed_units::{List, MathBox, fits};
use serde_json::Value;
use std::alloc::Global;

/// How far the width and the accent of a row may reach, on both sides of 0.
const WIDE: i64 = 1_125_899_906_842_624;

/// A box that can be stored.
pub fn stored_box(key: &'static str, value: &Value) -> Result<MathBox, Fault>
    ensures { IfOk result IsStored }
{
    let frame = box_of(value).ok_or(Fault::wrong_type(key))?;
    if fits(&frame) {
        Ok(frame)
    } else {
        Err(Fault::out_of_range(key))
    }
}

/// The boxes of a key, each of which can be stored.
pub fn boxes_in(alloc: Global, fields: Fields, key: &'static str) -> Result<List<MathBox>, Fault>
    ensures few { IfOk result (λ frames. length frames ≤ 65_536) }
    ensures stored { IfOk result (All IsStored) }
{
    let items = items_in(fields, key)?;
    let mut frames = List::make(alloc);
    for item in items {
        frames.push(stored_box(key, item)?)?;
    }
    Ok(frames)
}

/// A box of which all but the width and the accent can be stored.
pub fn wide_box(fields: Fields, key: &'static str) -> Result<MathBox, Fault>
    ensures row { IfOk result IsRow }
    ensures wide { IfOk result (IsBoxWithin (2 ^ 50)) }
{
    let frame = box_of(fields.value(key)?).ok_or(Fault::wrong_type(key))?;
    Ok(MathBox {
        width: in_wide_range(key, frame.width)?,
        ascent: in_narrow_range(key, frame.ascent)?,
        descent: in_narrow_range(key, frame.descent)?,
        ink_ascent: in_narrow_range(key, frame.ink_ascent)?,
        ink_descent: in_narrow_range(key, frame.ink_descent)?,
        italic: in_narrow_range(key, frame.italic)?,
        accent: in_wide_range(key, frame.accent)?,
    })
}

/// A number of a row along the line.
fn in_wide_range(key: &'static str, number: i64) -> Result<i64, Fault>
    ensures { IfOk result (IsWithin (2 ^ 50)) }
{
    if -WIDE <= number && number <= WIDE {
        Ok(number)
    } else {
        Err(Fault::out_of_range(key))
    }
}

/// A number of a row that can be stored.
fn in_narrow_range(key: &'static str, number: i64) -> Result<i64, Fault>
    ensures stored { IfOk result (IsWithin farthest) }
    ensures wide { IfOk result (IsWithin (2 ^ 50)) }
{
    in_range(key, number)
}
