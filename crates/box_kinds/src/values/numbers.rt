//! How sizes, numbers and lists of numbers are read and written.
ghost use Rattle.std.specs.Prelude.{◌≤◌, ◌^◌, ◌≤ℤ◌, pos, length, IfOk};
ghost use Rattle.std.specs.List.{All};
ghost use Rattle.fixed_units.specs.Boxes.{farthest};
ghost use Rattle.fixed_units.specs.Numbers.{IsWithin};

use case_format::{Fault, Fields};
use fixed_units::List;
use serde_json::Value;
use std::alloc::{AllocError, Global};
use std::fmt::Write;

/// The farthest that a stored number reaches, on both sides of 0.
const FARTHEST: i64 = 1_073_741_824;

/// The most items that a list has.
const MOST_ITEMS: usize = 65_536;

/// The font size of the key `size`.
pub fn size_in(fields: Fields) -> Result<i64, Fault>
    ensures { IfOk result (λ size. (pos 0 ≤ℤ size) × (size ≤ℤ pos (2 ^ 20))) }
{
    fields.within("size", 0, 1_048_576)
}

/// A number that can be stored.
pub fn stored(key: &'static str, value: &Value) -> Result<i64, Fault>
    ensures { IfOk result (IsWithin farthest) }
{
    in_range(key, value.as_i64().ok_or(Fault::wrong_type(key))?)
}

/// The number, where it can be stored.
pub fn in_range(key: &'static str, number: i64) -> Result<i64, Fault>
    ensures { IfOk result (IsWithin farthest) }
{
    if -FARTHEST <= number && number <= FARTHEST {
        Ok(number)
    } else {
        Err(Fault::out_of_range(key))
    }
}

/// The items of a key, which aren't too many.
pub fn items_in<'a>(fields: Fields<'a>, key: &'static str) -> Result<&'a [Value], Fault>
    ensures { IfOk result (λ items. length items.now ≤ 65_536) }
{
    items_of(key, fields.value(key)?)
}

/// The items of a list, which aren't too many.
pub fn items_of<'a>(key: &'static str, value: &'a Value) -> Result<&'a [Value], Fault>
    ensures { IfOk result (λ items. length items.now ≤ 65_536) }
{
    let items = value.as_array().ok_or(Fault::wrong_type(key))?.as_slice();
    if items.len() <= MOST_ITEMS {
        Ok(items)
    } else {
        Err(Fault::out_of_range(key))
    }
}

/// The numbers of a key, each of which can be stored.
pub fn numbers_in(alloc: Global, fields: Fields, key: &'static str) -> Result<List<i64>, Fault>
    ensures few { IfOk result (λ numbers. length numbers ≤ 65_536) }
    ensures stored { IfOk result (All (IsWithin farthest)) }
{
    let items = items_in(fields, key)?;
    let mut numbers = List::make(alloc);
    for item in items {
        numbers.push(stored(key, item)?)?;
    }
    Ok(numbers)
}

/// Adds numbers, one space apart, or `-` where there are none.
pub fn add_numbers(numbers: &List<i64>, words: &mut String) -> Result<(), AllocError> {
    if numbers.is_empty() {
        return words.push('-');
    }
    for (place, number) in numbers.as_slice().iter().enumerate() {
        let gap = if place == 0 { "" } else { " " };
        write!(words, "{gap}{number}")?;
    }
    Ok(())
}
