// Entries that are taken into the tables by glyph.
ghost use Rattle.std.specs.Prelude.{◌≡◌, ◌∷◌, map};
ghost use Rattle.font_metrics.specs.Heights.{do_rise};
ghost use Rattle.metrics_file.specs.Reading.{taken_along, taken_kern};
ghost use Rattle.metrics_file.specs.Reads.{Takes};

use crate::refusal::LineRefusal;
use crate::steps::fault_if;
use font_metrics::{ByAxis, Corner, Kern, KernStep, KernTables, LineFault};
use op_dictionary::Axis;
use std::alloc::Global;

/// Adds an item to those of the glyph at a place, of which there may be `most`. Where memory is
/// refused, nothing is known of the tables.
pub fn take_along<T: Copy>(
    tables: &mut ByAxis<T>,
    alloc: Global,
    axis: Axis,
    most: usize,
    place: u16,
    item: T,
) -> Result<(), LineRefusal>
    ensures { Takes (taken_along axis most tables.old place item) tables.new result }
{
    if tables.items(axis, place).len() >= most {
        return Err(LineRefusal::Fault(LineFault::TooMany));
    }
    tables.add(alloc, axis, place, item)?;
    Ok(())
}

/// Gives the glyph at a place its kern at a corner. Where memory is refused, nothing is known of
/// the tables.
pub fn take_at(
    kerns: &mut KernTables,
    alloc: Global,
    corner: Corner,
    place: u16,
    kern: Kern,
) -> Result<(), LineRefusal>
    ensures { Takes (taken_kern corner kerns.old place kern) kerns.new result }
{
    fault_if(!kerns.items(corner, place).is_empty(), LineFault::Repeated)?;
    fault_if(!do_rise(kern.steps.as_slice()), LineFault::NotRising)?;
    kerns.add(alloc, corner, place, kern)?;
    Ok(())
}

/// Whether each height is above the one before it.
fn do_rise(steps: &[KernStep]) -> bool
    ensures { result ≡ do_rise (map (λ step. step.height) steps.now) }
{
    match steps {
        &[lowest, ref more @ ..] => do_rise_above(lowest.height, more),
        _ => true,
    }
}

/// Whether each height is above the one before it, and the first above this one.
fn do_rise_above(height: i32, steps: &[KernStep]) -> bool
    ensures { result ≡ do_rise (height ∷ map (λ step. step.height) steps.now) }
{
    let mut lower = height;
    for step in steps {
        if step.height <= lower {
            return false;
        }
        lower = step.height;
    }
    true
}
