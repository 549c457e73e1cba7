//! Values in boxes.
ghost use Rattle.std.specs.Prelude.{◌≡◌, IfOk};

use fixed_units::Memory;
use std::alloc::Global;

/// A value in a box.
pub fn boxed<T: Drop>(alloc: Global, value: T) -> Result<Box<T>, Memory>
    ensures { IfOk result (λ boxed. boxed.value ≡ value) }
{
    match Box::new(alloc, value) {
        Ok(boxed) => Ok(boxed),
        Err(_) => Err(Memory),
    }
}
