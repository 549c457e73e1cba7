ghost use Rattle.std.specs.Prelude.{◌≡◌, IfOk};
ghost use Rattle.layout_model.specs.Equations.{marks_if};

use fixed_units::{List, Memory};
use font_metrics::Mark;
use std::alloc::Global;

/// A list of these items.
pub fn list_of<T: Copy>(alloc: Global, items: &[T]) -> Result<List<T>, Memory>
    ensures { IfOk result (λ list. list ≡ items.now) }
{
    let mut list = List::make(alloc);
    list.push_all(items)?;
    Ok(list)
}

/// A mark, where there is one.
pub fn marks_if(alloc: Global, mark: Option<Mark>) -> Result<List<Mark>, Memory>
    ensures { IfOk result (λ marks. marks ≡ marks_if mark) }
{
    match mark {
        Some(mark) => list_of(alloc, &[mark]),
        None => Ok(List::make(alloc)),
    }
}
