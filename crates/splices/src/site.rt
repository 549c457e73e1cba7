ghost use Rattle.std.specs.Prelude.{◌≡◌};
ghost use Rattle.splices.specs.Splicing.{inverse};

use crate::Splice;
use fixed_units::Room;

/// Where a list is spliced, and how: a splice without its item.
#[derive(Clone, Copy, Debug, PartialEq, Eq)]
pub enum Site {
    /// The list stays.
    Stay,
    /// There is an item more at this place.
    Put(usize),
    /// The item at this place is gone.
    Take(usize),
    /// There is another item at this place.
    Swap(usize),
}

impl Site {
    /// The splice that takes one at this site back, where this was taken out. The room is for what
    /// is put back.
    pub fn inverse<T: Drop>(self, taken: Option<T>, room: Room<T>) -> Splice<T>
        ensures { result ≡ inverse self taken room }
    {
        match (self, taken) {
            (Site::Put(index), _) => Splice::Take(index),
            (Site::Take(index), Some(item)) => Splice::Put(index, item, room),
            (Site::Swap(index), Some(item)) => Splice::Swap(index, item),
            (Site::Stay | Site::Take(_) | Site::Swap(_), _) => Splice::Stay,
        }
    }
}
