ghost use Rattle.std.specs.Prelude.{◌≡◌, IfOk};
ghost use Rattle.splices.specs.Splicing.{FitsIn, room_back, site_of, spliced, taken};

use crate::Site;
use fixed_units::{List, Memory, Room};
use std::alloc::Global;
use std::mem;

/// What becomes of a list.
#[derive(Debug, Drop)]
pub enum Splice<T> {
    /// It stays.
    Stay,
    /// It gets this item at this place. There is room for it.
    Put(usize, T, Room<T>),
    /// It loses the item at this place.
    Take(usize),
    /// It gets this item in place of the one at this place.
    Swap(usize, T),
}

impl<T> Splice<T> {
    /// The same without the item.
    pub fn site(&self) -> Site
        ensures { result ≡ site_of self.now }
    {
        match self {
            Splice::Stay => Site::Stay,
            Splice::Put(index, _, _) => Site::Put(*index),
            Splice::Take(index) => Site::Take(*index),
            Splice::Swap(index, _) => Site::Swap(*index),
        }
    }

    /// Room for what undoing the splice of a list puts back. It is made before the splice.
    pub fn room_back(&self, alloc: Global, list: &List<T>) -> Result<Room<T>, Memory>
        ensures { IfOk result (λ room. room ≡ room_back self.now list.now) }
    {
        match self {
            Splice::Take(_) => Room::make(alloc, list.len()),
            Splice::Stay | Splice::Put(_, _, _) | Splice::Swap(_, _) => Room::make(alloc, 0),
        }
    }

    /// Splices a list, and gives back what was taken out. It takes no memory.
    pub fn apply_to(self, list: &mut List<T>) -> Option<T>
        requires { FitsIn self list.old }
        ensures list { list.new ≡ spliced self list.old }
        ensures taken { result ≡ taken self list.old }
    {
        match self {
            Splice::Stay => None,
            Splice::Put(index, item, room) => {
                list.insert(index, item, room);
                None
            }
            Splice::Take(index) => Some(list.remove(index)),
            Splice::Swap(index, item) => Some(mem::replace(list.at_mut(index), item)),
        }
    }
}
