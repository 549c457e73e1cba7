ghost use Rattle.std.specs.Prelude.{◌≡◌, Option, Some, None};
ghost use Rattle.std.specs.Option.{MatchOption};
ghost use Rattle.std.specs.Coded.{coded_option};
ghost use Rattle.embed.specs.Desks.{DeskValue};
ghost use Rattle.embed.specs.contracts.desk.Desk.{the_row};

use crate::desk::Desk;
use crate::loose::Loose;
use std::alloc::Global;
use std::marker::Model;
use std::mem;
use std::ptr::null_mut;

/// What C holds of a desk: where it lies, or null. It is as large as a pointer, and whoever has it
/// owns the desk.
#[repr(C)]
pub struct Handle {
    at: *mut u8,
    pub ghost kept: { Option DeskValue } by { coded_option the_row.coded },
}

impl Model for Handle {
    ghost use Rattle.embed.specs.Owned.{handle_owns};

    ghost also_owns = { λ handle. handle_owns handle.at handle.kept };
}

impl Handle {
    /// A handle that keeps nothing.
    pub(crate) fn closed() -> Handle
        ensures { result.kept ≡ None }
    {
        Handle { at: null_mut() }
    }

    /// A handle that keeps the desk.
    pub(crate) fn of(desk: Loose<Desk, Global>) -> Handle
        ensures { result.kept ≡ Some desk.value }
    {
        let Loose { at, alloc: _ } = desk;
        Handle { at: at as *mut u8 }
    }

    /// What the handle keeps, taken apart.
    pub(crate) fn into_loose(self, alloc: Global) -> Option<Loose<Desk, Global>>
        ensures { MatchOption result (self.kept ≡ None) (λ l. self.kept ≡ Some l.value) }
    {
        let Handle { at } = self;
        if at.is_null() {
            None
        } else {
            Some(Loose {
                at: at as *mut Desk,
                alloc,
            })
        }
    }

    /// Takes out what the handle keeps, and leaves it closed.
    pub(crate) fn take(&mut self, alloc: Global) -> Option<Box<Desk>>
        ensures taken { MatchOption result (self.old.kept ≡ None) (λ desk. self.old.kept
            ≡ Some desk.value) }
        ensures closed { self.new.kept ≡ None }
    {
        match mem::replace(self, Handle::closed()).into_loose(alloc) {
            Some(loose) => Some(loose.into_box()),
            None => None,
        }
    }

    /// Keeps a desk, and drops one that was kept.
    pub(crate) fn keep(&mut self, alloc: Global, desk: Box<Desk>)
        ensures { self.new.kept ≡ Some desk.value }
    {
        let old = mem::replace(self, Handle::of(Loose::of(desk)));
        if let Some(loose) = old.into_loose(alloc) {
            mem::drop(loose.into_box());
        }
    }
}
