ghost use Rattle.std.specs.Prelude.{◌≡◌, [], IfOk, OnOk};
ghost use Rattle.font_metrics.specs.Metrics.{along, items_of, with_item_along};

use crate::by_glyph::ByGlyph;
use crate::copy::{Copied, both};
use fixed_units::Memory;
use op_dictionary::Axis;
use std::alloc::Global;
use std::marker::Model;

/// What a file gives to some glyphs along each axis. Contracts see the table of each axis.
#[derive(Drop)]
pub struct ByAxis<T> {
    block: ByGlyph<T>,
    inline: ByGlyph<T>,
}

impl<T> Model for ByAxis<T> {
    ghost use Rattle.std.specs.Prelude.{List, ℕ};
    ghost use Rattle.std.specs.Coded.{coded_list, coded×, coded_ℕ};

    ghost Value = { List (ℕ × List T) × List (ℕ × List T) };

    ghost coded = { coded× (coded_list (coded× coded_ℕ (coded_list T.code)))
        (coded_list (coded× coded_ℕ (coded_list T.code))) };

    ghost view = { λ tables. (tables.block, tables.inline) };
}

impl<T: Copy> ByAxis<T> {
    /// No item yet. It takes no memory.
    pub fn new(alloc: Global) -> ByAxis<T>
        ensures { result ≡ ([], []) }
    {
        ByAxis {
            block: ByGlyph::new(alloc),
            inline: ByGlyph::new(alloc),
        }
    }

    /// The items of the glyph at a place, in file order.
    pub fn items(&self, axis: Axis, place: u16) -> &[T]
        ensures { result.now ≡ items_of (along axis self.now) place }
    {
        match axis {
            Axis::Block => self.block.items(place),
            Axis::Inline => self.inline.items(place),
        }
    }

    /// Adds an item to those of the glyph at a place. Where memory is refused, nothing is known of
    /// the tables.
    pub fn add(&mut self, alloc: Global, axis: Axis, place: u16, item: T) -> Result<(), Memory>
        ensures { OnOk result (self.new ≡ with_item_along axis self.old place item) }
    {
        match axis {
            Axis::Block => self.block.add(alloc, place, item),
            Axis::Inline => self.inline.add(alloc, place, item),
        }
    }
}

impl<T: Copied> ByAxis<T> {
    /// The same items again.
    pub fn copy(&self, alloc: Global) -> Result<ByAxis<T>, Memory>
        ensures { IfOk result (λ copied. copied ≡ self.now) }
    {
        let (block, inline) = both(self.block.copy(alloc), self.inline.copy(alloc))?;
        Ok(ByAxis { block, inline })
    }
}
