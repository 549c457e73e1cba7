ghost use Rattle.std.specs.Prelude.{◌≡◌, true, OnOk};
ghost use Rattle.font_metrics.specs.Metrics.{items_of, kerns_at, with_item, with_kerns_at};
ghost use Rattle.font_metrics.specs.Tables.{no_kerns};

use crate::by_glyph::ByGlyph;
use crate::corner::Corner;
use crate::kern::Kern;
use fixed_units::Memory;
use std::alloc::Global;

/// The kerns that a file gives, by corner and glyph. A glyph has at most one at a corner.
#[derive(Drop)]
pub struct KernTables {
    pub top_right: ByGlyph<Kern>,
    pub top_left: ByGlyph<Kern>,
    pub bottom_right: ByGlyph<Kern>,
    pub bottom_left: ByGlyph<Kern>,
}

impl KernTables {
    /// No kern yet. It takes no memory.
    pub fn new(alloc: Global) -> KernTables
        ensures { result ≡ no_kerns }
    {
        KernTables {
            top_right: ByGlyph::new(alloc),
            top_left: ByGlyph::new(alloc),
            bottom_right: ByGlyph::new(alloc),
            bottom_left: ByGlyph::new(alloc),
        }
    }

    /// Whether no glyph has a kern.
    pub fn is_empty(&self) -> bool
        ensures { result ≡ true → self.now ≡ no_kerns }
    {
        self.top_right.is_empty()
            & self.top_left.is_empty()
            & self.bottom_right.is_empty()
            & self.bottom_left.is_empty()
    }

    /// What the glyph at a place has at a corner: its kern, where it has one.
    pub fn items(&self, corner: Corner, place: u16) -> &[Kern]
        ensures { result.now ≡ items_of (kerns_at corner self.now) place }
    {
        match corner {
            Corner::TopRight => self.top_right.items(place),
            Corner::TopLeft => self.top_left.items(place),
            Corner::BottomRight => self.bottom_right.items(place),
            Corner::BottomLeft => self.bottom_left.items(place),
        }
    }

    /// Adds a kern to what the glyph at a place has at a corner. Where memory is refused, nothing
    /// is known of the tables.
    pub fn add(
        &mut self,
        alloc: Global,
        corner: Corner,
        place: u16,
        kern: Kern,
    ) -> Result<(), Memory>
        ensures { OnOk result (self.new
            ≡ with_kerns_at corner self.old (with_item (kerns_at corner self.old) place kern)) }
    {
        match corner {
            Corner::TopRight => self.top_right.add(alloc, place, kern),
            Corner::TopLeft => self.top_left.add(alloc, place, kern),
            Corner::BottomRight => self.bottom_right.add(alloc, place, kern),
            Corner::BottomLeft => self.bottom_left.add(alloc, place, kern),
        }
    }
}
