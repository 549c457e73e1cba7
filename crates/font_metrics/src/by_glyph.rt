ghost use Rattle.std.specs.Prelude.{◌≡◌, true, [], ◌∷◌, IfOk, OnOk};
ghost use Rattle.font_metrics.specs.Metrics.{items_of, with_item};

use crate::copy::{Copied, copied_items};
use fixed_units::Memory;
use std::alloc::Global;
use std::collections::BTreeMap;
use std::marker::Model;

/// What a file gives to some glyphs, each list in file order. Contracts see pairs of a glyph's
/// place and its list, by the places, which increase.
#[derive(Drop)]
pub struct ByGlyph<T> {
    items: BTreeMap<u16, Vec<T>>,
}

impl<T> Model for ByGlyph<T> {
    ghost use Rattle.std.specs.Prelude.{List, ℕ};
    ghost use Rattle.std.specs.Coded.{coded_list, coded×, coded_ℕ};
    ghost use Rattle.font_metrics.specs.Listed.{lists_of_entries};

    ghost Value = { List (ℕ × List T) };

    ghost coded = { coded_list (coded× coded_ℕ (coded_list T.code)) };

    ghost view = { λ table. lists_of_entries table.items.entries };
}

impl<T: Drop> ByGlyph<T> {
    /// No item yet. It takes no memory.
    pub fn new(alloc: Global) -> ByGlyph<T>
        ensures { result ≡ [] }
    {
        ByGlyph {
            items: BTreeMap::new(alloc),
        }
    }

    /// Whether no glyph has an item.
    pub fn is_empty(&self) -> bool
        ensures { result ≡ true → self.now ≡ [] }
    {
        self.items.is_empty()
    }

    /// The items of the glyph at a place, in file order.
    pub fn items(&self, place: u16) -> &[T]
        ensures { result.now ≡ items_of self.now place }
    {
        match self.items.get(&place) {
            None => &[],
            Some(items) => items.as_slice(),
        }
    }

    /// Adds an item to those of the glyph at a place. Where memory is refused, nothing is known of
    /// the table.
    pub fn add(&mut self, alloc: Global, place: u16, item: T) -> Result<(), Memory>
        ensures { OnOk result (self.new ≡ with_item self.old place item) }
    {
        match self.items.get_mut(&place) {
            Some(items) => items.push(item)?,
            None => {
                let first = list_of(alloc, item)?;
                self.items.insert(place, first)?;
            }
        }
        Ok(())
    }
}

/// The list of one item.
fn list_of<T: Drop>(alloc: Global, item: T) -> Result<Vec<T>, Memory>
    ensures { IfOk result (λ list. list.items ≡ item ∷ []) }
{
    let mut list = Vec::new(alloc);
    list.push(item)?;
    Ok(list)
}

impl<T: Copied> ByGlyph<T> {
    /// The same items again.
    pub fn copy(&self, alloc: Global) -> Result<ByGlyph<T>, Memory>
        ensures { IfOk result (λ copied. copied ≡ self.now) }
    {
        let mut lists = BTreeMap::new(alloc);
        for (place, items) in self.items.iter() {
            lists.insert(*place, copied_items(alloc, items.as_slice())?)?;
        }
        Ok(ByGlyph { items: lists })
    }
}
