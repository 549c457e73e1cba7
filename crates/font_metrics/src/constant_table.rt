ghost use Rattle.std.specs.Prelude.{◌≡◌, [], IfOk, OnOk, OnErr, nat_eq};
ghost use Rattle.std.specs.BTreeMap.{insert_entry};
ghost use Rattle.std.specs.Map.{lookup};
ghost use Rattle.std.specs.Ordering.{nat_cmp};

use fixed_units::Memory;
use std::alloc::Global;
use std::collections::{BTreeMap, btree_map};
use std::marker::Model;

/// The constants that a file gives. Contracts see pairs of a constant's place in the order of all
/// and its value, by the places, which increase.
#[derive(Drop)]
pub struct ConstantTable {
    values: BTreeMap<u8, i32>,
}

impl Model for ConstantTable {
    ghost use Rattle.std.specs.Prelude.{List, ℕ, ℤ};

    ghost Value = { List (ℕ × ℤ) };

    ghost view = { λ table. table.values.entries };
}

impl ConstantTable {
    /// No constant yet. It takes no memory.
    pub fn new(alloc: Global) -> ConstantTable
        ensures { result ≡ [] }
    {
        ConstantTable {
            values: BTreeMap::new(alloc),
        }
    }

    /// The same constants again.
    pub fn copy(&self) -> Result<ConstantTable, Memory>
        ensures { IfOk result (λ copied. copied ≡ self.now) }
    {
        Ok(ConstantTable {
            values: self.values.clone()?,
        })
    }

    /// The value that the constant at the place was given.
    pub fn value(&self, place: u8) -> Option<i32>
        ensures { result ≡ lookup (nat_eq place) self.now }
    {
        self.values.get(&place).copied()
    }

    /// The places with their values, by place.
    pub fn entries(&self) -> btree_map::Iter<'_, u8, i32>
        ensures { result ≡ self.now }
    {
        self.values.iter()
    }

    /// Gives the constant at the place its value.
    pub fn add(&mut self, place: u8, value: i32) -> Result<(), Memory>
        ensures ok { OnOk result (self.new ≡ insert_entry nat_cmp self.old place value) }
        ensures err { OnErr result (self.new ≡ self.old) }
    {
        self.values.insert(place, value)?;
        Ok(())
    }
}
