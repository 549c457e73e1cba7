ghost use Rattle.std.specs.Prelude.{◌≡◌, [], IfOk, OnOk, OnErr};
ghost use Rattle.std.specs.BTreeMap.{insert_entry};
ghost use Rattle.std.specs.Ordering.{nat_cmp};
ghost use Rattle.font_metrics.specs.Metrics.{place_of_code};

use fixed_units::Memory;
use std::alloc::Global;
use std::collections::{BTreeMap, btree_map};
use std::marker::Model;

/// The characters of a file, each with the place of its glyph. Contracts see these pairs by the
/// characters' codes, which increase.
#[derive(Drop)]
pub struct CharacterMap {
    places: BTreeMap<char, u16>,
}

impl Model for CharacterMap {
    ghost use Rattle.std.specs.Prelude.{List, ℕ};

    ghost Value = { List (ℕ × ℕ) };

    ghost view = { λ map. map.places.entries };
}

impl CharacterMap {
    /// No character yet. It takes no memory.
    pub fn new(alloc: Global) -> CharacterMap
        ensures { result ≡ [] }
    {
        CharacterMap {
            places: BTreeMap::new(alloc),
        }
    }

    /// The same characters again.
    pub fn copy(&self) -> Result<CharacterMap, Memory>
        ensures { IfOk result (λ copied. copied ≡ self.now) }
    {
        Ok(CharacterMap {
            places: self.places.clone()?,
        })
    }

    /// The place that the character was given.
    pub fn place(&self, letter: char) -> Option<u16>
        ensures { result ≡ place_of_code self.now letter }
    {
        self.places.get(&letter).copied()
    }

    /// The characters with their places, by code.
    pub fn entries(&self) -> btree_map::Iter<'_, char, u16>
        ensures { result ≡ self.now }
    {
        self.places.iter()
    }

    /// Gives a character the place of its glyph.
    pub fn add(&mut self, letter: char, place: u16) -> Result<(), Memory>
        ensures ok { OnOk result (self.new ≡ insert_entry nat_cmp self.old letter place) }
        ensures err { OnErr result (self.new ≡ self.old) }
    {
        self.places.insert(letter, place)?;
        Ok(())
    }
}
