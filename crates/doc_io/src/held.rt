ghost use Rattle.std.specs.Prelude.{◌≡◌, ◌<◌, ◌≤◌, ◌-◌, [], drop, length, IfOk};
ghost use Rattle.doc_io.specs.Held.{ReadsBehind, ReadsOn, held_room, window};

use crate::{Failed, Inputs};
use fixed_units::Memory;
use std::alloc::Global;
use std::marker::Model;

/// How many bytes there is room for: 2 MiB, twice the longest line.
pub const HELD_ROOM: usize = 2_097_152;

/// The bytes of a file that were read and aren't given yet. Contracts see them alone.
#[derive(Debug, Drop)]
pub struct Held {
    room: Vec<u8>,
    start: usize,
    end: usize,
}

impl Model for Held {
    ghost use Rattle.std.specs.Prelude.{◌≡◌, ◌≤◌, List, ℕ, length};
    ghost use Rattle.doc_io.specs.Held.{held_room, window};

    ghost Value = { List ℕ };

    ghost view = { λ held. window held.start held.end held.room.items };

    ghost invariant = { λ held.
        (held.start ≤ held.end) × (held.end ≤ held_room) × (length held.room.items ≡ held_room) };
}

impl Held {
    /// No byte is held.
    pub fn make(alloc: Global) -> Result<Held, Memory>
        ensures { IfOk result (λ held. held ≡ []) }
    {
        Ok(Held {
            room: vec![in alloc; 0; HELD_ROOM]?,
            start: 0,
            end: 0,
        })
    }

    /// How many bytes are held.
    pub fn len(&self) -> usize
        ensures { result ≡ length self.now }
    {
        self.end - self.start
    }

    /// The bytes.
    pub fn as_slice(&self) -> &[u8]
        ensures { result.now ≡ self.now }
    {
        &self.room[self.start..self.end]
    }

    /// Gives up a front of the bytes.
    pub fn drop_front(&mut self, count: usize)
        requires { count ≤ length self.old }
        ensures { self.new ≡ drop count self.old }
    {
        self.start += count;
    }

    /// Reads some bytes more behind those that are held, and says how many: 0 at the end.
    pub fn read_on<I: Inputs>(&mut self, inputs: &mut I) -> Result<usize, Failed>
        requires { length self.old < HELD_ROOM }
        ensures { ReadsOn (I.told inputs.old) (I.told inputs.new) self.old self.new result }
    {
        let (start, end) = settle(&mut self.room, self.start, self.end);
        self.start = start;
        self.end = end;
        let count = read_behind(&mut self.room, end, inputs)?;
        self.end += count;
        Ok(count)
    }
}

/// Moves the bytes between two places to the front where no room is left behind them, and says
/// between which places they stand now.
///
/// So bytes are moved only once the room was filled up to its end: as long as no more than half of
/// it is held, fewer are moved than were read since.
fn settle(room: &mut Vec<u8>, start: usize, end: usize) -> (usize, usize)
    requires bytes { (start ≤ end) × (end ≤ HELD_ROOM) × (end - start < HELD_ROOM) }
    requires room { length room.old.items ≡ held_room }
    ensures bytes { window result.0 result.1 room.new.items ≡ window start end room.old.items }
    ensures behind { (result.0 ≤ result.1) × (result.1 < held_room) }
    ensures room { length room.new.items ≡ held_room }
{
    if end < HELD_ROOM {
        return (start, end);
    }
    room.copy_within(start..end, 0);
    (0, end - start)
}

/// Reads some bytes into the room behind a place.
fn read_behind<I: Inputs>(room: &mut Vec<u8>, place: usize, inputs: &mut I) -> Result<usize, Failed>
    requires { place < length room.old.items }
    ensures { ReadsBehind (I.told inputs.old) (I.told inputs.new)
        room.old.items room.new.items place result }
{
    inputs.read(&mut room[place..])
}
