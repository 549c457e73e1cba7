ghost use Rattle.std.specs.Prelude.{◌≡◌, ◌<◌, ◌≤◌, ◌∷◌, ◌++◌, [], length, IfOk, OnErr, OnOk};
ghost use Rattle.doc_io.specs.Causes.{Writes};
ghost use Rattle.doc_io.specs.MemorySink.{WritesInMemory, told_in};

use crate::{Failed, Sink};
use fixed_units::{List, Memory};
use std::alloc::Global;
use std::marker::Model;

/// A sink in memory, for tests: it has room for so many bytes, and calls fail by the numbers that a
/// test gives. A write takes no memory, since `make` took the room.
#[derive(Drop)]
pub struct MemorySink {
    bytes: Vec<u8>,
    room: usize,
    failing: List<u64>,
    calls: u64,
    faults: u64,
}

impl Model for MemorySink {
    ghost use Rattle.std.specs.Prelude.{◌≤◌, vec_capacity, vec_len};
    ghost use Rattle.doc_io.specs.MemorySink.{BytesInMemory};

    ghost Value = { BytesInMemory };

    ghost view = { λ sink. record {
      bytes = sink.bytes.items;
      room = sink.room;
      failing = sink.failing;
      calls = sink.calls;
      faults = sink.faults;
    } };

    ghost invariant = { λ sink.
        (vec_len sink.bytes ≤ sink.room) × (sink.room ≤ vec_capacity sink.bytes) };
}

impl MemorySink {
    /// An empty sink with room for so many bytes, and no call that fails.
    pub fn make(alloc: Global, room: usize) -> Result<MemorySink, Memory>
        ensures { IfOk result (λ sink.
            sink ≡ record { bytes = []; room = room; failing = []; calls = 0; faults = 0 }) }
    {
        let bytes = Vec::with_capacity(alloc, room)?;
        Ok(MemorySink {
            bytes,
            room,
            failing: List::make(alloc),
            calls: 0,
            faults: 0,
        })
    }

    /// Makes the call of a number fail. Calls are counted from 1.
    pub fn fail_at(&mut self, call: u64) -> Result<(), Memory>
        ensures ok { OnOk result
            (self.new ≡ record self.old { failing = self.old.failing ++ call ∷ [] }) }
        ensures err { OnErr result (self.new ≡ self.old) }
    {
        self.failing.push(call)
    }

    /// The bytes written so far.
    pub fn bytes(&self) -> &[u8]
        ensures bytes { result.now ≡ self.now.bytes }
        ensures within { length result.now ≤ self.now.room }
    {
        self.bytes.as_slice()
    }
}

impl Sink for MemorySink {
    ghost told = { told_in };

    fn write(&mut self, from: &[u8]) -> Result<usize, Failed>
        requires { 0 < length from.now }
        ensures writes { Writes (told_in self.old) (told_in self.new) from.now result }
        ensures exactly { WritesInMemory self.old self.new from.now result }
        ensures spared { self.old.failing ≡ [] → length self.old.bytes < self.old.room →
            self.new.faults ≡ self.old.faults }
    {
        self.calls = self.calls.saturating_add(1);
        let is_full = self.room <= self.bytes.len();
        if self.failing.as_slice().contains(&self.calls) | is_full {
            self.faults = self.faults.saturating_add(1);
            return Err(Failed);
        }
        let count = from.len().min(self.room - self.bytes.len());
        self.bytes.extend_from_slice(&from[..count]).unwrap();
        Ok(count)
    }
}
