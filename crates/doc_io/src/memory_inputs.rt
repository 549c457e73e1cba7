ghost use Rattle.std.specs.Prelude.{◌≡◌, ◌+◌, ◌<◌, ◌≤◌, ◌^◌, ◌∷◌, ◌++◌, [], length, drop, min, None, OnErr, OnOk, take, unwrap_or};
ghost use Rattle.std.specs.Option.{ForSome};
ghost use Rattle.std.specs.FinMap as map;
ghost use Rattle.doc_io.specs.Causes.{Reads, Selects};
ghost use Rattle.doc_io.specs.MemoryInputs.{IsGreatest, IsUncut, ReadsInMemory, SelectsInMemory, bytes_at, put_in, told_in};

use crate::{Failed, Inputs};
use fixed_units::{List, Memory, Txt};
use std::alloc::Global;
use std::marker::Model;

/// Files in memory, for tests: reads stop at the cuts that a test sets, and calls fail by the
/// numbers that it gives.
///
/// A select looks through the files one by one, so its time grows with their number. Neither it nor
/// a read takes memory.
#[derive(Drop)]
pub struct MemoryInputs {
    alloc: Global,
    files: List<Named>,
    cuts: List<u64>,
    failing: List<u64>,
    calls: u64,
    selected: Option<usize>,
    place: usize,
    faults: u64,
    missing: u64,
}

/// A file and its name.
#[derive(Drop)]
struct Named {
    name: Txt,
    bytes: List<u8>,
}

impl Model for MemoryInputs {
    ghost use Rattle.std.specs.Prelude.{◌<◌, length};
    ghost use Rattle.std.specs.Option.{ForSome};
    ghost use Rattle.std.specs.FinMap.{empty};
    ghost use Rattle.doc_io.specs.MemoryInputs.{FilesInMemory, inputs_code, bytes_at, put_in};

    ghost Value = { FilesInMemory };

    ghost coded = { inputs_code };

    ghost view = { λ inputs. record {
      files = put_in empty inputs.files;
      cuts = inputs.cuts;
      failing = inputs.failing;
      calls = inputs.calls;
      selected = bytes_at inputs.files inputs.selected;
      place = inputs.place;
      faults = inputs.faults;
      missing = inputs.missing;
    } };

    ghost invariant = { λ inputs. ForSome inputs.selected (λ index. index < length inputs.files) };
}

impl MemoryInputs {
    /// No file, no cut and no call that fails. It takes no memory.
    pub fn make(alloc: Global) -> MemoryInputs
        ensures { result ≡ record {
          files = map.empty;
          cuts = [];
          failing = [];
          calls = 0;
          selected = None;
          place = 0;
          faults = 0;
          missing = 0;
        } }
    {
        MemoryInputs {
            alloc,
            files: List::make(alloc),
            cuts: List::make(alloc),
            failing: List::make(alloc),
            calls: 0,
            selected: None,
            place: 0,
            faults: 0,
            missing: 0,
        }
    }

    /// Adds a file, or puts it in place of the one of that name. A file that is selected already
    /// is read on as it was.
    pub fn add_file(&mut self, name: &str, bytes: &[u8]) -> Result<(), Memory>
        ensures ok { OnOk result
            (self.new ≡ record self.old { files = map.insert self.old.files name.now bytes.now }) }
        ensures err { OnErr result (self.new ≡ self.old) }
    {
        let name = Txt::make(self.alloc, name)?;
        let mut copy = List::make(self.alloc);
        copy.push_all(bytes)?;
        self.files.push(Named { name, bytes: copy })?;
        Ok(())
    }

    /// Makes each read of any file stop at a place, counted from 0 in bytes.
    pub fn cut_at(&mut self, place: u64) -> Result<(), Memory>
        ensures ok { OnOk result
            (self.new ≡ record self.old { cuts = self.old.cuts ++ place ∷ [] }) }
        ensures err { OnErr result (self.new ≡ self.old) }
    {
        self.cuts.push(place)
    }

    /// Makes the call of a number fail. Calls are counted from 1 over `select` and `read` together.
    pub fn fail_at(&mut self, call: u64) -> Result<(), Memory>
        ensures ok { OnOk result
            (self.new ≡ record self.old { failing = self.old.failing ++ call ∷ [] }) }
        ensures err { OnErr result (self.new ≡ self.old) }
    {
        self.failing.push(call)
    }
}

impl Inputs for MemoryInputs {
    ghost told = { told_in };

    fn select(&mut self, name: &str) -> Result<(), Failed>
        ensures selects { Selects (told_in self.old) (told_in self.new) name.now result }
        ensures exactly { SelectsInMemory self.old self.new name.now result }
        ensures spared { self.old.failing ≡ [] → self.new.faults ≡ self.old.faults }
    {
        self.calls = self.calls.saturating_add(1);
        self.selected = None;
        self.place = 0;
        let Some(index) = newest(self.files.as_slice(), name) else {
            self.missing = self.missing.saturating_add(1);
            return Err(Failed);
        };
        if self.failing.as_slice().contains(&self.calls) {
            self.faults = self.faults.saturating_add(1);
            return Err(Failed);
        }
        self.selected = Some(index);
        Ok(())
    }

    fn read(&mut self, into: &mut [u8]) -> Result<usize, Failed>
        requires { 0 < length into.old }
        ensures reads { Reads (told_in self.old) (told_in self.new) into.new result }
        ensures exactly { ReadsInMemory self.old self.new into.old into.new result }
        ensures spared { self.old.failing ≡ [] → self.new.faults ≡ self.old.faults }
    {
        self.calls = self.calls.saturating_add(1);
        if self.failing.as_slice().contains(&self.calls) {
            self.faults = self.faults.saturating_add(1);
            return Err(Failed);
        }
        let left = left_of(self.files.as_slice(), self.selected, self.place);
        let count = give(left, self.cuts.as_slice(), self.place, into);
        self.place += count;
        Ok(count)
    }
}

/// Where the newest file of a name stands.
fn newest(files: &[Named], name: &str) -> Option<usize>
    ensures within { ForSome result (λ index. index < length files.now) }
    ensures bytes { bytes_at files.now result ≡ map.get (put_in map.empty files.now) name.now }
{
    let mut place = files.len();
    while place > 0 {
        place -= 1;
        if name == files[place].name.as_str() {
            return Some(place);
        }
    }
    None
}

/// What is left of a file from a place on.
fn left_of(files: &[Named], selected: Option<usize>, place: usize) -> &[u8]
    ensures left { result.now ≡ drop place (unwrap_or (bytes_at files.now selected) []) }
    ensures fits { place + length result.now < 2 ^ 64 }
{
    let Some(index) = selected else {
        return &[];
    };
    let Some(file) = files.get(index) else {
        return &[];
    };
    let bytes = file.bytes.as_slice();
    if place < bytes.len() {
        &bytes[place..]
    } else {
        &[]
    }
}

/// Copies the longest front of what is left that fits and that no cut stops, and says how long.
fn give(left: &[u8], cuts: &[u64], place: usize, into: &mut [u8]) -> usize
    ensures longest { IsGreatest
        (λ n. (n ≤ min (length left.now) (length into.old)) × IsUncut cuts.now place n) result }
    ensures given { into.new ≡ take result left.now ++ drop result into.old }
{
    let count = uncut(cuts, place, left.len().min(into.len()));
    into[..count].copy_from_slice(&left[..count]);
    count
}

/// As many bytes from a place on as no cut stops, and at most `most`.
fn uncut(cuts: &[u64], place: usize, most: usize) -> usize
    ensures { IsGreatest (λ n. (n ≤ most) × IsUncut cuts.now place n) result }
{
    let mut count = most;
    for cut in cuts {
        count = before_cut(*cut, place, count);
    }
    count
}

/// As many bytes from a place on as stand before a cut, if it lies ahead, and at most `most`.
fn before_cut(cut: u64, place: usize, most: usize) -> usize
    ensures { IsGreatest (λ n. (n ≤ most) × (place < cut → place + n ≤ cut)) result }
{
    let place = place as u64;
    if place < cut {
        most.min((cut - place) as usize)
    } else {
        most
    }
}
