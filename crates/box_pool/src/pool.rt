ghost use Rattle.std.specs.Prelude.{◌≡◌, ℕ, ◌+◌, ◌<◌, ◌≤◌, List as Sequence, [], ◌∷◌, ◌++◌, length, take, eqb, Some, None, OnOk, OnErr};
ghost use Rattle.std.specs.List.{IsDistinct};
ghost use Rattle.std.specs.Map.{keys_of};
ghost use Rattle.std.specs.Option.{IsSome};
ghost use Rattle.box_pool.specs.declared.cell.Cell.{Cell};
ghost use Rattle.box_pool.specs.Runs.{cell_count};

use crate::cell::Cell;
use crate::compact::{compact, mark_listed};
use crate::grow::grow_all;
use crate::place::{Extent, Place};
use crate::write::write_at;
use fixed_units::{List, Memory};
use std::alloc::Global;
use std::marker::Model;

/// The id of a run.
#[derive(Clone, Copy, Debug, PartialEq, Eq, Drop)]
pub struct RunId(pub u64);

/// The region for kept results: runs of cells under ids, with one checkpoint.
#[derive(Drop)]
pub struct Pool {
    cells: Vec<Cell>,
    places: Vec<Place>,
    order: Vec<usize>,
    marks: Vec<bool>,
    held: Extent,
    checkpoint: Extent,
    begun: bool,
    cell_room: usize,
    run_room: usize,
}

impl Model for Pool {
    ghost use Rattle.std.specs.Prelude.{take};
    ghost use Rattle.box_pool.specs.Region.{Region, IsWhole, checkpoint_of};
    ghost use Rattle.box_pool.specs.Runs.{runs_at};

    ghost Value = { Region };

    ghost view = { λ pool. record {
      runs = runs_at pool.places.items pool.cells.items (take pool.held.live pool.order.items);
      checkpoint = checkpoint_of pool.begun
          (runs_at pool.places.items pool.cells.items (take pool.checkpoint.live pool.order.items));
      cell_room = pool.cell_room;
      run_room = pool.run_room;
    } };

    ghost invariant = { λ pool. IsWhole pool.cells.items pool.places.items pool.order.items
        pool.marks.items pool.held pool.checkpoint pool.cell_room pool.run_room };
}

impl Pool {
    ghost use Rattle.box_pool.specs.Region.{Region, cells_at, AllLive, HasSpare, kept_of};

    /// No run, and room for none. It takes no memory.
    pub fn make(alloc: Global) -> Pool
        ensures { result ≡ record {
          runs = [];
          checkpoint = None;
          cell_room = 0;
          run_room = 0;
        } }
    {
        let none = Extent { live: 0, used: 0 };
        Pool {
            cells: Vec::new(alloc),
            places: Vec::new(alloc),
            order: Vec::new(alloc),
            marks: Vec::new(alloc),
            held: none,
            checkpoint: none,
            begun: false,
            cell_room: 0,
            run_room: 0,
        }
    }

    /// Makes room for at least so many more cells and runs, or leaves all as it is.
    pub fn reserve(&mut self, cells: usize, runs: usize) -> Result<(), Memory>
        ensures ok { OnOk result (HasSpare self.new cells runs) }
        ensures room { (self.old.cell_room ≤ self.new.cell_room)
            × (self.old.run_room ≤ self.new.run_room) }
        ensures same { self.new ≡ record self.old {
          cell_room = self.new.cell_room;
          run_room = self.new.run_room;
        } }
        ensures err { OnErr result (self.new ≡ self.old) }
    {
        let Some(cell_room) = self.held.used.checked_add(cells) else {
            return Err(Memory);
        };
        let Some(run_room) = self.held.live.checked_add(runs) else {
            return Err(Memory);
        };
        grow_all(
            &mut self.cells,
            &mut self.places,
            &mut self.marks,
            &mut self.order,
            cell_room,
            run_room,
        )?;
        self.cell_room = self.cell_room.max(cell_room);
        self.run_room = self.run_room.max(run_room);
        Ok(())
    }

    /// Begins an epoch: sets the checkpoint.
    pub fn begin(&mut self)
        requires { self.old.checkpoint ≡ None }
        ensures { self.new ≡ record self.old { checkpoint = Some self.old.runs } }
    {
        self.checkpoint = self.held;
        self.begun = true;
    }

    /// Puts a run of cells, in a begun epoch, under an id that no live run has. It takes no memory.
    pub fn put(&mut self, cells: &[Cell]) -> RunId
        requires begun { IsSome self.old.checkpoint }
        requires spare { HasSpare self.old (length cells.now) 1 }
        ensures id { cells_at self.old result.0 ≡ None }
        ensures put { self.new ≡ record self.old {
          runs = self.old.runs ++ (result.0, cells.now)
              ∷ [];
        } }
    {
        let id = self.order[self.held.live];
        write_at(self.cells.as_mut_slice(), self.held.used, cells);
        self.places[id] = Place {
            start: self.held.used,
            count: cells.len(),
        };
        self.held = Extent {
            live: self.held.live + 1,
            used: self.held.used + cells.len(),
        };
        RunId(id as u64)
    }

    /// The cells of a live run.
    pub fn get(&self, run: RunId) -> &[Cell]
        requires { IsSome (cells_at self.now run.0) }
        ensures { cells_at self.now run.0 ≡ Some result.now }
    {
        let place = self.places[run.0 as usize];
        &self.cells[place.start..place.start + place.count]
    }

    /// Ends the epoch and keeps what was put in it.
    pub fn commit(&mut self)
        requires { IsSome self.old.checkpoint }
        ensures { self.new ≡ record self.old { checkpoint = None } }
    {
        self.begun = false;
    }

    /// Ends the epoch and gives back the runs at its begin.
    pub fn rollback(&mut self)
        requires { IsSome self.old.checkpoint }
        ensures { (before : Sequence (ℕ × Sequence Cell)) → self.old.checkpoint ≡ Some before →
            self.new ≡ record self.old {
              runs = before;
              checkpoint = None;
            } }
    {
        self.held = self.checkpoint;
        self.begun = false;
    }

    /// Keeps exactly the listed runs, under the same ids, and drops all others. It takes no memory.
    pub fn sweep(&mut self, keep: &List<RunId>)
        requires idle { self.old.checkpoint ≡ None }
        requires live { AllLive self.old keep.now }
        ensures { self.new ≡ record self.old { runs = kept_of keep.now self.old.runs } }
    {
        mark_listed(self.marks.as_mut_slice(), keep.as_slice());
        let kept = compact(
            self.cells.as_mut_slice(),
            self.places.as_mut_slice(),
            self.order.as_mut_slice(),
            self.marks.as_slice(),
            self.held,
        );
        self.held = kept;
        self.checkpoint = kept;
    }

    /// How many runs are live. Their ids differ.
    pub fn live(&self) -> usize
        ensures count { result ≡ length self.now.runs }
        ensures ids { IsDistinct eqb (keys_of self.now.runs) }
    {
        self.held.live
    }

    /// How many cells the live runs have.
    pub fn cells(&self) -> usize
        ensures { result ≡ cell_count self.now.runs }
    {
        self.held.used
    }
}
