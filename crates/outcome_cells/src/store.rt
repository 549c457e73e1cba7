ghost use Rattle.std.specs.Prelude.{◌≡◌, [], IfOk, None, OnErr, Some, eqb, length};
ghost use Rattle.std.specs.List.{All, IsDistinct};
ghost use Rattle.std.specs.Map.{keys_of};
ghost use Rattle.std.specs.Option.{IsSome};
ghost use Rattle.box_pool.specs.Region.{cells_in, kept_of};
ghost use Rattle.box_pool.specs.Runs.{cell_count};
ghost use Rattle.layout_model.specs.declared.outcome.Outcome.{Outcome};
ghost use Rattle.outcome_cells.specs.Parts.{ArePartsOf};
ghost use Rattle.outcome_cells.specs.Store.{HasOutcome, HasSomeOutcome, PutsOutcome, Runs};

use crate::decode::{read_answer, read_cells};
use crate::encode::put_cells;
use crate::parts::{Parts, parts_of};
use box_pool::{Cell, Pool, RunId};
use fixed_units::{List, Memory};
use layout_model::{Answer, Outcome};
use std::alloc::Global;
use std::marker::Model;

/// Outcomes in a pool, each the cells of a run, with one checkpoint.
#[derive(Drop)]
pub struct Store {
    pool: Pool,
    /// Where the cells of an outcome are listed before they are put. It keeps its memory, so that
    /// listing takes some only where more room is asked for than ever before: eight cells a mark.
    desk: Vec<Cell>,
}

impl Model for Store {
    ghost use Rattle.outcome_cells.specs.Store.{StoreValue, store_of};

    ghost Value = { StoreValue };

    ghost view = { λ store. store_of store.pool };
}

impl Store {
    /// No outcome. It takes no memory.
    pub fn make(alloc: Global) -> Store
        ensures { result ≡ record { runs = []; checkpoint = None } }
    {
        Store {
            pool: Pool::make(alloc),
            desk: Vec::new(alloc),
        }
    }

    /// Begins an epoch: sets the checkpoint.
    pub fn begin(&mut self)
        requires { self.old.checkpoint ≡ None }
        ensures { self.new ≡ record self.old { checkpoint = Some self.old.runs } }
    {
        self.pool.begin();
    }

    /// Puts an outcome, in a begun epoch, under an id that no run has, or leaves all as it is.
    pub fn put(&mut self, outcome: &Outcome) -> Result<RunId, Memory>
        requires begun { IsSome self.old.checkpoint }
        ensures put { IfOk result (λ run. PutsOutcome self.old self.new run.0 outcome.now) }
        ensures err { OnErr result (self.new ≡ self.old) }
    {
        self.desk.clear();
        put_cells(outcome, &mut self.desk)?;
        self.pool.reserve(self.desk.len(), 1)?;
        Ok(self.pool.put(self.desk.as_slice()))
    }

    /// The outcome of a run.
    pub fn outcome(&self, alloc: Global, run: RunId) -> Result<Outcome, Memory>
        requires { HasSomeOutcome self.now.runs run.0 }
        ensures { IfOk result (HasOutcome self.now.runs run.0) }
    {
        read_cells(alloc, self.pool.get(run))
    }

    /// The answer of the outcome of a run. Only that of a row of a table takes memory.
    pub fn answer(&self, alloc: Global, run: RunId) -> Result<Answer, Memory>
        requires { HasSomeOutcome self.now.runs run.0 }
        ensures { IfOk result (λ answer. (o : Outcome) → HasOutcome self.now.runs run.0 o →
            answer ≡ o.answer) }
    {
        read_answer(alloc, self.pool.get(run))
    }

    /// The parts of the outcome of a run. It takes no memory.
    pub fn parts(&self, run: RunId) -> Parts<'_>
        requires { HasSomeOutcome self.now.runs run.0 }
        ensures { (o : Outcome) → HasOutcome self.now.runs run.0 o → ArePartsOf result o }
    {
        parts_of(self.pool.get(run))
    }

    /// Ends the epoch and keeps what was put in it.
    pub fn commit(&mut self)
        requires { IsSome self.old.checkpoint }
        ensures { self.new ≡ record self.old { checkpoint = None } }
    {
        self.pool.commit();
    }

    /// Ends the epoch and gives back the runs at its begin. It takes no memory.
    pub fn rollback(&mut self)
        requires { IsSome self.old.checkpoint }
        ensures { (before : Runs) → self.old.checkpoint ≡ Some before →
            self.new ≡ record { runs = before; checkpoint = None } }
    {
        self.pool.rollback();
    }

    /// Keeps exactly the listed runs, under the same ids, and drops all others. It takes no memory.
    pub fn sweep(&mut self, keep: &List<RunId>)
        requires idle { self.old.checkpoint ≡ None }
        requires live { All (λ run. IsSome (cells_in self.old.runs run.0)) keep.now }
        ensures { self.new ≡ record self.old { runs = kept_of keep.now self.old.runs } }
    {
        self.pool.sweep(keep);
    }

    /// How many runs there are. Their ids differ.
    pub fn live(&self) -> usize
        ensures count { result ≡ length self.now.runs }
        ensures ids { IsDistinct eqb (keys_of self.now.runs) }
    {
        self.pool.live()
    }

    /// How many cells the runs have.
    pub fn cells(&self) -> usize
        ensures { result ≡ cell_count self.now.runs }
    {
        self.pool.cells()
    }
}
