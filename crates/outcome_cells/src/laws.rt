//! What holds of the cells of all outcomes, and of runs that have outcomes.
ghost use Rattle.std.specs.Prelude.{◌≡◌, IfOk};
ghost use Rattle.outcome_cells.specs.Laws.{OneForRunLaw, OneOutcomeLaw, PutOutcomeLaw, SweepOutcomeLaw};

use crate::decode::read_cells;
use crate::encode::put_cells;
use fixed_units::Memory;
use layout_model::Outcome;
use std::alloc::Global;

/// No list of cells stands for two outcomes.
pub fn no_cells_stand_for_two_outcomes()
    ensures { OneOutcomeLaw }
{}

/// No run has two outcomes.
pub fn no_run_has_two_outcomes()
    ensures { OneForRunLaw }
{}

/// Where an outcome is put, its run has it, and no other run loses its own.
pub fn a_put_outcome_is_found()
    ensures { PutOutcomeLaw }
{}

/// After a sweep each listed run has the outcome that it had.
pub fn a_sweep_keeps_listed_outcomes()
    ensures { SweepOutcomeLaw }
{}

/// What is read from the cells of an outcome is that outcome.
pub fn what_is_read_is_what_was_put(alloc: Global, outcome: &Outcome) -> Result<Outcome, Memory>
    ensures { IfOk result (λ read. read ≡ outcome.now) }
{
    let mut cells = Vec::new(alloc);
    put_cells(outcome, &mut cells)?;
    let read = read_cells(alloc, cells.as_slice())?;
    Ok(read)
}
