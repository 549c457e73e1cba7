//! The session with which work begins, by the bytes of two files.
ghost use Rattle.std.specs.Prelude.{◌≡◌, Ok, Err, IfOk, IfErr};
ghost use Rattle.edit_session.specs.Counts.{TakesVisits};
ghost use Rattle.input_files.specs.Files.{GivesOr, metrics_in, tree_in};
ghost use Rattle.input_files.specs.Refusals.{status_of};
ghost use Rattle.input_files.specs.Status.{EndsUnlaid};
ghost use Rattle.line_replies.specs.Opening.{TakesToOpen, TakesToStart, opened, opened_over, started};

use edit_session::Session;
use fixed_units::Steps;
use font_metrics::Metrics;
use input_files::{Refusal, metrics_in, tree_in};
use math_tree::Tree;
use std::alloc::Global;
use std::sync::ledger::Ledger;

/// The session of a tree file's bytes with the metrics of a metrics file's bytes, as the program
/// begins work on both, or why there is none.
pub fn open<L: Ledger>(
    alloc: Global,
    metrics: &[u8],
    tree: &[u8],
    steps: &mut Steps<L>,
) -> Result<Session, Refusal>
    ensures session { IfOk result (λ session. opened metrics.now tree.now ≡ Ok session.held) }
    ensures refused { IfErr result
        (λ refusal. GivesOr (opened metrics.now tree.now) (Err refusal)) }
    ensures taken { TakesToOpen (metrics_in metrics.now) (tree_in tree.now) steps.old steps.new }
{
    let metrics = metrics_in(alloc, metrics)?;
    open_tree(alloc, metrics, tree, steps)
}

/// The session of a tree file's bytes with these metrics.
pub fn open_tree<L: Ledger>(
    alloc: Global,
    metrics: Metrics,
    tree: &[u8],
    steps: &mut Steps<L>,
) -> Result<Session, Refusal>
    ensures session { IfOk result (λ session. opened_over metrics tree.now ≡ Ok session.held) }
    ensures refused { IfErr result
        (λ refusal. GivesOr (opened_over metrics tree.now) (Err refusal)) }
    ensures taken { TakesToStart metrics (tree_in tree.now) steps.old steps.new }
{
    match tree_in(alloc, tree) {
        Ok(tree) => start(alloc, metrics, tree, steps),
        Err(refusal) => {
            // Dropped by a call, so that the proof of this function doesn't go through all parts.
            drop(metrics);
            Err(refusal)
        }
    }
}

/// The session of a tree that is laid out.
pub fn start<L: Ledger>(
    alloc: Global,
    metrics: Metrics,
    tree: Tree,
    steps: &mut Steps<L>,
) -> Result<Session, Refusal>
    ensures session { IfOk result (λ session. started metrics tree ≡ Ok session.held) }
    ensures refused { IfErr result (λ refusal. GivesOr (started metrics tree) (Err refusal)) }
    ensures late { IfErr result (λ refusal. ¬ EndsUnlaid (status_of refusal)) }
    ensures taken { TakesVisits metrics tree steps.old steps.new }
{
    match Session::start(alloc, tree, metrics, steps) {
        Ok(session) => Ok(session),
        Err(refusal) => Err(Refusal::of_layout(refusal)),
    }
}
