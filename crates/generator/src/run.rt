ghost use Rattle.std.specs.Prelude.{◌≡◌, true, false, Err, IfOk, OnOk};
ghost use Rattle.fixed_units.specs.declared.refusal.LayRefusal.TheVariants.{Range};
ghost use Rattle.layout_model.specs.Layout.{is_tree_in_range};
ghost use Rattle.seeded_edits.specs.Edits.{after_draws, drawn_edit, drawn_edits};
ghost use Rattle.generator.specs.Folded.{accepted_count, after_edit, after_edits, is_accepted};
ghost use Rattle.generator.specs.Generated.{generated, told_of};
ghost use Rattle.seeded_edits.specs.Start.{start_tree};
ghost use Rattle.generator.specs.Steps.{TakesForEdit, TakesForRun, TakesForSome};

use edit_session::{Session, SessionRefusal};
use fixed_units::{LayRefusal, Memory, Steps};
use font_metrics::Metrics;
use math_tree::Tree;
use seeded_edits::{Draws, Summary, count_boxes, draw_edit, start_tree};
use std::alloc::Global;
use std::sync::ledger::Ledger;

/// Makes so many edits that are drawn from a seed, one after another, of the tree of 833 elements
/// that is laid out with these metrics, and tells what came of them. An edit that is refused
/// changes nothing. The steps are layouts that the tree needs at the start, and those that each
/// edit needs that the tree has no reason to refuse.
#[tactic(auto, unfolding(crate::specs::Generated::generated))]
pub fn generate<L: Ledger>(
    alloc: Global,
    metrics: Metrics,
    seed: u64,
    count: u32,
    steps: &mut Steps<L>,
) -> Result<Summary, LayRefusal>
    ensures told { IfOk result (λ told. told ≡ generated metrics seed count) }
    ensures fit { OnOk result (is_tree_in_range metrics start_tree ≡ true) }
    ensures range { result ≡ Err Range → is_tree_in_range metrics start_tree ≡ false }
    ensures steps { TakesForRun metrics seed count steps.old steps.new }
{
    match start_tree(alloc) {
        Ok(tree) => generate_over(alloc, tree, metrics, seed, count, steps),
        Err(Memory) => {
            metrics.discard();
            Err(LayRefusal::Memory)
        }
    }
}

/// The same, with the tree at hand.
#[tactic(auto, unfolding(crate::specs::Generated::generated))]
fn generate_over<L: Ledger>(
    alloc: Global,
    tree: Tree,
    metrics: Metrics,
    seed: u64,
    count: u32,
    steps: &mut Steps<L>,
) -> Result<Summary, LayRefusal>
    requires { tree ≡ start_tree }
    ensures told { IfOk result (λ told. told ≡ generated metrics seed count) }
    ensures fit { OnOk result (is_tree_in_range metrics start_tree ≡ true) }
    ensures range { result ≡ Err Range → is_tree_in_range metrics start_tree ≡ false }
    ensures steps { TakesForRun metrics seed count steps.old steps.new }
{
    let mut session = Session::start(alloc, tree, metrics, steps)?;
    let told = tell_edits(alloc, &mut session, seed, count, steps);
    session.end();
    Ok(told?)
}

/// Makes so many edits of a session that are drawn from a seed, and tells what came of them.
fn tell_edits<L: Ledger>(
    alloc: Global,
    session: &mut Session,
    seed: u64,
    count: u32,
    steps: &mut Steps<L>,
) -> Result<Summary, Memory>
    ensures told { IfOk result (λ told.
        told ≡ told_of count session.old.held (drawn_edits count seed)) }
    ensures steps { TakesForSome session.old.held (drawn_edits count seed) steps.old steps.new }
{
    let accepted = make_edits(alloc, session, seed, count, steps)?;
    let page = session.show(alloc)?;
    let boxes = count_boxes(&page);
    drop(page);
    Ok(Summary {
        edits: count,
        accepted,
        root: session.root_box(),
        boxes,
    })
}

/// Makes so many edits of a session that are drawn from a seed, and says how many were accepted.
fn make_edits<L: Ledger>(
    alloc: Global,
    session: &mut Session,
    seed: u64,
    count: u32,
    steps: &mut Steps<L>,
) -> Result<u32, Memory>
    ensures accepted { IfOk result (λ accepted.
        accepted ≡ accepted_count session.old.held (drawn_edits count seed)) }
    ensures session { OnOk result
        (session.new.held ≡ after_edits session.old.held (drawn_edits count seed)) }
    ensures steps { TakesForSome session.old.held (drawn_edits count seed) steps.old steps.new }
{
    let mut draws = Draws::from_seed(seed);
    let mut accepted = 0;
    for _ in 0..count {
        if make_edit(alloc, session, &mut draws, steps)? {
            accepted += 1;
        }
    }
    Ok(accepted)
}

/// Draws an edit of a session and makes it, and says whether it was accepted.
fn make_edit<L: Ledger>(
    alloc: Global,
    session: &mut Session,
    draws: &mut Draws,
    steps: &mut Steps<L>,
) -> Result<bool, Memory>
    ensures accepted { IfOk result (λ accepted.
        accepted ≡ is_accepted session.old.held (drawn_edit draws.old)) }
    ensures session { OnOk result
        (session.new.held ≡ after_edit session.old.held (drawn_edit draws.old)) }
    ensures draws { OnOk result (draws.new ≡ after_draws draws.old) }
    ensures steps { TakesForEdit session.old.held (drawn_edit draws.old) steps.old steps.new }
{
    let edit = draw_edit(alloc, draws)?;
    match session.edit(alloc, edit, steps) {
        Ok(()) => Ok(true),
        Err(SessionRefusal::Edit(_)) => Ok(false),
        Err(SessionRefusal::Range) => Ok(false),
        Err(SessionRefusal::Memory) => Err(Memory),
    }
}
