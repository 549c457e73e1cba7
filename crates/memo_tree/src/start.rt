ghost use Rattle.std.specs.Prelude.{◌≡◌, ◌≤◌, ◌+◌, true, false, [], length, IfOk, None, OnErr, OnOk, Err};
ghost use Rattle.fixed_units.specs.declared.refusal.LayRefusal.TheVariants.{Range};
ghost use Rattle.math_tree.specs.Trees.{element_count};
ghost use Rattle.layout_model.specs.Layout.{in_range};
ghost use Rattle.kept_results.specs.Backed.{HaveOwnRuns, IsBacked};
ghost use Rattle.kept_results.specs.Contexts.{Suits};
ghost use Rattle.kept_results.specs.Ends.{kept_count};
ghost use Rattle.kept_sweep.specs.Runs.{HaveOneRunEach};
ghost use Rattle.kept_sweep.specs.Swept.{CountsNeeded, KeepsNeeded};

use fixed_units::{LayRefusal, Steps};
use font_metrics::Metrics;
use kept_edits::blank;
use kept_relay::relay_element;
use kept_results::{Memo, seal};
use layout_model::{Context, Finish};
use math_tree::Node;
use outcome_cells::Store;
use std::alloc::Global;
use std::sync::ledger::Ledger;

/// Lays a tree out for the first time, and keeps exactly the layouts that the one of its root in a
/// context needs. Each layout that is computed ticks a step, so that there are as many steps as
/// entries are kept. So many runs come in the store: where it was empty, it has one for each entry.
/// It is refused with `Range` exactly where a number of one of them can't be stored; then the store
/// is as before.
pub fn start_layout<F: Finish, L: Ledger>(
    alloc: Global,
    node: &Node,
    store: &mut Store,
    context: &Context,
    metrics: &Metrics,
    steps: &mut Steps<L>,
) -> Result<Memo, LayRefusal>
    requires few { element_count node.now ≤ 65_536 }
    requires context { Suits metrics.now node.now context.now }
    requires idle { store.old.checkpoint ≡ None }
    ensures kept { IfOk result (λ memo. KeepsNeeded metrics.now node.now context.now memo) }
    ensures steps { CountsNeeded metrics.now node.now context.now steps.old steps.new }
    ensures all { IfOk result (λ memo. steps.new ≡ steps.old + kept_count memo) }
    ensures backed { IfOk result (λ memo. IsBacked metrics.now store.new.runs node.now memo) }
    ensures own { IfOk result HaveOwnRuns }
    ensures runs { OnOk result
        (length store.new.runs + steps.old ≡ length store.old.runs + steps.new) }
    ensures one { store.old.runs ≡ [] → IfOk result (HaveOneRunEach store.new.runs) }
    ensures idle { OnOk result (store.new.checkpoint ≡ None) }
    ensures unchanged { OnErr result (store.new ≡ store.old) }
    ensures fit { OnOk result (in_range metrics.now node.now context.now ≡ true) }
    ensures range { result ≡ Err Range → in_range metrics.now node.now context.now ≡ false }
{
    let mut memo = blank(alloc, node)?;
    store.begin();
    match relay_element::<F, _>(alloc, node, &mut memo, store, context, metrics, steps) {
        Ok(answer) => {
            drop(answer);
            seal(&mut memo);
            store.commit();
            Ok(memo)
        }
        Err(refusal) => {
            drop(memo);
            store.rollback();
            Err(refusal)
        }
    }
}
