ghost use Rattle.std.specs.Prelude.{◌≡◌, ◌≤◌, true, None, OnErr, OnOk};
ghost use Rattle.box_pool.specs.Region.{kept_of};
ghost use Rattle.kept_results.specs.Backed.{HaveOwnRuns, IsBacked};
ghost use Rattle.kept_results.specs.Ends.{kept_count, stripped};
ghost use Rattle.kept_results.specs.Kept.{Agrees, IsKept};
ghost use Rattle.kept_results.specs.Laws.{is_unmarked};
ghost use Rattle.kept_results.specs.declared.memo.Memo.TheViews.{out-Memo};
ghost use Rattle.kept_sweep.specs.Runs.{HaveOneRunEach, runs_of};
ghost use Rattle.kept_sweep.specs.Swept.{IsPartOf, KeepsNeeded};

use crate::flags::{flag_needed, mark_all};
use crate::runs::list_runs;
use fixed_units::{List, Memory};
use font_metrics::Metrics;
use kept_results::{Memo, seal};
use layout_model::Context;
use math_tree::Node;
use outcome_cells::Store;
use std::alloc::Global;

/// Drops all layouts but those that the layout of the root in a context needs, where that one is
/// kept, and all runs of a store but those of the layouts that are left. The memory for the list of
/// these runs comes first, so that all is as before where it is refused. `metrics` are those of the
/// layouts that are kept.
pub fn sweep_stored(
    alloc: Global,
    node: &Node,
    memo: &mut Memo,
    store: &mut Store,
    context: &Context,
    metrics: &Metrics,
) -> Result<(), Memory>
    requires agrees { Agrees metrics.now node.now memo.old }
    requires unmarked { is_unmarked memo.old ≡ true }
    requires plain { stripped memo.old ≡ memo.old }
    requires kept { IsKept (out-Memo memo.old) context.now }
    requires backed { IsBacked metrics.now store.old.runs node.now memo.old }
    requires own { HaveOwnRuns memo.old }
    requires idle { store.old.checkpoint ≡ None }
    ensures swept { OnOk result (KeepsNeeded metrics.now node.now context.now memo.new) }
    ensures part { IsPartOf memo.new memo.old }
    ensures fewer { kept_count memo.new ≤ kept_count memo.old }
    ensures backed { IsBacked metrics.now store.new.runs node.now memo.new }
    ensures runs { OnOk result (store.new.runs ≡ kept_of (runs_of memo.new) store.old.runs) }
    ensures one { OnOk result (HaveOneRunEach store.new.runs memo.new) }
    ensures idle { store.new.checkpoint ≡ None }
    ensures same_memo { OnErr result (memo.new ≡ memo.old) }
    ensures same_store { OnErr result (store.new ≡ store.old) }
{
    // no two entries have one run, so that there are at least as many runs as entries
    let mut needed = Vec::with_capacity(alloc, store.live())?;
    sweep_layouts(node, memo, context, metrics);
    list_runs(memo, &mut needed);
    store.sweep(&List::from(needed));
    Ok(())
}

/// Drops all layouts but those that the layout of the root in a context needs. It takes no memory.
fn sweep_layouts(node: &Node, memo: &mut Memo, context: &Context, metrics: &Metrics)
    requires agrees { Agrees metrics.now node.now memo.old }
    requires unmarked { is_unmarked memo.old ≡ true }
    requires plain { stripped memo.old ≡ memo.old }
    requires kept { IsKept (out-Memo memo.old) context.now }
    ensures swept { KeepsNeeded metrics.now node.now context.now memo.new }
    ensures part { IsPartOf memo.new memo.old }
    ensures fewer { kept_count memo.new ≤ kept_count memo.old }
{
    mark_all(memo);
    flag_needed(node, memo, context, metrics);
    seal(memo);
}
