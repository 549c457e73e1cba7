ghost use Rattle.std.specs.Prelude.{◌≡◌, ◌+◌, ◌≤◌, ◌++◌, length, vec_capacity};
ghost use Rattle.kept_results.specs.Ends.{kept_count};
ghost use Rattle.kept_results.specs.Kept.{is_marked};
ghost use Rattle.kept_results.specs.declared.memo.Memo.TheViews.{out-Memo};
ghost use Rattle.kept_sweep.specs.Runs.{live_runs, runs_of};

use box_pool::RunId;
use kept_laid::is_live;
use kept_results::Memo;

/// Lists the runs of all entries of an element and of all below it, but for the older ones. There
/// is room for them already, so it takes no memory.
pub fn list_runs(memo: &Memo, runs: &mut Vec<RunId>)
    requires room { length runs.old.items + kept_count memo.now ≤ vec_capacity runs.old }
    ensures listed { runs.new.items ≡ runs.old.items ++ runs_of memo.now }
    ensures room { vec_capacity runs.new ≡ vec_capacity runs.old }
{
    list_own(memo, runs);
    for below in memo.below.as_slice() {
        list_runs(below, runs);
    }
}

/// Lists those of the element's own entries.
fn list_own(memo: &Memo, runs: &mut Vec<RunId>)
    requires room { length runs.old.items + length (live_runs (is_marked (out-Memo memo.now))
        (out-Memo memo.now).entries) ≤ vec_capacity runs.old }
    ensures listed { runs.new.items ≡ runs.old.items ++
        live_runs (is_marked (out-Memo memo.now)) (out-Memo memo.now).entries }
    ensures room { vec_capacity runs.new ≡ vec_capacity runs.old }
{
    for entry in memo.entries.as_slice() {
        if is_live(memo, entry) {
            runs.push_reserved(entry.run);
        }
    }
}
