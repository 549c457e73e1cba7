ghost use Rattle.std.specs.Prelude.{◌≡◌, ◌-◌, ◌^◌, min, length, filter};
ghost use Rattle.kept_results.specs.Ends.{kept_count};
ghost use Rattle.kept_results.specs.Kept.{is_live as is_no_older_one, is_marked};
ghost use Rattle.kept_results.specs.declared.memo.Memo.TheViews.{out-Memo};

use crate::lookup::is_live;
use kept_results::Memo;

/// How many entries are kept of an element and of all below it, but for the older ones, and
/// 2^64 - 1 where there are more. It takes no memory.
pub fn count_or_most(memo: &Memo) -> usize
    ensures { result ≡ min (kept_count memo.now) (2 ^ 64 - 1) }
{
    let mut total = count_here(memo);
    for below in memo.below.as_slice() {
        total = total.saturating_add(count_or_most(below));
    }
    total
}

/// How many of them are the element's own.
fn count_here(memo: &Memo) -> usize
    ensures { result ≡ length (filter (is_no_older_one (is_marked (out-Memo memo.now)))
        (out-Memo memo.now).entries) }
{
    memo.entries
        .as_slice()
        .iter()
        .filter(|entry| is_live(memo, entry))
        .count()
}
