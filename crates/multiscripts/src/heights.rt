ghost use Rattle.std.specs.Prelude.{◌≡◌, ◌^◌, pos, ◌≤ℤ◌};
ghost use Rattle.std.specs.List.{All};
ghost use Rattle.fixed_units.specs.Boxes.{IsStored};
ghost use Rattle.fixed_units.specs.Numbers.{IsWithin};
ghost use Rattle.multiscripts.specs.Along.{IsPairStored};
ghost use Rattle.multiscripts.specs.Heights.{larger_of, all_shifts_of, union_of};
ghost use Rattle.scripts.specs.Shifts.{AreShiftsWithin};

use crate::parts::Pair;
use fixed_units::{MathBox, join, raise};
use font_metrics::Metrics;
use scripts::{Shifts, pair_shifts};

/// How far the scripts of all pairs are moved: as far as those that are moved farthest.
pub fn all_shifts(
    base: &MathBox,
    cramped: bool,
    pairs: &[Pair],
    size: i64,
    metrics: &Metrics,
) -> Shifts
    requires base_fits { IsStored base.now }
    requires fit { All IsPairStored pairs.now }
    requires size_low { pos 0 ≤ℤ size }
    requires size_high { size ≤ℤ pos (2 ^ 20) }
    ensures value { result ≡ all_shifts_of metrics.now size cramped base.now pairs.now }
    ensures within { AreShiftsWithin (2 ^ 40) result }
{
    let Some((first, others)) = pairs.split_first() else {
        return UNMOVED;
    };
    let mut all = pair_shifts(base, cramped, &first.sub, &first.sup, size, metrics);
    for pair in others {
        let alone = pair_shifts(base, cramped, &pair.sub, &pair.sup, size, metrics);
        all = larger(&all, &alone);
    }
    all
}

const UNMOVED: Shifts = Shifts { up: 0, down: 0 };

/// The larger of each shift.
#[tactic(auto, using(fixed_units::proofs::Signed::from_bits), unfolding(crate::specs::Heights::larger_of))]
fn larger(first: &Shifts, second: &Shifts) -> Shifts
    ensures { result ≡ larger_of first.now second.now }
{
    Shifts {
        up: first.up.max(second.up),
        down: first.down.max(second.down),
    }
}

/// What the base and all scripts reach up and down.
pub fn union(base: &MathBox, pairs: &[Pair], shifts: &Shifts) -> MathBox
    requires fit { All IsPairStored pairs.now }
    requires up_in { IsWithin (2 ^ 40) shifts.now.up }
    requires down_in { IsWithin (2 ^ 40) shifts.now.down }
    ensures { result ≡ union_of base.now shifts.now pairs.now }
{
    let mut all = *base;
    for pair in pairs {
        all = join(&all, &raise(&pair.sub, -shifts.down));
        all = join(&all, &raise(&pair.sup, shifts.up));
    }
    all
}
