ghost use Rattle.std.specs.Prelude.{◌≡◌, ◌<◌, ◌≤◌, ◌^◌, IfSome};
ghost use Rattle.fixed_units.specs.Numbers.{IsWithin};
ghost use Rattle.glyph_assembly.specs.Counts.{IsSmall, Grows, IsEnough, IsLeastCount, IsGreatestOverlap, least_count, greatest_overlap, pieces};

use crate::sums::Sums;

/// The least number of repeats with which an assembly reaches a target, each piece overlapping the
/// one before it no more than it must.
pub fn least_count(sums: &Sums, target: i64) -> u64
    requires small { IsSmall sums.now }
    requires grows { Grows sums.now }
    requires target_in { IsWithin (2 ^ 40) target }
    ensures least { IsLeastCount sums.now target result }
    ensures value { result ≡ least_count sums.now target }
    ensures within { result ≤ 2 ^ 42 }
{
    // Without fixed parts it takes one repeat to have a piece at all.
    let first = u64::from(sums.fixed_count == 0);
    let gain = sums.extender_length - sums.overlap * sums.extender_count;
    let missing = target + (sums.overlap * sums.fixed_count) as i64
        - (sums.fixed_length + sums.overlap) as i64;
    if missing <= 0 {
        return first;
    }
    ((missing as u64 + (gain - 1)) / gain).max(first)
}

/// The greatest overlap, up to the widest that the joints allow, with which so many repeats still
/// reach the target; the least overlap where there is no joint, or none allows it.
pub fn greatest_overlap(sums: &Sums, target: i64, count: u64, widest: Option<u64>) -> u64
    requires small { IsSmall sums.now }
    requires target_in { IsWithin (2 ^ 40) target }
    requires count_in { count ≤ 2 ^ 42 }
    requires enough { IsEnough sums.now target count }
    requires joined { IfSome widest (λ _. 2 ≤ pieces sums.now count) }
    ensures { result ≡ greatest_overlap sums.now target count widest }
{
    match widest {
        Some(widest) if sums.overlap <= widest => fitting(sums, target, count, widest),
        _ => sums.overlap,
    }
}

/// The same where the widest overlap is no less than the least: a unit more at each joint takes a
/// unit of what is spare.
fn fitting(sums: &Sums, target: i64, count: u64, widest: u64) -> u64
    requires small { IsSmall sums.now }
    requires target_in { IsWithin (2 ^ 40) target }
    requires count_in { count ≤ 2 ^ 42 }
    requires enough { IsEnough sums.now target count }
    requires joined { 2 ≤ pieces sums.now count }
    requires wide { sums.now.overlap ≤ widest }
    ensures { IsGreatestOverlap sums.now target count widest result }
{
    let joints = sums.pieces(count) - 1;
    let spare = (sums.whole(count) as i128 - i128::from(target)) as u128;
    let most = spare / u128::from(joints);
    if most < u128::from(widest) {
        most as u64
    } else {
        widest
    }
}
