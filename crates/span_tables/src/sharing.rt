ghost use Rattle.std.specs.Prelude.{◌≡◌, ◌+◌, ◌^◌, ◌≤◌, ◌<◌, length, pos, neg_ℤ, ◌≤ℤ◌};
ghost use Rattle.std.specs.List.{All};
ghost use Rattle.fixed_units.specs.Numbers.{IsWithin};
ghost use Rattle.span_tables.specs.Bounds.{HasSpan, IsStored, most_columns};
ghost use Rattle.span_tables.specs.Standing.{end_of};
ghost use Rattle.span_tables.specs.Widths.{IsColumn, width_over, share_of, shared, widened_by};

use crate::standing::Standing;

/// Gives the columns of a cell over several ones what it lacks: each the same, but for the first
/// ones, which get one unit more.
pub fn widen_by(widths: &mut [i64], at: &Standing)
    requires columns { All IsColumn widths.old }
    requires inside { end_of at.now ≤ length widths.old }
    requires span { HasSpan at.now.cell }
    requires stored { IsStored at.now.cell }
    ensures value { widths.new ≡ widened_by widths.old at.now }
{
    let first = at.column as usize;
    let count = at.cell.span.columns as usize;
    let lack = at.cell.width - width_over(widths, first, count);
    if 1 < count && 0 < lack {
        share(widths, first, count, lack.unsigned_abs());
    }
}

/// What columns take together.
fn width_over(widths: &[i64], first: usize, count: usize) -> i64
    requires columns { All IsColumn widths.now }
    requires few { count ≤ most_columns }
    requires inside { first + count ≤ length widths.now }
    ensures value { result ≡ width_over widths.now first count }
    ensures within { IsWithin (2 ^ 42) result }
{
    let mut total = 0;
    for place in 0..count {
        total += widths[first + place];
    }
    total
}

/// Gives columns their shares of a lack.
fn share(widths: &mut [i64], first: usize, count: usize, lack: u64)
    requires columns { All IsColumn widths.old }
    requires some { 1 ≤ count }
    requires inside { first + count ≤ length widths.old }
    requires lack_in { lack ≤ 2 ^ 43 }
    ensures { widths.new ≡ shared widths.old first count lack }
{
    for place in 0..count {
        widths[first + place] += share_at(lack, count, place) as i64;
    }
}

/// What one column gets.
#[tactic(auto, unfolding(crate::specs::Widths::share_of))]
fn share_at(lack: u64, count: usize, place: usize) -> u64
    requires { 1 ≤ count }
    ensures value { result ≡ share_of lack count place }
    ensures within { result ≤ lack + 1 }
{
    let one = u64::from((place as u64) < lack % count as u64);
    lack / count as u64 + one
}
