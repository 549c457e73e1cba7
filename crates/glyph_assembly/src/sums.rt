ghost use Rattle.std.specs.Prelude.{◌≡◌, ◌+◌, ◌*◌, ◌<◌, ◌≤◌, ◌^◌, length, pos, ◌≤ℤ◌};
ghost use Rattle.std.specs.List.{All};
ghost use Rattle.fixed_units.specs.Numbers.{IsWithin};
ghost use Rattle.font_metrics.specs.Taken.{IsPart};
ghost use Rattle.glyph_assembly.specs.Counts.{IsSmall, grows, pieces, length_of};
ghost use Rattle.glyph_assembly.specs.Pieces.{sums_of};

use crate::glyphs::length_at;
use font_metrics::{Metrics, Part};

/// The lengths and counts of an assembly's fixed parts and of its extenders, and the least overlap,
/// at a font size. Lengths are in units of 1/1024 px.
#[derive(Clone, Copy)]
pub struct Sums {
    pub fixed_length: u64,
    pub fixed_count: u64,
    pub extender_length: u64,
    pub extender_count: u64,
    pub overlap: u64,
}

impl Sums {
    /// Those of an assembly. Each length is rounded by itself.
    pub fn of_parts(metrics: &Metrics, parts: &[Part], size: i64) -> Sums
        requires parts { All (IsPart (length metrics.now.glyphs)) parts.now }
        requires few { length parts.now ≤ 16 }
        requires size_low { pos 0 ≤ℤ size }
        requires size_high { size ≤ℤ pos (2 ^ 20) }
        ensures value { result ≡ sums_of metrics.now size parts.now }
        ensures small { IsSmall result }
    {
        let mut sums = Sums {
            fixed_length: 0,
            fixed_count: 0,
            extender_length: 0,
            extender_count: 0,
            overlap: length_at(metrics, metrics.overlap(), size),
        };
        for part in parts {
            let full = length_at(metrics, part.full, size);
            if part.extender {
                sums.extender_length += full;
                sums.extender_count += 1;
            } else {
                sums.fixed_length += full;
                sums.fixed_count += 1;
            }
        }
        sums
    }

    /// Whether the assembly is valid: it has extenders, and one more of each makes it longer.
    pub fn grows(&self) -> bool
        requires small { IsSmall self.now }
        ensures { result ≡ grows self.now }
    {
        (self.extender_count > 0) & (self.overlap * self.extender_count < self.extender_length)
    }

    /// How many pieces stand in a row where each extender is repeated so often.
    pub fn pieces(&self, count: u64) -> u64
        requires small { IsSmall self.now }
        requires count_in { count ≤ 2 ^ 42 }
        ensures { result ≡ pieces self.now count }
    {
        self.fixed_count + count * self.extender_count
    }

    /// How long these pieces are together. It may pass 64 bits, of which the overlaps take most.
    pub fn whole(&self, count: u64) -> u128
        requires small { IsSmall self.now }
        requires count_in { count ≤ 2 ^ 42 }
        ensures value { result ≡ self.now.fixed_length + count * self.now.extender_length }
        ensures within { result ≤ 2 ^ 79 }
    {
        u128::from(self.fixed_length) + u128::from(count) * u128::from(self.extender_length)
    }

    /// How long they are in a row, where each overlaps the one before it so far.
    pub fn length(&self, count: u64, overlap: u64) -> i64
        requires small { IsSmall self.now }
        requires count_in { count ≤ 2 ^ 42 }
        requires some { 1 ≤ pieces self.now count }
        requires overlap_in { overlap ≤ 2 ^ 32 }
        requires within { IsWithin (2 ^ 41) (length_of self.now count overlap) }
        ensures { result ≡ length_of self.now count overlap }
    {
        let covered = u128::from(overlap) * u128::from(self.pieces(count) - 1);
        (self.whole(count) as i128 - covered as i128) as i64
    }
}
