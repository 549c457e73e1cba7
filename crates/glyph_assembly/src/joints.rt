ghost use Rattle.std.specs.Prelude.{◌≡◌, ◌<◌, ◌≤◌, ◌^◌, length, pos, ◌≤ℤ◌, IfSome};
ghost use Rattle.std.specs.List.{All};
ghost use Rattle.font_metrics.specs.Taken.{IsPart};
ghost use Rattle.glyph_assembly.specs.Chains.{narrower, followed, repeated};
ghost use Rattle.glyph_assembly.specs.Pieces.{widest_overlap};

use crate::glyphs::length_at;
use font_metrics::{Metrics, Part};

/// A row of pieces so far: the connector at its end, and the widest overlap that its joints allow.
#[derive(Clone, Copy)]
struct Chain {
    end: Option<u64>,
    widest: Option<u64>,
}

/// The widest overlap that all joints allow of a row in which each extender stands so often; none
/// where there is no joint.
pub fn widest_overlap(metrics: &Metrics, parts: &[Part], count: u64, size: i64) -> Option<u64>
    requires parts { All (IsPart (length metrics.now.glyphs)) parts.now }
    requires size_low { pos 0 ≤ℤ size }
    requires size_high { size ≤ℤ pos (2 ^ 20) }
    ensures value { result ≡ widest_overlap metrics.now size count parts.now }
    ensures within { IfSome result (λ widest. widest ≤ 2 ^ 32) }
{
    let mut chain = Chain {
        end: None,
        widest: None,
    };
    for part in parts {
        let start = length_at(metrics, part.start, size);
        let end = length_at(metrics, part.end, size);
        let repeats = if part.extender { count } else { 1 };
        chain = chain.repeated(start, end, repeats);
    }
    chain.widest
}

impl Chain {
    /// The row with a piece behind it that is repeated so often. All its repeats but the first make
    /// one and the same joint.
    fn repeated(self, start: u64, end: u64, repeats: u64) -> Chain
        ensures { result ≡ repeated self start end repeats }
    {
        if repeats == 0 {
            return self;
        }
        let once = self.followed(start, end);
        if repeats == 1 {
            return once;
        }
        once.followed(start, end)
    }

    /// The row with one piece behind it.
    fn followed(self, start: u64, end: u64) -> Chain
        ensures { result ≡ followed self start end }
    {
        Chain {
            end: Some(end),
            widest: match self.end {
                Some(before) => Some(narrower(self.widest, before.min(start))),
                None => self.widest,
            },
        }
    }
}

/// The lesser of two overlaps, of which one may lack.
fn narrower(widest: Option<u64>, joint: u64) -> u64
    ensures { result ≡ narrower widest joint }
{
    match widest {
        Some(widest) => widest.min(joint),
        None => joint,
    }
}
