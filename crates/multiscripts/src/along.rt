ghost use Rattle.std.specs.Prelude.{◌≡◌, pos, ◌+ℤ◌, ◌≤◌, ◌^◌, length, IfOk};
ghost use Rattle.std.specs.List.{All};
ghost use Rattle.fixed_units.specs.Boxes.{IsStored, farthest};
ghost use Rattle.fixed_units.specs.Numbers.{IsWithin};
ghost use Rattle.multiscripts.specs.Along.{base_lean_of, upright, sub_start_of, sup_start_of, room_of, line_at, past_of, room_x_of, sub_spots_of, sup_spots_of, IsPairStored, IsLeanWithin, IsLineWithin};

use crate::parts::Pair;
use fixed_units::{List, MathBox, Memory};
use scripts::{Shifts, Spot};
use std::alloc::Global;

/// How far the italic correction of a base moves the first pair behind it: the subscript back, the
/// superscript farther.
#[derive(Clone, Copy, Debug)]
pub struct Lean {
    pub back: i64,
    pub forth: i64,
}

impl Lean {
    /// How a base leans over the first pair behind it.
    #[tactic(auto, using(fixed_units::proofs::Signed::from_bits), unfolding(crate::specs::Along::base_lean_of))]
    fn of(base: &MathBox, large: bool) -> Lean
        requires { IsStored base.now }
        ensures value { result ≡ base_lean_of base.now large }
        ensures within { IsLeanWithin farthest result }
    {
        if large {
            Lean {
                back: base.italic,
                forth: 0,
            }
        } else {
            Lean {
                back: 0,
                forth: base.italic,
            }
        }
    }

    /// Where the subscript begins in the room of its pair.
    #[tactic(auto, using(fixed_units::proofs::Signed::from_bits), unfolding(crate::specs::Along::sub_start_of))]
    fn sub_start(&self, pair: &Pair) -> i64
        requires lean_in { IsLeanWithin farthest self.now }
        requires fits { IsPairStored pair.now }
        ensures value { result ≡ sub_start_of self.now pair.now }
        ensures within { IsWithin (2 ^ 31) result }
    {
        if pair.before {
            pair.sub.width.max(pair.sup.width) - pair.sub.width
        } else {
            -self.back
        }
    }

    /// Where the superscript begins there.
    #[tactic(auto, using(fixed_units::proofs::Signed::from_bits), unfolding(crate::specs::Along::sup_start_of))]
    fn sup_start(&self, pair: &Pair) -> i64
        requires lean_in { IsLeanWithin farthest self.now }
        requires fits { IsPairStored pair.now }
        ensures value { result ≡ sup_start_of self.now pair.now }
        ensures within { IsWithin (2 ^ 31) result }
    {
        if pair.before {
            pair.sub.width.max(pair.sup.width) - pair.sup.width
        } else {
            self.forth
        }
    }

    /// How far the scripts reach in it.
    #[tactic(auto, using(fixed_units::proofs::Signed::from_bits), unfolding(crate::specs::Along::room_of))]
    fn room(&self, pair: &Pair) -> i64
        requires lean_in { IsLeanWithin farthest self.now }
        requires fits { IsPairStored pair.now }
        ensures value { result ≡ room_of self.now pair.now }
        ensures within { IsWithin (2 ^ 32) result }
    {
        let sub_end = self.sub_start(pair) + pair.sub.width;
        let sup_end = self.sup_start(pair) + pair.sup.width;
        sub_end.max(sup_end)
    }
}

/// Over a pair that isn't the first one behind its base, the base doesn't lean.
const UPRIGHT: Lean = Lean { back: 0, forth: 0 };

/// How far some pairs reach: before the base from the start, behind it from its end; and how the
/// base leans over the next pair behind it.
#[derive(Clone, Copy, Debug)]
pub struct Line {
    pub ahead: i64,
    pub behind: i64,
    pub lean: Lean,
}

impl Line {
    /// Before the first pair.
    fn start(base: &MathBox, large: bool) -> Line
        requires { IsStored base.now }
        ensures value { result ≡ record {
          ahead = pos 0;
          behind = pos 0;
          lean = base_lean_of base.now large;
        } }
    {
        Line {
            ahead: 0,
            behind: 0,
            lean: Lean::of(base, large),
        }
    }

    /// With one pair more, and the space after scripts.
    #[tactic(auto, using(fixed_units::proofs::Signed::from_bits), unfolding(crate::specs::Along::past_of))]
    fn past(&self, pair: &Pair, space: i64) -> Line
        requires line_in { IsLineWithin (2 ^ 50) self.now }
        requires fits { IsPairStored pair.now }
        requires space_in { IsWithin (2 ^ 32) space }
        ensures { result ≡ past_of space self.now pair.now }
    {
        let taken = space + self.lean.room(pair);
        if pair.before {
            Line {
                ahead: self.ahead + taken,
                ..*self
            }
        } else {
            Line {
                ahead: self.ahead,
                behind: self.behind + taken,
                lean: UPRIGHT,
            }
        }
    }

    /// Where the room of the next pair begins, with the base's end there.
    #[tactic(auto, using(fixed_units::proofs::Signed::from_bits), unfolding(crate::specs::Along::room_x_of))]
    fn room_x(&self, pair: &Pair, space: i64, end: i64) -> i64
        requires line_in { IsLineWithin (2 ^ 50) self.now }
        requires space_in { IsWithin (2 ^ 32) space }
        requires end_in { IsWithin (2 ^ 51) end }
        ensures value { result ≡ room_x_of space end self.now pair.now }
        ensures within { IsWithin (2 ^ 52) result }
    {
        if pair.before {
            self.ahead + space
        } else {
            end + self.behind
        }
    }

    /// Where its subscript begins.
    fn sub_x(&self, pair: &Pair, space: i64, end: i64) -> i64
        requires line_in { IsLineWithin (2 ^ 50) self.now }
        requires fits { IsPairStored pair.now }
        requires space_in { IsWithin (2 ^ 32) space }
        requires end_in { IsWithin (2 ^ 51) end }
        ensures { result ≡ room_x_of space end self.now pair.now
            +ℤ sub_start_of self.now.lean pair.now }
    {
        self.room_x(pair, space, end) + self.lean.sub_start(pair)
    }

    /// Where its superscript begins.
    fn sup_x(&self, pair: &Pair, space: i64, end: i64) -> i64
        requires line_in { IsLineWithin (2 ^ 50) self.now }
        requires fits { IsPairStored pair.now }
        requires space_in { IsWithin (2 ^ 32) space }
        requires end_in { IsWithin (2 ^ 51) end }
        ensures { result ≡ room_x_of space end self.now pair.now
            +ℤ sup_start_of self.now.lean pair.now }
    {
        self.room_x(pair, space, end) + self.lean.sup_start(pair)
    }
}

/// How far all pairs reach.
pub fn line_of(base: &MathBox, large: bool, pairs: &[Pair], space: i64) -> Line
    requires few { length pairs.now ≤ 65_536 }
    requires base_fits { IsStored base.now }
    requires fit { All IsPairStored pairs.now }
    requires space_in { IsWithin (2 ^ 32) space }
    ensures value { result ≡ line_at space base.now large pairs.now (length pairs.now) }
    ensures within { IsLineWithin (2 ^ 50) result }
{
    let mut line = Line::start(base, large);
    for pair in pairs {
        line = line.past(pair, space);
    }
    line
}

/// The places of subscripts, and those of superscripts.
#[derive(Debug, Drop)]
pub struct Spots {
    pub subs: List<Spot>,
    pub sups: List<Spot>,
}

/// Where the scripts of all pairs stand, with the base's end there.
pub fn place_pairs(
    alloc: Global,
    base: &MathBox,
    large: bool,
    pairs: &[Pair],
    space: i64,
    end: i64,
    shifts: &Shifts,
) -> Result<Spots, Memory>
    requires few { length pairs.now ≤ 65_536 }
    requires base_fits { IsStored base.now }
    requires fit { All IsPairStored pairs.now }
    requires space_in { IsWithin (2 ^ 32) space }
    requires end_in { IsWithin (2 ^ 51) end }
    requires up_in { IsWithin (2 ^ 40) shifts.now.up }
    requires down_in { IsWithin (2 ^ 40) shifts.now.down }
    ensures subs { IfOk result (λ spots. spots.subs
        ≡ sub_spots_of space end base.now large pairs.now shifts.now.down (length pairs.now)) }
    ensures sups { IfOk result (λ spots. spots.sups
        ≡ sup_spots_of space end base.now large pairs.now shifts.now.up (length pairs.now)) }
{
    let mut subs = List::make(alloc);
    let mut sups = List::make(alloc);
    let mut line = Line::start(base, large);
    for pair in pairs {
        subs.push(Spot {
            x: line.sub_x(pair, space, end),
            y: shifts.down,
        })?;
        sups.push(Spot {
            x: line.sup_x(pair, space, end),
            y: -shifts.up,
        })?;
        line = line.past(pair, space);
    }
    Ok(Spots { subs, sups })
}
