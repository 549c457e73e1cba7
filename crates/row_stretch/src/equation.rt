ghost use Rattle.std.specs.Prelude.{◌≡◌, ◌^◌, length};
ghost use Rattle.std.specs.List.{All};
ghost use Rattle.row_stretch.specs.Equation.{ahead_of, advance_of, room_of, accent_of, with_kid, IsKidStored};

use crate::kids::RowKids;
use crate::parts::RowKid;
use fixed_units::{MathBox, half, join};

/// What stands ahead of a child: an operator's space where the row shows spaces, or else the italic
/// correction of the child before it.
#[tactic(auto, using(fixed_units::proofs::Signed::from_bits), unfolding(crate::specs::Equation::ahead_of))]
pub fn ahead(kid: &RowKid, italic: i64, spaces: bool) -> i64
    ensures { result ≡ ahead_of spaces italic kid.now }
{
    if !kid.embellished {
        italic
    } else if spaces {
        kid.before
    } else {
        0
    }
}

/// How far what follows a child stands from the child's start: its width, and the space after an
/// operator.
#[tactic(auto, using(fixed_units::proofs::Signed::from_bits), unfolding(crate::specs::Equation::advance_of))]
pub fn advance(kid: &RowKid, spaces: bool) -> i64
    requires { IsKidStored kid.now }
    ensures { result ≡ advance_of spaces kid.now }
{
    if kid.embellished && spaces {
        kid.frame.width + kid.after
    } else {
        kid.frame.width
    }
}

/// The box of the children before a place on one baseline, with the child there.
pub fn with_kid(all: &MathBox, place: usize, kid: &RowKid) -> MathBox
    ensures { result ≡ with_kid all.now place kid.now }
{
    if place == 0 {
        kid.frame
    } else {
        join(all, &kid.frame)
    }
}

/// A box without size.
pub const EMPTY: MathBox = MathBox {
    width: 0,
    ascent: 0,
    descent: 0,
    ink_ascent: 0,
    ink_descent: 0,
    italic: 0,
    accent: 0,
};

/// Where an accent is attached to a row of this width: as to its only child, else in the middle.
pub fn accent<K: RowKids>(kids: &K, spaces: bool, width: i64) -> i64
    requires fit { All IsKidStored (K.kids kids.now) }
    requires width_is { width ≡ room_of spaces (K.kids kids.now) (length (K.kids kids.now)) }
    ensures { result ≡ accent_of spaces (K.kids kids.now) }
{
    if kids.kid_count() == 1 {
        let kid = kids.kid_at(0);
        ahead(&kid, 0, spaces) + kid.frame.accent
    } else {
        half(width)
    }
}
