use fixed_units::{List, MathBox};
use scripts::Spot;

/// A subscript and a superscript that stand one over the other, before the base or behind it. One
/// that is left out has the box of an empty row.
#[derive(Clone, Copy, Debug, PartialEq, Eq)]
pub struct Pair {
    pub sub: MathBox,
    pub sup: MathBox,
    /// Whether they are prescripts.
    pub before: bool,
}

/// A base with pairs of scripts that is laid out. The places of subscripts and of superscripts are
/// in the order of their pairs.
#[derive(Debug, Drop)]
pub struct Multi {
    pub frame: MathBox,
    pub base: Spot,
    pub subs: List<Spot>,
    pub sups: List<Spot>,
}
