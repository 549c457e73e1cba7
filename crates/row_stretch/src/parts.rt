use fixed_units::{List, MathBox, Pull};
use op_dictionary::Axis;

/// What is known of a child before it is laid out: the axis along which it stretches, if it does.
#[derive(Clone, Copy, Debug, PartialEq, Eq)]
pub struct KidPull {
    pub axis: Option<Axis>,
}

/// A question: the child at a place, counted from 0, is laid out with a pull.
#[derive(Clone, Copy, Debug, PartialEq, Eq)]
pub struct Ask {
    pub kid: u32,
    pub pull: Pull,
}

/// A child that is laid out. The spaces are those of an operator, in units (1/1024 px).
#[derive(Clone, Copy, Debug, PartialEq, Eq)]
pub struct RowKid {
    pub frame: MathBox,
    /// The space before it, where it is embellished.
    pub before: i64,
    /// The space after it, where it is embellished.
    pub after: i64,
    /// Whether it is an embellished operator.
    pub embellished: bool,
}

/// A row that is laid out: its box, and the offset of each child from the row's start, in units.
#[derive(Debug, Drop)]
pub struct Row {
    pub frame: MathBox,
    pub offsets: List<i64>,
}
