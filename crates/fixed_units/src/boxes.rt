ghost use Rattle.std.specs.Prelude.{◌≡◌, ◌↔◌, ◌^◌, IsTrue};
ghost use Rattle.fixed_units.specs.Boxes.{is_stored, is_box_stored, IsStored, IsBoxWithin, raised, joined, all_joined};
ghost use Rattle.fixed_units.specs.Numbers.{IsWithin};

/// The box of an element: what the layout of its parent knows of its size.
///
/// All lengths are in units of 1/1024 px. Ascents count upward from the baseline and descents
/// downward, so that each of them may be negative (MathML Core 3.1.1, "Box Model").
#[derive(Clone, Copy, Debug, PartialEq, Eq)]
pub struct MathBox {
    /// The inline size: how far behind the start of this box the next one stands.
    pub width: i64,
    /// The line ascent, by which rows and lines are set.
    pub ascent: i64,
    /// The line descent.
    pub descent: i64,
    /// The ink line ascent: how high the ink itself reaches.
    pub ink_ascent: i64,
    /// The ink line descent.
    pub ink_descent: i64,
    /// The italic correction: how far the ink leans out at the end.
    pub italic: i64,
    /// The top accent attachment, from the start of the box.
    pub accent: i64,
}

/// Whether all seven fields lie in the stored range, -2^30 to 2^30 units.
pub fn fits(frame: &MathBox) -> bool
    ensures value { result ≡ is_box_stored frame.now }
    ensures exactly { IsTrue result ↔ IsStored frame.now }
{
    is_stored(frame.width)
        & is_stored(frame.ascent)
        & is_stored(frame.descent)
        & is_stored(frame.ink_ascent)
        & is_stored(frame.ink_descent)
        & is_stored(frame.italic)
        & is_stored(frame.accent)
}

/// The farthest that a stored number reaches, on both sides of 0.
const FARTHEST: i64 = 1 << 30;

/// Whether a number can be stored: it lies in -2^30 to 2^30 units.
#[tactic(auto, unfolding(crate::specs::Boxes::is_stored))]
pub fn is_stored(number: i64) -> bool
    ensures { result ≡ is_stored number }
{
    (-FARTHEST <= number) & (number <= FARTHEST)
}

/// A box as measured from a baseline that lies `height` below its own: it reaches that much farther
/// up, and that much less far down.
pub fn raise(part: &MathBox, height: i64) -> MathBox
    requires part_in { IsBoxWithin (2 ^ 61) part.now }
    requires height_in { IsWithin (2 ^ 61) height }
    ensures { result ≡ raised part.now height }
{
    MathBox {
        width: part.width,
        ascent: part.ascent + height,
        descent: part.descent - height,
        ink_ascent: part.ink_ascent + height,
        ink_descent: part.ink_descent - height,
        italic: part.italic,
        accent: part.accent,
    }
}

/// Two boxes on one baseline: the larger of each measure up and down. Width, italic correction and
/// accent are those of the first.
pub fn join(first: &MathBox, second: &MathBox) -> MathBox
    ensures { result ≡ joined first.now second.now }
{
    MathBox {
        width: first.width,
        ascent: first.ascent.max(second.ascent),
        descent: first.descent.max(second.descent),
        ink_ascent: first.ink_ascent.max(second.ink_ascent),
        ink_descent: first.ink_descent.max(second.ink_descent),
        italic: first.italic,
        accent: first.accent,
    }
}

/// All boxes of a list on one baseline, as `join` has it; without any, a box of zeros.
pub fn join_all(frames: &[MathBox]) -> MathBox
    ensures { result ≡ all_joined frames.now }
{
    let Some((first, others)) = frames.split_first() else {
        return EMPTY;
    };
    let mut all = *first;
    for frame in others {
        all = join(&all, frame);
    }
    all
}

/// A box without size.
const EMPTY: MathBox = MathBox {
    width: 0,
    ascent: 0,
    descent: 0,
    ink_ascent: 0,
    ink_descent: 0,
    italic: 0,
    accent: 0,
};
