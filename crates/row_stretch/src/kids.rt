ghost use Rattle.std.specs.Prelude.{◌≡◌, ◌<◌, length, List as Sequence};
ghost use Rattle.row_stretch.specs.Equation.{kid_at};
ghost use Rattle.row_stretch.specs.declared.parts.RowKid.{RowKid};

use crate::parts::RowKid;
use fixed_units::List;

/// The children of a row that are laid out, in order. They needn't stand in a list of their own.
pub trait RowKids {
    /// What they are.
    ghost kids: { Self → Sequence RowKid };

    /// How many there are.
    fn kid_count(&self) -> usize
        ensures { result ≡ length (kids self.now) };

    /// The child at a place, counted from 0.
    fn kid_at(&self, place: usize) -> RowKid
        requires { place < length (kids self.now) }
        ensures { result ≡ kid_at (kids self.now) place };
}

impl RowKids for List<RowKid> {
    ghost kids = { λ kids. kids };

    fn kid_count(&self) -> usize {
        self.len()
    }

    fn kid_at(&self, place: usize) -> RowKid {
        self.as_slice()[place]
    }
}
