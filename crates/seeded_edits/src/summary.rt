ghost use Rattle.std.specs.Prelude.{◌≡◌, Some};
ghost use Rattle.seeded_edits.specs.Summary.{box_count};

use box_writer::{Placed, PlacedItem};
use fixed_units::MathBox;
use std::fmt;
use std::fmt::{Display, Formatter};

/// What came of generated edits. It is printed as six lines.
#[derive(Clone, Copy, Debug, PartialEq, Eq)]
pub struct Summary {
    /// How many edits there were.
    pub edits: u32,
    /// How many of them were accepted.
    pub accepted: u32,
    /// The box of the last tree's root, in units (1/1024 px).
    pub root: MathBox,
    /// How many boxes stand on the page of the last tree.
    pub boxes: usize,
}

impl Display for Summary {
    ghost use Rattle.seeded_edits.specs.Summary.{lines_of};

    ghost output = { λ told. Some (lines_of told) };

    #[tactic(auto, unfolding(crate::specs::Summary::lines_of))]
    fn fmt<W: fmt::Write>(&self, f: &mut Formatter<W>) -> fmt::Result {
        writeln!(f, "edits {}", self.edits)?;
        writeln!(f, "ok {}", self.accepted)?;
        writeln!(f, "width {}", self.root.width)?;
        writeln!(f, "ascent {}", self.root.ascent)?;
        writeln!(f, "descent {}", self.root.descent)?;
        writeln!(f, "boxes {}", self.boxes)
    }
}

/// How many boxes stand on a page, without its marks.
pub fn count_boxes(page: &Placed) -> usize
    ensures { result ≡ box_count page.now }
{
    page.items
        .as_slice()
        .iter()
        .filter(|item| matches!(item, PlacedItem::Frame(_)))
        .count()
}
