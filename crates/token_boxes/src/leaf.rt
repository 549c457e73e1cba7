ghost use Rattle.std.specs.Prelude.{◌≡◌, IfOk, [], ◌∷◌};
ghost use Rattle.fixed_units.specs.Boxes.{empty_box};
ghost use Rattle.token_boxes.specs.Token.{leaf, leaf_of};

use fixed_units::{List, MathBox, Memory};
use font_metrics::Mark;
use std::alloc::Global;

/// A leaf that is laid out: its box, the spaces before and after an operator, and what is drawn, in
/// the order of its characters. Lengths are in units of 1/1024 px.
#[derive(Debug, Drop)]
pub struct Leaf {
    pub frame: MathBox,
    /// The space before an operator, else 0.
    pub before: i64,
    /// The space after an operator, else 0.
    pub after: i64,
    pub marks: List<Mark>,
}

/// One mark, and the box round it.
#[derive(Clone, Copy, Debug)]
pub struct Drawn {
    pub frame: MathBox,
    pub mark: Mark,
}

impl Leaf {
    /// A leaf without spaces.
    pub(crate) fn unspaced(frame: MathBox, marks: List<Mark>) -> Leaf
        ensures { result ≡ leaf frame marks }
    {
        Leaf {
            frame,
            before: 0,
            after: 0,
            marks,
        }
    }

    /// A leaf of one mark.
    pub(crate) fn of_drawn(alloc: Global, drawn: Drawn) -> Result<Leaf, Memory>
        ensures { IfOk result (λ made. made ≡ leaf_of drawn) }
    {
        let mut marks = List::make(alloc);
        marks.push(drawn.mark)?;
        Ok(Leaf::unspaced(drawn.frame, marks))
    }

    /// What shows nothing.
    pub(crate) fn empty(alloc: Global) -> Leaf
        ensures { result ≡ leaf empty_box [] }
    {
        let nothing = MathBox {
            width: 0,
            ascent: 0,
            descent: 0,
            ink_ascent: 0,
            ink_descent: 0,
            italic: 0,
            accent: 0,
        };
        Leaf::unspaced(nothing, List::make(alloc))
    }
}
