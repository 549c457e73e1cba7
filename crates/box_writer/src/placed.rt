ghost use Rattle.std.specs.Prelude.{◌≡◌, ◌^◌, ◌+ℤ◌, [], ◌∷◌, ◌++◌, OnOk, OnErr};
ghost use Rattle.fixed_units.specs.Numbers.{IsWithin};
ghost use Rattle.box_writer.specs.Items.{box_of, moved, x_of, y_of};
ghost use Rattle.box_writer.specs.declared.placed.PlacedItem.TheVariants.{Drawn};

use fixed_units::{List, MathBox, Memory, Txt};
use font_metrics::Mark;
use math_tree::{Head, NodeId};
use std::alloc::Global;
use std::marker::Model;

/// An element's box where it stands: `x` and `y` are its baseline's start, in units (1/1024 px), to
/// the right of and below that of the root.
#[derive(Debug, Drop)]
pub struct PlacedBox {
    pub id: NodeId,
    pub name: Txt,
    pub x: i64,
    pub y: i64,
    pub frame: MathBox,
}

/// What stands on the page: an element's box, or a mark that is drawn.
#[derive(Debug, Drop)]
pub enum PlacedItem {
    Frame(PlacedBox),
    Drawn(Mark),
}

/// What stands on the page, in the order in which it is written. Contracts see the items.
#[derive(Debug, Drop)]
pub struct Placed {
    pub items: List<PlacedItem>,
}

impl Model for Placed {
    ghost use Rattle.std.specs.Prelude.{List as Sequence};
    ghost use Rattle.box_writer.specs.declared.placed.PlacedItem.{PlacedItem};

    ghost Value = { Sequence PlacedItem };

    ghost view = { λ placed. placed.items };
}

impl Placed {
    /// An empty page. It takes no memory.
    pub fn make(alloc: Global) -> Placed
        ensures { result ≡ [] }
    {
        Placed {
            items: List::make(alloc),
        }
    }

    /// Adds the box of an element, with its baseline's start at a place.
    pub fn add_box(
        &mut self,
        alloc: Global,
        head: &Head,
        x: i64,
        y: i64,
        frame: MathBox,
    ) -> Result<(), Memory>
        ensures ok { OnOk result (self.new ≡ self.old ++ box_of head.now x y frame ∷ []) }
        ensures err { OnErr result (self.new ≡ self.old) }
    {
        let name = head.name.copy(alloc)?;
        self.items.push(PlacedItem::Frame(PlacedBox {
            id: head.id,
            name,
            x,
            y,
            frame,
        }))
    }

    /// Adds a mark of an element that stands at a place, from which the mark's own place counts.
    pub fn add_mark(&mut self, mark: Mark, x: i64, y: i64) -> Result<(), Memory>
        requires right { IsWithin (2 ^ 40) x }
        requires down { IsWithin (2 ^ 40) y }
        requires mark_x { IsWithin (2 ^ 40) (x_of mark) }
        requires mark_y { IsWithin (2 ^ 40) (y_of mark) }
        ensures ok { OnOk result (self.new ≡ self.old ++ Drawn (moved x y mark) ∷ []) }
        ensures err { OnErr result (self.new ≡ self.old) }
    {
        self.items.push(PlacedItem::Drawn(moved(mark, x, y)))
    }
}

/// The same mark, so far to the right and so far down.
fn moved(mark: Mark, right: i64, down: i64) -> Mark
    requires right { IsWithin (2 ^ 40) right }
    requires down { IsWithin (2 ^ 40) down }
    requires mark_x { IsWithin (2 ^ 40) (x_of mark) }
    requires mark_y { IsWithin (2 ^ 40) (y_of mark) }
    ensures { result ≡ moved right down mark }
{
    match mark {
        Mark::Glyph { x, y, size, glyph } => Mark::Glyph {
            x: x + right,
            y: y + down,
            size,
            glyph,
        },
        Mark::Rule {
            x,
            y,
            width,
            height,
        } => Mark::Rule {
            x: x + right,
            y: y + down,
            width,
            height,
        },
        Mark::Built {
            x,
            y,
            size,
            axis,
            glyph,
            count,
            overlap,
        } => Mark::Built {
            x: x + right,
            y: y + down,
            size,
            axis,
            glyph,
            count,
            overlap,
        },
    }
}
