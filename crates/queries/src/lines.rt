//! The lines of answers. No call takes memory.
ghost use Rattle.std.specs.Prelude.{◌≡◌, ◌∷◌, [], codes};
ghost use Rattle.std.specs.Fmt.{decimal};
ghost use Rattle.doc_io.specs.Lines.{line};
ghost use Rattle.doc_io.specs.Pieces.{Puts};
ghost use Rattle.doc_io.specs.Whole.{WritesAll};
ghost use Rattle.queries.specs.Lines.{area_line, hit_line, lines_of_areas};

use doc_io::{Piece, ShortText, Sink, WriteFault};
use hit_test::Area;
use math_tree::NodeId;

/// Writes the lines of areas, in pieces of up to 16 KiB.
pub fn write_areas<O: Sink>(out: &mut O, areas: &[Area]) -> Result<(), WriteFault>
    ensures { WritesAll (O.told out.old) (O.told out.new) (lines_of_areas areas.now) result }
{
    let mut piece = Piece::new();
    for area in areas {
        put_area(&mut piece, out, area)?;
    }
    piece.send(out)
}

/// Puts the line of an area.
fn put_area<O: Sink>(piece: &mut Piece, out: &mut O, area: &Area) -> Result<(), WriteFault>
    ensures { Puts (O.told out.old) (O.told out.new) piece.old piece.new (area_line area.now)
        result }
{
    piece.put(out, area_line(area).as_str())
}

/// The line of an area.
#[tactic(auto, unfolding(crate::specs::Lines::area_line))]
fn area_line(area: &Area) -> ShortText
    ensures { result ≡ area_line area.now }
{
    let mut text = ShortText::numbered("area", &[area.x, area.y, area.width, area.height]);
    text.add("\n");
    text
}

/// The line of what was hit.
pub fn hit_line(hit: Option<NodeId>) -> ShortText
    ensures { result ≡ hit_line hit }
{
    match hit {
        Some(id) => element_line(id),
        None => ShortText::of("hit none\n"),
    }
}

/// The line of an element that was hit.
fn element_line(id: NodeId) -> ShortText
    ensures { result ≡ line (codes "hit") (decimal id.0 ∷ []) }
{
    let mut text = ShortText::of("hit");
    text.add_number(i64::from(id.0));
    text.add("\n");
    text
}
