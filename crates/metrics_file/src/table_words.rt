ghost use Rattle.std.specs.Prelude.{◌≡◌};
ghost use Rattle.font_metrics.specs.Tables.{slot};
ghost use Rattle.font_metrics.specs.Texts.{variant_keyword, part_keyword};

use font_metrics::{Corner, Table};
use op_dictionary::Axis;

/// Each table, in the order in which a glyph's lines are printed.
pub const TABLES: [Table; 8] = [
    Table::Variants(Axis::Block),
    Table::Variants(Axis::Inline),
    Table::Parts(Axis::Block),
    Table::Parts(Axis::Inline),
    Table::Kerns(Corner::TopRight),
    Table::Kerns(Corner::TopLeft),
    Table::Kerns(Corner::BottomRight),
    Table::Kerns(Corner::BottomLeft),
];

/// The first word of a table's lines.
pub fn table_keyword(table: Table) -> &'static str
    ensures { result.now ≡ (slot table).keyword }
{
    match table {
        Table::Variants(axis) => variant_keyword(axis),
        Table::Parts(axis) => part_keyword(axis),
        Table::Kerns(_) => "kern",
    }
}

fn variant_keyword(axis: Axis) -> &'static str
    ensures { result.now ≡ variant_keyword axis }
{
    match axis {
        Axis::Block => "vvariant",
        Axis::Inline => "hvariant",
    }
}

fn part_keyword(axis: Axis) -> &'static str
    ensures { result.now ≡ part_keyword axis }
{
    match axis {
        Axis::Block => "vassembly",
        Axis::Inline => "hassembly",
    }
}
