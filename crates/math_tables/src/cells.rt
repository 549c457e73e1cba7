ghost use Rattle.std.specs.Prelude.{◌≡◌, ◌^◌, pos, ◌≤ℤ◌};
ghost use Rattle.fixed_units.specs.Boxes.{IsBoxWithin};
ghost use Rattle.fixed_units.specs.Numbers.{IsWithin};
ghost use Rattle.font_metrics.specs.Metrics.{ex_of};
ghost use Rattle.math_tables.specs.Cells.{cell_start_of, cell_rise_of, cell_of};

use fixed_units::{MathBox, Ratio, half, round};
use font_metrics::Metrics;

/// The box of a cell round its row: the padding is 0.4em at both sides, and 0.5ex above and below
/// (MathML Core, style sheet, `mtd`). Ink is that of the row.
///
/// Lengths are in units of 1/1024 px, and `size` is the font size of the cell.
pub fn cell(row: &MathBox, size: i64, metrics: &Metrics) -> MathBox
    requires row_in { IsBoxWithin (2 ^ 50) row.now }
    requires size_low { pos 0 ≤ℤ size }
    requires size_high { size ≤ℤ pos (2 ^ 20) }
    ensures { result ≡ cell_of metrics.now row.now size }
{
    let rise = cell_rise(metrics.ex(size));
    let width = row.width + 2 * cell_start(size);
    MathBox {
        width,
        ascent: row.ascent + rise,
        descent: row.descent + rise,
        ink_ascent: row.ink_ascent,
        ink_descent: row.ink_descent,
        italic: 0,
        accent: half(width),
    }
}

/// Where the row of a cell begins, from the cell's start: 0.4em.
pub fn cell_start(size: i64) -> i64
    requires size_low { pos 0 ≤ℤ size }
    requires size_high { size ≤ℤ pos (2 ^ 20) }
    ensures value { result ≡ cell_start_of size }
    ensures within { IsWithin (2 ^ 21) result }
{
    round(Ratio {
        num: i128::from(2 * size),
        den: 5,
    })
}

/// How far a cell reaches above its row, and below it: 0.5ex.
fn cell_rise(ex: i64) -> i64
    requires ex_in { IsWithin (2 ^ 32) ex }
    ensures value { result ≡ cell_rise_of ex }
    ensures within { IsWithin (2 ^ 32) result }
{
    round(Ratio {
        num: i128::from(ex),
        den: 2,
    })
}
