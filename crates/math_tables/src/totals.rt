ghost use Rattle.std.specs.Prelude.{◌≡◌, ◌≤◌, ◌^◌, length};
ghost use Rattle.std.specs.List.{All};
ghost use Rattle.fixed_units.specs.Numbers.{IsWithin};
ghost use Rattle.math_tables.specs.Placing.{HasHeights, IsColumn, most_columns, start_of, height_of, top_of};

use fixed_units::MathBox;

/// What columns take together, in units.
pub fn total_width(widths: &[i64]) -> i64
    requires few { length widths.now ≤ most_columns }
    requires within { All IsColumn widths.now }
    ensures value { result ≡ start_of widths.now (length widths.now) }
    ensures within { IsWithin (2 ^ 58) result }
{
    let mut total = 0;
    for width in widths {
        total += *width;
    }
    total
}

/// What rows take together, from the top of the first to the bottom of the last.
pub fn total_height(rows: &[MathBox]) -> i64
    requires few { length rows.now ≤ 65_536 }
    requires within { All HasHeights rows.now }
    ensures value { result ≡ top_of rows.now (length rows.now) }
    ensures within { IsWithin (2 ^ 61) result }
{
    let mut total = 0;
    for row in rows {
        total += height(row);
    }
    total
}

/// From the top of a row to its bottom.
pub fn height(row: &MathBox) -> i64
    requires { HasHeights row.now }
    ensures { result ≡ height_of row.now }
{
    row.ascent + row.descent
}
