/// How many columns a cell may span.
pub const MOST_COLUMNS: u32 = 64;

/// How many rows a cell may span.
pub const MOST_ROWS: u32 = 1000;

/// How many columns and rows a cell spans, and how high it is.
///
/// Lengths are in units of 1/1024 px.
#[derive(Clone, Copy, Debug)]
pub struct CellSpan {
    /// 1 to `MOST_COLUMNS`.
    pub columns: u32,
    /// 1 to `MOST_ROWS`.
    pub rows: u32,
    pub ascent: i64,
    pub descent: i64,
}

/// A cell of a row: its width in units, and what it spans.
#[derive(Clone, Copy, Debug)]
pub struct SpanCell {
    pub width: i64,
    pub span: CellSpan,
}

/// How far a row reaches above its baseline and below it, in units.
#[derive(Clone, Copy, Debug)]
pub struct RowHeight {
    pub ascent: i64,
    pub descent: i64,
}
