/// What stretches an element: to where its parent asks it to reach (MathML Core 3.2.4.3,
/// "Layout of Operators"). Lengths are in units of 1/1024 px.
#[derive(Clone, Copy, Debug, PartialEq, Eq)]
pub enum Pull {
    /// Nothing: it keeps its own size.
    Free,
    /// Upward and downward: the ascent and the descent that it is to cover.
    Block(i64, i64),
    /// To the sides: the width that it is to cover.
    Inline(i64),
}
