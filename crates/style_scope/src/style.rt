use math_tree::Kind;

/// How an element is laid out. It comes with a base size of 0 to 2^62 units and depths of at most
/// 15.
#[derive(Clone, Copy, Debug, PartialEq, Eq)]
pub struct Style {
    /// The size that was given last, in units.
    pub base: i64,
    /// The depth at which it was given.
    pub base_depth: u8,
    /// The level of scripts (MathML Core 4.3, `math-depth`).
    pub depth: u8,
    /// Whether it is set in display style (4.4, `math-style: normal`).
    pub display: bool,
    /// Whether scripts are raised less (4.5, `math-shift: compact`).
    pub cramped: bool,
    /// Whether it is laid out from right to left (HTML's `dir`).
    pub rtl: bool,
}

/// Where a child stands in its parent.
#[derive(Clone, Copy, Debug, PartialEq, Eq)]
pub struct Place {
    /// The parent's kind, by its name.
    pub parent: Kind,
    /// Its place among the children in flow, from 0.
    pub index: u32,
    /// Whether the parent says that what stands above is an accent.
    pub accent: bool,
    /// Whether it says so of what stands below.
    pub accentunder: bool,
    /// Whether the child is a subscript of a valid `mmultiscripts`.
    pub subscript: bool,
}
