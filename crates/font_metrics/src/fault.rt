ghost use Rattle.std.specs.Prelude.{◌≡◌};
ghost use Rattle.font_metrics.specs.Faults.{number_of_fault};

/// What is wrong with a line of a metrics file, in the order in which a line's faults are looked
/// for; its fields come from left to right.
#[derive(Clone, Copy, PartialEq, Eq)]
pub enum LineFault {
    /// A byte other than a tab and those from space to tilde, in a line that is no comment.
    ForeignByte,
    /// The first line isn't the word `mathlay-metrics` and `1` or `2`.
    WrongFirstLine,
    /// The first word isn't that of a kind of line.
    UnknownWord,
    /// The line has more or fewer fields than its kind.
    FieldCount,
    /// A field isn't a number or a code in its form.
    NotANumber,
    /// A number or a code is out of its range.
    OutOfRange,
    /// A name isn't in its form, or a word is none of its choice.
    WrongWord,
    /// No line before names the glyph, or no constant has the name.
    NotNamed,
    /// A line before gives it already.
    Repeated,
    /// One glyph too many, or one entry too many of a glyph in a table.
    TooMany,
    /// A height of a kern isn't above the one before it.
    NotRising,
    /// The file ended without `upem`.
    NoUpem,
    /// The file ended without `line`.
    NoLine,
    /// The file ended without `xheight`.
    NoXHeight,
    /// The file ended without the glyph `missing`.
    NoMissing,
}

impl LineFault {
    /// The number under which a user is told.
    pub fn number(self) -> u8
        ensures { result ≡ number_of_fault self }
    {
        match self {
            LineFault::ForeignByte => 1,
            LineFault::WrongFirstLine => 2,
            LineFault::UnknownWord => 3,
            LineFault::FieldCount => 4,
            LineFault::NotANumber => 5,
            LineFault::OutOfRange => 6,
            LineFault::WrongWord => 7,
            LineFault::NotNamed => 8,
            LineFault::Repeated => 9,
            LineFault::TooMany => 10,
            LineFault::NotRising => 15,
            LineFault::NoUpem => 11,
            LineFault::NoLine => 12,
            LineFault::NoXHeight => 13,
            LineFault::NoMissing => 14,
        }
    }
}
