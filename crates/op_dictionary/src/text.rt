ghost use Rattle.std.specs.Prelude.{◌≡◌};
ghost use Rattle.op_dictionary.specs.Pairs.{is_short, base_text};

/// The text of an operator, as far as the dictionary tells texts apart (MathML Core, B.1).
#[derive(Clone, Copy, Debug, PartialEq, Eq, Hash)]
pub enum OpText {
    /// No character.
    Empty,
    /// One character.
    One(char),
    /// Two characters of at most U+FFFF each.
    Two(char, char),
    /// Any other text.
    Other,
}

impl OpText {
    /// Whether the text has one character or two: no other is in the dictionary.
    pub(crate) fn is_short(self) -> bool
        ensures { result ≡ is_short self }
    {
        matches!(self, OpText::One(_) | OpText::Two(_, _))
    }

    /// The text without an overlay: the dictionary has a struck character as that character.
    pub(crate) fn base(self) -> OpText
        ensures { result ≡ base_text self }
    {
        match self {
            // COMBINING LONG SOLIDUS OVERLAY, COMBINING LONG VERTICAL LINE OVERLAY
            OpText::Two(letter, '\u{0338}' | '\u{20D2}') => OpText::One(letter),
            text => text,
        }
    }
}
