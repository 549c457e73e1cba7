ghost use Rattle.std.specs.Prelude.{◌≡◌};
ghost use Rattle.metrics_file.specs.Lines.{keyword_of, known_in};

use crate::choices::choice_of;
use op_dictionary::Axis;

/// The first word of a line, which says what its fields are.
#[derive(Clone, Copy)]
pub enum Keyword {
    /// `upem`
    Upem,
    /// `line`
    Line,
    /// `xheight`
    XHeight,
    /// `overlap`
    Overlap,
    /// `const`
    Constant,
    /// `glyph`
    Glyph,
    /// `char`
    Char,
    /// `vvariant`, `hvariant`: a variant along an axis.
    Variants(Axis),
    /// `vassembly`, `hassembly`: a part along an axis.
    Parts(Axis),
    /// `kern`
    Kern,
    /// `operator`
    Operator,
    /// Any other word.
    Unknown,
}

/// The first words of all lines but the first.
const KEYWORDS: [(&str, Keyword); 13] = [
    ("upem", Keyword::Upem),
    ("line", Keyword::Line),
    ("xheight", Keyword::XHeight),
    ("overlap", Keyword::Overlap),
    ("const", Keyword::Constant),
    ("glyph", Keyword::Glyph),
    ("char", Keyword::Char),
    ("vvariant", Keyword::Variants(Axis::Block)),
    ("hvariant", Keyword::Variants(Axis::Inline)),
    ("vassembly", Keyword::Parts(Axis::Block)),
    ("hassembly", Keyword::Parts(Axis::Inline)),
    ("kern", Keyword::Kern),
    ("operator", Keyword::Operator),
];

/// What the first word of a line says; words are compared exactly.
pub fn keyword_of(word: &[u8]) -> Keyword
    ensures { result ≡ keyword_of word.now }
{
    match choice_of(word, &KEYWORDS) {
        Some(keyword) => keyword,
        None => Keyword::Unknown,
    }
}

impl Keyword {
    /// The same in a file of this version: the first knows no kerns.
    pub fn known_in(self, version: u8) -> Keyword
        ensures { result ≡ known_in version self }
    {
        match self {
            Keyword::Kern if version < 2 => Keyword::Unknown,
            keyword => keyword,
        }
    }
}
