ghost use Rattle.std.specs.Prelude.{◌≡◌};
ghost use Rattle.math_tree.specs.Kinds.{is_scripted, is_text_kind, kind_among, kind_of};

/// The kind of an element, which its name decides once, when the element is made (MathML Core 2.1
/// and 3). There is one for each known name.
#[derive(Clone, Copy, Debug, PartialEq, Eq)]
pub enum Kind {
    Annotation,
    AnnotationXml,
    Maction,
    Math,
    Merror,
    Mfrac,
    Mi,
    Mmultiscripts,
    Mn,
    Mo,
    Mover,
    Mpadded,
    Mphantom,
    Mprescripts,
    Mroot,
    Mrow,
    Ms,
    Mspace,
    Msqrt,
    Mstyle,
    Msub,
    Msubsup,
    Msup,
    Mtable,
    Mtd,
    Mtext,
    Mtr,
    Munder,
    Munderover,
    Semantics,
    /// Every other name.
    Unknown,
}

/// Each known name with its kind.
const KINDS: [(&str, Kind); 30] = [
    ("annotation", Kind::Annotation),
    ("annotation-xml", Kind::AnnotationXml),
    ("maction", Kind::Maction),
    ("math", Kind::Math),
    ("merror", Kind::Merror),
    ("mfrac", Kind::Mfrac),
    ("mi", Kind::Mi),
    ("mmultiscripts", Kind::Mmultiscripts),
    ("mn", Kind::Mn),
    ("mo", Kind::Mo),
    ("mover", Kind::Mover),
    ("mpadded", Kind::Mpadded),
    ("mphantom", Kind::Mphantom),
    ("mprescripts", Kind::Mprescripts),
    ("mroot", Kind::Mroot),
    ("mrow", Kind::Mrow),
    ("ms", Kind::Ms),
    ("mspace", Kind::Mspace),
    ("msqrt", Kind::Msqrt),
    ("mstyle", Kind::Mstyle),
    ("msub", Kind::Msub),
    ("msubsup", Kind::Msubsup),
    ("msup", Kind::Msup),
    ("mtable", Kind::Mtable),
    ("mtd", Kind::Mtd),
    ("mtext", Kind::Mtext),
    ("mtr", Kind::Mtr),
    ("munder", Kind::Munder),
    ("munderover", Kind::Munderover),
    ("semantics", Kind::Semantics),
];

impl Kind {
    /// The kind that a name decides. Names are compared exactly.
    pub fn of_name(name: &str) -> Kind
        ensures { result ≡ kind_of name.now }
    {
        kind_among(&KINDS, name)
    }

    /// Whether elements of this kind have a text and no children. All others may have children
    /// and no text.
    pub fn is_text(self) -> bool
        ensures { result ≡ is_text_kind self }
    {
        matches!(
            self,
            Kind::Annotation | Kind::Mi | Kind::Mn | Kind::Mo | Kind::Ms | Kind::Mtext
        )
    }

    /// Whether elements of this kind have scripts or limits (MathML Core 3.4).
    pub fn is_scripted(self) -> bool
        ensures { result ≡ is_scripted self }
    {
        matches!(
            self,
            Kind::Msub
                | Kind::Msup
                | Kind::Msubsup
                | Kind::Munder
                | Kind::Mover
                | Kind::Munderover
                | Kind::Mmultiscripts
        )
    }
}

/// The kind in the first of these rows that has the name.
#[tactic(auto, unfolding(crate::specs::Kinds::kind_among))]
fn kind_among(rows: &[(&str, Kind)], name: &str) -> Kind
    ensures { result ≡ kind_among rows.now name.now }
{
    for (known, kind) in rows {
        if *known == name {
            return *kind;
        }
    }
    Kind::Unknown
}
