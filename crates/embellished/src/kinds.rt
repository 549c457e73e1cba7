// Groups of kinds, as the definitions name them (MathML Core 3).
ghost use Rattle.std.specs.Prelude.{◌≡◌};
ghost use Rattle.embellished.specs.Kinds as spec;

use math_tree::Kind;

/// An annotation, which is never in flow.
pub fn is_annotation(kind: Kind) -> bool
    ensures { result ≡ spec.is_annotation kind }
{
    matches!(kind, Kind::Annotation | Kind::AnnotationXml)
}

/// The mark between the scripts behind a base and those before it.
pub fn is_prescripts_mark(kind: Kind) -> bool
    ensures { result ≡ spec.is_prescripts_mark kind }
{
    matches!(kind, Kind::Mprescripts)
}

/// Whether an element of this kind is embellished where its first child is.
pub fn is_led_by_its_base(kind: Kind) -> bool
    ensures { result ≡ spec.is_led_by_its_base kind }
{
    matches!(kind, Kind::Mfrac) || kind.is_scripted()
}

/// A grouping element: a row without an equation of its own, or `merror`.
pub fn is_grouping(kind: Kind) -> bool
    ensures { result ≡ spec.is_grouping kind }
{
    matches!(
        kind,
        Kind::Maction
            | Kind::Math
            | Kind::Merror
            | Kind::Mphantom
            | Kind::Mprescripts
            | Kind::Mrow
            | Kind::Mstyle
            | Kind::Semantics
            | Kind::Unknown
    )
}

/// An element that is space-like or embellished by all its children in flow.
pub fn is_judged_by_all(kind: Kind) -> bool
    ensures { result ≡ spec.is_judged_by_all kind }
{
    matches!(kind, Kind::Mpadded) || is_grouping(kind)
}

/// An element whose first and last operators are fences. Own choice: `mtd` is one.
pub fn has_fences(kind: Kind) -> bool
    ensures { result ≡ spec.has_fences kind }
{
    matches!(kind, Kind::Msqrt | Kind::Mtd) || is_judged_by_all(kind)
}

/// An element that is space-like by itself.
pub fn is_blank(kind: Kind) -> bool
    ensures { result ≡ spec.is_blank kind }
{
    matches!(kind, Kind::Mspace | Kind::Mtext)
}

/// An element of which only the first child may be in flow.
pub fn shows_its_first(kind: Kind) -> bool
    ensures { result ≡ spec.shows_its_first kind }
{
    matches!(kind, Kind::Maction | Kind::Semantics)
}

/// An element of which no child is in flow.
pub fn shows_none(kind: Kind) -> bool
    ensures { result ≡ spec.shows_none kind }
{
    kind.is_text() || matches!(kind, Kind::AnnotationXml | Kind::Mspace)
}
