ghost use Rattle.std.specs.Prelude.{◌≡◌, ◌<◌, ◌+◌, ◌*◌, ◌^◌, ◌≤ℤ◌, pos, length, chars, string_bytes, IfOk, IfSome, [], ◌∷◌};
ghost use Rattle.std.specs.List.{reduce};
ghost use Rattle.fixed_units.specs.Boxes.{IsBoxWithin};
ghost use Rattle.fixed_units.specs.Numbers.{IsWithin};
ghost use Rattle.token_boxes.specs.Letters.{is_token, lone, shown_letter};
ghost use Rattle.token_boxes.specs.Token.{IsLeaf, token_of, token_glyph_of, lone_letter, word_leaf, word_frame_of, on_line, further, also_inked};

use crate::italics::slanted;
use crate::leaf::{Drawn, Leaf};
use embellished::shown_text;
use fixed_units::{List, MathBox, Memory, half, join};
use font_metrics::{GlyphId, Mark, Metrics};
use glyph_assembly::glyph_frame;
use math_tree::{Head, Kind};
use std::alloc::Global;

/// A token at a font size: the glyphs of its text side by side (MathML Core 3.2.1.1, "Layout of
/// `<mtext>`"). A character without a glyph shows `missing`.
#[tactic(auto, using(fixed_units::proofs::Signed::from_bits), unfolding(crate::specs::Token::token_of))]
pub fn token(alloc: Global, head: &Head, size: i64, metrics: &Metrics) -> Result<Leaf, Memory>
    requires size_low { pos 0 ≤ℤ size }
    requires size_high { size ≤ℤ pos (2 ^ 20) }
    ensures { IfOk result (IsLeaf (token_of metrics.now head.now size)) }
{
    let text = shown_text(alloc, head.text.as_str())?;
    match lone(text.as_str()) {
        Some(letter) => {
            let shown = slanted(head, letter);
            Leaf::of_drawn(alloc, lone_letter(shown, size, metrics))
        }
        None => word_leaf(alloc, text.as_str(), size, metrics),
    }
}

/// The glyph of an `mi`, `mn`, `ms` or `mtext` that shows one character; of any other element there
/// is none. What it takes of memory it gives back.
#[tactic(auto, using(fixed_units::proofs::Signed::from_bits), unfolding(crate::specs::Token::token_glyph_of))]
pub fn token_glyph(alloc: Global, head: &Head, metrics: &Metrics) -> Result<Option<GlyphId>, Memory>
    ensures value { IfOk result (λ glyph. glyph ≡ token_glyph_of metrics.now head.now) }
    ensures within { IfOk result (λ glyph. IfSome glyph (λ g. g.0 < length metrics.now.glyphs)) }
{
    match shown_letter(alloc, head)? {
        Some(letter) => Ok(Some(metrics.glyph_of(letter))),
        None => Ok(None),
    }
}

/// The one character that a token shows, where it shows just one.
fn shown_letter(alloc: Global, head: &Head) -> Result<Option<char>, Memory>
    ensures { IfOk result (λ letter. letter ≡ shown_letter head.now) }
{
    if !is_token(head.kind) {
        return Ok(None);
    }
    let text = shown_text(alloc, head.text.as_str())?;
    match lone(text.as_str()) {
        Some(letter) => Ok(Some(slanted(head, letter))),
        None => Ok(None),
    }
}

fn is_token(kind: Kind) -> bool
    ensures { result ≡ is_token kind }
{
    matches!(kind, Kind::Mi | Kind::Mn | Kind::Ms | Kind::Mtext)
}

/// The only character of a text, where it has just one.
pub fn lone(text: &str) -> Option<char>
    ensures { result ≡ lone (chars text.now) }
{
    let mut letters = text.chars();
    let first = letters.next()?;
    match letters.next() {
        Some(_) => None,
        None => Some(first),
    }
}

/// One character: it keeps its glyph's italic correction and accent.
pub fn lone_letter(letter: char, size: i64, metrics: &Metrics) -> Drawn
    requires size_low { pos 0 ≤ℤ size }
    requires size_high { size ≤ℤ pos (2 ^ 20) }
    ensures { result ≡ lone_letter metrics.now size letter }
{
    let glyph = metrics.glyph_of(letter);
    let frame = on_line(glyph_frame(metrics, glyph, size), size, metrics);
    let mark = Mark::Glyph {
        x: 0,
        y: 0,
        size,
        glyph,
    };
    Drawn { frame, mark }
}

/// A box of that ink in a line of text.
#[tactic(auto, using(fixed_units::proofs::Signed::from_bits), unfolding(crate::specs::Token::on_line))]
fn on_line(inked: MathBox, size: i64, metrics: &Metrics) -> MathBox
    requires size_low { pos 0 ≤ℤ size }
    requires size_high { size ≤ℤ pos (2 ^ 20) }
    ensures { result ≡ on_line metrics.now size inked }
{
    MathBox {
        ascent: metrics.line_ascent(size),
        descent: metrics.line_descent(size),
        ..inked
    }
}

/// How wide a text may be for its leaf to be exact, in units.
const FAR: i64 = 1 << 60;

/// A text of several characters, or of none.
pub fn word_leaf(alloc: Global, text: &str, size: i64, metrics: &Metrics) -> Result<Leaf, Memory>
    requires size_low { pos 0 ≤ℤ size }
    requires size_high { size ≤ℤ pos (2 ^ 20) }
    ensures { IfOk result (IsLeaf (word_leaf metrics.now size (chars text.now))) }
{
    metrics.is_taken();
    let mut width = 0;
    let mut inks = None;
    let mut marks = List::make(alloc);
    for letter in text.chars() {
        let glyph = metrics.glyph_of(letter);
        let frame = glyph_frame(metrics, glyph, size);
        marks.push(Mark::Glyph {
            x: width,
            y: 0,
            size,
            glyph,
        })?;
        inks = Some(also_inked(inks, frame));
        width = further(width, frame.width);
    }
    match inks {
        Some(inks) => Ok(Leaf::unspaced(word_frame(&inks, width, size, metrics), marks)),
        None => Ok(Leaf::empty(alloc)),
    }
}

/// An advance further along; past `FAR` it is no matter how far.
#[tactic(auto, using(fixed_units::proofs::Signed::from_bits), unfolding(crate::specs::Token::further))]
fn further(width: i64, advance: i64) -> i64
    requires width_in { IsWithin (2 ^ 60 + 1) width }
    requires advance_in { IsWithin (2 ^ 32) advance }
    ensures value { result ≡ further width advance }
{
    (width + advance).min(FAR + 1)
}

/// The ink of some glyphs with that of one more.
fn also_inked(inks: Option<MathBox>, frame: MathBox) -> MathBox
    ensures { result ≡ also_inked inks frame }
{
    match inks {
        Some(inks) => join(&inks, &frame),
        None => frame,
    }
}

/// The box of several characters: no italic correction, and the accent over their middle.
#[tactic(auto, using(fixed_units::proofs::Signed::from_bits), unfolding(crate::specs::Token::word_frame_of))]
fn word_frame(inks: &MathBox, width: i64, size: i64, metrics: &Metrics) -> MathBox
    requires size_low { pos 0 ≤ℤ size }
    requires size_high { size ≤ℤ pos (2 ^ 20) }
    ensures { result ≡ word_frame_of metrics.now size inks.now width }
{
    MathBox {
        width,
        ascent: metrics.line_ascent(size),
        descent: metrics.line_descent(size),
        ink_ascent: inks.ink_ascent,
        ink_descent: inks.ink_descent,
        italic: 0,
        accent: half(width),
    }
}
