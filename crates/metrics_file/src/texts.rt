ghost use Rattle.std.specs.Prelude.{◌≡◌};
ghost use Rattle.std.specs.Str.{bytes_eq};
ghost use Rattle.font_metrics.specs.Texts.{extender_text, corner_text, form_text, category_text};

use font_metrics::Corner;
use op_dictionary::{Category, Form};

/// Whether a word is this text, compared exactly.
pub fn is_text(word: &[u8], text: &str) -> bool
    ensures { result ≡ bytes_eq word.now text.now }
{
    word == text.as_bytes()
}

/// `FIX`, or `EXT` for an extender.
pub fn extender_text(extender: bool) -> &'static str
    ensures { result.now ≡ extender_text extender }
{
    if extender { "EXT" } else { "FIX" }
}

/// `TR`, `TL`, `BR` or `BL`
pub fn corner_text(corner: Corner) -> &'static str
    ensures { result.now ≡ corner_text corner }
{
    match corner {
        Corner::TopRight => "TR",
        Corner::TopLeft => "TL",
        Corner::BottomRight => "BR",
        Corner::BottomLeft => "BL",
    }
}

/// `prefix`, `infix` or `postfix`
pub fn form_text(form: Form) -> &'static str
    ensures { result.now ≡ form_text form }
{
    match form {
        Form::Prefix => "prefix",
        Form::Infix => "infix",
        Form::Postfix => "postfix",
    }
}

/// `Default`, or a letter from `A` to `M`
pub fn category_text(category: Category) -> &'static str
    ensures { result.now ≡ category_text category }
{
    match category {
        Category::Default => "Default",
        Category::A => "A",
        Category::B => "B",
        Category::C => "C",
        Category::D => "D",
        Category::E => "E",
        Category::F => "F",
        Category::G => "G",
        Category::H => "H",
        Category::I => "I",
        Category::J => "J",
        Category::K => "K",
        Category::L => "L",
        Category::M => "M",
    }
}
