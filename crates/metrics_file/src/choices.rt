ghost use Rattle.std.specs.Prelude.{◌≡◌};
ghost use Rattle.metrics_file.specs.Words.{choice_in, extender_in, corner_in, form_in, category_in, axis_in};

use crate::texts::is_text;
use font_metrics::{Corner, LineFault};
use op_dictionary::{Axis, Category, Form};

/// The forms by their texts.
const FORMS: [(&str, Form); 3] = [
    ("prefix", Form::Prefix),
    ("infix", Form::Infix),
    ("postfix", Form::Postfix),
];

/// The corners by their texts.
const CORNERS: [(&str, Corner); 4] = [
    ("TR", Corner::TopRight),
    ("TL", Corner::TopLeft),
    ("BR", Corner::BottomRight),
    ("BL", Corner::BottomLeft),
];

/// The categories by their texts.
const CATEGORIES: [(&str, Category); 14] = [
    ("Default", Category::Default),
    ("A", Category::A),
    ("B", Category::B),
    ("C", Category::C),
    ("D", Category::D),
    ("E", Category::E),
    ("F", Category::F),
    ("G", Category::G),
    ("H", Category::H),
    ("I", Category::I),
    ("J", Category::J),
    ("K", Category::K),
    ("L", Category::L),
    ("M", Category::M),
];

/// The choice whose text a word is, compared exactly.
#[tactic(auto, unfolding(crate::specs::Words::choice_in))]
pub fn choice_of<T: Copy>(word: &[u8], choices: &[(&str, T)]) -> Option<T>
    ensures { result ≡ choice_in choices.now word.now }
{
    for (text, choice) in choices {
        if is_text(word, text) {
            return Some(*choice);
        }
    }
    None
}

/// Whether a part of an assembly is an extender: `FIX` or `EXT`.
#[tactic(auto, unfolding(crate::specs::Words::choice_in, crate::specs::Words::extender_in))]
pub fn extender(word: &[u8]) -> Result<bool, LineFault>
    ensures { result ≡ extender_in word.now }
{
    choice_of(word, &[("FIX", false), ("EXT", true)]).ok_or(LineFault::WrongWord)
}

/// `TR`, `TL`, `BR` or `BL`
#[tactic(auto, unfolding(crate::specs::Words::choice_in, crate::specs::Words::corner_in))]
pub fn corner(word: &[u8]) -> Result<Corner, LineFault>
    ensures { result ≡ corner_in word.now }
{
    choice_of(word, &CORNERS).ok_or(LineFault::WrongWord)
}

/// `prefix`, `infix` or `postfix`
#[tactic(auto, unfolding(crate::specs::Words::choice_in, crate::specs::Words::form_in))]
pub fn form(word: &[u8]) -> Result<Form, LineFault>
    ensures { result ≡ form_in word.now }
{
    choice_of(word, &FORMS).ok_or(LineFault::WrongWord)
}

/// `block` or `inline`
#[tactic(auto, unfolding(crate::specs::Words::choice_in, crate::specs::Words::axis_in))]
pub fn axis(word: &[u8]) -> Result<Axis, LineFault>
    ensures { result ≡ axis_in word.now }
{
    choice_of(word, &[("block", Axis::Block), ("inline", Axis::Inline)]).ok_or(LineFault::WrongWord)
}

/// `Default`, or a letter from `A` to `M`
#[tactic(auto, unfolding(crate::specs::Words::choice_in, crate::specs::Words::category_in))]
pub fn category(word: &[u8]) -> Result<Category, LineFault>
    ensures { result ≡ category_in word.now }
{
    choice_of(word, &CATEGORIES).ok_or(LineFault::WrongWord)
}
