ghost use Rattle.std.specs.Prelude.{◌≡◌, ◌≤◌, ◌<◌, ◌+◌, ◌-◌, ◌^◌};
ghost use Rattle.token_boxes.specs.Letters.{italic_of, is_upright, is_slanted, slanted};

use fixed_units::is_word;
use math_tree::{Attributes, Head, Kind};

/// The only letter of an element, as it is shown: that of an `mi` is italic (MathML Core 3.2.2.1).
pub fn slanted(head: &Head, letter: char) -> char
    ensures { result ≡ slanted head.now letter }
{
    if is_slanted(head) {
        italic(letter)
    } else {
        letter
    }
}

fn is_slanted(head: &Head) -> bool
    ensures { result ≡ is_slanted head.now }
{
    head.kind == Kind::Mi && !is_upright(&head.attributes)
}

/// Whether `mathvariant` is `normal`, the only value that Core keeps.
fn is_upright(attributes: &Attributes) -> bool
    ensures { result ≡ is_upright attributes.now }
{
    match attributes.get("mathvariant") {
        Some(value) => is_word(value, "normal"),
        None => false,
    }
}

/// The italic form of a letter, or the letter where it has none (MathML Core C.1, "italic
/// mapping").
#[tactic(auto, unfolding(crate::specs::Letters::italic_of))]
fn italic(letter: char) -> char
    ensures { result ≡ italic_of letter }
{
    match letter {
        // The Planck constant: the place of h among the italic letters stays empty.
        'h' => '\u{210E}',
        'A'..='Z' => moved(letter, 'A', '\u{1D434}'),
        'a'..='z' => moved(letter, 'a', '\u{1D44E}'),
        '\u{0391}'..='\u{03A1}' => moved(letter, '\u{0391}', '\u{1D6E2}'),
        '\u{03A3}'..='\u{03A9}' => moved(letter, '\u{03A3}', '\u{1D6F4}'),
        '\u{03B1}'..='\u{03C9}' => moved(letter, '\u{03B1}', '\u{1D6FC}'),
        _ => letter,
    }
}

/// The character as far behind another one as the letter is behind the first of its alphabet.
fn moved(letter: char, first: char, to: char) -> char
    requires behind { first ≤ letter }
    requires near { letter - first < 0x100 }
    requires above { 0xE000 ≤ to }
    requires below { to < 0x20000 }
    ensures { result ≡ to + (letter - first) }
{
    let code = u32::from(to) + (u32::from(letter) - u32::from(first));
    char::from_u32(code).unwrap_or(letter)
}
