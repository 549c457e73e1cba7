ghost use Rattle.std.specs.Prelude.{◌≡◌, ◌≤◌, ◌<◌, ◌^◌, length, option_map, codes, IfSome, pos, ◌≤ℤ◌};
ghost use Rattle.std.specs.Char.{is_ascii_digit};
ghost use Rattle.std.specs.List.{AllPass};
ghost use Rattle.std.specs.Option.{option_and_then};
ghost use Rattle.std.specs.Str.Parse.{digits_value};
ghost use Rattle.fixed_units.specs.Numbers.{IsWithin};
ghost use Rattle.math_tree.specs.Attributes.{truth_of_word, value_of};
ghost use Rattle.style_scope.specs.Rules.{size_written};
ghost use Rattle.style_scope.specs.Words.{direction_of_word, number_of, level_of};

use css_lengths::{LengthText, read_length};
use fixed_units::is_word;
use math_tree::{Attributes, truth_of_word};

/// The truth value that `displaystyle` gives.
pub fn displaystyle(attributes: &Attributes) -> Option<bool>
    ensures { result ≡ option_and_then truth_of_word
        (value_of (codes "displaystyle") attributes.now) }
{
    truth_of_word(attributes.get("displaystyle")?)
}

/// Whether `dir` says that an element is laid out from right to left.
pub fn direction(attributes: &Attributes) -> Option<bool>
    ensures { result ≡ option_and_then direction_of_word (value_of (codes "dir") attributes.now) }
{
    direction_of_word(attributes.get("dir")?)
}

#[tactic(auto, unfolding(crate::specs::Words::direction_of_word))]
fn direction_of_word(value: &str) -> Option<bool>
    ensures { result ≡ direction_of_word value.now }
{
    if is_word(value, "rtl") {
        Some(true)
    } else if is_word(value, "ltr") {
        Some(false)
    } else {
        None
    }
}

/// The depth that `scriptlevel` gives below a parent's.
pub fn scriptlevel(attributes: &Attributes, parent_depth: u8) -> Option<u16>
    ensures { result ≡ option_and_then (level_of parent_depth)
        (value_of (codes "scriptlevel") attributes.now) }
{
    level_of(attributes.get("scriptlevel")?.as_bytes(), parent_depth)
}

#[tactic(auto, unfolding(crate::specs::Words::level_of))]
fn level_of(text: &[u8], parent_depth: u8) -> Option<u16>
    ensures { result ≡ level_of parent_depth text.now }
{
    let parent_depth = u16::from(parent_depth);
    let (sign, digits) = text.split_first()?;
    match *sign {
        b'+' => Some(parent_depth + number_of(digits)?),
        b'-' => Some(parent_depth.saturating_sub(number_of(digits)?)),
        _ => number_of(text),
    }
}

/// A number of one to three digits.
#[tactic(auto, unfolding(crate::specs::Words::number_of))]
fn number_of(text: &[u8]) -> Option<u16>
    ensures value { result ≡ number_of text.now }
    ensures small { IfSome result (λ number. number < 1000) }
{
    if text.is_empty() || 3 < text.len() || !text.iter().all(|byte| byte.is_ascii_digit()) {
        return None;
    }
    Some(digits_value(text))
}

/// What one to three digits write.
fn digits_value(digits: &[u8]) -> u16
    requires digits { AllPass is_ascii_digit digits.now }
    requires few { length digits.now ≤ 3 }
    ensures value { result ≡ digits_value 10 digits.now }
    ensures small { result < 10 ^ length digits.now }
{
    let mut value = 0;
    for byte in digits {
        value = value * 10 + u16::from(byte - b'0');
    }
    value
}

/// The length that `mathsize` gives, where it isn't negative.
pub fn mathsize(attributes: &Attributes) -> Option<LengthText>
    ensures value { result ≡ size_written attributes.now }
    ensures within { IfSome result (λ length. IsWithin (10 ^ 15) length.millionths) }
    ensures low { IfSome result (λ length. pos 0 ≤ℤ length.millionths) }
{
    let length = read_length(attributes.get("mathsize")?)?;
    if 0 <= length.millionths {
        Some(length)
    } else {
        None
    }
}
