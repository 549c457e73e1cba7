ghost use Rattle.std.specs.Prelude.{◌≡◌, ◌+◌, ◌*◌, ◌^◌, ◌<◌, ◌≤◌, length, map, IfSome};
ghost use Rattle.std.specs.Char.{is_ascii_digit};
ghost use Rattle.std.specs.List.{prefix_len};
ghost use Rattle.std.specs.Option.{option_map};
ghost use Rattle.std.specs.Str.Parse.{digits_value};
ghost use Rattle.fixed_units.specs.Numbers.{IsWithin};
ghost use Rattle.fixed_units.specs.Words.{is_word};
ghost use Rattle.css_lengths.specs.Lengths.{trimmed, is_negative, behind_sign, digits_in_front, behind_digits, fraction_of, fraction_value, number_of, unit_of, unit_at, length_of, AreDigits};

use crate::lengths::{LengthText, Unit};

/// The length that a text writes, if it is one (MathML Core 2.1.2, "Types for
/// MathML Attributes Values").
///
/// White space at both ends is dropped. Then come a `+` or `-` or neither, at most nine digits, a
/// point with one digit or more or neither, and the unit, in any case of ASCII letters. At least
/// one digit stands in a length. Digits of the fraction past the sixth are dropped. A number
/// without a unit is a length where what is kept of it is 0, and then it is 0 px.
#[tactic(auto, unfolding(crate::specs::Lengths::length_of))]
pub fn read_length(text: &str) -> Option<LengthText>
    ensures value { result ≡ length_of text.now }
    ensures within { IfSome result (λ length. IsWithin (10 ^ 15) length.millionths) }
{
    let written = trim(text.as_bytes());
    let (negative, number) = split_sign(written);
    let (millionths, name) = split_number(number)?;
    let unit = unit_at(millionths, name)?;
    let size = millionths as i64;
    let millionths = if negative { -size } else { size };
    Some(LengthText { millionths, unit })
}

/// The text without the white space at its ends.
#[tactic(auto, unfolding(crate::specs::Lengths::trimmed))]
fn trim(text: &[u8]) -> &[u8]
    ensures { result.now ≡ trimmed text.now }
{
    text.trim_ascii()
}

/// Whether a minus stands in front, and what stands behind a sign.
#[tactic(auto, unfolding(crate::specs::Lengths::is_negative, crate::specs::Lengths::behind_sign))]
fn split_sign(text: &[u8]) -> (bool, &[u8])
    ensures negative { result.0 ≡ is_negative text.now }
    ensures rest { result.1.now ≡ behind_sign text.now }
{
    match text.split_first() {
        Some((b'-', rest)) => (true, rest),
        Some((b'+', rest)) => (false, rest),
        _ => (false, text),
    }
}

/// The number in front in millionths, and what stands behind it.
#[tactic(auto, unfolding(crate::specs::Lengths::number_of))]
fn split_number(text: &[u8]) -> Option<(u64, &[u8])>
    ensures value { option_map (λ number. (number.0, number.1.now)) result ≡ number_of text.now }
    ensures small { IfSome result (λ number. number.0 < 10 ^ 15) }
{
    let (whole, rest) = split_digits(text);
    let (fraction, name) = split_fraction(rest)?;
    if (9 < whole.len()) | (whole.is_empty() & fraction.is_empty()) {
        return None;
    }
    let millionths = digits_value(whole) * 1_000_000 + fraction_value(fraction);
    Some((millionths, name))
}

/// The digits of the fraction, if there is one, and what stands behind them.
#[tactic(auto, unfolding(crate::specs::Lengths::fraction_of))]
fn split_fraction(text: &[u8]) -> Option<(&[u8], &[u8])>
    ensures value { option_map (λ parts. (parts.0.now, parts.1.now)) result ≡ fraction_of text.now }
    ensures digits { IfSome result (λ parts. AreDigits parts.0.now) }
{
    match text.split_first() {
        Some((b'.', rest)) => {
            let (digits, name) = split_digits(rest);
            if digits.is_empty() {
                None
            } else {
                Some((digits, name))
            }
        }
        _ => Some(text.split_at(0)),
    }
}

/// The digits in front, and what stands behind them.
#[tactic(auto, unfolding(crate::specs::Lengths::digits_in_front, crate::specs::Lengths::behind_digits))]
fn split_digits(text: &[u8]) -> (&[u8], &[u8])
    ensures front { result.0.now ≡ digits_in_front text.now }
    ensures rest { result.1.now ≡ behind_digits text.now }
    ensures digits { AreDigits result.0.now }
{
    text.split_at(digit_count(text))
}

/// How many digits stand in front.
fn digit_count(text: &[u8]) -> usize
    ensures value { result ≡ prefix_len is_ascii_digit text.now }
    ensures within { result ≤ length text.now }
{
    text.iter().take_while(|byte| byte.is_ascii_digit()).count()
}

/// What the first six digits of a fraction write, in millionths.
fn fraction_value(digits: &[u8]) -> u64
    requires digits { AreDigits digits.now }
    ensures value { result ≡ fraction_value digits.now }
    ensures small { result < 10 ^ 6 }
{
    let kept = &digits[..digits.len().min(6)];
    digits_value(kept) * 10u64.pow(6 - kept.len() as u32)
}

/// What at most nine digits write.
fn digits_value(digits: &[u8]) -> u64
    requires digits { AreDigits digits.now }
    requires few { length digits.now ≤ 9 }
    ensures value { result ≡ digits_value 10 digits.now }
    ensures small { result < 10 ^ length digits.now }
{
    let mut value = 0;
    for byte in digits {
        value = value * 10 + u64::from(byte - b'0');
    }
    value
}

/// The unit of a number of millionths: without a name it is px, and the number 0.
#[tactic(auto, unfolding(crate::specs::Lengths::unit_at))]
fn unit_at(millionths: u64, name: &[u8]) -> Option<Unit>
    ensures { result ≡ unit_at millionths name.now }
{
    if !name.is_empty() {
        unit_of(name)
    } else if millionths == 0 {
        Some(Unit::Px)
    } else {
        None
    }
}

/// The unit of a name, in any case of ASCII letters.
#[tactic(auto, unfolding(crate::specs::Lengths::unit_of))]
fn unit_of(name: &[u8]) -> Option<Unit>
    ensures { result ≡ unit_of name.now }
{
    if is_name(name, b"em") {
        Some(Unit::Em)
    } else if is_name(name, b"ex") {
        Some(Unit::Ex)
    } else if is_name(name, b"px") {
        Some(Unit::Px)
    } else if is_name(name, b"pt") {
        Some(Unit::Pt)
    } else if is_name(name, b"pc") {
        Some(Unit::Pc)
    } else if is_name(name, b"in") {
        Some(Unit::Inch)
    } else if is_name(name, b"cm") {
        Some(Unit::Cm)
    } else if is_name(name, b"mm") {
        Some(Unit::Mm)
    } else if is_name(name, b"q") {
        Some(Unit::Quarter)
    } else if is_name(name, b"%") {
        Some(Unit::Percent)
    } else {
        None
    }
}

/// Whether a name is that of a unit.
fn is_name(name: &[u8], unit: &[u8]) -> bool
    ensures { result ≡ is_word name.now unit.now }
{
    name.eq_ignore_ascii_case(unit)
}
