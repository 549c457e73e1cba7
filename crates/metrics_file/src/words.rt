ghost use Rattle.std.specs.Prelude.{◌≡◌, ◌<◌, ◌≤◌, ◌^◌, length, pos, ◌≤ℤ◌, IfSome, IfOk};
ghost use Rattle.std.specs.Option.{option_map};
ghost use Rattle.std.specs.List.{list_all};
ghost use Rattle.fixed_units.specs.Numbers.{IsWithin};
ghost use Rattle.font_metrics.specs.Faults.{step_map, or_fault};
ghost use Rattle.font_metrics.specs.declared.fault.LineFault.TheVariants as fault;
ghost use Rattle.metrics_file.specs.Words.{value_of_digits, numeral_of, number_of, number_in, natural_in, code_of, letter_in, in_pair, one_in, pair_in, operator_text_in, name_in};
ghost use Rattle.font_metrics.specs.Names.{is_name_byte, is_name};

use crate::steps::fault_if;
use font_metrics::LineFault;
use op_dictionary::OpText;
use std::str;

/// A whole number from `low` to `high`, which a word writes.
#[tactic(auto, unfolding(crate::specs::Words::number_in))]
pub fn number_in(low: i32, high: i32, word: &[u8]) -> Result<i32, LineFault>
    ensures value { result ≡ number_in low high word.now }
    ensures low { IfOk result (λ n. low ≤ℤ n) }
    ensures high { IfOk result (λ n. n ≤ℤ high) }
{
    match number(word) {
        None => Err(LineFault::NotANumber),
        Some(number) if (low <= number) & (number <= high) => Ok(number),
        Some(_) => Err(LineFault::OutOfRange),
    }
}

/// A whole number from `low` to `high`, none of which is negative.
#[tactic(auto, unfolding(crate::specs::Words::natural_in))]
pub fn natural_in(low: u16, high: u16, word: &[u8]) -> Result<u16, LineFault>
    ensures { result ≡ natural_in low high word.now }
{
    let number = number_in(i32::from(low), i32::from(high), word)?;
    Ok(number as u16)
}

/// The character whose code a word writes: 4 to 6 hexadecimal digits.
#[tactic(auto, unfolding(crate::specs::Words::letter_in))]
pub fn letter(word: &[u8]) -> Result<char, LineFault>
    ensures { result ≡ letter_in word.now }
{
    match code(word) {
        None => Err(LineFault::NotANumber),
        Some(code) => char::from_u32(code).ok_or(LineFault::OutOfRange),
    }
}

/// The text of an operator: one code, or two of at most `FFFF` that a plus joins.
pub fn operator_text(word: &[u8]) -> Result<OpText, LineFault>
    ensures { result ≡ operator_text_in word.now }
{
    match word.iter().position(|byte| *byte == b'+') {
        None => one(word),
        Some(at) => pair(&word[..at], &word[at + 1..]),
    }
}

/// A glyph name: 1 to 63 ASCII letters, digits, `_`, `.` and `-`.
#[tactic(auto, unfolding(crate::specs::Words::name_in))]
pub fn glyph_name(word: &[u8]) -> Result<&str, LineFault>
    ensures { step_map (λ name. name.now) result ≡ name_in word.now }
{
    if is_name(word) {
        str::from_utf8(word).map_err(|_| LineFault::WrongWord)
    } else {
        Err(LineFault::WrongWord)
    }
}

fn one(code: &[u8]) -> Result<OpText, LineFault>
    ensures { result ≡ one_in code.now }
{
    let letter = letter(code)?;
    Ok(OpText::One(letter))
}

fn pair(first: &[u8], second: &[u8]) -> Result<OpText, LineFault>
    ensures { result ≡ pair_in first.now second.now }
{
    match (code(first), code(second)) {
        (Some(first), Some(second)) => {
            let first = in_pair(first)?;
            let second = in_pair(second)?;
            Ok(OpText::Two(first, second))
        }
        _ => Err(LineFault::NotANumber),
    }
}

/// The character of a code of a pair: it has at most 16 bits.
fn in_pair(code: u32) -> Result<char, LineFault>
    ensures { result ≡ in_pair code }
{
    if code <= 0xFFFF {
        char::from_u32(code).ok_or(LineFault::OutOfRange)
    } else {
        Err(LineFault::OutOfRange)
    }
}

/// 4 to 6 hexadecimal digits.
#[tactic(auto, unfolding(crate::specs::Words::code_of))]
fn code(word: &[u8]) -> Option<u32>
    ensures { result ≡ code_of word.now }
{
    numeral(16, 4, 6, word)
}

#[tactic(auto, unfolding(font_metrics::specs::Names::is_name))]
fn is_name(word: &[u8]) -> bool
    ensures { result ≡ is_name word.now }
{
    (1 <= word.len()) & (word.len() <= 63) & has_name_bytes(word)
}

fn has_name_bytes(word: &[u8]) -> bool
    ensures { result ≡ list_all is_name_byte word.now }
{
    word.iter().all(|byte| is_name_byte(*byte))
}

fn is_name_byte(byte: u8) -> bool
    ensures { result ≡ is_name_byte byte }
{
    byte.is_ascii_alphanumeric() | (byte == b'_') | (byte == b'.') | (byte == b'-')
}

/// A whole number: an optional minus and 1 to 6 decimal digits.
#[tactic(auto, unfolding(crate::specs::Words::number_of))]
fn number(word: &[u8]) -> Option<i32>
    ensures { result ≡ number_of word.now }
{
    match word.split_first() {
        None => None,
        Some((b'-', digits)) => Some(-magnitude(digits)?),
        Some(_) => magnitude(word),
    }
}

/// 1 to 6 decimal digits.
fn magnitude(digits: &[u8]) -> Option<i32>
    ensures value { result ≡ option_map pos (numeral_of 10 1 6 digits.now) }
    ensures small { IfSome result (IsWithin (2 ^ 24)) }
{
    Some(numeral(10, 1, 6, digits)? as i32)
}

/// From `fewest` to `most` digits of a base.
#[tactic(auto, unfolding(crate::specs::Words::numeral_of))]
fn numeral(base: u32, fewest: usize, most: usize, word: &[u8]) -> Option<u32>
    requires base_low { 2 ≤ base }
    requires base_high { base ≤ 16 }
    requires short { most ≤ 6 }
    ensures value { result ≡ numeral_of base fewest most word.now }
    ensures small { IfSome result (λ n. n < 2 ^ 24) }
{
    if (word.len() < fewest) | (most < word.len()) {
        return None;
    }
    digits_value(base, word)
}

/// The number that digits of a base write, where each byte is one.
fn digits_value(base: u32, digits: &[u8]) -> Option<u32>
    requires base_low { 2 ≤ base }
    requires base_high { base ≤ 16 }
    requires short { length digits.now ≤ 6 }
    ensures value { result ≡ value_of_digits base digits.now }
    ensures small { IfSome result (λ n. n < 2 ^ 24) }
{
    let mut value = 0;
    for byte in digits {
        let digit = char::from(*byte).to_digit(base)?;
        value = value * base + digit;
    }
    Some(value)
}
