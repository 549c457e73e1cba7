//! The whole number that a text of digits is.
ghost use Rattle.std.specs.Prelude.{◌≡◌, ◌==◌, false, IfSome, Some, slice_index};
ghost use Rattle.fast_float.specs.Text.{minus};
ghost use Rattle.serde_json.specs.Data.{unsigned};
ghost use Rattle.serde_json.specs.Read.{number_from, number_of};

use fast_float::Numeral;

/// The number that a text of digits stands for, where it is less than 2^64.
pub fn whole_number(text: &str) -> Option<u64>
    ensures { IfSome result (λ number. number_of text.now ≡ Some (unsigned number)) }
{
    let bytes = text.as_bytes();
    if begins_with_minus(bytes) {
        return None;
    }
    without_sign(&Numeral::scan(bytes))
}

/// Whether a minus stands first.
fn begins_with_minus(bytes: &[u8]) -> bool
    ensures { result ≡ (slice_index bytes.now 0 == minus) }
{
    match bytes.first() {
        Some(first) => *first == b'-',
        None => false,
    }
}

/// The number that a numeral is.
fn without_sign(numeral: &Numeral<'_>) -> Option<u64>
    ensures { IfSome result
        (λ number. number_from false numeral.now ≡ Some (unsigned number)) }
{
    numeral.to_u64()
}
