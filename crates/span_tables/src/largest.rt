ghost use Rattle.std.specs.Prelude.{◌≡◌};
ghost use Rattle.span_tables.specs.Largest.{larger_of};

/// The larger of two numbers, where there are two.
pub fn larger(before: Option<i64>, number: i64) -> Option<i64>
    ensures { result ≡ larger_of before number }
{
    match before {
        Some(before) => Some(before.max(number)),
        None => Some(number),
    }
}
