//! Numbers among the words of the command line.
ghost use Rattle.std.specs.Prelude.{◌≡◌};
ghost use Rattle.std.specs.Char.{is_ascii_digit};
ghost use Rattle.std.specs.List.{list_all};
ghost use Rattle.command_words.specs.Numerals.{behind_minus, coordinate_in, count_in, id_in, is_short_numeral, number_in, seed_in, depth_in};

use math_tree::NodeId;

/// The most digits of a seed, and of a count.
const SEED_DIGITS: usize = 20;

const COUNT_DIGITS: usize = 5;

const DEPTH_DIGITS: usize = 4;

/// The most edits that are drawn.
const MOST_GENERATED: u64 = 20_000;

/// The most edits that can be undone.
const MOST_UNDONE: u64 = 1_000;

/// The seed that a word writes: at most 20 decimal digits, and below 2^64.
pub fn seed_of(word: &str) -> Option<u64>
    ensures { result ≡ seed_in word.now }
{
    number_of(SEED_DIGITS, word)
}

/// The count that a word writes: at most 5 decimal digits, and from 1 to 20,000.
pub fn count_of(word: &str) -> Option<u32>
    ensures { result ≡ count_in word.now }
{
    let count = number_of(COUNT_DIGITS, word)?;
    if (1 <= count) & (count <= MOST_GENERATED) {
        Some(count as u32)
    } else {
        None
    }
}

/// The depth that a word writes: at most 4 decimal digits, and from 1 to 1,000.
pub fn depth_of(word: &str) -> Option<u32>
    ensures { result ≡ depth_in word.now }
{
    let depth = number_of(DEPTH_DIGITS, word)?;
    if (1 <= depth) & (depth <= MOST_UNDONE) {
        Some(depth as u32)
    } else {
        None
    }
}

/// The number that a word of 1 to `most` decimal digits writes, where it is below 2^64.
fn number_of(most: usize, word: &str) -> Option<u64>
    ensures { result ≡ number_in most word.now }
{
    if is_short_numeral(most, word.as_bytes()) {
        word.parse().ok()
    } else {
        None
    }
}

/// Whether a word has decimal digits alone, and at most so many.
fn is_short_numeral(most: usize, word: &[u8]) -> bool
    ensures { result ≡ is_short_numeral most word.now }
{
    has_digits_alone(word) & (word.len() <= most)
}

fn has_digits_alone(word: &[u8]) -> bool
    ensures { result ≡ list_all is_ascii_digit word.now }
{
    word.iter().all(|byte| byte.is_ascii_digit())
}

/// The most digits of a coordinate, and of an id.
const COORDINATE_DIGITS: usize = 11;

const ID_DIGITS: usize = 10;

/// The coordinate that a word writes: an optional `-` and 1 to 11 decimal digits.
pub fn coordinate_of(word: &str) -> Option<i64>
    ensures { result ≡ coordinate_in word.now }
{
    if is_short_numeral(COORDINATE_DIGITS, behind_minus(word.as_bytes())) {
        word.parse().ok()
    } else {
        None
    }
}

/// What stands behind a minus, if the word begins with one.
fn behind_minus(word: &[u8]) -> &[u8]
    ensures { result.now ≡ behind_minus word.now }
{
    match word.split_first() {
        Some((b'-', rest)) => rest,
        _ => word,
    }
}

/// The id that a word writes: 1 to 10 decimal digits, and below 2^32.
pub fn id_of(word: &str) -> Option<NodeId>
    ensures { result ≡ id_in word.now }
{
    let number = number_of(ID_DIGITS, word)?;
    if number < 1 << 32 {
        Some(NodeId(number as u32))
    } else {
        None
    }
}
