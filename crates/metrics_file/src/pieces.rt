ghost use Rattle.std.specs.Prelude.{◌≡◌, ◌<◌, ◌≤◌, ◌≢◌, [], ◌∷◌, length, take, not};
ghost use Rattle.std.specs.Str.Lines.{lines, strip_carriage_return};
ghost use Rattle.metrics_file.specs.Lines.{lent};
ghost use Rattle.metrics_file.specs.Reading.{lines_of, words_of, is_blank, is_comment, is_plain, is_foreign, is_empty, most_words};

use arrayvec::ArrayVec;

/// The first line of a file, and what follows it. A line feed ends a line, with a carriage return
/// just before it if there is one; the last line may lack it.
pub fn first_line(bytes: &[u8]) -> (&[u8], &[u8])
    ensures line { lines_of bytes.now ≡ result.0.now ∷ lines result.1.now }
    ensures rest { bytes.now ≢ [] → length result.1.now < length bytes.now }
    ensures bound { length result.1.now ≤ length bytes.now }
{
    match bytes.iter().position(|byte| *byte == b'\n') {
        None => (bytes, &[]),
        Some(end) => (without_return(&bytes[..end]), &bytes[end + 1..]),
    }
}

fn without_return(line: &[u8]) -> &[u8]
    ensures { result.now ≡ strip_carriage_return line.now }
{
    match line.split_last() {
        Some((b'\r', before)) => before,
        _ => line,
    }
}

/// Whether the line begins with `#`.
pub fn is_comment(line: &[u8]) -> bool
    ensures { result ≡ is_comment line.now }
{
    line.first() == Some(&b'#')
}

/// Whether a byte that only a comment may have stands in a line that is none.
#[tactic(auto, unfolding(crate::specs::Reading::is_foreign))]
pub fn is_foreign(line: &[u8]) -> bool
    ensures { result ≡ is_foreign line.now }
{
    !is_comment(line) & line.iter().any(|byte| !is_plain(*byte))
}

fn is_plain(byte: u8) -> bool
    ensures { result ≡ is_plain byte }
{
    (byte == b'\t') | ((b' ' <= byte) & (byte <= b'~'))
}

fn is_blank(byte: u8) -> bool
    ensures { result ≡ is_blank byte }
{
    (byte == b' ') | (byte == b'\t')
}

fn has_bytes(word: &[u8]) -> bool
    ensures { result ≡ not (is_empty word.now) }
{
    !word.is_empty()
}

/// More than a line of any kind has, so that a line of too many words shows.
pub const MOST_WORDS: usize = 38;

/// Room for the words of a line.
pub type LineWords<'a> = ArrayVec<&'a [u8], MOST_WORDS>;

/// Puts the words of a line, which blanks part, where there is none yet: the first `MOST_WORDS` of
/// them. It takes no memory.
pub fn cut<'a>(line: &'a [u8], words: &mut LineWords<'a>)
    requires { words.old.items ≡ [] }
    ensures { lent words.new.items ≡ take most_words (words_of line.now) }
{
    let parts = line
        .split(|byte| is_blank(*byte))
        .filter(|word| has_bytes(word))
        .take(MOST_WORDS);
    match words.extend(parts) {
        Ok(()) => (),
        // There is room for as many as are taken.
        Err(_) => unreachable!(),
    }
}
