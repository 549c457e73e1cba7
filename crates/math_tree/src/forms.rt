//! The forms of names and texts, and how much of them a tree may hold.
ghost use Rattle.std.specs.Prelude.{◌≡◌};
ghost use Rattle.std.specs.List.{list_all};
ghost use Rattle.math_tree.specs.Forms.{is_name, is_name_byte, is_white_space, is_short_enough};

/// The levels of a tree, of which the root's is the first.
pub const MOST_LEVELS: u32 = 60;

/// The elements of a tree.
pub const MOST_ELEMENTS: u32 = 65_536;

/// The bytes of a text or of a value.
const LONGEST_TEXT: usize = 65_536;

/// The bytes of all names, attribute names, values and texts of a tree.
pub const MOST_BYTES: u64 = 4_194_304;

/// Whether a text is in the form of an element's or attribute's name: an ASCII letter, and 1 to 64
/// letters, digits, `-`, `.`, `:` and `_`.
#[tactic(auto, unfolding(crate::specs::Forms::is_name))]
pub fn is_name(text: &str) -> bool
    ensures { result ≡ is_name text.now }
{
    let bytes = text.as_bytes();
    match bytes {
        [first, ..] => first.is_ascii_alphabetic() && bytes.len() <= 64 && has_name_bytes(bytes),
        [] => false,
    }
}

fn has_name_bytes(bytes: &[u8]) -> bool
    ensures { result ≡ list_all is_name_byte bytes.now }
{
    bytes.iter().all(|byte| is_name_byte(*byte))
}

fn is_name_byte(byte: u8) -> bool
    ensures { result ≡ is_name_byte byte }
{
    byte.is_ascii_alphanumeric() | (byte == b'-') | (byte == b'.') | (byte == b':') | (byte == b'_')
}

/// Whether a text is empty or white space alone (HTML's: tab, line feed, form feed, carriage return
/// and space).
#[tactic(auto, unfolding(crate::specs::Forms::is_white_space))]
pub fn is_white_space(text: &str) -> bool
    ensures { result ≡ is_white_space text.now }
{
    text.as_bytes()
        .iter()
        .all(|byte| byte.is_ascii_whitespace())
}

/// Whether a text or value has no more bytes than it may have.
#[tactic(auto, unfolding(crate::specs::Forms::is_short_enough))]
pub fn is_short_enough(text: &str) -> bool
    ensures { result ≡ is_short_enough text.now }
{
    text.len() <= LONGEST_TEXT
}
