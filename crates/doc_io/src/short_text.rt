ghost use Rattle.std.specs.Prelude.{◌≡◌, ◌+◌, ◌*◌, ◌≤◌, [], ◌∷◌, ◌++◌, length};
ghost use Rattle.std.specs.Fmt.{decimal, signed_decimal};
ghost use Rattle.doc_io.specs.Lines.{spaced, spaced_numbers};

use arrayvec::ArrayString;
use itoa::Buffer;
use std::marker::Model;

/// How many bytes a short text has room for.
pub const SHORT_TEXT: usize = 160;

/// A part of a line that is made on the stack, so that no memory is needed for it. Contracts see
/// its bytes.
#[derive(Debug, Drop)]
pub struct ShortText {
    text: ArrayString<SHORT_TEXT>,
}

impl Model for ShortText {
    ghost use Rattle.std.specs.Prelude.{List, ℕ};

    ghost Value = { List ℕ };

    ghost view = { λ short. short.text.bytes };
}

impl ShortText {
    /// A text of few bytes.
    pub fn of(text: &str) -> ShortText
        requires { length text.now ≤ SHORT_TEXT }
        ensures { result ≡ text.now }
    {
        let mut short = ArrayString::new();
        short.push_str(text);
        ShortText { text: short }
    }

    /// A word, and then a space and the number for each of some numbers.
    pub fn numbered(word: &str, numbers: &[i64]) -> ShortText
        requires { length word.now + 21 * length numbers.now ≤ SHORT_TEXT }
        ensures text { result ≡ word.now ++ spaced_numbers numbers.now }
        ensures short { length result ≤ length word.now + 21 * length numbers.now }
    {
        let mut text = ShortText::of(word);
        text.add_numbers(numbers);
        text
    }

    /// Adds a text.
    pub fn add(&mut self, text: &str)
        requires { length self.old + length text.now ≤ SHORT_TEXT }
        ensures { self.new ≡ self.old ++ text.now }
    {
        self.text.push_str(text);
    }

    /// Adds a space and the word.
    pub fn add_word(&mut self, word: &str)
        requires { length self.old + length (spaced word.now) ≤ SHORT_TEXT }
        ensures { self.new ≡ self.old ++ spaced word.now }
    {
        self.text.push_str(" ");
        self.text.push_str(word);
    }

    /// Adds a space and the number, which has at most 20 bytes.
    pub fn add_number(&mut self, number: i64)
        requires { length self.old + 21 ≤ SHORT_TEXT }
        ensures text { self.new ≡ self.old ++ spaced (signed_decimal number) }
        ensures short { length self.new ≤ length self.old + 21 }
    {
        self.text.push_str(" ");
        self.text.push_str(Buffer::new().format(number));
    }

    /// Adds a space before each number, and the number.
    pub fn add_numbers(&mut self, numbers: &[i64])
        requires { length self.old + 21 * length numbers.now ≤ SHORT_TEXT }
        ensures text { self.new ≡ self.old ++ spaced_numbers numbers.now }
        ensures short { length self.new ≤ length self.old + 21 * length numbers.now }
    {
        for number in numbers {
            self.add_number(*number);
        }
    }

    /// The text.
    pub fn as_str(&self) -> &str
        ensures { result.now ≡ self.now }
    {
        self.text.as_str()
    }
}
