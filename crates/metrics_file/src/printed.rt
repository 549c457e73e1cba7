ghost use Rattle.std.specs.Prelude.{◌≡◌, [], ◌∷◌, ◌++◌, map, OnOk};
ghost use Rattle.std.specs.Fmt.{signed_decimal};
ghost use Rattle.metrics_file.specs.Print.{code_text, operator_text, word_text, line_text};

use fixed_units::{List, Memory};
use op_dictionary::OpText;
use std::alloc::Global;
use std::fmt::Write;
use std::marker::Model;

/// A word of a line.
#[derive(Clone, Copy)]
pub enum Word<'a> {
    /// A text as it stands.
    Text(&'a str),
    /// A number in decimal digits, where it is never negative.
    Natural(u16),
    /// A number in decimal digits.
    Number(i64),
    /// A character's code in at least 4 hexadecimal digits.
    Code(char),
    /// The code of an operator, or its two codes, which a plus joins; nothing of any other text.
    Codes(OpText),
}

/// The lines of a print so far, which contracts see as their bytes.
#[derive(Drop)]
pub struct PrintedLines {
    text: String,
}

impl Model for PrintedLines {
    ghost use Rattle.std.specs.Prelude.{ℕ, List as Sequence, string_bytes};

    ghost Value = { Sequence ℕ };

    ghost view = { λ lines. string_bytes lines.text };
}

impl PrintedLines {
    /// No line yet. It takes no memory.
    pub fn new(alloc: Global) -> PrintedLines
        ensures { result ≡ [] }
    {
        PrintedLines {
            text: String::new(alloc),
        }
    }

    /// All bytes. It takes no memory.
    pub fn into_bytes(self) -> List<u8>
        ensures { result ≡ self }
    {
        List::from(self.text.into_bytes())
    }

    /// A line: its first word, and the others one space apart.
    pub fn add_line(&mut self, keyword: &str, words: &[Word<'_>]) -> Result<(), Memory>
        ensures { OnOk result (self.new
            ≡ self.old ++ line_text (keyword.now ∷ map word_text words.now)) }
    {
        self.add_text(keyword)?;
        for word in words {
            self.add_text(" ")?;
            self.add_word(*word)?;
        }
        self.add_text("\n")
    }

    /// A word.
    fn add_word(&mut self, word: Word<'_>) -> Result<(), Memory>
        ensures { OnOk result (self.new ≡ self.old ++ word_text word.entry) }
    {
        match word {
            Word::Text(text) => self.add_text(text),
            Word::Natural(number) => self.add_number(i64::from(number)),
            Word::Number(number) => self.add_number(number),
            Word::Code(letter) => self.add_code(letter),
            Word::Codes(text) => self.add_codes(text),
        }
    }

    /// A text as it stands.
    fn add_text(&mut self, text: &str) -> Result<(), Memory>
        ensures { OnOk result (self.new ≡ self.old ++ text.now) }
    {
        self.text.push_str(text)?;
        Ok(())
    }

    /// A number in decimal digits.
    fn add_number(&mut self, number: i64) -> Result<(), Memory>
        ensures { OnOk result (self.new ≡ self.old ++ signed_decimal number) }
    {
        write!(self.text, "{number}")?;
        Ok(())
    }

    /// A character's code in at least 4 hexadecimal digits.
    fn add_code(&mut self, letter: char) -> Result<(), Memory>
        ensures { OnOk result (self.new ≡ self.old ++ code_text letter) }
    {
        write!(self.text, "{:04X}", u32::from(letter))?;
        Ok(())
    }

    /// One code, or two that a plus joins; nothing of any other text.
    fn add_codes(&mut self, text: OpText) -> Result<(), Memory>
        ensures { OnOk result (self.new ≡ self.old ++ operator_text text) }
    {
        match text {
            OpText::One(letter) => self.add_code(letter),
            OpText::Two(first, second) => {
                self.add_code(first)?;
                self.add_text("+")?;
                self.add_code(second)
            }
            _ => Ok(()),
        }
    }
}
