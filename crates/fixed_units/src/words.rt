ghost use Rattle.std.specs.Prelude.{◌≡◌};
ghost use Rattle.fixed_units.specs.Words.{is_word};

/// Whether a text is a word, in any case of ASCII letters.
pub fn is_word(text: &str, word: &str) -> bool
    ensures { result ≡ is_word text.now word.now }
{
    text.eq_ignore_ascii_case(word)
}
