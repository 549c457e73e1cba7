//! The words of answers.

use case_format::Fault;
use fixed_units::LayRefusal;

/// The word of a tree that is out of range, as it is or edited.
pub const OUT_OF_RANGE: &str = "range";

/// The word of an edit that isn't made for another reason, or of a line that is no command.
pub const REFUSED: &str = "refused";

/// How many layouts are kept, and how many cells there are.
#[derive(Clone, Copy, PartialEq, Eq)]
pub struct Kept {
    pub layouts: usize,
    pub cells: usize,
}

/// Adds how many layouts were made, and what is kept.
pub fn add_made(made: usize, kept: Kept, words: &mut String) -> Result<(), Fault> {
    write!(words, "made {made}, ")?;
    add_kept(kept, words)
}

/// Adds how many layouts are kept, and how many cells there are.
pub fn add_kept(kept: Kept, words: &mut String) -> Result<(), Fault> {
    write!(words, "kept {}, cells {}", kept.layouts, kept.cells)?;
    Ok(())
}

/// Adds that a tree is out of range.
pub fn add_refusal(refusal: LayRefusal, words: &mut String) -> Result<(), Fault> {
    match refusal {
        LayRefusal::Range => add_word(OUT_OF_RANGE, words),
        LayRefusal::Memory => Err(Fault::Memory),
    }
}

/// Adds what was compared with what is told above it, and whether it is the same.
pub fn add_judged(compared: &str, is_same: bool, words: &mut String) -> Result<(), Fault> {
    add_word(compared, words)?;
    add_word(if is_same { " same" } else { " other" }, words)
}

/// Adds a word.
pub fn add_word(word: &str, words: &mut String) -> Result<(), Fault> {
    words.push_str(word)?;
    Ok(())
}
