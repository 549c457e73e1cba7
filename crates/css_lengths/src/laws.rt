//! The law of the form of lengths.
//!
//! A law is proved where it is a contract, so the function here has one and computes nothing.
//! Proofs cite the lemmas themselves, in `proofs/Parts`.
ghost use Rattle.std.specs.Prelude.{◌≡◌, ◌↔◌, ℕ, List, Some, None};
ghost use Rattle.css_lengths.specs.Grammar.{Writes};
ghost use Rattle.css_lengths.specs.Lengths.{length_of};
ghost use Rattle.css_lengths.specs.declared.lengths.LengthText.{LengthText};

/// A text is a length exactly where it has the form of one, and the length that it writes.
pub fn lengths_have_their_form()
    ensures written { (text : List ℕ) (length : LengthText) →
        (length_of text ≡ Some length) ↔ Writes text length }
    ensures none { (text : List ℕ) →
        (length_of text ≡ None) ↔ ¬ ((length : LengthText) × Writes text length) }
{}
