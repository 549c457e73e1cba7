//! What holds of all that is placed.
//!
//! A law is proved where it is a contract, so each function here has one and computes nothing.
//! Proofs above cite `proofs/Glyphs` itself.
ghost use Rattle.placement.specs.Laws.{GlyphLaw};

/// Where the marks of a laid-out tree name glyphs of the font, so does what is placed of it.
pub fn what_is_placed_names_glyphs_of_the_font()
    ensures { GlyphLaw }
{}
