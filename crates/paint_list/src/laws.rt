//! What holds of every SVG.
//!
//! A law is proved where it is a contract, so each function here has one and computes nothing.
ghost use Rattle.paint_list.specs.Laws.{NameLaw};

/// Whatever the names of the glyphs are, none has a byte that the value of an attribute may not
/// have as it is (XML 1.0, 2.3).
pub fn names_need_no_escape()
    ensures { NameLaw }
{}
