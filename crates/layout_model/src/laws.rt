//! What holds of the layout of all elements, whatever their kinds are.
//!
//! A law is proved where it is a contract, so each function here has one and computes nothing.
//! Proofs above cite `proofs/Trees` itself.
ghost use Rattle.layout_model.specs.Cornerless.{CornerlessLaw};
ghost use Rattle.layout_model.specs.Direction.{TwiceLaw};
ghost use Rattle.layout_model.specs.Laid.{DrawnLaw, LaidKidsLaw, LevelsLaw, OffsetsLaw, StoredLaw};
ghost use Rattle.layout_model.specs.Laws.{LaidLaw, LayoutLaw, SpansLaw, VisitsLaw};
ghost use Rattle.layout_model.specs.LeftToRight.{LeftToRightLaw};
ghost use Rattle.layout_model.specs.Made.{MadeLaw, ReadsLaw, TwoContextsLaw};
ghost use Rattle.layout_model.specs.PlainTables.{PlainTablesLaw};
ghost use Rattle.layout_model.specs.Waves.{AlikeLaw, AskedLaw, EachWaveLaw, HandedLaw, OnceLaw, PlainLaw};

/// An element is laid out by its equation, over the layouts of its children in flow.
pub fn an_element_is_its_equation_over_its_children()
    ensures { LayoutLaw }
{}

/// The answer of an element tells of all its cells what they span, or of none, and within the
/// limits.
pub fn spans_are_told_of_all_cells()
    ensures { SpansLaw }
{}

/// A table of which no row tells what a cell spans has the columns and the rows of a plain one, and
/// asks these as that does.
pub fn where_no_cell_spans_a_table_is_plain()
    ensures { PlainTablesLaw }
{}

/// Where no glyph has a kern, scripts are laid out without corners: every tree has the boxes that
/// it had before files had kerns.
pub fn without_kerns_no_tree_has_corners()
    ensures { CornerlessLaw }
{}

/// A tree in which no element is from right to left has the boxes that it had before elements had a
/// direction.
pub fn without_a_direction_nothing_is_mirrored()
    ensures { LeftToRightLaw }
{}

/// Mirroring twice is nothing.
pub fn mirroring_twice_is_nothing()
    ensures { TwiceLaw }
{}

/// The layouts that are made for an element are its own, and those made for what it asks.
pub fn what_is_asked_is_made()
    ensures { VisitsLaw }
{}

/// A tree that is laid out has, below each element, its children in flow, each in the context of
/// the last question to it.
pub fn children_are_laid_out_as_asked_last()
    ensures { LaidLaw }
{}

/// No wave asks a child twice.
pub fn each_wave_asks_a_child_at_most_once()
    ensures { EachWaveLaw }
{}

/// An element that is asked with a stretch asks each of its children just once in both waves, and
/// so does a row of a table.
pub fn who_is_stretched_asks_each_child_once()
    ensures { OnceLaw }
{}

/// Each child in flow is asked.
pub fn each_child_in_flow_is_asked()
    ensures { AskedLaw }
{}

/// A question to a child has the style and the form of the child's place. All that one element asks
/// one child have a stretch or none has, and without one they are the same question; but for the
/// rows of a table.
pub fn a_child_is_asked_alike()
    ensures { AlikeLaw }
{}

/// A child that is no operator is asked with form infix and without stretch, but for the rows of a
/// table.
pub fn who_is_no_operator_is_asked_plainly()
    ensures { PlainLaw }
{}

/// Only operators are asked with a pull, along the axis along which they stretch, and only rows of
/// tables with columns or slots.
pub fn operators_alone_are_stretched()
    ensures { HandedLaw }
{}

/// Which layouts are made for that of an element: its own, and with each those of all that it asks,
/// and no others.
pub fn what_is_made_is_what_is_asked()
    ensures { MadeLaw }
{}

/// A layout reads nothing of a child but its head, its facts, and its answers to what it is asked.
pub fn children_are_read_by_their_answers()
    ensures { ReadsLaw }
{}

/// No element of a tree is laid out in more than two contexts.
pub fn no_element_is_laid_out_in_three_contexts()
    ensures { TwoContextsLaw }
{}

/// Where all layouts that are made for an element can be stored, so can each outcome in its
/// laid-out tree.
pub fn what_is_laid_out_can_be_stored()
    ensures { StoredLaw }
{}

/// The marks of a laid-out tree name glyphs of the font.
pub fn marks_name_glyphs_of_the_font()
    ensures { DrawnLaw }
{}

/// A laid-out tree has no more levels than the tree.
pub fn layout_makes_no_tree_deeper()
    ensures { LevelsLaw }
{}

/// An outcome has one offset for each child in flow, in order.
pub fn outcomes_place_all_children()
    ensures { OffsetsLaw }
{}

/// A laid-out element has its children in flow, in order.
pub fn all_children_in_flow_are_laid_out()
    ensures { LaidKidsLaw }
{}
