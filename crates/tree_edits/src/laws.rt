//! Laws of the definitions. Each is a contract, so that it is proved; the functions compute
//! nothing.
ghost use Rattle.tree_edits.specs.Inverses.{InverseLaw, LaterLaw};
ghost use Rattle.tree_edits.specs.Laws.{OwnChangeLaw, ParentChangeLaw};

/// In a whole tree an edit of the element that it names changes that element and no other.
pub fn an_edit_changes_the_element_that_it_names()
    ensures { OwnChangeLaw }
{}

/// In a whole tree an edit that takes or changes a child changes the element over it and no other.
pub fn an_edit_changes_the_element_over_the_one_that_it_names()
    ensures { ParentChangeLaw }
{}

/// The inverse of an edit gives back the elements of before, with their ids.
pub fn an_inverse_gives_back_the_elements_of_before()
    ensures { InverseLaw }
{}

/// An edit that gives no new ids is taken with a later next id too, and makes the same of the tree.
pub fn an_edit_that_gives_no_ids_is_taken_later_too()
    ensures { LaterLaw }
{}
