//! What holds of every page.
ghost use Rattle.page_facts.specs.Facts.{OrderLaw, PaintLaw, ReachLaw, RootLaw};

/// No box on a page is so large or so far away that its area is out of reach.
pub fn boxes_are_in_reach()
    ensures { ReachLaw }
{}

/// Every mark on a page can be painted.
pub fn marks_can_be_painted()
    ensures { PaintLaw }
{}

/// Boxes come in document order: none before a box whose element it is inside.
pub fn boxes_come_in_order()
    ensures { OrderLaw }
{}

/// The box of the root can be stored.
pub fn the_box_of_the_root_is_stored()
    ensures { RootLaw }
{}
