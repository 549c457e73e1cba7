//! A law of the definitions. It is a contract, so that it is proved; the function computes nothing.
ghost use Rattle.math_tree.specs.Laws.{CountLaw};

/// The elements in a node are itself and those in its children, and so are the bytes; it has fewer
/// children than elements. So an element of a whole tree has at most 65,535 children.
pub fn elements_are_counted()
    ensures { CountLaw }
{}
