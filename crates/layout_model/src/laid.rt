use crate::outcome::Outcome;
use fixed_units::List;
use math_tree::Head;

/// An element of a tree that is laid out, with its children in flow.
///
/// It is plain data that holds itself: contracts read the layer of one as `out-Laid` of it.
#[derive(Debug, Drop)]
pub struct Laid {
    pub head: Head,
    pub outcome: Outcome,
    /// The children in flow, in order, each laid out in the context of the last question to it.
    pub kids: List<Laid>,
}
