use math_tree::NodeId;
use thiserror::Error;

/// What is asked of the page of a tree.
#[derive(Clone, Copy, Debug)]
pub enum Query {
    /// A picture of it.
    Paint,
    /// Which element a point lies in: x, y, in units (1/1024 px).
    Hit(i64, i64),
    /// What to mark from one element to another.
    Select(NodeId, NodeId),
}

/// Why a query has no answer.
#[derive(Clone, Copy, Debug, PartialEq, Eq, Error)]
pub enum QueryRefusal {
    /// No element in flow has this id.
    #[error("no element in flow has the id {}", .0.0)]
    NoNode(NodeId),
    /// More would be painted than may be.
    #[error("too much would be painted")]
    TooMany,
    /// Memory was refused.
    #[error("memory was refused")]
    Memory,
}
