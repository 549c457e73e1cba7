/// What is read of a value. Only the first element of a whole tree has to be `math`.
#[derive(Clone, Copy, Debug, PartialEq, Eq)]
pub enum Portion {
    /// A whole tree.
    Whole,
    /// An element with all below it, which is to stand in a tree.
    Part,
}
