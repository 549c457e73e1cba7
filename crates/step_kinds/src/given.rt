//! What a case gives.

use case_format::{Fault, Fields};
use math_tree::Tree;
use std::alloc::Global;
use tree_json::{TreeRefusal, read_tree};

/// The tree of the key `tree`.
pub fn tree_in(alloc: Global, fields: Fields) -> Result<Tree, Fault> {
    match read_tree(alloc, fields.value("tree")?) {
        Ok(tree) => Ok(tree),
        Err(TreeRefusal::Fault(_)) => Err(Fault::NotAnElement),
        Err(TreeRefusal::Memory) => Err(Fault::Memory),
    }
}
