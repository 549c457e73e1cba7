//! How elements are read.

use case_format::{Fault, Fields};
use math_tree::Node;
use std::alloc::Global;
use tree_json::{TreeRefusal, read_part};

/// The element of the key `element`, as in a tree file.
pub fn element_in(alloc: Global, fields: Fields) -> Result<Node, Fault> {
    match read_part(alloc, fields.value("element")?) {
        Ok(element) => Ok(element),
        Err(TreeRefusal::Fault(_)) => Err(Fault::NotAnElement),
        Err(TreeRefusal::Memory) => Err(Fault::Memory),
    }
}
