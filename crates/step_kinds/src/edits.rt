//! Edits of a tree alone, of which nothing is laid out.
ghost use Rattle.tree_edits.specs.Applying.{IsProperEdit};

use case_format::Fault;
use math_tree::Tree;
use std::alloc::Global;
use tree_edits::{Command, CommandRefusal, Edit, EditRefusal, apply, read_command, restore};

/// Whether an edit of a tree can be made and taken back.
pub fn edit_and_back(alloc: Global, tree: &mut Tree, line: &[u8]) -> Result<bool, Fault> {
    match read_command(alloc, line) {
        Ok(Command::Change(edit)) => change_and_back(alloc, tree, edit),
        Ok(Command::Show) | Err(CommandRefusal::BadLine) => Ok(false),
        Err(CommandRefusal::Memory) => Err(Fault::Memory),
    }
}

fn change_and_back(alloc: Global, tree: &mut Tree, edit: Edit) -> Result<bool, Fault>
    requires { IsProperEdit edit }
{
    match apply(alloc, tree, edit) {
        Ok(taken) => {
            restore(tree, taken);
            Ok(true)
        }
        Err(EditRefusal::Memory) => Err(Fault::Memory),
        Err(_) => Ok(false),
    }
}
