ghost use Rattle.std.specs.Prelude.{IfOk};
ghost use Rattle.tree_edits.specs.Commands.{Gives, IsProperCommand, command_in};

use crate::line::said_in;
use json::Scratch;
use std::alloc::Global;
use tree_edits::{Command, CommandRefusal, read_command};

/// Reads lines of a script, with memory that it keeps from one to the next.
#[derive(Drop)]
pub struct CommandReader {
    scratch: Scratch,
}

impl CommandReader {
    /// A reader of no line yet. It takes no memory.
    pub fn make(alloc: Global) -> CommandReader {
        CommandReader {
            scratch: Scratch::new(alloc),
        }
    }

    /// Reads a line of a script: a JSON object with the keys of its command and no others. The
    /// elements in it are in their form. It gives and refuses what `read_command` does.
    pub fn read(&mut self, alloc: Global, line: &[u8]) -> Result<Command, CommandRefusal>
        ensures reads { Gives (command_in line.now) result }
        ensures proper { IfOk result IsProperCommand }
    {
        let Some(said) = said_in(alloc, &mut self.scratch, line)? else {
            return read_command(alloc, line);
        };
        match said.into_command() {
            Some(command) => Ok(command),
            None => read_command(alloc, line),
        }
    }
}
