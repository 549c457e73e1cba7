//! What the members of a line say, in whatever order they come.
ghost use Rattle.std.specs.Prelude.{◌≡◌, None, Some, false, unwrap_or, IfSome};
ghost use Rattle.tree_edits.specs.Commands.{IsProperCommand, as_id, command_of};
ghost use Rattle.command_reader.specs.Said.{IsUnsaid, line_of};
ghost use Rattle.command_reader.specs.declared.keys.Op.TheVariants as ops;

use crate::keys::{Key, Op};
use fixed_units::Txt;
use math_tree::NodeId;
use tree_edits::{Command, Edit};

/// What the members of a line say, as far as they are read. A value may be null.
#[derive(Debug, Drop)]
pub struct Said {
    pub op: Option<Op>,
    pub node: Option<u64>,
    pub name: Option<Txt>,
    pub text: Option<Txt>,
    pub value: Option<Option<Txt>>,
}

impl Said {
    /// Nothing yet.
    pub fn nothing() -> Said
        ensures { result ≡ record {
          op = None;
          node = None;
          name = None;
          text = None;
          value = None;
        } }
    {
        Said {
            op: None,
            node: None,
            name: None,
            text: None,
            value: None,
        }
    }

    /// Whether the member of a key is read already.
    pub fn has(&self, key: Key) -> bool
        ensures { result ≡ false → IsUnsaid key self.now }
    {
        match key {
            Key::Op => self.op.is_some(),
            Key::Node => self.node.is_some(),
            Key::Name => self.name.is_some(),
            Key::Text => self.text.is_some(),
            Key::Value => self.value.is_some(),
            Key::End => false,
        }
    }

    /// The command of a line that says this, where it has the members that its word wants and no
    /// others.
    pub fn into_command(self) -> Option<Command>
        ensures reads { IfSome result (λ command. command_of (line_of self) ≡ Some command) }
        ensures proper { IfSome result IsProperCommand }
    {
        match self.op {
            Some(Op::Show) => self.into_show(),
            Some(Op::Text) => self.into_text(),
            Some(Op::Attr) => self.into_attribute(),
            Some(Op::Remove) => self.into_removal(),
            None => None,
        }
    }

    /// The same where the word is `show`.
    fn into_show(self) -> Option<Command>
        requires { self.op ≡ Some ops.Show }
        ensures reads { IfSome result (λ command. command_of (line_of self) ≡ Some command) }
        ensures proper { IfSome result IsProperCommand }
    {
        let Said {
            op: _,
            node,
            name,
            text,
            value,
        } = self;
        let None = node else {
            return None;
        };
        let None = name else {
            return None;
        };
        let None = text else {
            return None;
        };
        let None = value else {
            return None;
        };
        Some(Command::Show)
    }

    /// The same where it is `text`.
    fn into_text(self) -> Option<Command>
        requires { self.op ≡ Some ops.Text }
        ensures reads { IfSome result (λ command. command_of (line_of self) ≡ Some command) }
        ensures proper { IfSome result IsProperCommand }
    {
        let Said {
            op: _,
            node,
            name,
            text,
            value,
        } = self;
        let None = name else {
            return None;
        };
        let None = value else {
            return None;
        };
        let Some(node) = node else {
            return None;
        };
        let Some(text) = text else {
            return None;
        };
        Some(Command::Change(Edit::Text(as_id(node), text)))
    }

    /// The same where it is `attr`.
    fn into_attribute(self) -> Option<Command>
        requires { self.op ≡ Some ops.Attr }
        ensures reads { IfSome result (λ command. command_of (line_of self) ≡ Some command) }
        ensures proper { IfSome result IsProperCommand }
    {
        let Said {
            op: _,
            node,
            name,
            text,
            value,
        } = self;
        let None = text else {
            return None;
        };
        let Some(node) = node else {
            return None;
        };
        let Some(name) = name else {
            return None;
        };
        let value = set(value);
        Some(Command::Change(Edit::Attr(as_id(node), name, value)))
    }

    /// The same where it is `remove`.
    fn into_removal(self) -> Option<Command>
        requires { self.op ≡ Some ops.Remove }
        ensures reads { IfSome result (λ command. command_of (line_of self) ≡ Some command) }
        ensures proper { IfSome result IsProperCommand }
    {
        let Said {
            op: _,
            node,
            name,
            text,
            value,
        } = self;
        let None = name else {
            return None;
        };
        let None = text else {
            return None;
        };
        let None = value else {
            return None;
        };
        let Some(node) = node else {
            return None;
        };
        Some(Command::Change(Edit::Remove(as_id(node))))
    }
}

/// A number as an id. One that is larger than any id stands for 0, which no element of a tree that
/// was read has.
fn as_id(number: u64) -> NodeId
    ensures { result ≡ as_id number }
{
    if number < 1 << 32 {
        NodeId(number as u32)
    } else {
        NodeId(0)
    }
}

/// The value that an attribute gets: none where the line says none.
fn set(value: Option<Option<Txt>>) -> Option<Txt>
    ensures { result ≡ unwrap_or value None }
{
    match value {
        Some(set) => set,
        None => None,
    }
}
