//! One change of one element, in place and without memory.
ghost use Rattle.std.specs.Prelude.{◌≡◌, ◌<◌, length, Some, option_map};
ghost use Rattle.math_tree.specs.Attributes.{value_of};
ghost use Rattle.math_tree.specs.Trees.{node};
ghost use Rattle.tree_edits.specs.Edits.{head_of, with_attribute};
ghost use Rattle.tree_edits.specs.Paths.{children_of, node_at, changed, changed_at, Fits, FitsAt, replaced_by};

use fixed_units::{Room, Txt};
use math_tree::{Attribute, Node};
use splices::Splice;
use std::mem;

/// What is to become of an element. It has the room for what it adds.
#[derive(Debug, Drop)]
pub enum Change {
    /// It gets this text.
    SetText(Txt),
    /// It gets this value for the attribute of that name, or loses the attribute.
    SetValue(Txt, Option<Txt>, Room<Attribute>),
    /// Its children are spliced.
    Children(Splice<Node>),
}

/// What a change replaced.
#[derive(Debug, Drop)]
pub enum Replaced {
    /// The text of the element.
    Text(Txt),
    /// The value of the attribute, where there was one.
    Value(Option<Txt>),
    /// The child that was taken out, where one was.
    Child(Option<Node>),
}

/// Changes an element.
pub fn carry_out(node: &mut Node, change: Change) -> Replaced
    requires { Fits change node.old }
    ensures element { node.new ≡ changed change node.old }
    ensures replaced { result ≡ replaced_by change node.old }
{
    match change {
        Change::SetText(text) => Replaced::Text(mem::replace(&mut node.head.text, text)),
        Change::SetValue(name, value, room) => Replaced::Value(set_value(node, name, value, room)),
        Change::Children(splice) => Replaced::Child(splice.apply_to(&mut node.children)),
    }
}

/// Sets the value of an attribute of an element, or removes the attribute.
fn set_value(
    element: &mut Node,
    name: Txt,
    value: Option<Txt>,
    room: Room<Attribute>,
) -> Option<Txt>
    requires { length (head_of element.old).attributes < room }
    ensures changed { element.new ≡
        node (with_attribute name value (head_of element.old)) (children_of element.old) }
    ensures replaced { result ≡ value_of name (head_of element.old).attributes }
{
    match value {
        Some(value) => element.head.attributes.put(Attribute { name, value }, room),
        None => element.head.attributes.remove(name.as_str()),
    }
}

/// Changes the element at the end of a way.
pub fn carry_out_at(node: &mut Node, path: &[u16], change: Change) -> Replaced
    requires { FitsAt change path.now node.old }
    ensures element { node.new ≡ changed_at (changed change) path.now node.old }
    ensures replaced { option_map (replaced_by change) (node_at path.now node.old) ≡ Some result }
{
    if path.len() == 0 {
        carry_out(node, change)
    } else {
        carry_out_at(node.children.at_mut(path[0] as usize), &path[1..], change)
    }
}
