//! What the members of an element say, in whatever order they come.
ghost use Rattle.std.specs.Prelude.{◌≡◌, [], None, false, true, unwrap_or, IfOk, IfSome};
ghost use Rattle.tree_json.specs.Faults.{is_misplaced};
ghost use Rattle.math_tree.specs.Forms.{is_name};
ghost use Rattle.math_tree.specs.Kinds.{is_text_kind};
ghost use Rattle.tree_json.specs.declared.portion.Portion.TheVariants.{Whole};
ghost use Rattle.tree_reader.specs.Said.{IsMadeOf, IsUnsaid};

use crate::keys::Key;
use fixed_units::{List, Memory, Txt};
use math_tree::{Attributes, Head, Kind, Node, NodeId, is_name};
use std::alloc::Global;

/// What the members of an element say, as far as they are read.
#[derive(Debug, Drop)]
pub struct Said {
    pub name: Option<Txt>,
    pub attributes: Option<Attributes>,
    pub text: Option<Txt>,
    pub children: Option<List<Node>>,
}

impl Said {
    /// Nothing yet.
    pub fn nothing() -> Said
        ensures { result ≡ record {
          name = None;
          attributes = None;
          text = None;
          children = None;
        } }
    {
        Said {
            name: None,
            attributes: None,
            text: None,
            children: None,
        }
    }

    /// Whether the member of a key is read already.
    pub fn has(&self, key: Key) -> bool
        ensures { result ≡ false → IsUnsaid key self.now }
    {
        match key {
            Key::Name => self.name.is_some(),
            Key::Attributes => self.attributes.is_some(),
            Key::Text => self.text.is_some(),
            Key::Children => self.children.is_some(),
            Key::End => false,
        }
    }

    /// The element of which this is said, under an id, where it may stand there.
    pub fn into_node(self, alloc: Global, id: NodeId) -> Result<Option<Node>, Memory>
        ensures { IfOk result (λ found. IfSome found (IsMadeOf self id.0)) }
    {
        let Said {
            name,
            attributes,
            text,
            children,
        } = self;
        let Some(name) = name else {
            return Ok(None);
        };
        let kind = Kind::of_name(name.as_str());
        let text = text_or_empty(alloc, text)?;
        if !is_in_place(name.as_str(), id) || !may_have(kind, &text, &children) {
            return Ok(None);
        }
        let head = Head {
            id,
            name,
            kind,
            attributes: attributes_or_none(alloc, attributes),
            text,
        };
        // (this says that the attributes stand in order)
        let _in_order = head.attributes.as_slice();
        let children = children_or_none(alloc, children);
        Ok(Some(Node { head, children }))
    }
}

/// Whether an element may have this name under this id: a name in its form, and `math` for the
/// first one.
fn is_in_place(name: &str, id: NodeId) -> bool
    ensures formed { result ≡ true → is_name name.now ≡ true }
    ensures placed { result ≡ true → is_misplaced Whole id.0 name.now ≡ false }
{
    is_name(name) && (id.0 != 1 || name == "math")
}

/// Whether an element of this kind has a text, or may have children.
fn may_have(kind: Kind, text: &Txt, children: &Option<List<Node>>) -> bool
    ensures text { result ≡ true → is_text_kind kind ≡ false → text.now ≡ [] }
    ensures children { result ≡ true → is_text_kind kind ≡ true → children.now ≡ None }
{
    if kind.is_text() {
        children.is_none()
    } else {
        text.as_str().is_empty()
    }
}

/// These attributes, or none.
fn attributes_or_none(alloc: Global, found: Option<Attributes>) -> Attributes
    ensures { result ≡ unwrap_or found [] }
{
    match found {
        Some(attributes) => attributes,
        None => Attributes::make(alloc),
    }
}

/// This text, or the empty one.
fn text_or_empty(alloc: Global, found: Option<Txt>) -> Result<Txt, Memory>
    ensures { IfOk result (λ text. text ≡ unwrap_or found []) }
{
    match found {
        Some(text) => Ok(text),
        None => Ok(Txt::make(alloc, "")?),
    }
}

/// These children, or none.
fn children_or_none(alloc: Global, found: Option<List<Node>>) -> List<Node>
    ensures { result ≡ unwrap_or found [] }
{
    match found {
        Some(children) => children,
        None => List::make(alloc),
    }
}
