//! The lowest element over two others, found by one look through the tree.
ghost use Rattle.std.specs.Prelude.{◌≡◌, ◌≤◌, ◌<◌, if◌then◌else◌, IfOk};
ghost use Rattle.math_tree.specs.Trees.{element_count};
ghost use Rattle.embellished.specs.Known.{known_of};
ghost use Rattle.hit_test.specs.Running.{Sees, joined, or_own, with_kid};

use embellished::{Known, NodeView, View};
use fixed_units::Memory;
use math_tree::{Node, NodeId};
use std::alloc::Global;

/// What an element in flow is or contains of two others.
#[derive(Clone, Copy)]
pub struct Sight<'a> {
    /// It is the first of them, or contains it.
    pub first: bool,
    /// It is the second of them, or contains it.
    pub second: bool,
    /// The lowest element over both that it is or contains.
    pub over: Option<Found<'a>>,
}

/// An element with what is known of it, and which of its children in flow lead to the two.
#[derive(Clone, Copy)]
pub struct Found<'a> {
    pub node: &'a Node,
    pub known: &'a Known,
    pub span: Span,
}

/// From the place of a child on to before another.
#[derive(Clone, Copy)]
pub struct Span {
    pub from: usize,
    pub to: usize,
}

/// Looks through an element in flow and all elements in flow below it.
pub fn look<'a>(
    alloc: Global,
    node: &'a Node,
    known: &'a Known,
    first: NodeId,
    second: NodeId,
) -> Result<Sight<'a>, Memory>
    requires known { known.now ≡ known_of node.now }
    requires few { element_count node.now ≤ 65_536 }
    ensures { IfOk result (λ sight. Sees first.0 second.0 node.now sight) }
{
    let view = NodeView::make(alloc, node, known.facts, &known.kids)?;
    let kids = view.kids();
    let mut span = Span { from: kids, to: 0 };
    let mut sight = Sight {
        first: node.head.id.0 == first.0,
        second: node.head.id.0 == second.0,
        over: None,
    };
    for index in 0..kids {
        let below = &known.below.as_slice()[view.place(index)];
        let kid = look(alloc, view.node_at(index), below, first, second)?;
        span = with_kid(span, index, kid.first | kid.second);
        sight = joined(&sight, &kid);
    }
    Ok(or_own(&sight, &Found { node, known, span }))
}

/// The places of children that lead to the two, with one more child.
fn with_kid(span: Span, index: usize, leads: bool) -> Span
    requires { index < 65_536 }
    ensures { result ≡ with_kid span index leads }
{
    if leads {
        Span {
            from: span.from.min(index),
            to: index + 1,
        }
    } else {
        span
    }
}

/// What an element sees, with one more child.
fn joined<'a>(sight: &Sight<'a>, kid: &Sight<'a>) -> Sight<'a>
    ensures { result ≡ joined sight.now kid.now }
{
    Sight {
        first: sight.first | kid.first,
        second: sight.second | kid.second,
        over: match sight.over {
            Some(found) => Some(found),
            None => kid.over,
        },
    }
}

/// What an element sees, itself among it.
fn or_own<'a>(sight: &Sight<'a>, own: &Found<'a>) -> Sight<'a>
    ensures { result ≡ or_own sight.now own.now }
{
    Sight {
        first: sight.first,
        second: sight.second,
        over: match sight.over {
            Some(found) => Some(found),
            None => own_if(sight.first & sight.second, own),
        },
    }
}

fn own_if<'a>(is_over: bool, own: &Found<'a>) -> Option<Found<'a>>
    ensures { result ≡ (if is_over then Some own.now else None) }
{
    if is_over { Some(*own) } else { None }
}
