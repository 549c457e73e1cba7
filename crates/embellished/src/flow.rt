ghost use Rattle.std.specs.Prelude.{◌≡◌, if◌then◌else◌, [], ◌∷◌, ◌++◌, IfOk, OnOk};
ghost use Rattle.std.specs.List.{list_all};
ghost use Rattle.math_tree.specs.declared.kind.Kind.{Kind};
ghost use Rattle.embellished.specs.Flow.{may_show, shown_by, shows_each, flow_by};

use crate::kinds::{is_annotation, is_prescripts_mark, shows_its_first, shows_none};
use fixed_units::Memory;
use math_tree::Kind;
use std::alloc::Global;

/// A child of which it is known as which kind it is laid out.
pub trait LaidOut: Copy {
    /// The kind as which it is laid out.
    ghost kind: { Self → Kind };

    fn laid(&self) -> Kind
        ensures { result ≡ kind self.now };
}

/// Whether kinds alone tell that all these children of an element that is laid out as this kind are
/// in flow. Where they don't, `flow` says which are.
pub fn shows_each<T: LaidOut>(laid: Kind, kids: &[T]) -> bool
    ensures { result ≡ shows_each T.kind laid kids.now }
{
    let is_plain = !shows_none(laid) && !shows_its_first(laid);
    is_plain && !matches!(laid, Kind::Mmultiscripts) && all_may_show(laid, kids)
}

/// Whether each of these children may be in flow.
fn all_may_show<T: LaidOut>(laid: Kind, kids: &[T]) -> bool
    ensures { result ≡ list_all (λ kid. may_show laid (T.kind kid)) kids.now }
{
    kids.iter().all(|kid| may_show(laid, kid.laid()))
}

/// The children in flow of an element that is laid out as this kind.
#[tactic(auto, unfolding(crate::specs::Flow::flow_by))]
pub fn flow<T: LaidOut>(alloc: Global, laid: Kind, kids: &[T]) -> Result<Vec<T>, Memory>
    ensures { IfOk result (λ flow. flow.items ≡ flow_by T.kind laid kids.now) }
{
    if shows_none(laid) {
        return Ok(Vec::new(alloc));
    }
    if shows_its_first(laid) {
        return shown(alloc, laid, &kids[..kids.len().min(1)]);
    }
    shown(alloc, laid, kids)
}

/// Those of the children that may be in flow.
fn shown<T: LaidOut>(alloc: Global, laid: Kind, kids: &[T]) -> Result<Vec<T>, Memory>
    ensures { IfOk result (λ flow. flow.items ≡ shown_by T.kind laid kids.now) }
{
    let mut flow = Vec::with_capacity(alloc, kids.len())?;
    for kid in kids {
        push_if(&mut flow, may_show(laid, kid.laid()), *kid)?;
    }
    Ok(flow)
}

/// Adds an item at the end, where it is to be kept.
pub fn push_if<T: Copy>(items: &mut Vec<T>, is_kept: bool, item: T) -> Result<(), Memory>
    ensures { OnOk result
        (items.new.items ≡ items.old.items ++ (if is_kept then item ∷ [] else [])) }
{
    if is_kept {
        items.push(item)?;
    }
    Ok(())
}

/// Whether a child that may be in flow is: no annotation, and no mark of a valid `mmultiscripts`.
pub fn may_show(laid: Kind, kid: Kind) -> bool
    ensures { result ≡ may_show laid kid }
{
    !is_annotation(kid) && !(matches!(laid, Kind::Mmultiscripts) && is_prescripts_mark(kid))
}
