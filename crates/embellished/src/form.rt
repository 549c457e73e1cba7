ghost use Rattle.std.specs.Prelude.{◌≡◌, ◌<◌, length};
ghost use Rattle.embellished.specs.Fences.{fences_in};
ghost use Rattle.embellished.specs.Forms.{leads, fence_form, form_by_place, form_at};
ghost use Rattle.embellished.specs.Seen.{seen_of};

use crate::facts::Facts;
use crate::fences::{Fences, fences_of};
use crate::kinds::{has_fences, is_led_by_its_base};
use crate::view::View;
use math_tree::Kind;
use op_dictionary::Form;

/// The form of a child in flow, where its parent's own form is given (MathML Core 3.2.4.2).
///
/// An attribute of its core gives it. Else a child that leads to the core of its parent has the
/// parent's form, and any other the form of its place. A child that is no operator is infix.
///
/// It looks at all children; for the forms of many of them take `form_within`.
pub fn form_of<V: View>(parent: &V, index: usize, own: Form) -> Form
    requires { index < length (seen_of (V.element parent.now)).kids }
    ensures { result ≡ form_at (seen_of (V.element parent.now)) index own }
{
    form_within(parent, fences_of(parent), index, own)
}

/// The same, where the parent's fences are known. It looks at this child alone.
#[tactic(auto, unfolding(crate::specs::Forms::form_at))]
pub fn form_within<V: View>(parent: &V, fences: Fences, index: usize, own: Form) -> Form
    requires known { fences ≡ fences_in (seen_of (V.element parent.now)).kids }
    requires within { index < length (seen_of (V.element parent.now)).kids }
    ensures { result ≡ form_at (seen_of (V.element parent.now)) index own }
{
    let kid = parent.kid_facts(index);
    let Some(core) = kid.core else {
        return Form::Infix;
    };
    if let Some(form) = core.form {
        return form;
    }
    let facts = parent.facts();
    if facts.core.is_some() && leads(facts.laid, kid, index) {
        own
    } else {
        form_by_place(parent, facts.laid, fences, index)
    }
}

/// Whether a child leads to the core of its embellished parent.
fn leads(laid: Kind, kid: Facts, index: usize) -> bool
    ensures { result ≡ leads laid kid index }
{
    if is_led_by_its_base(laid) {
        index == 0
    } else {
        !kid.space_like
    }
}

/// The form that the place of a child gives it.
#[tactic(auto, unfolding(crate::specs::Forms::form_by_place))]
fn form_by_place<V: View>(parent: &V, laid: Kind, fences: Fences, index: usize) -> Form
    requires known { fences ≡ fences_in (seen_of (V.element parent.now)).kids }
    requires within { index < length (seen_of (V.element parent.now)).kids }
    ensures { result ≡ form_by_place laid (seen_of (V.element parent.now)).kids index }
{
    if has_fences(laid) {
        fence_form(parent, fences, index)
    } else if laid.is_scripted() && 0 < index {
        Form::Postfix
    } else {
        Form::Infix
    }
}

/// Prefix for the first child that isn't space-like and postfix for the last, where there is more
/// than one of them.
#[tactic(auto, using(crate::proofs::FencePlaces::fence_is))]
fn fence_form<V: View>(parent: &V, fences: Fences, index: usize) -> Form
    requires known { fences ≡ fences_in (seen_of (V.element parent.now)).kids }
    requires within { index < length (seen_of (V.element parent.now)).kids }
    ensures { result ≡ fence_form (seen_of (V.element parent.now)).kids index }
{
    // The view's count bounds the index.
    let _count = parent.kids();
    match (index <= fences.first, fences.end <= index + 1) {
        (true, false) => Form::Prefix,
        (false, true) => Form::Postfix,
        _ => Form::Infix,
    }
}
