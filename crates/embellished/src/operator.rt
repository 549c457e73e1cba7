ghost use Rattle.std.specs.Prelude.{◌≡◌, IfOk};
ghost use Rattle.embellished.specs.Facts.{form_of_word, form_in, truth_in, core_of_operator};
ghost use Rattle.embellished.specs.Forms.{properties_at};

use crate::facts::Core;
use crate::texts::{op_text, shown_text};
use fixed_units::{Memory, is_word};
use math_tree::{Attributes, Head, truth_of_word};
use op_dictionary::{Extra, Form, Properties, category, properties};
use std::alloc::Global;

/// The properties of an operator in a form: those of the dictionary, unless an attribute of the
/// core says otherwise (MathML Core 3.2.4.3).
#[tactic(auto, unfolding(crate::specs::Forms::properties_at))]
pub fn operator_properties(core: &Core, form: Form, extra: &Extra) -> Properties
    ensures { result ≡ properties_at core.now form extra.now }
{
    let listed = properties(category(core.text, form, core.form.is_some(), extra));
    Properties {
        lspace: listed.lspace,
        rspace: listed.rspace,
        stretchy: core.stretchy.unwrap_or(listed.stretchy),
        symmetric: core.symmetric.unwrap_or(listed.symmetric),
        largeop: core.largeop.unwrap_or(listed.largeop),
        movablelimits: core.movablelimits.unwrap_or(listed.movablelimits),
    }
}

/// An `mo` as the core of an embellished operator.
#[tactic(auto, unfolding(crate::specs::Facts::core_of_operator))]
pub fn core_of_operator(alloc: Global, head: &Head) -> Result<Core, Memory>
    ensures { IfOk result (λ core. core ≡ core_of_operator head.now) }
{
    let text = shown_text(alloc, head.text.as_str())?;
    let attributes = &head.attributes;
    Ok(Core {
        text: op_text(text.as_str()),
        form: form_in(attributes),
        stretchy: truth_in("stretchy", attributes),
        symmetric: truth_in("symmetric", attributes),
        largeop: truth_in("largeop", attributes),
        movablelimits: truth_in("movablelimits", attributes),
    })
}

/// The form that the attribute `form` gives.
#[tactic(auto, unfolding(crate::specs::Facts::form_in))]
fn form_in(attributes: &Attributes) -> Option<Form>
    ensures { result ≡ form_in attributes.now }
{
    form_of_word(attributes.get("form")?)
}

/// The truth value that an attribute gives.
#[tactic(auto, unfolding(crate::specs::Facts::truth_in))]
fn truth_in(name: &str, attributes: &Attributes) -> Option<bool>
    ensures { result ≡ truth_in name.now attributes.now }
{
    truth_of_word(attributes.get(name)?)
}

#[tactic(auto, unfolding(crate::specs::Facts::form_of_word))]
fn form_of_word(value: &str) -> Option<Form>
    ensures { result ≡ form_of_word value.now }
{
    if is_word(value, "prefix") {
        Some(Form::Prefix)
    } else if is_word(value, "infix") {
        Some(Form::Infix)
    } else if is_word(value, "postfix") {
        Some(Form::Postfix)
    } else {
        None
    }
}
