ghost use Rattle.std.specs.Prelude.{◌≡◌};
ghost use Rattle.op_dictionary.specs.Dictionary.{is_bare, own_category, category_of_base, category_of, axis_of};

use crate::built_in::{built_in_category, is_inline};
use crate::extra::Extra;
use crate::operator::{Axis, Category, Form};
use crate::text::OpText;

/// The category of an operator by its text and form (MathML Core, B.1).
///
/// A form is fixed where the element's own attribute gives it. Where it isn't and the dictionary
/// lacks the text in it, the category is that of another form.
#[tactic(auto, unfolding(crate::specs::Dictionary::category_of))]
pub fn category(text: OpText, form: Form, fixed: bool, extra: &Extra) -> Category
    ensures { result ≡ category_of text form fixed extra.now }
{
    if text.is_short() {
        category_of_base(text.base(), form, fixed, extra)
    } else {
        Category::Default
    }
}

/// The axis along which an operator with this text stretches (MathML Core, B.2).
#[tactic(auto, unfolding(crate::specs::Dictionary::axis_of))]
pub fn axis(text: OpText, extra: &Extra) -> Axis
    ensures { result ≡ axis_of text extra.now }
{
    let text = text.base();
    match extra.axis(text) {
        Some(axis) => axis,
        None if is_inline(text) => Axis::Inline,
        None => Axis::Block,
    }
}

fn category_of_base(text: OpText, form: Form, fixed: bool, extra: &Extra) -> Category
    ensures { result ≡ category_of_base text form fixed extra.now }
{
    if is_bare(text, form) && !extra.has(text, form) {
        return Category::Default;
    }
    let own = own_category(text, form, extra);
    if fixed || !own.is_default() {
        return own;
    }
    // A form that was only guessed gives way to the forms in which the dictionary has the text.
    let infix = own_category(text, Form::Infix, extra);
    if !infix.is_default() {
        return infix;
    }
    let postfix = own_category(text, Form::Postfix, extra);
    if !postfix.is_default() {
        return postfix;
    }
    own_category(text, Form::Prefix, extra)
}

// Between operands a vertical bar or a tilde operator is a relation, not a fence (MathML Core, B.1,
// "ForceDefault"). Own choice: an operator line that names the pair comes first.
fn is_bare(text: OpText, form: Form) -> bool
    ensures { result ≡ is_bare text form }
{
    matches!((text, form), (OpText::One('|' | '\u{223C}'), Form::Infix))
}

#[tactic(auto, unfolding(crate::specs::Dictionary::own_category))]
fn own_category(text: OpText, form: Form, extra: &Extra) -> Category
    ensures { result ≡ own_category text form extra.now }
{
    match extra.category(text, form) {
        Some(category) => category,
        None => built_in_category(text, form),
    }
}
