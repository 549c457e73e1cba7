ghost use Rattle.std.specs.Prelude.{◌≡◌, ◌↔◌, Some};
ghost use Rattle.op_dictionary.specs.declared.operator.Axis.{Axis};
ghost use Rattle.embellished.specs.Forms.{StretchesAlong, core_axis, stretch_axis};

use crate::facts::{Core, Facts};
use crate::operator::operator_properties;
use op_dictionary::{Axis, Extra, Form, axis};

/// The axis along which an element stretches in a form, where it does (MathML Core 3.2.4.3): it is
/// an embellished operator, its core's `stretchy` is true in this form, and the axis is that of its
/// core's text.
#[tactic(auto, unfolding(crate::specs::Forms::stretch_axis))]
pub fn stretch_axis(facts: Facts, form: Form, extra: &Extra) -> Option<Axis>
    ensures { result ≡ stretch_axis facts form extra.now }
{
    core_axis(&facts.core?, form, extra)
}

fn core_axis(core: &Core, form: Form, extra: &Extra) -> Option<Axis>
    ensures { result ≡ core_axis form extra.now core.now }
{
    if operator_properties(core, form, extra).stretchy {
        Some(axis(core.text, extra))
    } else {
        None
    }
}
