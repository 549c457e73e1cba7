ghost use Rattle.std.specs.Prelude.{◌≡◌, ◌<◌, IfOk, OnOk};
ghost use Rattle.seeded_edits.specs.Edits.{after_draws, attribute_set, drawn_edit, form_named, set_form, set_level, set_number, set_thickness};
ghost use Rattle.seeded_edits.specs.Start.{row_count, row_id};

use crate::draws::Draws;
use crate::start::{ROW_COUNT, row_id};
use fixed_units::{Memory, Txt};
use itoa::Buffer;
use math_tree::NodeId;
use std::alloc::Global;
use tree_edits::Edit;

/// Draws an edit: first its row, then its kind, then what it sets.
#[tactic(auto, unfolding(crate::specs::Edits::after_draws, crate::specs::Edits::drawn_edit, crate::specs::Edits::edit_of_kind))]
pub fn draw_edit(alloc: Global, draws: &mut Draws) -> Result<Edit, Memory>
    ensures edit { IfOk result (λ edit. edit ≡ drawn_edit draws.old) }
    ensures draws { OnOk result (draws.new ≡ after_draws draws.old) }
{
    let row = row_id(draws.below(u64::from(ROW_COUNT)) as u32);
    match draws.below(4) {
        0 => set_number(alloc, row, draws.below(1000)),
        1 => set_thickness(alloc, row, draws.below(5)),
        2 => set_level(alloc, row, draws.below(3)),
        _ => set_form(alloc, row, draws.below(3)),
    }
}

/// Sets the number in the parentheses of a row.
fn set_number(alloc: Global, row: u32, number: u64) -> Result<Edit, Memory>
    requires { row < row_id row_count }
    ensures { IfOk result (λ edit. edit ≡ set_number row number) }
{
    let text = Txt::make(alloc, Buffer::new().format(number))?;
    Ok(Edit::Text(NodeId(row + 11), text))
}

/// Sets the thickness of the rule of a row's fraction, in px.
fn set_thickness(alloc: Global, row: u32, thickness: u64) -> Result<Edit, Memory>
    requires { row < row_id row_count }
    ensures { IfOk result (λ edit. edit ≡ set_thickness row thickness) }
{
    let value = format!(in alloc; "{thickness}px")?;
    set_attribute(alloc, row + 3, "linethickness", value.as_str())
}

/// Sets the script level of a row.
fn set_level(alloc: Global, row: u32, level: u64) -> Result<Edit, Memory>
    ensures { IfOk result (λ edit. edit ≡ set_level row level) }
{
    set_attribute(alloc, row, "scriptlevel", Buffer::new().format(level))
}

/// Sets the form of a row's plus sign.
fn set_form(alloc: Global, row: u32, form: u64) -> Result<Edit, Memory>
    requires { row < row_id row_count }
    ensures { IfOk result (λ edit. edit ≡ set_form row form) }
{
    set_attribute(alloc, row + 2, "form", form_named(form))
}

/// The form of a number: 0 is `prefix`, 1 is `infix`.
fn form_named(number: u64) -> &'static str
    ensures { result.now ≡ form_named number }
{
    match number {
        0 => "prefix",
        1 => "infix",
        _ => "postfix",
    }
}

/// Sets an attribute of an element.
fn set_attribute(alloc: Global, id: u32, name: &str, value: &str) -> Result<Edit, Memory>
    ensures { IfOk result (λ edit. edit ≡ attribute_set id name.now value.now) }
{
    let name = Txt::make(alloc, name)?;
    let value = Txt::make(alloc, value)?;
    Ok(Edit::Attr(NodeId(id), name, Some(value)))
}
