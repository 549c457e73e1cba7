//! What is said of an element itself, from what was looked up of it.
ghost use Rattle.std.specs.Prelude.{◌≡◌, IfOk};
ghost use Rattle.serde_json.specs.View.{view, members_view};
ghost use Rattle.tree_json.specs.Elements.{attributes_held, attributes_of};
ghost use Rattle.tree_json.specs.Keys.{IsSaid};
ghost use Rattle.tree_json.specs.Reading.{head_of};

use crate::element::{Keys, attributes_in, text_held, text_or_empty};
use fixed_units::{List, Memory, Txt};
use math_tree::{Attribute, Attributes, Head, NodeId};
use serde_json::{Map, Value};
use std::alloc::Global;

/// What a JSON value says of an element, under this id.
pub fn head_of(alloc: Global, id: NodeId, keys: &Keys) -> Result<Head, Memory>
    requires said { IsSaid keys.now }
    ensures { IfOk result (λ head. head ≡ head_of id.0 (view keys.now.value.now)) }
{
    Ok(Head {
        id,
        name: Txt::make(alloc, keys.name)?,
        kind: keys.kind,
        attributes: attributes_held(alloc, keys)?,
        text: Txt::make(alloc, text_held(keys))?,
    })
}

/// The attributes that a JSON value says of an element.
#[tactic(auto, unfolding(crate::specs::Elements::attributes_held))]
fn attributes_held(alloc: Global, keys: &Keys) -> Result<Attributes, Memory>
    requires said { IsSaid keys.now }
    ensures { IfOk result
        (λ attributes. attributes ≡ attributes_held (view keys.now.value.now)) }
{
    match attributes_in(keys) {
        Some(members) => attributes_of(alloc, members),
        None => Ok(Attributes::make(alloc)),
    }
}

fn attributes_of(alloc: Global, members: &Map<String, Value>) -> Result<Attributes, Memory>
    ensures { IfOk result
        (λ attributes. attributes ≡ attributes_of (members_view members.now.entries)) }
{
    let mut items = List::make(alloc);
    for (name, value) in members.iter() {
        items.push(Attribute::make(alloc, name, text_or_empty(value))?)?;
    }
    Ok(Attributes::of(items))
}
