ghost use Rattle.std.specs.Prelude.{◌≡◌, ℕ, ◌^◌, [], ◌∷◌, ◌++◌, All, map, filter, nat_eq, if◌then◌else◌, IfOk, OnOk};
ghost use Rattle.std.specs.BTreeSet.{contains};
ghost use Rattle.std.specs.List.{list_any};
ghost use Rattle.std.specs.Ordering.{nat_cmp};
ghost use Rattle.fixed_units.specs.Boxes.{IsStored};
ghost use Rattle.fixed_units.specs.Numbers.{IsWithin};
ghost use Rattle.box_writer.specs.declared.placed.PlacedBox.{PlacedBox};
ghost use Rattle.hit_test.specs.Hits.{box_in};
ghost use Rattle.hit_test.specs.Selecting.{IsInReach, area_of, areas_of};

use box_writer::{PlacedBox, PlacedItem};
use fixed_units::{List, Memory};
use math_tree::NodeId;
use std::alloc::Global;
use std::collections::BTreeSet;

/// A rectangle on the page, in units (1/1024 px): `x` and `y` are its upper left corner.
#[derive(Clone, Copy, Debug, PartialEq, Eq, Drop)]
pub struct Area {
    pub x: i64,
    pub y: i64,
    pub width: i64,
    pub height: i64,
}

/// The areas of the boxes of some elements, in the order of the page.
pub fn areas_of(alloc: Global, items: &[PlacedItem], ids: &[NodeId]) -> Result<List<Area>, Memory>
    requires { All IsInReach items.now }
    ensures { IfOk result (λ areas. areas ≡ areas_of (map (λ i. i.0) ids.now) items.now) }
{
    let marked = set_of(alloc, ids)?;
    let mut areas = List::make(alloc);
    for item in items {
        add_area(&mut areas, item, &marked)?;
    }
    Ok(areas)
}

/// Adds the area of a box of an element in the set.
fn add_area(areas: &mut List<Area>, item: &PlacedItem, marked: &BTreeSet<u32>) -> Result<(), Memory>
    requires { IsInReach item.now }
    ensures { OnOk result (areas.new ≡ areas.old ++ map area_of
        (filter (λ (box : PlacedBox). contains nat_cmp marked.now box.id.0) (box_in item.now))) }
{
    match item {
        PlacedItem::Frame(placed) => add_if(areas, placed, marked.contains(&placed.id.0)),
        PlacedItem::Drawn(_) => Ok(()),
    }
}

/// Adds the area of a box, if it is to be marked.
fn add_if(areas: &mut List<Area>, placed: &PlacedBox, is_marked: bool) -> Result<(), Memory>
    requires frame { IsStored placed.now.frame }
    requires down { IsWithin (2 ^ 37) placed.now.y }
    ensures { OnOk result
        (areas.new ≡ areas.old ++ (if is_marked then area_of placed.now ∷ [] else [])) }
{
    if is_marked {
        areas.push(area_of(placed))
    } else {
        Ok(())
    }
}

/// The ids as a set.
fn set_of(alloc: Global, ids: &[NodeId]) -> Result<BTreeSet<u32>, Memory>
    ensures { IfOk result (λ set. (id : ℕ)
        → contains nat_cmp set id ≡ list_any (nat_eq id) (map (λ i. i.0) ids.now)) }
{
    let mut set = BTreeSet::new(alloc);
    for id in ids {
        set.insert(id.0)?;
    }
    Ok(set)
}

/// The area of a box.
fn area_of(placed: &PlacedBox) -> Area
    requires frame { IsStored placed.now.frame }
    requires down { IsWithin (2 ^ 37) placed.now.y }
    ensures { result ≡ area_of placed.now }
{
    let frame = &placed.frame;
    Area {
        x: placed.x,
        y: placed.y - frame.ascent,
        width: frame.width,
        height: frame.ascent + frame.descent,
    }
}
