ghost use Rattle.std.specs.Prelude.{◌≡◌, ◌+◌, ◌++◌, ◌≤◌, ◌<◌, ◌^◌, length, IfOk};
ghost use Rattle.std.specs.List.{list_all};
ghost use Rattle.row_stretch.specs.Questions.{stretches, planned, ask_of, under, first_of_two, second_of_two, asks_from, row_first, row_second, first_asks_of, second_asks_of};

use crate::parts::{Ask, KidPull};
use fixed_units::{List, MathBox, Memory, Pull, join_all};
use op_dictionary::Axis;
use std::alloc::Global;

/// Asks the children of a row in the first wave (MathML Core 3.3.1.2): under a pull of its own all
/// of them, else those that don't stretch upward and downward.
pub fn row_wave_one(alloc: Global, kids: &List<KidPull>, own: Pull) -> Result<List<Ask>, Memory>
    requires few { length kids.now ≤ 65_536 }
    ensures { IfOk result (λ asks. asks ≡ first_asks_of kids.now own) }
{
    let items = kids.as_slice();
    let plan = match own {
        Pull::Free => Plan::first_of_two(items, Axis::Block, Pull::Block(0, 0)),
        Pull::Block(..) => Plan::under(Axis::Block, own),
        Pull::Inline(_) => Plan::under(Axis::Inline, own),
    };
    add_asks(List::with_room(alloc, items.len())?, 0, items, plan)
}

/// Asks in the second wave the children that stretch upward and downward, with the ink of what the
/// first wave answered.
pub fn row_wave_two(
    alloc: Global,
    kids: &List<KidPull>,
    own: Pull,
    first: &List<MathBox>,
) -> Result<List<Ask>, Memory>
    requires few { length kids.now ≤ 65_536 }
    ensures { IfOk result (λ asks. asks ≡ second_asks_of kids.now own first.now) }
{
    let asks = List::make(alloc);
    match own {
        Pull::Free => {
            let ink = join_all(first.as_slice());
            let target = Pull::Block(ink.ink_ascent, ink.ink_descent);
            add_asks(
                asks,
                0,
                kids.as_slice(),
                Plan::second_of_two(Axis::Block, target),
            )
        }
        Pull::Block(..) | Pull::Inline(_) => Ok(asks),
    }
}

/// What a wave asks of the children of an element: some stretch along its axis, and others don't.
#[derive(Clone, Copy, Debug, PartialEq, Eq)]
pub struct Plan {
    pub axis: Axis,
    /// The pull of a child that stretches along the axis; none where such a child isn't asked.
    pub stretching: Option<Pull>,
    /// The pull of any other child.
    pub others: Option<Pull>,
}

impl Plan {
    /// One wave for all children, under a pull along the axis.
    pub fn under(axis: Axis, pull: Pull) -> Plan
        ensures { result ≡ under axis pull }
    {
        Plan {
            axis,
            stretching: Some(pull),
            others: Some(Pull::Free),
        }
    }

    /// The first of two waves: the children that don't stretch. Where all do, they are asked with
    /// the least pull.
    pub fn first_of_two(kids: &[KidPull], axis: Axis, least: Pull) -> Plan
        ensures { result ≡ first_of_two kids.now axis least }
    {
        if all_stretch(axis, kids) {
            Plan {
                axis,
                stretching: Some(least),
                others: None,
            }
        } else {
            Plan {
                axis,
                stretching: None,
                others: Some(Pull::Free),
            }
        }
    }

    /// The second of two waves: the children that stretch.
    pub fn second_of_two(axis: Axis, pull: Pull) -> Plan
        ensures { result ≡ second_of_two axis pull }
    {
        Plan {
            axis,
            stretching: Some(pull),
            others: None,
        }
    }

    /// With what a child is asked.
    #[tactic(auto, unfolding(crate::specs::Questions::planned))]
    fn pull_of(&self, kid: &KidPull) -> Option<Pull>
        ensures { result ≡ planned self.now kid.now }
    {
        if stretches(self.axis, kid) {
            self.stretching
        } else {
            self.others
        }
    }
}

/// Whether each child stretches along an axis.
fn all_stretch(axis: Axis, kids: &[KidPull]) -> bool
    ensures { result ≡ list_all (stretches axis) kids.now }
{
    kids.iter().all(|kid| stretches(axis, kid))
}

/// Whether a child stretches along an axis.
fn stretches(axis: Axis, kid: &KidPull) -> bool
    ensures { result ≡ stretches axis kid.now }
{
    match (axis, kid.axis) {
        (Axis::Block, Some(Axis::Block)) | (Axis::Inline, Some(Axis::Inline)) => true,
        _ => false,
    }
}

/// Adds what a wave asks of children of which the first stands at a place.
pub fn add_asks(
    asks: List<Ask>,
    place: u32,
    kids: &[KidPull],
    plan: Plan,
) -> Result<List<Ask>, Memory>
    requires few { place + length kids.now < 2 ^ 32 }
    ensures { IfOk result (λ all. all ≡ asks ++ asks_from place plan kids.now) }
{
    let mut all = asks;
    let mut next = place;
    for kid in kids {
        all = add_ask(all, next, plan.pull_of(kid))?;
        next += 1;
    }
    Ok(all)
}

/// Adds the question of a child, if there is a pull for it.
fn add_ask(asks: List<Ask>, kid: u32, pull: Option<Pull>) -> Result<List<Ask>, Memory>
    ensures { IfOk result (λ all. all ≡ asks ++ ask_of kid pull) }
{
    let mut all = asks;
    if let Some(pull) = pull {
        all.push(Ask { kid, pull })?;
    }
    Ok(all)
}
