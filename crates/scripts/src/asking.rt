ghost use Rattle.std.specs.Prelude.{◌≡◌, ◌≤◌, ◌^◌, length, IfOk};
ghost use Rattle.scripts.specs.Questions.{widest_of, first_limit_asks_of, second_limit_asks_of};

use fixed_units::{List, MathBox, Memory, Pull};
use op_dictionary::Axis;
use row_stretch::{Ask, KidPull, Plan, add_asks};
use std::alloc::Global;

/// What the first wave asks of the children beside a base that is pulled up and down.
const REST: Plan = Plan {
    axis: Axis::Inline,
    stretching: None,
    others: Some(Pull::Free),
};

/// Asks the children of an element with limits in the first wave (MathML Core 3.4.2): under a pull
/// to the sides all of them, else those that don't stretch to the sides. A pull up and down goes to
/// the base.
pub fn limit_wave_one(alloc: Global, kids: &List<KidPull>, own: Pull) -> Result<List<Ask>, Memory>
    requires few { length kids.now ≤ 65_536 }
    ensures { IfOk result (λ asks. asks ≡ first_limit_asks_of kids.now own) }
{
    let items = kids.as_slice();
    let mut asks = List::make(alloc);
    match own {
        Pull::Inline(_) => add_asks(asks, 0, items, Plan::under(Axis::Inline, own)),
        Pull::Free => {
            let plan = Plan::first_of_two(items, Axis::Inline, Pull::Inline(0));
            add_asks(asks, 0, items, plan)
        }
        Pull::Block(..) => match items.split_first() {
            Some((_, others)) => {
                asks.push(Ask { kid: 0, pull: own })?;
                add_asks(asks, 1, others, REST)
            }
            None => Ok(asks),
        },
    }
}

/// Asks in the second wave the children that stretch to the sides, with the largest width of what
/// the first wave answered.
pub fn limit_wave_two(
    alloc: Global,
    kids: &List<KidPull>,
    own: Pull,
    first: &List<MathBox>,
) -> Result<List<Ask>, Memory>
    requires few { length kids.now ≤ 65_536 }
    ensures { IfOk result (λ asks. asks ≡ second_limit_asks_of kids.now own first.now) }
{
    let items = kids.as_slice();
    let asks = List::make(alloc);
    let plan = Plan::second_of_two(Axis::Inline, Pull::Inline(widest(first.as_slice())));
    match own {
        Pull::Inline(_) => Ok(asks),
        Pull::Free => add_asks(asks, 0, items, plan),
        Pull::Block(..) => match items.split_first() {
            Some((_, others)) => add_asks(asks, 1, others, plan),
            None => Ok(asks),
        },
    }
}

/// The largest width of some boxes; without any, 0.
fn widest(frames: &[MathBox]) -> i64
    ensures { result ≡ widest_of frames.now }
{
    let Some((first, others)) = frames.split_first() else {
        return 0;
    };
    let mut widest = first.width;
    for frame in others {
        widest = widest.max(frame.width);
    }
    widest
}
