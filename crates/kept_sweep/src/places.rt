ghost use Rattle.std.specs.Prelude.{◌≡◌, ◌<◌, ◌≤◌, length, map};
ghost use Rattle.math_tree.specs.declared.node.Node.TheViews.{out-Node};
ghost use Rattle.embellished.specs.Facts.{facts};
ghost use Rattle.embellished.specs.Seen.{HasChild, flow_children};
ghost use Rattle.kept_results.specs.Looking.{own_facts};
ghost use Rattle.kept_laid.specs.Places.{shown_before};

use embellished::{Facts, may_show};
use kept_results::Memo;
use math_tree::Node;

/// A place among all children of an element, and how many of the children before it may be in flow.
#[derive(Clone, Copy, Debug)]
pub struct Spot {
    pub index: usize,
    pub place: usize,
}

/// From where on to look for a child in flow: from behind the last one that was found, or from the
/// start where it stands before that.
fn start_for(node: &Node, last: Spot, wanted: usize) -> Spot
    requires last { last.index ≡ shown_before node.now last.place }
    ensures spot { result.index ≡ shown_before node.now result.place }
    ensures near { result.index ≤ wanted }
{
    if wanted < last.index {
        Spot { index: 0, place: 0 }
    } else {
        last
    }
}

/// Where a child in flow stands among all children, from its place among those in flow. The next
/// search begins behind it: a row asks its children in order, so that all of them together are
/// found in one walk.
pub fn place_from(node: &Node, own: &Facts, below: &[Memo], from: &mut Spot, wanted: usize) -> usize
    requires own { own.now ≡ facts node.now }
    requires known { map own_facts below.now ≡ map facts (out-Node node.now).children }
    requires last { from.old.index ≡ shown_before node.now from.old.place }
    requires within { wanted < length (flow_children node.now) }
    ensures spot { from.new.index ≡ shown_before node.now from.new.place }
    ensures child { HasChild node.now wanted (λ child. child.place ≡ result) }
{
    let start = start_for(node, *from, wanted);
    let mut index = start.index;
    for place in start.place..below.len() {
        if may_show(own.laid, below[place].facts.laid) {
            index += 1;
            if index > wanted {
                *from = Spot {
                    index,
                    place: place + 1,
                };
                return place;
            }
        }
    }
    unreachable!()
}
