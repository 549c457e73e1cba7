//! What the elements on the way to an edit are after it.
ghost use Rattle.std.specs.Prelude.{◌≡◌, ◌<◌, ◌≤◌, true, ◌++◌, ◌∷◌, [], length, map, slice_get, slice_set, IfOk, Some};
ghost use Rattle.std.specs.List.{insert, remove};
ghost use Rattle.math_tree.specs.declared.node.Node.TheViews.{out-Node};
ghost use Rattle.embellished.specs.Facts.{facts};
ghost use Rattle.kept_results.specs.Looking.{own_facts};
ghost use Rattle.kept_results.specs.declared.memo.Memo.TheViews.{out-Memo};
ghost use Rattle.kept_edits.specs.Changed.{FitsMemo, seen_anew};
ghost use Rattle.splices.specs.Splicing.{FitsIn, spliced};
ghost use Rattle.kept_edits.specs.Known.{IsBeside, IsKnownOn};

use crate::change::Renewal;
use embellished::{Facts, facts_of};
use fixed_units::{List, Memory, Room};
use kept_results::{Memo, facts_below, is_marked};
use math_tree::Node;
use splices::Splice;
use std::alloc::Global;

/// What the elements on the way to a changed one are, that one first: of the changed tree, and the
/// memos that are not changed yet. Of other elements only what is known of the children of those on
/// the way is read. An element whose child on the way is what it was is what it was.
pub fn known_on(
    alloc: Global,
    node: &Node,
    memo: &Memo,
    path: &[u16],
    splice: &Splice<Memo>,
) -> Result<List<Renewal>, Memory>
    requires fits { FitsMemo splice.now path.now memo.now }
    requires beside { IsBeside splice.now path.now node.now memo.now }
    ensures { IfOk result (IsKnownOn path.now node.now memo.now) }
{
    if path.len() == 0 {
        let kids = kids_after(alloc, &memo.below, splice)?;
        add_own(alloc, node, &kids, List::make(alloc))
    } else {
        let place = path[0] as usize;
        let child = child_at(node, place);
        let below = memo_at(memo, place);
        let mut known = known_on(alloc, child, below, &path[1..], splice)?;
        let own = known.as_slice()[path.len() - 1].facts;
        if !is_marked(memo) && is_same(&own, &below.facts) {
            known.push(Renewal {
                facts: memo.facts,
                alike_but: Some(place),
            })?;
            return Ok(known);
        }
        let kids = kids_with(alloc, &memo.below, place, own)?;
        add_own(alloc, node, &kids, known)
    }
}

/// Whether two elements are the same among operators, and neither of them is an embellished one.
/// Those aren't compared.
fn is_same(a: &Facts, b: &Facts) -> bool
    ensures { result ≡ true → a.now ≡ b.now }
{
    match (&a.core, &b.core) {
        (None, None) => a.space_like == b.space_like && a.laid == b.laid,
        _ => false,
    }
}

/// The child at a place.
fn child_at(node: &Node, place: usize) -> &Node
    requires { place < length (out-Node node.now).children }
    ensures { slice_get (out-Node node.now).children place ≡ Some result.now }
{
    match node.children.as_slice().get(place) {
        Some(child) => child,
        None => unreachable!(),
    }
}

/// The memo of the child at a place.
fn memo_at(memo: &Memo, place: usize) -> &Memo
    requires { place < length (out-Memo memo.now).below }
    ensures { slice_get (out-Memo memo.now).below place ≡ Some result.now }
{
    match memo.below.as_slice().get(place) {
        Some(below) => below,
        None => unreachable!(),
    }
}

/// Adds what an element is, over what its children are. Layout may see something else of it than
/// before.
fn add_own(
    alloc: Global,
    node: &Node,
    kids: &List<Facts>,
    mut known: List<Renewal>,
) -> Result<List<Renewal>, Memory>
    requires { kids.now ≡ map facts (out-Node node.now).children }
    ensures { IfOk result (λ all. all ≡ known ++ seen_anew (facts node.now) ∷ []) }
{
    let facts = facts_of(alloc, &node.head, kids)?;
    known.push(Renewal {
        facts,
        alike_but: None,
    })?;
    Ok(known)
}

/// What the elements of some memos are, in order, where that at a place is something else.
fn kids_with(
    alloc: Global,
    below: &List<Memo>,
    place: usize,
    own: Facts,
) -> Result<List<Facts>, Memory>
    requires { place < length below.now }
    ensures { IfOk result (λ kids. kids ≡ slice_set (map own_facts below.now) place own) }
{
    let mut kids = facts_below(alloc, below.as_slice())?;
    *kids.at_mut(place) = own;
    Ok(kids)
}

/// The same after a splice.
fn kids_after(
    alloc: Global,
    below: &List<Memo>,
    splice: &Splice<Memo>,
) -> Result<List<Facts>, Memory>
    requires { FitsIn splice.now below.now }
    ensures { IfOk result (λ kids. kids ≡ map own_facts (spliced splice.now below.now)) }
{
    let all = below.as_slice();
    match splice {
        Splice::Stay => facts_below(alloc, all),
        Splice::Put(index, memo, _) => kids_with_another(alloc, all, *index, memo),
        Splice::Take(index) => kids_without(alloc, all, *index),
        Splice::Swap(index, memo) => kids_with(alloc, below, *index, memo.facts),
    }
}

/// The same with one more at a place.
fn kids_with_another(
    alloc: Global,
    below: &[Memo],
    place: usize,
    memo: &Memo,
) -> Result<List<Facts>, Memory>
    requires { place ≤ length below.now }
    ensures { IfOk result (λ kids. kids ≡ map own_facts (insert below.now place memo.now)) }
{
    let room = Room::make(alloc, below.len() + 2)?;
    let mut kids = facts_below(alloc, below)?;
    kids.insert(place, memo.facts, room);
    Ok(kids)
}

/// The same without the one at a place.
fn kids_without(alloc: Global, below: &[Memo], place: usize) -> Result<List<Facts>, Memory>
    requires { place < length below.now }
    ensures { IfOk result (λ kids. kids ≡ map own_facts (remove below.now place)) }
{
    let mut kids = facts_below(alloc, below)?;
    kids.remove(place);
    Ok(kids)
}
