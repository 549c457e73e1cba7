ghost use Rattle.std.specs.Prelude.{◌≡◌, ◌≤◌, ◌++◌, map, IfOk};
ghost use Rattle.font_metrics.specs.Metrics.{MetricsValue};
ghost use Rattle.math_tree.specs.Trees.{element_count};
ghost use Rattle.layout_model.specs.Answers.{questions_in};
ghost use Rattle.layout_model.specs.Layout.{laid};
ghost use Rattle.kept_results.specs.Backed.{IsBacked};
ghost use Rattle.kept_results.specs.Kept.{Agrees, HasEntry, IsKept};
ghost use Rattle.kept_results.specs.declared.memo.Memo.TheViews.{out-Memo};
ghost use Rattle.kept_laid.specs.Laid.{AgreesWithSome, AreKids, IsBackedWithSome, kids_laid, laid_kid};

use crate::last::last_contexts;
use crate::lookup::kept_entry;
use embellished::{NodeView, View};
use fixed_units::{List, Memory};
use kept_results::{Entry, Memo, facts_below};
use layout_model::{Context, Laid};
use math_tree::Node;
use outcome_cells::Store;
use std::alloc::Global;

/// An element in a context in which a layout of it is kept.
#[derive(Clone, Copy, Debug)]
pub struct KeptLayout<'a> {
    pub node: &'a Node,
    pub memo: &'a Memo,
    pub context: &'a Context,
}

/// The layout of an element in a context, with all elements in flow below it, from what is kept:
/// its heads are those of the tree, its outcomes those of the runs of entries. With any metrics
/// with which the memo agrees and the runs have its layouts, it is what a fresh layout gives.
#[cycle(read)]
pub fn laid_of(
    alloc: Global,
    node: &Node,
    memo: &Memo,
    store: &Store,
    context: &Context,
) -> Result<Laid, Memory>
    requires backed { IsBackedWithSome store.now.runs node.now memo.now }
    requires few { element_count node.now ≤ 65_536 }
    requires kept { IsKept (out-Memo memo.now) context.now }
    ensures { IfOk result (λ all. (m : MetricsValue) → Agrees m node.now memo.now →
        IsBacked m store.now.runs node.now memo.now → all ≡ laid m node.now context.now) }
{
    let entry = kept_entry(memo, context);
    Ok(Laid {
        head: node.head.copy(alloc)?,
        outcome: store.outcome(alloc, entry.run)?,
        kids: laid_kids(alloc, node, memo, store, entry)?,
    })
}

/// The layouts of the children in flow that an element asked for an entry.
#[cycle(read)]
fn laid_kids(
    alloc: Global,
    node: &Node,
    memo: &Memo,
    store: &Store,
    entry: &Entry,
) -> Result<List<Laid>, Memory>
    requires backed { IsBackedWithSome store.now.runs node.now memo.now }
    requires few { element_count node.now ≤ 65_536 }
    requires has { HasEntry (out-Memo memo.now) entry.now }
    ensures { IfOk result (λ kids. (m : MetricsValue) → Agrees m node.now memo.now →
        IsBacked m store.now.runs node.now memo.now →
        kids ≡ kids_laid m node.now (questions_in entry.now.one ++ questions_in entry.now.two)) }
{
    let kids = kept_kids(alloc, node, memo, entry)?;
    let mut all = List::make(alloc);
    for kid in kids.as_slice() {
        all.push(laid_of(alloc, kid.node, kid.memo, store, kid.context)?)?;
    }
    Ok(all)
}

/// The children in flow that an element asked for an entry, each in the context of the last
/// question to it.
pub fn kept_kids<'a>(
    alloc: Global,
    node: &'a Node,
    memo: &'a Memo,
    entry: &'a Entry,
) -> Result<Vec<KeptLayout<'a>>, Memory>
    requires agrees { AgreesWithSome node.now memo.now }
    requires few { element_count node.now ≤ 65_536 }
    requires has { HasEntry (out-Memo memo.now) entry.now }
    ensures kept { IfOk result (λ kids. AreKids node.now memo.now kids.items) }
    ensures laid { IfOk result (λ kids. (m : MetricsValue) → Agrees m node.now memo.now →
        map (laid_kid m) kids.items ≡ kids_laid m node.now (questions_in entry.now.one ++
        questions_in entry.now.two)) }
{
    let facts = facts_below(alloc, memo.below.as_slice())?;
    let view = NodeView::make(alloc, node, memo.facts, &facts)?;
    let count = view.kids();
    let last = last_contexts(alloc, count, entry)?;
    let mut kids = Vec::with_capacity(alloc, count)?;
    for index in 0..count {
        if let Some(context) = last[index] {
            let below = &memo.below.as_slice()[view.place(index)];
            let node = view.node_at(index);
            kids.push(KeptLayout {
                node,
                memo: below,
                context,
            })?;
        }
    }
    Ok(kids)
}
