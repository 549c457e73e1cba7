ghost use Rattle.std.specs.Prelude.{◌≡◌, ◌++◌, Some};
ghost use Rattle.std.specs.Option.{option_and_then};
ghost use Rattle.font_metrics.specs.Metrics.{MetricsValue};
ghost use Rattle.layout_model.specs.Answers.{questions_in};
ghost use Rattle.layout_model.specs.Layout.{laid, last_context};
ghost use Rattle.layout_model.specs.declared.context.Context.{Context as ContextValue};
ghost use Rattle.kept_results.specs.Backed.{IsBacked};
ghost use Rattle.kept_results.specs.Kept.{Agrees, HasEntry, IsKept};
ghost use Rattle.kept_results.specs.declared.memo.Memo.TheViews.{out-Memo};
ghost use Rattle.kept_laid.specs.Boxes.{box_below, box_in};
ghost use Rattle.kept_laid.specs.Laid.{IsBackedWithSome, kids_laid};

use crate::ids::has_id;
use crate::last::last_asked;
use crate::lookup::kept_entry;
use embellished::may_show;
use fixed_units::MathBox;
use kept_results::{Entry, Memo};
use layout_model::Context;
use math_tree::{Node, NodeId};
use outcome_cells::Store;

/// The box of the element with an id in the layout of an element in a context, from what is kept;
/// none where no element in flow there has that id. It takes no memory.
#[cycle(boxes)]
pub fn box_of(
    node: &Node,
    memo: &Memo,
    store: &Store,
    context: &Context,
    id: NodeId,
) -> Option<MathBox>
    requires backed { IsBackedWithSome store.now.runs node.now memo.now }
    requires kept { IsKept (out-Memo memo.now) context.now }
    ensures { (m : MetricsValue) → Agrees m node.now memo.now →
        IsBacked m store.now.runs node.now memo.now →
        result ≡ box_in id (laid m node.now context.now) }
{
    let entry = kept_entry(memo, context);
    if node.head.id.0 == id.0 {
        return Some(store.parts(entry.run).frame);
    }
    box_of_kids(node, memo, store, entry, id)
}

/// The same below an element, where its layout is that of an entry.
#[cycle(boxes)]
fn box_of_kids(
    node: &Node,
    memo: &Memo,
    store: &Store,
    entry: &Entry,
    id: NodeId,
) -> Option<MathBox>
    requires backed { IsBackedWithSome store.now.runs node.now memo.now }
    requires has { HasEntry (out-Memo memo.now) entry.now }
    ensures { (m : MetricsValue) → Agrees m node.now memo.now →
        IsBacked m store.now.runs node.now memo.now → result ≡ box_below id
        (kids_laid m node.now (questions_in entry.now.one ++ questions_in entry.now.two)) }
{
    let mut index = 0;
    for place in 0..memo.below.len() {
        let child = &node.children.as_slice()[place];
        let below = &memo.below.as_slice()[place];
        if may_show(memo.facts.laid, below.facts.laid) {
            if let Some(found) = box_of_kid(child, below, store, entry, index, id) {
                return Some(found);
            }
            index += 1;
        }
    }
    None
}

/// The same of a child, in the context of the last question to it for an entry, where there is one.
#[cycle(boxes)]
fn box_of_kid(
    child: &Node,
    below: &Memo,
    store: &Store,
    entry: &Entry,
    index: usize,
    id: NodeId,
) -> Option<MathBox>
    requires backed { IsBackedWithSome store.now.runs child.now below.now }
    requires kept { (context : ContextValue) →
        last_context (questions_in entry.now.one ++ questions_in entry.now.two) index ≡ Some context
        → IsKept (out-Memo below.now) context }
    ensures { (m : MetricsValue) → Agrees m child.now below.now →
        IsBacked m store.now.runs child.now below.now →
        result ≡ option_and_then (λ context. box_in id (laid m child.now context))
        (last_context (questions_in entry.now.one ++ questions_in entry.now.two) index) }
{
    if !has_id(child, id) {
        return None;
    }
    match last_asked(entry, index) {
        Some(context) => box_of(child, below, store, context, id),
        None => None,
    }
}
