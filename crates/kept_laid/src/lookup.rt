ghost use Rattle.std.specs.Prelude.{◌≡◌, true, false};
ghost use Rattle.font_metrics.specs.Metrics.{MetricsValue};
ghost use Rattle.math_tree.specs.declared.node.Node.{Node};
ghost use Rattle.layout_model.specs.Layout.{lay};
ghost use Rattle.kept_results.specs.Backed.{AreBacked, IsBacked};
ghost use Rattle.kept_results.specs.Kept.{HasEntry, IsKept, is_live, is_marked};
ghost use Rattle.kept_results.specs.declared.memo.Memo.TheViews.{out-Memo};

use fixed_units::MathBox;
use kept_results::{Entry, Memo};
use layout_model::Context;
use outcome_cells::Store;

/// The box that is kept of the root of a tree in a context. It takes no memory.
pub fn root_box(memo: &Memo, store: &Store, context: &Context) -> MathBox
    requires kept { IsKept (out-Memo memo.now) context.now }
    requires backed { AreBacked store.now.runs (out-Memo memo.now) }
    ensures { (m : MetricsValue) (node : Node) → IsBacked m store.now.runs node memo.now →
        result ≡ (lay m node context.now).answer.frame }
{
    let entry = kept_entry(memo, context);
    store.parts(entry.run).frame
}

/// The entry of an element in a context that is no older one.
pub fn kept_entry<'a>(memo: &'a Memo, context: &Context) -> &'a Entry
    requires kept { IsKept (out-Memo memo.now) context.now }
    ensures has { HasEntry (out-Memo memo.now) result.now }
    ensures in_context { result.now.context ≡ context.now }
{
    for entry in memo.entries.as_slice() {
        if serves(memo, entry, context) {
            return entry;
        }
    }
    unreachable!()
}

/// Is this an entry in a context, and no older one?
fn serves(memo: &Memo, entry: &Entry, context: &Context) -> bool
    ensures yes { result ≡ true → (is_live (is_marked (out-Memo memo.now)) entry.now ≡ true) ×
        (entry.now.context ≡ context.now) }
    ensures no { result ≡ false → is_live (is_marked (out-Memo memo.now)) entry.now ≡ true →
        entry.now.context ≡ context.now → ⊥ }
{
    is_live(memo, entry) && entry.context.is_same(context)
}

/// Whether an entry of an element is no older one.
pub fn is_live(memo: &Memo, entry: &Entry) -> bool
    ensures { result ≡ is_live (is_marked (out-Memo memo.now)) entry.now }
{
    memo.former.is_none() || entry.is_fresh()
}
