ghost use Rattle.std.specs.Prelude.{◌≡◌};
ghost use Rattle.kept_results.specs.Contexts.{Suits};
ghost use Rattle.memo_tree.specs.Trees.{context_of};

use font_metrics::Metrics;
use layout_model::{Context, Stretch};
use math_tree::Tree;
use op_dictionary::Form;
use style_scope::root_style;

/// The context in which the root of a tree is laid out.
pub fn context_of(tree: &Tree, metrics: &Metrics) -> Context
    ensures exact { result ≡ context_of metrics.now tree.now }
    ensures suits { Suits metrics.now tree.now.root result }
{
    let root = tree.root();
    Context {
        style: root_style(&root.head, metrics),
        form: Form::Infix,
        stretch: Stretch::None,
    }
}
