ghost use Rattle.std.specs.Prelude.{◌≡◌, ◌++◌, map, true, false, IfSome, IfNone};
ghost use Rattle.std.specs.List.{AllByRecursion};
ghost use Rattle.math_tree.specs.declared.node.Node.TheViews.{out-Node};
ghost use Rattle.embellished.specs.Facts.{facts};
ghost use Rattle.layout_model.specs.Answers.{questions_in};
ghost use Rattle.kept_results.specs.Kept.{Agrees, IsKept, IsMissing, NamesKept};
ghost use Rattle.kept_results.specs.Looking.{own_facts};
ghost use Rattle.kept_results.specs.declared.memo.Memo.TheViews.{out-Memo};
ghost use Rattle.kept_sweep.specs.Flagged.{AreFlagged, BelowAgree, IsFlagged, StandsAt, all_marked, cleared};

use crate::places::{Spot, place_from};
use embellished::Facts;
use fixed_units::List;
use font_metrics::Metrics;
use kept_results::{Entry, Former, Memo, Origin};
use layout_model::{Context, Reply};
use math_tree::Node;

/// Marks every element.
pub fn mark_all(memo: &mut Memo)
    ensures { memo.new ≡ all_marked memo.old }
{
    for at in 0..memo.below.len() {
        mark_all(memo.below.at_mut(at));
    }
    memo.former = Some(Former {
        facts: memo.facts,
        alike_but: None,
    });
}

/// Flags the entry of an element in a context, and all that its layout needs below it: they count
/// as made by a pass, so that the seal keeps them. What is flagged already isn't gone through
/// again. `metrics` are those of the layouts that are kept; none of their numbers is read.
#[cycle(flag)]
pub fn flag_needed(node: &Node, memo: &mut Memo, context: &Context, metrics: &Metrics)
    requires agrees { Agrees metrics.now node.now memo.old }
    requires whole { Agrees metrics.now node.now (cleared memo.old) }
    requires kept { IsKept (out-Memo (cleared memo.old)) context.now }
    ensures { IsFlagged metrics.now node.now context.now memo.old memo.new }
{
    if let Some(at) = place_of(memo, context) {
        if !memo.entries.as_slice()[at].is_fresh() {
            flag_asked(
                node,
                &memo.facts,
                &mut memo.below,
                &memo.entries.as_slice()[at],
                metrics,
            );
            memo.entries.at_mut(at).origin = Origin::Made;
        }
    }
}

/// Flags what an entry needs of the children.
#[cycle(flag)]
fn flag_asked(node: &Node, own: &Facts, below: &mut List<Memo>, entry: &Entry, metrics: &Metrics)
    requires own { own.now ≡ facts node.now }
    requires known { map own_facts below.old ≡ map facts (out-Node node.now).children }
    requires agrees { BelowAgree metrics.now node.now below.old }
    requires whole { BelowAgree metrics.now node.now (map cleared below.old) }
    requires ones { AllByRecursion (NamesKept node.now (map cleared below.old))
        (questions_in entry.now.one) }
    requires twos { AllByRecursion (NamesKept node.now (map cleared below.old))
        (questions_in entry.now.two) }
    ensures flagged { AreFlagged metrics.now node.now (questions_in entry.now.one ++
        questions_in entry.now.two) below.old below.new }
    ensures ones { AllByRecursion (NamesKept node.now below.new) (questions_in entry.now.one) }
    ensures twos { AllByRecursion (NamesKept node.now below.new) (questions_in entry.now.two) }
{
    flag_wave(node, own, below, &entry.one, metrics);
    flag_wave(node, own, below, &entry.two, metrics);
}

/// Flags what the answers to the questions of one wave need. Most waves are empty.
#[cycle(flag)]
fn flag_wave(
    node: &Node,
    own: &Facts,
    below: &mut List<Memo>,
    replies: &List<Reply>,
    metrics: &Metrics,
)
    requires own { own.now ≡ facts node.now }
    requires known { map own_facts below.old ≡ map facts (out-Node node.now).children }
    requires agrees { BelowAgree metrics.now node.now below.old }
    requires whole { BelowAgree metrics.now node.now (map cleared below.old) }
    requires named { AllByRecursion (NamesKept node.now (map cleared below.old))
        (questions_in replies.now) }
    ensures flagged { AreFlagged metrics.now node.now (questions_in replies.now) below.old
        below.new }
    ensures named { AllByRecursion (NamesKept node.now below.new) (questions_in replies.now) }
{
    if !replies.is_empty() {
        flag_all(node, own, below, replies, metrics);
    }
}

/// Flags what these answers need. It stands apart, so that an element without children is passed by
/// without the frame of this call.
#[cycle(flag)]
#[inline(never)]
fn flag_all(
    node: &Node,
    own: &Facts,
    below: &mut List<Memo>,
    replies: &List<Reply>,
    metrics: &Metrics,
)
    requires own { own.now ≡ facts node.now }
    requires known { map own_facts below.old ≡ map facts (out-Node node.now).children }
    requires agrees { BelowAgree metrics.now node.now below.old }
    requires whole { BelowAgree metrics.now node.now (map cleared below.old) }
    requires named { AllByRecursion (NamesKept node.now (map cleared below.old))
        (questions_in replies.now) }
    ensures flagged { AreFlagged metrics.now node.now (questions_in replies.now) below.old
        below.new }
    ensures named { AllByRecursion (NamesKept node.now below.new) (questions_in replies.now) }
{
    let mut spot = Spot { index: 0, place: 0 };
    for asked in replies.as_slice() {
        let kid = asked.question.kid as usize;
        let place = place_from(node, own, below.as_slice(), &mut spot, kid);
        let child = &node.children.as_slice()[place];
        let context = &asked.question.context;
        flag_needed(child, below.at_mut(place), context, metrics);
    }
}

/// Where the entry in a context stands, older or not.
fn place_of(memo: &Memo, context: &Context) -> Option<usize>
    ensures some { IfSome result (λ place. StandsAt (out-Memo memo.now).entries context.now place) }
    ensures none { IfNone result (IsMissing false context.now (out-Memo memo.now).entries) }
{
    for at in 0..memo.entries.len() {
        if is_in(&memo.entries.as_slice()[at], context) {
            return Some(at);
        }
    }
    None
}

/// Is an entry in a context?
fn is_in(entry: &Entry, context: &Context) -> bool
    ensures yes { result ≡ true → entry.now.context ≡ context.now }
    ensures no { result ≡ false → entry.now.context ≡ context.now → ⊥ }
{
    entry.context.is_same(context)
}
