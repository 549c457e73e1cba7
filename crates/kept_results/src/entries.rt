ghost use Rattle.std.specs.Prelude.{◌≡◌, true, false, IfOk, IfSome, IfNone, OnErr, OnOk, map};
ghost use Rattle.std.specs.Option.{IsSome};
ghost use Rattle.outcome_cells.specs.Store.{PutsOutcome};
ghost use Rattle.kept_results.specs.Backed.{AreBacked, OnlyGrows};
ghost use Rattle.kept_results.specs.Kept.{IsMissing, is_live, is_marked};
ghost use Rattle.kept_results.specs.Looking.{HasAnswer, IsKeptNow, own_facts};
ghost use Rattle.kept_results.specs.Tidy.{has_none_fresh, has_none_new, is_calm, only_entered, only_touched};
ghost use Rattle.kept_results.specs.declared.memo.Memo.TheViews.{out-Memo};

use crate::memo::{Entry, Memo, Origin};
use box_pool::RunId;
use embellished::Facts;
use fixed_units::{List, Memory};
use layout_model::{Answer, Context, Outcome, Reply};
use outcome_cells::Store;
use std::alloc::Global;

/// Whether the present edit changes the element, or one below it.
pub fn is_marked(memo: &Memo) -> bool
    ensures { result ≡ is_marked (out-Memo memo.now) }
{
    memo.former.is_some()
}

/// Whether the present edit and the present pass left the element alone. It says nothing of those
/// below it.
pub fn is_calm(memo: &Memo) -> bool
    ensures { result ≡ is_calm (out-Memo memo.now) }
{
    !is_marked(memo) && has_none_fresh(memo.entries.as_slice())
}

/// Is none of these entries fresh?
fn has_none_fresh(entries: &[Entry]) -> bool
    ensures { result ≡ has_none_fresh entries.now }
{
    for entry in entries {
        if entry.is_fresh() {
            return false;
        }
    }
    true
}

/// Did the present pass make none of these entries but out of others?
fn has_none_new(entries: &[Entry]) -> bool
    ensures { result ≡ has_none_new entries.now }
{
    for entry in entries {
        if entry.is_new() {
            return false;
        }
    }
    true
}

/// The child that an element's mark names, where the present pass made no entry of the element but
/// out of others: in a tidy memo the present edit and the pass left its other children alone.
pub fn only_touched(memo: &Memo) -> Option<usize>
    ensures { result ≡ only_touched (out-Memo memo.now) }
{
    let child = memo.former?.alike_but?;
    if has_none_new(memo.entries.as_slice()) {
        Some(child)
    } else {
        None
    }
}

/// The one child to which the end of a pass goes, where it passes the others by. Where it passes
/// all by, it is the place behind the last; where it goes to each, there is none.
pub fn only_entered(memo: &Memo) -> Option<usize>
    ensures { result ≡ only_entered (out-Memo memo.now) }
{
    if is_calm(memo) {
        Some(memo.below.len())
    } else {
        only_touched(memo)
    }
}

/// Whether an entry is no older one.
pub fn is_live(marked: bool, entry: &Entry) -> bool
    ensures { result ≡ is_live marked entry.now }
{
    !marked || entry.is_fresh()
}

/// Is this an entry in a context, and no older one?
fn serves(marked: bool, entry: &Entry, context: &Context) -> bool
    ensures yes { result ≡ true → (is_live marked entry.now ≡ true) ×
        (entry.now.context ≡ context.now) }
    ensures no { result ≡ false → is_live marked entry.now ≡ true → entry.now.context ≡ context.now
        → ⊥ }
{
    is_live(marked, entry) && entry.context.is_same(context)
}

/// The answer that is kept of an element in a context, where one is.
pub fn kept_answer(
    alloc: Global,
    memo: &Memo,
    store: &Store,
    context: &Context,
) -> Result<Option<Answer>, Memory>
    requires backed { AreBacked store.now.runs (out-Memo memo.now) }
    ensures some { IfOk result
        (λ found. IfSome found (HasAnswer store.now.runs (out-Memo memo.now) context.now)) }
    ensures none { IfOk result
        (λ found. IfNone found (IsMissing (is_marked (out-Memo memo.now)) context.now
        (out-Memo memo.now).entries)) }
{
    let marked = is_marked(memo);
    for entry in memo.entries.as_slice() {
        if serves(marked, entry, context) {
            return Ok(Some(store.answer(alloc, entry.run)?));
        }
    }
    Ok(None)
}

/// What the elements of some memos are, in order: of those below an element, as a view of it takes
/// them.
pub fn facts_below(alloc: Global, below: &[Memo]) -> Result<List<Facts>, Memory>
    ensures { IfOk result (λ kids. kids ≡ map own_facts below.now) }
{
    let mut kids = List::with_room(alloc, below.len())?;
    for memo in below {
        kids.push(memo.facts)?;
    }
    Ok(kids)
}

/// What an element asked for an outcome in both waves, and what was answered.
#[derive(Debug, Drop)]
pub struct Asked {
    pub one: List<Reply>,
    pub two: List<Reply>,
    /// Whether the element is regular, as an `Entry` says it.
    pub regular: bool,
}

/// Keeps one layout more, and gives its answer. Where it is refused, a run may be left that no
/// entry has: whoever began the epoch rolls it back.
pub fn keep(
    alloc: Global,
    memo: &mut Memo,
    store: &mut Store,
    context: &Context,
    outcome: Outcome,
    asked: Asked,
) -> Result<Answer, Memory>
    requires begun { IsSome store.old.checkpoint }
    ensures answer { IfOk result (λ answer. answer ≡ outcome.answer) }
    ensures kept { OnOk result (IsKeptNow memo.old memo.new store.old store.new context.now outcome
        asked) }
    ensures unchanged { OnErr result (memo.new ≡ memo.old) }
    ensures grows { OnErr result (OnlyGrows store.old store.new) }
{
    match put_with(alloc, store, &outcome, context) {
        Ok((run, context)) => {
            let entry = Entry {
                context,
                run,
                one: asked.one,
                two: asked.two,
                regular: asked.regular,
                origin: Origin::Made,
            };
            match memo.entries.push(entry) {
                Ok(()) => Ok(answer_in(outcome)),
                Err(memory) => {
                    drop(outcome);
                    Err(memory)
                }
            }
        }
        Err(memory) => {
            // Dropped by calls, so that the proof of this function doesn't go through all parts.
            drop(outcome);
            drop(asked);
            Err(memory)
        }
    }
}

/// Puts an outcome, and copies the context.
fn put_with(
    alloc: Global,
    store: &mut Store,
    outcome: &Outcome,
    context: &Context,
) -> Result<(RunId, Context), Memory>
    requires begun { IsSome store.old.checkpoint }
    ensures put { IfOk result (λ made. PutsOutcome store.old store.new made.0.0 outcome.now) }
    ensures context { IfOk result (λ made. made.1 ≡ context.now) }
    ensures unchanged { OnErr result (store.new ≡ store.old) }
{
    let context = context.copy(alloc)?;
    let run = store.put(outcome)?;
    Ok((run, context))
}

/// The answer of an outcome. The rest is dropped.
pub fn answer_in(outcome: Outcome) -> Answer
    ensures { result ≡ outcome.answer }
{
    let Outcome {
        answer,
        offsets,
        marks,
    } = outcome;
    drop(offsets);
    drop(marks);
    answer
}
