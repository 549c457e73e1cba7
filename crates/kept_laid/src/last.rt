ghost use Rattle.std.specs.Prelude.{◌≡◌, ◌++◌, [], length, List as Sequence, IfOk};
ghost use Rattle.std.specs.List.{All};
ghost use Rattle.layout_model.specs.Answers.{questions_in};
ghost use Rattle.layout_model.specs.Layout.{last_context};
ghost use Rattle.layout_model.specs.Questions.{IsBelow};
ghost use Rattle.layout_model.specs.declared.context.Question.{Question as Asked};
ghost use Rattle.kept_laid.specs.Last.{AreLast, seen_context, seen_contexts};

use fixed_units::{List, Memory};
use kept_results::Entry;
use layout_model::{Context, Reply};
use std::alloc::Global;

/// Of each of so many children in flow, the context of the last question to it for an entry.
pub fn last_contexts<'a>(
    alloc: Global,
    count: usize,
    entry: &'a Entry,
) -> Result<Vec<Option<&'a Context>>, Memory>
    requires ones { All (IsBelow count) (questions_in entry.now.one) }
    requires twos { All (IsBelow count) (questions_in entry.now.two) }
    ensures as_many { IfOk result (λ places. length places.items ≡ count) }
    ensures last { IfOk result
        (λ places. AreLast (questions_in entry.now.one ++ questions_in entry.now.two)
        (seen_contexts places.items)) }
{
    let mut places = none_asked(alloc, count)?;
    put_all(&entry.one, &mut places);
    put_all(&entry.two, &mut places);
    Ok(places)
}

/// No child is asked so far.
fn none_asked<'a>(alloc: Global, count: usize) -> Result<Vec<Option<&'a Context>>, Memory>
    ensures as_many { IfOk result (λ places. length places.items ≡ count) }
    ensures none { IfOk result (λ places. AreLast [] (seen_contexts places.items)) }
{
    let mut places = Vec::new(alloc);
    for _ in 0..count {
        places.push(None)?;
    }
    Ok(places)
}

/// Further questions, in order.
fn put_all<'a>(replies: &'a List<Reply>, places: &mut Vec<Option<&'a Context>>)
    requires within { All (IsBelow (length places.old.items)) (questions_in replies.now) }
    ensures as_many { length places.new.items ≡ length places.old.items }
    ensures last { (before : Sequence Asked) → AreLast before (seen_contexts places.old.items)
        → AreLast (before ++ questions_in replies.now) (seen_contexts places.new.items) }
{
    for asked in replies.as_slice() {
        places[asked.question.kid as usize] = Some(&asked.question.context);
    }
}

/// The context of the last question to a child in flow for an entry, where there is one. It takes
/// no memory.
pub fn last_asked<'a>(entry: &'a Entry, kid: usize) -> Option<&'a Context>
    ensures { seen_context result ≡ last_context (questions_in entry.now.one ++
        questions_in entry.now.two) kid }
{
    let first = last_among(None, &entry.one, kid);
    last_among(first, &entry.two, kid)
}

/// The same of further questions, where it is given of those before them.
fn last_among<'a>(
    before: Option<&'a Context>,
    replies: &'a List<Reply>,
    kid: usize,
) -> Option<&'a Context>
    ensures { (earlier : Sequence Asked) → seen_context before.entry ≡ last_context earlier kid
        → seen_context result ≡ last_context (earlier ++ questions_in replies.now) kid }
{
    let mut last = before;
    for asked in replies.as_slice() {
        if asked.question.kid as usize == kid {
            last = Some(&asked.question.context);
        }
    }
    last
}
