ghost use Rattle.std.specs.Prelude.{◌≡◌, [], ◌++◌, length, map, IfOk};
ghost use Rattle.std.specs.List.{All};
ghost use Rattle.fixed_units.specs.Sums.{list_to};
ghost use Rattle.layout_model.specs.Answers.{answers_in, last_answer, no_answer, questions_in};
ghost use Rattle.layout_model.specs.Questions.{IsBelow};

use fixed_units::{List, Memory};
use layout_model::{Answer, Reply};
use std::alloc::Global;

/// The answer that counts of each of so many children: the last one to it in the replies of both
/// waves, and `nothing` of one that wasn't asked.
pub fn last_answers<'a>(
    alloc: Global,
    count: usize,
    one: &'a List<Reply>,
    two: &'a List<Reply>,
    nothing: &'a Answer,
) -> Result<Vec<&'a Answer>, Memory>
    requires nothing { nothing.now ≡ no_answer }
    requires one_within { All (IsBelow count) (questions_in one.now) }
    requires two_within { All (IsBelow count) (questions_in two.now) }
    ensures { IfOk result (λ kids. map (λ kid. kid.now) kids.items
        ≡ list_to count (last_answer (questions_in one.now ++ questions_in two.now) (answers_in
        one.now ++ answers_in two.now))) }
{
    let none = unasked(alloc, count, nothing)?;
    let some = placed(none, one.as_slice());
    Ok(placed(some, two.as_slice()))
}

/// As many times `nothing` as there are children in flow.
fn unasked<'a>(alloc: Global, count: usize, nothing: &'a Answer) -> Result<Vec<&'a Answer>, Memory>
    requires { nothing.now ≡ no_answer }
    ensures { IfOk result (λ kids. map (λ kid. kid.now) kids.items ≡ list_to count (last_answer []
        [])) }
{
    let mut kids = Vec::with_capacity(alloc, count)?;
    for _ in 0..count {
        kids.push_reserved(nothing);
    }
    Ok(kids)
}

/// The answers of children with those of further replies, each in place of what its child had.
fn placed<'a>(kids: Vec<&'a Answer>, replies: &'a [Reply]) -> Vec<&'a Answer>
    requires { All (IsBelow (length kids.items)) (questions_in replies.now) }
    ensures count { length result.items ≡ length kids.entry.items }
    ensures last { (asked : _) (given : _) → length given ≡ length asked →
        map (λ kid. kid.now) kids.entry.items ≡ list_to (length kids.entry.items) (last_answer asked
        given) →
        map (λ kid. kid.now) result.items
        ≡ list_to (length kids.entry.items) (last_answer (asked ++ questions_in replies.now) (given
        ++ answers_in replies.now)) }
{
    let mut kids = kids;
    for place in 0..replies.len() {
        let reply = &replies[place];
        kids[reply.question.kid as usize] = &reply.answer;
    }
    kids
}
