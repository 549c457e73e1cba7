ghost use Rattle.std.specs.Prelude.{◌≡◌, ◌≢◌, true, false, None, Some, IfOk, IfErr, Err, Ok};
ghost use Rattle.input_files.specs.Files.{GivesOr};
ghost use Rattle.line_replies.specs.Opening.{opened as opened_session};
ghost use Rattle.embed.specs.Calls.{Asks, Goes, Hits, Lines, Measures, Misses, Opens, Shows, Tells, answer_of_query, answer_of_step, seen};
ghost use Rattle.embed.specs.Desks.{IsOpened, redone, undone};
ghost use Rattle.page_queries.specs.declared.query.Query.TheVariants.{Paint, Select};

use crate::answer::Answer;
use crate::boxing::boxed;
use crate::copying::copy_to;
use crate::desk::Desk;
use crate::frame::Frame;
use crate::handle::Handle;
use edit_ring::RingRefusal;
use fixed_units::Memory;
use input_files::Refusal;
use math_tree::NodeId;
use page_queries::{Query, QueryRefusal};
use std::alloc::Global;

/// The most bytes that a line may have: 1 MiB.
const LONGEST_LINE: usize = 1_048_576;

/// The room that a caller has for the line of a refusal.
pub const REFUSAL_ROOM: usize = 160;

/// Opens a session in a closed handle, over the bytes of a metrics file and of a tree file.
pub fn opened(
    alloc: Global,
    metrics: &[u8],
    tree: &[u8],
    handle: &mut Handle,
    refusal: &mut [u8],
    refusal_len: &mut usize,
) -> Answer
    ensures { Opens metrics.now tree.now
        (seen handle.old.kept refusal.old refusal_len.old)
        (seen handle.new.kept refusal.new refusal_len.new) result }
{
    if refusal.len() < REFUSAL_ROOM {
        return Answer::Short;
    }
    if is_open(alloc, handle) {
        return Answer::Open;
    }
    match desk_of(alloc, metrics, tree) {
        Ok(desk) => {
            handle.keep(alloc, desk);
            Answer::Done
        }
        Err(why) => {
            copy_to(why.line().as_str().as_bytes(), refusal, refusal_len);
            Answer::Refused(why)
        }
    }
}

/// Whether the handle keeps a session.
pub fn is_open(alloc: Global, handle: &mut Handle) -> bool
    ensures some { result ≡ true → handle.old.kept ≢ None }
    ensures none { result ≡ false → handle.old.kept ≡ None }
    ensures kept { handle.new.kept ≡ handle.old.kept }
{
    match handle.take(alloc) {
        Some(desk) => {
            handle.keep(alloc, desk);
            true
        }
        None => false,
    }
}

/// A desk over the bytes of both files, in a box.
fn desk_of(alloc: Global, metrics: &[u8], tree: &[u8]) -> Result<Box<Desk>, Refusal>
    ensures opened { IfOk result (λ desk. IsOpened metrics.now tree.now desk.value) }
    ensures refused { IfErr result
        (λ refusal. GivesOr (opened_session metrics.now tree.now) (Err refusal)) }
{
    let desk = Desk::open(alloc, metrics, tree)?;
    Ok(boxed(alloc, desk)?)
}

/// Does what a line of a script asks for.
pub fn answered(alloc: Global, handle: &mut Handle, line: &[u8]) -> Answer
    ensures { Lines line.now handle.old.kept handle.new.kept result }
{
    match handle.take(alloc) {
        None => Answer::Closed,
        Some(mut desk) => {
            let answer = answer_line(alloc, desk.as_mut(), line);
            handle.keep(alloc, desk);
            answer
        }
    }
}

/// Does what a line asks for that isn't too long.
fn answer_line(alloc: Global, desk: &mut Desk, line: &[u8]) -> Answer
    ensures { Lines line.now (Some desk.old) (Some desk.new) result }
{
    if line.len() > LONGEST_LINE {
        return Answer::LineLong;
    }
    match desk.line(alloc, line) {
        Ok(()) => Answer::Done,
        Err(Memory) => Answer::Memory,
    }
}

/// Keeps the lines of the page as the reply.
pub fn shown(alloc: Global, handle: &mut Handle) -> Answer
    ensures { Shows handle.old.kept handle.new.kept result }
{
    match handle.take(alloc) {
        None => Answer::Closed,
        Some(mut desk) => {
            let answer = match desk.as_mut().show(alloc) {
                Ok(()) => Answer::Done,
                Err(Memory) => Answer::Memory,
            };
            handle.keep(alloc, desk);
            answer
        }
    }
}

/// Undoes the last edit that wasn't undone.
pub fn undone(alloc: Global, handle: &mut Handle) -> Answer
    ensures { Goes undone handle.old.kept handle.new.kept result }
{
    match handle.take(alloc) {
        None => Answer::Closed,
        Some(mut desk) => {
            let answer = answer_step(desk.as_mut().undo(alloc));
            handle.keep(alloc, desk);
            answer
        }
    }
}

/// Makes the edit again that was undone last.
pub fn redone(alloc: Global, handle: &mut Handle) -> Answer
    ensures { Goes redone handle.old.kept handle.new.kept result }
{
    match handle.take(alloc) {
        None => Answer::Closed,
        Some(mut desk) => {
            let answer = answer_step(desk.as_mut().redo(alloc));
            handle.keep(alloc, desk);
            answer
        }
    }
}

/// What is answered to a step through the history.
fn answer_step(stepped: Result<(), RingRefusal>) -> Answer
    ensures { result ≡ answer_of_step stepped }
{
    match stepped {
        Ok(()) => Answer::Done,
        Err(RingRefusal::Nothing) => Answer::Nothing,
        Err(RingRefusal::Memory) => Answer::Memory,
    }
}

/// Keeps a picture of the page as the reply.
pub fn painted(alloc: Global, handle: &mut Handle) -> Answer
    ensures { Asks Paint handle.old.kept handle.new.kept result }
{
    asked(alloc, handle, Query::Paint)
}

/// Keeps the areas to mark from one element to another as the reply.
pub fn selected(
    alloc: Global,
    handle: &mut Handle,
    first: u32,
    second: u32,
    missing: &mut u32,
) -> Answer
    ensures areas { Asks (Select (record { 0 = first }) (record { 0 = second }))
        handle.old.kept handle.new.kept result }
    ensures missing { Misses missing.old missing.new result }
{
    let answer = asked(alloc, handle, Query::Select(NodeId(first), NodeId(second)));
    tell_missing(answer, missing);
    answer
}

/// Tells the number of an element that isn't there.
fn tell_missing(answer: Answer, missing: &mut u32)
    ensures { Misses missing.old missing.new answer }
{
    if let Answer::Refused(Refusal::NoNode(id)) = answer {
        *missing = id.0;
    }
}

/// Keeps what is asked for on the page as the reply.
fn asked(alloc: Global, handle: &mut Handle, query: Query) -> Answer
    ensures { Asks query handle.old.kept handle.new.kept result }
{
    match handle.take(alloc) {
        None => Answer::Closed,
        Some(mut desk) => {
            let answer = answer_query(desk.as_mut().ask(alloc, query));
            handle.keep(alloc, desk);
            answer
        }
    }
}

/// What is answered to a question about the page.
fn answer_query(found: Result<(), QueryRefusal>) -> Answer
    ensures { result ≡ answer_of_query found }
{
    match found {
        Ok(()) => Answer::Done,
        Err(refusal) => Answer::Refused(Refusal::of_query(refusal)),
    }
}

/// Copies the last reply to the front of a buffer.
pub fn told(alloc: Global, handle: &mut Handle, out: &mut [u8], len: &mut usize) -> Answer
    ensures { Tells (seen handle.old.kept out.old len.old)
        (seen handle.new.kept out.new len.new) result }
{
    match handle.take(alloc) {
        None => Answer::Closed,
        Some(mut desk) => {
            let answer = desk.as_mut().tell(alloc, out, len);
            handle.keep(alloc, desk);
            answer
        }
    }
}

/// Tells the box of the tree's root.
pub fn measured(alloc: Global, handle: &mut Handle, frame: &mut Frame) -> Answer
    ensures kept { handle.new.kept ≡ handle.old.kept }
    ensures measures { Measures handle.old.kept frame.old frame.new result }
{
    match handle.take(alloc) {
        None => Answer::Closed,
        Some(desk) => {
            *frame = Frame::of(desk.as_ref().root_box());
            handle.keep(alloc, desk);
            Answer::Done
        }
    }
}

/// Tells the element that a point lies in.
pub fn hit_at(alloc: Global, handle: &mut Handle, x: i64, y: i64, element: &mut u32) -> Answer
    ensures kept { handle.new.kept ≡ handle.old.kept }
    ensures hits { Hits x y handle.old.kept element.old element.new result }
{
    match handle.take(alloc) {
        None => Answer::Closed,
        Some(mut desk) => {
            let answer = tell_element(alloc, desk.as_mut(), x, y, element);
            handle.keep(alloc, desk);
            answer
        }
    }
}

/// Tells the element that a point of a desk's page lies in.
fn tell_element(alloc: Global, desk: &mut Desk, x: i64, y: i64, element: &mut u32) -> Answer
    ensures kept { desk.new ≡ desk.old }
    ensures hits { Hits x y (Some desk.old) element.old element.new result }
{
    match desk.element_at(alloc, x, y) {
        Ok(Some(found)) => {
            *element = found.0;
            Answer::Done
        }
        Ok(None) => Answer::Nothing,
        Err(Memory) => Answer::Memory,
    }
}

/// Ends the session, if there is one.
pub fn closed(alloc: Global, handle: &mut Handle)
    ensures { handle.new.kept ≡ None }
{
    std::mem::drop(handle.take(alloc));
}
