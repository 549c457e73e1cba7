//! The calls of the library as C has them: a static library of thin exports over `embed`.
//! `include/mathlay.h` is what a C program reads.
//!
//! - Models: the calls of `embed`, and their answers as numbers.
//! - Proved: each export does what its call does, and tells the number of its answer. No export has
//!   a condition.
//! - Not proved: what the C program owes, which stands in the header.
//! - Knows nothing of: what a handle keeps, and how a call is carried out.
//! - Add a call: its definition and its function in `embed`, then its export here, then the header.
#![tactic(auto)]

ghost use Rattle.std.specs.Prelude.{◌≡◌, None};
ghost use Rattle.page_queries.specs.declared.query.Query.TheVariants.{Paint, Select};
ghost use Rattle.embed.specs.Calls.{Answers, Asks, Goes, Hits, Lines, Measures, Misses, Opens, Reads, Shows, Starts, Tells, seen};
ghost use Rattle.embed.specs.Desks.{redone, undone};

use embed::calls::{
    answered, closed, hit_at, measured, opened, painted, redone, selected, shown, told, undone,
};
use embed::starting::{forgotten, read, started};
use embed::{Font, Frame, Handle};
use std::alloc::Global;

/// Opens a session in a closed handle, over the bytes of a metrics file and of a tree file. A
/// refusal is told by the program's status and by the program's line, for which there must be 160
/// bytes of room.
#[unsafe(no_mangle)]
pub extern "C" fn mathlay_open(
    alloc: Global,
    metrics: &[u8],
    tree: &[u8],
    handle: &mut Handle,
    refusal: &mut [u8],
    refusal_len: &mut usize,
) -> u32
    ensures { Answers (Opens metrics.now tree.now
        (seen handle.old.kept refusal.old refusal_len.old)
        (seen handle.new.kept refusal.new refusal_len.new)) result }
{
    opened(alloc, metrics, tree, handle, refusal, refusal_len).number()
}

/// Reads the bytes of a metrics file into a closed handle of metrics. A refusal is told as
/// `mathlay_open` tells it.
#[unsafe(no_mangle)]
pub extern "C" fn mathlay_read(
    alloc: Global,
    metrics: &[u8],
    font: &mut Font,
    refusal: &mut [u8],
    refusal_len: &mut usize,
) -> u32
    ensures { Answers (Reads metrics.now
        (seen font.old.kept refusal.old refusal_len.old)
        (seen font.new.kept refusal.new refusal_len.new)) result }
{
    read(alloc, metrics, font, refusal, refusal_len).number()
}

/// Opens a session in a closed handle, over the bytes of a tree file and a copy of the metrics that
/// another handle keeps. That handle stays as it is. A refusal is told as `mathlay_open` tells it.
#[unsafe(no_mangle)]
pub extern "C" fn mathlay_start(
    alloc: Global,
    font: &mut Font,
    tree: &[u8],
    handle: &mut Handle,
    refusal: &mut [u8],
    refusal_len: &mut usize,
) -> u32
    ensures kept { font.new.kept ≡ font.old.kept }
    ensures starts { Answers (Starts font.old.kept tree.now
        (seen handle.old.kept refusal.old refusal_len.old)
        (seen handle.new.kept refusal.new refusal_len.new)) result }
{
    started(alloc, font, tree, handle, refusal, refusal_len).number()
}

/// Drops the metrics, if there are any. Sessions that were started with them stay. The handle is
/// closed then, and may be used again.
#[unsafe(no_mangle)]
pub extern "C" fn mathlay_forget(alloc: Global, font: &mut Font)
    ensures { font.new.kept ≡ None }
{
    forgotten(alloc, font);
}

/// Does what a line of a script asks for. The reply is kept.
#[unsafe(no_mangle)]
pub extern "C" fn mathlay_line(alloc: Global, handle: &mut Handle, line: &[u8]) -> u32
    ensures { Answers (Lines line.now handle.old.kept handle.new.kept) result }
{
    answered(alloc, handle, line).number()
}

/// Undoes the last edit that wasn't undone. The last reply stays.
#[unsafe(no_mangle)]
pub extern "C" fn mathlay_undo(alloc: Global, handle: &mut Handle) -> u32
    ensures { Answers (Goes undone handle.old.kept handle.new.kept) result }
{
    undone(alloc, handle).number()
}

/// Makes the edit again that was undone last. The last reply stays.
#[unsafe(no_mangle)]
pub extern "C" fn mathlay_redo(alloc: Global, handle: &mut Handle) -> u32
    ensures { Answers (Goes redone handle.old.kept handle.new.kept) result }
{
    redone(alloc, handle).number()
}

/// Keeps the lines of the page's boxes and marks as the reply.
#[unsafe(no_mangle)]
pub extern "C" fn mathlay_show(alloc: Global, handle: &mut Handle) -> u32
    ensures { Answers (Shows handle.old.kept handle.new.kept) result }
{
    shown(alloc, handle).number()
}

/// Keeps a picture of the page, as SVG, as the reply.
#[unsafe(no_mangle)]
pub extern "C" fn mathlay_paint(alloc: Global, handle: &mut Handle) -> u32
    ensures { Answers (Asks Paint handle.old.kept handle.new.kept) result }
{
    painted(alloc, handle).number()
}

/// Keeps the lines of the areas to mark from one element to another as the reply. Where one of them
/// isn't there, its number is told.
#[unsafe(no_mangle)]
pub extern "C" fn mathlay_select(
    alloc: Global,
    handle: &mut Handle,
    first: u32,
    second: u32,
    missing: &mut u32,
) -> u32
    ensures { Answers (λ answer.
        Asks (Select (record { 0 = first }) (record { 0 = second })) handle.old.kept handle.new.kept
        answer
        × Misses missing.old missing.new answer) result }
{
    selected(alloc, handle, first, second, missing).number()
}

/// Copies the last reply to the front of a buffer, and tells how long it is. Where the buffer is
/// too short nothing is written, and the length is told.
#[unsafe(no_mangle)]
pub extern "C" fn mathlay_reply(
    alloc: Global,
    handle: &mut Handle,
    out: &mut [u8],
    len: &mut usize,
) -> u32
    ensures { Answers (Tells (seen handle.old.kept out.old len.old)
        (seen handle.new.kept out.new len.new)) result }
{
    told(alloc, handle, out, len).number()
}

/// The box of the tree's root.
#[unsafe(no_mangle)]
pub extern "C" fn mathlay_root(alloc: Global, handle: &mut Handle, frame: &mut Frame) -> u32
    ensures kept { handle.new.kept ≡ handle.old.kept }
    ensures measures { Answers (Measures handle.old.kept frame.old frame.new) result }
{
    measured(alloc, handle, frame).number()
}

/// The element that a point lies in: of those whose boxes hold it, the last of the deepest. Lengths
/// are in 1/1024 px, to the right and downward from where the root's baseline begins.
#[unsafe(no_mangle)]
pub extern "C" fn mathlay_hit(
    alloc: Global,
    handle: &mut Handle,
    x: i64,
    y: i64,
    element: &mut u32,
) -> u32
    ensures kept { handle.new.kept ≡ handle.old.kept }
    ensures hits { Answers (Hits x y handle.old.kept element.old element.new) result }
{
    hit_at(alloc, handle, x, y, element).number()
}

/// Ends the session, if there is one. The handle is closed then, and may be used again.
#[unsafe(no_mangle)]
pub extern "C" fn mathlay_close(alloc: Global, handle: &mut Handle)
    ensures { handle.new.kept ≡ None }
{
    closed(alloc, handle);
}
