ghost use Rattle.std.specs.Prelude.{◌≡◌, ◌≢◌, true, false, None, Some, Err, Ok, IfOk, IfErr};
ghost use Rattle.input_files.specs.Files.{metrics_in as metrics_of, GivesOr};
ghost use Rattle.line_replies.specs.Opening.{opened_over};
ghost use Rattle.embed.specs.Calls.{Reads, Starts, seen};
ghost use Rattle.embed.specs.Desks.{IsStarted};

use crate::answer::Answer;
use crate::boxing::boxed;
use crate::calls::{REFUSAL_ROOM, is_open};
use crate::copying::copy_to;
use crate::desk::Desk;
use crate::font::Font;
use crate::handle::Handle;
use font_metrics::Metrics;
use input_files::{Refusal, metrics_in};
use std::alloc::Global;

/// Reads the bytes of a metrics file into a closed handle of metrics.
pub fn read(
    alloc: Global,
    metrics: &[u8],
    font: &mut Font,
    refusal: &mut [u8],
    refusal_len: &mut usize,
) -> Answer
    ensures { Reads metrics.now
        (seen font.old.kept refusal.old refusal_len.old)
        (seen font.new.kept refusal.new refusal_len.new) result }
{
    if refusal.len() < REFUSAL_ROOM {
        return Answer::Short;
    }
    if has_metrics(alloc, font) {
        return Answer::Open;
    }
    match boxed_metrics(alloc, metrics) {
        Ok(metrics) => {
            font.keep(alloc, metrics);
            Answer::Done
        }
        Err(why) => {
            copy_to(why.line().as_str().as_bytes(), refusal, refusal_len);
            Answer::Refused(why)
        }
    }
}

/// Whether the handle keeps metrics.
fn has_metrics(alloc: Global, font: &mut Font) -> bool
    ensures some { result ≡ true → font.old.kept ≢ None }
    ensures none { result ≡ false → font.old.kept ≡ None }
    ensures kept { font.new.kept ≡ font.old.kept }
{
    match font.take(alloc) {
        Some(metrics) => {
            font.keep(alloc, metrics);
            true
        }
        None => false,
    }
}

/// The metrics of a file's bytes, in a box.
fn boxed_metrics(alloc: Global, bytes: &[u8]) -> Result<Box<Metrics>, Refusal>
    ensures read { IfOk result (λ metrics. metrics_of bytes.now ≡ Ok metrics.value) }
    ensures refused { IfErr result
        (λ refusal. GivesOr (metrics_of bytes.now) (Err refusal)) }
{
    Ok(boxed(alloc, metrics_in(alloc, bytes)?)?)
}

/// Opens a session in a closed handle, over the bytes of a tree file and a copy of the metrics that
/// a handle of metrics keeps.
pub fn started(
    alloc: Global,
    font: &mut Font,
    tree: &[u8],
    handle: &mut Handle,
    refusal: &mut [u8],
    refusal_len: &mut usize,
) -> Answer
    ensures kept { font.new.kept ≡ font.old.kept }
    ensures starts { Starts font.old.kept tree.now
        (seen handle.old.kept refusal.old refusal_len.old)
        (seen handle.new.kept refusal.new refusal_len.new) result }
{
    match font.take(alloc) {
        None => Answer::Closed,
        Some(metrics) => {
            let answer = started_over(alloc, metrics.as_ref(), tree, handle, refusal, refusal_len);
            font.keep(alloc, metrics);
            answer
        }
    }
}

/// Opens a session in a closed handle, over the bytes of a tree file and a copy of these metrics.
fn started_over(
    alloc: Global,
    metrics: &Metrics,
    tree: &[u8],
    handle: &mut Handle,
    refusal: &mut [u8],
    refusal_len: &mut usize,
) -> Answer
    ensures { Starts (Some metrics.now) tree.now
        (seen handle.old.kept refusal.old refusal_len.old)
        (seen handle.new.kept refusal.new refusal_len.new) result }
{
    if refusal.len() < REFUSAL_ROOM {
        return Answer::Short;
    }
    if is_open(alloc, handle) {
        return Answer::Open;
    }
    match desk_over(alloc, metrics, tree) {
        Ok(desk) => {
            handle.keep(alloc, desk);
            Answer::Done
        }
        Err(why) => {
            copy_to(why.line().as_str().as_bytes(), refusal, refusal_len);
            Answer::Refused(why)
        }
    }
}

/// A desk over a tree's bytes and a copy of these metrics, in a box.
fn desk_over(alloc: Global, metrics: &Metrics, tree: &[u8]) -> Result<Box<Desk>, Refusal>
    ensures started { IfOk result (λ desk. IsStarted metrics.now tree.now desk.value) }
    ensures refused { IfErr result
        (λ refusal. GivesOr (opened_over metrics.now tree.now) (Err refusal)) }
{
    let desk = Desk::start(alloc, metrics.copy(alloc)?, tree)?;
    Ok(boxed(alloc, desk)?)
}

/// Drops the metrics, if there are any.
pub fn forgotten(alloc: Global, font: &mut Font)
    ensures { font.new.kept ≡ None }
{
    std::mem::drop(font.take(alloc));
}
