ghost use Rattle.std.specs.Prelude.{◌≡◌, ◌≢◌, ◌≤◌, Some, None, All, IfOk, IfErr, Ok, Err, map, string_bytes};
ghost use Rattle.std.specs.Option.{option_map};
ghost use Rattle.line_replies.specs.Sessions.{SessionValue, TakesVisits};
ghost use Rattle.box_writer.specs.Items.{IsOfFont};
ghost use Rattle.box_writer.specs.Lines.{text_of};
ghost use Rattle.queries.specs.Queries.{IsWritable, bytes_of};
ghost use Rattle.generator.specs.Steps.{TakesForRun as TakesForGenerated};
ghost use Rattle.seeded_edits.specs.Summary.{lines_of};
ghost use Rattle.command_words.specs.Command.{IsInLimits, IsWorkInLimits, asked_by, asked_of, work_of, Edits, Remembers};
ghost use Rattle.script_answers.specs.Texts.{whole_text};
ghost use Rattle.commands.specs.Answer.{answer, answer_over, answered, asked_of_page, checked, done, generates, laid_out, lines_of_page, scripted};
ghost use Rattle.input_files.specs.Files.{GivesOr};
ghost use Rattle.line_replies.specs.Opening.{started};
ghost use Rattle.script_answers.specs.Delivering.{Delivers};
ghost use Rattle.commands.specs.Ends.{Answered, AnsweredJob, Ends, IsJobInParts, JobStepsStand, LacksFile, StepsStand, TakesNoSteps, Written};
ghost use Rattle.input_files.specs.Status.{EndsBeforeTree, EndsUnlaid};
ghost use Rattle.commands.specs.Parts.{LacksScript, LacksTree};
ghost use Rattle.script_answers.specs.Steps.{TakesForScript};
ghost use Rattle.commands.specs.Steps.{TakesForEdits, TakesForRun, TakesForWork, TakesOverMetrics, script_lines};
ghost use Rattle.line_replies.specs.EditSteps.{TakesForLine};
ghost use Rattle.line_replies.specs.HistorySteps.{TakesForKept, by_history, kept_at_first, new_ring, ring_of};
ghost use Rattle.line_replies.specs.Replies.{by_session};
ghost use Rattle.input_files.specs.Refusals.{line_of, status_of};

use crate::load::{load_metrics, load_tree, open_script};
use crate::responders::{ByHistory, BySession};
use box_writer::{Placed, write_placed};
use command_words::{Job, NoCommand, Request, Task, USAGE};
use doc_io::{Inputs, Sink, write_all};
use edit_ring::Ring;
use fixed_units::{List, Memory, Steps};
use font_metrics::Metrics;
use generator::generate;
use input_files::{Refusal, Status};
use line_replies::{Session, Undoable, start};
use math_tree::Tree;
use metrics_file::print_metrics;
use page_queries::Query;
use queries::{Answer, answer_query};
use script_answers::{Respond, answer_lines};
use seeded_edits::Summary;
use std::alloc::Global;
use std::sync::ledger::Ledger;
use tree_json::print_tree;

/// Does all that the program does: carries out the words after the program's name, reads from the
/// inputs, writes to the sink, and says how it ended.
pub fn run<I: Inputs, O: Sink, L: Ledger>(
    alloc: Global,
    words: &[String],
    inputs: &mut I,
    out: &mut O,
    steps: &mut Steps<L>,
) -> Status
    ensures ends { Ends (asked_by (map string_bytes words.now))
        (I.told inputs.old) (I.told inputs.new)
        (O.told out.old) (O.told out.new) result }
    ensures steps { TakesNoSteps (asked_by (map string_bytes words.now)) result
        → steps.new ≡ steps.old }
    ensures taken { TakesForRun (asked_by (map string_bytes words.now)) (I.told inputs.old).files
        steps.old steps.new }
{
    match Request::from_words(words) {
        Err(NoCommand) => deliver(out, USAGE.as_bytes(), Status::Usage),
        Ok(request) => answer(alloc, request, inputs, out, steps),
    }
}

/// Does what a request asks for, or tells why it isn't done.
fn answer<I: Inputs, O: Sink, L: Ledger>(
    alloc: Global,
    request: Request,
    inputs: &mut I,
    out: &mut O,
    steps: &mut Steps<L>,
) -> Status
    requires limits { IsInLimits (asked_of request).job }
    ensures answered { AnsweredJob (IsJobInParts (asked_of request.entry).job)
        (option_map (answer (asked_of request.entry)) (I.told inputs.old).files)
        (LacksFile (Some (asked_of request.entry)))
        (I.told inputs.old) (I.told inputs.new)
        (O.told out.old) (O.told out.new) result }
    ensures steps { JobStepsStand (asked_of request.entry).job result → steps.new ≡ steps.old }
    ensures taken { TakesForRun (Some (asked_of request.entry)) (I.told inputs.old).files
        steps.old steps.new }
{
    match load_metrics(alloc, request.metrics, inputs) {
        Ok(metrics) => match request.job {
            Job::OverTree(task, tree) => {
                answer_over(alloc, task, metrics, tree, inputs, out, steps)
            }
            Job::Generate(seed, count) => generate_edits(alloc, metrics, seed, count, out, steps),
        },
        Err(refusal) => tell(out, refusal),
    }
}

/// Does a task with these metrics and a tree file, or tells why it isn't done.
fn answer_over<I: Inputs, O: Sink, L: Ledger>(
    alloc: Global,
    task: Task,
    metrics: Metrics,
    name: &str,
    inputs: &mut I,
    out: &mut O,
    steps: &mut Steps<L>,
) -> Status
    requires limits { IsWorkInLimits (work_of task) }
    ensures answered { Answered (work_of task.entry)
        (option_map (answer_over (work_of task.entry) metrics name.now) (I.told inputs.old).files)
        (LacksTree (work_of task.entry) metrics name.now)
        (I.told inputs.old) (I.told inputs.new)
        (O.told out.old) (O.told out.new) result }
    ensures steps { StepsStand (work_of task.entry) result → steps.new ≡ steps.old }
    ensures taken { TakesOverMetrics (work_of task.entry) metrics name.now (I.told inputs.old).files
        steps.old steps.new }
{
    match load_tree(alloc, name, inputs) {
        Ok(tree) => do_task(alloc, task, metrics, tree, inputs, out, steps),
        Err(refusal) => {
            // Dropped by a call, here and below, so that the proof of this function doesn't go
            // through all parts.
            drop(metrics);
            tell(out, refusal)
        }
    }
}

/// Does a task with the two files.
fn do_task<I: Inputs, O: Sink, L: Ledger>(
    alloc: Global,
    task: Task,
    metrics: Metrics,
    tree: Tree,
    inputs: &mut I,
    out: &mut O,
    steps: &mut Steps<L>,
) -> Status
    requires limits { IsWorkInLimits (work_of task) }
    ensures answered { Answered (work_of task.entry)
        (option_map (done (work_of task.entry) metrics tree) (I.told inputs.old).files)
        (LacksScript (work_of task.entry) metrics tree)
        (I.told inputs.old) (I.told inputs.new)
        (O.told out.old) (O.told out.new) result }
    ensures steps { StepsStand (work_of task.entry) result → steps.new ≡ steps.old }
    ensures taken { TakesForWork (work_of task.entry) metrics tree (I.told inputs.old).files
        steps.old steps.new }
{
    match task {
        Task::Layout => lay_out(alloc, metrics, tree, out, steps),
        Task::Edit(script) => edit(alloc, metrics, tree, script, inputs, out, steps),
        Task::Ask(query) => ask(alloc, metrics, tree, query, out, steps),
        Task::Remember(depth, script) => {
            remember(alloc, metrics, tree, depth, script, inputs, out, steps)
        }
        Task::Check => {
            let status = check(alloc, &metrics, &tree, out);
            drop(metrics);
            drop(tree);
            status
        }
    }
}

/// Makes edits that are drawn from a seed and writes what came of them, or tells why it doesn't.
fn generate_edits<O: Sink, L: Ledger>(
    alloc: Global,
    metrics: Metrics,
    seed: u64,
    count: u32,
    out: &mut O,
    steps: &mut Steps<L>,
) -> Status
    ensures written { Written (generates metrics seed count)
        (O.told out.old) (O.told out.new) result }
    ensures late { ¬ EndsUnlaid result }
    ensures taken { TakesForGenerated metrics seed count steps.old steps.new }
{
    match generate(alloc, metrics, seed, count, steps) {
        Ok(told) => write_summary(alloc, &told, out),
        Err(refusal) => tell(out, Refusal::of_layout(refusal)),
    }
}

/// Writes the lines of what came of edits.
fn write_summary<O: Sink>(alloc: Global, told: &Summary, out: &mut O) -> Status
    ensures written { Written (Ok (whole_text (lines_of told.now)))
        (O.told out.old) (O.told out.new) result }
    ensures late { ¬ EndsUnlaid result }
{
    match told.to_string(alloc) {
        Ok(lines) => deliver(out, lines.as_bytes(), Status::Done),
        Err(_) => tell(out, Refusal::Memory),
    }
}

/// Lays out the tree and writes the lines of its boxes and marks, or tells why it isn't laid out.
fn lay_out<O: Sink, L: Ledger>(
    alloc: Global,
    metrics: Metrics,
    tree: Tree,
    out: &mut O,
    steps: &mut Steps<L>,
) -> Status
    ensures written { Written (laid_out metrics tree) (O.told out.old) (O.told out.new) result }
    ensures late { ¬ EndsUnlaid result }
    ensures taken { TakesVisits metrics tree steps.old steps.new }
{
    match start(alloc, metrics, tree, steps) {
        Ok(mut session) => {
            let status = show(alloc, &mut session, out);
            drop(session);
            status
        }
        Err(refusal) => tell(out, refusal),
    }
}

/// Lays out the tree and answers what is asked of its page, or tells why it doesn't.
fn ask<O: Sink, L: Ledger>(
    alloc: Global,
    metrics: Metrics,
    tree: Tree,
    query: Query,
    out: &mut O,
    steps: &mut Steps<L>,
) -> Status
    ensures written { Written (asked_of_page query metrics tree)
        (O.told out.old) (O.told out.new) result }
    ensures late { ¬ EndsUnlaid result }
    ensures taken { TakesVisits metrics tree steps.old steps.new }
{
    match start(alloc, metrics, tree, steps) {
        Ok(mut session) => {
            let status = ask_session(alloc, &mut session, query, out);
            drop(session);
            status
        }
        Err(refusal) => tell(out, refusal),
    }
}

/// Answers what is asked of the page of a session's tree, or tells why it doesn't.
fn ask_session<O: Sink>(alloc: Global, session: &mut Session, query: Query, out: &mut O) -> Status
    ensures written { Written (answered query session.old.held)
        (O.told out.old) (O.told out.new) result }
    ensures late { ¬ EndsUnlaid result }
{
    match answer_query(alloc, session, query) {
        Ok(answer) => {
            let status = deliver_answer(out, &answer, session.metrics());
            drop(answer);
            status
        }
        Err(refusal) => tell(out, Refusal::of_query(refusal)),
    }
}

/// Lays out the tree and answers the lines of a script, or tells why it doesn't.
fn edit<I: Inputs, O: Sink, L: Ledger>(
    alloc: Global,
    metrics: Metrics,
    tree: Tree,
    script: &str,
    inputs: &mut I,
    out: &mut O,
    steps: &mut Steps<L>,
) -> Status
    ensures answered { Answered (Edits script.now)
        (option_map (done (Edits script.now) metrics tree) (I.told inputs.old).files)
        (LacksScript (Edits script.now) metrics tree)
        (I.told inputs.old) (I.told inputs.new)
        (O.told out.old) (O.told out.new) result }
    ensures late { ¬ EndsBeforeTree result }
    ensures taken { TakesForEdits by_session TakesForLine (λ session. session) metrics tree
        (script_lines script.now (I.told inputs.old).files) steps.old steps.new }
{
    match start(alloc, metrics, tree, steps) {
        Ok(session) => {
            let mut answerer = BySession { session };
            let status = answer_script(alloc, &mut answerer, script, inputs, out, steps);
            drop(answerer);
            status
        }
        Err(refusal) => tell(out, refusal),
    }
}

/// Lays out the tree and answers the lines of a script whose edits can be undone, or tells why it
/// doesn't.
fn remember<I: Inputs, O: Sink, L: Ledger>(
    alloc: Global,
    metrics: Metrics,
    tree: Tree,
    depth: u32,
    script: &str,
    inputs: &mut I,
    out: &mut O,
    steps: &mut Steps<L>,
) -> Status
    requires some { 1 ≤ depth }
    requires few { depth ≤ 1000 }
    ensures answered { Answered (Remembers depth script.now)
        (option_map (done (Remembers depth script.now) metrics tree) (I.told inputs.old).files)
        (LacksScript (Remembers depth script.now) metrics tree)
        (I.told inputs.old) (I.told inputs.new)
        (O.told out.old) (O.told out.new) result }
    ensures late { ¬ EndsBeforeTree result }
    ensures taken { TakesForEdits by_history TakesForKept (kept_at_first depth) metrics tree
        (script_lines script.now (I.told inputs.old).files) steps.old steps.new }
{
    match start_ring(alloc, metrics, tree, depth, steps) {
        Ok(ring) => {
            let mut answerer = ByHistory { ring };
            let status = answer_script(alloc, &mut answerer, script, inputs, out, steps);
            drop(answerer);
            status
        }
        Err(refusal) => tell(out, refusal),
    }
}

/// The session of a tree that is laid out, of which so many edits can be undone.
fn start_ring<L: Ledger>(
    alloc: Global,
    metrics: Metrics,
    tree: Tree,
    depth: u32,
    steps: &mut Steps<L>,
) -> Result<Ring<Undoable>, Refusal>
    requires some { 1 ≤ depth }
    requires few { depth ≤ 1000 }
    ensures ring { IfOk result (λ ring. (session : SessionValue)
        × (started metrics tree ≡ Ok session) × (ring_of ring ≡ new_ring depth session)) }
    ensures refused { IfErr result (λ refusal. GivesOr (started metrics tree) (Err refusal)) }
    ensures late { IfErr result (λ refusal. ¬ EndsUnlaid (status_of refusal)) }
    ensures taken { TakesVisits metrics tree steps.old steps.new }
{
    let session = start(alloc, metrics, tree, steps)?;
    match Ring::make(alloc, Undoable { session }, depth as usize) {
        Ok(ring) => Ok(ring),
        Err(Memory) => Err(Refusal::Memory),
    }
}

/// Writes the lines of the boxes and marks of a session's tree.
fn show<O: Sink>(alloc: Global, session: &mut Session, out: &mut O) -> Status
    ensures written { Written (Ok (whole_text (lines_of_page session.old.held)))
        (O.told out.old) (O.told out.new) result }
    ensures late { ¬ EndsUnlaid result }
{
    match session.show(alloc) {
        Ok(placed) => deliver_lines(out, &placed, session.metrics()),
        Err(Memory) => tell(out, Refusal::Memory),
    }
}

/// Answers the lines of a script, or tells why it doesn't.
fn answer_script<A: Respond, I: Inputs, O: Sink, L: Ledger>(
    alloc: Global,
    answerer: &mut A,
    name: &str,
    inputs: &mut I,
    out: &mut O,
    steps: &mut Steps<L>,
) -> Status
    ensures answered { AnsweredJob (Unit {0})
        (option_map (scripted A.responder name.now (A.known answerer.old))
        (I.told inputs.old).files)
        (λ files. files name.now ≡ None)
        (I.told inputs.old) (I.told inputs.new)
        (O.told out.old) (O.told out.new) result }
    ensures late { ¬ EndsBeforeTree result }
    ensures taken { TakesForScript A.responder A.takes (A.known answerer.old)
        (script_lines name.now (I.told inputs.old).files) steps.old steps.new }
{
    match open_script(alloc, name, inputs) {
        Ok(mut reader) => {
            let status = answer_lines(alloc, answerer, &mut reader, inputs, out, steps);
            drop(reader);
            status
        }
        Err(refusal) => tell(out, refusal),
    }
}

/// Writes the canonical print of both files, and a line feed.
fn check<O: Sink>(alloc: Global, metrics: &Metrics, tree: &Tree, out: &mut O) -> Status
    ensures { Written (Ok (whole_text (checked metrics.now tree.now))) (O.told out.old)
        (O.told out.new) result }
{
    match print_both(alloc, metrics, tree) {
        Ok(text) => deliver(out, text.as_slice(), Status::Done),
        Err(Memory) => tell(out, Refusal::Memory),
    }
}

/// The canonical print of both files, and a line feed.
fn print_both(alloc: Global, metrics: &Metrics, tree: &Tree) -> Result<List<u8>, Memory>
    ensures { IfOk result (λ text. text ≡ checked metrics.now tree.now) }
{
    let mut text = print_metrics(alloc, metrics)?;
    text.push_all(print_tree(alloc, tree)?.as_slice())?;
    text.push(b'\n')?;
    Ok(text)
}

/// Writes a text and answers the status, unless a write fails.
fn deliver<O: Sink>(out: &mut O, text: &[u8], status: Status) -> Status
    requires { status ≢ Status.WriteFault }
    ensures { Delivers text.now status
        (O.told out.old) (O.told out.new) result }
{
    match write_all(out, text) {
        Ok(()) => status,
        Err(_) => Status::WriteFault,
    }
}

/// Writes the lines of boxes and marks, unless a write fails.
fn deliver_lines<O: Sink>(out: &mut O, placed: &Placed, metrics: &Metrics) -> Status
    requires { All (IsOfFont metrics.now) placed.now }
    ensures { Delivers (text_of metrics.now placed.now) Status.Done
        (O.told out.old) (O.told out.new) result }
{
    match write_placed(out, placed, metrics) {
        Ok(()) => Status::Done,
        Err(_) => Status::WriteFault,
    }
}

/// Writes what was answered, unless a write fails.
fn deliver_answer<O: Sink>(out: &mut O, answer: &Answer, metrics: &Metrics) -> Status
    requires { IsWritable metrics.now answer.now }
    ensures { Delivers (bytes_of metrics.now answer.now) Status.Done
        (O.told out.old) (O.told out.new) result }
{
    match answer.write(out, metrics) {
        Ok(()) => Status::Done,
        Err(_) => Status::WriteFault,
    }
}

/// Writes the line of a refusal and answers its status, unless a write fails.
fn tell<O: Sink>(out: &mut O, refusal: Refusal) -> Status
    ensures { Delivers (line_of refusal) (status_of refusal)
        (O.told out.old) (O.told out.new) result }
{
    deliver(out, refusal.line().as_str().as_bytes(), refusal.status())
}
