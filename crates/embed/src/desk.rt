ghost use Rattle.std.specs.Prelude.{◌≡◌, ◌≢◌, ◌<◌, [], None, Some, Ok, Err, IfOk, IfErr, OnOk, OnErr};
ghost use Rattle.edit_ring.specs.declared.ring.RingRefusal.TheVariants.{Nothing as HoldsNone, Memory as LacksMemory};
ghost use Rattle.line_replies.specs.Sessions.{root_box};
ghost use Rattle.queries.specs.Queries.{IsCause, answer_to};
ghost use Rattle.input_files.specs.Files.{GivesOr};
ghost use Rattle.line_replies.specs.Opening.{opened, opened_over};
ghost use Rattle.line_replies.specs.History.{session_in};
ghost use Rattle.embed.specs.Calls.{Tells, seen};
ghost use Rattle.embed.specs.Desks.{IsAnswered, IsOpened, IsStarted, after, element_at, fresh, kept_in, redone, shown, undone};

use crate::answer::Answer;
use crate::copying::put;
use crate::growing::text_of;
use crate::kept_reply::KeptReply;
use command_reader::CommandReader;
use edit_ring::{Ring, RingRefusal};
use fixed_units::{List, MathBox, Memory, Steps};
use font_metrics::Metrics;
use hit_test::hit;
use input_files::Refusal;
use line_replies::{Reply, Session, Undoable, history, open, open_tree};
use math_tree::NodeId;
use page_queries::{Query, QueryRefusal};
use queries::answer_over;
use std::alloc::Global;
use std::marker::{Brand, Model};
use std::mem;
use std::sync::ledger::{Blank, Ledger};

/// How many edits can be undone.
const DEPTH: usize = 1_000;

/// What a handle keeps: a session whose edits can be undone, and its last reply.
#[derive(Drop)]
pub struct Desk {
    ring: Ring<Undoable>,
    reply: KeptReply,
    /// The bytes of the reply, once they were asked for.
    text: Option<List<u8>>,
    /// What reads the commands among the lines.
    commands: CommandReader,
}

impl Model for Desk {
    ghost use Rattle.std.specs.Coded.{codes};
    ghost use Rattle.std.specs.Prelude.{◌≡◌, IfSome};
    ghost use Rattle.math_tree.specs.contracts.node.Node as node;
    ghost use Rattle.embed.specs.Desks.{DeskValue, IsOfFont, kept_in, text_of};

    ghost Value = { DeskValue };

    ghost coded = { Prim.hlevel (codes, node.the_row.coded) };

    ghost view = { λ desk. record {
      kept = kept_in desk.ring;
      text = text_of (kept_in desk.ring).metrics desk.reply;
    } };

    ghost invariant = { λ desk. IsOfFont (kept_in desk.ring).metrics desk.reply
        × IfSome desk.text (λ text. text ≡ text_of (kept_in desk.ring).metrics desk.reply) };
}

impl Desk {
    /// The session of a metrics file's and a tree file's bytes, asked for nothing yet.
    pub fn open(alloc: Global, metrics: &[u8], tree: &[u8]) -> Result<Desk, Refusal>
        ensures opened { IfOk result (IsOpened metrics.now tree.now) }
        ensures refused { IfErr result
            (λ refusal. GivesOr (opened metrics.now tree.now) (Err refusal)) }
    {
        Desk::open_counted::<Brand>(alloc, metrics, tree, Blank::new(1))
    }

    /// The same, and counts on the ledger `L`, which takes no bytes.
    fn open_counted<L: Ledger>(
        alloc: Global,
        metrics: &[u8],
        tree: &[u8],
        blank: Blank,
    ) -> Result<Desk, Refusal>
        requires name { blank.name ≡ L.name }
        requires parts { blank.parts ≡ L.parts }
        requires some { 0 < blank.parts }
        ensures opened { IfOk result (IsOpened metrics.now tree.now) }
        ensures refused { IfErr result
            (λ refusal. GivesOr (opened metrics.now tree.now) (Err refusal)) }
    {
        let session = open(alloc, metrics, tree, &mut Steps::<L>::new(blank))?;
        Ok(Desk::over(alloc, session)?)
    }

    /// The session of a tree file's bytes with metrics, asked for nothing yet.
    pub fn start(alloc: Global, metrics: Metrics, tree: &[u8]) -> Result<Desk, Refusal>
        ensures started { IfOk result (IsStarted metrics tree.now) }
        ensures refused { IfErr result
            (λ refusal. GivesOr (opened_over metrics tree.now) (Err refusal)) }
    {
        Desk::start_counted::<Brand>(alloc, metrics, tree, Blank::new(1))
    }

    /// The same, and counts on the ledger `L`, which takes no bytes.
    fn start_counted<L: Ledger>(
        alloc: Global,
        metrics: Metrics,
        tree: &[u8],
        blank: Blank,
    ) -> Result<Desk, Refusal>
        requires name { blank.name ≡ L.name }
        requires parts { blank.parts ≡ L.parts }
        requires some { 0 < blank.parts }
        ensures started { IfOk result (IsStarted metrics tree.now) }
        ensures refused { IfErr result
            (λ refusal. GivesOr (opened_over metrics tree.now) (Err refusal)) }
    {
        let session = open_tree(alloc, metrics, tree, &mut Steps::<L>::new(blank))?;
        Ok(Desk::over(alloc, session)?)
    }

    /// A desk over a session of which nothing can be undone yet.
    fn over(alloc: Global, session: Session) -> Result<Desk, Memory>
        ensures { IfOk result (λ desk. desk ≡ fresh session.held) }
    {
        let ring = Ring::make(alloc, Undoable { session }, DEPTH)?;
        Ok(Desk::of_ring(ring, CommandReader::make(alloc)))
    }

    /// The same over a ring.
    #[tactic(auto, unfolding(line_replies::specs::Replies::text_of_reply))]
    fn of_ring(ring: Ring<Undoable>, commands: CommandReader) -> Desk
        ensures kept { result.kept ≡ kept_in ring }
        ensures text { result.text ≡ [] }
    {
        Desk {
            ring,
            reply: KeptReply::Line(Reply::Nothing),
            text: None,
            commands,
        }
    }

    /// Does what a line of a script asks for, and keeps the reply.
    pub fn line(&mut self, alloc: Global, line: &[u8]) -> Result<(), Memory>
        ensures taken { OnOk result (self.new ≡ after self.old line.now) }
        ensures unchanged { OnErr result (self.new ≡ self.old) }
    {
        self.line_counted::<Brand>(alloc, line, Blank::new(1))
    }

    /// The same, and counts on the ledger `L`, which takes no bytes.
    fn line_counted<L: Ledger>(
        &mut self,
        alloc: Global,
        line: &[u8],
        blank: Blank,
    ) -> Result<(), Memory>
        requires name { blank.name ≡ L.name }
        requires parts { blank.parts ≡ L.parts }
        requires some { 0 < blank.parts }
        ensures taken { OnOk result (self.new ≡ after self.old line.now) }
        ensures unchanged { OnErr result (self.new ≡ self.old) }
    {
        let reply = history::reply_to(
            alloc,
            &mut self.ring,
            &mut self.commands,
            line,
            &mut Steps::<L>::new(blank),
        )?;
        // Dropped by calls, so that this function's proof doesn't go through all parts.
        drop(mem::replace(&mut self.reply, KeptReply::Line(reply)));
        drop(self.text.take());
        Ok(())
    }

    /// Undoes the last edit that wasn't undone. The reply stays.
    pub fn undo(&mut self, alloc: Global) -> Result<(), RingRefusal>
        ensures undone { OnOk result (undone self.old ≡ Some self.new) }
        ensures nothing { result ≡ Err HoldsNone → undone self.old ≡ None }
        ensures memory { result ≡ Err LacksMemory → undone self.old ≢ None }
        ensures unchanged { OnErr result (self.new ≡ self.old) }
    {
        self.undo_counted::<Brand>(alloc, Blank::new(1))
    }

    /// The same, and counts on the ledger `L`, which takes no bytes.
    fn undo_counted<L: Ledger>(&mut self, alloc: Global, blank: Blank) -> Result<(), RingRefusal>
        requires name { blank.name ≡ L.name }
        requires parts { blank.parts ≡ L.parts }
        requires some { 0 < blank.parts }
        ensures undone { OnOk result (undone self.old ≡ Some self.new) }
        ensures nothing { result ≡ Err HoldsNone → undone self.old ≡ None }
        ensures memory { result ≡ Err LacksMemory → undone self.old ≢ None }
        ensures unchanged { OnErr result (self.new ≡ self.old) }
    {
        self.ring.undo(alloc, &mut Steps::<L>::new(blank))
    }

    /// Makes the edit again that was undone last. The reply stays.
    pub fn redo(&mut self, alloc: Global) -> Result<(), RingRefusal>
        ensures redone { OnOk result (redone self.old ≡ Some self.new) }
        ensures nothing { result ≡ Err HoldsNone → redone self.old ≡ None }
        ensures memory { result ≡ Err LacksMemory → redone self.old ≢ None }
        ensures unchanged { OnErr result (self.new ≡ self.old) }
    {
        self.redo_counted::<Brand>(alloc, Blank::new(1))
    }

    /// The same, and counts on the ledger `L`, which takes no bytes.
    fn redo_counted<L: Ledger>(&mut self, alloc: Global, blank: Blank) -> Result<(), RingRefusal>
        requires name { blank.name ≡ L.name }
        requires parts { blank.parts ≡ L.parts }
        requires some { 0 < blank.parts }
        ensures redone { OnOk result (redone self.old ≡ Some self.new) }
        ensures nothing { result ≡ Err HoldsNone → redone self.old ≡ None }
        ensures memory { result ≡ Err LacksMemory → redone self.old ≢ None }
        ensures unchanged { OnErr result (self.new ≡ self.old) }
    {
        self.ring.redo(alloc, &mut Steps::<L>::new(blank))
    }

    /// Keeps the boxes and marks of the page as the reply.
    pub fn show(&mut self, alloc: Global) -> Result<(), Memory>
        ensures shown { OnOk result (self.new ≡ shown self.old) }
        ensures unchanged { OnErr result (self.new ≡ self.old) }
    {
        let reply = history::show(alloc, &mut self.ring)?;
        self.reply = KeptReply::Line(reply);
        self.text = None;
        Ok(())
    }

    /// Keeps what is asked for on the page as the reply, or tells why there is no answer.
    pub fn ask(&mut self, alloc: Global, query: Query) -> Result<(), QueryRefusal>
        ensures answered { OnOk result (IsAnswered query self.old self.new) }
        ensures refused { IfErr result (IsCause (answer_to query (session_in self.old.kept))) }
        ensures unchanged { OnErr result (self.new ≡ self.old) }
    {
        let placed = match self.ring.show(alloc) {
            Ok(placed) => placed,
            Err(Memory) => return Err(QueryRefusal::Memory),
        };
        let answer = answer_over(alloc, &self.ring.base().session, &placed, query)?;
        self.reply = KeptReply::Page(answer);
        self.text = None;
        Ok(())
    }

    /// Copies the bytes of the reply to the front of a buffer and tells their number. They are made
    /// once.
    pub fn tell(&mut self, alloc: Global, out: &mut [u8], len: &mut usize) -> Answer
        ensures { Tells (seen (Some self.old) out.old len.old)
            (seen (Some self.new) out.new len.new) result }
    {
        if self.text.is_none() {
            match text_of(alloc, &self.reply, self.ring.metrics()) {
                Ok(text) => self.text = Some(text),
                Err(Memory) => return Answer::Memory,
            }
        }
        match &self.text {
            Some(text) => put(text.as_slice(), out, len),
            None => Answer::Memory,
        }
    }

    /// The element that a point of the page lies in, if it lies in one.
    pub fn element_at(&mut self, alloc: Global, x: i64, y: i64) -> Result<Option<NodeId>, Memory>
        ensures found { IfOk result (λ found. found ≡ element_at x y (session_in self.old.kept)) }
        ensures unchanged { self.new ≡ self.old }
    {
        let placed = self.ring.show(alloc)?;
        Ok(hit(&placed, x, y))
    }

    /// The box of the tree's root.
    pub fn root_box(&self) -> MathBox
        ensures { result ≡ root_box (session_in self.now.kept) }
    {
        self.ring.base().session.root_box()
    }
}
