ghost use Rattle.std.specs.Prelude.{◌≡◌, ◌≤◌, ◌∷◌, [], All, IfOk, OnErr, OnOk, Some, codes, length};
ghost use Rattle.doc_io.specs.Lines.{line as line_of_words};
ghost use Rattle.doc_io.specs.Whole.{WritesAll};
ghost use Rattle.tree_edits.specs.Applying.{IsProperEdit};
ghost use Rattle.tree_edits.specs.Commands.{IsProperCommand};
ghost use Rattle.tree_edits.specs.Edits.{refusal_of};
ghost use Rattle.box_writer.specs.Items.{IsOfFont};
ghost use Rattle.line_replies.specs.Replies.{IsReplyOfFont, after_command, after_line, after_reply, reply_to, reply_to_command, reply_to_edit, shown_text, text_of_reply, word_of, word_of_edit};
ghost use Rattle.line_replies.specs.EditSteps.{TakesForEdit, TakesForLine, accepted_by, unless_refused};

use crate::script::is_white_space;
use box_writer::{Placed, write_placed};
use command_reader::CommandReader;
use doc_io::{ShortText, Sink, WriteFault, write_all};
use edit_session::{Session, SessionRefusal};
use fixed_units::{Memory, Steps};
use font_metrics::Metrics;
use std::alloc::Global;
use std::sync::ledger::Ledger;
use tree_edits::{Command, CommandRefusal, Edit, EditRefusal};

/// Why a line of a script changes nothing.
#[derive(Clone, Copy, Debug, PartialEq, Eq)]
pub enum Cause {
    /// The line is no command.
    NoCommand,
    /// The tree gives this reason not to make the edit.
    Unmade(EditRefusal),
    /// A size of the edited tree's layout is out of range.
    OutOfRange,
    /// There is nothing to undo or redo.
    NoneHeld,
}

/// What is answered to a line of a script.
#[derive(Debug, Drop)]
pub enum Reply {
    /// The line is white space alone.
    Nothing,
    /// The edit was made.
    Accepted,
    Refused(Cause),
    /// The boxes and marks of the tree as edited so far.
    Shown(Placed),
}

/// Does what a line of a script asks for, and says what is answered.
#[tactic(auto, unfolding(crate::specs::Replies::reply_to, crate::specs::Replies::after_line, crate::specs::EditSteps::accepted_in))]
pub fn reply_to<L: Ledger>(
    alloc: Global,
    session: &mut Session,
    commands: &mut CommandReader,
    line: &[u8],
    steps: &mut Steps<L>,
) -> Result<Reply, Memory>
    ensures reply { IfOk result (λ reply. reply ≡ reply_to session.old.held line.now) }
    ensures glyphs { IfOk result (IsReplyOfFont session.old.held.metrics) }
    ensures session { OnOk result (session.new.held ≡ after_line session.old.held line.now) }
    ensures unchanged { OnErr result (session.new.held ≡ session.old.held) }
    ensures taken { TakesForLine session.old.held line.now steps.old steps.new }
{
    if is_white_space(line) {
        return Ok(Reply::Nothing);
    }
    match commands.read(alloc, line) {
        Ok(command) => carry_out(alloc, session, command, steps),
        Err(CommandRefusal::BadLine) => Ok(Reply::Refused(Cause::NoCommand)),
        Err(CommandRefusal::Memory) => Err(Memory),
    }
}

/// Does what a command asks for.
fn carry_out<L: Ledger>(
    alloc: Global,
    session: &mut Session,
    command: Command,
    steps: &mut Steps<L>,
) -> Result<Reply, Memory>
    requires { IsProperCommand command }
    ensures reply { IfOk result (λ reply. reply
        ≡ reply_to_command session.old.held (Some command)) }
    ensures glyphs { IfOk result (IsReplyOfFont session.old.held.metrics) }
    ensures session { OnOk result (session.new.held
        ≡ after_command session.old.held (Some command)) }
    ensures unchanged { OnErr result (session.new.held ≡ session.old.held) }
    ensures taken { TakesForEdit session.old.held (accepted_by session.old.held (Some command))
        steps.old steps.new }
{
    match command {
        Command::Show => Ok(Reply::Shown(session.show(alloc)?)),
        Command::Change(edit) => change(alloc, session, edit, steps),
    }
}

/// Carries an edit out, or says why it isn't made.
fn change<L: Ledger>(
    alloc: Global,
    session: &mut Session,
    edit: Edit,
    steps: &mut Steps<L>,
) -> Result<Reply, Memory>
    requires { IsProperEdit edit }
    ensures reply { IfOk result (λ reply. reply ≡ reply_to_edit session.old.held edit) }
    ensures glyphs { IfOk result (IsReplyOfFont session.old.held.metrics) }
    ensures session { OnOk result
        (session.new.held ≡ after_reply (reply_to_edit session.old.held edit) session.old.held
        edit) }
    ensures unchanged { OnErr result (session.new.held ≡ session.old.held) }
    ensures taken { TakesForEdit session.old.held
        (unless_refused (refusal_of session.old.held.tree edit) edit) steps.old steps.new }
{
    match session.edit(alloc, edit, steps) {
        Ok(()) => Ok(Reply::Accepted),
        Err(SessionRefusal::Edit(reason)) => Ok(Reply::Refused(Cause::Unmade(reason))),
        Err(SessionRefusal::Range) => Ok(Reply::Refused(Cause::OutOfRange)),
        Err(SessionRefusal::Memory) => Err(Memory),
    }
}

impl Reply {
    /// Writes the reply. It takes no memory.
    #[tactic(auto, unfolding(crate::specs::Replies::text_of_reply))]
    pub fn write<O: Sink>(&self, out: &mut O, metrics: &Metrics) -> Result<(), WriteFault>
        requires { IsReplyOfFont metrics.now self.now }
        ensures { WritesAll (O.told out.old) (O.told out.new)
            (text_of_reply metrics.now self.now) result }
    {
        match self {
            Reply::Nothing => write_all(out, b""),
            Reply::Accepted => write_all(out, b"ok\n"),
            Reply::Refused(cause) => write_all(out, cause.line().as_str().as_bytes()),
            Reply::Shown(placed) => write_shown(out, placed, metrics),
        }
    }
}

/// Writes the lines of boxes and marks, behind a line that says so.
fn write_shown<O: Sink>(out: &mut O, placed: &Placed, metrics: &Metrics) -> Result<(), WriteFault>
    requires { All (IsOfFont metrics.now) placed.now }
    ensures { WritesAll (O.told out.old) (O.told out.new)
        (shown_text metrics.now placed.now) result }
{
    write_all(out, b"shown\n")?;
    write_placed(out, placed, metrics)
}

impl Cause {
    /// The line that tells it.
    fn line(self) -> ShortText
        ensures { result ≡ line_of_words (codes "refused") (word_of self ∷ []) }
    {
        let mut line = ShortText::of("refused");
        line.add_word(self.word());
        line.add("\n");
        line
    }

    /// The word that tells it.
    fn word(self) -> &'static str
        ensures word { result.now ≡ word_of self }
        ensures short { length result.now ≤ 8 }
    {
        match self {
            Cause::NoCommand => "line",
            Cause::Unmade(reason) => word_of_edit(reason),
            Cause::OutOfRange => "range",
            Cause::NoneHeld => "nothing",
        }
    }
}

/// The word that tells why an edit isn't made in a tree.
fn word_of_edit(reason: EditRefusal) -> &'static str
    ensures word { result.now ≡ word_of_edit reason }
    ensures short { length result.now ≤ 8 }
{
    match reason {
        EditRefusal::UnknownNode => "node",
        EditRefusal::NotText => "not-text",
        EditRefusal::IsText => "text",
        EditRefusal::IndexPast => "index",
        EditRefusal::RootFixed => "root",
        EditRefusal::BadName => "name",
        EditRefusal::TextLong => "long",
        EditRefusal::TooDeep => "depth",
        EditRefusal::TooMany => "many",
        EditRefusal::IdsSpent => "ids",
        EditRefusal::IdTaken => "taken",
        EditRefusal::Memory => "memory",
    }
}
