//! What answers the lines of a script: a session, and a ring of which edits can be undone.
use command_reader::CommandReader;
use doc_io::Sink;
use edit_ring::Ring;
use fixed_units::Steps;
use line_replies::{Session, Undoable, history, reply_to};
use script_answers::{Respond, Stop};
use std::alloc::Global;
use std::sync::ledger::Ledger;

/// A session that answers.
#[derive(Drop)]
pub struct BySession {
    pub session: Session,
}

impl Respond for BySession {
    ghost use Rattle.line_replies.specs.Replies.{by_session};
    ghost use Rattle.line_replies.specs.EditSteps.{TakesForLine};

    ghost responder = { by_session };

    ghost takes = { TakesForLine };

    ghost known = { λ answerer. answerer.session.held };

    fn answer_line<O: Sink, L: Ledger>(
        &mut self,
        alloc: Global,
        commands: &mut CommandReader,
        line: &[u8],
        out: &mut O,
        steps: &mut Steps<L>,
    ) -> Result<(), Stop> {
        let reply = reply_to(alloc, &mut self.session, commands, line, steps)?;
        reply.write(out, self.session.metrics())?;
        Ok(())
    }
}

/// A ring of edits that answers.
#[derive(Drop)]
pub struct ByHistory {
    pub ring: Ring<Undoable>,
}

impl Respond for ByHistory {
    ghost use Rattle.line_replies.specs.HistorySteps.{TakesForKept, by_history, kept_by, ring_of};

    ghost responder = { by_history };

    ghost takes = { TakesForKept };

    ghost known = { λ answerer. kept_by (ring_of answerer.ring) };

    fn answer_line<O: Sink, L: Ledger>(
        &mut self,
        alloc: Global,
        commands: &mut CommandReader,
        line: &[u8],
        out: &mut O,
        steps: &mut Steps<L>,
    ) -> Result<(), Stop> {
        let reply = history::reply_to(alloc, &mut self.ring, commands, line, steps)?;
        reply.write(out, self.ring.metrics())?;
        Ok(())
    }
}
