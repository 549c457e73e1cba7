ghost use Rattle.std.specs.Prelude.{◌≡◌, ◌<◌, [], length, IfOk};
ghost use Rattle.doc_io.specs.Causes.{Writes};
ghost use Rattle.font_metrics.specs.Metrics.{MetricsValue};
ghost use Rattle.embed.specs.Desks.{IsOfFont, text_of};

use crate::kept_reply::KeptReply;
use doc_io::{Failed, Sink};
use fixed_units::{List, Memory};
use font_metrics::Metrics;
use std::alloc::Global;
use std::marker::Model;

/// A sink in memory that grows. A write fails where memory is refused.
#[derive(Drop)]
struct Growing {
    text: List<u8>,
    faults: u64,
}

impl Model for Growing {
    ghost use Rattle.std.specs.Prelude.{Some};
    ghost use Rattle.doc_io.specs.Causes.{SinkTold};

    ghost Value = { SinkTold };

    ghost view = { λ sink. record { written = Some sink.text; faults = sink.faults } };
}

impl Sink for Growing {
    ghost told = { λ sink. sink };

    fn write(&mut self, from: &[u8]) -> Result<usize, Failed>
        requires { 0 < length from.now }
        ensures { Writes self.old self.new from.now result }
    {
        match self.text.push_all(from) {
            Ok(()) => Ok(from.len()),
            Err(Memory) => {
                self.faults = self.faults.saturating_add(1);
                Err(Failed)
            }
        }
    }
}

/// The bytes of a reply.
pub fn text_of(alloc: Global, reply: &KeptReply, metrics: &Metrics) -> Result<List<u8>, Memory>
    requires { IsOfFont metrics.now reply.now }
    ensures { IfOk result (λ text. text ≡ text_of metrics.now reply.now) }
{
    let mut sink = Growing {
        text: List::make(alloc),
        faults: 0,
    };
    match reply.write(&mut sink, metrics) {
        Ok(()) => Ok(sink.text),
        Err(_) => Err(Memory),
    }
}
