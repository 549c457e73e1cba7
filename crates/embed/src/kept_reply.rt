ghost use Rattle.doc_io.specs.Whole.{WritesAll};
ghost use Rattle.embed.specs.Desks.{IsOfFont, text_of};

use doc_io::{Sink, WriteFault};
use font_metrics::Metrics;
use line_replies::Reply;
use queries::Answer;

/// A reply that is kept until the next one.
#[derive(Debug, Drop)]
pub enum KeptReply {
    /// To a line of a script, or to a look at the page.
    Line(Reply),
    /// To a question about the page.
    Page(Answer),
}

impl KeptReply {
    /// Writes it. It takes no memory.
    pub fn write<O: Sink>(&self, out: &mut O, metrics: &Metrics) -> Result<(), WriteFault>
        requires { IsOfFont metrics.now self.now }
        ensures { WritesAll (O.told out.old) (O.told out.new) (text_of metrics.now self.now)
            result }
    {
        match self {
            KeptReply::Line(reply) => reply.write(out, metrics),
            KeptReply::Page(answer) => answer.write(out, metrics),
        }
    }
}
