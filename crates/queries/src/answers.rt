ghost use Rattle.doc_io.specs.Whole.{WritesAll};
ghost use Rattle.queries.specs.Queries.{IsWritable, bytes_of};

use crate::lines::{hit_line, write_areas};
use doc_io::{Sink, WriteFault, write_all};
use fixed_units::{List, MathBox};
use font_metrics::Metrics;
use hit_test::Area;
use math_tree::NodeId;
use paint_list::{Paint, write_svg};

/// What was found on a page.
#[derive(Debug, Drop)]
pub enum Answer {
    /// The root's box, and what is painted.
    Picture(MathBox, List<Paint>),
    /// The element that was hit.
    Hit(Option<NodeId>),
    /// What to mark.
    Areas(List<Area>),
}

impl Answer {
    /// Writes the answer. It takes no memory.
    ///
    /// `WriteFault` comes only where the sink counted a fault, and a front of the answer was
    /// written then.
    pub fn write<O: Sink>(&self, out: &mut O, metrics: &Metrics) -> Result<(), WriteFault>
        requires { IsWritable metrics.now self.now }
        ensures { WritesAll (O.told out.old) (O.told out.new) (bytes_of metrics.now self.now)
            result }
    {
        match self {
            Answer::Picture(frame, paints) => write_svg(out, frame, paints, metrics),
            Answer::Hit(id) => write_all(out, hit_line(*id).as_str().as_bytes()),
            Answer::Areas(areas) => write_areas(out, areas.as_slice()),
        }
    }
}
