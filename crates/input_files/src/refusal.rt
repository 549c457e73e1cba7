ghost use Rattle.std.specs.Prelude.{◌≡◌, ◌≤◌, ◌∷◌, [], codes, length};
ghost use Rattle.std.specs.Fmt.{decimal};
ghost use Rattle.doc_io.specs.Lines.{line};
ghost use Rattle.input_files.specs.Refusals.{fault_line, line_of, status_of, of_layout, of_query, of_reading};

use crate::status::Status;
use doc_io::{ReadRefusal, ShortText};
use fixed_units::{LayRefusal, Memory};
use math_tree::NodeId;
use metrics_file::{MetricsFault, MetricsRefusal};
use page_queries::QueryRefusal;
use thiserror::Error;
use tree_json::{TreeFault, TreeRefusal};

/// Why the files don't give what is asked for.
#[derive(Clone, Copy, Debug, PartialEq, Eq, Error)]
pub enum Refusal {
    /// The metrics file has more bytes than its limit.
    #[error("the metrics file is too long")]
    MetricsLong,
    /// The metrics file has this fault.
    #[error("line {} of the metrics file has a fault of kind {}", .0.line, .0.kind)]
    Metrics(MetricsFault),
    /// The tree file has more bytes than its limit.
    #[error("the tree file is too long")]
    TreeLong,
    /// The tree file has no reading as JSON.
    #[error("the tree file is no JSON")]
    TreeJson,
    /// The tree has this fault.
    #[error("element {} of the tree has a fault of kind {}", .0.element, .0.kind)]
    Tree(TreeFault),
    /// A number of the tree's layout can't be stored.
    #[error("a size is out of range")]
    Range,
    /// No element in flow has this id.
    #[error("no element in flow has the id {}", .0.0)]
    NoNode(NodeId),
    /// More would be painted than may be.
    #[error("too much would be painted")]
    PaintMany,
    /// A read failed, or a file isn't there.
    #[error("a read failed")]
    ReadFault,
    /// Memory was refused.
    #[error("memory was refused")]
    Memory,
}

impl Refusal {
    /// The one line that tells the user, with its line feed. A failed read and want of memory are
    /// told by the status alone. No memory is needed to tell it.
    pub fn line(self) -> ShortText
        ensures { result ≡ line_of self }
    {
        match self {
            Refusal::MetricsLong => ShortText::of("metrics long\n"),
            Refusal::Metrics(fault) => fault_line("metrics", fault.line, fault.kind),
            Refusal::TreeLong => ShortText::of("tree long\n"),
            Refusal::TreeJson => ShortText::of("tree json\n"),
            Refusal::Tree(fault) => fault_line("tree", fault.element, fault.kind),
            Refusal::Range => ShortText::of("range\n"),
            Refusal::NoNode(id) => node_line(id),
            Refusal::PaintMany => ShortText::of("paint many\n"),
            Refusal::ReadFault | Refusal::Memory => ShortText::of(""),
        }
    }

    /// The status with which the run ends.
    pub fn status(self) -> Status
        ensures { result ≡ status_of self }
    {
        match self {
            Refusal::MetricsLong | Refusal::Metrics(_) => Status::Metrics,
            Refusal::TreeLong | Refusal::TreeJson | Refusal::Tree(_) => Status::Tree,
            Refusal::Range => Status::Range,
            Refusal::NoNode(_) => Status::Node,
            Refusal::PaintMany => Status::Paint,
            Refusal::ReadFault => Status::ReadFault,
            Refusal::Memory => Status::Memory,
        }
    }

    /// Why a file wasn't read whole, where `long` is the refusal of too long a file.
    pub fn of_reading(refusal: ReadRefusal, long: Refusal) -> Refusal
        ensures { result ≡ of_reading refusal long }
    {
        match refusal {
            ReadRefusal::ReadFault => Refusal::ReadFault,
            ReadRefusal::TooLong => long,
            ReadRefusal::Memory => Refusal::Memory,
        }
    }

    /// Why a tree wasn't laid out.
    pub fn of_layout(refusal: LayRefusal) -> Refusal
        ensures { result ≡ of_layout refusal }
    {
        match refusal {
            LayRefusal::Range => Refusal::Range,
            LayRefusal::Memory => Refusal::Memory,
        }
    }

    /// Why a query has no answer.
    pub fn of_query(refusal: QueryRefusal) -> Refusal
        ensures { result ≡ of_query refusal }
    {
        match refusal {
            QueryRefusal::NoNode(id) => Refusal::NoNode(id),
            QueryRefusal::TooMany => Refusal::PaintMany,
            QueryRefusal::Memory => Refusal::Memory,
        }
    }
}

/// The line of a fault in a file, by the place and the number of its kind.
fn fault_line(file: &str, place: u32, kind: u8) -> ShortText
    requires { length file.now ≤ 7 }
    ensures { result ≡ fault_line file.now place kind }
{
    let mut line = ShortText::numbered(file, &[i64::from(place), i64::from(kind)]);
    line.add("\n");
    line
}

/// The line of an id that no element in flow has.
fn node_line(id: NodeId) -> ShortText
    ensures { result ≡ line (codes "node") (decimal id.0 ∷ []) }
{
    let mut text = ShortText::of("node");
    text.add_number(i64::from(id.0));
    text.add("\n");
    text
}

impl From<Memory> for Refusal {
    ghost use Rattle.input_files.specs.declared.refusal.Refusal.TheVariants.{Memory as NoMemory};
    ghost use Rattle.std.specs.Prelude.{◌≡◌};

    ghost from_gives = { λ _ refusal. refusal ≡ NoMemory };

    fn from(_: Memory) -> Self {
        Refusal::Memory
    }
}

impl From<MetricsRefusal> for Refusal {
    ghost use Rattle.std.specs.Prelude.{◌≡◌};
    ghost use Rattle.input_files.specs.Refusals.{of_metrics};

    ghost from_gives = { λ refused refusal. refusal ≡ of_metrics refused };

    fn from(refusal: MetricsRefusal) -> Self {
        match refusal {
            MetricsRefusal::Fault(fault) => Refusal::Metrics(fault),
            MetricsRefusal::Memory => Refusal::Memory,
        }
    }
}

impl From<TreeRefusal> for Refusal {
    ghost use Rattle.std.specs.Prelude.{◌≡◌};
    ghost use Rattle.input_files.specs.Refusals.{of_tree};

    ghost from_gives = { λ refused refusal. refusal ≡ of_tree refused };

    fn from(refusal: TreeRefusal) -> Self {
        match refusal {
            TreeRefusal::Fault(fault) => Refusal::Tree(fault),
            TreeRefusal::Memory => Refusal::Memory,
        }
    }
}
