ghost use Rattle.std.specs.Prelude.{◌≡◌};
ghost use Rattle.metrics_file.specs.Reads.{refusal_at};

use fixed_units::Memory;
use font_metrics::LineFault;
use thiserror::Error;

/// The first fault of a metrics file.
#[derive(Clone, Copy, Debug, PartialEq, Eq)]
pub struct MetricsFault {
    /// The line's number, counted from 1. What the file ended without is a fault of the line after
    /// the last.
    pub line: u32,
    /// The number of the fault's kind: `LineFault::number`.
    pub kind: u8,
}

/// Why a metrics file isn't taken.
#[derive(Clone, Copy, Debug, PartialEq, Eq, Error)]
pub enum MetricsRefusal {
    /// The file has this fault.
    #[error("line {} has a fault of kind {}", .0.line, .0.kind)]
    Fault(MetricsFault),
    /// Memory was refused.
    #[error("memory was refused")]
    Memory,
}

impl From<Memory> for MetricsRefusal {
    ghost use Rattle.metrics_file.specs.declared.refusal.MetricsRefusal.TheVariants.{Memory as NoMemory};
    ghost use Rattle.std.specs.Prelude.{◌≡◌};

    ghost from_gives = { λ _ refusal. refusal ≡ NoMemory };

    fn from(_: Memory) -> Self {
        MetricsRefusal::Memory
    }
}

/// Why a line isn't taken; which line it is, its caller knows.
#[derive(Clone, Copy)]
pub enum LineRefusal {
    /// The line has this fault.
    Fault(LineFault),
    /// Memory was refused.
    Memory,
}

impl LineRefusal {
    /// The refusal of the file, of which this is the line's number.
    pub fn at(self, line: u32) -> MetricsRefusal
        ensures { result ≡ refusal_at line self }
    {
        match self {
            LineRefusal::Fault(fault) => MetricsRefusal::Fault(MetricsFault {
                line,
                kind: fault.number(),
            }),
            LineRefusal::Memory => MetricsRefusal::Memory,
        }
    }
}

impl From<LineFault> for LineRefusal {
    ghost use Rattle.metrics_file.specs.declared.refusal.LineRefusal.TheVariants.{Fault as Faulty};
    ghost use Rattle.std.specs.Prelude.{◌≡◌};

    ghost from_gives = { λ fault refusal. refusal ≡ Faulty fault };

    fn from(fault: LineFault) -> Self {
        LineRefusal::Fault(fault)
    }
}

impl From<Memory> for LineRefusal {
    ghost use Rattle.metrics_file.specs.declared.refusal.LineRefusal.TheVariants.{Memory as NoMemory};
    ghost use Rattle.std.specs.Prelude.{◌≡◌};

    ghost from_gives = { λ _ refusal. refusal ≡ NoMemory };

    fn from(_: Memory) -> Self {
        LineRefusal::Memory
    }
}
