ghost use Rattle.std.specs.Prelude.{◌≡◌, ◌≤◌, length, IfOk, Ok};
ghost use Rattle.font_metrics.specs.Whole.{IsGiven, metrics_with, needed};
ghost use Rattle.metrics_file.specs.Reads.{Reads, Begins};
ghost use Rattle.metrics_file.specs.Reading.{lines_of, metrics_of, most_file_bytes};

use crate::named_glyphs::{NamedGiven, NamedGlyphs};
use crate::pieces::first_line;
use crate::reader::{begun, take_lines};
use crate::refusal::{LineRefusal, MetricsRefusal};
use fixed_units::Memory;
use font_metrics::{Given, GlyphTable, Metrics, Needed};
use std::alloc::Global;
use std::mem;

/// The most bytes that a metrics file may have: 8 MiB.
pub const MOST_FILE_BYTES: usize = 8_388_608;

/// Reads a metrics file of at most `MOST_FILE_BYTES`.
///
/// Where the file has faults it answers the first: that of the first faulty line, and of this line
/// the one that is looked for first.
pub fn read_metrics(alloc: Global, bytes: &[u8]) -> Result<Metrics, MetricsRefusal>
    requires { length bytes.now ≤ most_file_bytes }
    ensures reads { Reads (metrics_of bytes.now) result }
{
    let (first, _) = first_line(bytes);
    match begun(alloc, first) {
        Ok(given) => read_rest(alloc, bytes, given),
        Err(fault) => Err(LineRefusal::Fault(fault).at(1)),
    }
}

/// Reads the lines behind the first, which gave this.
fn read_rest(alloc: Global, bytes: &[u8], mut given: NamedGiven) -> Result<Metrics, MetricsRefusal>
    requires few { length bytes.now ≤ most_file_bytes }
    requires begun { Begins (lines_of bytes.now) given }
    ensures reads { Reads (metrics_of bytes.now) result }
{
    match take_lines(&mut given, alloc, bytes) {
        Ok(needs) => Ok(whole(alloc, needs, given)?),
        Err(refusal) => {
            // Dropped by a call, here and below, so that the proof of this function doesn't go
            // through all parts.
            drop(given);
            Err(refusal)
        }
    }
}

/// The metrics of what lines have given, and of what of it metrics need.
fn whole(alloc: Global, needs: Needed, given: NamedGiven) -> Result<Metrics, Memory>
    requires given { IsGiven given }
    requires needs { needed given ≡ Ok needs }
    ensures { IfOk result (λ metrics. metrics ≡ metrics_with needs given) }
{
    let given = with_list(alloc, given)?;
    Ok(Metrics::of(needs, given))
}

/// What lines have given, with the glyphs as metrics keep them.
fn with_list(alloc: Global, mut given: NamedGiven) -> Result<Given<GlyphTable>, Memory>
    ensures { IfOk result (λ whole. whole ≡ given) }
{
    let named = mem::replace(&mut given.glyphs, NamedGlyphs::new(alloc));
    match named.into_table(alloc) {
        Ok(glyphs) => Ok(given.with_glyphs(glyphs)),
        Err(refusal) => {
            drop(given);
            Err(refusal)
        }
    }
}
