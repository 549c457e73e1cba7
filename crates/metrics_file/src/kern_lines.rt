ghost use Rattle.std.specs.Prelude.{◌≡◌, ◌≤◌, ◌%◌, length, Ok, Err};
ghost use Rattle.metrics_file.specs.Lines.{lent, steps_in, are_pairs, kern_with, kern_in};
ghost use Rattle.metrics_file.specs.Reads.{Gives};

use crate::choices::corner;
use crate::lines::reach;
use crate::named_glyphs::NamedGlyphs;
use crate::named_lines::named;
use crate::refusal::LineRefusal;
use crate::steps::{both, fault_if};
use fixed_units::List;
use font_metrics::{Corner, Kern, KernStep, LineFault};
use std::alloc::Global;

/// The most words of heights and values of a kern.
const MOST_STEP_WORDS: usize = 32;

/// `BASE TR|TL|BR|BL VALUE [HEIGHT VALUE]..`: a corner, the base's place, and its kern there.
pub fn kern_line(
    alloc: Global,
    glyphs: &NamedGlyphs,
    fields: &[&[u8]],
) -> Result<(Corner, (u16, Kern)), LineRefusal>
    requires { length glyphs.now ≤ 65535 }
    ensures { Gives (kern_in glyphs.now (lent fields.now)) result }
{
    match fields {
        &[base, corner, lowest, ref more @ ..] => {
            fault_if(!are_pairs(more), LineFault::FieldCount)?;
            kern_with(alloc, glyphs, base, corner, lowest, more)
        }
        _ => Err(LineRefusal::Fault(LineFault::FieldCount)),
    }
}

/// Whether there are up to 16 pairs of words.
fn are_pairs(words: &[&[u8]]) -> bool
    ensures { result ≡ are_pairs (lent words.now) }
{
    (words.len() % 2 == 0) & (words.len() <= MOST_STEP_WORDS)
}

fn kern_with(
    alloc: Global,
    glyphs: &NamedGlyphs,
    base: &[u8],
    at: &[u8],
    lowest: &[u8],
    more: &[&[u8]],
) -> Result<(Corner, (u16, Kern)), LineRefusal>
    requires { length glyphs.now ≤ 65535 }
    ensures { Gives (kern_with glyphs.now base.now at.now lowest.now (lent more.now)) result }
{
    let (place, (corner, lowest)) = both(named(glyphs, base), both(corner(at), reach(lowest)))?;
    let steps = steps(alloc, more)?;
    Ok((corner, (place, Kern { lowest, steps })))
}

/// `[HEIGHT VALUE]..`
fn steps(alloc: Global, words: &[&[u8]]) -> Result<List<KernStep>, LineRefusal>
    ensures { Gives (steps_in (lent words.now)) result }
{
    let mut steps = List::make(alloc);
    let mut rest = words;
    while let &[height, value, ref more @ ..] = rest {
        let (height, value) = both(reach(height), reach(value))?;
        steps.push(KernStep { height, value })?;
        rest = more;
    }
    if rest.is_empty() {
        Ok(steps)
    } else {
        Err(LineRefusal::Fault(LineFault::FieldCount))
    }
}
