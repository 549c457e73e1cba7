ghost use Rattle.std.specs.Prelude.{◌≡◌, ◌≤◌, length};
ghost use Rattle.font_metrics.specs.Taken.{most_glyphs};
ghost use Rattle.metrics_file.specs.Lines.{lent};
ghost use Rattle.metrics_file.specs.Reading.{after, after_first, after_words, after_fields, first_in, first_of, version_in, version_of, lines_of, metrics_of, most_file_bytes};
ghost use Rattle.font_metrics.specs.Whole.{needed};
ghost use Rattle.metrics_file.specs.Reads.{Takes, Begins, Ends};
ghost use Rattle.metrics_file.specs.Said.{IsOfNoTable};

use crate::choices::choice_of;
use crate::keyword::{Keyword, keyword_of};
use crate::named_glyphs::NamedGiven;
use crate::pieces::{LineWords, cut, first_line, is_comment, is_foreign};
use crate::refusal::{LineRefusal, MetricsRefusal};
use crate::said::line_says;
use crate::taking::{allow, nothing, put, take_kern, take_part, take_variant};
use crate::texts::is_text;
use font_metrics::{LineFault, Needed};
use std::alloc::Global;

/// What the first line gives, from which the other lines begin. It takes no memory.
#[tactic(auto, unfolding(crate::specs::Reading::after_first))]
pub fn begun(alloc: Global, line: &[u8]) -> Result<NamedGiven, LineFault>
    ensures { result ≡ after_first line.now }
{
    let version = take_first(line)?;
    Ok(nothing(alloc, version))
}

/// Takes all lines of a file behind the first, from which `given` was begun, and tells what
/// metrics need of them.
pub fn take_lines(
    given: &mut NamedGiven,
    alloc: Global,
    bytes: &[u8],
) -> Result<Needed, MetricsRefusal>
    requires few { length bytes.now ≤ most_file_bytes }
    requires begun { Begins (lines_of bytes.now) given.old }
    ensures { Ends (metrics_of bytes.now) given.new result }
{
    let (_, mut rest) = first_line(bytes);
    let mut number = 1;
    while !rest.is_empty() {
        let (line, more) = first_line(rest);
        number += 1;
        if let Err(refusal) = take(given, alloc, line) {
            return Err(refusal.at(number));
        }
        rest = more;
    }
    match needed(given) {
        Ok(needs) => Ok(needs),
        Err(fault) => Err(LineRefusal::Fault(fault).at(number + 1)),
    }
}

/// Takes a line behind the first, without its line feed.
#[tactic(auto, unfolding(crate::specs::Reading::after))]
fn take(given: &mut NamedGiven, alloc: Global, line: &[u8]) -> Result<(), LineRefusal>
    requires { length given.old.glyphs ≤ most_glyphs }
    ensures { Takes (after given.old line.now) given.new result }
{
    if is_foreign(line) {
        return Err(LineRefusal::Fault(LineFault::ForeignByte));
    }
    if is_comment(line) {
        return Ok(());
    }
    let mut words = LineWords::new();
    cut(line, &mut words);
    take_words(given, alloc, words.as_slice())
}

fn take_words(given: &mut NamedGiven, alloc: Global, words: &[&[u8]]) -> Result<(), LineRefusal>
    requires { length given.old.glyphs ≤ most_glyphs }
    ensures { Takes (after_words given.old (lent words.now)) given.new result }
{
    match words.split_first() {
        None => Ok(()),
        Some((word, fields)) => {
            let keyword = keyword_of(word).known_in(given.version);
            take_fields(given, alloc, keyword, fields)
        }
    }
}

fn take_fields(
    given: &mut NamedGiven,
    alloc: Global,
    keyword: Keyword,
    fields: &[&[u8]],
) -> Result<(), LineRefusal>
    requires { length given.old.glyphs ≤ most_glyphs }
    ensures { Takes (after_fields given.old keyword (lent fields.now)) given.new result }
{
    match keyword {
        Keyword::Variants(axis) => take_variant(given, alloc, axis, fields),
        Keyword::Parts(axis) => take_part(given, alloc, axis, fields),
        Keyword::Kern => take_kern(given, alloc, fields),
        _ => take_said(given, alloc, keyword, fields),
    }
}

/// Takes the fields of a line of no table.
fn take_said(
    given: &mut NamedGiven,
    alloc: Global,
    keyword: Keyword,
    fields: &[&[u8]],
) -> Result<(), LineRefusal>
    requires few { length given.old.glyphs ≤ most_glyphs }
    requires word { IsOfNoTable keyword }
    ensures { Takes (after_fields given.old keyword (lent fields.now)) given.new result }
{
    let said = line_says(&given.glyphs, keyword, fields)?;
    allow(given, said)?;
    put(given, alloc, said)?;
    Ok(())
}

/// What metrics need of what is given.
fn needed(given: &NamedGiven) -> Result<Needed, LineFault>
    requires { length given.now.glyphs ≤ most_glyphs }
    ensures { result ≡ needed given.now }
{
    let Some(upem) = given.upem else {
        return Err(LineFault::NoUpem);
    };
    let Some(line) = given.line else {
        return Err(LineFault::NoLine);
    };
    let Some(x_height) = given.x_height else {
        return Err(LineFault::NoXHeight);
    };
    let Some(missing) = given.glyphs.place("missing") else {
        return Err(LineFault::NoMissing);
    };
    Ok(Needed {
        upem,
        line,
        x_height,
        missing: missing as u16,
    })
}

/// The version that the first line names.
fn take_first(line: &[u8]) -> Result<u8, LineFault>
    ensures { result ≡ first_in line.now }
{
    if is_foreign(line) {
        return Err(LineFault::ForeignByte);
    }
    let mut words = LineWords::new();
    cut(line, &mut words);
    match version_in(words.as_slice()) {
        Some(version) => Ok(version),
        None => Err(LineFault::WrongFirstLine),
    }
}

/// The version of the words `mathlay-metrics` and `1` or `2`.
fn version_in(words: &[&[u8]]) -> Option<u8>
    ensures { result ≡ version_in (lent words.now) }
{
    match words {
        &[name, version] => first_of(name, version),
        _ => None,
    }
}

fn first_of(name: &[u8], version: &[u8]) -> Option<u8>
    ensures { result ≡ first_of name.now version.now }
{
    if is_text(name, "mathlay-metrics") {
        version_of(version)
    } else {
        None
    }
}

/// `1` or `2`
#[tactic(auto, unfolding(crate::specs::Words::choice_in))]
fn version_of(word: &[u8]) -> Option<u8>
    ensures { result ≡ version_of word.now }
{
    choice_of(word, &[("1", 1), ("2", 2)])
}
