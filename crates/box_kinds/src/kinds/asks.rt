//! `row_wave_one`, `row_wave_two`, `limit_wave_one`, `limit_wave_two`: what rows and limits ask of
//! their children.
ghost use Rattle.std.specs.Prelude.{◌≤◌, length, IfOk};

use crate::values::{add_pull, boxes_in, pull_in};
use case_format::{Case, Fault, Fields, written};
use fixed_units::{List, MathBox, Memory, Pull};
use op_dictionary::Axis;
use row_stretch::{Ask, KidPull, row_wave_one, row_wave_two};
use scripts::{limit_wave_one, limit_wave_two};
use std::alloc::{AllocError, Global};
use std::fmt::Write;

/// What asks the children.
#[derive(Clone, Copy)]
pub enum Asking {
    Row,
    Limits,
}

/// Which of the two times that the children are asked.
#[derive(Clone, Copy)]
pub enum Wave {
    One,
    Two,
}

const KEYS_IN_WAVE_ONE: [&str; 2] = ["kids", "own"];

const KEYS_IN_WAVE_TWO: [&str; 3] = ["kids", "own", "first"];

/// Adds the answer of a case of a wave: what is asked.
pub fn answer(asking: Asking, wave: Wave, case: Case, words: &mut String) -> Result<(), Fault> {
    let keys: &[&'static str] = match wave {
        Wave::One => &KEYS_IN_WAVE_ONE,
        Wave::Two => &KEYS_IN_WAVE_TWO,
    };
    let fields = Fields::of_value(case.value, keys)?;
    let kids = kids_in(case.alloc, fields)?;
    let made = match wave {
        Wave::One => asked_in_wave_one(asking, case.alloc, fields, &kids),
        Wave::Two => asked_in_wave_two(asking, case.alloc, fields, &kids),
    };
    // Dropped by a call, here and below, so that the `?` that follows doesn't drop it.
    drop(kids);
    let asks = made?;
    written(add_asks(asks.as_slice(), words))
}

/// What is asked in the first wave.
fn asked_in_wave_one(
    asking: Asking,
    alloc: Global,
    fields: Fields,
    kids: &List<KidPull>,
) -> Result<List<Ask>, Fault>
    requires { length kids.now ≤ 65_536 }
{
    let own = pull_in(fields, "own")?;
    let asked = match asking {
        Asking::Row => row_wave_one(alloc, kids, own),
        Asking::Limits => limit_wave_one(alloc, kids, own),
    };
    Ok(asked?)
}

/// What is asked in the second wave.
fn asked_in_wave_two(
    asking: Asking,
    alloc: Global,
    fields: Fields,
    kids: &List<KidPull>,
) -> Result<List<Ask>, Fault>
    requires { length kids.now ≤ 65_536 }
{
    let own = pull_in(fields, "own")?;
    let first = boxes_in(alloc, fields, "first")?;
    let asked = match asking {
        Asking::Row => row_wave_two(alloc, kids, own, &first),
        Asking::Limits => limit_wave_two(alloc, kids, own, &first),
    };
    drop(first);
    Ok(asked?)
}

/// The children of the key `kids`, a letter for each.
fn kids_in(alloc: Global, fields: Fields) -> Result<List<KidPull>, Fault>
    ensures { IfOk result (λ kids. length kids ≤ 65_536) }
{
    let letters = fields.text("kids")?.as_bytes();
    let mut kids = List::make(alloc);
    for letter in letters {
        kids.push(kid_of(*letter)?)?;
    }
    if kids.len() <= 65_536 {
        Ok(kids)
    } else {
        Err(Fault::out_of_range("kids"))
    }
}

/// The axis along which a child stretches.
fn kid_of(letter: u8) -> Result<KidPull, Fault> {
    match letter {
        b'b' => Ok(KidPull {
            axis: Some(Axis::Block),
        }),
        b'i' => Ok(KidPull {
            axis: Some(Axis::Inline),
        }),
        b'-' => Ok(KidPull { axis: None }),
        _ => Err(Fault::out_of_range("kids")),
    }
}

/// Adds each child that is asked with its pull, or `-` where none is.
fn add_asks(asks: &[Ask], words: &mut String) -> Result<(), AllocError> {
    if asks.is_empty() {
        return words.push('-');
    }
    for (place, ask) in asks.iter().enumerate() {
        words.push_str(if place == 0 { "" } else { "; " })?;
        add_ask(ask, words)?;
    }
    Ok(())
}

fn add_ask(ask: &Ask, words: &mut String) -> Result<(), AllocError> {
    let kid = ask.kid;
    write!(words, "{kid} ")?;
    add_pull(ask.pull, words)
}
