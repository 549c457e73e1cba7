//! `under_over`: the box of a base with limits, and their places.
ghost use Rattle.std.specs.Prelude.{IfOk, IfSome};
ghost use Rattle.fixed_units.specs.Boxes.{IsStored};

use crate::values::{ByMetrics, add_place, size_in};
use case_format::{Fault, Fields, add_box, written};
use fixed_units::MathBox;
use font_metrics::Metrics;
use scripts::{LimitCase, Limits, under_over};
use std::alloc::{AllocError, Global};

const KEYS: [&str; 8] = [
    "metrics",
    "base",
    "under",
    "over",
    "case",
    "accent",
    "accentunder",
    "size",
];

/// The kind `under_over`.
pub struct OfUnderOver;

impl ByMetrics for OfUnderOver {
    fn keys() -> &'static [&'static str] {
        &KEYS
    }

    fn add_answer(
        _alloc: Global,
        metrics: &Metrics,
        fields: Fields,
        words: &mut String,
    ) -> Result<(), Fault> {
        let base = fields.stored_box("base")?;
        let under = limit_in(fields, "under")?;
        let over = limit_in(fields, "over")?;
        let laid_as = case_in(fields)?;
        let accent = fields.flag("accent")?;
        let accentunder = fields.flag("accentunder")?;
        let size = size_in(fields)?;
        let laid = under_over(
            &base,
            under,
            over,
            laid_as,
            accent,
            accentunder,
            size,
            metrics,
        );
        written(add_limits(&laid, words))
    }
}

/// The box of a limit, where there is one.
fn limit_in(fields: Fields, key: &'static str) -> Result<Option<MathBox>, Fault>
    ensures { IfOk result (λ limit. IfSome limit IsStored) }
{
    if fields.has(key) {
        Ok(Some(fields.stored_box(key)?))
    } else {
        Ok(None)
    }
}

/// The case of the key `case`.
fn case_in(fields: Fields) -> Result<LimitCase, Fault> {
    match fields.text("case")? {
        "large" => Ok(LimitCase::Large),
        "stretchy" => Ok(LimitCase::Stretchy),
        "plain" => Ok(LimitCase::Plain),
        _ => Err(Fault::out_of_range("case")),
    }
}

fn add_limits(laid: &Limits, words: &mut String) -> Result<(), AllocError> {
    add_box(&laid.frame, words)?;
    add_place(laid.base.x, laid.base.y, words)?;
    add_place(laid.under.x, laid.under.y, words)?;
    add_place(laid.over.x, laid.over.y, words)
}
