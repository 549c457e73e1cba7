//! `fraction`: the box of a fraction or a stack, and the places of its parts and its rule.

use crate::values::{ByMetrics, add_mark, add_place, size_in};
use case_format::{Fault, Fields, add_box, written};
use font_metrics::Metrics;
use fractions::{Fraction, fraction};
use std::alloc::{AllocError, Global};

/// The largest thickness, below or above 0.
const MOST: i64 = 4_294_967_296_000_000_000;

/// The kind `fraction`.
pub struct OfFraction;

impl ByMetrics for OfFraction {
    fn keys() -> &'static [&'static str] {
        &["metrics", "top", "bottom", "thickness", "display", "size"]
    }

    fn add_answer(
        _alloc: Global,
        metrics: &Metrics,
        fields: Fields,
        words: &mut String,
    ) -> Result<(), Fault> {
        let size = size_in(fields)?;
        let top = fields.stored_box("top")?;
        let bottom = fields.stored_box("bottom")?;
        let thickness = fields.within("thickness", -MOST, MOST)?;
        let display = fields.flag("display")?;
        let laid = fraction(&top, &bottom, thickness, display, size, metrics);
        written(add_fraction(metrics, &laid, words))
    }
}

fn add_fraction(metrics: &Metrics, laid: &Fraction, words: &mut String) -> Result<(), AllocError> {
    add_box(&laid.frame, words)?;
    add_place(laid.top.x, laid.top.y, words)?;
    add_place(laid.bottom.x, laid.bottom.y, words)?;
    match laid.rule {
        Some(rule) => add_mark(metrics, rule, words),
        None => words.push_str("; none"),
    }
}
