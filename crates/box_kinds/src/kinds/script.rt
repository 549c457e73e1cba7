//! `sub`, `sup`, `sub_sup`: the box of a base with scripts, and their places.

use crate::values::{ByMetrics, add_place, size_in};
use case_format::{Fault, Fields, add_box, written};
use font_metrics::Metrics;
use scripts::{NO_CORNERS, Scripted, sub, sub_sup, sup};
use std::alloc::{AllocError, Global};

const SUB: [&str; 5] = ["metrics", "base", "large", "script", "size"];

const SUP: [&str; 6] = ["metrics", "base", "large", "cramped", "script", "size"];

const SUB_SUP: [&str; 7] = ["metrics", "base", "large", "cramped", "sub", "sup", "size"];

/// The kind `sub`.
pub struct OfSub;

impl ByMetrics for OfSub {
    fn keys() -> &'static [&'static str] {
        &SUB
    }

    fn add_answer(
        _alloc: Global,
        metrics: &Metrics,
        fields: Fields,
        words: &mut String,
    ) -> Result<(), Fault> {
        let base = fields.stored_box("base")?;
        let large = fields.flag("large")?;
        let script = fields.stored_box("script")?;
        let size = size_in(fields)?;
        let laid = sub(&base, large, &script, &NO_CORNERS, size, metrics);
        written(add_scripted(&laid, words))
    }
}

/// The kind `sup`.
pub struct OfSup;

impl ByMetrics for OfSup {
    fn keys() -> &'static [&'static str] {
        &SUP
    }

    fn add_answer(
        _alloc: Global,
        metrics: &Metrics,
        fields: Fields,
        words: &mut String,
    ) -> Result<(), Fault> {
        let base = fields.stored_box("base")?;
        let large = fields.flag("large")?;
        let cramped = fields.flag("cramped")?;
        let script = fields.stored_box("script")?;
        let size = size_in(fields)?;
        let laid = sup(&base, large, cramped, &script, &NO_CORNERS, size, metrics);
        written(add_scripted(&laid, words))
    }
}

/// The kind `sub_sup`.
pub struct OfSubSup;

impl ByMetrics for OfSubSup {
    fn keys() -> &'static [&'static str] {
        &SUB_SUP
    }

    fn add_answer(
        _alloc: Global,
        metrics: &Metrics,
        fields: Fields,
        words: &mut String,
    ) -> Result<(), Fault> {
        let base = fields.stored_box("base")?;
        let large = fields.flag("large")?;
        let cramped = fields.flag("cramped")?;
        let below = fields.stored_box("sub")?;
        let above = fields.stored_box("sup")?;
        let size = size_in(fields)?;
        let from = NO_CORNERS;
        let laid = sub_sup(&base, large, cramped, &below, &above, &from, size, metrics);
        written(add_scripted(&laid, words))
    }
}

fn add_scripted(laid: &Scripted, words: &mut String) -> Result<(), AllocError> {
    add_box(&laid.frame, words)?;
    add_place(laid.sub.x, laid.sub.y, words)?;
    add_place(laid.sup.x, laid.sup.y, words)
}
