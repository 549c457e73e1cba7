//! `multi`: the box of a base with pairs of scripts, and their places.
ghost use Rattle.std.specs.Prelude.{◌≤◌, length, IfOk};
ghost use Rattle.std.specs.List.{All};
ghost use Rattle.multiscripts.specs.Along.{IsPairStored};

use crate::values::{ByMetrics, add_place, items_in, size_in, stored_box};
use case_format::{Fault, Fields, add_box, written};
use fixed_units::List;
use font_metrics::Metrics;
use multiscripts::{Multi, Pair, multi};
use serde_json::Value;
use std::alloc::{AllocError, Global};

/// The kind `multi`.
pub struct OfMulti;

impl ByMetrics for OfMulti {
    fn keys() -> &'static [&'static str] {
        &["metrics", "base", "large", "cramped", "pairs", "size"]
    }

    fn add_answer(
        alloc: Global,
        metrics: &Metrics,
        fields: Fields,
        words: &mut String,
    ) -> Result<(), Fault> {
        let base = fields.stored_box("base")?;
        let large = fields.flag("large")?;
        let cramped = fields.flag("cramped")?;
        let size = size_in(fields)?;
        let pairs = pairs_in(alloc, fields)?;
        let made = multi(alloc, &base, large, cramped, &pairs, size, metrics);
        // Dropped by a call, so that the `?` below doesn't drop it.
        drop(pairs);
        let laid = made?;
        written(add_multi(&laid, words))
    }
}

/// The pairs of the key `pairs`.
fn pairs_in(alloc: Global, fields: Fields) -> Result<List<Pair>, Fault>
    ensures few { IfOk result (λ pairs. length pairs ≤ 65_536) }
    ensures stored { IfOk result (All IsPairStored) }
{
    let items = items_in(fields, "pairs")?;
    let mut pairs = List::make(alloc);
    for item in items {
        pairs.push(pair_of(item)?)?;
    }
    Ok(pairs)
}

/// A pair: the boxes of its subscript and its superscript, and whether it stands before the base.
fn pair_of(value: &Value) -> Result<Pair, Fault>
    ensures { IfOk result IsPairStored }
{
    let parts = value.as_array().ok_or(Fault::wrong_type("pairs"))?;
    let [sub, sup, before] = parts.as_slice() else {
        return Err(Fault::wrong_type("pairs"));
    };
    Ok(Pair {
        sub: stored_box("pairs", sub)?,
        sup: stored_box("pairs", sup)?,
        before: before.as_bool().ok_or(Fault::wrong_type("pairs"))?,
    })
}

/// Adds the box, the place of the base, and those of each pair.
fn add_multi(laid: &Multi, words: &mut String) -> Result<(), AllocError> {
    add_box(&laid.frame, words)?;
    add_place(laid.base.x, laid.base.y, words)?;
    for (sub, sup) in laid.subs.as_slice().iter().zip(laid.sups.as_slice()) {
        add_place(sub.x, sub.y, words)?;
        add_place(sup.x, sup.y, words)?;
    }
    Ok(())
}
