//! `square_root`, `root_with_index`: the box of a root, and the places of its parts and its rule.
ghost use Rattle.std.specs.Prelude.{IfOk};
ghost use Rattle.radicals.specs.Equation.{IsRow};

use crate::values::{ByMetrics, add_mark, add_place, size_in, wide_box};
use case_format::{Fault, Fields, add_box, written};
use font_metrics::Metrics;
use radicals::{Radical, root_with_index, square_root};
use std::alloc::{AllocError, Global};

/// The kind `square_root`.
pub struct OfSquareRoot;

impl ByMetrics for OfSquareRoot {
    fn keys() -> &'static [&'static str] {
        &["metrics", "base", "display", "size"]
    }

    fn add_answer(
        _alloc: Global,
        metrics: &Metrics,
        fields: Fields,
        words: &mut String,
    ) -> Result<(), Fault> {
        let base = wide_box(fields, "base")?;
        let display = fields.flag("display")?;
        let size = size_in(fields)?;
        let root = square_root(&base, display, size, metrics);
        written(add_root(metrics, &root, words))
    }
}

/// The kind `root_with_index`.
pub struct OfRootWithIndex;

impl ByMetrics for OfRootWithIndex {
    fn keys() -> &'static [&'static str] {
        &["metrics", "base", "index", "display", "size"]
    }

    fn add_answer(
        _alloc: Global,
        metrics: &Metrics,
        fields: Fields,
        words: &mut String,
    ) -> Result<(), Fault> {
        let base = fields.stored_box("base")?;
        let index = fields.stored_box("index")?;
        let display = fields.flag("display")?;
        let size = size_in(fields)?;
        let root = root_with_index(&base, &index, display, size, metrics);
        written(add_root(metrics, &root, words))
    }
}

fn add_root(metrics: &Metrics, root: &Radical, words: &mut String) -> Result<(), AllocError> {
    add_box(&root.frame, words)?;
    add_mark(metrics, root.surd, words)?;
    add_place(root.index.x, root.index.y, words)?;
    add_place(root.base.x, root.base.y, words)?;
    add_mark(metrics, root.rule, words)
}
