//! Kinds whose values name metrics.

use case_format::{Case, Fault, Fields};
use font_metrics::Metrics;
use std::alloc::Global;

/// A kind whose value names metrics.
pub trait ByMetrics {
    /// The keys that its value may have, `metrics` among them.
    fn keys() -> &'static [&'static str];

    /// Adds the words of the answer.
    fn add_answer(
        alloc: Global,
        metrics: &Metrics,
        fields: Fields,
        words: &mut String,
    ) -> Result<(), Fault>;
}

/// Adds the words of the answer of such a kind. Metrics are owned here alone: what else a function
/// does that owns them is dear to prove.
pub fn by_metrics<K: ByMetrics>(case: Case, words: &mut String) -> Result<(), Fault> {
    let fields = Fields::of_value(case.value, K::keys())?;
    let metrics = case.metrics(fields)?;
    let answered = K::add_answer(case.alloc, &metrics, fields, words);
    metrics.discard();
    answered
}
