use crate::answer::Answer;
use crate::fault::Fault;
use crate::fields::Fields;
use crate::files::KnownFiles;
use font_metrics::Metrics;
use serde_json::Value;
use std::alloc::Global;

/// A case: its value, and the files that are known to it.
#[derive(Clone, Copy)]
pub struct Case<'a> {
    pub alloc: Global,
    pub value: &'a Value,
    pub files: &'a KnownFiles,
}

impl<'a> Case<'a> {
    /// The metrics of the known file that the key `metrics` names.
    pub fn metrics(self, fields: Fields) -> Result<Metrics, Fault> {
        self.files.metrics(self.alloc, fields.text("metrics")?)
    }
}

/// The kinds of cases that a program carries out.
pub trait Kinds {
    /// What comes of a case of the kind of this name; `Fault::UnknownKind` where none has it.
    fn answer(&self, kind: &str, case: Case) -> Result<Answer, Fault>;
}
