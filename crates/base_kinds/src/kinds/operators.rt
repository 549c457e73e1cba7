//! What the kinds on operators share.

use case_format::{Case, Fault, Fields};
use op_dictionary::{Axis, Extra, Form, OpText};

/// A kind that operator lines decide: those of the file that its key `metrics` names, else none.
pub trait ByLines {
    /// The keys that its value may have, `metrics` among them.
    fn keys() -> &'static [&'static str];

    /// Adds the words of the answer.
    fn add_answer(
        lines: &Extra,
        case: Case,
        fields: Fields,
        words: &mut String,
    ) -> Result<(), Fault>;
}

/// Adds the words of the answer of such a kind. Lines and metrics are owned here alone: whatever
/// else a function does that owns them is dear to prove.
pub fn by_lines<K: ByLines>(case: Case, words: &mut String) -> Result<(), Fault> {
    let fields = Fields::of_value(case.value, K::keys())?;
    if fields.has("metrics") {
        by_metrics::<K>(case, fields, words)
    } else {
        let none = Extra::make(case.alloc);
        let answered = K::add_answer(&none, case, fields, words);
        drop(none);
        answered
    }
}

fn by_metrics<K: ByLines>(case: Case, fields: Fields, words: &mut String) -> Result<(), Fault> {
    let metrics = case.metrics(fields)?;
    let answered = K::add_answer(metrics.extra(), case, fields, words);
    metrics.discard();
    answered
}

/// The form of the key `form`.
pub fn form_in(fields: Fields) -> Result<Form, Fault> {
    match fields.text("form")? {
        "prefix" => Ok(Form::Prefix),
        "infix" => Ok(Form::Infix),
        "postfix" => Ok(Form::Postfix),
        _ => Err(Fault::out_of_range("form")),
    }
}

/// The text of an operator: one character, two of at most U+FFFF, none or others.
pub fn op_text(text: &str) -> OpText {
    let mut letters = text.chars();
    match (letters.next(), letters.next(), letters.next()) {
        (None, _, _) => OpText::Empty,
        (Some(letter), None, _) => OpText::One(letter),
        (Some(first), Some(second), None) if first.max(second) <= '\u{FFFF}' => {
            OpText::Two(first, second)
        }
        _ => OpText::Other,
    }
}

/// The word of an axis.
pub fn axis_name(axis: Axis) -> &'static str {
    match axis {
        Axis::Block => "block",
        Axis::Inline => "inline",
    }
}
