//! `category`: the category of an operator in the dictionary.

use crate::kinds::operators::{ByLines, form_in, op_text};
use case_format::{Case, Fault, Fields, written};
use op_dictionary::{Category, Extra, category};

/// The kind `category`.
pub struct OfCategory;

impl ByLines for OfCategory {
    fn keys() -> &'static [&'static str] {
        &["text", "form", "fixed", "metrics"]
    }

    fn add_answer(
        lines: &Extra,
        _case: Case,
        fields: Fields,
        words: &mut String,
    ) -> Result<(), Fault> {
        let text = op_text(fields.text("text")?);
        let form = form_in(fields)?;
        let fixed = fields.flag("fixed")?;
        written(words.push_str(name_of(category(text, form, fixed, lines))))
    }
}

fn name_of(category: Category) -> &'static str {
    match category {
        Category::Default => "Default",
        Category::A => "A",
        Category::B => "B",
        Category::C => "C",
        Category::D => "D",
        Category::E => "E",
        Category::F => "F",
        Category::G => "G",
        Category::H => "H",
        Category::I => "I",
        Category::J => "J",
        Category::K => "K",
        Category::L => "L",
        Category::M => "M",
    }
}
