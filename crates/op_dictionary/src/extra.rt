ghost use Rattle.std.specs.Prelude.{◌≡◌, [], ◌∷◌, ◌++◌, ◌<◌, length, slice_get, Some, IfOk, OnOk, OnErr, false};
ghost use Rattle.op_dictionary.specs.Dictionary.{is_named, line_category, line_axis, AreDistinct};
ghost use Rattle.op_dictionary.specs.Pairs.{IsLineText};
ghost use Rattle.op_dictionary.specs.Kept.{AddsAxis};

use crate::memory::Memory;
use crate::operator::{Axis, Category, Form};
use crate::text::OpText;
use std::alloc::Global;
use std::collections::HashMap;
use std::marker::Model;

/// An operator line of a metrics file: what a user says of a text in a form.
#[derive(Clone, Copy, Debug, PartialEq, Eq)]
pub struct OperatorLine {
    /// One character, or two of at most U+FFFF each.
    pub text: OpText,
    pub form: Form,
    /// The category of the text in this form.
    pub category: Category,
    /// The axis of the text, which its first line decides for all forms.
    pub axis: Axis,
}

/// The key by which a category is looked up.
#[derive(Clone, Copy, Debug, PartialEq, Eq, Hash)]
pub struct Pair {
    pub text: OpText,
    pub form: Form,
}

/// The operator lines of a metrics file in file order, which come before the built-in dictionary.
/// Contracts see their list.
#[derive(Drop)]
pub struct Extra {
    lines: Vec<OperatorLine>,
    // The category that a line gives each pair.
    categories: HashMap<Pair, Category>,
    // The axis of the first line of each text.
    axes: HashMap<OpText, Axis>,
}

impl Model for Extra {
    ghost use Rattle.std.specs.Prelude.{List};
    ghost use Rattle.op_dictionary.specs.declared.extra.OperatorLine.{OperatorLine};

    ghost Value = { List OperatorLine };

    ghost use Rattle.op_dictionary.specs.Kept.{IsKept};

    ghost view = { λ extra. extra.lines.items };

    ghost invariant = { IsKept };
}

impl Extra {
    /// No line yet. It takes no memory.
    pub fn make(alloc: Global) -> Extra
        ensures { result ≡ [] }
    {
        Extra {
            lines: Vec::new(alloc),
            categories: HashMap::new(alloc),
            axes: HashMap::new(alloc),
        }
    }

    /// Adds a line at the end, for a pair of text and form that no line names yet. The text has one
    /// character, or two of at most U+FFFF each.
    pub fn add(&mut self, line: OperatorLine) -> Result<(), Memory>
        requires text { IsLineText line.text }
        requires pair { is_named self.old line.text line.form ≡ false }
        ensures ok { OnOk result (self.new ≡ self.old ++ line ∷ []) }
        ensures err { OnErr result (self.new ≡ self.old) }
    {
        let OperatorLine { text, form, .. } = line;
        // Room comes first, so that a refusal leaves no axis and no category without its line.
        self.lines.reserve(1)?;
        self.categories.reserve(1)?;
        add_axis(&mut self.axes, line)?;
        self.categories.insert(Pair { text, form }, line.category)?;
        self.lines.push(line)?;
        Ok(())
    }

    /// The same lines again.
    pub fn copy(&self) -> Result<Extra, Memory>
        ensures { IfOk result (λ copied. copied ≡ self.now) }
    {
        Ok(Extra {
            lines: self.lines.clone()?,
            categories: self.categories.clone()?,
            axes: self.axes.clone()?,
        })
    }

    /// Whether a line names the pair of the text and the form.
    pub fn has(&self, text: OpText, form: Form) -> bool
        ensures { result ≡ is_named self.now text form }
    {
        self.categories.contains_key(&Pair { text, form })
    }

    /// How many lines there are. No two of them name one pair.
    pub fn count(&self) -> usize
        ensures count { result ≡ length self.now }
        ensures distinct { AreDistinct self.now }
    {
        self.lines.len()
    }

    /// The line at an index, in file order.
    pub fn line(&self, index: usize) -> OperatorLine
        requires { index < length self.now }
        ensures value { slice_get self.now index ≡ Some result }
        ensures text { IsLineText result.text }
    {
        self.lines[index]
    }

    /// The category that a line gives the text in the form.
    pub(crate) fn category(&self, text: OpText, form: Form) -> Option<Category>
        ensures { result ≡ line_category self.now text form }
    {
        self.categories.get(&Pair { text, form }).copied()
    }

    /// The axis that the first line with the text gives it.
    pub(crate) fn axis(&self, text: OpText) -> Option<Axis>
        ensures { result ≡ line_axis self.now text }
    {
        self.axes.get(&text).copied()
    }
}

// Keeps the line's axis where it is the first line with its text.
fn add_axis(axes: &mut HashMap<OpText, Axis>, line: OperatorLine) -> Result<(), Memory>
    ensures ok { OnOk result (AddsAxis axes.old.entries axes.new.entries line) }
    ensures err { OnErr result (axes.new.entries ≡ axes.old.entries) }
{
    if !axes.contains_key(&line.text) {
        axes.insert(line.text, line.axis)?;
    }
    Ok(())
}
