ghost use Rattle.std.specs.Prelude.{◌≡◌, true, false, IfOk};
ghost use Rattle.layout_model.specs.Contexts.{pull_of, stretch_of};
ghost use Rattle.layout_model.specs.Fits.{IsContext};
ghost use Rattle.layout_model.specs.Layout.{root_context};

use fixed_units::{List, Memory, Pull};
use font_metrics::Metrics;
use math_tree::Head;
use op_dictionary::Form;
use std::alloc::Global;
use style_scope::{Style, root_style};

/// What stretches an element. Lengths are in units (1/1024 px).
#[derive(Debug, Drop)]
pub enum Stretch {
    /// Nothing: it keeps its own size.
    None,
    /// Upward and downward: the ascent and the descent that it is to cover.
    Block(i64, i64),
    /// To the sides: the width that it is to cover.
    Inline(i64),
    /// A row of a table to the columns of the table: the width of the whole table, and then that of
    /// the column of each of its cells.
    Columns(List<i64>),
    /// The same of a table in which a cell spans: the width of the whole table, and then of each
    /// cell of the row where its slot begins and how wide that is.
    Slots(List<i64>),
}

impl Stretch {
    /// What a pull is to a child.
    #[tactic(auto, unfolding(crate::specs::Contexts::stretch_of))]
    pub fn of(pull: Pull) -> Stretch
        ensures { result ≡ stretch_of pull }
    {
        match pull {
            Pull::Free => Stretch::None,
            Pull::Block(ascent, descent) => Stretch::Block(ascent, descent),
            Pull::Inline(width) => Stretch::Inline(width),
        }
    }

    /// What pulls a row, a base or an operator; columns and slots pull none of them.
    #[tactic(auto, unfolding(crate::specs::Contexts::pull_of))]
    pub fn pull(&self) -> Pull
        ensures { result ≡ pull_of self.now }
    {
        match self {
            Stretch::None | Stretch::Columns(_) | Stretch::Slots(_) => Pull::Free,
            Stretch::Block(ascent, descent) => Pull::Block(*ascent, *descent),
            Stretch::Inline(width) => Pull::Inline(*width),
        }
    }

    /// Do both stretch an element alike?
    pub fn is_same(&self, other: &Stretch) -> bool
        ensures yes { result ≡ true → self.now ≡ other.now }
        ensures no { result ≡ false → self.now ≡ other.now → ⊥ }
    {
        match (self, other) {
            (Stretch::None, Stretch::None) => true,
            (Stretch::Block(up, down), Stretch::Block(other_up, other_down)) => {
                *up == *other_up && *down == *other_down
            }
            (Stretch::Inline(width), Stretch::Inline(other)) => *width == *other,
            (Stretch::Columns(widths), Stretch::Columns(others)) => {
                widths.as_slice() == others.as_slice()
            }
            (Stretch::Slots(numbers), Stretch::Slots(others)) => {
                numbers.as_slice() == others.as_slice()
            }
            _ => false,
        }
    }

    /// The same again. Only columns and slots take memory.
    pub fn copy(&self, alloc: Global) -> Result<Stretch, Memory>
        ensures { IfOk result (λ copied. copied ≡ self.now) }
    {
        match self {
            Stretch::None => Ok(Stretch::None),
            Stretch::Block(up, down) => Ok(Stretch::Block(*up, *down)),
            Stretch::Inline(width) => Ok(Stretch::Inline(*width)),
            Stretch::Columns(widths) => Ok(Stretch::Columns(widths.copy(alloc)?)),
            Stretch::Slots(numbers) => Ok(Stretch::Slots(numbers.copy(alloc)?)),
        }
    }
}

/// In what an element is laid out: what comes from its place in the tree, and what its parent asks.
#[derive(Debug, Drop)]
pub struct Context {
    pub style: Style,
    /// Its form as an operator, infix where it is none (MathML Core 3.2.4.2).
    pub form: Form,
    pub stretch: Stretch,
}

impl Context {
    /// That of the root of a tree: it is infix, and nothing stretches it.
    #[tactic(auto, unfolding(crate::specs::Layout::root_context))]
    pub fn at_root(root: &Head, metrics: &Metrics) -> Context
        ensures exact { result ≡ root_context metrics.now root.now }
        ensures fits { IsContext result }
    {
        Context {
            style: root_style(root, metrics),
            form: Form::Infix,
            stretch: Stretch::None,
        }
    }

    /// Are both the same?
    pub fn is_same(&self, other: &Context) -> bool
        ensures yes { result ≡ true → self.now ≡ other.now }
        ensures no { result ≡ false → self.now ≡ other.now → ⊥ }
    {
        is_same_style(&self.style, &other.style)
            && self.form == other.form
            && self.stretch.is_same(&other.stretch)
    }

    /// The same again. Only columns and slots take memory.
    pub fn copy(&self, alloc: Global) -> Result<Context, Memory>
        ensures { IfOk result (λ copied. copied ≡ self.now) }
    {
        Ok(Context {
            style: self.style,
            form: self.form,
            stretch: self.stretch.copy(alloc)?,
        })
    }
}

/// Are both styles the same?
fn is_same_style(style: &Style, other: &Style) -> bool
    ensures yes { result ≡ true → style.now ≡ other.now }
    ensures no { result ≡ false → style.now ≡ other.now → ⊥ }
{
    *style == *other
}

/// A question of an element to one of its children: its layout in a context.
#[derive(Debug, Drop)]
pub struct Question {
    /// The child's place among the children in flow, counted from 0.
    pub kid: u32,
    pub context: Context,
}

impl Question {
    /// The same again.
    pub fn copy(&self, alloc: Global) -> Result<Question, Memory>
        ensures { IfOk result (λ copied. copied ≡ self.now) }
    {
        Ok(Question {
            kid: self.kid,
            context: self.context.copy(alloc)?,
        })
    }
}
