ghost use Rattle.std.specs.Prelude.{◌≡◌, ◌<◌, ◌≤◌, ◌^◌, pos, ◌≤ℤ◌, length, map, IfOk};
ghost use Rattle.std.specs.List.{All};
ghost use Rattle.fixed_units.specs.Boxes.{IsStored};
ghost use Rattle.embellished.specs.Seen.{seen_of};
ghost use Rattle.row_stretch.specs.Equation.{IsKidStored};
ghost use Rattle.style_scope.specs.Sizes.{size_of};
ghost use Rattle.layout_model.specs.Answers.{answers_in, no_answer};
ghost use Rattle.layout_model.specs.Contexts.{kid_style};
ghost use Rattle.layout_model.specs.Elements.{font, frame_at, lead_place, outcome, outcome_with, row_kid, row_kids, spaces_of};
ghost use Rattle.layout_model.specs.Fits.{IsContext, RepliesAll};
ghost use Rattle.outcomes.specs.Elements.{IsWhole, answered};

use crate::answers::last_answers;
use child_questions::style_of_kid;
use embellished::{View, fences_of, is_led_by_its_base};
use fixed_units::{List, MathBox, Memory};
use font_metrics::{Mark, Metrics};
use layout_model::{Answer, Context, Offset, Outcome, Reply};
use math_tree::Attributes;
use row_stretch::{RowKid, RowKids};
use span_tables::CellSpan;
use std::alloc::Global;
use std::marker::Model;
use style_scope::font_size;

/// An element in its context, over the answer that counts of each child in flow: what its equation
/// reads.
#[derive(Drop)]
pub struct Element<'a, V: View> {
    view: &'a V,
    context: &'a Context,
    metrics: &'a Metrics,
    /// Its font size.
    size: i64,
    kids: Vec<&'a Answer>,
}

impl<'a, V: View> Model for Element<'a, V> {
    ghost use Rattle.std.specs.Prelude.{map};
    ghost use Rattle.embellished.specs.Seen.{seen_of};
    ghost use Rattle.layout_model.specs.Elements.{Element as ElementValue};
    ghost use Rattle.outcomes.specs.Elements.{IsWhole};

    ghost Value = { ElementValue };

    ghost view = { λ e. record {
      metrics = e.metrics.now;
      seen = seen_of (V.element e.view.now);
      context = e.context.now;
      kids = map (λ kid. kid.now) e.kids.items;
    } };

    ghost invariant = { λ e. IsWhole
        record {
          metrics = e.metrics.now;
          seen = seen_of (V.element e.view.now);
          context = e.context.now;
          kids = map (λ kid. kid.now) e.kids.items;
        }
        e.size };
}

impl<'a, V: View> Element<'a, V> {
    /// An element over the replies of both waves; `nothing` is the answer of a child that wasn't
    /// asked.
    pub fn make(
        alloc: Global,
        view: &'a V,
        context: &'a Context,
        metrics: &'a Metrics,
        one: &'a List<Reply>,
        two: &'a List<Reply>,
        nothing: &'a Answer,
    ) -> Result<Element<'a, V>, Memory>
        requires nothing { nothing.now ≡ no_answer }
        requires fits { IsContext context.now }
        requires size { size_of metrics.now context.now.style ≤ℤ pos (2 ^ 20) }
        requires replies { RepliesAll metrics.now (seen_of (V.element view.now)) context.now one.now
            two.now }
        ensures { IfOk result (λ e.
            e ≡ answered metrics.now (seen_of (V.element view.now)) context.now (answers_in one.now)
            (answers_in two.now)) }
    {
        let count = view.kids();
        let kids = last_answers(alloc, count, one, two, nothing)?;
        let Some(size) = font_size(&context.style, metrics) else {
            unreachable!();
        };
        Ok(Element {
            view,
            context,
            metrics,
            size,
            kids,
        })
    }

    /// What is to see of it.
    pub fn view(&self) -> &'a V
        ensures { seen_of (V.element result.now) ≡ self.now.seen }
    {
        self.view
    }

    /// The context that it is laid out in.
    pub fn context(&self) -> &'a Context
        ensures value { result.now ≡ self.now.context }
        ensures fits { IsContext self.now.context }
    {
        self.context
    }

    /// The metrics that it is laid out with.
    pub fn metrics(&self) -> &'a Metrics
        ensures { result.now ≡ self.now.metrics }
    {
        self.metrics
    }

    /// Its attributes.
    pub fn attributes(&self) -> &'a Attributes
        ensures { result.now ≡ self.now.seen.head.attributes }
    {
        &self.view.head().attributes
    }

    /// Its font size, in units.
    pub fn size(&self) -> i64
        ensures value { result ≡ font self.now }
        ensures low { pos 0 ≤ℤ result }
        ensures high { result ≤ℤ pos (2 ^ 20) }
    {
        self.size
    }

    /// The font size of the child in flow at a place, in units.
    pub fn size_of_kid(&self, index: usize) -> i64
        requires { index < length self.now.seen.kids }
        ensures value { result ≡ size_of self.now.metrics (kid_style self.now.metrics self.now.seen
            self.now.context.style index) }
        ensures low { pos 0 ≤ℤ result }
        ensures high { result ≤ℤ pos (2 ^ 20) }
    {
        let style = style_of_kid(self.view, self.context, self.metrics, index);
        match font_size(&style, self.metrics) {
            Some(size) => size,
            None => unreachable!(),
        }
    }

    /// How many children are in flow.
    pub fn count(&self) -> usize
        ensures kids { result ≡ length self.now.kids }
        ensures seen { result ≡ length self.now.seen.kids }
        ensures few { result ≤ 65_535 }
        ensures whole { IsWhole self.now (font self.now) }
    {
        self.kids.len()
    }

    /// The box of the child in flow at a place, and a box of zeros past the last.
    pub fn frame(&self, index: usize) -> MathBox
        ensures value { result ≡ frame_at self.now index }
        ensures stored { IsStored result }
    {
        match self.kids.get(index) {
            Some(answer) => answer.frame,
            None => EMPTY,
        }
    }

    /// The answers of its children in flow.
    pub fn answers(&self) -> &[&'a Answer]
        ensures { map (λ answer. answer.now) result.now ≡ self.now.kids }
    {
        self.kids.as_slice()
    }

    /// Of its children in flow boxes and spaces can be stored, and there are not too many. It does
    /// nothing; a caller gets the fact by a call.
    pub fn has_row_kids(&self)
        ensures few { length (row_kids self.now) ≤ 65_535 }
        ensures stored { All IsKidStored (row_kids self.now) }
    {
        let _ = &self.kids;
    }

    /// The child in flow at a place, as one of a row.
    pub fn row_kid(&self, index: usize) -> RowKid
        requires { index < length self.now.seen.kids }
        ensures value { result ≡ row_kid self.now index }
        ensures stored { IsKidStored result }
    {
        let answer = self.kids[index];
        RowKid {
            frame: answer.frame,
            before: answer.before,
            after: answer.after,
            embellished: self.view.kid_facts(index).core.is_some(),
        }
    }
}

/// Its children in flow, as those of a row.
impl<'a, V: View> RowKids for Element<'a, V> {
    ghost use Rattle.layout_model.specs.Elements.{row_kids};

    ghost kids = { row_kids };

    fn kid_count(&self) -> usize {
        self.kids.len()
    }

    fn kid_at(&self, place: usize) -> RowKid {
        self.row_kid(place)
    }
}

impl<'a, V: View> Element<'a, V> {
    /// Its outcome: this box, its children at these places, and these marks.
    pub fn outcome(
        &self,
        alloc: Global,
        frame: MathBox,
        offsets: List<Offset>,
        marks: List<Mark>,
    ) -> Outcome
        ensures { result ≡ outcome self.now frame offsets marks }
    {
        self.outcome_with(frame, List::make(alloc), List::make(alloc), offsets, marks)
    }

    /// The same of a row of a table, with the widths of its cells and what they span.
    #[tactic(auto, unfolding(layout_model::specs::Elements::outcome_with))]
    pub fn outcome_with(
        &self,
        frame: MathBox,
        cells: List<i64>,
        spans: List<CellSpan>,
        offsets: List<Offset>,
        marks: List<Mark>,
    ) -> Outcome
        ensures { result ≡ outcome_with self.now frame cells spans offsets marks }
    {
        let spaces = self.spaces();
        Outcome {
            answer: Answer {
                frame,
                before: spaces.before,
                after: spaces.after,
                cells,
                spans,
            },
            offsets,
            marks,
        }
    }

    /// The spaces round it: those of the child that leads to its core, where it has one.
    fn spaces(&self) -> Spaces
        ensures before { result.before ≡ (spaces_of self.now).before }
        ensures after { result.after ≡ (spaces_of self.now).after }
    {
        if self.view.facts().core.is_none() {
            return NO_SPACES;
        }
        match self.kids.get(self.lead_place()) {
            Some(answer) => Spaces {
                before: answer.before,
                after: answer.after,
            },
            None => NO_SPACES,
        }
    }

    /// The place of the child that leads to the core of an embellished element.
    fn lead_place(&self) -> usize
        ensures { result ≡ lead_place self.now.seen }
    {
        if is_led_by_its_base(self.view.facts().laid) {
            return 0;
        }
        fences_of(self.view).first
    }
}

/// The spaces round an element, in units.
#[derive(Clone, Copy, Debug, PartialEq, Eq)]
struct Spaces {
    before: i64,
    after: i64,
}

const NO_SPACES: Spaces = Spaces {
    before: 0,
    after: 0,
};

/// A box without size.
const EMPTY: MathBox = MathBox {
    width: 0,
    ascent: 0,
    descent: 0,
    ink_ascent: 0,
    ink_descent: 0,
    italic: 0,
    accent: 0,
};
