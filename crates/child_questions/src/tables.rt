ghost use Rattle.std.specs.Prelude.{◌≡◌, ◌<◌, ◌≤◌, ◌^◌, ◌-◌, pos, ◌≤ℤ◌, length, map, take, [], ◌∷◌, slice_index_or, IfOk};
ghost use Rattle.std.specs.List.{All};
ghost use Rattle.fixed_units.specs.Numbers.{IsWithin};
ghost use Rattle.embellished.specs.Seen.{seen_of};
ghost use Rattle.span_tables.specs.Laws.{cells_at as cells_of_row_at, firsts_at};
ghost use Rattle.span_tables.specs.Slots.{AreInside, slots_by};
ghost use Rattle.style_scope.specs.Sizes.{IsStyle, size_of};
ghost use Rattle.layout_model.specs.Answers.{questions_in};
ghost use Rattle.layout_model.specs.Questions.{rows_asked};
ghost use Rattle.layout_model.specs.Tables.{columns_over, stretch_at};
ghost use Rattle.layout_model.specs.Tables as spec;
ghost use Rattle.layout_model.specs.declared.context.Stretch.TheVariants.{Columns, Slots};
ghost use Rattle.layout_model.specs.Fits.{AreAnswers, HasStyle};
ghost use Rattle.child_questions.specs.Grids.{grid_of, plain_grid_of, spanning_grid_of};
ghost use Rattle.child_questions.specs.Surveys.{survey_of};

use crate::children::kid_context;
use crate::survey::Survey;
use embellished::View;
use fixed_units::{List, Memory};
use font_metrics::Metrics;
use layout_model::{Answered, Context, Question, Reply, Stretch, cells_of_rows, has_spans};
use math_tables::{columns, total_width};
use span_tables::{SpanCell, column_starts, first_columns, slots_from, span_columns};
use std::alloc::Global;

/// Asks each row of a table with its columns, or with its slots where a cell of the table spans,
/// over the answers of all rows. None has answered that yet.
pub fn rows_asked<V: View, A: Answered>(
    alloc: Global,
    parent: &V,
    survey: &Survey,
    context: &Context,
    metrics: &Metrics,
    rows: &List<A>,
) -> Result<List<Reply>, Memory>
    requires known { survey.now
        ≡ survey_of metrics.now (seen_of (V.element parent.now)) context.now }
    requires style { IsStyle context.now.style }
    requires size { size_of metrics.now context.now.style ≤ℤ pos (2 ^ 20) }
    requires answers { AreAnswers (map A.told rows.now) }
    ensures styles { IfOk result (λ asked. All HasStyle (questions_in asked)) }
    ensures value { IfOk result (λ asked.
        questions_in asked ≡ rows_asked metrics.now (seen_of (V.element parent.now)) context.now
        (map A.told rows.now)) }
{
    let rows = rows.as_slice();
    let grid = Grid::of(alloc, rows)?;
    let asked = asked_over(alloc, parent, survey, context, metrics, rows, &grid);
    // Dropped by a call, so that this function's proof doesn't go through all parts.
    drop(grid);
    asked
}

/// The same over the table's grid.
fn asked_over<V: View, A: Answered>(
    alloc: Global,
    parent: &V,
    survey: &Survey,
    context: &Context,
    metrics: &Metrics,
    rows: &[A],
    grid: &Grid,
) -> Result<List<Reply>, Memory>
    requires known { survey.now
        ≡ survey_of metrics.now (seen_of (V.element parent.now)) context.now }
    requires style { IsStyle context.now.style }
    requires size { size_of metrics.now context.now.style ≤ℤ pos (2 ^ 20) }
    requires answers { AreAnswers (map A.told rows.now) }
    requires grid { grid.now ≡ grid_of (map A.told rows.now) }
    ensures styles { IfOk result (λ asked. All HasStyle (questions_in asked)) }
    ensures value { IfOk result (λ asked.
        questions_in asked ≡ rows_asked metrics.now (seen_of (V.element parent.now)) context.now
        (map A.told rows.now)) }
{
    let mut asks = List::with_room(alloc, parent.kids())?;
    for index in 0..parent.kids() {
        let stretch = grid.stretch_at(alloc, rows, index)?;
        let context = kid_context(parent, survey, context, metrics, index, stretch);
        let question = Question {
            kid: index as u32,
            context,
        };
        asks.push(Reply::to_come(alloc, question))?;
    }
    Ok(asks)
}

/// Where the columns of a table are, over the answers of its rows: what all its rows are asked with
/// comes from it.
#[derive(Debug, Drop)]
pub enum Grid {
    /// No cell spans: the width of the whole table, and that of each column.
    Plain {
        total: i64,
        widths: List<i64>,
    },
    /// A cell spans: the cells of the rows, the first column of each, and where each column begins
    /// and the last one ends.
    Spanning {
        cells: List<List<SpanCell>>,
        firsts: List<List<u32>>,
        starts: List<i64>,
    },
}

impl Grid {
    /// That of a table, over the answers of its rows.
    fn of<A: Answered>(alloc: Global, rows: &[A]) -> Result<Grid, Memory>
        requires { AreAnswers (map A.told rows.now) }
        ensures { IfOk result (λ grid. grid ≡ grid_of (map A.told rows.now)) }
    {
        if has_spans(rows) {
            Grid::spanning(alloc, rows)
        } else {
            Grid::plain(alloc, rows)
        }
    }

    fn plain<A: Answered>(alloc: Global, rows: &[A]) -> Result<Grid, Memory>
        requires { AreAnswers (map A.told rows.now) }
        ensures { IfOk result (λ grid. grid ≡ plain_grid_of (map A.told rows.now)) }
    {
        let widths = columns_over(alloc, rows)?;
        let total = total_width(widths.as_slice());
        Ok(Grid::Plain { total, widths })
    }

    fn spanning<A: Answered>(alloc: Global, rows: &[A]) -> Result<Grid, Memory>
        requires { AreAnswers (map A.told rows.now) }
        ensures { IfOk result (λ grid. grid ≡ spanning_grid_of (map A.told rows.now)) }
    {
        let cells = cells_of_rows(alloc, rows)?;
        let firsts = first_columns(alloc, &cells)?;
        let widths = span_columns(alloc, &cells, &firsts)?;
        let starts = column_starts(alloc, &widths)?;
        Ok(Grid::Spanning {
            cells,
            firsts,
            starts,
        })
    }

    /// What the row at a place is asked with.
    #[tactic(auto, unfolding(layout_model::specs::Tables::stretch_at))]
    fn stretch_at<A: Answered>(
        &self,
        alloc: Global,
        rows: &[A],
        index: usize,
    ) -> Result<Stretch, Memory>
        requires known { self.now ≡ grid_of (map A.told rows.now) }
        requires answers { AreAnswers (map A.told rows.now) }
        ensures { IfOk result (λ stretch. stretch ≡ stretch_at (map A.told rows.now) index) }
    {
        match self {
            Grid::Plain { total, widths } => {
                columns_at(alloc, *total, widths, cells_at(rows, index))
            }
            Grid::Spanning {
                cells,
                firsts,
                starts,
            } => slots_at(alloc, cells, firsts, starts, index),
        }
    }
}

/// The columns of a table, over the answers of its rows.
fn columns_over<A: Answered>(alloc: Global, rows: &[A]) -> Result<List<i64>, Memory>
    ensures { IfOk result (λ widths. widths ≡ columns_over (map A.told rows.now)) }
{
    let mut cells = List::with_room(alloc, rows.len())?;
    for row in rows {
        cells.push(row.answer().cells.copy(alloc)?)?;
    }
    columns(alloc, &cells)
}

/// How many cells the row at a place has.
fn cells_at<A: Answered>(rows: &[A], index: usize) -> usize
    ensures { result ≡ length (spec.cells_at (map A.told rows.now) index) }
{
    match rows.get(index) {
        Some(row) => row.answer().cells.len(),
        None => 0,
    }
}

/// What a row of so many cells is asked with: the width of the whole table, and the columns of its
/// own cells.
fn columns_at(
    alloc: Global,
    total: i64,
    widths: &List<i64>,
    cells: usize,
) -> Result<Stretch, Memory>
    ensures { IfOk result (λ columns. columns ≡ Columns (total ∷ take cells widths.now)) }
{
    let widths = widths.as_slice();
    let mut numbers = List::make(alloc);
    numbers.push(total)?;
    numbers.push_all(&widths[..cells.min(widths.len())])?;
    Ok(Stretch::Columns(numbers))
}

/// What the row at a place is asked with where a cell of the table spans: the width of the whole
/// table, and the slots of its own cells.
fn slots_at(
    alloc: Global,
    cells: &List<List<SpanCell>>,
    firsts: &List<List<u32>>,
    starts: &List<i64>,
    index: usize,
) -> Result<Stretch, Memory>
    requires some { 1 ≤ length starts.now }
    requires within { All (IsWithin (2 ^ 58)) starts.now }
    requires inside { AreInside (length starts.now - 1) (cells_of_row_at cells.now index)
        (firsts_at firsts.now index) }
    ensures { IfOk result (λ slots.
        slots ≡ Slots (slots_by starts.now (cells_of_row_at cells.now index)
        (firsts_at firsts.now index))) }
{
    let no_cells = List::make(alloc);
    let no_firsts = List::make(alloc);
    let cells = row_at(cells, index, &no_cells);
    let firsts = row_at(firsts, index, &no_firsts);
    Ok(Stretch::Slots(slots_from(alloc, cells, firsts, starts)?))
}

/// The row at a place; past the last one, `none`.
fn row_at<'a, T>(rows: &'a List<List<T>>, index: usize, none: &'a List<T>) -> &'a List<T>
    requires { none.now ≡ [] }
    ensures { result.now ≡ slice_index_or rows.now index [] }
{
    match rows.as_slice().get(index) {
        Some(row) => row,
        None => none,
    }
}
