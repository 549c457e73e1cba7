ghost use Rattle.std.specs.Prelude.{◌≡◌, Ok, IfOk, IfErr};
ghost use Rattle.page_facts.specs.Facts.{HasPage};
ghost use Rattle.edit_session.specs.Session.{page};
ghost use Rattle.queries.specs.Queries.{IsCause, IsWritable, answer_to, bytes_of, hit_on, painted_page, selected_on};

use crate::answers::Answer;
use box_writer::Placed;
use edit_session::Session;
use hit_test::{SelectRefusal, hit, selection};
use math_tree::NodeId;
use page_queries::{Query, QueryRefusal};
use paint_list::{PaintRefusal, paint};
use std::alloc::Global;

/// Finds what is asked for on the page of a session's tree, or tells why there is no answer.
pub fn answer_query(
    alloc: Global,
    session: &mut Session,
    query: Query,
) -> Result<Answer, QueryRefusal>
    ensures told { IfOk result (λ answer.
        answer_to query session.old.held ≡ Ok (bytes_of session.old.held.metrics answer)) }
    ensures writable { IfOk result (IsWritable session.old.held.metrics) }
    ensures refused { IfErr result (IsCause (answer_to query session.old.held)) }
    ensures unchanged { session.new.held ≡ session.old.held }
{
    match session.show(alloc) {
        Ok(placed) => answer_over(alloc, session, &placed, query),
        Err(_) => Err(QueryRefusal::Memory),
    }
}

/// The same on a page that is there.
pub fn answer_over(
    alloc: Global,
    session: &Session,
    placed: &Placed,
    query: Query,
) -> Result<Answer, QueryRefusal>
    requires { placed.now ≡ page session.now.held }
    ensures told { IfOk result (λ answer.
        answer_to query session.now.held ≡ Ok (bytes_of session.now.held.metrics answer)) }
    ensures writable { IfOk result (IsWritable session.now.held.metrics) }
    ensures refused { IfErr result (IsCause (answer_to query session.now.held)) }
{
    match query {
        Query::Paint => picture_of(alloc, session, placed),
        Query::Hit(x, y) => Ok(element_at(session, placed, x, y)),
        Query::Select(first, second) => areas_between(alloc, session, placed, first, second),
    }
}

/// What is painted of a page.
fn picture_of(alloc: Global, session: &Session, placed: &Placed) -> Result<Answer, QueryRefusal>
    requires { placed.now ≡ page session.now.held }
    ensures told { IfOk result (λ answer.
        painted_page session.now.held ≡ Ok (bytes_of session.now.held.metrics answer)) }
    ensures writable { IfOk result (IsWritable session.now.held.metrics) }
    ensures refused { IfErr result (IsCause (painted_page session.now.held)) }
{
    has_page(session);
    match paint(alloc, placed, session.metrics()) {
        Ok(paints) => Ok(Answer::Picture(session.root_box(), paints)),
        Err(PaintRefusal::TooMany) => Err(QueryRefusal::TooMany),
        Err(PaintRefusal::Memory) => Err(QueryRefusal::Memory),
    }
}

/// The element that a point lies in.
fn element_at(session: &Session, placed: &Placed, x: i64, y: i64) -> Answer
    requires { placed.now ≡ page session.now.held }
    ensures told { hit_on session.now.held x y ≡ Ok (bytes_of session.now.held.metrics result) }
    ensures writable { IsWritable session.now.held.metrics result }
{
    has_page(session);
    Answer::Hit(hit(placed, x, y))
}

/// What to mark from one element to another.
fn areas_between(
    alloc: Global,
    session: &Session,
    placed: &Placed,
    first: NodeId,
    second: NodeId,
) -> Result<Answer, QueryRefusal>
    requires { placed.now ≡ page session.now.held }
    ensures told { IfOk result (λ answer.
        selected_on session.now.held first.0 second.0
        ≡ Ok (bytes_of session.now.held.metrics answer)) }
    ensures writable { IfOk result (IsWritable session.now.held.metrics) }
    ensures refused { IfErr result (IsCause (selected_on session.now.held first.0 second.0)) }
{
    has_page(session);
    match selection(alloc, session.layouts().tree(), placed, first, second) {
        Ok(areas) => Ok(Answer::Areas(areas)),
        Err(SelectRefusal::NoNode(id)) => Err(QueryRefusal::NoNode(id)),
        Err(SelectRefusal::Memory) => Err(QueryRefusal::Memory),
    }
}

/// What is known of a session's tree and metrics: the call does nothing.
fn has_page(session: &Session)
    ensures { HasPage session.now.held.metrics session.now.held.tree }
{
    session.metrics().is_taken();
    session.layouts().tree().root();
}
