//! What is asked of a page, by the words of the command line.
ghost use Rattle.std.specs.Prelude.{◌≡◌};
ghost use Rattle.command_words.specs.Command.{ids_of, point_of, query_named};

use crate::numerals::{coordinate_of, id_of};
use page_queries::Query;

/// What a word asks, by the two words behind the two files.
pub fn query_of(word: &str, first: &str, second: &str) -> Option<Query>
    ensures { result ≡ query_named word.now first.now second.now }
{
    match word {
        "hit" => point_of(first, second),
        "select" => ids_of(first, second),
        _ => None,
    }
}

/// Which element a point lies in.
fn point_of(x: &str, y: &str) -> Option<Query>
    ensures { result ≡ point_of x.now y.now }
{
    let x = coordinate_of(x)?;
    let y = coordinate_of(y)?;
    Some(Query::Hit(x, y))
}

/// What is marked from one element to another.
fn ids_of(first: &str, second: &str) -> Option<Query>
    ensures { result ≡ ids_of first.now second.now }
{
    let first = id_of(first)?;
    let second = id_of(second)?;
    Some(Query::Select(first, second))
}
