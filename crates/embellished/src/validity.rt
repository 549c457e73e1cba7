ghost use Rattle.std.specs.Prelude.{◌≡◌, not, map, filter, IfOk};
ghost use Rattle.std.specs.List.{count_by, list_all, slice_split};
ghost use Rattle.embellished.specs.Kinds as kinds;
ghost use Rattle.embellished.specs.Validity.{is_even, are_scripts, are_base_and_scripts, is_valid, laid_as};

use crate::facts::Facts;
use crate::flow::push_if;
use crate::kinds::{is_annotation, is_prescripts_mark};
use fixed_units::Memory;
use math_tree::Kind;
use std::alloc::Global;

/// How an element is laid out: an invalid one as an `mrow`.
#[tactic(auto, unfolding(crate::specs::Validity::laid_as))]
pub fn laid_as(alloc: Global, kind: Kind, kids: &[Facts]) -> Result<Kind, Memory>
    ensures { IfOk result (λ laid. laid ≡ laid_as kind (map (λ kid. kid.laid) kids.now)) }
{
    let others = but_annotations(alloc, kids)?;
    if is_valid(kind, others.as_slice()) {
        Ok(kind)
    } else {
        Ok(Kind::Mrow)
    }
}

/// How the children that aren't annotations are laid out.
pub fn but_annotations(alloc: Global, kids: &[Facts]) -> Result<Vec<Kind>, Memory>
    ensures { IfOk result (λ others. others.items ≡
        filter (λ kid. not (kinds.is_annotation kid)) (map (λ kid. kid.laid) kids.now)) }
{
    let mut others = Vec::with_capacity(alloc, kids.len())?;
    for kid in kids {
        push_if(&mut others, !is_annotation(kid.laid), kid.laid)?;
    }
    Ok(others)
}

/// Whether an element is valid over children, none of them an annotation, that are laid out so.
#[tactic(auto, unfolding(crate::specs::Validity::is_valid))]
fn is_valid(kind: Kind, kids: &[Kind]) -> bool
    ensures { result ≡ is_valid kind kids.now }
{
    match kind {
        Kind::Mfrac | Kind::Mroot => kids.len() == 2, // Core 3.3.2, 3.3.3
        // Core 3.4.1, 3.4.2
        Kind::Msub | Kind::Msup | Kind::Munder | Kind::Mover => kids.len() == 2,
        Kind::Msubsup | Kind::Munderover => kids.len() == 3,
        Kind::Mmultiscripts => are_base_and_scripts(kids), // Core 3.4.3
        // Own choice: nothing but cells in a row, nothing but rows in a table.
        Kind::Mtr => are_cells(kids),
        Kind::Mtable => are_table_rows(kids),
        _ => true,
    }
}

#[tactic(auto, unfolding(crate::specs::Validity::are_base_and_scripts))]
fn are_base_and_scripts(kids: &[Kind]) -> bool
    ensures { result ≡ are_base_and_scripts kids.now }
{
    match kids.split_first() {
        None => false,
        Some((base, scripts)) => !is_prescripts_mark(*base) & are_scripts(scripts),
    }
}

/// Whether there is an even number of scripts on each side of a mark, of which there is at most
/// one.
#[tactic(auto, unfolding(crate::specs::Validity::are_scripts))]
fn are_scripts(kids: &[Kind]) -> bool
    ensures { result ≡ are_scripts kids.now }
{
    (mark_count(kids) <= 1) & have_even_sides(kids)
}

fn mark_count(kids: &[Kind]) -> usize
    ensures { result ≡ count_by kinds.is_prescripts_mark kids.now }
{
    kids.iter().filter(|kid| is_prescripts_mark(**kid)).count()
}

fn have_even_sides(kids: &[Kind]) -> bool
    ensures { result ≡ list_all is_even (slice_split kinds.is_prescripts_mark kids.now) }
{
    kids.split(|kid| is_prescripts_mark(*kid))
        .all(|side| side.len() % 2 == 0)
}

fn are_cells(kids: &[Kind]) -> bool
    ensures { result ≡ list_all kinds.is_cell kids.now }
{
    kids.iter().all(|kid| matches!(kid, Kind::Mtd))
}

fn are_table_rows(kids: &[Kind]) -> bool
    ensures { result ≡ list_all kinds.is_table_row kids.now }
{
    kids.iter().all(|kid| matches!(kid, Kind::Mtr))
}
