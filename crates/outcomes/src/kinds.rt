ghost use Rattle.std.specs.Prelude.{◌≡◌, IfOk};
ghost use Rattle.layout_model.specs.Equations.{outcome_by};
ghost use Rattle.outcomes.specs.Outcomes.{IsOutcome};

use crate::element::Element;
use crate::fraction::fraction_outcome;
use crate::leaf::{operator_outcome, space_outcome, token_outcome};
use crate::limits::{limits_or_scripts, over_or_sup, under_or_sub};
use crate::padding::padded_outcome;
use crate::pairs::multi_outcome;
use crate::root::root_outcome;
use crate::row::{cell_outcome, error_outcome, row_outcome, square_root_outcome};
use crate::script::{sub_outcome, sub_sup_outcome, sup_outcome};
use crate::table::{table_outcome, table_row_outcome};
use embellished::View;
use fixed_units::Memory;
use layout_model::Outcome;
use math_tree::Kind;
use std::alloc::Global;

/// The outcome of an element that is laid out as a kind, or one that can't be stored where that
/// can't be.
#[tactic(auto, using(crate::proofs::Exactly::exactly), unfolding(layout_model::specs::Equations::outcome_by))]
pub fn outcome_by<V: View>(alloc: Global, laid: Kind, e: &Element<V>) -> Result<Outcome, Memory>
    requires { laid ≡ e.now.seen.facts.laid }
    ensures { IfOk result (IsOutcome (outcome_by laid e.now)) }
{
    match laid {
        Kind::Merror => error_outcome(alloc, e),
        Kind::Mfrac => fraction_outcome(alloc, e),
        Kind::Mi => token_outcome(alloc, e),
        Kind::Mmultiscripts => multi_outcome(alloc, e),
        Kind::Mn => token_outcome(alloc, e),
        Kind::Mo => operator_outcome(alloc, e),
        Kind::Mover => over_or_sup(alloc, e),
        Kind::Mpadded => padded_outcome(alloc, e),
        Kind::Mroot => root_outcome(alloc, e),
        Kind::Ms => token_outcome(alloc, e),
        Kind::Mspace => Ok(space_outcome(alloc, e)),
        Kind::Msqrt => square_root_outcome(alloc, e),
        Kind::Msub => sub_outcome(alloc, e),
        Kind::Msubsup => sub_sup_outcome(alloc, e),
        Kind::Msup => sup_outcome(alloc, e),
        Kind::Mtable => table_outcome(alloc, e),
        Kind::Mtd => cell_outcome(alloc, e),
        Kind::Mtext => token_outcome(alloc, e),
        Kind::Mtr => table_row_outcome(alloc, e),
        Kind::Munder => under_or_sub(alloc, e),
        Kind::Munderover => limits_or_scripts(alloc, e),
        _ => row_outcome(alloc, e),
    }
}
