//! Laws of the definitions. Each is a contract, so that it is proved; the functions compute
//! nothing.
ghost use Rattle.splices.specs.Laws.{InverseLaw, LengthLaw, MovesLaw, OriginLaw};

/// The inverse of a splice that fits a list leads back to that list, and fits the spliced one.
pub fn an_inverse_leads_back<T>()
    ensures { InverseLaw T }
{}

/// An item that stays stands at the place that `Moves` says.
pub fn what_stays_is_moved<T>()
    ensures { MovesLaw T }
{}

/// What stands in the spliced list was brought, or stays.
pub fn each_item_has_an_origin<T>()
    ensures { OriginLaw T }
{}

/// A splice changes the length by one item at most.
pub fn lengths_follow<T>()
    ensures { LengthLaw T }
{}
