ghost use Rattle.std.specs.Prelude.{◌≡◌};
ghost use Rattle.layout_model.specs.Questions.{asking_of};

use math_tree::Kind;

/// How an element asks its children.
#[derive(Clone, Copy, Debug, PartialEq, Eq)]
pub enum Asking {
    /// It has no children in flow.
    Nothing,
    /// All at once, and none is stretched.
    Plainly,
    /// All at once: what stretches it stretches its base.
    ForTheBase,
    /// As a row: what stretches upward and downward is asked with the ink of the others.
    AsRow,
    /// As a base with limits: what stretches to the sides is asked with the width of the others.
    AsLimits,
    /// As a table: all rows, and then each with the columns of all.
    AsTable,
}

impl Asking {
    /// How elements that are laid out as this kind ask their children.
    #[tactic(auto, unfolding(crate::specs::Questions::asking_of))]
    pub fn of(laid: Kind) -> Asking
        ensures { result ≡ asking_of laid }
    {
        match laid {
            Kind::Annotation
            | Kind::AnnotationXml
            | Kind::Mi
            | Kind::Mn
            | Kind::Mo
            | Kind::Ms
            | Kind::Mspace
            | Kind::Mtext => Asking::Nothing,
            Kind::Mfrac | Kind::Msub | Kind::Msup | Kind::Msubsup | Kind::Mmultiscripts => {
                Asking::ForTheBase
            }
            Kind::Munder | Kind::Mover | Kind::Munderover => Asking::AsLimits,
            Kind::Mroot | Kind::Mtr => Asking::Plainly,
            Kind::Mtable => Asking::AsTable,
            _ => Asking::AsRow,
        }
    }
}
