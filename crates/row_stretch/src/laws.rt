//! What holds of all rows.
//!
//! A law is proved where it is a contract, so each function here has one and computes nothing.
ghost use Rattle.std.specs.Prelude.{◌≡◌, ℕ, ◌+◌, ◌<◌, Bool, List, length};
ghost use Rattle.fixed_units.specs.declared.boxes.MathBox.{MathBox};
ghost use Rattle.fixed_units.specs.declared.pull.Pull.{Pull};
ghost use Rattle.fixed_units.specs.declared.pull.Pull.TheVariants.{Free};
ghost use Rattle.row_stretch.specs.declared.parts.KidPull.{KidPull};
ghost use Rattle.row_stretch.specs.declared.parts.RowKid.{RowKid};
ghost use Rattle.row_stretch.specs.Equation.{row_of};
ghost use Rattle.row_stretch.specs.Laws.{IsPulled, AllStretch, asked, StandSideBySide};
ghost use Rattle.row_stretch.specs.Questions.{first_asks_of, second_asks_of};

/// Under a pull, and where some child doesn't stretch upward and downward, each child is asked once
/// in both waves together. Where all stretch and nothing pulls them, each is asked once in each
/// wave.
pub fn each_child_is_asked()
    ensures once { (kids : List KidPull) (own : Pull) (first : List MathBox) (place : ℕ) →
        place < length kids → IsPulled own →
        asked place (first_asks_of kids own) + asked place (second_asks_of kids own first) ≡ 1 }
    ensures some { (kids : List KidPull) (first : List MathBox) (place : ℕ) →
        place < length kids → ¬ (AllStretch kids) →
        asked place (first_asks_of kids Free) + asked place (second_asks_of kids Free first) ≡ 1 }
    ensures all { (kids : List KidPull) (first : List MathBox) (place : ℕ) →
        place < length kids → AllStretch kids →
        (asked place (first_asks_of kids Free) ≡ 1)
        × (asked place (second_asks_of kids Free first) ≡ 1) }
{}

/// The children of a row stand side by side, each behind all before it, and the row is as wide as
/// its parts together.
pub fn children_stand_side_by_side()
    ensures { (spaces : Bool) (kids : List RowKid)
        → StandSideBySide spaces kids (row_of spaces kids) }
{}
