//! The laws of numbers and boxes that layout rests on.
//!
//! A law is proved where it is a contract, so each function here has one and computes nothing.
//! Proofs cite the lemmas themselves: `proofs/Signed` for `omega`, `proofs/Within` for bounds of
//! numbers and `proofs/Unions` for those of boxes, `proofs/Products`, `proofs/Rounding` and
//! `proofs/Sums`.
ghost use Rattle.std.specs.Prelude.{◌≡◌, ◌↔◌, ℕ, ◌+◌, ◌*◌, ◌^◌, ◌<◌, max, ℤ, pos, ◌+ℤ◌, ◌-ℤ◌, ◌*ℤ◌, ◌≤ℤ◌, ◌<ℤ◌, FitsSigned, List, ◌∷◌, length, slice_get, Some, true};
ghost use Rattle.std.specs.Int.{w64, w128, int_max, int_min, int_div_euclid};
ghost use Rattle.std.specs.List.{All};
ghost use Rattle.fixed_units.specs.Boxes.{is_box_stored, IsStored, IsBoxWithin, raised, joined, all_joined, IsUnion};
ghost use Rattle.fixed_units.specs.Numbers.{IsRound, IsHalf, IsWithin, rounded, halved};
ghost use Rattle.fixed_units.specs.Sums.{sum_to, list_to};
ghost use Rattle.fixed_units.specs.declared.boxes.MathBox.{MathBox};

/// `rounded a b` is nearest to `a / b`, and no other number is.
pub fn rounded_is_the_nearest()
    ensures { (a b n : ℤ) → pos 0 <ℤ b → IsRound a b n ↔ (n ≡ rounded a b) }
{}

/// `halved n` is half of `n` rounded down, and no other number is.
pub fn halved_is_the_half()
    ensures { (n h : ℤ) → IsHalf n h ↔ (h ≡ halved n) }
{}

/// The Euclidean quotient by a positive divisor is the quotient rounded down, and no other number
/// is.
pub fn quotients_are_rounded_down()
    ensures { (a b q : ℤ) → pos 0 <ℤ b →
        (((q *ℤ b) ≤ℤ a) × (a <ℤ (q *ℤ b +ℤ b))) ↔ (q ≡ int_div_euclid a b) }
{}

/// Rounding keeps order, and a quotient that is whole.
pub fn rounding_keeps_order()
    ensures rounded { (m n k : ℤ) → pos 0 <ℤ k → m ≤ℤ n → rounded m k ≤ℤ rounded n k }
    ensures halved { (m n : ℤ) → m ≤ℤ n → halved m ≤ℤ halved n }
    ensures whole { (n k : ℤ) → pos 0 <ℤ k → rounded (n *ℤ k) k ≡ n }
{}

/// Products distribute over sums and differences, and associate.
pub fn products_distribute()
    ensures sum { (k m n : ℤ) → k *ℤ (m +ℤ n) ≡ k *ℤ m +ℤ k *ℤ n }
    ensures difference { (k m n : ℤ) → k *ℤ (m -ℤ n) ≡ k *ℤ m -ℤ k *ℤ n }
    ensures associate { (k m n : ℤ) → k *ℤ m *ℤ n ≡ k *ℤ (m *ℤ n) }
{}

/// A positive factor keeps the order of two numbers and gives it back.
pub fn products_keep_order()
    ensures at_most { (m n k : ℤ) → pos 0 <ℤ k → (m ≤ℤ n) ↔ ((m *ℤ k) ≤ℤ (n *ℤ k)) }
    ensures below { (m n k : ℤ) → pos 0 <ℤ k → (m <ℤ n) ↔ ((m *ℤ k) <ℤ (n *ℤ k)) }
{}

/// How far a result reaches, from how far its parts reach.
pub fn results_stay_within()
    ensures sum { (m n : ℕ) (a b : ℤ) →
        IsWithin m a → IsWithin n b → IsWithin (m + n) (a +ℤ b) }
    ensures difference { (m n : ℕ) (a b : ℤ) →
        IsWithin m a → IsWithin n b → IsWithin (m + n) (a -ℤ b) }
    ensures product { (m n : ℕ) (a b : ℤ) →
        IsWithin m a → IsWithin n b → IsWithin (m * n) (a *ℤ b) }
    ensures larger { (m n : ℕ) (a b : ℤ) →
        IsWithin m a → IsWithin n b → IsWithin (max m n) (int_max a b) }
    ensures smaller { (m n : ℕ) (a b : ℤ) →
        IsWithin m a → IsWithin n b → IsWithin (max m n) (int_min a b) }
    ensures halved { (m : ℕ) (a : ℤ) → IsWithin m a → IsWithin m (halved a) }
    ensures rounded { (m : ℕ) (a b : ℤ) → pos 0 <ℤ b → IsWithin m a → IsWithin m (rounded a b) }
{}

/// What reaches less far than a type's range fits the type.
pub fn what_is_within_fits()
    ensures fits_i64 { (m : ℕ) (a : ℤ) → IsWithin m a → m < 2 ^ 63 → FitsSigned w64 a }
    ensures fits_i128 { (m : ℕ) (a : ℤ) → IsWithin m a → m < 2 ^ 127 → FitsSigned w128 a }
{}

/// What stands behind the first `n` of something is a sum over places. A sum of `n` numbers within
/// `m` lies within `n * m`, and the sum of two is the sum of their sums.
pub fn sums_over_places()
    ensures one_more { (n : ℕ) (f : ℕ → ℤ) → sum_to (n + 1) f ≡ sum_to n f +ℤ f n }
    ensures within { (m n : ℕ) (f : ℕ → ℤ) →
        ((i : ℕ) → i < n → IsWithin m (f i)) → IsWithin (n * m) (sum_to n f) }
    ensures sum { (n : ℕ) (f g : ℕ → ℤ) →
        sum_to n (λ i. f i +ℤ g i) ≡ sum_to n f +ℤ sum_to n g }
{}

/// A list over `n` places has `n` items, each that of its place.
pub fn lists_over_places<T>()
    ensures length { (n : ℕ) (f : ℕ → T) → length (list_to n f) ≡ n }
    ensures item { (n i : ℕ) (f : ℕ → T) → i < n → slice_get (list_to n f) i ≡ Some (f i) }
{}

/// Joined boxes reach up and down as far as the farthest of them, and no farther.
pub fn joined_boxes_are_a_union()
    ensures { (frame : MathBox) (frames : List MathBox) →
        IsUnion (frame ∷ frames) (all_joined (frame ∷ frames)) }
{}

/// How far boxes reach that are raised and joined, and that a box is stored where its test says so.
pub fn boxes_stay_within()
    ensures raised { (m n : ℕ) (part : MathBox) (height : ℤ) →
        IsBoxWithin m part → IsWithin n height → IsBoxWithin (m + n) (raised part height) }
    ensures joined { (m n : ℕ) (first second : MathBox) →
        IsBoxWithin m first → IsBoxWithin n second → IsBoxWithin (max m n) (joined first second) }
    ensures all_joined { (m : ℕ) (frames : List MathBox) →
        All (IsBoxWithin m) frames → IsBoxWithin m (all_joined frames) }
    ensures stored { (frame : MathBox) → (is_box_stored frame ≡ true) ↔ IsStored frame }
{}
