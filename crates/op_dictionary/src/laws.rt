//! The laws of the dictionary.
ghost use Rattle.std.specs.Prelude.{◌≡◌, IsTrue, List};
ghost use Rattle.std.specs.List.{IsDistinct};
ghost use Rattle.op_dictionary.specs.BuiltIn.{categories, is_built_in, share};
ghost use Rattle.op_dictionary.specs.Dictionary.{own_category, IsEntry, AreDistinct};
ghost use Rattle.op_dictionary.specs.declared.extra.OperatorLine.{OperatorLine};
ghost use Rattle.op_dictionary.specs.declared.operator.Category.{Category};
ghost use Rattle.op_dictionary.specs.declared.operator.Form.{Form};
ghost use Rattle.op_dictionary.specs.declared.text.OpText.{OpText};

/// The built-in table has each character in each form in one category at most.
pub fn a_character_has_one_built_in_category()
    ensures table { (form : Form) → IsDistinct (share form) categories }
    ensures only { (text : OpText) (form : Form) (category other : Category) →
        IsTrue (is_built_in text form category) → IsTrue (is_built_in text form other) →
        category ≡ other }
{}

/// The dictionary is a set of triples in which each pair has one category at most, and that is
/// the pair's own category; where it has none, that is `Default`.
pub fn a_pair_has_one_category()
    ensures own { (lines : List OperatorLine) (text : OpText) (form : Form) (category : Category) →
        AreDistinct lines → IsEntry lines text form category →
        own_category text form lines ≡ category }
    ensures none { (lines : List OperatorLine) (text : OpText) (form : Form) →
        ((category : Category) → ¬ IsEntry lines text form category) →
        own_category text form lines ≡ Category.Default }
{}
