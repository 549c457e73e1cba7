// The tables, to be held beside MathML Core, Appendix B: a row for each category, by code points.
// Which characters are built in is an own choice.
ghost use Rattle.std.specs.Prelude.{◌≡◌};
ghost use Rattle.op_dictionary.specs.BuiltIn.{properties_of, is_inline};
ghost use Rattle.op_dictionary.specs.Dictionary.{built_in_category};

use crate::operator::{Category, Form, Properties};
use crate::text::OpText;

/// The category in which the built-in dictionary has a text in a form, else `Default` (MathML
/// Core, B.1).
#[tactic(auto, unfolding(crate::specs::Dictionary::built_in_category))]
pub fn built_in_category(text: OpText, form: Form) -> Category
    ensures { result ≡ built_in_category text form }
{
    let OpText::One(letter) = text else {
        return Category::Default;
    };
    match form {
        Form::Prefix => prefix_category(letter),
        Form::Infix => infix_category(letter),
        Form::Postfix => postfix_category(letter),
    }
}

#[rattlefmt::skip]
#[tactic(auto, unfolding(crate::specs::Dictionary::built_in_category))]
fn prefix_category(letter: char) -> Category
    ensures { result ≡ built_in_category (OpText.One letter) Form.Prefix }
{
    match letter {
        // factorial, plus, minus, not, plus-minus, quantifiers, nabla, minus signs
        '!' | '+' | '-' | '\u{00AC}' | '\u{00B1}' | '\u{2200}' | '\u{2203}' | '\u{2207}'
        | '\u{2212}' | '\u{2213}'                                                    => Category::D,
        // opening fences: parenthesis, brackets, bars, ceiling, floor, angle bracket
        '(' | '[' | '{' | '|' | '\u{2016}' | '\u{2308}' | '\u{230A}' | '\u{27E8}'    => Category::F,
        // integrals
        '\u{222B}'..='\u{2233}'                                                      => Category::H,
        // products and sum; logic and sets
        '\u{220F}'..='\u{2211}' | '\u{22C0}'..='\u{22C3}'                            => Category::J,
        // differentials
        '\u{2145}' | '\u{2146}' | '\u{2202}'                                         => Category::L,
        _ => Category::Default,
    }
}

#[rattlefmt::skip]
#[tactic(auto, unfolding(crate::specs::Dictionary::built_in_category))]
fn infix_category(letter: char) -> Category
    ensures { result ≡ built_in_category (OpText.One letter) Form.Infix }
{
    match letter {
        // arrows; double arrows
        '\u{2190}'..='\u{2195}' | '\u{21D0}'..='\u{21D5}'                            => Category::A,
        // plus, minus, slash, plus-minus, division, minus signs; logic and sets
        '+' | '-' | '/' | '\u{00B1}' | '\u{00F7}' | '\u{2212}' | '\u{2213}'
        | '\u{2227}'..='\u{222A}'                                                    => Category::B,
        // percent, asterisk, dot, times, asterisk, ring, dot
        '%' | '*' | '\u{00B7}' | '\u{00D7}' | '\u{2217}' | '\u{2218}' | '\u{22C5}'   => Category::C,
        // invisible: function application, times, separator, plus
        '\u{2061}'..='\u{2064}'                                                      => Category::K,
        // separators
        ',' | ':' | ';'                                                              => Category::M,
        _ => Category::Default,
    }
}

#[rattlefmt::skip]
#[tactic(auto, unfolding(crate::specs::Dictionary::built_in_category))]
fn postfix_category(letter: char) -> Category
    ensures { result ≡ built_in_category (OpText.One letter) Form.Postfix }
{
    match letter {
        // factorial, percent, apostrophe, degree, primes
        '!' | '%' | '\'' | '\u{00B0}' | '\u{2032}' | '\u{2033}'                      => Category::E,
        // closing fences: parenthesis, brackets, bars, ceiling, floor, angle bracket
        ')' | ']' | '|' | '}' | '\u{2016}' | '\u{2309}' | '\u{230B}' | '\u{27E9}'    => Category::G,
        // accents; brackets, parentheses and braces above and below
        '^' | '_' | '~' | '\u{00AF}' | '\u{02C6}' | '\u{02C7}' | '\u{02DC}' | '\u{203E}'
        | '\u{23B4}' | '\u{23B5}' | '\u{23DC}'..='\u{23DF}'                          => Category::I,
        _ => Category::Default,
    }
}

/// Whether a text stretches to the sides where no operator line says otherwise (MathML Core, B.2;
/// the list is own).
#[rattlefmt::skip]
pub fn is_inline(text: OpText) -> bool
    ensures { result ≡ is_inline text }
{
    let OpText::One(letter) = text else {
        return false;
    };
    match letter {
        // arrows and double arrows: left, right, both
        '\u{2190}' | '\u{2192}' | '\u{2194}' | '\u{21D0}' | '\u{21D2}' | '\u{21D4}'  => true,
        // those of category I
        '^' | '_' | '~' | '\u{00AF}' | '\u{02C6}' | '\u{02C7}' | '\u{02DC}' | '\u{203E}'
        | '\u{23B4}' | '\u{23B5}' | '\u{23DC}'..='\u{23DF}'                          => true,
        _ => false,
    }
}

// No space, and no behaviour of its own.
const PLAIN: Properties = Properties {
    lspace: 0,
    rspace: 0,
    stretchy: false,
    symmetric: false,
    largeop: false,
    movablelimits: false,
};

// A large operator.
const LARGE: Properties = Properties {
    lspace: 3,
    rspace: 3,
    symmetric: true,
    largeop: true,
    ..PLAIN
};

/// What a category says of its operators (MathML Core, B.1).
///
/// Spaces are 18ths of the font size: 5 for 0.2777em, 4 for 0.2222em, 3 for 0.1666em.
#[rattlefmt::skip]
#[tactic(auto, unfolding(crate::specs::BuiltIn::properties_of))]
pub fn properties(category: Category) -> Properties
    ensures { result ≡ properties_of category }
{
    match category {
        Category::Default => Properties { lspace: 5, rspace: 5, ..PLAIN },
        Category::A       => Properties { lspace: 5, rspace: 5, stretchy: true, ..PLAIN },
        Category::B       => Properties { lspace: 4, rspace: 4, ..PLAIN },
        Category::C       => Properties { lspace: 3, rspace: 3, ..PLAIN },
        Category::D       => PLAIN,
        Category::E       => PLAIN,
        Category::F       => Properties { stretchy: true, symmetric: true, ..PLAIN },
        Category::G       => Properties { stretchy: true, symmetric: true, ..PLAIN },
        Category::H       => LARGE,
        Category::I       => Properties { stretchy: true, ..PLAIN },
        Category::J       => Properties { movablelimits: true, ..LARGE },
        Category::K       => PLAIN,
        Category::L       => Properties { lspace: 3, ..PLAIN },
        Category::M       => Properties { rspace: 3, ..PLAIN },
    }
}
