ghost use Rattle.std.specs.Prelude.{◌≡◌};
ghost use Rattle.op_dictionary.specs.Dictionary.{is_default};

/// Where an operator stands among its operands: the `form` of MathML Core 3.2.4.
#[derive(Clone, Copy, Debug, PartialEq, Eq, Hash)]
pub enum Form {
    Prefix,
    Infix,
    Postfix,
}

/// A category of operators, which decides their properties (MathML Core, B.1).
#[derive(Clone, Copy, Debug, PartialEq, Eq)]
pub enum Category {
    /// What is in no other category.
    Default,
    /// Infix: arrows.
    A,
    /// Infix: sums and their kin.
    B,
    /// Infix: products and their kin.
    C,
    /// Prefix: signs and quantifiers.
    D,
    /// Postfix: factorial, primes and their kin.
    E,
    /// Prefix: opening fences.
    F,
    /// Postfix: closing fences.
    G,
    /// Prefix: integrals.
    H,
    /// Postfix: accents.
    I,
    /// Prefix: large operators with limits.
    J,
    /// Infix: invisible operators.
    K,
    /// Prefix: differentials.
    L,
    /// Infix: separators.
    M,
}

/// The axis along which an operator stretches (MathML Core, B.2).
#[derive(Clone, Copy, Debug, PartialEq, Eq)]
pub enum Axis {
    /// Upward and downward.
    Block,
    /// To the sides.
    Inline,
}

/// What a category says of its operators (MathML Core 3.2.4 and B.1).
#[derive(Clone, Copy, Debug, PartialEq, Eq)]
pub struct Properties {
    /// The space before the operator, in 18ths of its font size.
    pub lspace: u8,
    /// The space after the operator, in 18ths of its font size.
    pub rspace: u8,
    /// Whether it grows with its neighbours.
    pub stretchy: bool,
    /// Whether it grows equally above and below the axis of the formula.
    pub symmetric: bool,
    /// Whether it is drawn larger in display style.
    pub largeop: bool,
    /// Whether limits become scripts outside display style.
    pub movablelimits: bool,
}

impl Category {
    /// Whether this is `Default`.
    pub(crate) fn is_default(self) -> bool
        ensures { result ≡ is_default self }
    {
        matches!(self, Category::Default)
    }
}
