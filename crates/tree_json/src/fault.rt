ghost use Rattle.std.specs.Prelude.{◌≡◌};
ghost use Rattle.tree_json.specs.Faults.{number_of};

/// The first faulty element of a value.
#[derive(Clone, Copy, Debug, PartialEq, Eq)]
pub struct TreeFault {
    /// Its place in document order, from 1.
    pub element: u32,
    /// The number of its first fault.
    pub kind: u8,
}

/// What may be wrong with an element.
#[derive(Clone, Copy, Debug, PartialEq, Eq)]
pub enum ElementFault {
    /// The value isn't an object.
    NotAnObject,
    /// `name` is missing, isn't a text, or isn't in the form of a name.
    BadName,
    /// The first element isn't `math`.
    NotMath,
    /// A key isn't `name`, `attributes`, `children` or `text`.
    UnknownKey,
    /// `attributes` isn't an object of texts, a name isn't in its form, or a value is too long.
    BadAttributes,
    /// `text` isn't a text, is too long, or isn't white space alone on an element that isn't a
    /// text element.
    BadText,
    /// `children` isn't an array, or isn't empty on a text element.
    BadChildren,
    /// The element is below the last level.
    TooDeep,
    /// The element is one more than a tree may have.
    TooMany,
    /// The names, attribute names, values and texts up to this element have too many bytes.
    TooLong,
}

impl ElementFault {
    /// The number under which the fault is told.
    pub fn number(self) -> u8
        ensures { result ≡ number_of self }
    {
        match self {
            ElementFault::NotAnObject => 1,
            ElementFault::BadName => 2,
            ElementFault::NotMath => 3,
            ElementFault::UnknownKey => 4,
            ElementFault::BadAttributes => 5,
            ElementFault::BadText => 6,
            ElementFault::BadChildren => 7,
            ElementFault::TooDeep => 8,
            ElementFault::TooMany => 9,
            ElementFault::TooLong => 11,
        }
    }
}
