use doc_io::{ReadRefusal, SHORT_TEXT, ShortText};
use metrics_file::MetricsRefusal;
use std::alloc::{AllocError, AllocFailed};
use std::fmt::{self, Display, Formatter};

/// Why a line can't be read, or a case can't be carried out. It has its key by value, since each
/// `?` of an error that holds a reference takes twice as long to prove.
#[derive(Drop)]
pub enum Fault {
    NotText,
    NoForm,
    NotAName,
    NoFileAbove,
    NotARange,
    NoSuchLines,
    NotBytes,
    FileTooLong,
    UnknownFile,
    NotLoaded,
    UnknownKind,
    NotJson,
    WrongValue,
    MissingKey(ShortText),
    WrongType(ShortText),
    OutOfRange(ShortText),
    UnknownKey,
    NotMetrics,
    NotAnElement,
    Memory,
}

impl Fault {
    /// A key has no value.
    pub fn missing_key(key: &str) -> Fault {
        Fault::MissingKey(short(key))
    }

    /// The value of a key is of another type.
    pub fn wrong_type(key: &str) -> Fault {
        Fault::WrongType(short(key))
    }

    /// The value of a key is out of its range.
    pub fn out_of_range(key: &str) -> Fault {
        Fault::OutOfRange(short(key))
    }

    /// The key of whose value it is told.
    fn key(&self) -> Option<&str> {
        match self {
            Fault::MissingKey(key) | Fault::WrongType(key) | Fault::OutOfRange(key) => {
                Some(key.as_str())
            }
            _ => None,
        }
    }

    /// What is told, behind its key where it has one.
    fn words(&self) -> &'static str {
        match self {
            Fault::NotText => "it isn't UTF-8",
            Fault::NoForm => "it has no form of a line",
            Fault::NotAName => "a name has letters, digits, '_', '-' and '.'",
            Fault::NoFileAbove => "no file stands above to which it belongs",
            Fault::NotARange => "numbers are FROM..TO, and FROM isn't above TO",
            Fault::NoSuchLines => "the file doesn't have these lines",
            Fault::NotBytes => "bytes are pairs of hexadecimal digits with a space between",
            Fault::FileTooLong => "the file is too long",
            Fault::UnknownFile => "no file has this name",
            Fault::NotLoaded => "the file isn't in data/ or can't be read",
            Fault::UnknownKind => "no kind of case has this name",
            Fault::NotJson => "no JSON value follows its first word",
            Fault::WrongValue => "its value isn't of the right type",
            Fault::MissingKey(_) => "is missing",
            Fault::WrongType(_) => "has a value of another type",
            Fault::OutOfRange(_) => "has a value out of its range",
            Fault::UnknownKey => "a key is none of this kind's",
            Fault::NotMetrics => "the file isn't sound metrics",
            Fault::NotAnElement => "the value isn't a sound element",
            Fault::Memory => "memory was refused",
        }
    }
}

/// A key by value. Those of the kinds are short.
fn short(key: &str) -> ShortText {
    if key.len() <= SHORT_TEXT {
        ShortText::of(key)
    } else {
        ShortText::of("(long)")
    }
}

impl Display for Fault {
    fn fmt<W: fmt::Write>(&self, f: &mut Formatter<W>) -> fmt::Result {
        if let Some(key) = self.key() {
            write!(f, "the key '{key}' ")?;
        }
        f.write_str(self.words())
    }
}

impl From<AllocError> for Fault {
    fn from(_: AllocError) -> Self {
        Fault::Memory
    }
}

impl<T: Drop> From<AllocFailed<T>> for Fault {
    fn from(_: AllocFailed<T>) -> Self {
        Fault::Memory
    }
}

impl From<fixed_units::Memory> for Fault {
    fn from(_: fixed_units::Memory) -> Self {
        Fault::Memory
    }
}

impl From<serde_json::Error> for Fault {
    fn from(error: serde_json::Error) -> Self {
        if error.is_memory() {
            Fault::Memory
        } else {
            Fault::NotJson
        }
    }
}

impl From<ReadRefusal> for Fault {
    fn from(refusal: ReadRefusal) -> Self {
        match refusal {
            ReadRefusal::ReadFault => Fault::NotLoaded,
            ReadRefusal::TooLong => Fault::FileTooLong,
            ReadRefusal::Memory => Fault::Memory,
        }
    }
}

impl From<MetricsRefusal> for Fault {
    fn from(refusal: MetricsRefusal) -> Self {
        match refusal {
            MetricsRefusal::Fault(_) => Fault::NotMetrics,
            MetricsRefusal::Memory => Fault::Memory,
        }
    }
}
