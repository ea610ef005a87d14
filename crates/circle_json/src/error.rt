//! Why a JSON value stands for nothing.

ghost use Rattle.std.specs.Prelude.{◌≡◌};
ghost use Rattle.circle_json.specs.Named.{json_name};

use circle_commit::Named;
use std::alloc::AllocError;
use thiserror::Error;

/// Why a JSON value isn't of the form that is due.
#[derive(Clone, Copy, Debug, Drop, Error, PartialEq, Eq)]
pub enum JsonError {
    /// Memory was refused.
    #[error("Memory")]
    Memory,
    /// An object lacks a key.
    #[error("MissingKey")]
    MissingKey,
    /// An object has a further key.
    #[error("UnknownKey")]
    UnknownKey,
    /// The value is of another kind, as a text in place of a number, or an array of another length.
    #[error("WrongKind")]
    WrongKind,
    /// A whole number is negative or too large.
    #[error("OutOfRange")]
    OutOfRange,
    /// A text isn't made of hexadecimal digits, or of another number of them.
    #[error("BadHex")]
    BadHex,
}

/// The variant's name.
impl Named for JsonError {
    ghost name_of = { json_name };

    fn name(&self) -> &'static str {
        match self {
            JsonError::Memory => "Memory",
            JsonError::MissingKey => "MissingKey",
            JsonError::UnknownKey => "UnknownKey",
            JsonError::WrongKind => "WrongKind",
            JsonError::OutOfRange => "OutOfRange",
            JsonError::BadHex => "BadHex",
        }
    }
}

impl From<AllocError> for JsonError {
    ghost use Rattle.circle_json.specs.declared.error.JsonError.TheVariants.{Memory};

    ghost from_gives = { λ _ error. error ≡ Memory };

    fn from(_refused: AllocError) -> JsonError {
        JsonError::Memory
    }
}
