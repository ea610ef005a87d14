//! Why there is no result, and the line that reports it.
ghost use Rattle.std.specs.Prelude.{◌≡◌, ◌≤◌, ◌++◌, length};
ghost use Rattle.std.specs.Fmt.InlineText.{inline_text};
ghost use Rattle.circle_commands.specs.Failure.{line_of, refused_line, status_of, unreadable_line};
ghost use Rattle.circle_commands.specs.Named.{reason_name};

use crate::{prove, shape, values, verify};
use circle_commit::{FriError, Named};
use circle_json::JsonError;
use p3_circle::ProverError;
use serde_json::Error as TextError;
use std::alloc::AllocError;
use std::fmt::InlineText;
use std::io::ErrorKind;
use std::{fmt, io};
use thiserror::Error;

/// More than the longest line that a failure has.
pub const LINE_LEN: usize = 64;

/// Why there is no result. Its text is the JSON that the program writes.
#[derive(Debug, Drop, Error)]
pub enum Failure {
    /// The arguments aren't one command.
    #[error("{{\"unreadable\":\"usage\"}}")]
    Usage,
    /// Reading the input failed.
    #[error("{{\"unreadable\":\"input\"}}")]
    Input,
    /// The input isn't JSON.
    #[error("{{\"unreadable\":\"json\"}}")]
    Json,
    /// The JSON isn't an input of the command.
    #[error("{{\"unreadable\":\"{0}\"}}")]
    Unfit(JsonError),
    /// The command refuses its input, for this reason.
    #[error("{{\"refused\":\"{0}\"}}")]
    Refused(Reason),
    /// An allocation was refused.
    #[error("{{\"refused\":\"Memory\"}}")]
    Memory,
}

impl Failure {
    /// The status of a program that ends with this line: 2 where the input can't be read, 1 where
    /// it is refused.
    pub fn status(&self) -> u8
        ensures { result ≡ status_of self.now }
    {
        match self {
            Failure::Usage | Failure::Input | Failure::Json | Failure::Unfit(_) => 2,
            Failure::Refused(_) | Failure::Memory => 1,
        }
    }

    /// The line that the failure is written as: its text and a newline.
    pub fn line(&self) -> InlineText<LINE_LEN>
        ensures { inline_text result ≡ line_of self.now }
    {
        match self {
            Failure::Usage => unreadable("usage"),
            Failure::Input => unreadable("input"),
            Failure::Json => unreadable("json"),
            Failure::Unfit(error) => unreadable(error.name()),
            Failure::Refused(reason) => refused(reason.name()),
            Failure::Memory => refused("Memory"),
        }
    }
}

// The line of an input that can't be read.
fn unreadable(name: &str) -> InlineText<LINE_LEN>
    requires { length name.now ≤ 40 }
    ensures { inline_text result ≡ unreadable_line name.now }
{
    with(
        with(with(InlineText::new(), "{\"unreadable\":\""), name),
        "\"}\n",
    )
}

// The line of an input that is refused.
fn refused(name: &str) -> InlineText<LINE_LEN>
    requires { length name.now ≤ 40 }
    ensures { inline_text result ≡ refused_line name.now }
{
    with(
        with(with(InlineText::new(), "{\"refused\":\""), name),
        "\"}\n",
    )
}

// The text with another after it.
fn with(text: InlineText<LINE_LEN>, more: &str) -> InlineText<LINE_LEN>
    requires { length (inline_text text ++ more.now) ≤ 64 }
    ensures { inline_text result ≡ inline_text text ++ more.now }
{
    text.and_str(more, LINE_LEN)
}

/// Why a command refuses its input.
#[derive(Debug, Drop)]
pub enum Reason {
    /// The command `values` does.
    Values(values::Refusal),
    /// The command `prove` does.
    Prove(prove::Refusal),
    /// The command `verify` does.
    Verify(verify::Refusal),
    /// The command `shape` does.
    Shape(shape::Refusal),
    /// The parameters aren't those that the verifier requires.
    ParametersDiffer,
}

impl Reason {
    /// The name of the refusal.
    pub fn name(&self) -> &'static str
        ensures { result.now ≡ reason_name self.now }
    {
        match self {
            Reason::Values(refusal) => refusal.name(),
            Reason::Prove(refusal) => refusal.name(),
            Reason::Verify(refusal) => refusal.name(),
            Reason::Shape(refusal) => refusal.name(),
            Reason::ParametersDiffer => "ParametersDiffer",
        }
    }
}

/// The refusal's name.
impl fmt::Display for Reason {
    ghost use Rattle.std.specs.Prelude.{Some};
    ghost use Rattle.circle_commands.specs.Named.{reason_name};

    ghost output = { λ reason. Some (reason_name reason) };

    fn fmt<W: fmt::Write>(&self, f: &mut fmt::Formatter<W>) -> fmt::Result {
        f.write_str(self.name())
    }
}

/// `Input`, but `Memory` where the reader is out of memory.
impl From<io::Error> for Failure {
    ghost use Rattle.circle_commands.specs.Failure.{failure_of_reading};
    ghost use Rattle.std.specs.IoError.{error_kind};

    ghost from_gives = { λ error failure. failure ≡ failure_of_reading (error_kind error) };

    fn from(error: io::Error) -> Failure {
        match error.kind() {
            ErrorKind::OutOfMemory => Failure::Memory,
            _ => Failure::Input,
        }
    }
}

/// `Json`, but `Memory` where the parser is out of memory.
impl From<TextError> for Failure {
    ghost use Rattle.circle_commands.specs.Failure.{IsFailureOfText};

    ghost from_gives = { IsFailureOfText };

    fn from(error: TextError) -> Failure {
        if error.is_memory() {
            Failure::Memory
        } else {
            Failure::Json
        }
    }
}

/// `Unfit`, but `Memory` where the reading of the value is out of memory.
impl From<JsonError> for Failure {
    ghost use Rattle.circle_commands.specs.Failure.{IsFailureOfJson};

    ghost from_gives = { IsFailureOfJson };

    fn from(error: JsonError) -> Failure {
        match error {
            JsonError::Memory => Failure::Memory,
            unfit => Failure::Unfit(unfit),
        }
    }
}

impl From<values::Refusal> for Failure {
    ghost use Rattle.circle_commands.specs.Failure.{IsFailureOfRefusal};
    ghost use Rattle.circle_commands.specs.declared.failure.Reason.TheVariants.{Values};
    ghost use Rattle.circle_commands.specs.declared.values.Refusal.TheVariants.{Memory};

    ghost from_gives = { IsFailureOfRefusal Values Memory };

    fn from(refusal: values::Refusal) -> Failure {
        match refusal {
            values::Refusal::Memory => Failure::Memory,
            other => Failure::Refused(Reason::Values(other)),
        }
    }
}

impl From<prove::Refusal> for Failure {
    ghost use Rattle.circle_commands.specs.Failure.{IsFailureOfRefusal};
    ghost use Rattle.circle_commands.specs.declared.failure.Reason.TheVariants.{Prove};
    ghost use Rattle.circle_commands.specs.declared.prove.Refusal.TheVariants.{Prover};
    ghost use Rattle.circle_relation.specs.declared.error.ProverError.TheVariants.{Memory};

    ghost from_gives = { IsFailureOfRefusal Prove (Prover Memory) };

    fn from(refusal: prove::Refusal) -> Failure {
        match refusal {
            prove::Refusal::Prover(ProverError::Memory) => Failure::Memory,
            other => Failure::Refused(Reason::Prove(other)),
        }
    }
}

impl From<verify::Refusal> for Failure {
    ghost use Rattle.circle_commands.specs.Failure.{IsFailureOfRefusal};
    ghost use Rattle.circle_commands.specs.declared.failure.Reason.TheVariants.{Verify};
    ghost use Rattle.circle_commit.specs.declared.error.FriError.TheVariants.{Memory};

    ghost from_gives = { IsFailureOfRefusal Verify Memory };

    fn from(refusal: verify::Refusal) -> Failure {
        match refusal {
            FriError::Memory => Failure::Memory,
            other => Failure::Refused(Reason::Verify(other)),
        }
    }
}

impl From<shape::Refusal> for Failure {
    ghost use Rattle.circle_commands.specs.declared.failure.Failure.TheVariants.{Refused};
    ghost use Rattle.circle_commands.specs.declared.failure.Reason.TheVariants.{Shape};

    ghost from_gives = { λ refusal failure. failure ≡ Refused (Shape refusal) };

    fn from(refusal: shape::Refusal) -> Failure {
        Failure::Refused(Reason::Shape(refusal))
    }
}

impl From<AllocError> for Failure {
    ghost use Rattle.circle_commands.specs.declared.failure.Failure.TheVariants.{Memory};

    ghost from_gives = { λ _ failure. failure ≡ Memory };

    fn from(_refused: AllocError) -> Failure {
        Failure::Memory
    }
}
