//! Why there is no result, and the line that reports it.
ghost use Rattle.std.specs.Prelude.{◌≡◌, ◌+◌, ◌<◌, ◌≤◌, [], ◌∷◌, ◌++◌, length};
ghost use Rattle.std.specs.Fmt.{decimal};
ghost use Rattle.std.specs.Fmt.InlineText.{inline_text};
ghost use Rattle.stark_commands.specs.Failure.{prove_text, reason_line, reason_text, refused_text};
ghost use Rattle.stark_commands.specs.Failure.{unsatisfied_text};

use crate::{check, prove, verify};
use circle_commands::Failure as Common;
use circle_json::JsonError;
use circle_stark::StarkProverError;
use std::alloc::AllocError;
use std::fmt::InlineText;
use std::{fmt, io};
use thiserror::Error;

/// More than the longest line of a refusal.
pub const LINE_LEN: usize = 128;

/// Why there is no result. Its text is the JSON that the program writes.
#[derive(Debug, Drop, Error)]
pub enum Failure {
    /// The input can't be read or memory was refused, as it may be with the commands of
    /// `circle_tool`.
    #[error("{0}")]
    Common(Common),
    /// The command refuses its input, for this reason.
    #[error("{0}")]
    Refused(Reason),
}

/// Why a command refuses its input.
#[derive(Debug, Drop)]
pub enum Reason {
    /// The command `check` does.
    Check(check::Refusal),
    /// The command `prove` does.
    Prove(prove::Refusal),
    /// The command `verify` does.
    Verify(verify::Refusal),
}

impl Reason {
    /// The refusal in JSON: its name, and of `Unsatisfied` the row and the constraint.
    pub fn text(&self) -> InlineText<LINE_LEN>
        ensures text { inline_text result ≡ reason_text self.now }
        ensures room { length (inline_text result) < 128 }
    {
        match self {
            Reason::Check(check::Refusal::Unsatisfied(violation)) => {
                unsatisfied(violation.constraint, violation.row)
            }
            Reason::Check(refusal) => refused(refusal.name()),
            Reason::Prove(refusal) => prove_text(refusal),
            Reason::Verify(refusal) => refused(refusal.name()),
        }
    }

    /// The line that the refusal is written as: its text and a newline.
    pub fn line(&self) -> InlineText<LINE_LEN>
        ensures { inline_text result ≡ reason_line self.now }
    {
        with(self.text(), "\n")
    }
}

/// The refusal's text.
impl fmt::Display for Reason {
    ghost use Rattle.std.specs.Prelude.{Some};
    ghost use Rattle.stark_commands.specs.Failure.{reason_text};

    ghost output = { λ reason. Some (reason_text reason) };

    fn fmt<W: fmt::Write>(&self, f: &mut fmt::Formatter<W>) -> fmt::Result {
        f.write_str(self.text().as_str())
    }
}

// The text of a refusal of `prove`.
fn prove_text(refusal: &prove::Refusal) -> InlineText<LINE_LEN>
    ensures text { inline_text result ≡ prove_text refusal.now }
    ensures room { length (inline_text result) < 128 }
{
    match refusal {
        prove::Refusal::Prover(StarkProverError::Unsatisfied { row, constraint }) => {
            unsatisfied(*constraint, *row)
        }
        refusal => refused(refusal.name()),
    }
}

// The text of an input that is refused.
fn refused(name: &str) -> InlineText<LINE_LEN>
    requires { length name.now ≤ 40 }
    ensures text { inline_text result ≡ refused_text name.now }
    ensures room { length (inline_text result) < 128 }
{
    with(
        with(with(InlineText::new(), "{\"refused\":\""), name),
        "\"}",
    )
}

// The text of a constraint that doesn't hold at a row.
fn unsatisfied(constraint: usize, row: usize) -> InlineText<LINE_LEN>
    ensures text { inline_text result ≡ unsatisfied_text constraint row }
    ensures room { length (inline_text result) < 128 }
{
    let begun = with_number(with(InlineText::new(), "{\"constraint\":"), constraint);
    let named = with_number(with(begun, ",\"refused\":\"Unsatisfied\",\"row\":"), row);
    with(named, "}")
}

// The text with another after it.
fn with(text: InlineText<LINE_LEN>, more: &str) -> InlineText<LINE_LEN>
    requires { length (inline_text text ++ more.now) ≤ 128 }
    ensures { inline_text result ≡ inline_text text ++ more.now }
{
    text.and_str(more, LINE_LEN)
}

/// The text with the decimal digits of a number after it.
///
/// Requires room for them.
pub(crate) fn with_number(text: InlineText<LINE_LEN>, number: usize) -> InlineText<LINE_LEN>
    requires { length (inline_text text ++ decimal number) ≤ 128 }
    ensures { inline_text result ≡ inline_text text ++ decimal number }
{
    if number < 10 {
        return with(text, digit(number));
    }
    with(with_number(text, number / 10), digit(number % 10))
}

// The digit of a number below ten.
fn digit(number: usize) -> &'static str
    requires { number < 10 }
    ensures { result.now ≡ (48 + number) ∷ [] }
{
    match number {
        0 => "0",
        1 => "1",
        2 => "2",
        3 => "3",
        4 => "4",
        5 => "5",
        6 => "6",
        7 => "7",
        8 => "8",
        _ => "9",
    }
}

/// A failure of the input, but where it is memory that is refused.
impl From<io::Error> for Failure {
    ghost use Rattle.circle_commands.specs.Failure.{failure_of_reading};
    ghost use Rattle.std.specs.IoError.{error_kind};
    ghost use Rattle.stark_commands.specs.declared.failure.Failure.TheVariants.{Common};

    ghost from_gives = { λ error failure. failure ≡ Common (failure_of_reading (error_kind error)) };

    fn from(error: io::Error) -> Failure {
        Failure::Common(Common::from(error))
    }
}

/// What the commands of `circle_tool` fail by too.
impl From<Common> for Failure {
    ghost use Rattle.stark_commands.specs.declared.failure.Failure.TheVariants.{Common};

    ghost from_gives = { λ error failure. failure ≡ Common error };

    fn from(error: Common) -> Failure {
        Failure::Common(error)
    }
}

/// JSON that isn't an input of the command, but where it is memory that is refused.
impl From<JsonError> for Failure {
    ghost use Rattle.stark_commands.specs.Failure.{IsFailureOfJson};

    ghost from_gives = { IsFailureOfJson };

    fn from(error: JsonError) -> Failure {
        Failure::Common(Common::from(error))
    }
}

impl From<check::Refusal> for Failure {
    ghost use Rattle.stark_commands.specs.Failure.{IsFailureOfRefusal};
    ghost use Rattle.stark_commands.specs.declared.check.Refusal.TheVariants.{Memory};
    ghost use Rattle.stark_commands.specs.declared.failure.Reason.TheVariants.{Check};

    ghost from_gives = { IsFailureOfRefusal Check Memory };

    fn from(refusal: check::Refusal) -> Failure {
        match refusal {
            check::Refusal::Memory => Failure::Common(Common::Memory),
            other => Failure::Refused(Reason::Check(other)),
        }
    }
}

impl From<prove::Refusal> for Failure {
    ghost use Rattle.stark_commands.specs.Failure.{IsFailureOfRefusal};
    ghost use Rattle.stark_commands.specs.declared.failure.Reason.TheVariants.{Prove};
    ghost use Rattle.stark_commands.specs.declared.prove.Refusal.TheVariants.{Memory};

    ghost from_gives = { IsFailureOfRefusal Prove Memory };

    fn from(refusal: prove::Refusal) -> Failure {
        match refusal {
            prove::Refusal::Memory => Failure::Common(Common::Memory),
            other => Failure::Refused(Reason::Prove(other)),
        }
    }
}

impl From<verify::Refusal> for Failure {
    ghost use Rattle.stark_commands.specs.Failure.{IsFailureOfRefusal};
    ghost use Rattle.stark_commands.specs.declared.failure.Reason.TheVariants.{Verify};
    ghost use Rattle.stark_commands.specs.declared.verify.Refusal.TheVariants.{Memory};

    ghost from_gives = { IsFailureOfRefusal Verify Memory };

    fn from(refusal: verify::Refusal) -> Failure {
        match refusal {
            verify::Refusal::Memory => Failure::Common(Common::Memory),
            other => Failure::Refused(Reason::Verify(other)),
        }
    }
}

impl From<AllocError> for Failure {
    ghost use Rattle.circle_commands.specs.declared.failure.Failure.TheVariants.{Memory};
    ghost use Rattle.stark_commands.specs.declared.failure.Failure.TheVariants.{Common};

    ghost from_gives = { λ _ failure. failure ≡ Common Memory };

    fn from(_refused: AllocError) -> Failure {
        Failure::Common(Common::Memory)
    }
}
