//! The line of one of two texts that can't be read.
ghost use Rattle.std.specs.Prelude.{◌≡◌, ◌≤◌, ◌++◌, length};
ghost use Rattle.std.specs.Fmt.InlineText.{inline_text};
ghost use Rattle.circle_commands.specs.Failure.{status_of};
ghost use Rattle.circle_c.specs.Line.{IsWritten};
ghost use Rattle.circle_c.specs.Statement.{failure_line, unread_line};

use crate::line::write;
use circle_commands::Failure;
use circle_commands::failure::LINE_LEN;
use circle_commit::Named;
use std::fmt::InlineText;

/// Why one of the texts of a statement and of a proof can't be read.
#[derive(Debug, Drop)]
pub(crate) enum Unread {
    /// That of the statement can't.
    OfStatement(Failure),
    /// That of the proof can't.
    OfProof(Failure),
}

impl Unread {
    ghost use Rattle.circle_commands.specs.Failure.{status_of};
    ghost use Rattle.circle_c.specs.Line.{IsWritten};
    ghost use Rattle.circle_c.specs.Statement.{failure_line, failure_of, name_of};

    /// Writes the line that reports it, and returns the status.
    pub(crate) fn refuse(&self, line: &mut [u8], needed: &mut usize) -> u8
        ensures status { result ≡ status_of (failure_of self.now) }
        ensures written { IsWritten (failure_line (name_of self.now) (failure_of self.now)) line.old
            line.new needed.new }
        ensures short { needed.new ≤ LINE_LEN }
    {
        match self {
            Unread::OfStatement(failure) => refuse("statement", failure, line, needed),
            Unread::OfProof(failure) => refuse("proof", failure, line, needed),
        }
    }
}

// Writes the line of a failure to read the text of this name, and returns the status.
fn refuse(text: &str, failure: &Failure, line: &mut [u8], needed: &mut usize) -> u8
    requires { length text.now ≤ 9 }
    ensures status { result ≡ status_of failure.now }
    ensures written { IsWritten (failure_line text.now failure.now) line.old line.new needed.new }
    ensures short { needed.new ≤ LINE_LEN }
{
    write(told(text, failure).as_str().as_bytes(), line, needed);
    failure.status()
}

// The line of a failure to read the text of this name.
fn told(text: &str, failure: &Failure) -> InlineText<LINE_LEN>
    requires { length text.now ≤ 9 }
    ensures { inline_text result ≡ failure_line text.now failure.now }
{
    match failure {
        Failure::Json => unreadable(text, "json"),
        Failure::Unfit(error) => unreadable(text, error.name()),
        other => other.line(),
    }
}

// The line of the text of this name, which can't be read for the reason of this name.
fn unreadable(text: &str, name: &str) -> InlineText<LINE_LEN>
    requires text { length text.now ≤ 9 }
    requires name { length name.now ≤ 20 }
    ensures { inline_text result ≡ unread_line text.now name.now }
{
    let begun = with(with(InlineText::new(), "{\"text\":\""), text);
    let named = with(with(begun, "\",\"unreadable\":\""), name);
    with(named, "\"}\n")
}

// The text with another after it.
fn with(text: InlineText<LINE_LEN>, more: &str) -> InlineText<LINE_LEN>
    requires { length (inline_text text ++ more.now) ≤ 64 }
    ensures { inline_text result ≡ inline_text text ++ more.now }
{
    text.and_str(more, LINE_LEN)
}
