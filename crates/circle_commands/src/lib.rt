//! The commands of `circle_tool` over circle domains, as functions of JSON texts.
//!
//! Each command is a module with the type of its input, `Input`, the reasons to refuse it,
//! `Refusal`, and the call that computes its result. `Input` implements the trait [`Command`], by
//! which [`command::answer`] turns a text's bytes into the line of the result, or a [`Failure`].
//! The program, [`run::run`], and the library for C rest on these. What is proved:
//!
//! - `command::answer` returns a line only where the text stands for an input of which the line is
//!   a result. It fails only where the text isn't JSON, where it is JSON that the input's form
//!   refuses for the named error, where there is the named reason to refuse the input, or when out
//!   of memory (`Answer.IsAnswer`). `command::answer_from` does so of a command that goes on from a
//!   caller's challenger, [`CommandFrom`].
//! - `run::run` reads its input to the end and writes the line that `answer` returns of it, with
//!   its status, unless reading fails or an allocation is refused (`values`, `prove`, `verify`,
//!   `shape`, by `Program.HasRun`). Where writing fails, it has written a front of the line that is
//!   due and nothing else, and returns 1 (`Program.IsWritten`). It reads nothing where the arguments
//!   name no command (`usage`, `unread`). The bytes are those that the contracts of the reader and
//!   the writer know.
//! - The line of a result is the compact text of one JSON value and a newline (`Text.IsJsonLine`,
//!   `Text.IsLineOf`).
//! - `Failure::line` is the line of each failure, with the refusal's name (`Failure.line_of`).
//! - `values`: the line is the text of the rows of `Input.values_of`; each refusal has its own
//!   condition (`Reasons.IsValueless`).
//! - `prove`: the line is a text of claims and a proof of which `Proved.IsProved` holds, and which
//!   `verify` accepts where each matrix has a point. Rows that don't fit are refused by the first
//!   reason, and the scheme's refusals are those that its calls promise (`Unproved.IsUnproved`).
//! - `verify`: the line is `{"verified":true}`, only where `Verified.IsVerified` holds. It refuses
//!   only where it doesn't hold, for a reason that the scheme has (`Verified.IsUnverified`).
//! - `prove_from` and `verify_from` do so from a caller's challenger, which has absorbed what both
//!   sides absorb before, and leave it in one state (`Proved.IsProvedFrom`,
//!   `Verified.IsVerifiedFrom`). What is refused of the rows or of a batch leaves it as it was
//!   (`Unproved.IsUnprovedFrom`).
//! - `commit`: the commitments are those to the input's batches (`Proved.AreCommitments`), which the
//!   claims of `prove_from` have too.
//! - `shape`: the line is the text of `Shape.shape_written`: the numbers, the layout's label,
//!   the seed's text and the number of steps of the input's shape.
//!
//! Its files:
//!
//! - In `specs/`: one file for each command's input; `Verified`, `Proved`, `Unproved`, `Proof` and
//!   `Traces`, what `verify`, `prove` and `commit` return and refuse; `Reasons`, the reasons of all
//!   commands; `Commands`, the commands by name; `Preset` and `Chosen`, what the schemes are to
//!   contracts at the one choice of types, named once so that no clause quotes an `impl`; `Forms`,
//!   how elements, digests and rows stand in JSON; `Named`, the names of refusals; `Failure`, lines
//!   and statuses; `Text`, what bytes stand for; `Answer`, what a command makes of them; `Program`,
//!   what a run reads and writes; `LineRows`, lines and fronts of them at worked examples;
//!   `Arguments`, `Commitments`, `Json`, `Rows`.
//! - In `proofs/`: what they need of lists, rows, batches, texts, of how deep JSON nests, and of
//!   what a writer holds.
#![tactic(auto)]

pub mod command;
pub mod commit;
mod commitments;
pub mod failure;
pub mod json;
mod preset;
pub mod prove;
pub mod run;
pub mod shape;
pub mod values;
pub mod verify;

pub use command::{Command, CommandFrom};
pub use failure::{Failure, Reason};
