//! The commands of `stark_tool` over constraints on a trace and proofs that rows satisfy them, as
//! functions of JSON texts.
//!
//! A command is a module with the type of its input, `Input`, the reasons to refuse it, `Refusal`,
//! and the call that computes its result. `Input` implements the trait [`Command`], by which
//! [`command::answer`] turns a text's bytes into the line of the result, or a [`Failure`]. What
//! these have in common with the commands of `circle_tool` is that crate's: reading a text, lines
//! of what can't be read, writing. What is proved:
//!
//! - `command::answer` returns a line only where the text stands for an input of which the line is
//!   a result. It fails only where the text isn't JSON, where it is JSON that the input's form
//!   refuses for the named error, where there is the named reason to refuse the input, or when out
//!   of memory (`Answer.IsAnswer`).
//! - `run::run` reads its input to the end and writes the line that `answer` returns of it, with
//!   its status, unless reading fails or an allocation is refused (`check`, `prove`, `verify`, by
//!   `Program.HasRun`). Where writing fails, it has written a front of the line that is due and
//!   nothing else, and returns 1. It reads nothing where the arguments name no command (`usage`,
//!   `unread`).
//! - `check`: the line is `{"satisfied":true}`, only where the AIR is accepted and the rows satisfy
//!   it (`Check.IsSatisfied`). Each refusal has its own condition, and `Unsatisfied` names the
//!   first row and its first constraint that fail (`Check.IsUnsatisfied`).
//! - `prove`: the line is an input of `verify`, with this AIR, these parameters and public values,
//!   and the logarithm of the number of rows. It is written only where the rows satisfy the AIR,
//!   with a proof of which `StarkAccepts` holds (`Proved.IsProved`). Each refusal has its own
//!   condition (`Proved.IsUnproved`).
//! - `verify`: the line has the AIR's digest and `"verified":true`, and is written only where the
//!   AIR is accepted and the relation `StarkAccepts` holds (`Verified.IsVerified`). It refuses only
//!   where these don't hold, for a reason that `circle_stark` has (`Reasons.IsVerifyRefusal`).
//! - `prove_from`, `verify_from` and `command::answer_from` do so from a caller's challenger, which
//!   prover and verifier leave in one state (`Proved.IsProvedFrom`, `Verified.IsVerifiedFrom`). An
//!   AIR that is refused leaves it as it was, and so do rows that are.
//!
//! Its files:
//!
//! - In `src/`, `check.rt`, `prove.rt`, `verify.rt`: the commands. `command.rt`, `failure.rt`,
//!   `names.rt`, `run.rt`: what commands have in common, and the program. `preset.rt`: what
//!   contracts alone say of the choice of types.
//! - In `specs/`, `Check`: the input, result and refusals of `check`. `Prove`, `Proved`: those of
//!   `prove`. `Verify`, `Verified`: the input and the result of `verify`. `Reasons`: why each
//!   command refuses. `Commands`: the commands by name. `Preset`, `Chosen`: why proofs are refused
//!   or not made at the one choice of types, named once. `Forms`, `Options`: the forms of an AIR, of
//!   a proof and of what may be missing. `Named`, `Refused`: the names of refusals, and what the
//!   libraries' errors become. `Failure`, `Answer`, `Arguments`, `Program`: lines and statuses, what
//!   a command makes of a text, the names of commands, what a run reads and writes.
//! - In `proofs/`: what they need of texts, of rows, and of what the prover and the verifier are
//!   handed.
#![tactic(auto)]

pub mod check;
pub mod command;
pub mod failure;
mod names;
mod preset;
pub mod prove;
pub mod run;
pub mod verify;

pub use command::{Command, CommandFrom};
pub use failure::{Failure, Reason};
