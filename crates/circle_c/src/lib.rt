//! The commands of `circle_commands` and `stark_commands`, as a static library for C and what calls
//! C.
//!
//! Each export takes the bytes of a JSON text, a line to write to and a place for a length. It
//! returns the status that the program `circle_tool` or `stark_tool` ends with, and writes the line
//! that it writes, where that fits. `bindings/c/circle.h` declares them for C. No export requires
//! anything of its caller beyond its types, and each returns. What is proved of every export, by the
//! clauses:
//!
//! - `status`: the status of a command is 0, 1 or 2.
//! - Status 0 (`rows`, `shape`, `commitments`, `proved`, `accepted`, `satisfied`): the text stands for an input of
//!   the command, and the line is a result of that input, as `is_result` of the command has it: of
//!   `values` the JSON text of the polynomials' values, of `shape` that of the shape, of `prove`
//!   claims with a proof that is accepted where each matrix has a point, and of `verify`
//!   `{"verified":true}`, where the relation holds of the input (`Verified.IsVerified`). Over
//!   constraints it is of `check` `{"satisfied":true}`, where the rows satisfy the AIR, and of
//!   `prove` an input of `verify` of which the relation holds.
//! - Status 1 (`refused`): the line is `{"refused":"Memory"}`, or that of a reason to refuse the
//!   input that the text stands for, as `is_reason` of the command has it.
//! - Status 2 (`unreadable`): the line is `{"unreadable":"json"}` and the text isn't JSON, or the
//!   line is that of why the JSON stands for no input.
//! - `short`: the line of a refusal, and each line of a verifier and of a check, has at most
//!   `LINE_LEN` bytes, of `circle_commands` or of `stark_commands`.
//!
//! A line is written so: its length is reported whatever it is; it stands at the start of the
//! caller's line where it fits, and else the caller's line is as it was (`Line.IsWritten`).
//!
//! `circle_verify_with` returns 0 only for claims that have the caller's parameters. Its reason is
//! `ParametersDiffer` exactly where they have others, and a reason of `verify` only where they have
//! these (`With.IsReasonWith`).
//!
//! `circle_stark_verify` takes a statement in one text, which is the caller's own, and a proof in
//! another. They stand for an input of the command `verify` of `stark_commands`: the one for its AIR,
//! number of rows, parameters and public values, the other for its proof (`Statement.AreTextsOf`).
//! It returns 0 only where the relation holds of that input, and 1 only for a reason to refuse it or
//! want of memory. Status 2 says which of the texts can't be read, `{"text":"statement",..}` or
//! `{"text":"proof",..}`, and why; it is the proof's only where the other stands for a statement.
//!
//! The calls whose names end in `_from` go on from a challenger of the caller's own, which
//! `circle_challenger_observe` and `_observe_element` have absorb and `_sample` has draw. It is left
//! as the command leaves it where the status is 0, and of a prover only where the line fits too; else
//! it is as it was (`state`). `circle_commit` writes the commitments that claims are about.
//!
//! A null pointer beside a length of 0 is an empty text or line. No clause says so, since no slice
//! has a null pointer here: the compiler passes the export a valid address instead. The scripts that
//! call the built library test it.
//!
//! Its files:
//!
//! - In `src/`, `challenger.rt`: the caller's challenger, what it absorbs and draws. `line.rt`: a
//!   command's result, and what is written of it. `with.rt`: the verifier's result by the caller's
//!   parameters. `params.rt`: these. `stark.rt`: the exports over constraints. `stark_line.rt`: what
//!   is written of their commands. `statement.rt`: the caller's statement, read and verified with a
//!   proof. `unread.rt`: the line of one of two texts that can't be read.
//! - In `specs/`: `Line`, what is written; `Challenger`, how the caller's challenger is left; `Params`
//!   and `With`, the parameters and what a verifier returns by them; `Statement`, the texts of a
//!   statement and a proof, and what is written of them.
//! - In `proofs/`: what is written of an answer, by its status.
#![tactic(auto)]

ghost use Rattle.std.specs.Prelude.{◌≡◌, ◌≤◌, length};
ghost use Rattle.circle_commands.specs.Commands.{commit, prove, prove_from, shape, values, verify};
ghost use Rattle.circle_c.specs.Challenger.{IsReasonFrom};
ghost use Rattle.circle_c.specs.Line.{WritesRefusal, WritesResult, WritesResultFrom};
ghost use Rattle.circle_c.specs.Line.{WritesUnreadable};
ghost use Rattle.circle_c.specs.Params.{HasNumbers};
ghost use Rattle.circle_c.specs.With.{IsReasonWith, IsResultWith, IsUnverifiedWith};
ghost use Rattle.circle_c.specs.With.{IsVerifiedWith};

mod challenger;
mod line;
mod params;
mod stark;
mod stark_line;
mod statement;
mod unread;
mod with;

pub use challenger::{
    CircleChallenger, circle_challenger_observe, circle_challenger_observe_element,
    circle_challenger_sample,
};
use circle_commands::failure::LINE_LEN;
use circle_commands::{commit, prove, shape, values, verify};
pub use params::CircleParams;
pub use stark::{
    circle_stark_check, circle_stark_prove, circle_stark_prove_from, circle_stark_verify,
    circle_stark_verify_from,
};
use std::alloc::Global;

/// The values of polynomials on a domain, as the program's command `values` writes them.
#[unsafe(no_mangle)]
pub extern "C" fn circle_values(
    alloc: Global,
    text: &[u8],
    line: &mut [u8],
    needed: &mut usize,
) -> u8
    ensures status { result ≤ 2 }
    ensures rows { result ≡ 0
        → WritesResult values.form text.now line.old line.new needed.new values.is_result }
    ensures refused { result ≡ 1
        → WritesRefusal values.form text.now line.old line.new needed.new values.is_reason }
    ensures unreadable { result ≡ 2
        → WritesUnreadable values.form text.now line.old line.new needed.new }
    ensures short { ¬ (result ≡ 0) → needed.new ≤ LINE_LEN }
{
    line::call::<values::Input>(alloc, text, line, needed)
}

/// The shape of claims, as the program's command `shape` writes it.
#[unsafe(no_mangle)]
pub extern "C" fn circle_shape(
    alloc: Global,
    text: &[u8],
    line: &mut [u8],
    needed: &mut usize,
) -> u8
    ensures status { result ≤ 2 }
    ensures shape { result ≡ 0
        → WritesResult shape.form text.now line.old line.new needed.new shape.is_result }
    ensures refused { result ≡ 1
        → WritesRefusal shape.form text.now line.old line.new needed.new shape.is_reason }
    ensures unreadable { result ≡ 2
        → WritesUnreadable shape.form text.now line.old line.new needed.new }
    ensures short { ¬ (result ≡ 0) → needed.new ≤ LINE_LEN }
{
    line::call::<shape::Input>(alloc, text, line, needed)
}

/// Claims with their proof, as the program's command `prove` writes them.
#[unsafe(no_mangle)]
pub extern "C" fn circle_prove(
    alloc: Global,
    text: &[u8],
    line: &mut [u8],
    needed: &mut usize,
) -> u8
    ensures status { result ≤ 2 }
    ensures proved { result ≡ 0
        → WritesResult prove.form text.now line.old line.new needed.new prove.is_result }
    ensures refused { result ≡ 1
        → WritesRefusal prove.form text.now line.old line.new needed.new prove.is_reason }
    ensures unreadable { result ≡ 2
        → WritesUnreadable prove.form text.now line.old line.new needed.new }
    ensures short { ¬ (result ≡ 0) → needed.new ≤ LINE_LEN }
{
    line::call::<prove::Input>(alloc, text, line, needed)
}

/// Whether a proof shows the claims beside it, as the program's command `verify` writes it.
#[unsafe(no_mangle)]
pub extern "C" fn circle_verify(
    alloc: Global,
    text: &[u8],
    line: &mut [u8],
    needed: &mut usize,
) -> u8
    ensures status { result ≤ 2 }
    ensures accepted { result ≡ 0
        → WritesResult verify.form text.now line.old line.new needed.new verify.is_result }
    ensures refused { result ≡ 1
        → WritesRefusal verify.form text.now line.old line.new needed.new verify.is_reason }
    ensures unreadable { result ≡ 2
        → WritesUnreadable verify.form text.now line.old line.new needed.new }
    ensures short { needed.new ≤ LINE_LEN }
{
    line::call::<verify::Input>(alloc, text, line, needed)
}

/// As [`circle_verify`] where the text's parameters are `params`, else the status is 1 and the
/// refusal's name `ParametersDiffer`.
#[unsafe(no_mangle)]
pub extern "C" fn circle_verify_with(
    alloc: Global,
    text: &[u8],
    params: &CircleParams,
    line: &mut [u8],
    needed: &mut usize,
) -> u8
    ensures status { result ≤ 2 }
    ensures accepted { result ≡ 0 → WritesResult verify.form text.now line.old line.new
        needed.new (IsResultWith (HasNumbers params.now) verify.is_result) }
    ensures refused { result ≡ 1 → WritesRefusal verify.form text.now line.old line.new
        needed.new (IsReasonWith (HasNumbers params.now) verify.is_reason) }
    ensures unreadable { result ≡ 2
        → WritesUnreadable verify.form text.now line.old line.new needed.new }
    ensures short { needed.new ≤ LINE_LEN }
{
    with::call_with::<verify::Input>(alloc, text, params, line, needed)
}

/// Commitments to the batches of an input of [`circle_prove`], whose points count for nothing.
#[unsafe(no_mangle)]
pub extern "C" fn circle_commit(
    alloc: Global,
    text: &[u8],
    line: &mut [u8],
    needed: &mut usize,
) -> u8
    ensures status { result ≤ 2 }
    ensures commitments { result ≡ 0
        → WritesResult commit.form text.now line.old line.new needed.new commit.is_result }
    ensures refused { result ≡ 1
        → WritesRefusal commit.form text.now line.old line.new needed.new commit.is_reason }
    ensures unreadable { result ≡ 2
        → WritesUnreadable commit.form text.now line.old line.new needed.new }
    ensures short { ¬ (result ≡ 0) → needed.new ≤ LINE_LEN }
{
    line::call::<commit::Input>(alloc, text, line, needed)
}

/// As [`circle_prove`], from the caller's challenger, which is left as the proof leaves it where
/// there is a result and its line fits, and else as it was.
#[unsafe(no_mangle)]
pub extern "C" fn circle_prove_from(
    alloc: Global,
    text: &[u8],
    challenger: &mut CircleChallenger,
    line: &mut [u8],
    needed: &mut usize,
) -> u8
    ensures status { result ≤ 2 }
    ensures proved { result ≡ 0 → WritesResultFrom prove.form prove_from.is_result_from text.now
        line.old line.new needed.new challenger.old.state challenger.new.state }
    ensures refused { result ≡ 1 → WritesRefusal prove.form text.now line.old line.new needed.new
        (IsReasonFrom prove_from.is_reason_from challenger.old.state) }
    ensures unreadable { result ≡ 2
        → WritesUnreadable prove.form text.now line.old line.new needed.new }
    ensures short { ¬ (result ≡ 0) → needed.new ≤ LINE_LEN }
    ensures state { ¬ ((result ≡ 0) × (needed.new ≤ length line.old))
        → challenger.new ≡ challenger.old }
{
    line::call_from::<prove::Input>(alloc, text, challenger, line, needed)
}

/// As [`circle_verify_with`], from the caller's challenger, which is left as the verifier leaves it
/// where the proof is accepted, and else as it was.
#[unsafe(no_mangle)]
pub extern "C" fn circle_verify_from(
    alloc: Global,
    text: &[u8],
    params: &CircleParams,
    challenger: &mut CircleChallenger,
    line: &mut [u8],
    needed: &mut usize,
) -> u8
    ensures status { result ≤ 2 }
    ensures accepted { result ≡ 0 → WritesResult verify.form text.now line.old line.new
        needed.new (IsVerifiedWith params.now challenger.old.state challenger.new.state) }
    ensures refused { result ≡ 1 → WritesRefusal verify.form text.now line.old line.new
        needed.new (IsUnverifiedWith params.now challenger.old.state) }
    ensures unreadable { result ≡ 2
        → WritesUnreadable verify.form text.now line.old line.new needed.new }
    ensures short { needed.new ≤ LINE_LEN }
    ensures state { ¬ (result ≡ 0) → challenger.new ≡ challenger.old }
{
    with::call_with_from::<verify::Input>(alloc, text, params, challenger, line, needed)
}
