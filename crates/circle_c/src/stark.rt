//! The exports over constraints on a trace.
ghost use Rattle.std.specs.Prelude.{◌≡◌, ◌≤◌, length};
ghost use Rattle.stark_commands.specs.Commands.{check, prove, prove_from, verify, verify_from};
ghost use Rattle.circle_c.specs.Challenger.{IsReasonFrom};
ghost use Rattle.circle_c.specs.Line.{WritesResult, WritesResultFrom, WritesStarkRefusal};
ghost use Rattle.circle_c.specs.Line.{WritesUnreadable};
ghost use Rattle.circle_c.specs.Statement.{WritesRefusalOf, WritesUnreadText, WritesVerdict};

use crate::challenger::CircleChallenger;
use crate::stark_line::{call, call_from};
use crate::statement::{call_verify, call_verify_from};
use stark_commands::failure::LINE_LEN;
use stark_commands::{check, prove};
use std::alloc::Global;

/// Whether the rows of a trace satisfy an AIR, as the program's command `check` writes it.
#[unsafe(no_mangle)]
pub extern "C" fn circle_stark_check(
    alloc: Global,
    text: &[u8],
    line: &mut [u8],
    needed: &mut usize,
) -> u8
    ensures status { result ≤ 2 }
    ensures satisfied { result ≡ 0
        → WritesResult check.form text.now line.old line.new needed.new check.is_result }
    ensures refused { result ≡ 1
        → WritesStarkRefusal check.form text.now line.old line.new needed.new check.is_reason }
    ensures unreadable { result ≡ 2
        → WritesUnreadable check.form text.now line.old line.new needed.new }
    ensures short { needed.new ≤ LINE_LEN }
{
    call::<check::Input>(alloc, text, line, needed)
}

/// A statement with a proof that rows satisfy its AIR, as the program's command `prove` writes it.
#[unsafe(no_mangle)]
pub extern "C" fn circle_stark_prove(
    alloc: Global,
    text: &[u8],
    line: &mut [u8],
    needed: &mut usize,
) -> u8
    ensures status { result ≤ 2 }
    ensures proved { result ≡ 0
        → WritesResult prove.form text.now line.old line.new needed.new prove.is_result }
    ensures refused { result ≡ 1
        → WritesStarkRefusal prove.form text.now line.old line.new needed.new prove.is_reason }
    ensures unreadable { result ≡ 2
        → WritesUnreadable prove.form text.now line.old line.new needed.new }
    ensures short { ¬ (result ≡ 0) → needed.new ≤ LINE_LEN }
{
    call::<prove::Input>(alloc, text, line, needed)
}

/// As [`circle_stark_prove`], from the caller's challenger, which is left as the proof leaves it
/// where there is a result and its line fits, and else as it was.
#[unsafe(no_mangle)]
pub extern "C" fn circle_stark_prove_from(
    alloc: Global,
    text: &[u8],
    challenger: &mut CircleChallenger,
    line: &mut [u8],
    needed: &mut usize,
) -> u8
    ensures status { result ≤ 2 }
    ensures proved { result ≡ 0 → WritesResultFrom prove.form prove_from.is_result_from text.now
        line.old line.new needed.new challenger.old.state challenger.new.state }
    ensures refused { result ≡ 1 → WritesStarkRefusal prove.form text.now line.old line.new
        needed.new (IsReasonFrom prove_from.is_reason_from challenger.old.state) }
    ensures unreadable { result ≡ 2
        → WritesUnreadable prove.form text.now line.old line.new needed.new }
    ensures short { ¬ (result ≡ 0) → needed.new ≤ LINE_LEN }
    ensures state { ¬ ((result ≡ 0) × (needed.new ≤ length line.old))
        → challenger.new ≡ challenger.old }
{
    call_from::<prove::Input>(alloc, text, challenger, line, needed)
}

/// Whether a proof shows the caller's own statement, each in a text of its own: the line is that
/// which the program's command `verify` writes of both in one.
#[unsafe(no_mangle)]
pub extern "C" fn circle_stark_verify(
    alloc: Global,
    statement: &[u8],
    proof: &[u8],
    line: &mut [u8],
    needed: &mut usize,
) -> u8
    ensures status { result ≤ 2 }
    ensures accepted { result ≡ 0 → WritesVerdict statement.now proof.now line.old line.new
        needed.new verify.is_result }
    ensures refused { result ≡ 1 → WritesRefusalOf statement.now proof.now line.old line.new
        needed.new verify.is_reason }
    ensures unreadable { result ≡ 2
        → WritesUnreadText statement.now proof.now line.old line.new needed.new }
    ensures short { ¬ (result ≡ 0) → needed.new ≤ LINE_LEN }
{
    call_verify(alloc, statement, proof, line, needed)
}

/// As [`circle_stark_verify`], from the caller's challenger, which is left as the verifier leaves
/// it where the proof is accepted, and else as it was.
#[unsafe(no_mangle)]
pub extern "C" fn circle_stark_verify_from(
    alloc: Global,
    statement: &[u8],
    proof: &[u8],
    challenger: &mut CircleChallenger,
    line: &mut [u8],
    needed: &mut usize,
) -> u8
    ensures status { result ≤ 2 }
    ensures accepted { result ≡ 0 → WritesVerdict statement.now proof.now line.old line.new
        needed.new (λ i. verify_from.is_result_from i challenger.old.state challenger.new.state) }
    ensures refused { result ≡ 1 → WritesRefusalOf statement.now proof.now line.old line.new
        needed.new (IsReasonFrom verify_from.is_reason_from challenger.old.state) }
    ensures unreadable { result ≡ 2
        → WritesUnreadText statement.now proof.now line.old line.new needed.new }
    ensures short { ¬ (result ≡ 0) → needed.new ≤ LINE_LEN }
    ensures state { ¬ (result ≡ 0) → challenger.new ≡ challenger.old }
{
    call_verify_from(alloc, statement, proof, challenger, line, needed)
}
