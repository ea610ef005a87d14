//! What is written to a caller's line of the commands over constraints.
ghost use Rattle.std.specs.Prelude.{◌≡◌, ◌≤◌, IsErr, length};
ghost use Rattle.stark_commands.specs.Program.{answer_line, answer_status};
ghost use Rattle.circle_c.specs.Challenger.{IsReasonFrom};
ghost use Rattle.circle_c.specs.Line.{IsWritten, WritesResult, WritesResultFrom};
ghost use Rattle.circle_c.specs.Line.{WritesStarkRefusal, WritesUnreadable};

use crate::challenger::CircleChallenger;
use crate::line::{is_told, write};
use stark_commands::Failure;
use stark_commands::command::{Command, CommandFrom, answer, answer_from};
use stark_commands::failure::LINE_LEN;
use std::alloc::Global;

/// Runs the command that takes these inputs on a text, writes the line and returns the status.
pub(crate) fn call<T: Command>(
    alloc: Global,
    text: &[u8],
    line: &mut [u8],
    needed: &mut usize,
) -> u8
    ensures status { result ≤ 2 }
    ensures result { result ≡ 0
        → WritesResult T.form text.now line.old line.new needed.new T.is_result }
    ensures refused { result ≡ 1
        → WritesStarkRefusal T.form text.now line.old line.new needed.new T.is_reason }
    ensures unreadable { result ≡ 2
        → WritesUnreadable T.form text.now line.old line.new needed.new }
    ensures short { ¬ (result ≡ 0) → needed.new ≤ LINE_LEN }
{
    report(&answer::<T>(alloc, text), line, needed)
}

/// Runs the command from the caller's challenger, writes the line and returns the status. The
/// challenger is left as the command leaves it where there is a result and its line fits, and else
/// as it was.
pub(crate) fn call_from<T: CommandFrom>(
    alloc: Global,
    text: &[u8],
    challenger: &mut CircleChallenger,
    line: &mut [u8],
    needed: &mut usize,
) -> u8
    ensures status { result ≤ 2 }
    ensures result { result ≡ 0 → WritesResultFrom T.form T.is_result_from text.now line.old
        line.new needed.new challenger.old.state challenger.new.state }
    ensures refused { result ≡ 1 → WritesStarkRefusal T.form text.now line.old line.new needed.new
        (IsReasonFrom T.is_reason_from challenger.old.state) }
    ensures unreadable { result ≡ 2
        → WritesUnreadable T.form text.now line.old line.new needed.new }
    ensures short { ¬ (result ≡ 0) → needed.new ≤ LINE_LEN }
    ensures state { ¬ ((result ≡ 0) × (needed.new ≤ length line.old))
        → challenger.new ≡ challenger.old }
{
    let mut own = challenger.to_challenger();
    let status = report(&answer_from::<T>(alloc, text, &mut own), line, needed);
    challenger.leave_if(is_told(status, *needed, line.len()), &own);
    status
}

/// Writes the result, or the line of the failure, and returns the status.
pub(crate) fn report(answer: &Result<String, Failure>, line: &mut [u8], needed: &mut usize) -> u8
    ensures status { result ≡ answer_status answer.now }
    ensures written { IsWritten (answer_line answer.now) line.old line.new needed.new }
    ensures short { IsErr answer.now → needed.new ≤ LINE_LEN }
{
    match answer {
        Ok(text) => {
            write(text.as_bytes(), line, needed);
            0
        }
        Err(Failure::Common(failure)) => {
            write(failure.line().as_str().as_bytes(), line, needed);
            failure.status()
        }
        Err(Failure::Refused(reason)) => {
            write(reason.line().as_str().as_bytes(), line, needed);
            1
        }
    }
}
