//! The program as a function of its arguments, its input and its output.
ghost use Rattle.std.specs.Io.KnownBytes.{Appends};
ghost use Rattle.std.specs.Prelude.{◌≡◌, ◌≤◌, ◌↔◌, Err, IfSome, IsSome, Ok, length, take};
ghost use Rattle.circle_commands.specs.Answer.{IsAnswer};
ghost use Rattle.circle_commands.specs.Arguments.{Names, NamesCommand};
ghost use Rattle.circle_commands.specs.Commands.{Answers, prove, shape, values, verify};
ghost use Rattle.circle_commands.specs.Program.{HasRun, IsOfInput, IsTold, IsWritten};
ghost use Rattle.circle_commands.specs.declared.failure.Failure.TheVariants.{Usage};
ghost use Rattle.circle_commands.specs.declared.run.CommandName.TheVariants as names;

use crate::command::{Command, answer};
use crate::failure::Failure;
use crate::{prove, shape, values, verify};
use std::alloc::Global;
use std::io::{ErrorKind, Read, Write};

/// The commands of the program.
#[derive(Clone, Copy)]
enum CommandName {
    Values,
    Prove,
    Verify,
    Shape,
}

impl CommandName {
    // The command that the arguments name, if they are one name of a command.
    fn from_args(args: &[String]) -> Option<CommandName>
        ensures some { IsSome result ↔ NamesCommand args.now }
        ensures named { IfSome result (Names args.now) }
    {
        let [name] = args else {
            return None;
        };
        match name.as_str() {
            "values" => Some(CommandName::Values),
            "prove" => Some(CommandName::Prove),
            "verify" => Some(CommandName::Verify),
            "shape" => Some(CommandName::Shape),
            _ => None,
        }
    }
}

/// Runs the program whose arguments, without its own name, are `args`: reads `input` to its end,
/// writes one line of JSON to `output`, and returns the exit status.
///
/// The status is 0 where there is a result, 1 where the command refuses the input, an allocation is
/// refused or writing fails, and 2 where the input can't be read. Where writing fails, only a front
/// of the line is written. Of several faults the first counts: wrong arguments, in which case nothing is read, then a failure of `input`, then text that
/// isn't JSON, then JSON that isn't an input of the command, then what the command refuses.
pub fn run<R: Read, W: Write>(alloc: Global, args: &[String], input: &mut R, output: &mut W) -> u8
    ensures status { result ≤ 2 }
    ensures usage { ¬ NamesCommand args.now
        → IsTold (Err Usage) (W.contents output.old) (W.contents output.new) result }
    ensures unread { ¬ NamesCommand args.now → input.new ≡ input.old }
    ensures values { Names args.now names.Values → HasRun (Answers values) (R.remaining input.old)
        (R.remaining input.new) (W.contents output.old) (W.contents output.new) result }
    ensures prove { Names args.now names.Prove → HasRun (Answers prove) (R.remaining input.old)
        (R.remaining input.new) (W.contents output.old) (W.contents output.new) result }
    ensures verify { Names args.now names.Verify → HasRun (Answers verify) (R.remaining input.old)
        (R.remaining input.new) (W.contents output.old) (W.contents output.new) result }
    ensures shape { Names args.now names.Shape → HasRun (Answers shape) (R.remaining input.old)
        (R.remaining input.new) (W.contents output.old) (W.contents output.new) result }
{
    match CommandName::from_args(args) {
        Some(name) => run_named(alloc, name, input, output),
        None => refuse(&Failure::Usage, output),
    }
}

// Runs the command of this name.
fn run_named<R: Read, W: Write>(
    alloc: Global,
    name: CommandName,
    input: &mut R,
    output: &mut W,
) -> u8
    ensures status { result ≤ 2 }
    ensures values { name ≡ names.Values → HasRun (Answers values) (R.remaining input.old)
        (R.remaining input.new) (W.contents output.old) (W.contents output.new) result }
    ensures prove { name ≡ names.Prove → HasRun (Answers prove) (R.remaining input.old)
        (R.remaining input.new) (W.contents output.old) (W.contents output.new) result }
    ensures verify { name ≡ names.Verify → HasRun (Answers verify) (R.remaining input.old)
        (R.remaining input.new) (W.contents output.old) (W.contents output.new) result }
    ensures shape { name ≡ names.Shape → HasRun (Answers shape) (R.remaining input.old)
        (R.remaining input.new) (W.contents output.old) (W.contents output.new) result }
{
    match name {
        CommandName::Values => run_command::<values::Input, R, W>(alloc, input, output),
        CommandName::Prove => run_command::<prove::Input, R, W>(alloc, input, output),
        CommandName::Verify => run_command::<verify::Input, R, W>(alloc, input, output),
        CommandName::Shape => run_command::<shape::Input, R, W>(alloc, input, output),
    }
}

// Runs the command that takes these inputs.
fn run_command<T: Command, R: Read, W: Write>(alloc: Global, input: &mut R, output: &mut W) -> u8
    ensures status { result ≤ 2 }
    ensures run { HasRun (IsAnswer T.form T.is_result T.is_reason) (R.remaining input.old)
        (R.remaining input.new) (W.contents output.old) (W.contents output.new) result }
{
    match answer_input::<T, R>(alloc, input) {
        Ok(line) => write_line(output, line.as_bytes(), 0),
        Err(failure) => refuse(&failure, output),
    }
}

// What the command returns of the text that it reads to the end of the input.
fn answer_input<T: Command, R: Read>(alloc: Global, input: &mut R) -> Result<String, Failure>
    ensures { IsOfInput (IsAnswer T.form T.is_result T.is_reason) (R.remaining input.old)
        (R.remaining input.new) result }
{
    let mut text = Vec::new(alloc);
    input.read_to_end(&mut text)?;
    answer::<T>(alloc, &text)
}

/// Writes the line of a failure, and returns the status that the program ends with: the failure's,
/// but 1 where writing fails.
pub fn refuse<W: Write>(failure: &Failure, output: &mut W) -> u8
    ensures range { result ≤ 2 }
    ensures told { IsTold (Err failure.now) (W.contents output.old) (W.contents output.new) result }
{
    write_line(output, failure.line().as_str().as_bytes(), failure.status())
}

/// Writes the line, and returns the status. It is 1 where writing fails, and then a front of the
/// line is written and nothing else.
pub fn write_line<W: Write>(output: &mut W, line: &[u8], status: u8) -> u8
    ensures { IsWritten status line.now (W.contents output.old) (W.contents output.new) result }
{
    if write_front(output, line) < line.len() || output.flush().is_err() {
        return 1;
    }
    status
}

// Writes the bytes until a write fails, and returns how many of them are written. A write that takes
// none fails, and one that is interrupted is tried again, as by `Write::write_all`.
fn write_front<W: Write>(output: &mut W, bytes: &[u8]) -> usize
    ensures within { result ≤ length bytes.now }
    ensures front { Appends (W.contents output.old) (W.contents output.new)
        (take result bytes.now) }
{
    let mut written = 0;
    for _ in 0..u64::MAX {
        if written == bytes.len() {
            return written;
        }
        match output.write(&bytes[written..]) {
            Ok(0) => return written,
            Ok(more) => written += more,
            Err(error) => {
                if error.kind() != ErrorKind::Interrupted {
                    return written;
                }
            }
        }
    }
    written
}
