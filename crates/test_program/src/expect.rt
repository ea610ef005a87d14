//! What the program returns, compared with what is expected. Each of these calls fails where the
//! program returns something else, and reports what it returned.
use crate::streams::{FailingFlush, FailingWriter};
use circle_commands::run::run;
use std::alloc::{AllocError, Global};
use std::fmt::InlineText;
use std::io::{ErrorKind, Write};
use std::test::Fail;

/// What the program wrote, and its status.
#[derive(Drop)]
pub struct Answer {
    /// The bytes that it wrote.
    pub written: Vec<u8>,
    /// The status that it ends with.
    pub status: u8,
}

/// Arguments of these words.
pub fn arguments(alloc: Global, words: &[&str]) -> Result<Vec<String>, AllocError> {
    let mut args = Vec::new(alloc);
    for word in words {
        args.push(String::from_str(alloc, word)?)?;
    }
    Ok(args)
}

/// Runs a command on these bytes.
pub fn answer_of(alloc: Global, command: &str, input: &[u8]) -> Result<Answer, AllocError> {
    let args = arguments(alloc, &[command])?;
    let mut written = Vec::new(alloc);
    let mut input = input;
    let status = run(alloc, &args, &mut input, &mut written);
    Ok(Answer { written, status })
}

/// Expects that the input can't be read for this reason.
pub fn expect_unreadable(
    alloc: Global,
    command: &str,
    input: &[u8],
    reason: &str,
) -> Result<(), Fail> {
    let answer = answer_of(alloc, command, input)?;
    let line = format!(in alloc; "{{\"unreadable\":\"{reason}\"}}\n")?;
    if answer.status == 2 && answer.written.as_slice() == line.as_bytes() {
        return Ok(());
    }
    let text = std::str::from_utf8(&answer.written).unwrap_or("not UTF-8");
    Err(unexpected(answer.status, text))
}

// What is reported of another result.
fn unexpected(status: u8, text: &str) -> Fail {
    let told = InlineText::<512>::of(format_args!("status {status}: {text}"));
    Fail::new(told.as_str())
}

// Runs a command on the input over this writer, and expects this status.
fn expect_status<W: Write>(
    alloc: Global,
    (command, input): (&str, &str),
    output: &mut W,
    want: u8,
) -> Result<(), Fail> {
    let args = arguments(alloc, &[command])?;
    let status = run(alloc, &args, &mut input.as_bytes(), output);
    if status == want {
        return Ok(());
    }
    Err(unexpected(status, input))
}

// Runs a command on the input over this writer, and expects the status and what was taken.
fn expect_taken(
    alloc: Global,
    case: (&str, &str),
    mut output: FailingWriter,
    taken: &[u8],
    want: u8,
) -> Result<(), Fail> {
    expect_status(alloc, case, &mut output, want)?;
    if output.taken.as_slice() == taken {
        return Ok(());
    }
    let text = std::str::from_utf8(&output.taken).unwrap_or("not UTF-8");
    Err(unexpected(want, text))
}

// Expects the front of the line and the status 1 over a writer that takes fewer bytes than the line
// has, for each number of them. Every other one fails after them, and the others take none.
fn expect_fronts(alloc: Global, case: (&str, &str), line: &[u8]) -> Result<(), Fail> {
    for room in 0..line.len() {
        let kind = (room % 2 == 0).then_some(ErrorKind::BrokenPipe);
        let output = FailingWriter::new(alloc, room, kind);
        expect_taken(alloc, case, output, &line[..room], 1)?;
    }
    Ok(())
}

/// Expects the status of a line of this many bytes, with its end, over a writer that takes no more
/// and over one that is interrupted before each byte, the status 1 and a front of the line over each
/// that takes fewer, and the status 1 over one that can't flush.
pub fn expect_written_whole(
    alloc: Global,
    case: (&str, &str),
    (len, status): (usize, u8),
) -> Result<(), Fail> {
    let (command, input) = case;
    let line = answer_of(alloc, command, input.as_bytes())?.written;
    if line.len() != len {
        return Err(unexpected(status, "a line of another length"));
    }
    expect_fronts(alloc, case, &line)?;
    let whole = FailingWriter::new(alloc, len, Some(ErrorKind::BrokenPipe));
    expect_taken(alloc, case, whole, &line, status)?;
    expect_taken(
        alloc,
        case,
        FailingWriter::interrupted(alloc, len),
        &line,
        status,
    )?;
    expect_status(alloc, case, &mut FailingFlush, 1)
}
