//! The arguments, and readers and writers that fail.
use crate::expect::{arguments, expect_written_whole};
use crate::inputs::{FOUR_COEFFICIENTS, ONE_CLAIM, PROVED_SEVENS, SEVENS};
use crate::streams::FailingReader;
use circle_commands::Failure;
use circle_commands::run::run;
use std::alloc::{AllocError, Global};
use std::fmt::InlineText;
use std::io::{ErrorKind, Read};
use std::process::Abort;
use std::test::Fail;

/// Arguments that are no command.
const USAGES: &[&[&str]] = &[
    &[],
    &["values", "values"],
    &["values", ""],
    &["evaluate"],
    &["Values"],
    &[""],
    &["proves"],
    &["prove", "verify"],
    &["verify", "shape"],
    &["verify", ""],
    &["shapes"],
];

// Runs the program with arguments that are no command, and expects that result.
fn expect_usage<R: Read>(
    rt: &impl Abort,
    alloc: Global,
    words: &[&str],
    input: &mut R,
) -> Result<(), AllocError> {
    let args = arguments(alloc, words)?;
    let mut output = Vec::new(alloc);
    let status = run(alloc, &args, input, &mut output);
    let line = b"{\"unreadable\":\"usage\"}\n".as_slice();
    assert!(rt; status == 2 && output.as_slice() == line, "of {words:?}");
    Ok(())
}

// A reader that fails is not read, and one that gives a text is left as it is.
#[test]
fn usage(rt: HostRuntime) -> Result<(), Fail> {
    for words in USAGES {
        let mut unreadable = FailingReader {
            bytes: b"",
            kind: ErrorKind::ConnectionReset,
        };
        expect_usage(&rt, rt.alloc(), words, &mut unreadable)?;
        let mut input = FOUR_COEFFICIENTS.as_bytes();
        expect_usage(&rt, rt.alloc(), words, &mut input)?;
        assert!(rt; input.len() == FOUR_COEFFICIENTS.len(), "of {words:?}");
    }
    Ok(())
}

// Runs a command on a reader that fails after some bytes, and expects this line.
fn expect_line(
    rt: &impl Abort,
    alloc: Global,
    args: &[String],
    input: &mut FailingReader,
    (line, want): (&str, u8),
) {
    let mut output = Vec::new(alloc);
    let status = run(alloc, args, input, &mut output);
    assert!(rt; status == want, "of {line}");
    assert!(rt; output.as_slice() == line.as_bytes(), "of {line}");
}

// Runs a command on a reader that fails after each part of this text, and expects this line.
fn expect_failure(
    rt: &impl Abort,
    alloc: Global,
    (command, text): (&str, &str),
    kind: ErrorKind,
    answer: (&str, u8),
) -> Result<(), AllocError> {
    let args = arguments(alloc, &[command])?;
    for len in 0..text.len() + 1 {
        let bytes = &text.as_bytes()[..len];
        expect_line(rt, alloc, &args, &mut FailingReader { bytes, kind }, answer);
    }
    Ok(())
}

/// Commands with inputs that they take.
const TAKEN: &[(&str, &str)] = &[
    ("values", FOUR_COEFFICIENTS),
    ("shape", ONE_CLAIM),
    ("verify", PROVED_SEVENS),
    ("prove", SEVENS),
];

// Memory that is refused, to the bytes of the input and then to the text's values, is no fault of
// the input.
#[test]
fn input_that_fails(rt: HostRuntime) -> Result<(), Fail> {
    let alloc = rt.alloc();
    let input = ("{\"unreadable\":\"input\"}\n", 2);
    let memory = ("{\"refused\":\"Memory\"}\n", 1);
    for case in TAKEN {
        expect_failure(&rt, alloc, *case, ErrorKind::ConnectionReset, input)?;
        expect_failure(&rt, alloc, *case, ErrorKind::OutOfMemory, memory)?;
    }
    let failure = Failure::from(serde_json::Error::from(AllocError));
    assert!(rt; failure.status() == 1);
    let shown = InlineText::<64>::of(failure);
    assert!(rt; shown.as_str() == r#"{"refused":"Memory"}"#);
    Ok(())
}

/// A statement of no batch.
const NO_BATCHES: &str = concat!(
    r#"{"batches":[],"params":{"batch_pow_bits":0,"commit_pow_bits":0,"log_blowup":1,"#,
    r#""max_log_arity":1,"num_queries":2,"query_pow_bits":0}}"#
);

/// Commands with inputs, and of each result how long its line is, with its end, and its status.
const WRITTEN: &[((&str, &str), (usize, u8))] = &[
    (("values", FOUR_COEFFICIENTS), (54, 0)),
    (("values", "{}"), (28, 2)),
    (("values", ""), (22, 2)),
    (
        ("values", r#"{"coefficients":[],"log_n":1,"shift":[0,1]}"#),
        (24, 1),
    ),
    (("verify", PROVED_SEVENS), (18, 0)),
    (("verify", "{}"), (28, 2)),
    (("prove", SEVENS), (1176, 0)),
    (("prove", NO_BATCHES), (34, 1)),
    (("prove", "{}"), (28, 2)),
    (("shape", ONE_CLAIM), (1079, 0)),
];

#[test]
fn output_that_fails(rt: HostRuntime) -> Result<(), Fail> {
    for (case, answer) in WRITTEN {
        expect_written_whole(rt.alloc(), *case, *answer)?;
    }
    Ok(())
}
