//! What `verify` returns of changed proofs and statements, and the state that it leaves.
use crate::cases::Rule;
use crate::changes::{Change, Length, List, Phase, Root, verdict_after};
use circle_air::Place;
use circle_challenger::Sha256Challenger;
use std::alloc::Global;
use std::process::Abort;
use std::test::Fail;
use test_batches::openings::expect_start;

/// What is changed, and what the verdict begins with.
type Row = (Change, &'static str);

const TOO_FEW_ROWS: &str = "the trace has too few rows to be folded";

const TOO_MANY_ROWS: &str = "the trace has too many rows for the group of points";

const OF_STATEMENTS: &[Row] = &[
    (
        Change::PublicValues(&[1, 1]),
        "the AIR has 3 public values, and there are 2",
    ),
    (
        Change::PublicValues(&[1, 1, 34, 0]),
        "the AIR has 3 public values, and there are 4",
    ),
    (
        Change::PublicValues(&[]),
        "the AIR has 3 public values, and there are 0",
    ),
    (Change::LogN(0), TOO_FEW_ROWS),
    (Change::LogN(1), TOO_FEW_ROWS),
    (Change::LogFinalPolyLen(2), TOO_FEW_ROWS),
    (Change::LogFinalPolyLen(usize::MAX), TOO_FEW_ROWS),
    (Change::LogN(30), TOO_MANY_ROWS),
    (Change::LogN(usize::MAX), TOO_MANY_ROWS),
    (
        Change::Rule(Rule::Ones(16)),
        "periodic column 0 is longer than the trace",
    ),
];

const OF_LENGTHS: &[Row] = &[
    (
        Change::Length(List::TraceLocal, Length::Shorter),
        "the trace has 2 columns, and 1 values are opened",
    ),
    (
        Change::Length(List::TraceLocal, Length::Longer),
        "the trace has 2 columns, and 3 values are opened",
    ),
    (
        Change::Length(List::TraceLocal, Length::Empty),
        "the trace has 2 columns, and 0 values are opened",
    ),
    (
        Change::Length(List::TraceNext, Length::Shorter),
        "the trace has 2 columns, and 1 values of the next row are opened",
    ),
    (
        Change::Length(List::TraceNext, Length::Longer),
        "the trace has 2 columns, and 3 values of the next row are opened",
    ),
    (
        Change::Length(List::TraceNext, Length::Empty),
        "the trace has 2 columns, and 0 values of the next row are opened",
    ),
    (
        Change::Chunks(Length::Shorter),
        "the quotient has 2 chunks, and 1 are opened",
    ),
    (
        Change::Chunks(Length::Longer),
        "the quotient has 2 chunks, and 3 are opened",
    ),
    (
        Change::Chunks(Length::Empty),
        "the quotient has 2 chunks, and 0 are opened",
    ),
    (
        Change::Length(List::Chunk(0), Length::Shorter),
        "chunk 0 has 3 columns, and 2 values are opened",
    ),
    (
        Change::Length(List::Chunk(0), Length::Longer),
        "chunk 0 has 3 columns, and 4 values are opened",
    ),
    (
        Change::Length(List::Chunk(0), Length::Empty),
        "chunk 0 has 3 columns, and 0 values are opened",
    ),
    (
        Change::Length(List::Chunk(1), Length::Shorter),
        "chunk 1 has 3 columns, and 2 values are opened",
    ),
    (
        Change::Length(List::Chunk(1), Length::Longer),
        "chunk 1 has 3 columns, and 4 values are opened",
    ),
    (
        Change::Length(List::Chunk(1), Length::Empty),
        "chunk 1 has 3 columns, and 0 values are opened",
    ),
];

const OPENING: &str = "invalid opening: ";

const AFTER_THE_DRAWS: &[Row] = &[
    (Change::Nothing, "accepted"),
    (
        Change::LogN(29),
        "invalid opening: the proof commits to 2 rounds, and 28 are due",
    ),
    (
        Change::LogN(4),
        "invalid opening: the proof commits to 2 rounds, and 3 are due",
    ),
    (
        Change::LogN(2),
        "invalid opening: the proof commits to 2 rounds, and 1 are due",
    ),
    (
        Change::Witness(Phase::Batch),
        "invalid opening: a witness of a proof of work without difficulty is not zero (batch)",
    ),
    (
        Change::Witness(Phase::Commit),
        "invalid opening: a witness of a proof of work without difficulty is not zero (commit)",
    ),
    (
        Change::Witness(Phase::Query),
        "invalid opening: a witness of a proof of work without difficulty is not zero (query)",
    ),
    (Change::PublicValues(&[1, 1, 35]), OPENING),
    (Change::Rule(Rule::Squares(Place::Every)), OPENING),
    (Change::Raised(List::TraceLocal), OPENING),
    (Change::Raised(List::TraceNext), OPENING),
    (Change::Raised(List::Chunk(0)), OPENING),
    (Change::Raised(List::Chunk(1)), OPENING),
    (Change::ChunksSwapped, OPENING),
    (Change::Digest(Root::Trace), OPENING),
    (Change::Digest(Root::Quotient), OPENING),
    (Change::Digest(Root::FirstLayer), OPENING),
];

// Asserts what the verdict on a proof of Fibonacci numbers begins with, and whether the challenger
// is as it was.
fn assert_verdict(
    rt: &impl Abort,
    alloc: Global,
    (change, expected): &Row,
    is_as_it_was: bool,
) -> Result<(), Fail> {
    let (mut prover, mut verifier) = (Sha256Challenger::new(), Sha256Challenger::new());
    let verdict = verdict_after(rt, alloc, *change, &mut prover, &mut verifier);
    let is_kept = verifier == Sha256Challenger::new();
    assert!(rt; is_kept == is_as_it_was, "{expected}");
    expect_start(verdict.as_str(), &[*expected])
}

#[test]
fn statements(rt: HostRuntime) -> Result<(), Fail> {
    for row in OF_STATEMENTS {
        assert_verdict(&rt, rt.alloc(), row, true)?;
    }
    Ok(())
}

#[test]
fn lengths_of_lists(rt: HostRuntime) -> Result<(), Fail> {
    for row in OF_LENGTHS {
        assert_verdict(&rt, rt.alloc(), row, true)?;
    }
    Ok(())
}

#[test]
fn verdicts_after_the_draws(rt: HostRuntime) -> Result<(), Fail> {
    for row in AFTER_THE_DRAWS {
        assert_verdict(&rt, rt.alloc(), row, false)?;
    }
    Ok(())
}
