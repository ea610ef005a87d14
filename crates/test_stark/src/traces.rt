//! What `prove` and `prove_and_verify` return of traces, and the states of both challengers.
use crate::calls::{Text, honest, outcome_of_both, proof_of, verdict_on};
use crate::cases::{Case, FIBONACCI, MEMORY, Rule, air_of, elements_of, rows_of};
use circle_air::Place;
use circle_challenger::Sha256Challenger;
use circle_stark::StarkTrace;
use std::alloc::Global;
use std::process::Abort;
use std::test::Fail;
use test_batches::openings::expect_text;
use test_batches::parameters::{Numbers, SMALL, scheme};

const ACCEPTED: &str = "accepted";

const TOO_FEW_ROWS: &str = "the trace has too few rows to be folded";

const TOO_MANY_ROWS: &str = "the trace has too many rows for the group of points";

const NO_POWER_OF_TWO: &str = "the number of rows isn't a power of two";

// Numbers with their squares, but for the last row.
const SQUARES: &[u64] = &[0, 0, 1, 1, 2, 4, 3, 9, 4, 16, 5, 25, 6, 36, 7, 50];

/// A trace, and what is returned of it.
type Row = (Case, &'static str);

const HONEST: &[Row] = &[
    (FIBONACCI, ACCEPTED),
    (
        Case {
            rule: Rule::Squares(Place::Transition),
            entries: SQUARES,
            ..FIBONACCI
        },
        ACCEPTED,
    ),
    (
        Case {
            rule: Rule::Ones(8),
            entries: &[1; 16],
            ..FIBONACCI
        },
        ACCEPTED,
    ),
];

const OF_OTHER_SHAPES: &[Row] = &[
    (
        Case {
            public_values: &[1, 1],
            ..FIBONACCI
        },
        "the AIR has 3 public values, and there are 2",
    ),
    (
        Case {
            entries: &[0; 24],
            width: 3,
            ..FIBONACCI
        },
        "the AIR has 2 columns, and the trace 3",
    ),
    (
        Case {
            entries: &[],
            ..FIBONACCI
        },
        NO_POWER_OF_TWO,
    ),
    (
        Case {
            entries: &[1, 1],
            ..FIBONACCI
        },
        TOO_FEW_ROWS,
    ),
    (
        Case {
            entries: &[1, 1, 1, 2],
            ..FIBONACCI
        },
        TOO_FEW_ROWS,
    ),
    (
        Case {
            entries: &[1, 1, 1, 2, 2, 3],
            ..FIBONACCI
        },
        NO_POWER_OF_TWO,
    ),
    (
        Case {
            rule: Rule::Ones(16),
            entries: &[1; 16],
            ..FIBONACCI
        },
        "periodic column 0 is longer than the trace",
    ),
];

const BY_OTHER_NUMBERS: &[Row] = &[
    (
        Case {
            numbers: Numbers {
                log_final_poly_len: 2,
                ..SMALL
            },
            ..FIBONACCI
        },
        TOO_FEW_ROWS,
    ),
    (
        Case {
            numbers: Numbers {
                log_blowup: 28,
                ..SMALL
            },
            ..FIBONACCI
        },
        TOO_MANY_ROWS,
    ),
    (
        Case {
            numbers: Numbers {
                log_blowup: usize::MAX,
                ..SMALL
            },
            ..FIBONACCI
        },
        TOO_MANY_ROWS,
    ),
    (
        Case {
            numbers: Numbers {
                num_queries: 0,
                ..SMALL
            },
            ..FIBONACCI
        },
        "the parameters are not supported",
    ),
];

const UNSATISFIED: &[Row] = &[
    (
        Case {
            public_values: &[1, 1, 35],
            ..FIBONACCI
        },
        "constraint 4 doesn't hold at row 7",
    ),
    (
        Case {
            rule: Rule::Squares(Place::Every),
            entries: SQUARES,
            ..FIBONACCI
        },
        "constraint 0 doesn't hold at row 7",
    ),
];

// The text of what `verify` returns of the proof of a trace, or of what `prove` returns where there
// is none.
fn outcome(
    rt: &impl Abort,
    alloc: Global,
    case: &Case,
    prover: &mut Sha256Challenger,
    verifier: &mut Sha256Challenger,
) -> Text {
    let pcs = scheme(case.numbers);
    match proof_of(rt, alloc, &pcs, case, prover) {
        Ok(proof) => verdict_on(rt, alloc, &honest(pcs, case, proof), verifier),
        Err(refusal) => Text::of(refusal),
    }
}

// The text of what `prove_and_verify` returns, and whether both challengers are in one state.
fn outcome_of_run(rt: &impl Abort, alloc: Global, case: &Case) -> (Text, bool) {
    let air = air_of(alloc, case.rule).expect(rt, MEMORY);
    let public_values = elements_of(rt, alloc, case.public_values);
    let trace = StarkTrace {
        air: &air,
        rows: rows_of(rt, alloc, case),
        public_values: &public_values,
    };
    outcome_of_both(alloc, &scheme(case.numbers), trace)
}

// What `prove_and_verify` is to return where the verdict on the proof, or the refusal to make one, is
// this.
fn of_both(expected: &str) -> Text {
    if expected == ACCEPTED {
        Text::of(ACCEPTED)
    } else {
        Text::of(format_args!("there is no proof: {expected}"))
    }
}

// Asserts what `prove` and then `verify` return of a trace, and that both challengers are in one
// state: where there is no proof, in that in which they were.
fn assert_outcome(rt: &impl Abort, alloc: Global, (case, expected): &Row) -> Result<(), Fail> {
    let (mut prover, mut verifier) = (Sha256Challenger::new(), Sha256Challenger::new());
    let text = outcome(rt, alloc, case, &mut prover, &mut verifier);
    assert!(rt; prover == verifier, "{expected}");
    expect_text(text.as_str(), expected)
}

// Asserts that of `prove_and_verify`.
fn assert_outcome_of_both(
    rt: &impl Abort,
    alloc: Global,
    (case, expected): &Row,
) -> Result<(), Fail> {
    let (text, is_one_state) = outcome_of_run(rt, alloc, case);
    assert!(rt; is_one_state, "{expected}");
    expect_text(text.as_str(), of_both(expected).as_str())
}

#[test]
fn traces(rt: HostRuntime) -> Result<(), Fail> {
    for rows in [HONEST, OF_OTHER_SHAPES, BY_OTHER_NUMBERS, UNSATISFIED] {
        for row in rows {
            assert_outcome(&rt, rt.alloc(), row)?;
            assert_outcome_of_both(&rt, rt.alloc(), row)?;
        }
    }
    Ok(())
}
