//! Traces of both example AIRs, at each power of two of rows.
use crate::calls::outcome_of_both;
use circle_air::Air;
use circle_airs::{Trace, fibonacci_air, fibonacci_trace, permutation_air, permutation_trace};
use circle_field::Field;
use circle_presets::Val;
use circle_stark::StarkTrace;
use std::alloc::Global;
use std::process::Abort;
use std::test::Fail;
use test_batches::openings::expect_text;
use test_batches::parameters::{SMALL, scheme};

const ACCEPTED: &str = "accepted";

const LONG_PERIOD: &str = "there is no proof: periodic column 0 is longer than the trace";

// Each power of two from the least number of rows that can be folded to 2^10, and what is returned
// of so many rows of the permutation, whose periodic columns have 16 entries.
const HEIGHTS: &[(usize, &str)] = &[
    (4, LONG_PERIOD),
    (8, LONG_PERIOD),
    (16, ACCEPTED),
    (32, ACCEPTED),
    (64, ACCEPTED),
    (128, ACCEPTED),
    (256, ACCEPTED),
    (512, ACCEPTED),
    (1024, ACCEPTED),
];

// Asserts what `prove_and_verify` returns of a trace, and that both challengers are in one state.
fn assert_outcome(
    rt: &impl Abort,
    alloc: Global,
    air: &Air<Val>,
    trace: Trace<Val>,
    expected: &str,
) -> Result<(), Fail> {
    let stark_trace = StarkTrace {
        air,
        rows: trace.rows,
        public_values: &trace.public_values,
    };
    let (text, is_one_state) = outcome_of_both(alloc, &scheme(SMALL), stark_trace);
    assert!(rt; is_one_state, "{expected}");
    expect_text(text.as_str(), expected)
}

fn assert_fibonacci(rt: &impl Abort, alloc: Global, height: usize) -> Result<(), Fail> {
    let air = fibonacci_air(alloc)?;
    let trace = fibonacci_trace(alloc, Val::ONE, Val::ONE, height.max(1))?;
    assert_outcome(rt, alloc, &air, trace, ACCEPTED)
}

fn assert_permutation(
    rt: &impl Abort,
    alloc: Global,
    height: usize,
    expected: &str,
) -> Result<(), Fail> {
    let air = permutation_air(alloc)?;
    let first = [0, 1, 2, 3, 4, 5, 6, 7].map(|n| Val::from_u64(n));
    let trace = permutation_trace(alloc, &first, height.max(1))?;
    assert_outcome(rt, alloc, &air, trace, expected)
}

#[test]
fn each_power_of_two_of_rows(rt: HostRuntime) -> Result<(), Fail> {
    for (height, of_permutation) in HEIGHTS {
        assert_fibonacci(&rt, rt.alloc(), *height)?;
        assert_permutation(&rt, rt.alloc(), *height, of_permutation)?;
    }
    Ok(())
}
