//! Lines about chains and transforms: what they come to, and how long they take.
use crate::chains::{self, Operation};
use crate::transforms::{self, Size, Transform};
use circle_field::{ExtensionField, Field, Mersenne31};
use std::alloc::{AllocError, Global};
use std::io;
use std::time::{Duration, Instant};

/// The length of a chain whose last element is printed.
const SMALL: usize = 1000;

/// How many times a chain is run when it is timed.
const RUNS: u32 = 9;

/// How many times a transform of the largest matrices is run when it is timed.
const FEWEST_RUNS: usize = 5;

/// How many times a transform of the smallest matrices is run when it is timed.
const MOST_RUNS: usize = 200;

/// What is printed of each case.
#[derive(Clone, Copy, PartialEq, Eq)]
pub enum Mode {
    /// The last element of a short chain, and the digest of what becomes of a small matrix.
    Digests,

    /// The time of an operation in the fastest run of a long chain, and the time of the fastest run
    /// of a transform.
    Times,
}

impl Mode {
    /// The sizes of the matrices: `small` where digests are printed, and `large` where times are.
    pub fn sizes<'a>(self, small: &'a [Size], large: &'a [Size]) -> &'a [Size] {
        match self {
            Mode::Digests => small,
            Mode::Times => large,
        }
    }
}

/// A chain of an operation, with the length at which it is timed.
#[derive(Clone, Copy)]
pub struct Case {
    pub operation: Operation,
    pub large: usize,
}

/// Prints a line for each chain.
pub fn report<F: ExtensionField<Mersenne31>>(
    rt: &HostRuntime,
    mode: Mode,
    field: &str,
    cases: &[Case],
    start: F,
    step: F,
) -> io::Result<()> {
    for case in cases {
        report_case(rt, mode, field, *case, start, step)?;
    }
    Ok(())
}

/// Prints the line of a chain.
fn report_case<F: ExtensionField<Mersenne31>>(
    rt: &HostRuntime,
    mode: Mode,
    field: &str,
    case: Case,
    start: F,
    step: F,
) -> io::Result<()> {
    let (size, runs) = match mode {
        Mode::Digests => (SMALL, 1),
        Mode::Times => (case.large, RUNS),
    };
    let (time, last) = fastest(rt, case.operation, start, step, size, runs)?;
    print!(rt; "{field} {} {size}: ", case.operation.name())?;
    if mode == Mode::Times {
        print_time_of_one(rt, time, size)?;
    }
    println!(rt; "{:?}", numbers(rt.alloc(), last)?)
}

/// The shortest time of a run, and the last element. Each run begins where the one before it ended,
/// so that none can be left out.
fn fastest<F: Field>(
    rt: &HostRuntime,
    operation: Operation,
    start: F,
    step: F,
    size: usize,
    runs: u32,
) -> io::Result<(Duration, F)> {
    let count = if operation == Operation::BatchInverse {
        size
    } else {
        0
    };
    let elements = chains::nonzero_elements(rt.alloc(), start, step, count)?;
    let mut best = Duration::MAX;
    let mut x = start;
    for _ in 0..runs {
        let begin = Instant::now(rt)?;
        x = operation.run(rt.alloc(), &elements, x, step, size)?;
        best = best.min(begin.elapsed(rt)?);
    }
    Ok((best, x))
}

/// Prints the time of one of `size` operations in nanoseconds, with two places.
fn print_time_of_one(rt: &HostRuntime, time: Duration, size: usize) -> io::Result<()> {
    let hundredths = time.as_nanos().saturating_mul(100) / (size.max(1) as u128);
    print!(rt; "{}.{:02} ns, ", hundredths / 100, hundredths % 100)
}

/// The residues of an element's coefficients.
fn numbers<F: ExtensionField<Mersenne31>>(alloc: Global, x: F) -> Result<Vec<u32>, AllocError> {
    let mut numbers = Vec::with_capacity(alloc, F::DEGREE)?;
    for i in 0..F::DEGREE {
        numbers.push(x.coefficient(i).value())?;
    }
    Ok(numbers)
}

/// Prints a line for each size.
pub fn report_transform(
    rt: &HostRuntime,
    mode: Mode,
    transform: Transform,
    sizes: &[Size],
    start: Mersenne31,
    step: Mersenne31,
) -> io::Result<()> {
    for size in sizes {
        let runs = runs(mode, runs_of(*size));
        let (time, digest) = fastest_transform(rt, transform, *size, start, step, runs)?;
        let (name, digest) = (transform.name(), u64::from(digest));
        print_line(rt, mode, "Mersenne31", name, *size, time, digest)?;
    }
    Ok(())
}

/// Prints the line of a pass over a matrix of this size.
pub fn print_line(
    rt: &HostRuntime,
    mode: Mode,
    kind: &str,
    name: &str,
    size: Size,
    time: Duration,
    digest: u64,
) -> io::Result<()> {
    print!(rt; "{kind} {name} {} x {}: ", size.rows(), size.width)?;
    print_result(rt, mode, time, digest)
}

/// Prints the end of a line: the time, where times are printed, and the digest.
pub fn print_result(rt: &HostRuntime, mode: Mode, time: Duration, digest: u64) -> io::Result<()> {
    if mode == Mode::Times {
        print!(rt; "{} ns, ", time.as_nanos())?;
    }
    println!(rt; "[{digest}]")
}

/// How many times a pass is run.
pub fn runs(mode: Mode, timed: usize) -> usize {
    match mode {
        Mode::Digests => 1,
        Mode::Times => timed,
    }
}

/// How many times a pass over matrices of this size is run when it is timed.
pub fn runs_of(size: Size) -> usize {
    ((1 << 23) / (size.rows() * size.width)).clamp(FEWEST_RUNS, MOST_RUNS)
}

/// The shortest time of a run, and the digest of what came of the last one.
fn fastest_transform(
    rt: &HostRuntime,
    transform: Transform,
    size: Size,
    start: Mersenne31,
    step: Mersenne31,
    runs: usize,
) -> io::Result<(Duration, u32)> {
    let matrix = size.matrix(rt.alloc(), start, step)?;
    let mut best = Duration::MAX;
    let mut digest = 0;
    for _ in 0..runs {
        let copy = matrix.try_clone(rt.alloc())?;
        let begin = Instant::now(rt)?;
        let transformed = transform.run(rt.alloc(), size.log_rows, copy)?;
        best = best.min(begin.elapsed(rt)?);
        digest = transforms::digest(transformed.values(), step).value();
    }
    Ok((best, digest))
}

/// The time of one of `count` operations in nanoseconds.
pub fn nanoseconds_each(time: Duration, count: u32) -> u128 {
    time.as_nanos() / u128::from(count.max(1))
}
