//! Lines about the constraints of an AIR on the rows of a trace: checking and proving them.
use crate::openings;
use crate::starks::{self, Statement};
use crate::timing::{self, Mode};
use crate::transforms::Size;
use circle_air::{Air, AirError, check_constraints};
use circle_airs::permutation::STATE_LEN;
use circle_airs::{Trace, fibonacci_air, fibonacci_trace, permutation_air, permutation_trace};
use circle_commit::Matrix;
use circle_field::{Field, Mersenne31};
use std::io::{self, ErrorKind};
use std::time::{Duration, Instant};

/// The binary logarithm of the largest number of rows of traces that are proved.
const MAX_LOG_PROVED: usize = 18;

/// Prints the lines of two AIRs with traces of each number of rows.
pub fn report(
    rt: &HostRuntime,
    mode: Mode,
    sizes: &[Size],
    start: Mersenne31,
    step: Mersenne31,
) -> io::Result<()> {
    let points = openings::points(start, step);
    let air = built(fibonacci_air(rt.alloc()))?;
    for size in sizes {
        let height = size.rows().max(1);
        let trace = fibonacci_trace(rt.alloc(), Mersenne31::ONE, Mersenne31::ONE, height)?;
        report_trace(
            rt,
            mode,
            &Statement::new("fibonacci", *size, &air, &trace, points),
        )?;
    }
    let air = built(permutation_air(rt.alloc()))?;
    for size in sizes {
        let height = size.rows().max(1);
        let trace = permutation_trace(rt.alloc(), &[Mersenne31::ONE; STATE_LEN], height)?;
        report_trace(
            rt,
            mode,
            &Statement::new("permutation", *size, &air, &trace, points),
        )?;
    }
    Ok(())
}

/// Prints the lines of a trace.
fn report_trace(rt: &HostRuntime, mode: Mode, statement: &Statement) -> io::Result<()> {
    report_check(rt, mode, statement)?;
    if statement.size.log_rows <= MAX_LOG_PROVED {
        starks::report(rt, mode, statement)?;
    }
    Ok(())
}

/// The AIR, where memory wasn't refused.
fn built(air: Result<Air<Mersenne31>, AirError>) -> io::Result<Air<Mersenne31>> {
    match air {
        Ok(air) => Ok(air),
        Err(_) => Err(io::Error::from(ErrorKind::OutOfMemory)),
    }
}

/// Prints the line of a check: 1 where the trace satisfied the AIR each time, else 0.
fn report_check(rt: &HostRuntime, mode: Mode, statement: &Statement) -> io::Result<()> {
    let Statement {
        name,
        size,
        air,
        trace,
        ..
    } = *statement;
    let mut best = Duration::MAX;
    let mut satisfied = true;
    for _ in 0..timing::runs(mode, timing::runs_of(size)) {
        let begin = Instant::now(rt)?;
        let is_satisfied = is_satisfied(rt, air, trace)?;
        best = best.min(begin.elapsed(rt)?);
        satisfied = satisfied && is_satisfied;
    }
    print!(rt; "Air check {name} {} x {}: ", size.rows(), air.width())?;
    timing::print_result(rt, mode, best, u64::from(satisfied))
}

/// Whether the trace satisfies the AIR.
fn is_satisfied(
    rt: &HostRuntime,
    air: &Air<Mersenne31>,
    trace: &Trace<Mersenne31>,
) -> io::Result<bool> {
    let public_values = trace.public_values.as_slice();
    if trace.rows.width() != air.width() || public_values.len() != air.num_public_values() {
        return Ok(false);
    }
    let found = check_constraints(rt.alloc(), air, &trace.rows, public_values)?;
    Ok(found.is_none())
}
