//! Lines about values at a point off the domain: what they come to, and how long they take.

use crate::timing::{self, Mode};
use crate::transforms::{self, Size};
use circle_field::{Cubic, ExtensionField, Field, Mersenne31};
use circle_plane::{CircleDomain, CircleEvaluations, Point};
use std::alloc::{AllocError, Global};
use std::io::{self, ErrorKind};
use std::time::{Duration, Instant};

/// Prints a line for the polynomials with the rows of a matrix of each size.
pub fn report(
    rt: &HostRuntime,
    mode: Mode,
    sizes: &[Size],
    start: Mersenne31,
    step: Mersenne31,
) -> io::Result<()> {
    let coordinate = Cubic::from_coefficients(&[start, step, start.square()]);
    let Some(at) = Point::from_projective_line(coordinate) else {
        return Err(io::Error::from(ErrorKind::InvalidInput));
    };
    for size in sizes {
        let runs = timing::runs(mode, timing::runs_of(*size));
        let (time, digest) = fastest(rt, *size, at, start, step, runs)?;
        let digest = u64::from(digest);
        timing::print_line(rt, mode, "Cubic", "evaluate_at_point", *size, time, digest)?;
    }
    Ok(())
}

/// The shortest time in which the values at the point are made, and the digest of the last ones.
fn fastest(
    rt: &HostRuntime,
    size: Size,
    at: Point<Cubic>,
    start: Mersenne31,
    step: Mersenne31,
    runs: usize,
) -> io::Result<(Duration, u32)> {
    let matrix = size.matrix(rt.alloc(), start, step)?;
    let domain = CircleDomain::standard(size.log_rows);
    if !domain.is_genuine() || !domain.is_clear_of(at) {
        return Err(io::Error::from(ErrorKind::InvalidInput));
    }
    let evaluations = CircleEvaluations::from_cfft_order(domain, matrix);
    let mut best = Duration::MAX;
    let mut digest = 0;
    for _ in 0..runs {
        let begin = Instant::now(rt)?;
        let values = evaluations.evaluate_at_point(rt.alloc(), at)?;
        best = best.min(begin.elapsed(rt)?);
        digest = transforms::digest(&coefficients(rt.alloc(), &values)?, step).value();
    }
    Ok((best, digest))
}

/// The coefficients of the values, one value's after the other's.
pub fn coefficients(alloc: Global, values: &[Cubic]) -> Result<Vec<Mersenne31>, AllocError> {
    let mut coefficients = Vec::new(alloc);
    for value in values {
        coefficients.push(value.coefficient(0))?;
        coefficients.push(value.coefficient(1))?;
        coefficients.push(value.coefficient(2))?;
    }
    Ok(coefficients)
}
