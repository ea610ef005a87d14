//! The passes of the circle transform over matrices.
ghost use Rattle.std.specs.Prelude.{◌≡◌, ◌≤◌, ◌^◌, IfOk};
ghost use Rattle.circle_commit.specs.RowMajorMatrix.{height_of};

use circle_commit::RowMajorMatrix;
use circle_field::{Field, Mersenne31};
use circle_plane::{CircleDomain, CircleEvaluations};
use std::alloc::{AllocError, Global};

/// What is done with a matrix.
#[derive(Clone, Copy, PartialEq, Eq)]
pub enum Transform {
    /// The coefficients of the values on the standard domain.
    Interpolate,

    /// The values on the standard domain of the coefficients.
    Evaluate,

    /// The values on the standard domain of twice the size.
    Extrapolate,
}

/// The shape of a matrix that is transformed.
#[derive(Clone, Copy)]
pub struct Size {
    /// The binary logarithm of the number of rows.
    pub log_rows: usize,
    /// The number of columns.
    pub width: usize,
    ghost positive: { 1 ≤ log_rows },
    ghost small: { log_rows ≤ 24 },
    ghost some_columns: { 1 ≤ width },
    ghost few_columns: { width ≤ 2048 },
}

impl Size {
    /// The number of rows.
    pub fn rows(self) -> usize
        ensures { result ≡ 2 ^ self.log_rows }
    {
        1 << self.log_rows
    }

    /// The matrix of this size whose entries, row after row, are a chain: each is the square of the
    /// one before it, plus the step.
    pub fn matrix(
        self,
        alloc: Global,
        start: Mersenne31,
        step: Mersenne31,
    ) -> Result<RowMajorMatrix<Mersenne31>, AllocError>
        ensures { IfOk result (λ matrix. height_of matrix ≡ 2 ^ self.log_rows) }
    {
        let len = self.rows() * self.width;
        let mut values = Vec::with_capacity(alloc, len)?;
        let mut x = start;
        for _ in 0..len {
            values.push(x)?;
            x = x.square() + step;
        }
        Ok(RowMajorMatrix::new(values, self.width))
    }
}

impl Transform {
    /// The name of the function that is measured.
    pub fn name(self) -> &'static str {
        match self {
            Transform::Interpolate => "interpolate",
            Transform::Evaluate => "evaluate",
            Transform::Extrapolate => "extrapolate",
        }
    }

    /// What comes of a matrix with a row for each point of the standard domain of `2^log_rows`
    /// points.
    pub fn run(
        self,
        alloc: Global,
        log_rows: usize,
        matrix: RowMajorMatrix<Mersenne31>,
    ) -> Result<RowMajorMatrix<Mersenne31>, AllocError>
        requires positive { 1 ≤ log_rows }
        requires small { log_rows ≤ 24 }
        requires height { height_of matrix ≡ 2 ^ log_rows }
    {
        let domain = CircleDomain::standard(log_rows);
        let transformed = match self {
            Transform::Interpolate => {
                return CircleEvaluations::from_cfft_order(domain, matrix).interpolate(alloc);
            }
            Transform::Evaluate => CircleEvaluations::evaluate(alloc, domain, matrix)?,
            Transform::Extrapolate => {
                let target = CircleDomain::standard(log_rows + 1);
                CircleEvaluations::from_cfft_order(domain, matrix).extrapolate(alloc, target)?
            }
        };
        Ok(transformed.to_cfft_order())
    }
}

/// The value at the step of the polynomial whose coefficients are the entries, the last one
/// constant.
pub fn digest<F: Field>(entries: &[F], step: F) -> F {
    let mut sum = F::ZERO;
    for entry in entries {
        sum = sum * step + *entry;
    }
    sum
}
