//! Committed matrices that can be opened at points, those with their values there, and several with
//! the powers of a batching challenge. Each value carries what makes it fit, so that the functions
//! on it require none of that again.
ghost use Rattle.std.specs.Prelude.{◌≡◌, ◌<◌, ◌≤◌, ◌-◌, ◌^◌, length, All, IsTrue, IsNone, IfOk};
ghost use Rattle.std.specs.Prelude.{IfSome};
ghost use Rattle.std.specs.Coded.{Coded-set, coded_list};
ghost use Rattle.circle_commit.specs.RowMajorMatrix.{width_of};
ghost use Rattle.circle_folding.specs.Quotient.{ArePowers};
ghost use Rattle.circle_codewords.specs.Points.{coordinates_of};
ghost use Rattle.circle_codewords.specs.Values.{AreWeightsOf, AreWeightsOf-prop, CanBeOpened};

use crate::points::OpeningPoint;
use circle_commit::{Matrix, RowMajorMatrix};
use circle_domain::LagrangeWeights;
use circle_field::{ComplexExtendable, ExtensionField, Field, Operations};
use circle_relation::OverCircle;
use std::alloc::{AllocError, Global};
use std::marker::PhantomData;

/// The Lagrange polynomials, at one point, of the first points of the domain of one height.
#[derive(Drop)]
pub struct PointWeights<F: Copy, EF: OverCircle<F>> {
    /// The binary logarithm of the blowup, without which the first points are left.
    pub log_blowup: usize,
    /// The binary logarithm of the height.
    pub log_height: usize,
    /// The coordinate of the point on the projective line.
    pub point: EF,
    /// The Lagrange polynomials there.
    pub weights: LagrangeWeights<EF>,
    /// The field of the domain.
    pub field: PhantomData<F>,
    pub ghost count: { length weights.shares.items ≡ 2 ^ (log_height - log_blowup) },
    pub ghost right: { AreWeightsOf EF.fields log_blowup log_height point weights } by { AreWeightsOf-prop EF.fields log_blowup EF.code log_height point weights },
}

/// A committed matrix, with points that it can be opened at.
#[derive(Drop)]
pub struct MatrixAtPoints<'a, F: Copy, EF: OverCircle<F> + Operations> {
    /// The binary logarithm of its height.
    pub log_height: usize,
    /// Its rows, in the order of the transform.
    pub rows: &'a RowMajorMatrix<F>,
    /// The points.
    pub points: &'a [OpeningPoint<EF>],
    pub ghost openable: { CanBeOpened EF.fields log_height rows.now (coordinates_of points.now) },
}

/// A committed matrix, with the points that it is opened at and its columns' values there.
#[derive(Drop)]
pub struct OpenedMatrix<'a, F: Copy, EF: OverCircle<F> + Operations> {
    /// The binary logarithm of its height.
    pub log_height: usize,
    /// Its rows, in the order of the transform.
    pub rows: &'a RowMajorMatrix<F>,
    /// The points.
    pub points: &'a [OpeningPoint<EF>],
    /// For each point the value of each column.
    pub values: &'a [Vec<EF>],
    pub ghost openable: { CanBeOpened EF.fields log_height rows.now (coordinates_of points.now) },
    pub ghost valued: { length values.now ≡ length points.now },
    pub ghost widths: { All (λ v. length v.items ≡ width_of rows.now) values.now },
}

/// Matrices that are opened, with the powers of the challenge that batches the claims on them.
#[derive(Drop)]
pub struct BatchedMatrices<'a, F: Copy, EF: OverCircle<F> + Operations> {
    /// The matrices.
    pub matrices: &'a [OpenedMatrix<'a, F, EF>],
    /// The binary logarithm of the blowup, at least 1.
    pub log_blowup: usize,
    /// The challenge.
    pub alpha: EF,
    /// Its powers from the first on, more than any matrix has columns.
    pub powers: Vec<EF>,
    pub ghost blowup: { 1 ≤ log_blowup },
    pub ghost are_powers: { ArePowers EF.fields.extension alpha powers.items } by { Coded-set (coded_list EF.code) _ _ },
    pub ghost enough: { All (λ m. width_of m.rows.now < length powers.items) matrices.now },
}

// Whether values are of `width` columns each.
fn have_width<EF: Copy>(values: &[Vec<EF>], width: usize) -> bool
    ensures yes { IsTrue result → All (λ v. length v.items ≡ width) values.now }
    ensures no { All (λ v. length v.items ≡ width) values.now → IsTrue result }
{
    for value in values {
        if value.len() != width {
            return false;
        }
    }
    true
}

impl<'a, F: ComplexExtendable, EF: ExtensionField<F>> MatrixAtPoints<'a, F, EF> {
    /// The matrix with these values, where they are a value of each column for each of its points.
    /// Takes no memory.
    pub fn with_values(self, values: &'a [Vec<EF>]) -> Option<OpenedMatrix<'a, F, EF>>
        ensures matrix { IfSome result (λ m. (m.log_height ≡ self.entry.log_height)
            × (m.rows.now ≡ self.entry.rows.now)) }
        ensures claims { IfSome result (λ m. (m.points.now ≡ self.entry.points.now)
            × (m.values.now ≡ values.now)) }
        ensures none { IsNone result → length values.now ≡ length self.entry.points.now →
            All (λ v. length v.items ≡ width_of self.entry.rows.now) values.now → ⊥ }
    {
        if values.len() != self.points.len() || !have_width(values, self.rows.width()) {
            return None;
        }
        Some(OpenedMatrix {
            log_height: self.log_height,
            rows: self.rows,
            points: self.points,
            values,
        })
    }
}

// A number above that of every matrix's columns.
fn above_widths<F: ComplexExtendable, EF: ExtensionField<F>>(
    matrices: &[OpenedMatrix<F, EF>],
) -> usize
    ensures { All (λ m. width_of m.rows.now < result) matrices.now }
{
    let mut greatest = 0;
    for matrix in matrices {
        greatest = greatest.max(matrix.rows.width());
    }
    greatest + 1
}

impl<'a, F: ComplexExtendable, EF: ExtensionField<F>> BatchedMatrices<'a, F, EF> {
    /// The matrices with as many powers of the challenge as their codewords take.
    ///
    /// Requires `log_blowup >= 1`. Fails where memory is refused.
    pub fn new(
        alloc: Global,
        matrices: &'a [OpenedMatrix<'a, F, EF>],
        log_blowup: usize,
        alpha: EF,
    ) -> Result<BatchedMatrices<'a, F, EF>, AllocError>
        requires { 1 ≤ log_blowup }
        ensures { IfOk result (λ b. (b.matrices.now ≡ matrices.now)
            × (b.log_blowup ≡ log_blowup) × (b.alpha ≡ alpha)) }
    {
        let powers = EF::powers(alloc, alpha, above_widths(matrices))?;
        Ok(BatchedMatrices {
            matrices,
            log_blowup,
            alpha,
            powers,
        })
    }
}
