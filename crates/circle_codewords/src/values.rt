//! The values of committed polynomials at points off the domain, from the first committed rows
//! (Circle STARKs, section 4.3).
//!
//! A committed matrix of `2^log_height` rows has polynomials of `2^(log_height - log_blowup)`
//! coefficients. In the order of the transform its first rows, as many, are their values on a
//! domain of as many points, so these rows suffice. The Lagrange polynomials of that domain at a
//! point are made once for all matrices of the height.
ghost use Rattle.std.specs.Prelude.{◌≡◌, ◌≢◌, ◌+◌, ◌-◌, ◌^◌, ◌<◌, ◌≤◌, ◌↔◌, length, map, All};
ghost use Rattle.std.specs.Prelude.{IsTrue, IsNone, IfSome, IfOk, OnOk};
ghost use Rattle.std.specs.List.{AllZip, Any};
ghost use Rattle.circle_domain.specs.Clear.{IsClearOf};
ghost use Rattle.circle_domain.specs.Domain.{log_size, shift_of};
ghost use Rattle.circle_domain.specs.Selectors.{IsFinite};
ghost use Rattle.circle_folding.specs.Queries.{IsApart};
ghost use Rattle.circle_point.specs.Point.{coordinates};
ghost use Rattle.circle_point.specs.Projective.{from_line};
ghost use Rattle.circle_codewords.specs.OfMatrices.{AreValuesAt, AreWeightsFor, IsFor, IsNoneRightly};
ghost use Rattle.circle_codewords.specs.Points.{coordinates_of};
ghost use Rattle.circle_codewords.specs.Ratios.{points_of_height};
ghost use Rattle.circle_codewords.specs.Values.{AreOffStandard, domain_points};

use crate::matrix::{MatrixAtPoints, PointWeights};
use crate::points::OpeningPoint;
use circle_commit::{Matrix, RowMajorMatrix};
use circle_domain::{CircleDomain, LagrangeWeights, lagrange_weights};
use circle_field::{ComplexExtendable, ExtensionField};
use circle_plane::CircleEvaluations;
use circle_point::Point;
use std::alloc::{AllocError, Global};
use std::marker::PhantomData;

// Whether a standard domain is clear of a point.
fn is_clear_of<F: ComplexExtendable, EF: ExtensionField<F>>(
    log_height: usize,
    at: Point<EF>,
) -> bool
    requires positive { 1 ≤ log_height }
    requires in_group { log_height < F.CIRCLE_TWO_ADICITY }
    ensures { IsTrue result ↔ IsClearOf EF.ops EF.embed
        (domain_points F.ops F.generators log_height) (coordinates at) }
{
    CircleDomain::<F>::standard(log_height).is_clear_of(at)
}

// Whether a coordinate belongs to a point, and a standard domain is clear of it.
fn is_off_domain<F: ComplexExtendable, EF: ExtensionField<F>>(log_height: usize, point: EF) -> bool
    requires positive { 1 ≤ log_height }
    requires in_group { log_height < F.CIRCLE_TWO_ADICITY }
    ensures { IsTrue result ↔ (IsFinite EF.ops point × IsClearOf EF.ops EF.embed
        (domain_points F.ops F.generators log_height) (from_line EF.ops point)) }
{
    match Point::from_projective_line(point) {
        Some(at) => is_clear_of::<F, EF>(log_height, at),
        None => false,
    }
}

/// Whether the points, each by its coordinate, are not at infinity, and the domain of
/// `2^log_height` committed rows is clear of each, as an opening there requires; then none is a
/// point of that domain.
///
/// Requires `1 <= log_height < CIRCLE_TWO_ADICITY`. Takes no memory.
pub fn are_off_domain<F: ComplexExtendable, EF: ExtensionField<F>>(
    log_height: usize,
    points: &[EF],
) -> bool
    requires positive { 1 ≤ log_height }
    requires in_group { log_height < F.CIRCLE_TWO_ADICITY }
    ensures yes { IsTrue result →
        AreOffStandard F.ops F.generators EF.ops EF.embed log_height points.now }
    ensures no { AreOffStandard F.ops F.generators EF.ops EF.embed log_height points.now →
        IsTrue result }
    ensures apart { IsTrue result → All (λ t. IsApart EF.embed
        (points_of_height F.ops F.generators log_height) (from_line EF.ops t)) points.now }
{
    for point in points {
        if !is_off_domain::<F, EF>(log_height, *point) {
            return false;
        }
    }
    true
}

// Whether a standard domain is clear of the points.
fn is_clear_of_each<F: ComplexExtendable, EF: ExtensionField<F>>(
    log_height: usize,
    points: &[OpeningPoint<EF>],
) -> bool
    requires positive { 1 ≤ log_height }
    requires in_group { log_height < F.CIRCLE_TWO_ADICITY }
    ensures yes { IsTrue result →
        AreOffStandard F.ops F.generators EF.ops EF.embed log_height (coordinates_of points.now) }
    ensures no { AreOffStandard F.ops F.generators EF.ops EF.embed log_height
        (coordinates_of points.now) → IsTrue result }
{
    for point in points {
        if !is_clear_of::<F, EF>(log_height, point.point) {
            return false;
        }
    }
    true
}

impl<'a, F: ComplexExtendable, EF: ExtensionField<F>> MatrixAtPoints<'a, F, EF> {
    /// The matrix with the points, where it can be opened at them: it has `2^log_height` rows, with
    /// `1 <= log_height < CIRCLE_TWO_ADICITY`, and the domain of its rows is clear of each. Takes no
    /// memory.
    pub fn new(
        log_height: usize,
        rows: &'a RowMajorMatrix<F>,
        points: &'a [OpeningPoint<EF>],
    ) -> Option<MatrixAtPoints<'a, F, EF>>
        ensures some { IfSome result (λ m. (m.log_height ≡ log_height) × (m.rows.now ≡ rows.now)
            × (m.points.now ≡ points.now)) }
        ensures none { IsNoneRightly result log_height rows.now (coordinates_of points.now) }
    {
        if log_height >= 1
            && log_height < F::CIRCLE_TWO_ADICITY
            && rows.height() == 1 << log_height
            && is_clear_of_each::<F, EF>(log_height, points)
        {
            return Some(MatrixAtPoints {
                log_height,
                rows,
                points,
            });
        }
        None
    }
}

// The domain of the first points of that of a height.
pub(crate) fn first_domain<F: ComplexExtendable>(
    log_blowup: usize,
    log_height: usize,
) -> CircleDomain<F>
    requires blowup { log_blowup < log_height }
    requires in_group { log_height < F.CIRCLE_TWO_ADICITY }
    ensures size { log_size result ≡ log_height - log_blowup }
    ensures shift { shift_of result ≡ F.generators (log_height + 1) }
{
    CircleDomain::new(log_height - log_blowup, Point::generator(log_height + 1))
}

// The weights of a height and a point under a blowup, where they were made.
fn weights_at<'a, F: ComplexExtendable, EF: ExtensionField<F>>(
    all: &'a [PointWeights<F, EF>],
    log_blowup: usize,
    log_height: usize,
    point: EF,
) -> Option<&'a PointWeights<F, EF>>
    ensures none { IsNone result → All (λ w. w.log_blowup ≡ log_blowup →
        w.log_height ≡ log_height → w.point ≢ point) all.now }
    ensures some { IfSome result (λ w. IsFor log_blowup log_height point w.now) }
    ensures known { IfSome result (λ w. Any (IsFor log_blowup log_height point) all.now) }
{
    for known in all {
        if known.log_blowup == log_blowup
            && known.log_height == log_height
            && known.point == point
        {
            return Some(known);
        }
    }
    None
}

// Makes the weights of a height and a point, where there are none yet.
fn add_weights<F: ComplexExtendable, EF: ExtensionField<F>>(
    alloc: Global,
    all: &mut Vec<PointWeights<F, EF>>,
    log_blowup: usize,
    log_height: usize,
    point: OpeningPoint<EF>,
) -> Result<(), AllocError>
    requires blowup { log_blowup < log_height }
    requires in_group { log_height < F.CIRCLE_TWO_ADICITY }
    requires off { IsClearOf EF.ops EF.embed (domain_points F.ops F.generators log_height)
        (from_line EF.ops point.coordinate) }
    ensures known { OnOk result
        (Any (IsFor log_blowup log_height point.coordinate) all.new.items) }
    ensures kept { OnOk result ((t : EF) → Any (IsFor log_blowup log_height t) all.old.items →
        Any (IsFor log_blowup log_height t) all.new.items) }
{
    if weights_at(all, log_blowup, log_height, point.coordinate).is_some() {
        return Ok(());
    }
    let domain = first_domain::<F>(log_blowup, log_height);
    let weights = lagrange_weights(alloc, domain, point.point)?;
    all.push(PointWeights {
        log_blowup,
        log_height,
        point: point.coordinate,
        weights,
        field: PhantomData,
    })?;
    Ok(())
}

impl<F: ComplexExtendable, EF: ExtensionField<F>> MatrixAtPoints<'_, F, EF> {
    // Makes the weights of the matrix's height at each of its points that has none yet.
    fn add_all_weights(
        &self,
        alloc: Global,
        all: &mut Vec<PointWeights<F, EF>>,
        log_blowup: usize,
    ) -> Result<(), AllocError>
        requires { log_blowup < self.now.log_height }
        ensures { OnOk result (All (λ p. Any (IsFor log_blowup self.now.log_height p.coordinate)
            all.new.items) self.now.points.now) }
    {
        for point in self.points {
            add_weights(alloc, all, log_blowup, self.log_height, *point)?;
        }
        Ok(())
    }

    // The weights of the matrix's height at each of its points, lent.
    fn weights_at_each<'a>(
        &self,
        alloc: Global,
        all: &'a [PointWeights<F, EF>],
        log_blowup: usize,
    ) -> Result<Vec<&'a LagrangeWeights<EF>>, AllocError>
        requires { All (λ p. Any (IsFor log_blowup self.now.log_height p.coordinate) all.now)
            self.now.points.now }
        ensures { IfOk result (λ lent.
            AllZip (AreWeightsFor self.now log_blowup) self.now.points.now lent.items) }
    {
        let mut lent = Vec::with_capacity(alloc, self.points.len())?;
        for point in self.points {
            let known = weights_at(all, log_blowup, self.log_height, point.coordinate).unwrap();
            lent.push(&known.weights)?;
        }
        Ok(lent)
    }

    // The values of the matrix's polynomials, by the weights of its height and its points.
    fn values_by_weights(
        &self,
        alloc: Global,
        log_blowup: usize,
        weights: &[&LagrangeWeights<EF>],
    ) -> Result<Vec<Vec<EF>>, AllocError>
        requires blowup { log_blowup < self.now.log_height }
        requires right { AllZip (AreWeightsFor self.now log_blowup) self.now.points.now weights.now }
        ensures count { IfOk result (λ made. length made.items ≡ length self.now.points.now) }
        ensures values { IfOk result (λ made.
            AreValuesAt self.now log_blowup (map (λ v. v.items) made.items)) }
    {
        let (first, _) = self.rows.split_rows(1 << (self.log_height - log_blowup));
        let domain = first_domain::<F>(log_blowup, self.log_height);
        CircleEvaluations::from_cfft_order(domain, first).evaluate_by_each_weights(alloc, weights)
    }

    /// At each of the points the values of the polynomials that the first rows of the matrix fix,
    /// `2^(log_height - log_blowup)` of its rows (section 4.3). The Lagrange polynomials that are
    /// made are added to `all`, where those of other matrices are found; the rows are gone over
    /// once for all points.
    ///
    /// Requires `log_blowup < log_height`. Fails where memory is refused.
    pub fn opened_values(
        &self,
        alloc: Global,
        all: &mut Vec<PointWeights<F, EF>>,
        log_blowup: usize,
    ) -> Result<Vec<Vec<EF>>, AllocError>
        requires { log_blowup < self.now.log_height }
        ensures count { IfOk result (λ made. length made.items ≡ length self.now.points.now) }
        ensures values { IfOk result (λ made.
            AreValuesAt self.now log_blowup (map (λ v. v.items) made.items)) }
    {
        self.add_all_weights(alloc, all, log_blowup)?;
        let weights = self.weights_at_each(alloc, all, log_blowup)?;
        self.values_by_weights(alloc, log_blowup, &weights)
    }
}
