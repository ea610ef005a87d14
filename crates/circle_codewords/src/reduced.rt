//! The reduced codewords: of each height, at every point of its domain, the quotients of all claims
//! on matrices of that height (Circle STARKs, section 6).
ghost use Rattle.std.specs.Prelude.{◌≡◌, ◌≢◌, ◌^◌, ◌<◌, ◌≤◌, List, length, map, All};
ghost use Rattle.std.specs.Prelude.{IsNone, IfSome, IfOk, OnOk};
ghost use Rattle.std.specs.List.{Any};
ghost use Rattle.circle_commit.specs.RowMajorMatrix.{width_of};
ghost use Rattle.circle_commit.specs.DotProduct.{dot};
ghost use Rattle.circle_field.specs.Circle.{Coordinates};
ghost use Rattle.circle_field.specs.Field.{nth_power};
ghost use Rattle.circle_folding.specs.Queries.{IsApart};
ghost use Rattle.circle_folding.specs.Quotient.{ArePowers};
ghost use Rattle.circle_point.specs.Point.{coordinates};
ghost use Rattle.circle_point.specs.Projective.{from_line};
ghost use Rattle.circle_codewords.specs.Ratios.{points_of_height, AreRatiosOf, HasRatios};
ghost use Rattle.circle_codewords.specs.Ratios.{vanishing_ratio, with_quotients};
ghost use Rattle.circle_codewords.specs.OfMatrices.{AddsClaims, HaveRatios, word_at};

use crate::matrix::{BatchedMatrices, OpenedMatrix};
use crate::points::OpeningPoint;
use crate::ratios::{PointRatios, standard_points, vanishing_ratios};
use circle_field::{ComplexExtendable, ExtensionField, Field};
use circle_point::Point;
use std::alloc::{AllocError, Global};

// The sum of claimed values, each times its power.
fn combined_values<EF: Field>(values: &[EF], powers: &[EF]) -> EF
    requires enough { length values.now ≤ length powers.now }
    ensures { result ≡ dot EF.ops powers.now values.now }
{
    let mut sum = EF::ZERO;
    for (j, value) in values.iter().enumerate() {
        sum = sum + powers[j] * *value;
    }
    sum
}

// The sum of claimed values, each times its power, and the power that follows these.
fn combined_claim<EF: Field>(values: &[EF], powers: &[EF]) -> (EF, EF)
    requires { length values.now < length powers.now }
    ensures claimed { result.0 ≡ dot EF.ops powers.now values.now }
    ensures power { (alpha : EF) → ArePowers EF.ops alpha powers.now →
        result.1 ≡ nth_power EF.ops alpha (length values.now) }
{
    (combined_values(values, powers), powers[values.len()])
}

// Adds to each sum `(half - top * t) * (c - claimed)`, with `t` its ratio and `c` its combined row.
fn add_quotients<EF: Field>(
    sums: &mut [EF],
    half: EF,
    top: EF,
    ratios: &[EF],
    combined: &[EF],
    claimed: EF,
)
    requires ratios { length ratios.now ≡ length sums.old }
    requires combined { length combined.now ≡ length sums.old }
    ensures { sums.new ≡ with_quotients EF.ops half top claimed ratios.now combined.now sums.old }
{
    for (i, sum) in sums.iter_mut().enumerate() {
        *sum = *sum + (half - top * ratios[i]) * (combined[i] - claimed);
    }
}

// The ratios of a point, where they were made.
fn ratios_at<'a, EF: Field>(all: &'a [PointRatios<EF>], point: EF) -> Option<&'a [EF]>
    ensures none { IsNone result → All (λ r. r.point ≢ point) all.now }
    ensures some { IfSome result (λ found. Any (λ r. (r.point ≡ point)
        × (r.ratios.items ≡ found.now)) all.now) }
{
    for known in all {
        if known.point == point {
            return Some(&known.ratios);
        }
    }
    None
}

// The ratios of a point that has some.
fn known_ratios<'a, F: Field, EF: ExtensionField<F>>(
    all: &'a [PointRatios<EF>],
    point: EF,
) -> &'a [EF]
    requires { HasRatios all.now point }
    ensures { (points : List (Coordinates F)) → All (AreRatiosOf EF.ops EF.embed points) all.now →
        result.now ≡ map (vanishing_ratio EF.ops EF.embed (from_line EF.ops point)) points }
{
    ratios_at(all, point).unwrap()
}

// Makes the ratios of a point, where it has none yet.
fn add_ratio<F: Field, EF: ExtensionField<F>>(
    alloc: Global,
    all: &mut Vec<PointRatios<EF>>,
    domain: &[Point<F>],
    point: OpeningPoint<EF>,
) -> Result<(), AllocError>
    requires apart { IsApart EF.embed (map coordinates domain.now) (coordinates point.point) }
    requires right { All (AreRatiosOf EF.ops EF.embed (map coordinates domain.now)) all.old.items }
    ensures right { OnOk result
        (All (AreRatiosOf EF.ops EF.embed (map coordinates domain.now)) all.new.items) }
    ensures known { OnOk result (HasRatios all.new.items point.coordinate) }
    ensures kept { OnOk result ((t : EF) → HasRatios all.old.items t → HasRatios all.new.items t) }
{
    if ratios_at(all, point.coordinate).is_some() {
        return Ok(());
    }
    let ratios = vanishing_ratios(alloc, domain, point.point)?;
    all.push(PointRatios {
        point: point.coordinate,
        ratios,
    })?;
    Ok(())
}

// Makes the ratios of each of the points that has none yet.
fn add_ratios<F: Field, EF: ExtensionField<F>>(
    alloc: Global,
    all: &mut Vec<PointRatios<EF>>,
    domain: &[Point<F>],
    points: &[OpeningPoint<EF>],
) -> Result<(), AllocError>
    requires apart { All (λ p. IsApart EF.embed (map coordinates domain.now)
        (coordinates p.point)) points.now }
    requires right { All (AreRatiosOf EF.ops EF.embed (map coordinates domain.now)) all.old.items }
    ensures right { OnOk result
        (All (AreRatiosOf EF.ops EF.embed (map coordinates domain.now)) all.new.items) }
    ensures known { OnOk result (All (λ p. HasRatios all.new.items p.coordinate) points.now) }
    ensures kept { OnOk result ((t : EF) → HasRatios all.old.items t → HasRatios all.new.items t) }
{
    for point in points {
        add_ratio(alloc, all, domain, *point)?;
    }
    Ok(())
}

impl<F: ComplexExtendable, EF: ExtensionField<F>> BatchedMatrices<'_, F, EF> {
    // The ratios of all points that matrices of a height are opened at.
    fn all_ratios(
        &self,
        alloc: Global,
        log_height: usize,
    ) -> Result<Vec<PointRatios<EF>>, AllocError>
        requires positive { 1 ≤ log_height }
        requires in_group { log_height < F.CIRCLE_TWO_ADICITY }
        ensures right { IfOk result (λ all. All (AreRatiosOf EF.ops EF.embed
            (points_of_height F.ops F.generators log_height)) all.items) }
        ensures known { IfOk result (λ all. All (λ m. m.log_height ≡ log_height →
            HaveRatios all.items m) self.now.matrices.now) }
    {
        let domain = standard_points::<F>(alloc, log_height)?;
        let mut all = Vec::new(alloc);
        for matrix in self.matrices {
            if matrix.log_height == log_height {
                add_ratios(alloc, &mut all, &domain, matrix.points)?;
            }
        }
        Ok(all)
    }

    // Adds to the sums the quotients of a matrix's rows under all claims on it, and returns the
    // offset behind them.
    fn add_matrix(
        &self,
        alloc: Global,
        sums: &mut [EF],
        offset: EF,
        ratios: &[PointRatios<EF>],
        matrix: &OpenedMatrix<F, EF>,
    ) -> Result<EF, AllocError>
        requires blowup { self.now.log_blowup < matrix.now.log_height }
        requires enough { width_of matrix.now.rows.now < length self.now.powers.items }
        requires size { length sums.old ≡ 2 ^ matrix.now.log_height }
        requires right { All (AreRatiosOf EF.ops EF.embed
            (points_of_height F.ops F.generators matrix.now.log_height)) ratios.now }
        requires known { HaveRatios ratios.now matrix.now }
        ensures { IfOk result (λ o. AddsClaims self.now matrix.now offset o sums.old sums.new) }
    {
        if matrix.points.is_empty() {
            return Ok(offset);
        }
        let powers = self.powers.as_slice();
        let combined = matrix.combined_rows(alloc, self.log_blowup, powers)?;
        let mut after = offset;
        for (i, point) in matrix.points.iter().enumerate() {
            let (claimed, power) = combined_claim(&matrix.values[i], powers);
            let half = after.halve();
            let ratios = known_ratios::<F, EF>(ratios, point.coordinate);
            add_quotients(sums, half, half * power, ratios, &combined, claimed);
            after = after * power * power;
        }
        Ok(after)
    }

    /// The codeword of one height: at each point of its domain the quotients of the claims on
    /// matrices of that height, in order, each times the power of the batching challenge of twice
    /// the number of columns that are claimed before it (section 6, Remark 21).
    ///
    /// Of a matrix of at least [`LIFT_WIDTH`](crate::LIFT_WIDTH) columns the values are taken that
    /// its first `2^(log_height - log_blowup)` rows fix.
    ///
    /// Requires `log_blowup < log_height < CIRCLE_TWO_ADICITY`. Fails where memory is refused.
    pub fn reduced_word(&self, alloc: Global, log_height: usize) -> Result<Vec<EF>, AllocError>
        requires blowup { self.now.log_blowup < log_height }
        requires in_group { log_height < F.CIRCLE_TWO_ADICITY }
        ensures count { IfOk result (λ word. length word.items ≡ 2 ^ log_height) }
        ensures word { IfOk result (λ word. word.items ≡ word_at self.now log_height) }
    {
        let ratios = self.all_ratios(alloc, log_height)?;
        let mut word = vec![in alloc; EF::ZERO; 1 << log_height]?;
        let mut offset = EF::ONE;
        for matrix in self.matrices {
            if matrix.log_height == log_height {
                offset = self.add_matrix(alloc, &mut word, offset, &ratios, matrix)?;
            }
        }
        Ok(word)
    }
}
