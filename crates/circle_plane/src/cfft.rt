//! Polynomials on the circle: the transform between their coefficients and values on a domain.
ghost use Rattle.std.specs.Prelude.{◌≡◌, ℕ, ◌≤◌, ◌<◌, ◌-◌, ◌*◌, ◌^◌, ◌++◌};
ghost use Rattle.std.specs.Prelude.{length, map, All, IfOk, OnOk};
ghost use Rattle.circle_commit.specs.DotProduct.{pairwise, scaled};
ghost use Rattle.circle_commit.specs.Matrix.{IsPowerOfTwo, rows_from};
ghost use Rattle.circle_commit.specs.RowMajorMatrix.{rows, width_of, height_of, values_of};
ghost use Rattle.circle_point.specs.Basis.{basis_values};
ghost use Rattle.circle_point.specs.Point.{coordinates};
ghost use Rattle.circle_domain.specs.Clear.{IsClearOf};
ghost use Rattle.circle_domain.specs.Domain.{log_size, shift_of, points_of};
ghost use Rattle.circle_domain.specs.Layers.{copies, layer_factors};
ghost use Rattle.circle_domain.specs.Order.{IsGenuine};
ghost use Rattle.circle_domain.specs.Ordering.{other_order};
ghost use Rattle.circle_cfft.specs.Butterflies.{count_of};
ghost use Rattle.circle_cfft.specs.Passes.{factors_at};

use crate::layers::{InGroups, InPasses, Layers};
use circle_cfft::{Butterflies, backward_twiddles, forward_twiddles};
use circle_commit::{FieldMatrix, Matrix, MatrixShape, RowMajorMatrix, entry_count, log2_strict};
use circle_domain::{CfftPermutable, CfftView, CircleDomain, LagrangeWeights, lagrange_weights};
use circle_field::{ComplexExtendable, ExtensionField, Field, Operations};
use circle_point::Point;
use std::alloc::{AllocError, Global};

/// The values of functions at the points of a domain, a column for each function: the rows stand in
/// the order of the circle transform.
#[derive(Drop)]
pub struct CircleEvaluations<F: Operations, M: MatrixShape> {
    domain: CircleDomain<F>,
    values: M,
    pub ghost small: { log_size domain ≤ 63 },
    pub ghost row_for_each_point: { M.height values ≡ 2 ^ log_size domain },
}

impl<F: Operations, M: Matrix<F>> CircleEvaluations<F, M> {
    ghost use Rattle.circle_plane.specs.CfftView.{seen_rows, seen_width};
    ghost use Rattle.circle_plane.specs.CircleEvaluations.{domain_of, cfft_values, natural_rows};

    /// Evaluations whose rows stand in the order of the circle transform.
    ///
    /// Requires one row for each point.
    pub fn from_cfft_order(domain: CircleDomain<F>, values: M) -> Self
        requires small { log_size domain ≤ 63 }
        requires size { M.height values ≡ 2 ^ log_size domain }
        ensures domain { domain_of result ≡ domain }
        ensures values { cfft_values result ≡ values }
    {
        CircleEvaluations { domain, values }
    }

    /// Evaluations whose rows stand in natural order, without copying them.
    ///
    /// Requires one row for each point.
    pub fn from_natural_order(
        domain: CircleDomain<F>,
        values: M,
    ) -> CircleEvaluations<F, CfftView<M>>
        requires small { log_size domain ≤ 63 }
        requires size { M.height values ≡ 2 ^ log_size domain }
        ensures domain { domain_of result ≡ domain }
        ensures rows { seen_rows M.rows (cfft_values result)
            ≡ other_order (log_size domain) (M.rows values) }
        ensures back { other_order (log_size domain) (seen_rows M.rows (cfft_values result))
            ≡ M.rows values }
        ensures width { seen_width M.width (cfft_values result) ≡ M.width values }
    {
        CircleEvaluations::from_cfft_order(domain, values.cfft_perm_rows())
    }

    /// The rows in the order of the circle transform, without copying them.
    pub fn to_cfft_order(self) -> M
        ensures { result ≡ cfft_values self }
    {
        let CircleEvaluations { domain: _, values } = self;
        values
    }

    /// The rows in natural order, without copying them.
    pub fn to_natural_order(self) -> CfftView<M>
        ensures rows { seen_rows M.rows result ≡ natural_rows M.rows self }
        ensures back { other_order (log_size (domain_of self)) (seen_rows M.rows result)
            ≡ M.rows (cfft_values self) }
        ensures width { seen_width M.width result ≡ M.width (cfft_values self) }
    {
        let CircleEvaluations { domain: _, values } = self;
        values.cfft_perm_rows()
    }
}

impl<F: ComplexExtendable, M: Matrix<F> + Drop> CircleEvaluations<F, M> {
    ghost use Rattle.circle_plane.specs.CircleEvaluations.{domain_of, cfft_values, natural_rows};
    ghost use Rattle.circle_plane.specs.Coefficients.{AreCoefficients, AreOnlyOnes};
    ghost use Rattle.circle_plane.specs.Coefficients.{Interpolates, natural_values_on};
    ghost use Rattle.circle_plane.specs.Evaluated.{AreExtrapolated};

    /// The coefficients in the circle basis of the only polynomials with these values, a column
    /// for each: as many as the domain has points (Circle STARKs, section 4.2). Their values at the
    /// points in natural order are the rows in natural order.
    ///
    /// Requires a genuine domain with `log_n <= CIRCLE_TWO_ADICITY`. Fails where memory is refused.
    pub fn interpolate(self, alloc: Global) -> Result<RowMajorMatrix<F>, AllocError>
        requires genuine { IsGenuine F.ops (log_size (domain_of self)) (shift_of (domain_of self)) }
        requires in_group { log_size (domain_of self) ≤ F.CIRCLE_TWO_ADICITY }
        ensures width { IfOk result (λ coeffs. width_of coeffs ≡ M.width (cfft_values self)) }
        ensures height { IfOk result (λ coeffs. height_of coeffs ≡ 2 ^ log_size (domain_of self)) }
        ensures values { IfOk result (λ coeffs. AreCoefficients F.ops F.generators (domain_of self)
            (M.width (cfft_values self)) (rows coeffs) (M.rows (cfft_values self))) }
        ensures natural { IfOk result (λ coeffs. natural_values_on F.ops F.generators
            (domain_of self) (width_of coeffs) (rows coeffs) ≡ natural_rows M.rows self) }
        ensures only { IfOk result (λ coeffs. AreOnlyOnes F.ops F.generators (domain_of self)
            (M.width (cfft_values self)) (M.rows (cfft_values self)) (rows coeffs)) }
    {
        self.interpolate_by(alloc, &mut InPasses)
    }

    /// What [`interpolate`](Self::interpolate) returns, and the number of butterflies of a column:
    /// up to `group` consecutive layers are applied to one independent group of rows before the
    /// next group is begun. A `group` above the number of layers counts as that number.
    ///
    /// Requires what `interpolate` requires, and at least one layer a group. Fails where memory is
    /// refused.
    pub fn interpolate_grouped(
        self,
        alloc: Global,
        group: usize,
    ) -> Result<(RowMajorMatrix<F>, Butterflies), AllocError>
        requires genuine { IsGenuine F.ops (log_size (domain_of self)) (shift_of (domain_of self)) }
        requires in_group { log_size (domain_of self) ≤ F.CIRCLE_TWO_ADICITY }
        requires some_layers { 1 ≤ group }
        ensures width { IfOk result (λ made. width_of made.0 ≡ M.width (cfft_values self)) }
        ensures values { let given = cfft_values self in IfOk result (λ made. Interpolates F.ops
            F.generators (domain_of self) (M.width given) (M.rows given) (rows made.0)) }
        ensures count { let n = log_size (domain_of self) in
            IfOk result (λ made. count_of made.1 ≡ n * 2 ^ (n - 1)) }
    {
        let mut layers = InGroups::new(group);
        let coeffs = self.interpolate_by(alloc, &mut layers)?;
        Ok((coeffs, layers.into_butterflies()))
    }

    // The coefficients, by layers that are applied in this way.
    fn interpolate_by<L: Layers<F>>(
        self,
        alloc: Global,
        layers: &mut L,
    ) -> Result<RowMajorMatrix<F>, AllocError>
        requires genuine { IsGenuine F.ops (log_size (domain_of self)) (shift_of (domain_of self)) }
        requires in_group { log_size (domain_of self) ≤ F.CIRCLE_TWO_ADICITY }
        requires room { (n : ℕ) → n < 2 ^ 70 → L.has_room layers.old n }
        ensures width { IfOk result (λ coeffs. width_of coeffs ≡ M.width (cfft_values self)) }
        ensures values { let given = cfft_values self in IfOk result (λ coeffs. Interpolates F.ops
            F.generators (domain_of self) (M.width given) (M.rows given) (rows coeffs)) }
        ensures count { let n = log_size (domain_of self) in let width = M.width (cfft_values self)
            in OnOk result (L.counts layers.old layers.new width (2 ^ n * width) n) }
    {
        let CircleEvaluations { domain, values } = self;
        let width = values.width();
        let mut entries = copied_rows(alloc, &values)?;
        let inverses = backward_twiddles(alloc, domain)?;
        let scale = F::ONE.div_2exp_u64(domain.log_n() as u64);
        layers.backward(&mut entries, width, &inverses, scale);
        Ok(RowMajorMatrix::new(entries, width))
    }

    /// The values on `target` of the only polynomials with these values (Circle STARKs, section
    /// 4.3): their coefficients, with zeros for the further ones, have these values there. In the
    /// order of the transform the first `2^m` rows are the values on the domain of `2^m` points
    /// with the target's shift.
    ///
    /// Requires a genuine domain and a target that is at least as large, with `log_n <=
    /// CIRCLE_TWO_ADICITY`. Fails where memory is refused.
    pub fn extrapolate(
        self,
        alloc: Global,
        target: CircleDomain<F>,
    ) -> Result<CircleEvaluations<F, RowMajorMatrix<F>>, AllocError>
        requires genuine { IsGenuine F.ops (log_size (domain_of self)) (shift_of (domain_of self)) }
        requires larger { log_size (domain_of self) ≤ log_size target }
        requires in_group { log_size target ≤ F.CIRCLE_TWO_ADICITY }
        ensures domain { IfOk result (λ e. domain_of e ≡ target) }
        ensures width { IfOk result (λ e. width_of (cfft_values e) ≡ M.width (cfft_values self)) }
        ensures values { IfOk result (λ e. AreExtrapolated F.ops F.generators M.width M.rows
            self target (rows (cfft_values e))) }
    {
        let coeffs = self.interpolate(alloc)?;
        CircleEvaluations::evaluate(alloc, target, coeffs)
    }
}

impl<F: ComplexExtendable, M: Matrix<F>> CircleEvaluations<F, M> {
    ghost use Rattle.circle_plane.specs.CircleEvaluations.{domain_of};
    ghost use Rattle.circle_plane.specs.Evaluated.{AreFoundAt, AreFoundBy, AreFoundByEach};
    ghost use Rattle.circle_plane.specs.Evaluated.{AreOfAllAt, AreOfAllBy};

    /// The values at `point` of the only polynomials with these values, for each column (Circle
    /// STARKs, section 4.3).
    ///
    /// Requires a genuine domain with `log_n <= CIRCLE_TWO_ADICITY` that `point` is clear of. Fails
    /// where memory is refused.
    pub fn evaluate_at_point<EF: ExtensionField<F>>(
        &self,
        alloc: Global,
        point: Point<EF>,
    ) -> Result<Vec<EF>, AllocError>
        requires genuine { let d = domain_of self.now in IsGenuine F.ops (log_size d) (shift_of d) }
        requires in_group { log_size (domain_of self.now) ≤ F.CIRCLE_TWO_ADICITY }
        requires clear { IsClearOf EF.ops EF.embed
            (points_of F.ops F.generators (domain_of self.now)) (coordinates point) }
        ensures values { IfOk result (λ found. AreFoundAt F.ops F.generators EF.ops EF.embed
            M.width M.rows self.now (coordinates point) found.items) }
        ensures only { IfOk result (λ found. AreOfAllAt F.ops F.generators EF.ops EF.embed
            M.width M.rows self.now (coordinates point) found.items) }
    {
        let weights = lagrange_weights(alloc, self.domain, point)?;
        self.evaluate_by_weights(alloc, &weights)
    }

    /// The values of the only polynomials with these values, for each column, at the point whose
    /// Lagrange polynomials these are: so that they can be made once for several matrices.
    ///
    /// Requires a genuine domain with `log_n <= CIRCLE_TWO_ADICITY`, and a share for each of its
    /// points. Fails where memory is refused.
    pub fn evaluate_by_weights<EF: ExtensionField<F>>(
        &self,
        alloc: Global,
        weights: &LagrangeWeights<EF>,
    ) -> Result<Vec<EF>, AllocError>
        requires genuine { let d = domain_of self.now in IsGenuine F.ops (log_size d) (shift_of d) }
        requires in_group { log_size (domain_of self.now) ≤ F.CIRCLE_TWO_ADICITY }
        requires count { length weights.now.shares.items ≡ 2 ^ log_size (domain_of self.now) }
        ensures values { IfOk result (λ found. AreFoundBy F.ops F.generators EF.ops EF.embed
            M.width M.rows self.now weights.now found.items) }
        ensures only { IfOk result (λ found. AreOfAllBy F.ops F.generators EF.ops EF.embed
            M.width M.rows self.now weights.now found.items) }
    {
        let mut values = self.values.columnwise_dot_product(alloc, &weights.shares)?;
        scale(&mut values, weights.scale);
        Ok(values)
    }

    /// For each of the weights the values that [`evaluate_by_weights`](Self::evaluate_by_weights)
    /// returns. The rows are gone over once for all of them.
    ///
    /// Requires a genuine domain with `log_n <= CIRCLE_TWO_ADICITY`, and in each of the weights a
    /// share for each of its points. Fails where memory is refused.
    pub fn evaluate_by_each_weights<EF: ExtensionField<F>>(
        &self,
        alloc: Global,
        weights: &[&LagrangeWeights<EF>],
    ) -> Result<Vec<Vec<EF>>, AllocError>
        requires genuine { let d = domain_of self.now in IsGenuine F.ops (log_size d) (shift_of d) }
        requires in_group { log_size (domain_of self.now) ≤ F.CIRCLE_TWO_ADICITY }
        requires count { All (λ w. length w.now.shares.items ≡ 2 ^ log_size (domain_of self.now))
            weights.now }
        ensures values { IfOk result (λ all. AreFoundByEach F.ops F.generators EF.ops EF.embed
            M.width M.rows self.now weights.now (map (λ v. v.items) all.items)) }
    {
        let shares = shares_of(alloc, weights)?;
        let mut values = self.values.columnwise_dot_products(alloc, &shares)?;
        scale_each(&mut values, weights);
        Ok(values)
    }
}

impl<F: ComplexExtendable> CircleEvaluations<F, RowMajorMatrix<F>> {
    ghost use Rattle.circle_plane.specs.CircleEvaluations.{domain_of, cfft_values};
    ghost use Rattle.circle_plane.specs.Coefficients.{cfft_values_on, natural_values_on};
    ghost use Rattle.circle_plane.specs.Coefficients.{BeginsWithSmaller, Evaluates};

    /// The values on `domain` of the polynomials whose coefficients in the circle basis are the
    /// columns of `coeffs` (Circle STARKs, section 4.2).
    ///
    /// In the order of the transform the first `2^m` rows are the values on the domain of `2^m`
    /// points with the same shift.
    ///
    /// Requires `1 <= log_n <= CIRCLE_TWO_ADICITY` of the domain, with any shift, and of `coeffs` a
    /// height that is a power of two and at most the domain's size. Fails where memory is refused.
    pub fn evaluate(
        alloc: Global,
        domain: CircleDomain<F>,
        coeffs: RowMajorMatrix<F>,
    ) -> Result<Self, AllocError>
        requires positive { 1 ≤ log_size domain }
        requires in_group { log_size domain ≤ F.CIRCLE_TWO_ADICITY }
        requires power { IsPowerOfTwo (height_of coeffs) }
        requires at_most_size { height_of coeffs ≤ 2 ^ log_size domain }
        ensures domain { IfOk result (λ e. domain_of e ≡ domain) }
        ensures width { IfOk result (λ e. width_of (cfft_values e) ≡ width_of coeffs) }
        ensures cfft { IfOk result (λ e. rows (cfft_values e)
            ≡ cfft_values_on F.ops F.generators domain (width_of coeffs) (rows coeffs)) }
        ensures values { IfOk result (λ e. other_order (log_size domain) (rows (cfft_values e))
            ≡ natural_values_on F.ops F.generators domain (width_of coeffs) (rows coeffs)) }
        ensures prefix { IfOk result (λ e. BeginsWithSmaller F.ops F.generators domain
            (width_of coeffs) (rows coeffs) (rows (cfft_values e))) }
    {
        CircleEvaluations::evaluate_by(alloc, domain, coeffs, &mut InPasses)
    }

    /// What [`evaluate`](Self::evaluate) returns, and the number of butterflies of a column: up to
    /// `group` consecutive layers are applied to one independent group of rows before the next
    /// group is begun. A `group` above the number of layers counts as that number. Layers that copy
    /// coefficients cost none.
    ///
    /// Requires what `evaluate` requires, and at least one layer a group. Fails where memory is
    /// refused.
    pub fn evaluate_grouped(
        alloc: Global,
        domain: CircleDomain<F>,
        coeffs: RowMajorMatrix<F>,
        group: usize,
    ) -> Result<(Self, Butterflies), AllocError>
        requires positive { 1 ≤ log_size domain }
        requires in_group { log_size domain ≤ F.CIRCLE_TWO_ADICITY }
        requires power { IsPowerOfTwo (height_of coeffs) }
        requires at_most_size { height_of coeffs ≤ 2 ^ log_size domain }
        requires some_layers { 1 ≤ group }
        ensures domain { IfOk result (λ made. domain_of made.0 ≡ domain) }
        ensures width { IfOk result (λ made. width_of (cfft_values made.0) ≡ width_of coeffs) }
        ensures values { IfOk result (λ made. Evaluates F.ops F.generators domain (width_of coeffs)
            (rows coeffs) (rows (cfft_values made.0))) }
        ensures count { (n : ℕ) → height_of coeffs ≡ 2 ^ n →
            IfOk result (λ made. count_of made.1 ≡ n * 2 ^ (log_size domain - 1)) }
    {
        let mut layers = InGroups::new(group);
        let values = CircleEvaluations::evaluate_by(alloc, domain, coeffs, &mut layers)?;
        Ok((values, layers.into_butterflies()))
    }

    // The values, by layers that are applied in this way.
    fn evaluate_by<L: Layers<F>>(
        alloc: Global,
        domain: CircleDomain<F>,
        coeffs: RowMajorMatrix<F>,
        layers: &mut L,
    ) -> Result<Self, AllocError>
        requires positive { 1 ≤ log_size domain }
        requires in_group { log_size domain ≤ F.CIRCLE_TWO_ADICITY }
        requires power { IsPowerOfTwo (height_of coeffs) }
        requires at_most_size { height_of coeffs ≤ 2 ^ log_size domain }
        requires room { (n : ℕ) → n < 2 ^ 70 → L.has_room layers.old n }
        ensures domain { IfOk result (λ e. domain_of e ≡ domain) }
        ensures width { IfOk result (λ e. width_of (cfft_values e) ≡ width_of coeffs) }
        ensures values { IfOk result (λ e. Evaluates F.ops F.generators domain (width_of coeffs)
            (rows coeffs) (rows (cfft_values e))) }
        ensures count { (n : ℕ) → height_of coeffs ≡ 2 ^ n → OnOk result (L.counts layers.old
            layers.new (width_of coeffs) (2 ^ log_size domain * width_of coeffs) n) }
    {
        let width = coeffs.width();
        let log_height = log2_strict(coeffs.height());
        let twiddles = lowest_twiddles(alloc, domain, log_height)?;
        let mut entries = copied_entries(alloc, coeffs, domain.log_n())?;
        layers.forward(&mut entries, width, &twiddles);
        Ok(CircleEvaluations::from_cfft_order(domain, RowMajorMatrix::new(entries, width)))
    }

    /// Equal evaluations. Fails where memory is refused.
    pub fn try_clone(&self, alloc: Global) -> Result<Self, AllocError>
        ensures domain { IfOk result (λ e. domain_of e ≡ domain_of self.now) }
        ensures width { IfOk result (λ e.
            width_of (cfft_values e) ≡ width_of (cfft_values self.now)) }
        ensures rows { IfOk result (λ e. rows (cfft_values e) ≡ rows (cfft_values self.now)) }
    {
        let values = self.values.try_clone(alloc)?;
        Ok(CircleEvaluations::from_cfft_order(self.domain, values))
    }
}

/// The values at `point` of the first `2^log_n` polynomials of the circle basis. Bit 0 of an index
/// stands for `y`, bit 1 for `x`, bit 2 for `2x^2 - 1`, and so on, each for the doubled point's x
/// coordinate (Circle STARKs, section 3.3 and 4).
///
/// Requires `1 <= log_n <= 62`. Fails where memory is refused.
pub fn circle_basis<F: Field>(
    alloc: Global,
    point: Point<F>,
    log_n: usize,
) -> Result<Vec<F>, AllocError>
    requires positive { 1 ≤ log_n }
    requires small { log_n ≤ 62 }
    ensures { IfOk result (λ basis. basis.items ≡ basis_values F.ops log_n (coordinates point)) }
{
    let mut basis = Vec::with_capacity(alloc, 1 << log_n)?;
    basis.push(F::ONE)?;
    basis.push(point.y())?;
    let mut factor = point.x();
    for _ in 1..log_n {
        append_scaled(&mut basis, factor)?;
        factor = factor.square().double() - F::ONE;
    }
    Ok(basis)
}

// Appends to the entries each of them times `factor`.
fn append_scaled<F: Field>(entries: &mut Vec<F>, factor: F) -> Result<(), AllocError>
    ensures { OnOk result (entries.new.items
        ≡ entries.old.items ++ map (λ b. F.ops.mul b factor) entries.old.items) }
{
    for i in 0..entries.len() {
        let scaled = entries[i] * factor;
        entries.push(scaled)?;
    }
    Ok(())
}

// The entries of rows, one row after another.
fn copied_rows<F: Field, M: Matrix<F>>(alloc: Global, values: &M) -> Result<Vec<F>, AllocError>
    ensures length { IfOk result (λ v.
        length v.items ≡ M.height values.now * M.width values.now) }
    ensures rows { IfOk result (λ v.
        rows_from (M.width values.now) (M.height values.now) v.items ≡ M.rows values.now) }
{
    Ok(RowMajorMatrix::copy_of(alloc, values)?.into_values())
}

// The factors of the lowest `layers` layers of a domain.
fn lowest_twiddles<F: ComplexExtendable>(
    alloc: Global,
    domain: CircleDomain<F>,
    layers: usize,
) -> Result<Vec<Vec<F>>, AllocError>
    requires positive { 1 ≤ log_size domain }
    requires in_group { log_size domain ≤ F.CIRCLE_TWO_ADICITY }
    requires within { layers ≤ log_size domain }
    ensures count { IfOk result (λ twiddles. length twiddles.items ≡ layers) }
    ensures factors { IfOk result (λ twiddles. (l : ℕ) → l < layers → factors_at twiddles.items l
        ≡ layer_factors F.ops F.generators (log_size domain) (shift_of domain) l) }
{
    let mut twiddles = forward_twiddles(alloc, domain)?;
    twiddles.truncate(layers);
    Ok(twiddles)
}

// The entries of coefficients, over and over, for the points of a domain of `2^log_n`.
//
// The further coefficients are zeros, and a layer whose upper halves are zeros is a copy: `a + 0 t`
// and `a - 0 t` are `a`. So the layers above the height copy the coefficients.
fn copied_entries<F: Field>(
    alloc: Global,
    coeffs: RowMajorMatrix<F>,
    log_n: usize,
) -> Result<Vec<F>, AllocError>
    requires small { log_n ≤ 62 }
    requires power { IsPowerOfTwo (height_of coeffs) }
    requires at_most_size { height_of coeffs ≤ 2 ^ log_n }
    ensures length { IfOk result (λ v. length v.items ≡ 2 ^ log_n * width_of coeffs) }
    ensures copies { (h : ℕ) → height_of coeffs ≡ 2 ^ h →
        IfOk result (λ v. v.items ≡ copies (2 ^ (log_n - h)) (values_of coeffs)) }
{
    let log_height = log2_strict(coeffs.height());
    repeat(alloc, coeffs.into_values(), 1 << (log_n - log_height))
}

// The entries, `count` times over.
fn repeat<F: Field>(alloc: Global, entries: Vec<F>, count: usize) -> Result<Vec<F>, AllocError>
    ensures { IfOk result (λ repeated. repeated.items ≡ copies count entries.items) }
{
    if count == 1 {
        return Ok(entries);
    }
    let mut repeated = Vec::with_capacity(alloc, entry_count(count, entries.len())?)?;
    for _ in 0..count {
        repeated.extend_from_slice(&entries)?;
    }
    Ok(repeated)
}

// The shares of each of the weights, lent.
fn shares_of<'a, EF: Field>(
    alloc: Global,
    weights: &[&'a LagrangeWeights<EF>],
) -> Result<Vec<&'a [EF]>, AllocError>
    ensures { IfOk result (λ lent. map (λ s. s.now) lent.items
        ≡ map (λ w. w.now.shares.items) weights.now) }
{
    let mut lent = Vec::with_capacity(alloc, weights.len())?;
    for &w in weights {
        lent.push(w.shares.as_slice())?;
    }
    Ok(lent)
}

// Multiplies each list of values by the scale of its weights.
fn scale_each<EF: Field>(values: &mut [Vec<EF>], weights: &[&LagrangeWeights<EF>])
    requires { length values.old ≡ length weights.now }
    ensures { map (λ v. v.items) values.new ≡ pairwise (λ found w. scaled EF.ops w.now.scale found)
        (map (λ v. v.items) values.old) weights.now }
{
    for (i, w) in weights.iter().enumerate() {
        scale(&mut values[i], w.scale);
    }
}

// Multiplies each entry by `factor`.
fn scale<F: Field>(entries: &mut [F], factor: F)
    ensures { entries.new ≡ scaled F.ops factor entries.old }
{
    for entry in entries.iter_mut() {
        *entry = *entry * factor;
    }
}
