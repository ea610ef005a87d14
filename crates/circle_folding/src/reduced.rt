//! Reduced values: the quotients of the rows that are opened at the queries, under all claims of
//! one height.
ghost use Rattle.std.specs.Prelude.{◌≡◌, ◌^◌, ◌<◌, ◌≤◌, length, map, All, IsNone, IfSome, IfOk};
ghost use Rattle.circle_field.specs.Field.{sub};
ghost use Rattle.circle_point.specs.Point.{coordinates};
ghost use Rattle.circle_point.specs.Basis.{vanishing};
ghost use Rattle.circle_commit.specs.DotProduct.{pairwise};
ghost use Rattle.circle_folding.specs.Queries.{query_point, HaveWidth};
ghost use Rattle.circle_folding.specs.Queries.{AddsQuotients, Meets, IsApart};

use crate::deep_quotient::deep_quotient_reduce_row;
use circle_domain::{CircleDomain, cfft_permute_index};
use circle_field::{ComplexExtendable, ExtensionField, Field, Operations};
use circle_point::Point;
use std::alloc::{AllocError, Global};

/// The rows of one matrix among those that are opened.
#[derive(Drop)]
pub struct MatrixRows<'a, F> {
    /// For each query, for each matrix, the entries of its row.
    pub opened: &'a [Vec<Vec<F>>],
    /// Which matrix it is.
    pub matrix: usize,
}

/// The values that are claimed of a matrix's columns at a point.
#[derive(Drop)]
pub struct Claim<'a, EF: Operations> {
    /// The point.
    pub point: Point<EF>,
    /// The values, one for each column.
    pub values: &'a [EF],
}

/// The point of each query in the standard domain of `2^log_height` points: a query below
/// `2^log_max_height` without its lowest `log_max_height - log_height` bits is a place in the order
/// of the transform.
///
/// Requires `1 <= log_height <= log_max_height <= 62`, `log_height < CIRCLE_TWO_ADICITY`, and
/// queries below `2^log_max_height`. Fails where memory is refused.
pub fn query_points<F: ComplexExtendable>(
    alloc: Global,
    log_height: usize,
    log_max_height: usize,
    queries: &[usize],
) -> Result<Vec<Point<F>>, AllocError>
    requires positive { 1 ≤ log_height }
    requires within { log_height ≤ log_max_height }
    requires in_group { log_height < F.CIRCLE_TWO_ADICITY }
    requires small { log_max_height ≤ 62 }
    requires below { All (λ q. q < 2 ^ log_max_height) queries.now }
    ensures { IfOk result (λ points. map coordinates points.items
        ≡ map (query_point F.ops F.generators log_height log_max_height) queries.now) }
{
    let domain = CircleDomain::<F>::standard(log_height);
    let mut points = Vec::with_capacity(alloc, queries.len())?;
    for query in queries {
        let place = query >> (log_max_height - log_height);
        points.push(domain.nth_point(cfft_permute_index(place, log_height)))?;
    }
    Ok(points)
}

/// Adds to the sum of each query the quotient of its row under the claim, times `offset`. `None`
/// exactly where the claim's point is that of a query; the sums are of no use then.
///
/// Requires a point and opened rows for each sum, in these a row of the matrix of as many entries
/// as there are claimed values, and more powers. Takes no memory.
pub fn add_quotients<F: ComplexExtendable, EF: ExtensionField<F>>(
    sums: &mut [EF],
    offset: EF,
    alpha_powers: &[EF],
    points: &[Point<F>],
    rows: &MatrixRows<F>,
    claim: &Claim<EF>,
) -> Option<()>
    requires points { length points.now ≡ length sums.old }
    requires opened { length rows.now.opened.now ≡ length sums.old }
    requires rows { HaveWidth (length claim.now.values.now) rows.now }
    requires enough { length claim.now.values.now < length alpha_powers.now }
    ensures none { IsNone result →
        Meets EF.embed (map coordinates points.now) (coordinates claim.now.point) }
    ensures apart { IfSome result (λ _.
        IsApart EF.embed (map coordinates points.now) (coordinates claim.now.point)) }
    ensures sums { IfSome result (λ _. AddsQuotients EF.ops EF.embed offset alpha_powers.now
        (map coordinates points.now) rows.now claim.now sums.old sums.new) }
{
    let (opened, values) = (rows.opened, claim.values);
    let alpha_pow_width = alpha_powers[values.len()];
    for (i, sum) in sums.iter_mut().enumerate() {
        let row = &opened[i][rows.matrix];
        let quotient = deep_quotient_reduce_row(
            alpha_pow_width,
            alpha_powers,
            points[i],
            claim.point,
            row,
            values,
        )?;
        *sum = *sum + offset * quotient;
    }
    Some(())
}

/// Takes from each value `lambda` times `v_n` of its point, the vanishing polynomial of the
/// standard domain of `2^n` points.
///
/// Requires a point for each value, and `n >= 1`. Takes no memory.
pub fn subtract_vanishing<F: Field, EF: ExtensionField<F>>(
    lambda: EF,
    n: usize,
    points: &[Point<F>],
    values: &mut [EF],
)
    requires points { length points.now ≡ length values.old }
    requires positive { 1 ≤ n }
    ensures { values.new ≡ pairwise (λ v p. sub EF.ops v (EF.ops.mul lambda
        (EF.embed (vanishing F.ops n p)))) values.old (map coordinates points.now) }
{
    for (i, value) in values.iter_mut().enumerate() {
        *value = *value - lambda.times_base(points[i].v_n(n));
    }
}
