//! The selectors of the trace's rows on the quotient's domain.
//!
//! One over the selector that is 0 at a row's point `(a, b)` alone is `(b + y) / (a - x)` at a
//! point `(x, y)`. The last row's point is `(a, -b)`, so both rows' selectors are made of the same
//! inverses. The vanishing polynomial has few values on the domain, which repeat.
ghost use Rattle.std.specs.Prelude.{◌≡◌, ℕ, ◌+◌, ◌%◌, ◌^◌, ◌<◌, ◌≤◌, IfOk, length, map};
ghost use Rattle.circle_field.specs.Circle.{Coordinates};
ghost use Rattle.circle_field.specs.Field.{sub};
ghost use Rattle.circle_domain.specs.Domain.{log_size, points_of};
ghost use Rattle.circle_air.specs.Values.{entry};
ghost use Rattle.circle_quotient.specs.RowSelectors.{AreQuotientSelectors, AreRowParts};
ghost use Rattle.circle_quotient.specs.RowSelectors.{vanishing_period};

use crate::lanes::{following, write_cycle};
use crate::recomposition::first_vanishing_values;
use circle_commit::{LagrangeSelectors, PolynomialSpace};
use circle_domain::CircleDomain;
use circle_field::{ComplexExtendable, Field, batch_multiplicative_inverse};
use std::alloc::{AllocError, Global};

// For each point of a domain `x` less its x coordinate, and its y coordinate.
fn differences_and_heights<F: ComplexExtendable>(
    alloc: Global,
    domain: CircleDomain<F>,
    x: F,
) -> Result<(Vec<F>, Vec<F>), AllocError>
    requires positive { 1 ≤ log_size domain }
    requires in_group { log_size domain ≤ F.CIRCLE_TWO_ADICITY }
    ensures differences { IfOk result (λ r. r.0.items
        ≡ map (λ (q : Coordinates F). sub F.ops x q.x) (points_of F.ops F.generators domain)) }
    ensures heights { IfOk result (λ r. r.1.items
        ≡ map (λ (q : Coordinates F). q.y) (points_of F.ops F.generators domain)) }
{
    let mut differences = Vec::with_capacity(alloc, domain.size())?;
    let mut heights = Vec::with_capacity(alloc, domain.size())?;
    for point in domain.points() {
        differences.push(x - point.x())?;
        heights.push(point.y())?;
    }
    Ok((differences, heights))
}

// Multiplies each value by the one in its place of a cycle, the first of which comes after the
// last.
fn multiply_by_cycle<F: Field>(values: &mut [F], cycle: &[F])
    requires { 0 < length cycle.now }
    ensures { (r : ℕ) → r < length values.new → entry F.ops values.new r
        ≡ F.ops.mul (entry F.ops values.old r) (entry F.ops cycle.now (r % length cycle.now)) }
{
    let mut at = 0;
    for value in values.iter_mut() {
        *value = *value * cycle[at];
        at = following(at, cycle.len());
    }
}

// Writes the products of the weights and of `y` plus the heights.
fn write_row_selector<F: Field>(weights: &[F], heights: &[F], y: F, values: &mut [F])
    requires weights { length weights.now ≡ length values.old }
    requires heights { length heights.now ≡ length values.old }
    ensures { (r : ℕ) → r < length values.new → entry F.ops values.new r
        ≡ F.ops.mul (entry F.ops weights.now r) (F.ops.add y (entry F.ops heights.now r)) }
{
    for (i, value) in values.iter_mut().enumerate() {
        *value = weights[i] * (y + heights[i]);
    }
}

// Writes 1 less each of the values, multiplied by `scale`.
fn write_one_less<F: Field>(values: &[F], scale: F, less: &mut [F])
    requires { length values.now ≡ length less.old }
    ensures { (r : ℕ) → r < length less.new → entry F.ops less.new r
        ≡ sub F.ops F.ops.one (F.ops.mul (entry F.ops values.now r) scale) }
{
    for (i, entry) in less.iter_mut().enumerate() {
        *entry = F::ONE - values[i] * scale;
    }
}

// For each point the value of the vanishing polynomial over the difference, and times `y` plus the
// height: the selector of the row whose point has the y coordinate `y`.
fn row_selector<F: Field>(
    alloc: Global,
    weights: &[F],
    heights: &[F],
    y: F,
) -> Result<Vec<F>, AllocError>
    requires { length heights.now ≡ length weights.now }
    ensures count { IfOk result (λ made. length made.items ≡ length weights.now) }
    ensures values { IfOk result (λ made. (r : ℕ) → r < length weights.now → entry F.ops made.items
        r ≡ F.ops.mul (entry F.ops weights.now r) (F.ops.add y (entry F.ops heights.now r))) }
{
    let mut values = vec![in alloc; F::ZERO; weights.len()]?;
    write_row_selector(weights, heights, y, values.as_mut_slice());
    Ok(values)
}

// 1 less each of the values, multiplied by `scale`.
fn one_less_scaled<F: Field>(alloc: Global, values: &[F], scale: F) -> Result<Vec<F>, AllocError>
    ensures count { IfOk result (λ made. length made.items ≡ length values.now) }
    ensures values { IfOk result (λ made. (r : ℕ) → r < length values.now → entry F.ops made.items r
        ≡ sub F.ops F.ops.one (F.ops.mul (entry F.ops values.now r) scale)) }
{
    let mut less = vec![in alloc; F::ZERO; values.len()]?;
    write_one_less(values, scale, less.as_mut_slice());
    Ok(less)
}

// `count` entries of a cycle, the first after the last.
fn repeated<F: Field>(alloc: Global, cycle: &[F], count: usize) -> Result<Vec<F>, AllocError>
    requires { 0 < length cycle.now }
    ensures count { IfOk result (λ made. length made.items ≡ count) }
    ensures values { IfOk result (λ made. (r : ℕ) → r < count → entry F.ops made.items r
        ≡ entry F.ops cycle.now (r % length cycle.now)) }
{
    let mut made = vec![in alloc; F::ZERO; count]?;
    write_cycle(cycle, 0, made.as_mut_slice());
    Ok(made)
}

// For each point of the quotient's domain the vanishing polynomial over the difference in x from
// the first row's point, and the point's y coordinate.
fn weights_and_heights<F: ComplexExtendable>(
    alloc: Global,
    log_n: usize,
    log_num_chunks: usize,
    period: &[F],
) -> Result<(Vec<F>, Vec<F>), AllocError>
    requires positive { 1 ≤ log_n }
    requires some_chunks { 1 ≤ log_num_chunks }
    requires in_group { log_n + log_num_chunks < F.CIRCLE_TWO_ADICITY }
    requires period { period.now
        ≡ vanishing_period F.ops F.generators log_n log_num_chunks }
    ensures weights { IfOk result (λ r. length r.0.items ≡ 2 ^ (log_n + log_num_chunks)) }
    ensures heights { IfOk result (λ r. length r.1.items ≡ 2 ^ (log_n + log_num_chunks)) }
    ensures parts { IfOk result (λ r.
        AreRowParts F.ops F.generators log_n log_num_chunks r.0.items r.1.items) }
{
    let domain = CircleDomain::<F>::standard(log_n + log_num_chunks);
    let x = CircleDomain::<F>::standard(log_n).shift().x();
    let (differences, heights) = differences_and_heights(alloc, domain, x)?;
    let mut weights = batch_multiplicative_inverse(alloc, &differences)?;
    multiply_by_cycle(weights.as_mut_slice(), period);
    Ok((weights, heights))
}

/// The selectors of the rows of the standard domain of `2^log_n` points, at the points of that of
/// `2^(log_n + log_num_chunks)` points in natural order, as `selectors_on_coset` returns them.
///
/// Requires `log_n` and `log_num_chunks` of at least 1, and `log_n + log_num_chunks <
/// CIRCLE_TWO_ADICITY`. Fails where memory is refused.
pub(crate) fn quotient_selectors<F: ComplexExtendable>(
    alloc: Global,
    log_n: usize,
    log_num_chunks: usize,
) -> Result<LagrangeSelectors<Vec<F>>, AllocError>
    requires positive { 1 ≤ log_n }
    requires some_chunks { 1 ≤ log_num_chunks }
    requires in_group { log_n + log_num_chunks < F.CIRCLE_TWO_ADICITY }
    ensures { IfOk result (λ s. AreQuotientSelectors F.ops F.generators log_n log_num_chunks s) }
{
    let size = 1 << (log_n + log_num_chunks);
    let shift = CircleDomain::<F>::standard(log_n).shift();
    let count = 1 << (log_num_chunks + 1);
    let period = first_vanishing_values(alloc, log_n, log_num_chunks, count)?;
    let (weights, heights) = weights_and_heights(alloc, log_n, log_num_chunks, &period)?;
    let is_last_row = row_selector(alloc, &weights, &heights, (-shift).y())?;
    let scale = (-shift).s_p_at_p(log_n).try_inverse().unwrap();
    let inverses = batch_multiplicative_inverse(alloc, &period)?;
    Ok(LagrangeSelectors {
        is_first_row: row_selector(alloc, &weights, &heights, shift.y())?,
        is_transition: one_less_scaled(alloc, &is_last_row, scale)?,
        inv_vanishing: repeated(alloc, &inverses, size)?,
        is_last_row,
    })
}
