//! The quotient put together from its chunks, at a point out of their domains.
ghost use Rattle.std.specs.Prelude.{◌≡◌, ◌≢◌, ◌≤◌, ◌<◌, ◌+◌, ◌^◌, ℕ, IfOk, All, length, map, remove};
ghost use Rattle.std.specs.Prelude.{slice_index_or, take, vec_len};
ghost use Rattle.std.specs.List.{range_with_len};
ghost use Rattle.circle_field.specs.Field.{sub};
ghost use Rattle.circle_field.specs.Products.{product};
ghost use Rattle.circle_commit.specs.DotProduct.{dot};
ghost use Rattle.circle_commit.specs.Matrix.{IsPowerOfTwo};
ghost use Rattle.circle_point.specs.Basis.{vanishing};
ghost use Rattle.circle_point.specs.Projective.{from_line};
ghost use Rattle.circle_domain.specs.Order.{natural_order};
ghost use Rattle.circle_domain.specs.Selectors.{IsFinite};
ghost use Rattle.circle_quotient.specs.Basis.{AreBasis};
ghost use Rattle.circle_quotient.specs.Recomposition.{IsRecomposed, part_factor, part_values};

use circle_commit::log2_strict;
use circle_domain::CircleDomain;
use circle_field::{ComplexExtendable, ExtensionField, Field, batch_multiplicative_inverse};
use circle_point::Point;
use std::alloc::{AllocError, Global};

// The product of `at` less each of the values.
fn product_of_differences<F: Field, EF: ExtensionField<F>>(at: EF, values: &[F]) -> EF
    ensures { result
        ≡ product EF.ops (map (λ x. sub EF.ops at (EF.embed x)) values.now) }
{
    let mut product = EF::ONE;
    for value in values {
        product = product * (at - EF::from_base(*value));
    }
    product
}

// The product of `at` less each of the values but the one in place `own`.
fn product_without<F: Field, EF: ExtensionField<F>>(at: EF, values: &[F], own: usize) -> EF
    requires { own < length values.now }
    ensures { result
        ≡ product EF.ops (map (λ x. sub EF.ops at (EF.embed x)) (remove values.now own)) }
{
    let before = product_of_differences(at, &values[..own]);
    before * product_of_differences(at, &values[own + 1..])
}

// For each value the product of its differences from the others.
fn denominators<F: Field>(alloc: Global, values: &[F]) -> Result<Vec<F>, AllocError>
    ensures { IfOk result (λ made. made.items ≡ map (λ j. product F.ops
        (map (λ x. sub F.ops (slice_index_or values.now j F.ops.zero) x) (remove values.now j)))
        (range_with_len 0 (length values.now))) }
{
    let mut made = Vec::with_capacity(alloc, values.len())?;
    for (j, value) in values.iter().enumerate() {
        made.push(product_without::<F, F>(*value, values, j))?;
    }
    Ok(made)
}

// The elements with one coefficient 1 and the others 0.
fn basis<F: Field, EF: ExtensionField<F>>(alloc: Global) -> Result<Vec<EF>, AllocError>
    ensures { IfOk result (λ made. AreBasis F.ops EF.coefficients EF.DEGREE made.items) }
{
    let mut made = Vec::with_capacity(alloc, EF::DEGREE)?;
    for i in 0..EF::DEGREE {
        made.push(EF::ZERO.with_coefficient(i, F::ONE))?;
    }
    Ok(made)
}

// The sum of the products of the entries at each place.
fn dot_product<E: Field>(left: &[E], right: &[E]) -> E
    requires { length left.now ≡ length right.now }
    ensures { result ≡ dot E.ops left.now right.now }
{
    let mut sum = E::ZERO;
    for (i, entry) in left.iter().enumerate() {
        sum = sum + *entry * right[i];
    }
    sum
}

/// The values of the vanishing polynomial of `2^log_n` points at the first points of the quotient's
/// domain.
///
/// Requires `1 <= log_n`, `log_n + log_num_chunks < CIRCLE_TWO_ADICITY`, and a count of at most
/// `2^(log_n + log_num_chunks)`. Fails where memory is refused.
pub(crate) fn first_vanishing_values<F: ComplexExtendable>(
    alloc: Global,
    log_n: usize,
    log_num_chunks: usize,
    count: usize,
) -> Result<Vec<F>, AllocError>
    requires positive { 1 ≤ log_n }
    requires in_group { log_n + log_num_chunks < F.CIRCLE_TWO_ADICITY }
    requires count { count ≤ 2 ^ (log_n + log_num_chunks) }
    ensures { let n = log_n + log_num_chunks in IfOk result (λ values. values.items
        ≡ map (vanishing F.ops log_n) (take count (natural_order F.ops F.generators n
        (F.generators (n + 1))))) }
{
    let domain = CircleDomain::<F>::standard(log_n + log_num_chunks);
    let mut values = Vec::with_capacity(alloc, count)?;
    for i in 0..count {
        values.push(domain.nth_point(i).v_n(log_n))?;
    }
    Ok(values)
}

// The values of the vanishing polynomial of `2^log_n` points at the first points of the parts.
fn values_on_parts<F: ComplexExtendable>(
    alloc: Global,
    log_n: usize,
    log_num_chunks: usize,
) -> Result<Vec<F>, AllocError>
    requires positive { 1 ≤ log_n }
    requires in_group { log_n + log_num_chunks < F.CIRCLE_TWO_ADICITY }
    ensures { IfOk result (λ values.
        values.items ≡ part_values F.ops F.generators log_n log_num_chunks) }
{
    first_vanishing_values(alloc, log_n, log_num_chunks, 1 << log_num_chunks)
}

// The vanishing polynomial of the standard domain of `2^log_n` points at the point of `zeta`.
fn vanishing_at<E: Field>(log_n: usize, zeta: E) -> E
    requires positive { 1 ≤ log_n }
    requires finite { IsFinite E.ops zeta }
    ensures { result ≡ vanishing E.ops log_n (from_line E.ops zeta) }
{
    let point = Point::from_projective_line(zeta).unwrap();
    point.v_n(log_n)
}

// The factors of the parts at a point where the vanishing polynomial is `at`, by its values on the
// parts: for each the product of `(at - x) / (own - x)` over the values `x` of the others.
fn part_factors<F: Field, EF: ExtensionField<F>>(
    alloc: Global,
    values: &[F],
    at: EF,
) -> Result<Vec<EF>, AllocError>
    requires { (i j : ℕ) (d : F) → i < j → j < length values.now →
        slice_index_or values.now i d ≢ slice_index_or values.now j d }
    ensures { IfOk result (λ factors. factors.items
        ≡ map (λ j. part_factor EF.ops (map EF.embed values.now) j at)
        (range_with_len 0 (length values.now))) }
{
    let inverses = batch_multiplicative_inverse(alloc, &denominators(alloc, values)?)?;
    let mut factors = Vec::with_capacity(alloc, values.len())?;
    for j in 0..values.len() {
        factors.push(product_without(at, values, j).times_base(inverses[j]))?;
    }
    Ok(factors)
}

// The value of each chunk: the sum of its coefficients' values, each times its element of the
// basis.
fn chunk_values<E: Field>(
    alloc: Global,
    basis: &[E],
    chunks: &[Vec<E>],
) -> Result<Vec<E>, AllocError>
    requires { All (λ chunk. vec_len chunk ≡ length basis.now) chunks.now }
    ensures { IfOk result (λ made. made.items
        ≡ map (dot E.ops basis.now) (map (λ chunk. chunk.items) chunks.now)) }
{
    let mut made = Vec::with_capacity(alloc, chunks.len())?;
    for chunk in chunks {
        made.push(dot_product(basis, chunk))?;
    }
    Ok(made)
}

/// The quotient at the point of coordinate `zeta`, put together from its chunks there: the sum over
/// the chunks of the chunk's value times the factor that is 1 on the chunk's part of the quotient's
/// domain and 0 on the others.
///
/// A chunk is given by the values of its columns, which are the coefficients of its values in the
/// base field: its value is the sum of these, each times the element with that coefficient 1 and
/// the others 0. With `X` the vanishing polynomial of the domain of `2^log_n` points at `zeta`, and
/// `x_j` its value at the first point of part `j`, the factor of part `j` is the product of
/// `(X - x_l) / (x_j - x_l)` over the other parts `l`.
///
/// Requires `1 <= log_n`, a power of two of chunks, `2^k` with `log_n + k < CIRCLE_TWO_ADICITY`,
/// `DEGREE` values in each, and that `zeta` is not at infinity. Fails where memory is refused.
pub fn recompose_quotient<F: ComplexExtendable, EF: ExtensionField<F>>(
    alloc: Global,
    log_n: usize,
    chunks: &[Vec<EF>],
    zeta: EF,
) -> Result<EF, AllocError>
    requires positive { 1 ≤ log_n }
    requires power { IsPowerOfTwo (length chunks.now) }
    requires in_group { (k : ℕ) → length chunks.now ≡ 2 ^ k → log_n + k < F.CIRCLE_TWO_ADICITY }
    requires widths { All (λ chunk. vec_len chunk ≡ EF.DEGREE) chunks.now }
    requires finite { IsFinite EF.ops zeta }
    ensures { IfOk result (λ value. (k : ℕ) → length chunks.now ≡ 2 ^ k →
        IsRecomposed F.ops F.generators EF.ops EF.embed EF.coefficients EF.DEGREE log_n k
        (map (λ chunk. chunk.items) chunks.now) (from_line EF.ops zeta) value) }
{
    let vanishing = vanishing_at(log_n, zeta);
    let on_parts = values_on_parts::<F>(alloc, log_n, log2_strict(chunks.len()))?;
    let factors = part_factors(alloc, &on_parts, vanishing)?;
    let values = chunk_values(alloc, &basis::<F, EF>(alloc)?, chunks)?;
    Ok(dot_product(&factors, &values))
}
