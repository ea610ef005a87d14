//! The polynomial in x with the values of a codeword.
ghost use Rattle.std.specs.Prelude.{◌≡◌, ℕ, ◌+◌, ◌≤◌, ◌^◌, ◌++◌, length, map, All};
ghost use Rattle.std.specs.Prelude.{IfOk, IfSome, IfNone, OnOk, IsTrue, ◌↔◌};
ghost use Rattle.circle_field.specs.Field.{sub};
ghost use Rattle.circle_commit.specs.Matrix.{IsPowerOfTwo};
ghost use Rattle.circle_commit.specs.DotProduct.{pairwise};
ghost use Rattle.circle_point.specs.Point.{coordinates};
ghost use Rattle.circle_folding.specs.Interpolation.{block_factors, factors_of, multiples};
ghost use Rattle.circle_domain.specs.Spans.{AreOnlyXOnes, HasXValues, XSpan};

use crate::evaluation::iterated_x;
use circle_commit::log2_strict;
use circle_domain::{CircleDomain, first_points};
use circle_field::{ComplexExtendable, ExtensionField, Field, batch_multiplicative_inverse};
use circle_point::Point;
use std::alloc::{AllocError, Global};

/// The `2^log_len` coefficients of the only polynomial in x with the values of `word`, in the order
/// of the circle transform, at the x coordinates of as many points, half of a standard domain;
/// `None` where there is none with so few coefficients.
///
/// Requires a codeword of `2^m` entries with `log_len <= m` and `m + 2 <= CIRCLE_TWO_ADICITY`.
/// Fails where memory is refused.
pub fn x_interpolate<F: ComplexExtendable, EF: ExtensionField<F>>(
    alloc: Global,
    word: &[EF],
    log_len: usize,
) -> Result<Option<Vec<EF>>, AllocError>
    requires { (m : ℕ) × (length word.now ≡ 2 ^ m) × (log_len ≤ m)
        × (m + 2 ≤ F.CIRCLE_TWO_ADICITY) }
    ensures values { IfOk result (λ found. IfSome found (λ c. (m : ℕ) → length word.now ≡ 2 ^ m →
        HasXValues F.ops F.generators EF.ops EF.embed log_len m word.now c.items)) }
    ensures only { IfOk result (λ found. IfSome found (λ c.
        AreOnlyXOnes F.ops F.generators EF.ops EF.embed log_len word.now c.items)) }
    ensures none { IfOk result (λ found. IfNone found ((m : ℕ) → length word.now ≡ 2 ^ m →
        ¬ XSpan F.ops F.generators EF.ops EF.embed log_len m word.now)) }
{
    let log_points = log2_strict(word.len());
    let multiples = all_multiples::<F, EF>(alloc, word, log_points)?;
    let (first, others) = multiples.split_at(1 << log_len);
    if !are_zero(others) {
        return Ok(None);
    }
    let factor = F::ONE.div_2exp_u64(log_points as u64);
    Ok(Some(scaled(alloc, first, factor)?))
}

// The coefficients, times the number of points, of the polynomial with the values of a codeword.
fn all_multiples<F: ComplexExtendable, EF: ExtensionField<F>>(
    alloc: Global,
    word: &[EF],
    log_points: usize,
) -> Result<Vec<EF>, AllocError>
    requires length { length word.now ≡ 2 ^ log_points }
    requires in_group { log_points + 2 ≤ F.CIRCLE_TWO_ADICITY }
    ensures { IfOk result (λ made. made.items ≡ multiples EF.ops EF.embed log_points
        (map F.ops.inv (factors_of F.ops F.generators log_points)) word.now) }
{
    let inverses = inverse_factors::<F>(alloc, log_points)?;
    let mut values = Vec::with_capacity(alloc, word.len())?;
    values.extend_from_slice(word)?;
    to_multiples(&mut values, &inverses);
    Ok(values)
}

// The inverses of the factors of all blocks of the points.
fn inverse_factors<F: ComplexExtendable>(
    alloc: Global,
    log_points: usize,
) -> Result<Vec<F>, AllocError>
    requires { log_points + 2 ≤ F.CIRCLE_TWO_ADICITY }
    ensures { IfOk result (λ inverses.
        inverses.items ≡ map F.ops.inv (factors_of F.ops F.generators log_points)) }
{
    let points = first_points(alloc, CircleDomain::standard(log_points + 1))?;
    let xs = abscissas(alloc, &points)?;
    let mut factors = Vec::with_capacity(alloc, xs.len())?;
    push_factors(&mut factors, &xs)?;
    batch_multiplicative_inverse(alloc, &factors)
}

// The x coordinates of the points.
fn abscissas<F: Field>(alloc: Global, points: &[Point<F>]) -> Result<Vec<F>, AllocError>
    ensures { IfOk result (λ xs. xs.items ≡ map (λ p. (coordinates p).x) points.now) }
{
    let mut abscissas = Vec::with_capacity(alloc, points.len())?;
    for point in points {
        abscissas.push(point.x())?;
    }
    Ok(abscissas)
}

// Appends the factor of the whole block of these x coordinates, and then those of its halves.
fn push_factors<F: Field>(factors: &mut Vec<F>, xs: &[F]) -> Result<(), AllocError>
    requires { IsPowerOfTwo (length xs.now) }
    ensures { OnOk result ((m : ℕ) → length xs.now ≡ 2 ^ m →
        factors.new.items ≡ factors.old.items ++ block_factors F.ops m xs.now) }
{
    let half = xs.len() / 2;
    if half == 0 {
        return Ok(());
    }
    factors.push(iterated_x(xs[0], log2_strict(half)))?;
    let (low, high) = xs.split_at(half);
    push_factors(factors, low)?;
    push_factors(factors, high)
}

// Turns the values at the points of a block into their number times the coefficients.
fn to_multiples<F: Field, EF: ExtensionField<F>>(values: &mut [EF], inverses: &[F])
    requires { (m : ℕ) × (length values.old ≡ 2 ^ m) × (length inverses.now + 1 ≡ 2 ^ m) }
    ensures { (m : ℕ) → length values.old ≡ 2 ^ m →
        values.new ≡ multiples EF.ops EF.embed m inverses.now values.old }
{
    let half = values.len() / 2;
    if half == 0 {
        return;
    }
    let inverse = inverses[0];
    let (first, second) = inverses[1..].split_at(half - 1);
    let (low, high) = values.split_at_mut(half);
    to_multiples(low, first);
    to_multiples(high, second);
    combine(low, high, inverse);
}

// The sums of the entries at each place, and their differences by the inverse of the factor.
fn combine<F: Field, EF: ExtensionField<F>>(lows: &mut [EF], highs: &mut [EF], inverse: F)
    requires { length lows.old ≡ length highs.old }
    ensures low { lows.new ≡ pairwise EF.ops.add lows.old highs.old }
    ensures high { highs.new
        ≡ pairwise (λ a b. EF.ops.mul (EF.embed inverse) (sub EF.ops a b)) lows.old highs.old }
{
    for i in 0..lows.len() {
        let (low, high) = (lows[i], highs[i]);
        lows[i] = low + high;
        highs[i] = (low - high).times_base(inverse);
    }
}

// Whether all entries are zero.
fn are_zero<E: Field>(entries: &[E]) -> bool
    ensures { IsTrue result ↔ All (λ a. a ≡ E.ops.zero) entries.now }
{
    entries.iter().all(|a| a.is_zero())
}

// The entries times `factor`.
fn scaled<F: Field, EF: ExtensionField<F>>(
    alloc: Global,
    entries: &[EF],
    factor: F,
) -> Result<Vec<EF>, AllocError>
    ensures { IfOk result
        (λ scaled. scaled.items ≡ map (EF.ops.mul (EF.embed factor)) entries.now) }
{
    let mut scaled = Vec::with_capacity(alloc, entries.len())?;
    for entry in entries {
        scaled.push(entry.times_base(factor))?;
    }
    Ok(scaled)
}
