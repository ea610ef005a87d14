//! Quotients that bind claimed values to a row, and the multiple of the vanishing polynomial in a
//! codeword.
ghost use Rattle.std.specs.Prelude.{◌≡◌, ℕ, ◌+◌, ◌*◌, ◌^◌, ◌<◌, ◌≤◌, ◌↔◌};
ghost use Rattle.std.specs.Prelude.{length, map, IsNone, IfSome, IfOk, OnErr};
ghost use Rattle.circle_field.specs.Field.{sub};
ghost use Rattle.circle_field.specs.Circle.{lifted};
ghost use Rattle.circle_point.specs.Point.{coordinates};
ghost use Rattle.circle_commit.specs.DotProduct.{dot, pairwise};
ghost use Rattle.circle_folding.specs.Blocks.{spread, sum_of};
ghost use Rattle.circle_folding.specs.Lambda.{lambda_of, remainder_of};
ghost use Rattle.circle_folding.specs.Quotient.{IsQuotientBy, differences, weighted_quotient};
ghost use Rattle.circle_folding.specs.Spans.{IsOnlySplit, IsOrthogonal, HasNoMultiple};

use circle_commit::log2_strict;
use circle_domain::{CircleDomain, first_points};
use circle_field::{ComplexExtendable, ExtensionField, Field};
use circle_point::Point;
use std::alloc::{AllocError, Global};

/// The quotient of one row, at the point `x` of a domain, under values that are claimed at `zeta`
/// (Circle STARKs, section 6, Remark 21): `(re - alpha_pow_width * im) / (2 re)`, with `(re, im)`
/// of [`Point::v_p`], times the sum of `alpha_powers[j] * (ps_at_x[j] - ps_at_zeta[j])`. `None`
/// exactly where `x` is `zeta`.
///
/// Each column takes two powers of the challenge. Its quotient has a real part, `1 / 2` of the
/// difference, and an imaginary one, `-im / (2 re)` of it, and the claim is bound where both are of
/// low degree, so each part has a power of its own: column j has `alpha^j` and `alpha^(width + j)`,
/// and the next claim begins `2 width` powers on.
///
/// Requires as many claimed values as the row has entries, and at least as many powers. Takes no
/// memory.
pub fn deep_quotient_reduce_row<F: ComplexExtendable, EF: ExtensionField<F>>(
    alpha_pow_width: EF,
    alpha_powers: &[EF],
    x: Point<F>,
    zeta: Point<EF>,
    ps_at_x: &[F],
    ps_at_zeta: &[EF],
) -> Option<EF>
    requires widths { length ps_at_x.now ≡ length ps_at_zeta.now }
    requires enough { length ps_at_x.now ≤ length alpha_powers.now }
    ensures none { IsNone result ↔ (lifted EF.embed (coordinates x) ≡ coordinates zeta) }
    ensures value { IfSome result (λ q. q ≡ weighted_quotient EF.ops EF.embed alpha_pow_width
        alpha_powers.now (coordinates x) (coordinates zeta) ps_at_x.now ps_at_zeta.now) }
    ensures claim { IfSome result (λ q. IsQuotientBy EF.ops EF.embed alpha_pow_width
        alpha_powers.now (coordinates x) (coordinates zeta) ps_at_x.now ps_at_zeta.now q) }
{
    let (re, im) = x.v_p(zeta);
    let inverse = re.double().try_inverse()?;
    let sum = weighted_differences(alpha_powers, ps_at_x, ps_at_zeta);
    Some((re - alpha_pow_width * im) * inverse * sum)
}

// The sum of the entries of a row less the claimed values, each times its weight.
fn weighted_differences<F: ComplexExtendable, EF: ExtensionField<F>>(
    weights: &[EF],
    row: &[F],
    values: &[EF],
) -> EF
    requires widths { length row.now ≡ length values.now }
    requires enough { length row.now ≤ length weights.now }
    ensures { result ≡ dot EF.ops weights.now (differences EF.ops EF.embed row.now values.now) }
{
    let mut sum = EF::ZERO;
    for (j, entry) in row.iter().enumerate() {
        sum = sum + weights[j] * (EF::from_base(*entry) - values[j]);
    }
    sum
}

/// The multiple of the vanishing polynomial in a codeword over the standard domain of its length,
/// in the order of the transform, which the codeword then loses (Circle STARKs, section 4.3, Lemma
/// 6): with `2^L` entries and `n = L - log_blowup`, the sum of the entries times `v_n`, divided by
/// `2^(L - 1)`. Of the values of a polynomial with `2^n` coefficients plus a multiple of `v_n` it
/// returns that multiple and leaves the values; of any codeword it leaves one that is orthogonal to
/// `v_n`, for which it would return 0.
///
/// Lambda is for a gap of one dimension: the quotients of true claims are the values of polynomials
/// with `2^n` coefficients plus a multiple of `v_n`, and folding, which halves coefficients, is of
/// use for the former alone. The prover subtracts the multiple and sends it.
///
/// Requires `2^L` entries with `L + 1 <= CIRCLE_TWO_ADICITY` and `1 <= log_blowup < L`. Where
/// memory is refused the codeword stays as it was.
pub fn extract_lambda<F: ComplexExtendable, EF: ExtensionField<F>>(
    alloc: Global,
    lde: &mut [EF],
    log_blowup: usize,
) -> Result<EF, AllocError>
    requires size { (m : ℕ) × (length lde.old ≡ 2 ^ m) × (log_blowup < m)
        × (m + 1 ≤ F.CIRCLE_TWO_ADICITY) }
    requires blowup { 1 ≤ log_blowup }
    ensures lambda { IfOk result (λ lambda. (m : ℕ) → length lde.old ≡ 2 ^ m →
        lambda ≡ lambda_of F.ops F.generators EF.ops EF.embed log_blowup m lde.old) }
    ensures remainder { IfOk result (λ lambda. (m : ℕ) → length lde.old ≡ 2 ^ m →
        lde.new ≡ remainder_of F.ops F.generators EF.ops EF.embed log_blowup m lambda lde.old) }
    ensures split { IfOk result (λ lambda. (m : ℕ) → length lde.old ≡ 2 ^ m →
        IsOnlySplit F.ops F.generators EF.ops EF.embed log_blowup m lde.old lde.new lambda) }
    ensures orthogonal { IfOk result (λ lambda. (m : ℕ) → length lde.old ≡ 2 ^ m →
        IsOrthogonal F.ops F.generators EF.ops EF.embed log_blowup m lde.new) }
    ensures again { IfOk result (λ lambda. (m : ℕ) → length lde.old ≡ 2 ^ m →
        HasNoMultiple F.ops F.generators EF.ops EF.embed log_blowup m lde.new) }
    ensures refused { OnErr result (lde.new ≡ lde.old) }
{
    let log_lde_size = log2_strict(lde.len());
    let points = first_points(alloc, CircleDomain::<F>::standard(log_blowup + 1))?;
    let block = 1 << (log_lde_size - log_blowup);
    let lambda = product_with_blocks(lde, block, &points).div_2exp_u64((log_lde_size - 1) as u64);
    subtract_from_blocks(lde, block, &points, lambda);
    Ok(lambda)
}

// The sum of the entries, each times the x coordinate of its block's point.
fn product_with_blocks<F: Field, EF: ExtensionField<F>>(
    word: &[EF],
    size: usize,
    points: &[Point<F>],
) -> EF
    requires { length word.now ≡ length points.now * size }
    ensures { result
        ≡ dot EF.ops word.now (spread size (map (λ p. EF.embed (coordinates p).x) points.now)) }
{
    let mut sum = EF::ZERO;
    for (i, point) in points.iter().enumerate() {
        let start = i * size;
        sum = sum + total(&word[start..start + size]).times_base(point.x());
    }
    sum
}

// The sum of the entries.
fn total<F: Field>(entries: &[F]) -> F
    ensures { result ≡ sum_of F.ops entries.now }
{
    let mut sum = F::ZERO;
    for entry in entries {
        sum = sum + *entry;
    }
    sum
}

// Takes from each entry the multiple of the x coordinate of its block's point.
fn subtract_from_blocks<F: Field, EF: ExtensionField<F>>(
    word: &mut [EF],
    size: usize,
    points: &[Point<F>],
    multiple: EF,
)
    requires { length word.old ≡ length points.now * size }
    ensures { word.new ≡ pairwise (λ a v. sub EF.ops a (EF.ops.mul multiple v)) word.old
        (spread size (map (λ p. EF.embed (coordinates p).x) points.now)) }
{
    for (i, point) in points.iter().enumerate() {
        let start = i * size;
        subtract(
            &mut word[start..start + size],
            multiple.times_base(point.x()),
        );
    }
}

// Takes this much from each entry.
fn subtract<F: Field>(entries: &mut [F], amount: F)
    ensures { entries.new ≡ map (λ a. sub F.ops a amount) entries.old }
{
    for entry in entries.iter_mut() {
        *entry = *entry - amount;
    }
}
