//! Laws of claims on codewords. The calls of this module return nothing, take no memory and carry
//! what their contracts say.
ghost use Rattle.std.specs.Prelude.{◌≡◌, ◌≢◌, ℕ, ◌+◌, ◌*◌, ◌^◌, ◌≤◌, length};
ghost use Rattle.circle_point.specs.Point.{coordinates};
ghost use Rattle.circle_commit.specs.RowMajorMatrix.{rows, width_of, height_of};
ghost use Rattle.circle_folding.specs.Claims.{AreDistinct, IsOffStandard, BindsValue, BindsValues};

use circle_commit::RowMajorMatrix;
use circle_field::{ComplexExtendable, ExtensionField};
use circle_point::Point;

/// Where a codeword of `2^h` entries is the values of a polynomial with `2^n` coefficients on the
/// standard domain, n being h less `log_blowup`, and its quotients under a value that is claimed at
/// `zeta` are those of such a polynomial plus a multiple of the vanishing polynomial `v_n`, the
/// claimed value is that of the codeword's only polynomial.
///
/// Requires n of at least 2, `log_blowup` of at least 1, a challenge other than 0 and a point off
/// the domain. Takes no memory.
pub fn quotient_binds<F: ComplexExtendable, EF: ExtensionField<F>>(
    alpha: EF,
    zeta: Point<EF>,
    word: &[EF],
    value: EF,
    log_blowup: usize,
)
    requires size { (h : ℕ) × (length word.now ≡ 2 ^ h) × (log_blowup + 2 ≤ h)
        × (h + 1 ≤ F.CIRCLE_TWO_ADICITY) }
    requires blowup { 1 ≤ log_blowup }
    requires nonzero { alpha ≢ EF.ops.zero }
    requires off { IsOffStandard F.ops F.generators EF.embed (length word.now) (coordinates zeta) }
    ensures { BindsValue F.ops F.generators EF.ops EF.embed log_blowup alpha (coordinates zeta)
        word.now value }
{
    let _challenge = alpha;
    let _point = zeta;
    let _word = word;
    let _value = value;
    let _blowup = log_blowup;
}

/// Where, for twice as many distinct challenges as there are columns, the quotients of the columns
/// under values that are claimed at `zeta` are the values of a polynomial with `2^n` coefficients
/// on the standard domain plus a multiple of the vanishing polynomial `v_n`, so is each column, in
/// one way only, and its claimed value is that of this sum. The columns have `2^h` entries, and n
/// is h less `log_blowup`.
///
/// Requires n of at least 2, `log_blowup` of at least 1, a value for each column and a point off
/// the domain. Takes no memory.
pub fn claim_binds<F: ComplexExtendable, EF: ExtensionField<F>>(
    alphas: &[EF],
    zeta: Point<EF>,
    columns: &RowMajorMatrix<EF>,
    values: &[EF],
    log_blowup: usize,
)
    requires size { (h : ℕ) × (height_of columns.now ≡ 2 ^ h) × (log_blowup + 2 ≤ h)
        × (h + 1 ≤ F.CIRCLE_TWO_ADICITY) }
    requires blowup { 1 ≤ log_blowup }
    requires claims { length values.now ≡ width_of columns.now }
    requires challenges { length alphas.now ≡ 2 * width_of columns.now }
    requires distinct { AreDistinct alphas.now }
    requires off { IsOffStandard F.ops F.generators EF.embed (height_of columns.now)
        (coordinates zeta) }
    ensures { BindsValues F.ops F.generators EF.ops EF.embed log_blowup alphas.now
        (coordinates zeta) (rows columns.now) values.now }
{
    let _challenges = alphas;
    let _point = zeta;
    let _columns = columns;
    let _values = values;
    let _blowup = log_blowup;
}
