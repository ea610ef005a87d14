//! Laws of traces, quotients and the identity that ties them. The calls of this module return
//! nothing, allocate nothing and carry what their contracts say.
ghost use Rattle.std.specs.Prelude.{◌≡◌, ◌≢◌, ◌≤◌, ◌+◌, ◌^◌, length, All};
ghost use Rattle.circle_point.specs.Basis.{vanishing};
ghost use Rattle.circle_point.specs.Point.{coordinates};
ghost use Rattle.circle_commit.specs.RowMajorMatrix.{rows, width_of};
ghost use Rattle.circle_folding.specs.Claims.{AreDistinct};
ghost use Rattle.circle_air.specs.Air.{air_of};
ghost use Rattle.circle_air.specs.Degrees.{degree_of_parts};
ghost use Rattle.circle_air.specs.Satisfies.{Satisfies};
ghost use Rattle.circle_quotient.specs.Identity.{Recomposes, Binds};
ghost use Rattle.circle_quotient.specs.NextRow.{IsRotated, HaveNextValues};

use circle_air::Air;
use circle_commit::RowMajorMatrix;
use circle_field::{ComplexExtendable, ExtensionField};
use circle_point::Point;

/// The polynomial of a column's next rows is that of the column one step on: the value at a point
/// of the first is the value of the second at that point plus the generator of `2^log_n` points.
///
/// Both are polynomials of the circle basis with `2^log_n` coefficients, and the column and its
/// next rows are their values on its standard domain, in natural order. Requires
/// `1 <= log_n < CIRCLE_TWO_ADICITY`, and that `next` is the column with each entry moved up by
/// one, the first to the end.
pub fn next_row<F: ComplexExtendable, EF: ExtensionField<F>>(
    log_n: usize,
    column: &[F],
    next: &[F],
    at: Point<EF>,
)
    requires positive { 1 ≤ log_n }
    requires in_group { log_n + 1 ≤ F.CIRCLE_TWO_ADICITY }
    requires rotated { IsRotated column.now next.now }
    ensures { HaveNextValues F.ops F.generators EF.ops EF.embed log_n column.now next.now
        (coordinates at) }
{
    let _law = log_n;
    let _column = column;
    let _next = next;
    let _point = at;
}

/// For rows that satisfy the constraints, the quotient's chunks recompose at every point off the
/// trace's domain: the composition there is the vanishing polynomial times what is recomposed of the
/// chunks (Circle STARKs, IACR ePrint 2024/278, section 5.1).
///
/// The quotient's values are those of `quotient_values` on `2^(log_n + log_chunks)` points, and the
/// chunks are the polynomials with those values on the parts. Requires rows that satisfy the
/// constraints, `log_chunks` of at least 1 for which `2^log_chunks + 1` is at least the greatest
/// degree of a constraint, `log_n >= 1`, `log_n + log_chunks < CIRCLE_TWO_ADICITY`, periodic
/// columns of at most `2^log_n` entries, and a point where the vanishing polynomial of `2^log_n`
/// points isn't 0.
pub fn quotient_recomposes<F: ComplexExtendable, EF: ExtensionField<F>>(
    air: &Air<F>,
    trace: &RowMajorMatrix<F>,
    public_values: &[F],
    log_n: usize,
    log_chunks: usize,
    alpha: EF,
    at: Point<EF>,
)
    requires satisfied { Satisfies F.ops (air_of air.now) (rows trace.now) public_values.now }
    requires positive { 1 ≤ log_n }
    requires some_chunks { 1 ≤ log_chunks }
    requires degree { degree_of_parts (air_of air.now) ≤ 2 ^ log_chunks + 1 }
    requires in_group { log_n + log_chunks + 1 ≤ F.CIRCLE_TWO_ADICITY }
    requires periods { All (λ c. length c ≤ 2 ^ log_n) (air_of air.now).periodic_columns }
    requires off { vanishing EF.ops log_n (coordinates at) ≢ EF.ops.zero }
    ensures { Recomposes F.ops F.generators EF.ops EF.embed log_n log_chunks (air_of air.now)
        (rows trace.now) public_values.now alpha (coordinates at) }
{
    let _air = air;
    let _trace = trace;
    let _public_values = public_values;
    let _sizes = (log_n, log_chunks);
    let _challenge = alpha;
    let _point = at;
}

/// Where the identity holds at enough coordinates, for as many challenges as there are constraints,
/// the columns' values on the trace's domain satisfy the constraints.
///
/// Columns and chunks may be polynomials of `2^log_n` coefficients plus a multiple of the vanishing
/// polynomial. Chunks and coordinates may differ from challenge to challenge; for each there are
/// more than `(2^log_chunks + 1) * 2^log_n` distinct coordinates, off the trace's domain, at which
/// the identity holds. Requires rows of the AIR's width, as many public values as it has, as many
/// distinct challenges as it has constraints, `2^log_chunks + 1` of at least the greatest degree of
/// a constraint, `1 <= log_n < CIRCLE_TWO_ADICITY`, and periodic columns of at most `2^log_n`
/// entries.
pub fn identity_binds<F: ComplexExtendable, EF: ExtensionField<F>>(
    air: &Air<F>,
    trace: &RowMajorMatrix<F>,
    public_values: &[F],
    log_n: usize,
    log_chunks: usize,
    alphas: &[EF],
)
    requires width { width_of trace.now ≡ (air_of air.now).width }
    requires public { length public_values.now ≡ (air_of air.now).num_public_values }
    requires positive { 1 ≤ log_n }
    requires degree { degree_of_parts (air_of air.now) ≤ 2 ^ log_chunks + 1 }
    requires in_group { log_n + 1 ≤ F.CIRCLE_TWO_ADICITY }
    requires periods { All (λ c. length c ≤ 2 ^ log_n) (air_of air.now).periodic_columns }
    requires count { length alphas.now ≡ length (air_of air.now).constraints }
    requires distinct { AreDistinct alphas.now }
    ensures { Binds F.ops F.generators EF.ops EF.embed log_n log_chunks (air_of air.now)
        (rows trace.now) public_values.now alphas.now }
{
    let _air = air;
    let _trace = trace;
    let _public_values = public_values;
    let _sizes = (log_n, log_chunks);
    let _challenges = alphas;
}
