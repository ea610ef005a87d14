//! Laws of proofs that are accepted. The calls of this module return nothing, allocate nothing and
//! carry what their contracts say.
ghost use Rattle.std.specs.Prelude.{◌≤◌, List};
ghost use Rattle.circle_quotient.specs.Basis.{AreBasis};
ghost use Rattle.circle_quotient.specs.Fit.{IsFit};
ghost use Rattle.circle_stark.specs.Accepts.{HasIdentity};
ghost use Rattle.circle_stark.specs.Linked.{HoldsOfColumns};
ghost use Rattle.circle_stark.specs.Statement.{statement_of, values_of};

use crate::proof::{StarkOpenedValues, StarkStatement};
use circle_field::{ComplexExtendable, ExtensionField, Field};

/// Where opened values are those of columns and the identity holds of the values, it holds of the
/// columns, in the form in which [`identity_binds`](circle_quotient::laws::identity_binds) requires
/// it of one coordinate.
///
/// [`verify`](crate::verify) tests the identity on numbers: the values of the trace's columns at the
/// point of `zeta` and at the next one, and as many values for each chunk as the field has
/// coefficients. `identity_binds` speaks of polynomials: the trace's columns, and one column of
/// elements for each chunk, `combined_chunk`. Columns are polynomials plus a multiple of the
/// vanishing polynomial, which is what a commitment binds; those of chunks have `2^log_n`
/// coefficients.
///
/// Requires the identity as `StarkAccepts` has it, of the statement, the opened values, the
/// challenge `alpha` and the coordinate `zeta`; a `zeta` that can be opened; and
/// `log_n <= CIRCLE_TWO_ADICITY`.
pub fn opened_identity<F: ComplexExtendable, EF: ExtensionField<F>>(
    statement: &StarkStatement<F>,
    log_chunks: usize,
    values: &StarkOpenedValues<EF>,
    alpha: EF,
    zeta: EF,
)
    requires in_group { statement.now.log_n ≤ F.CIRCLE_TWO_ADICITY }
    requires fit { IsFit EF.ops EF.embed F.generators statement.now.log_n zeta }
    requires identity { HasIdentity F.ops F.generators EF.ops EF.embed (statement_of statement.now)
        EF.coefficients EF.DEGREE log_chunks (values_of values.now) alpha zeta }
    ensures { HoldsOfColumns F.ops F.generators EF.ops EF.embed EF.coefficients EF.DEGREE log_chunks
        (statement_of statement.now) (values_of values.now) alpha zeta }
{
    let _statement = statement;
    let _values = values;
    let _drawn = (log_chunks, alpha, zeta);
}

// An extension has a basis: elements with one coefficient 1 and the others 0.
pub(crate) fn basis_exists<F: Field, EF: ExtensionField<F>>()
    ensures { (basis : List _) × AreBasis F.ops EF.coefficients EF.DEGREE basis }
{
    for i in 0..EF::DEGREE {
        let _element = EF::ZERO.with_coefficient(i, F::ONE);
    }
}
