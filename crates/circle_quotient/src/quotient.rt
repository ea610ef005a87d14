//! The quotient's values on its domain.
ghost use Rattle.std.specs.Prelude.{◌≡◌, ◌≤◌, ◌<◌, ◌+◌, ◌^◌, All, IfOk, length, map};
ghost use Rattle.std.specs.List.{range_with_len};
ghost use Rattle.circle_commit.specs.PeriodicLdeTable.{columns_of};
ghost use Rattle.circle_air.specs.Air.{air_of};
ghost use Rattle.circle_quotient.specs.Blocks.{AreTermsOf, AreQuotientTerms, quotient_of_place};
ghost use Rattle.circle_quotient.specs.Quotient.{AreQuotientsOf, AreQuotientsOfColumns};

use crate::blocks::{QuotientTerms, push_quotients};
use crate::nodes::NodeLanes;
use crate::periodic::extended_periodic_columns;
use crate::selectors::quotient_selectors;
use crate::sums::zero_lists;
use crate::trace::ExtendedTrace;
use crate::weights::falling_powers;
use circle_air::Air;
use circle_commit::Matrix;
use circle_field::{ComplexExtendable, ExtensionField, Field};
use std::alloc::{AllocError, Global};

// The binary logarithm of the number of rows of a block.
const LOG_LANES: usize = 6;

// What the quotient is made of besides the rows.
fn quotient_terms<'a, F: ComplexExtendable, EF: ExtensionField<F>, M: Matrix<F>>(
    alloc: Global,
    air: &'a Air<F>,
    trace: &ExtendedTrace<F, M>,
    alpha: EF,
) -> Result<QuotientTerms<'a, F, EF>, AllocError>
    requires in_group { trace.now.log_n + trace.now.log_num_chunks < F.CIRCLE_TWO_ADICITY }
    requires periods { All (λ column. length column ≤ 2 ^ trace.now.log_n)
        (air_of air.now).periodic_columns }
    ensures { IfOk result (AreQuotientTerms F.ops F.generators EF.ops trace.now.log_n
        trace.now.log_num_chunks (air_of air.now) alpha) }
{
    let selectors = quotient_selectors(alloc, trace.log_n, trace.log_num_chunks)?;
    let columns = air.periodic_columns();
    let periodic = extended_periodic_columns(alloc, columns, trace.log_n, trace.log_num_chunks)?;
    let constraints = air.constraints();
    let weights = falling_powers(alloc, alpha, constraints.len())?;
    Ok(QuotientTerms {
        constraints,
        weights,
        selectors,
        periodic,
    })
}

// The quotient's values, a block after another.
fn quotients_by_blocks<F: Field, EF: ExtensionField<F>, M: Matrix<F>>(
    alloc: Global,
    air: &Air<F>,
    trace: &ExtendedTrace<F, M>,
    terms: &QuotientTerms<F, EF>,
) -> Result<Vec<EF>, AllocError>
    requires width { M.width trace.now.rows.now ≡ (air_of air.now).width }
    requires public { length trace.now.public_values.now ≡ (air_of air.now).num_public_values }
    requires small { trace.now.log_n + trace.now.log_num_chunks ≤ 61 }
    requires terms { AreTermsOf (air_of air.now)
        (2 ^ (trace.now.log_n + trace.now.log_num_chunks)) terms.now }
    ensures { IfOk result (λ made. made.items ≡ map
        (quotient_of_place F.ops EF.ops EF.embed (air_of air.now) (M.rows trace.now.rows.now)
        trace.now.log_num_chunks trace.now.public_values.now terms.now)
        (range_with_len 0 (2 ^ (trace.now.log_n + trace.now.log_num_chunks)))) }
{
    let log_size = trace.log_n + trace.log_num_chunks;
    let log_lanes = log_size.min(LOG_LANES);
    let lanes = 1usize << log_lanes;
    let mut nodes = NodeLanes::new(alloc, air, lanes)?;
    let mut coefficients = zero_lists(alloc, EF::DEGREE, lanes)?;
    let mut products = vec![in alloc; F::ZERO; lanes]?;
    let mut values = Vec::with_capacity(alloc, 1 << log_size)?;
    for block in 0..1usize << (log_size - log_lanes) {
        let start = block * lanes;
        nodes.write(air, trace, &terms.periodic, start);
        terms.write_sums(start, &nodes.values, &mut coefficients, &mut products);
        let inverses = &terms.selectors.inv_vanishing[start..start + lanes];
        push_quotients(&mut values, &coefficients, inverses)?;
    }
    Ok(values)
}

/// The quotient's values on the standard domain of `2^(log_n + log_num_chunks)` points, in natural
/// order: at each point the constraints over the row there and the row `2^log_num_chunks` places
/// on, put together by the powers of `alpha` as [`composition`](crate::composition::composition)
/// does, over the vanishing polynomial of the trace's domain.
///
/// The selectors are those of the trace's domain, and each periodic column is the polynomial that
/// repeats over it. The rows are lent, a block at a time.
///
/// Requires rows of the AIR's width, as many public values as it has, periodic columns of at most
/// `2^log_n` entries, and `log_n + log_num_chunks < CIRCLE_TWO_ADICITY`. Fails where memory is
/// refused.
pub fn quotient_values<F: ComplexExtendable, EF: ExtensionField<F>, M: Matrix<F>>(
    alloc: Global,
    air: &Air<F>,
    trace: &ExtendedTrace<F, M>,
    alpha: EF,
) -> Result<Vec<EF>, AllocError>
    requires width { M.width trace.now.rows.now ≡ (air_of air.now).width }
    requires public { length trace.now.public_values.now ≡ (air_of air.now).num_public_values }
    requires periods { All (λ column. length column ≤ 2 ^ trace.now.log_n)
        (air_of air.now).periodic_columns }
    requires in_group { trace.now.log_n + trace.now.log_num_chunks < F.CIRCLE_TWO_ADICITY }
    ensures rows { IfOk result (λ made. AreQuotientsOf F.ops F.generators EF.ops EF.embed
        trace.now.log_n trace.now.log_num_chunks (air_of air.now) (M.rows trace.now.rows.now)
        trace.now.public_values.now alpha made.items) }
    ensures columns { IfOk result (λ made. AreQuotientsOfColumns F.ops F.generators EF.ops EF.embed
        trace.now.log_n trace.now.log_num_chunks (air_of air.now) (M.rows trace.now.rows.now)
        trace.now.public_values.now alpha made.items) }
{
    let terms = quotient_terms(alloc, air, trace, alpha)?;
    quotients_by_blocks(alloc, air, trace, &terms)
}
