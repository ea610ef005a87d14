//! The identity at the drawn point.
ghost use Rattle.std.specs.Prelude.{◌≡◌, ◌↔◌, ◌+◌, ◌≤◌, ◌<◌, ◌^◌, ℕ, IfOk, IsTrue, All, length, map};
ghost use Rattle.std.specs.Prelude.{slice_index_or, vec_len, [], true};
ghost use Rattle.std.specs.Int.{is_power_of_two};
ghost use Rattle.circle_domain.specs.Periodic.{IsPeriodicValue};
ghost use Rattle.circle_point.specs.Basis.{vanishing};
ghost use Rattle.circle_point.specs.Projective.{from_line};
ghost use Rattle.circle_quotient.specs.Fit.{IsFit};
ghost use Rattle.circle_quotient.specs.Recomposition.{IsRecomposed};
ghost use Rattle.circle_domain.specs.Selectors.{IsFinite};
ghost use Rattle.circle_stark.specs.Accepts.{HasIdentity, IsCompositionAt};
ghost use Rattle.circle_stark.specs.Provable.{HasDomains, HasShape};
ghost use Rattle.circle_stark.specs.Statement.{statement_of, values_of};

use crate::proof::{StarkOpenedValues, StarkStatement};
use crate::verifier::Challenges;
use circle_commit::PolynomialSpace;
use circle_domain::CircleDomain;
use circle_field::{ComplexExtendable, ExtensionField, Field};
use circle_point::Point;
use circle_quotient::composition::composition;
use circle_quotient::fit::fit_is_clear;
use circle_quotient::recomposition::recompose_quotient;
use circle_quotient::window::PointWindow;
use std::alloc::{AllocError, Global};

// The value of a periodic column over `2^log_n` rows at the point of `zeta`.
fn periodic_value<F: ComplexExtendable, EF: ExtensionField<F>>(
    alloc: Global,
    log_n: usize,
    column: &[F],
    zeta: EF,
) -> Result<EF, AllocError>
    requires positive { 1 ≤ log_n }
    requires in_group { log_n < F.CIRCLE_TWO_ADICITY }
    requires fit { IsFit EF.ops EF.embed F.generators log_n zeta }
    requires power { is_power_of_two (length column.now) ≡ true }
    requires short { length column.now ≤ 2 ^ log_n }
    ensures { IfOk result (IsPeriodicValue F.ops F.generators EF.ops EF.embed log_n column.now
        (from_line EF.ops zeta)) }
{
    fit_is_clear::<F, EF>(log_n, zeta);
    CircleDomain::<F>::standard(log_n).evaluate_periodic_column_at(alloc, column, zeta)
}

// The values of periodic columns over `2^log_n` rows at the point of `zeta`.
fn periodic_values<F: ComplexExtendable, EF: ExtensionField<F>>(
    alloc: Global,
    log_n: usize,
    columns: &[Vec<F>],
    zeta: EF,
) -> Result<Vec<EF>, AllocError>
    requires positive { 1 ≤ log_n }
    requires in_group { log_n < F.CIRCLE_TWO_ADICITY }
    requires fit { IsFit EF.ops EF.embed F.generators log_n zeta }
    requires powers { All (λ c. is_power_of_two (length c) ≡ true)
        (map (λ c. c.items) columns.now) }
    requires short { All (λ c. length c ≤ 2 ^ log_n) (map (λ c. c.items) columns.now) }
    ensures count { IfOk result (λ v. vec_len v ≡ length columns.now) }
    ensures each { IfOk result (λ v. (i : ℕ) → i < length columns.now →
        IsPeriodicValue F.ops F.generators EF.ops EF.embed log_n
        (slice_index_or (map (λ c. c.items) columns.now) i []) (from_line EF.ops zeta)
        (slice_index_or v.items i EF.ops.zero)) }
{
    let mut values = Vec::with_capacity(alloc, columns.len())?;
    for column in columns {
        values.push(periodic_value(alloc, log_n, column, zeta)?)?;
    }
    Ok(values)
}

// Elements of the base field in the extension.
fn embedded<F: Field, EF: ExtensionField<F>>(
    alloc: Global,
    elements: &[F],
) -> Result<Vec<EF>, AllocError>
    ensures { IfOk result (λ v. v.items ≡ map EF.embed elements.now) }
{
    let mut embedded = Vec::with_capacity(alloc, elements.len())?;
    for element in elements {
        embedded.push(EF::from_base(*element))?;
    }
    Ok(embedded)
}

// The vanishing polynomial of the standard domain of `2^log_n` points at the point of `zeta`.
fn vanishing_at<E: Field>(log_n: usize, zeta: E) -> E
    requires positive { 1 ≤ log_n }
    requires finite { IsFinite E.ops zeta }
    ensures { result ≡ vanishing E.ops log_n (from_line E.ops zeta) }
{
    let point = Point::from_projective_line(zeta).unwrap();
    point.v_n(log_n)
}

// What the constraints come to at the drawn point, by the opened values.
fn composition_at<F: ComplexExtendable, EF: ExtensionField<F>>(
    alloc: Global,
    statement: &StarkStatement<F>,
    log_chunks: usize,
    values: &StarkOpenedValues<EF>,
    drawn: Challenges<EF>,
) -> Result<EF, AllocError>
    requires domains { HasDomains F.CIRCLE_TWO_ADICITY (statement_of statement.now) log_chunks }
    requires local { vec_len values.now.trace_local ≡ (statement_of statement.now).parts.width }
    requires next { vec_len values.now.trace_next ≡ (statement_of statement.now).parts.width }
    requires fit { IsFit EF.ops EF.embed F.generators statement.now.log_n drawn.zeta }
    ensures { IfOk result (IsCompositionAt F.ops F.generators EF.ops EF.embed
        (statement_of statement.now) (values_of values.now) drawn.alpha drawn.zeta) }
{
    let StarkStatement {
        air,
        log_n,
        public_values,
    } = *statement;
    let periodic = periodic_values(alloc, log_n, air.periodic_columns(), drawn.zeta)?;
    let public_values = embedded(alloc, public_values)?;
    let window = PointWindow {
        local: &values.trace_local,
        next: &values.trace_next,
        periodic: &periodic,
        public_values: &public_values,
    };
    fit_is_clear::<F, EF>(log_n, drawn.zeta);
    let selectors = CircleDomain::<F>::standard(log_n).selectors_at_point(drawn.zeta);
    composition(alloc, air, &window, &selectors, drawn.alpha)
}

// The quotient in `2^log_chunks` chunks at the drawn point, by the opened values.
fn quotient_at<F: ComplexExtendable, EF: ExtensionField<F>>(
    alloc: Global,
    statement: &StarkStatement<F>,
    log_chunks: usize,
    values: &StarkOpenedValues<EF>,
    zeta: EF,
) -> Result<EF, AllocError>
    requires domains { HasDomains F.CIRCLE_TWO_ADICITY (statement_of statement.now) log_chunks }
    requires shape { HasShape EF.DEGREE (statement_of statement.now).parts.width log_chunks
        (values_of values.now) }
    requires fit { IsFit EF.ops EF.embed F.generators statement.now.log_n zeta }
    ensures { IfOk result (IsRecomposed F.ops F.generators EF.ops EF.embed EF.coefficients EF.DEGREE
        statement.now.log_n log_chunks (values_of values.now).chunks (from_line EF.ops zeta)) }
{
    recompose_quotient::<F, EF>(alloc, statement.log_n, &values.quotient_chunks, zeta)
}

/// Whether at the drawn point the constraints put together are the vanishing polynomial times the
/// quotient in `2^log_chunks` chunks, by the opened values. Fails where memory is refused.
///
/// Requires a statement and values that were validated, and a point that can be opened.
pub(crate) fn has_identity<F: ComplexExtendable, EF: ExtensionField<F>>(
    alloc: Global,
    statement: &StarkStatement<F>,
    log_chunks: usize,
    values: &StarkOpenedValues<EF>,
    drawn: Challenges<EF>,
) -> Result<bool, AllocError>
    requires domains { HasDomains F.CIRCLE_TWO_ADICITY (statement_of statement.now) log_chunks }
    requires shape { HasShape EF.DEGREE (statement_of statement.now).parts.width log_chunks
        (values_of values.now) }
    requires fit { IsFit EF.ops EF.embed F.generators statement.now.log_n drawn.zeta }
    ensures { IfOk result (λ holds. IsTrue holds ↔ HasIdentity F.ops F.generators EF.ops EF.embed
        (statement_of statement.now) EF.coefficients EF.DEGREE log_chunks
        (values_of values.now) drawn.alpha drawn.zeta) }
{
    let composition = composition_at(alloc, statement, log_chunks, values, drawn)?;
    let quotient = quotient_at(alloc, statement, log_chunks, values, drawn.zeta)?;
    Ok(composition == vanishing_at(statement.log_n, drawn.zeta) * quotient)
}
