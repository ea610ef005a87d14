//! The quotient in chunks, each over a domain of the trace's size.
ghost use Rattle.std.specs.Prelude.{◌≡◌, ◌≤◌, ◌<◌, ◌+◌, ◌^◌, ◌++◌, IfOk, OnOk, All, length, map, take};
ghost use Rattle.std.specs.Prelude.{vec_len};
ghost use Rattle.circle_commit.specs.RowMajorMatrix.{rows, width_of};
ghost use Rattle.circle_domain.specs.Domain.{log_size, shift_of};
ghost use Rattle.circle_domain.specs.Order.{natural_order};
ghost use Rattle.circle_domain.specs.Splitting.{split_rows};

use circle_commit::{PolynomialSpace, RowMajorMatrix, entry_count};
use circle_domain::CircleDomain;
use circle_field::{ComplexExtendable, ExtensionField, Field};
use std::alloc::{AllocError, Global};

// Adds the coefficients of an element in the base field.
fn push_coefficients<F: Field, EF: ExtensionField<F>>(
    coefficients: &mut Vec<F>,
    element: EF,
) -> Result<(), AllocError>
    ensures { OnOk result
        (coefficients.new.items ≡ coefficients.old.items ++ EF.coefficients element) }
{
    for i in 0..EF::DEGREE {
        coefficients.push(element.coefficient(i))?;
    }
    Ok(())
}

// The coefficients of elements in the base field, a row for each element.
fn coefficient_rows<F: Field, EF: ExtensionField<F>>(
    alloc: Global,
    elements: &[EF],
) -> Result<RowMajorMatrix<F>, AllocError>
    ensures width { IfOk result (λ m. width_of m ≡ EF.DEGREE) }
    ensures rows { IfOk result (λ m. rows m ≡ map EF.coefficients elements.now) }
{
    let mut coefficients = Vec::with_capacity(alloc, entry_count(elements.len(), EF::DEGREE)?)?;
    for element in elements {
        push_coefficients(&mut coefficients, *element)?;
    }
    Ok(RowMajorMatrix::new(coefficients, EF::DEGREE))
}

// Each domain with its part.
fn with_domains<D: Drop, M: Drop>(
    alloc: Global,
    domains: Vec<D>,
    parts: Vec<M>,
) -> Result<Vec<(D, M)>, AllocError>
    requires { vec_len domains ≡ vec_len parts }
    ensures domains { IfOk result (λ both. map (λ pair. pair.0) both.items ≡ domains.items) }
    ensures parts { IfOk result (λ both. map (λ pair. pair.1) both.items ≡ parts.items) }
{
    let mut both = Vec::with_capacity(alloc, domains.len())?;
    for (domain, part) in domains.into_iter().zip(parts) {
        both.push((domain, part))?;
    }
    Ok(both)
}

/// The values of the quotient on the standard domain of `2^(log_n + log_num_chunks)` points, in
/// natural order, as `2^log_num_chunks` chunks: each a matrix of the values' coefficients, with the
/// domain of `2^log_n` points that its rows belong to.
///
/// The domains and the rows are those that `split_domains` and `split_evals` of the larger domain
/// return. Requires `1 <= log_n`, `log_n + log_num_chunks < CIRCLE_TWO_ADICITY`, and a value for
/// each point. Fails where memory is refused.
pub fn quotient_chunks<F: ComplexExtendable, EF: ExtensionField<F>>(
    alloc: Global,
    log_n: usize,
    log_num_chunks: usize,
    values: Vec<EF>,
) -> Result<Vec<(CircleDomain<F>, RowMajorMatrix<F>)>, AllocError>
    requires positive { 1 ≤ log_n }
    requires in_group { log_n + log_num_chunks < F.CIRCLE_TWO_ADICITY }
    requires count { vec_len values ≡ 2 ^ (log_n + log_num_chunks) }
    ensures sizes { IfOk result (λ chunks. All (λ c. log_size c.0 ≡ log_n) chunks.items) }
    ensures shifts { let n = log_n + log_num_chunks in IfOk result (λ chunks.
        map (λ c. shift_of c.0) chunks.items ≡ take (2 ^ log_num_chunks)
        (natural_order F.ops F.generators n (F.generators (n + 1)))) }
    ensures widths { IfOk result (λ chunks. All (λ c. width_of c.1 ≡ EF.DEGREE) chunks.items) }
    ensures rows { IfOk result (λ chunks. map (λ c. rows c.1) chunks.items
        ≡ split_rows (2 ^ log_num_chunks) (2 ^ (log_n + log_num_chunks))
        (map EF.coefficients values.items)) }
{
    let domain = CircleDomain::<F>::standard(log_n + log_num_chunks);
    let num_chunks = 1 << log_num_chunks;
    let matrix = coefficient_rows(alloc, &values)?;
    let domains = domain.split_domains(alloc, num_chunks)?;
    let parts = domain.split_evals(alloc, num_chunks, matrix)?;
    with_domains(alloc, domains, parts)
}
