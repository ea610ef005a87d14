//! Matrices over Mersenne31 and calls of the circle transform, which the other tests share.
ghost use Rattle.std.specs.Prelude.{◌≡◌, ◌≢◌, ◌≤◌, ◌<◌, ◌^◌, All, IsTrue};
ghost use Rattle.circle_commit.specs.RowMajorMatrix.{height_of};
ghost use Rattle.circle_commit.specs.Matrix.{IsPowerOfTwo};
ghost use Rattle.circle_domain.specs.Domain.{IsGenuineDomain, log_size};
ghost use Rattle.circle_field.specs.Mersenne31.{operations};

use circle_commit::{Matrix, RowMajorMatrix, is_power_of_two};
use circle_field::{Field, Mersenne31};
use circle_plane::{CircleDomain, CircleEvaluations};
use std::alloc::Global;
use std::process::Abort;

pub(crate) type Domain = CircleDomain<Mersenne31>;

pub(crate) type Rows = RowMajorMatrix<Mersenne31>;

pub(crate) type Evaluations = CircleEvaluations<Mersenne31, Rows>;

// Why a test ends that memory is refused.
pub(crate) const MEMORY: &str = "memory is refused";

// The rows of this width that these entries make up.
pub(crate) fn rows_of(rt: &impl Abort, entries: Vec<Mersenne31>, width: usize) -> Rows {
    assert!(rt; width >= 1 && entries.len() % width == 0);
    RowMajorMatrix::new(entries, width)
}

// A copy of a matrix.
pub(crate) fn copy_of(rt: &impl Abort, alloc: Global, rows: &Rows) -> Rows {
    rows.try_clone(alloc).expect(rt, MEMORY)
}

// Whether no element is 0.
pub(crate) fn are_nonzero(elements: &[Mersenne31]) -> bool
    ensures { IsTrue result → All (λ element. element ≢ operations.zero) elements.now }
{
    elements.iter().all(|element| !element.is_zero())
}

// Whether the group has a domain.
pub(crate) fn is_in_group(domain: Domain) -> bool
    ensures positive { IsTrue result → 1 ≤ log_size domain }
    ensures in_group { IsTrue result → log_size domain ≤ 31 }
{
    domain.log_n() >= 1 && domain.log_n() <= 31
}

// Whether the group has a domain, and it is genuine.
pub(crate) fn is_genuine(domain: Domain) -> bool
    ensures positive { IsTrue result → 1 ≤ log_size domain }
    ensures in_group { IsTrue result → log_size domain ≤ 31 }
    ensures genuine { IsTrue result → IsGenuineDomain operations domain }
{
    is_in_group(domain) && domain.is_genuine()
}

// Whether polynomials with these coefficients have values on a domain.
pub(crate) fn has_values(domain: Domain, coeffs: &Rows) -> bool
    ensures positive { IsTrue result → 1 ≤ log_size domain }
    ensures in_group { IsTrue result → log_size domain ≤ 31 }
    ensures power { IsTrue result → IsPowerOfTwo (height_of coeffs.now) }
    ensures at_most_size { IsTrue result → height_of coeffs.now ≤ 2 ^ log_size domain }
{
    is_in_group(domain) && is_power_of_two(coeffs.height()) && coeffs.height() <= domain.size()
}

// `CircleEvaluations::evaluate`, after a test of what it requires.
pub(crate) fn evaluate(
    rt: &impl Abort,
    alloc: Global,
    domain: Domain,
    coeffs: Rows,
) -> Evaluations {
    assert!(rt; has_values(domain, &coeffs));
    CircleEvaluations::evaluate(alloc, domain, coeffs).expect(rt, MEMORY)
}

// The coefficients of polynomials with these rows in natural order.
pub(crate) fn interpolate(rt: &impl Abort, alloc: Global, domain: Domain, rows: Rows) -> Rows {
    assert!(rt; is_genuine(domain) && rows.height() == domain.size());
    CircleEvaluations::from_natural_order(domain, rows)
        .interpolate(alloc)
        .expect(rt, MEMORY)
}

// The matrix of one column with these entries.
pub(crate) fn column(rt: &impl Abort, alloc: Global, values: &[u64]) -> Rows {
    let mut entries = Vec::new(alloc);
    for value in values {
        entries
            .push(Mersenne31::from_u64(*value))
            .expect(rt, MEMORY);
    }
    RowMajorMatrix::new_col(entries)
}
