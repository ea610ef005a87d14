//! Matrices by their entries, and batches of them that are committed to.
ghost use Rattle.std.specs.Prelude.{◌≡◌, [], ◌∷◌, IfOk};

use circle_commit::{Mmcs, RowMajorMatrix};
use circle_field::{ComplexExtendable, Cubic, ExtensionField, Field, Mersenne31};
pub use circle_presets::Domain;
use circle_presets::{ProverData, Scheme};
use p3_circle::{BatchAtPoints, CircleDomain, CirclePcs, heights_match_domains};
use std::alloc::{AllocError, Global};
use std::test::Fail;

pub type Rows = RowMajorMatrix<Mersenne31>;

/// A list of one item.
pub fn one<T: Drop>(alloc: Global, item: T) -> Result<Vec<T>, AllocError>
    ensures { IfOk result (λ v. v.items ≡ item ∷ []) }
{
    let mut items = Vec::new(alloc);
    items.push(item)?;
    Ok(items)
}

/// The element with these coefficients.
pub fn cubic(coefficients: [u64; 3]) -> Cubic {
    Cubic::from_coefficients(&coefficients.map(|n| Mersenne31::from_u64(n)))
}

/// The standard domain of `2^log_n` points, of `2^14` at most.
pub fn standard(log_n: usize) -> Result<Domain, Fail> {
    if log_n > 14 {
        return Err(Fail::new("the domain is too large"));
    }
    Ok(Domain::standard(log_n))
}

/// The elements of these numbers.
pub fn elements(alloc: Global, numbers: &[u64]) -> Result<Vec<Mersenne31>, AllocError> {
    let mut elements = Vec::with_capacity(alloc, numbers.len())?;
    for number in numbers {
        elements.push(Mersenne31::from_u64(*number))?;
    }
    Ok(elements)
}

// The matrix of these entries.
fn of_width(values: Vec<Mersenne31>, width: usize) -> Result<Rows, Fail> {
    if width == 0 || values.len() % width != 0 {
        return Err(Fail::new("the width"));
    }
    Ok(RowMajorMatrix::new(values, width))
}

/// The matrix of these entries in rows of this width.
pub fn rows(alloc: Global, entries: &[u64], width: usize) -> Result<Rows, Fail> {
    of_width(elements(alloc, entries)?, width)
}

/// A matrix of `2^log_n` rows without a pattern.
pub fn scattered(alloc: Global, log_n: usize, width: usize, seed: u64) -> Result<Rows, Fail> {
    if log_n > 14 || width > 2048 {
        return Err(Fail::new("the matrix is too large"));
    }
    let mut state = Mersenne31::from_u64(seed);
    let mut values = Vec::new(alloc);
    for _ in 0..(1 << log_n) * width {
        state = state * Mersenne31::from_u64(1103515245) + Mersenne31::from_u64(12345);
        values.push(state)?;
    }
    of_width(values, width)
}

/// A committed batch, with the points that each of its matrices is opened at.
#[derive(Drop)]
pub struct Batch {
    pub commitment: [u8; 32],
    pub data: ProverData,
    /// The domain that each matrix was given on.
    pub domains: Vec<Domain>,
    pub points: Vec<Vec<Cubic>>,
}

// `CirclePcs::commit`, after a test of what it requires.
fn commit_to<F: ComplexExtendable, I: Mmcs<F>, W>(
    alloc: Global,
    scheme: &CirclePcs<F, I, W>,
    evaluations: Vec<(CircleDomain<F>, RowMajorMatrix<F>)>,
) -> Result<(I::Commitment, I::ProverData), Fail> {
    if !heights_match_domains(&evaluations) {
        return Err(Fail::new("the heights"));
    }
    Ok(scheme.commit(alloc, evaluations)?)
}

// The domains of matrices.
fn domains_of(alloc: Global, evaluations: &[(Domain, Rows)]) -> Result<Vec<Domain>, AllocError> {
    let mut domains = Vec::with_capacity(alloc, evaluations.len())?;
    for (domain, _) in evaluations {
        domains.push(*domain)?;
    }
    Ok(domains)
}

/// Commits to matrices on these domains.
pub fn commit(
    alloc: Global,
    scheme: &Scheme,
    evaluations: Vec<(Domain, Rows)>,
    points: Vec<Vec<Cubic>>,
) -> Result<Batch, Fail> {
    let domains = domains_of(alloc, &evaluations)?;
    let (commitment, data) = commit_to(alloc, scheme, evaluations)?;
    Ok(Batch {
        commitment,
        data,
        domains,
        points,
    })
}

/// Commits to one matrix on this domain.
pub fn commit_one(
    alloc: Global,
    scheme: &Scheme,
    domain: Domain,
    matrix: Rows,
    points: &[Cubic],
) -> Result<Batch, Fail> {
    let evaluations = vec![in alloc; (domain, matrix)]?;
    let points = vec![in alloc; Vec::from_slice(alloc, points)?]?;
    commit(alloc, scheme, evaluations, points)
}

/// Four sevens, opened at `[0, 1, 0]`.
pub fn sevens(alloc: Global, scheme: &Scheme) -> Result<Batch, Fail> {
    let column = rows(alloc, &[7; 4], 1)?;
    commit_one(
        alloc,
        scheme,
        Domain::standard(2),
        column,
        &[cubic([0, 1, 0])],
    )
}

// The rows of the taller of two columns; the other has the first four.
const ROWS: [u64; 16] = [0, 1, 2, 3, 4, 5, 6, 7, 8, 9, 10, 11, 12, 13, 14, 15];

// Both columns on their standard domains.
fn counting_columns(alloc: Global) -> Result<Vec<(Domain, Rows)>, Fail> {
    let mut evaluations = Vec::new(alloc);
    evaluations.push((Domain::standard(2), rows(alloc, &ROWS[..4], 1)?))?;
    evaluations.push((Domain::standard(4), rows(alloc, &ROWS, 1)?))?;
    Ok(evaluations)
}

/// Columns of four and of sixteen rows, of which row `i` holds `i`, in one batch over standard
/// domains, each opened at `[0, 1, 0]` and `[0, 0, 1]`.
pub fn two_columns(alloc: Global, scheme: &Scheme) -> Result<Batch, Fail> {
    let at = [cubic([0, 1, 0]), cubic([0, 0, 1])];
    let mut points = Vec::new(alloc);
    points.push(Vec::from_slice(alloc, &at)?)?;
    points.push(Vec::from_slice(alloc, &at)?)?;
    commit(alloc, scheme, counting_columns(alloc)?, points)
}

/// A matrix without a pattern: the binary logarithm of its height, its width, and the number of
/// points that it is opened at.
pub type Size = (usize, usize, u64);

/// So many coordinates that no element of the base field is.
pub fn points_of(alloc: Global, count: u64, seed: u64) -> Result<Vec<Cubic>, AllocError> {
    let mut points = Vec::new(alloc);
    for k in 0..count {
        points.push(cubic([seed, 1, k]))?;
    }
    Ok(points)
}

/// Matrices on their domains, with the points that each is opened at.
pub type AtPoints = BatchAtPoints<Cubic, Domain, Rows>;

/// Matrices of these sizes on standard domains, with their points.
pub fn at_points(alloc: Global, sizes: &[Size], seed: u64) -> Result<AtPoints, Fail> {
    let mut evaluations = Vec::new(alloc);
    let mut points = Vec::new(alloc);
    for (log_n, width, count) in sizes {
        let matrix = scattered(alloc, *log_n, *width, seed)?;
        evaluations.push((standard(*log_n)?, matrix))?;
        points.push(points_of(alloc, *count, seed)?)?;
    }
    Ok(BatchAtPoints {
        evaluations,
        points,
    })
}

/// Commits to matrices of these sizes.
pub fn scattered_batch(
    alloc: Global,
    scheme: &Scheme,
    sizes: &[Size],
    seed: u64,
) -> Result<Batch, Fail> {
    let BatchAtPoints {
        evaluations,
        points,
    } = at_points(alloc, sizes, seed)?;
    commit(alloc, scheme, evaluations, points)
}
