//! What is committed to, at worked examples, and what is refused of it.
use circle_commit::{Matrix, Mmcs, RowMajorMatrix, heights_are_powers_of_two, is_power_of_two};
use circle_field::{Field, Mersenne31};
use circle_presets::{ProverData, ValMmcs};
use p3_circle::{CirclePcs, Neutral, Point, ProverError, heights_match_domains};
use std::alloc::Global;
use std::process::Abort;
use std::test::Fail;
use test_batches::batches::{Domain, Rows, one, rows};
use test_batches::openings::told;
use test_batches::parameters::{Numbers, SMALL, parameters};
use test_schemes::expect;

type Committed = ([u8; 32], ProverData);

type Scheme = CirclePcs<Mersenne31, ValMmcs, ()>;

// The values of 1 + 2y + 3x + 4xy at the four points of the standard domain in natural order.
const FOUR: &[u64] = &[32767, 2147319810, 2147450878, 163843];

// Its values at the eight points, in natural order and in that of the transform.
const EIGHT: &[u64] = &[
    1581940626, 177587932, 1754305948, 184945221, 565411951, 1969764645, 393308773, 1962669500,
];

const EIGHT_BY_PAIRS: &[u64] = &[
    1581940626, 1962669500, 565411951, 184945221, 1754305948, 1969764645, 393308773, 177587932,
];

// Those of a domain of four points within the eight.
const FOUR_OF_EIGHT: &[u64] = &[1581940626, 184945221, 565411951, 1962669500];

// And at sixteen points.
const SIXTEEN: &[u64] = &[
    1536355510, 387056293, 847046262, 169058625, 1554449694, 1162029107, 395033642, 1280990317,
    230530337, 1544837587, 1084847618, 1597827222, 973631757, 1201044311, 1968039776, 1247091134,
];

// The scheme over trees with this blowup, where folding stops at `2^log_final_poly_len`
// coefficients.
fn scheme(log_blowup: usize, log_final_poly_len: usize) -> Scheme {
    let numbers = Numbers {
        log_blowup,
        log_final_poly_len,
        ..SMALL
    };
    CirclePcs::new(ValMmcs::new(), parameters(numbers, ()))
}

// The batch of one column over a domain.
fn batch(alloc: Global, domain: Domain, entries: &[u64]) -> Result<Vec<(Domain, Rows)>, Fail> {
    Ok(one(alloc, (domain, rows(alloc, entries, 1)?))?)
}

// `commit`, after a test of what it requires.
fn commit(
    rt: &impl Abort,
    alloc: Global,
    scheme: &Scheme,
    batch: Vec<(Domain, Rows)>,
) -> Result<Committed, ProverError> {
    assert!(rt; heights_match_domains(&batch));
    scheme.commit(alloc, batch)
}

// `get_quotient_ldes`, after a test of what it requires.
fn quotient_ldes(
    rt: &impl Abort,
    alloc: Global,
    scheme: &Scheme,
    batch: Vec<(Domain, Rows)>,
    num_chunks: usize,
) -> Result<Vec<Rows>, ProverError> {
    assert!(rt; heights_match_domains(&batch));
    scheme.get_quotient_ldes(alloc, batch, num_chunks)
}

// `commit_ldes`, after a test of what it requires.
fn commit_ldes(
    rt: &impl Abort,
    alloc: Global,
    scheme: &Scheme,
    ldes: Vec<Rows>,
) -> Result<Committed, ProverError> {
    assert!(rt; heights_are_powers_of_two(&ldes));
    scheme.commit_ldes(alloc, ldes)
}

// `get_evaluations_on_domain` of the first matrix, after a test of what it requires.
fn evaluations_on(
    rt: &impl Abort,
    alloc: Global,
    scheme: &Scheme,
    data: &ProverData,
    domain: Domain,
) -> Result<Rows, ProverError> {
    let matrices = scheme.mmcs.get_matrices(data);
    assert!(rt; !matrices.is_empty());
    assert!(rt; is_power_of_two(matrices[0].height()));
    assert!(rt; domain.log_n() >= 1 && domain.log_n() <= 31);
    scheme.get_evaluations_on_domain(alloc, data, 0, domain)
}

// Asserts that a matrix is the column of these entries.
fn assert_column(rt: &impl Abort, matrix: &Rows, expected: &[u64]) {
    expect!(rt; matrix.width() == 1);
    expect!(rt; matrix.height() == expected.len());
    for (r, entry) in expected.iter().enumerate() {
        assert!(rt; r < matrix.height());
        let row = [Mersenne31::from_u64(*entry)];
        assert!(rt; matrix.row(r) == row.as_slice(), "row {r}");
    }
}

// Asserts that matrices are the columns of these entries.
fn assert_columns(rt: &impl Abort, matrices: &[Rows], expected: &[&[u64]]) {
    expect!(rt; matrices.len() == expected.len());
    for (matrix, entries) in matrices.iter().zip(expected) {
        assert_column(rt, matrix, entries);
    }
}

/// The binary logarithm of a domain's size, and whether it is the standard one: the halves of the
/// others meet.
type Kind = (usize, bool);

// The domain of this kind.
fn domain_of(rt: &impl Abort, (log_n, is_standard): Kind) -> Domain {
    assert!(rt; log_n <= 10);
    if is_standard {
        Domain::standard(log_n)
    } else {
        Domain::new(log_n, Point::ZERO)
    }
}

// A column of zeros over each of the domains.
fn zeros(rt: &impl Abort, alloc: Global, kinds: &[Kind]) -> Result<Vec<(Domain, Rows)>, Fail> {
    let mut batch = Vec::new(alloc);
    for (log_n, is_standard) in kinds {
        assert!(rt; *log_n <= 10);
        let entries = vec![in alloc; Mersenne31::ZERO; 1 << *log_n]?;
        let domain = domain_of(rt, (*log_n, *is_standard));
        batch.push((domain, RowMajorMatrix::new_col(entries)))?;
    }
    Ok(batch)
}

// Asserts that zeros over these domains are refused, by `commit` and `get_quotient_ldes` alike.
fn assert_refused(
    rt: &impl Abort,
    alloc: Global,
    scheme: &Scheme,
    kinds: &[Kind],
    expected: &str,
) -> Result<(), Fail> {
    let committed = told(commit(rt, alloc, scheme, zeros(rt, alloc, kinds)?));
    let extended = told(quotient_ldes(rt, alloc, scheme, zeros(rt, alloc, kinds)?, 1));
    expect!(rt; committed.as_str() == expected);
    expect!(rt; extended.as_str() == expected);
    Ok(())
}

const NOT_GENUINE: &str = "a domain is not genuine: its halves meet";

const TOO_SMALL: &str = "a matrix has too few rows to be folded";

const TOO_LARGE: &str = "a matrix has too many rows for the group of points";

// A blowup, the number of coefficients at which folding stops, domains, and the refusal's text.
const REFUSED: &[(usize, usize, &[Kind], &str)] = &[
    (1, 0, &[(2, false)], NOT_GENUINE),
    (1, 0, &[(1, true)], TOO_SMALL),
    (1, 0, &[(1, false)], TOO_SMALL),
    (1, 1, &[(2, true)], TOO_SMALL),
    (1, usize::MAX, &[(3, true)], TOO_SMALL),
    (29, 0, &[(2, true)], TOO_LARGE),
    (29, 0, &[(2, false)], TOO_LARGE),
    (usize::MAX, 0, &[(2, true)], TOO_LARGE),
    (1, 0, &[(2, true), (2, false), (1, true)], NOT_GENUINE),
    (1, 1, &[(3, true), (2, true), (2, false)], TOO_SMALL),
];

#[test]
fn refusals_of_domains(rt: HostRuntime) -> Result<(), Fail> {
    for (log_blowup, log_final_poly_len, kinds, expected) in REFUSED {
        let scheme = scheme(*log_blowup, *log_final_poly_len);
        assert_refused(&rt, rt.alloc(), &scheme, kinds, expected)?;
    }
    Ok(())
}

// Asserts that the only extension, in this number of chunks, of the four values is of these
// entries, and has this commitment.
fn assert_extended(
    rt: &impl Abort,
    alloc: Global,
    scheme: &Scheme,
    num_chunks: usize,
    commitment: &[u8; 32],
) -> Result<(), Fail> {
    let given = batch(alloc, Domain::standard(2), FOUR)?;
    let ldes = quotient_ldes(rt, alloc, scheme, given, num_chunks)?;
    assert_columns(rt, &ldes, &[EIGHT_BY_PAIRS]);
    let (same, _) = commit_ldes(rt, alloc, scheme, ldes)?;
    expect!(rt; same == *commitment);
    Ok(())
}

#[test]
fn a_polynomial_of_four_coefficients(rt: HostRuntime) -> Result<(), Fail> {
    let alloc = rt.alloc();
    let scheme = scheme(1, 0);
    let given = batch(alloc, Domain::standard(2), FOUR)?;
    let (commitment, data) = commit(&rt, alloc, &scheme, given)?;
    assert_columns(&rt, scheme.mmcs.get_matrices(&data), &[EIGHT_BY_PAIRS]);
    for num_chunks in [0, 1, 7] {
        assert_extended(&rt, alloc, &scheme, num_chunks, &commitment)?;
    }
    Ok(())
}

// Asserts that what was committed to has these values on a domain.
fn assert_values(
    rt: &impl Abort,
    alloc: Global,
    scheme: &Scheme,
    data: &ProverData,
    domain: Domain,
    expected: &[u64],
) -> Result<(), ProverError> {
    let evaluations = evaluations_on(rt, alloc, scheme, data, domain)?;
    assert_column(rt, &evaluations, expected);
    Ok(())
}

// Asserts that a column on four points can't be evaluated on fewer, and that it has these values on
// standard domains.
fn assert_on_domains(
    rt: &impl Abort,
    alloc: Global,
    entries: &[u64],
    cases: &[(Domain, &[u64])],
) -> Result<(), Fail> {
    let (scheme, given) = (scheme(1, 0), batch(alloc, Domain::standard(2), entries)?);
    let (_, data) = commit(rt, alloc, &scheme, given)?;
    let small = told(evaluations_on(rt, alloc, &scheme, &data, Domain::standard(1)));
    expect!(rt; small.as_str() == "a domain is smaller than the trace");
    for (domain, expected) in cases {
        assert_values(rt, alloc, &scheme, &data, *domain, expected)?;
    }
    Ok(())
}

#[test]
fn evaluations_on_domains(rt: HostRuntime) -> Result<(), Fail> {
    let cases: [(Domain, &[u64]); 4] = [
        (Domain::standard(2), FOUR),
        (Domain::standard(3), EIGHT),
        (Domain::standard(4), SIXTEEN),
        (Domain::new(2, Point::generator(4)), FOUR_OF_EIGHT),
    ];
    assert_on_domains(&rt, rt.alloc(), FOUR, &cases)?;
    assert_on_domains(&rt, rt.alloc(), &[7; 4], &[(Domain::standard(3), &[7; 8])])
}

// The columns of these entries.
fn columns(alloc: Global, entries: &[&[u64]]) -> Result<Vec<Rows>, Fail> {
    let mut columns = Vec::new(alloc);
    for of_column in entries {
        columns.push(rows(alloc, of_column, 1)?)?;
    }
    Ok(columns)
}

// Asserts that columns of these entries have too few rows.
fn assert_too_low(
    rt: &impl Abort,
    alloc: Global,
    scheme: &Scheme,
    entries: &[&[u64]],
) -> Result<(), Fail> {
    let refused = told(commit_ldes(rt, alloc, scheme, columns(alloc, entries)?));
    expect!(rt; refused.as_str() == TOO_SMALL);
    Ok(())
}

const AS_THEY_ARE: [&[u64]; 2] = [&[1, 0, 0, 0, 0, 0, 0, 0], &[7; 16]];

const TOO_LOW: [&[u64]; 2] = [&[7; 32], &[1, 0, 0, 0, 0, 0, 0, 0]];

// Asserts that no matrices are nothing to commit to, and that their extensions are none.
fn assert_nothing(rt: &impl Abort, alloc: Global, scheme: &Scheme) -> Result<(), Fail> {
    let refused = told(commit_ldes(rt, alloc, scheme, Vec::new(alloc)));
    expect!(rt; refused.as_str() == "no matrix is committed to");
    expect!(rt; quotient_ldes(rt, alloc, scheme, Vec::new(alloc), 1)?.is_empty());
    Ok(())
}

// Asserts that eight rows are too few to be folded by this scheme.
fn assert_too_few(
    rt: &impl Abort,
    alloc: Global,
    scheme: &Scheme,
    data: &ProverData,
) -> Result<(), Fail> {
    let small = told(evaluations_on(rt, alloc, scheme, data, Domain::standard(3)));
    expect!(rt; small.as_str() == TOO_SMALL);
    assert_too_low(rt, alloc, scheme, &TOO_LOW)
}

#[test]
fn matrices_as_they_are(rt: HostRuntime) -> Result<(), Fail> {
    let (alloc, one) = (rt.alloc(), scheme(1, 0));
    assert_nothing(&rt, alloc, &one)?;
    assert_too_low(&rt, alloc, &one, &[&[1, 0, 0, 0]])?;
    let (_, data) = commit_ldes(&rt, alloc, &one, columns(alloc, &AS_THEY_ARE)?)?;
    assert_columns(&rt, one.mmcs.get_matrices(&data), &AS_THEY_ARE);
    // Eight rows are as few as can be folded to a constant, and too few for two coefficients.
    for (log_blowup, log_final_poly_len) in [(1, 1), (2, 0), (usize::MAX, 0), (0, usize::MAX)] {
        assert_too_few(&rt, alloc, &scheme(log_blowup, log_final_poly_len), &data)?;
    }
    Ok(())
}

#[test]
fn domains_and_limits(rt: HostRuntime) {
    let one = scheme(1, 0);
    expect!(&rt; one.natural_domain_for_degree(2) == Domain::standard(1));
    expect!(&rt; one.natural_domain_for_degree(8) == Domain::standard(3));
    expect!(&rt; one.log_max_trace_height() == 30);
    for (log_final_poly_len, least) in [(0, 2), (3, 5), (usize::MAX - 1, usize::MAX)] {
        expect!(&rt; scheme(1, log_final_poly_len).log_min_trace_height() == least);
    }
    expect!(&rt; !Scheme::ZK);
}

// So many columns of one seven each.
fn periodic_sevens(alloc: Global, count: usize) -> Result<Vec<Vec<Mersenne31>>, Fail> {
    let mut columns = Vec::with_capacity(alloc, count)?;
    for _ in 0..count {
        columns.push(one(alloc, Mersenne31::from_u64(7))?)?;
    }
    Ok(columns)
}

#[test]
fn periodic_columns(rt: HostRuntime) -> Result<(), Fail> {
    let (alloc, scheme) = (rt.alloc(), scheme(1, 0));
    let (trace, extension) = (Domain::standard(4), Domain::standard(5));
    for count in [1, 2000] {
        let columns = periodic_sevens(alloc, count)?;
        let table = scheme.build_periodic_lde_table(alloc, &columns, trace, extension)?;
        expect!(&rt; table.width() == count);
        expect!(&rt; table.height() == 2);
    }
    Ok(())
}

/// Matrices of sevens: how many they are, the binary logarithm of their height, and their width.
type Sevens = (usize, usize, usize);

// Matrices of sevens on standard domains.
fn sevens(
    rt: &impl Abort,
    alloc: Global,
    (count, log_n, width): Sevens,
) -> Result<Vec<(Domain, Rows)>, Fail> {
    assert!(rt; log_n <= 14 && width <= 2000);
    let entries = vec![in alloc; 7; width << log_n]?;
    let mut batch = Vec::with_capacity(alloc, count)?;
    for _ in 0..count {
        batch.push((Domain::standard(log_n), rows(alloc, &entries, width)?))?;
    }
    Ok(batch)
}

// Asserts that a matrix has sevens alone, in `height` rows.
fn assert_sevens(rt: &impl Abort, matrix: &Rows, height: usize, width: usize) {
    expect!(rt; matrix.height() == height);
    expect!(rt; matrix.width() == width);
    expect!(rt; matrix.values().iter().all(|entry| entry.value() == 7));
}

// A blowup's binary logarithm, and what is extended.
const CONSTANTS: [(usize, Sevens); 4] = [
    (1, (40, 2, 1)),
    (1, (1, 14, 1)),
    (1, (1, 2, 2000)),
    (9, (1, 2, 1)),
];

// The extensions of sevens, which have sevens alone.
fn extended_sevens(
    rt: &impl Abort,
    alloc: Global,
    scheme: &Scheme,
    size: Sevens,
    height: usize,
) -> Result<Vec<Rows>, Fail> {
    let ldes = quotient_ldes(rt, alloc, scheme, sevens(rt, alloc, size)?, 1)?;
    expect!(rt; ldes.len() == size.0);
    for matrix in &ldes {
        assert_sevens(rt, matrix, height, size.2);
    }
    Ok(ldes)
}

// Asserts that the extensions of sevens, and their values on their own domain, have sevens alone.
fn assert_constants(
    rt: &impl Abort,
    alloc: Global,
    log_blowup: usize,
    size: Sevens,
) -> Result<(), Fail> {
    let (_, log_n, width) = size;
    assert!(rt; log_n <= 14 && log_blowup <= 10);
    let scheme = scheme(log_blowup, 0);
    let ldes = extended_sevens(rt, alloc, &scheme, size, 1 << (log_n + log_blowup))?;
    let (_, data) = commit_ldes(rt, alloc, &scheme, ldes)?;
    let values = evaluations_on(rt, alloc, &scheme, &data, Domain::standard(log_n))?;
    assert_sevens(rt, &values, 1 << log_n, width);
    Ok(())
}

#[test]
fn constants_of_large_sizes(rt: HostRuntime) -> Result<(), Fail> {
    for (log_blowup, size) in CONSTANTS {
        assert_constants(&rt, rt.alloc(), log_blowup, size)?;
    }
    Ok(())
}
