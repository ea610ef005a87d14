//! The statement whose proofs are forged: columns of 4 and of 16 rows, of which row `i` holds `i`,
//! in one batch over standard domains, opened at two points each.
use circle_challenger::Sha256Challenger;
use circle_presets::{Proof, Scheme};
use std::alloc::Global;
use std::test::Fail;
use test_batches::batches::{Batch, two_columns};
use test_batches::openings::{Claims, claims_of, open};
use test_batches::parameters::{Numbers, scheme};

/// The matrices with their opening.
#[derive(Drop)]
pub(crate) struct Opening {
    pub(crate) scheme: Scheme,
    pub(crate) claims: Claims,
    pub(crate) proof: Proof,
}

/// The number of queries: more than the 32 indices that there are, so that one repeats.
pub(crate) const QUERIES: usize = 40;

/// A blowup of two, folded to `2^log_final_poly_len` coefficients, with these difficulties of the
/// batching challenge, of the rounds and of the indices.
pub(crate) fn numbers(log_final_poly_len: usize, work: [usize; 3]) -> Numbers {
    Numbers {
        log_blowup: 1,
        log_final_poly_len,
        num_queries: QUERIES,
        work,
    }
}

/// Opens batches that were committed to by a scheme.
pub(crate) fn opened_batches(
    alloc: Global,
    scheme: Scheme,
    batches: &[Batch],
) -> Result<Opening, Fail> {
    let (values, proof) = open(alloc, &scheme, batches, &mut Sha256Challenger::new())?;
    let claims = claims_of(alloc, batches, &values)?;
    Ok(Opening {
        scheme,
        claims,
        proof,
    })
}

/// Opens the columns, by parameters with these numbers.
pub(crate) fn proved(alloc: Global, numbers: Numbers) -> Result<Opening, Fail> {
    let scheme = scheme(numbers);
    let batch = two_columns(alloc, &scheme)?;
    opened_batches(alloc, scheme, &[batch])
}
