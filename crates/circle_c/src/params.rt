//! The parameters of a verifier, as C passes them.
ghost use Rattle.std.specs.Prelude.{◌↔◌, IsTrue};
ghost use Rattle.circle_c.specs.Params.{HasParams};

use circle_commit::FriParameters;

/// The parameters that a verifier requires.
#[repr(C)]
#[derive(Clone, Copy, Debug, Drop, PartialEq, Eq)]
pub struct CircleParams {
    /// The difficulty, in bits, of the proof of work before the challenge that batches the
    /// openings.
    pub batch_pow_bits: usize,
    /// The difficulty, in bits, of the proof of work before the folding challenge of each round.
    pub commit_pow_bits: usize,
    /// The binary logarithm of the blowup.
    pub log_blowup: usize,
    /// The binary logarithm of the number of coefficients of the final polynomial.
    pub log_final_poly_len: usize,
    /// The binary logarithm of the greatest number of entries that one round folds into one.
    pub max_log_arity: usize,
    /// The number of queries.
    pub num_queries: usize,
    /// The difficulty, in bits, of the proof of work before the query indices.
    pub query_pow_bits: usize,
}

// Whether these are the numbers of the parameters.
pub(crate) fn are_numbers_of(params: &CircleParams, of: &FriParameters<()>) -> bool
    ensures { IsTrue result ↔ HasParams params.now of.now }
{
    let numbers = CircleParams {
        batch_pow_bits: of.batch_proof_of_work_bits,
        commit_pow_bits: of.commit_proof_of_work_bits,
        log_blowup: of.log_blowup,
        log_final_poly_len: of.log_final_poly_len,
        max_log_arity: of.max_log_arity,
        num_queries: of.num_queries,
        query_pow_bits: of.query_proof_of_work_bits,
    };
    *params == numbers
}
