//! The scheme over Merkle trees, by the numbers of its parameters.
ghost use Rattle.std.specs.Prelude.{◌≡◌};

use circle_commit::FriParameters;
use circle_presets::{ChallengeMmcs, Scheme, ValMmcs};
use p3_circle::CirclePcs;

/// The numbers of a scheme's parameters.
#[derive(Clone, Copy)]
pub struct Numbers {
    pub log_blowup: usize,
    pub log_final_poly_len: usize,
    pub num_queries: usize,
    /// The difficulties of the batching challenge, of the rounds and of the indices.
    pub work: [usize; 3],
}

/// Two queries at a blowup of two, folded to a constant, and no proofs of work.
pub const SMALL: Numbers = Numbers {
    log_blowup: 1,
    log_final_poly_len: 0,
    num_queries: 2,
    work: [0; 3],
};

/// The parameters with these numbers, where codewords are committed to by this scheme.
pub fn parameters<W>(numbers: Numbers, mmcs: W) -> FriParameters<W>
    ensures blowup { result.log_blowup ≡ numbers.log_blowup }
    ensures final_poly { result.log_final_poly_len ≡ numbers.log_final_poly_len }
    ensures queries { result.num_queries ≡ numbers.num_queries }
    ensures folds { result.max_log_arity ≡ 1 }
    ensures words { result.mmcs ≡ mmcs }
{
    let [batch, commit, query] = numbers.work;
    FriParameters {
        log_blowup: numbers.log_blowup,
        log_final_poly_len: numbers.log_final_poly_len,
        max_log_arity: 1,
        num_queries: numbers.num_queries,
        batch_proof_of_work_bits: batch,
        commit_proof_of_work_bits: commit,
        query_proof_of_work_bits: query,
        mmcs,
    }
}

/// The scheme over trees with these parameters.
pub fn scheme(numbers: Numbers) -> Scheme {
    CirclePcs::new(ValMmcs::new(), parameters(numbers, ChallengeMmcs::new()))
}
