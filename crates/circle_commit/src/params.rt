//! The parameters of FRI, and the phases of a run that are guarded by a proof of work.
ghost use Rattle.std.specs.Prelude.{◌≡◌, Some, codes};
ghost use Rattle.circle_commit.specs.Parameters.{with_scheme};
ghost use Rattle.circle_commit.specs.declared.params.PowPhase.TheVariants.{Batch, CommitPhase};
ghost use Rattle.circle_commit.specs.declared.params.PowPhase.TheVariants.{Query};

use std::fmt;

/// The greatest difficulty, in bits, of a proof of work that is supported.
pub const MAX_PROOF_OF_WORK_BITS: usize = 30;

/// The parameters of FRI: how much the codewords are longer than what they encode, how they are
/// folded and queried, the difficulties of the proofs of work, and the commitment scheme of the
/// folded codewords.
#[derive(Debug, Drop)]
pub struct FriParameters<M> {
    /// The binary logarithm of the blowup, by which a codeword is longer than what it encodes.
    pub log_blowup: usize,
    /// The binary logarithm of the number of coefficients of the final polynomial, at which folding
    /// stops.
    pub log_final_poly_len: usize,
    /// The binary logarithm of the greatest number of entries that one round folds into one.
    pub max_log_arity: usize,
    /// The number of queries.
    pub num_queries: usize,
    /// The difficulty, in bits, of the proof of work before the challenge that batches the
    /// openings.
    pub batch_proof_of_work_bits: usize,
    /// The difficulty, in bits, of the proof of work before the folding challenge of each round.
    pub commit_proof_of_work_bits: usize,
    /// The difficulty, in bits, of the proof of work before the query indices.
    pub query_proof_of_work_bits: usize,
    /// The commitment scheme of the folded codewords.
    pub mmcs: M,
}

impl<M> FriParameters<M> {
    /// The same numbers, with another commitment scheme of the folded codewords.
    pub fn with_mmcs<Other>(&self, mmcs: Other) -> FriParameters<Other>
        ensures { result ≡ with_scheme self.now mmcs }
    {
        FriParameters {
            log_blowup: self.log_blowup,
            log_final_poly_len: self.log_final_poly_len,
            max_log_arity: self.max_log_arity,
            num_queries: self.num_queries,
            batch_proof_of_work_bits: self.batch_proof_of_work_bits,
            commit_proof_of_work_bits: self.commit_proof_of_work_bits,
            query_proof_of_work_bits: self.query_proof_of_work_bits,
            mmcs,
        }
    }
}

/// A phase of a run that is guarded by a proof of work.
#[derive(Clone, Copy, PartialEq, Eq, Debug)]
pub enum PowPhase {
    /// Before the challenge that batches the openings.
    Batch,
    /// Before the folding challenge of a round.
    CommitPhase,
    /// Before the query indices.
    Query,
}

impl fmt::Display for PowPhase {
    ghost output = { elim [
      | Batch ↦ Some (codes "batch")
      | CommitPhase ↦ Some (codes "commit")
      | Query ↦ Some (codes "query")
    ] };

    fn fmt<W: fmt::Write>(&self, f: &mut fmt::Formatter<W>) -> fmt::Result {
        f.write_str(match self {
            PowPhase::Batch => "batch",
            PowPhase::CommitPhase => "commit",
            PowPhase::Query => "query",
        })
    }
}
