//! Why a proof is refused.
ghost use Rattle.std.specs.Prelude.{◌≡◌, ℕ, List};
ghost use Rattle.circle_commit.specs.Named.{fri_name};
ghost use Rattle.circle_commit.specs.declared.error.FriError.TheVariants.{Memory};

use crate::params::PowPhase;
use std::alloc::AllocError;
use std::fmt::Display;
use thiserror::Error;

/// An error with a name: that of its variant.
pub trait Named {
    // The letters of the name.
    ghost name_of: { Self → List ℕ };

    /// The name, as a program prints it.
    fn name(&self) -> &'static str
        ensures { result.now ≡ name_of self.now };
}

/// Why a proof is refused. `CommitErr` is the error of the scheme that commits to the folded
/// codewords, `InputErr` that of the openings of what was committed to first.
#[derive(Debug, Drop, Error)]
#[error_bound(CommitErr: Display, InputErr: Display)]
pub enum FriError<CommitErr, InputErr> {
    /// Nothing is claimed of any matrix.
    #[error("no matrix is claimed")]
    NoCommittedMatrices,
    /// The openings of what was committed to first are refused.
    #[error("the input is refused: {0}")]
    InputError(InputErr),
    /// The greatest height is past the points of the circle's group.
    #[error("the greatest height is 2^{log_global_max_height}, but the group has only 2^{two_adicity} points")]
    GlobalMaxHeightTooLarge {
        /// The binary logarithm of the greatest height.
        log_global_max_height: usize,
        /// The binary logarithm of the number of points.
        two_adicity: usize,
    },
    /// The difficulty of a proof of work is past what is supported.
    #[error("a proof of work of {bits} bits is not supported ({phase})")]
    UnsupportedGrinding {
        /// The phase that the proof of work guards.
        phase: PowPhase,
        /// Its difficulty, in bits.
        bits: usize,
    },
    /// The parameters have no queries.
    #[error("there are no queries")]
    ZeroQueries,
    /// The parameters make codewords no longer than what they encode.
    #[error("there is no blowup")]
    ZeroBlowup,
    /// The parameters let a round fold by another number than two.
    #[error("folding by up to 2^{max_log_arity} entries at once is not supported")]
    UnsupportedFoldingCap {
        /// The binary logarithm of the greatest number of entries that a round folds into one.
        max_log_arity: usize,
    },
    /// The proof has a wrong number of commitments of rounds.
    #[error("the proof commits to {got} rounds, and {expected} are due")]
    CommitRoundCountMismatch {
        /// The number of rounds.
        expected: usize,
        /// The number of commitments.
        got: usize,
    },
    /// The proof has a wrong number of witnesses of the rounds' proofs of work.
    #[error("the proof has witnesses for {got} rounds, and {expected} are due")]
    CommitPowWitnessCountMismatch {
        /// The number of rounds.
        expected: usize,
        /// The number of witnesses.
        got: usize,
    },
    /// A witness isn't zero though its proof of work has no difficulty.
    #[error("a witness of a proof of work without difficulty is not zero ({phase})")]
    NonCanonicalPowWitness {
        /// The phase of the witness.
        phase: PowPhase,
    },
    /// The proof has a wrong number of openings of rounds.
    #[error("the proof opens {got} rounds, and {expected} are due")]
    CommitPhaseOpeningsCountMismatch {
        /// The number of rounds.
        expected: usize,
        /// The number of openings.
        got: usize,
    },
    /// A round is opened at a wrong number of queries.
    #[error("round {round} is opened at {got} queries, and {expected} are due")]
    CommitPhaseQueryCountMismatch {
        /// The round, from 0.
        round: usize,
        /// The number of queries.
        expected: usize,
        /// The number of queries that it is opened at.
        got: usize,
    },
    /// A query of a round has a wrong number of siblings.
    #[error("a query of round {round} has {got} siblings, and {expected} are due")]
    SiblingValuesLengthMismatch {
        /// The round, from 0.
        round: usize,
        /// The number of siblings that are due.
        expected: usize,
        /// The number of siblings that there are.
        got: usize,
    },
    /// A claimed point is at infinity: its coordinate belongs to no point of the circle.
    #[error("a claimed point is at infinity")]
    PointAtInfinity,
    /// The witness of a proof of work doesn't pass.
    #[error("a witness of a proof of work does not pass ({0})")]
    InvalidPowWitness(PowPhase),
    /// A query is folded to another value than the final polynomial's.
    #[error("a query is folded to another value than the final polynomial's")]
    FinalPolyMismatch,
    /// Values of some height are left over after the last round.
    #[error("{remaining} values are left over, the next of height 2^{next_log_height}")]
    UnconsumedReducedOpenings {
        /// The binary logarithm of the next height.
        next_log_height: usize,
        /// The number of values.
        remaining: usize,
    },
    /// The opening of a round is refused.
    #[error("the opening of a round is refused: {0}")]
    CommitPhaseMmcsError(CommitErr),
    /// Memory was refused.
    #[error("out of memory")]
    Memory,
    /// The final polynomial has a wrong number of coefficients.
    #[error("the final polynomial has {got} coefficients, and {expected} are due")]
    FinalPolyLengthMismatch {
        /// The number of coefficients that are due.
        expected: usize,
        /// The number of coefficients that there are.
        got: usize,
    },
}

impl<CommitErr, InputErr: Named> FriError<CommitErr, InputErr> {
    /// The variant's name, but that of the inner error where the input is refused.
    pub fn name(&self) -> &'static str
        ensures { result.now ≡ fri_name InputErr.name_of self.now }
    {
        match self {
            FriError::NoCommittedMatrices => "NoCommittedMatrices",
            FriError::InputError(inner) => inner.name(),
            FriError::GlobalMaxHeightTooLarge { .. } => "GlobalMaxHeightTooLarge",
            FriError::UnsupportedGrinding { .. } => "UnsupportedGrinding",
            FriError::ZeroQueries => "ZeroQueries",
            FriError::ZeroBlowup => "ZeroBlowup",
            FriError::UnsupportedFoldingCap { .. } => "UnsupportedFoldingCap",
            FriError::CommitRoundCountMismatch { .. } => "CommitRoundCountMismatch",
            FriError::CommitPowWitnessCountMismatch { .. } => "CommitPowWitnessCountMismatch",
            FriError::NonCanonicalPowWitness { .. } => "NonCanonicalPowWitness",
            FriError::CommitPhaseOpeningsCountMismatch { .. } => "CommitPhaseOpeningsCountMismatch",
            FriError::CommitPhaseQueryCountMismatch { .. } => "CommitPhaseQueryCountMismatch",
            FriError::SiblingValuesLengthMismatch { .. } => "SiblingValuesLengthMismatch",
            FriError::PointAtInfinity => "PointAtInfinity",
            FriError::InvalidPowWitness(_) => "InvalidPowWitness",
            FriError::FinalPolyMismatch => "FinalPolyMismatch",
            FriError::UnconsumedReducedOpenings { .. } => "UnconsumedReducedOpenings",
            FriError::CommitPhaseMmcsError(_) => "CommitPhaseMmcsError",
            FriError::Memory => "Memory",
            FriError::FinalPolyLengthMismatch { .. } => "FinalPolyLengthMismatch",
        }
    }
}

impl<CommitErr, InputErr> From<AllocError> for FriError<CommitErr, InputErr> {
    ghost from_gives = { λ _ e. e ≡ Memory };

    fn from(_refused: AllocError) -> FriError<CommitErr, InputErr> {
        FriError::Memory
    }
}
