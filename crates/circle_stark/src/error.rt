//! Why a proof is refused, and why there is none.
ghost use Rattle.std.specs.Prelude.{◌≡◌};
ghost use Rattle.circle_stark.specs.Verdict.{refusal_of};
ghost use Rattle.circle_stark.specs.declared.error.StarkError.TheVariants.{Memory};
ghost use Rattle.circle_stark.specs.declared.error.StarkProverError.TheVariants.{Memory as OutOfMemory};

use circle_commit::{FriError, PowPhase};
use circle_relation::VerifierError;
use std::alloc::AllocError;
use std::fmt::Display;
use thiserror::Error;

/// Why a proof is refused.
///
/// The parameter is the error of the scheme's verifier.
#[derive(Debug, Drop, Error)]
#[error_bound(OpeningError: Display)]
pub enum StarkError<OpeningError> {
    /// There are more or fewer public values than the AIR has.
    #[error("the AIR has {expected} public values, and there are {got}")]
    PublicValuesMismatch {
        /// The number that the AIR has.
        expected: usize,
        /// The number of those at hand.
        got: usize,
    },
    /// A trace of this height has too few rows to be folded.
    #[error("the trace has too few rows to be folded")]
    HeightTooSmall,
    /// The group has no domain for the trace's extension or for the quotient.
    #[error("the trace has too many rows for the group of points")]
    HeightTooLarge,
    /// A periodic column is longer than the trace is high.
    #[error("periodic column {column} is longer than the trace")]
    PeriodTooLong {
        /// The first such column.
        column: usize,
    },
    /// There isn't one value for each column at the opened point.
    #[error("the trace has {expected} columns, and {got} values are opened")]
    TraceLocalLength {
        /// The number of columns.
        expected: usize,
        /// The number of values.
        got: usize,
    },
    /// There isn't one value for each column at the next point.
    #[error("the trace has {expected} columns, and {got} values of the next row are opened")]
    TraceNextLength {
        /// The number of columns.
        expected: usize,
        /// The number of values.
        got: usize,
    },
    /// There isn't one list of values for each chunk of the quotient.
    #[error("the quotient has {expected} chunks, and {got} are opened")]
    QuotientChunkCount {
        /// The number of chunks.
        expected: usize,
        /// The number of lists.
        got: usize,
    },
    /// A chunk hasn't one value for each coefficient of an element.
    #[error("chunk {chunk} has {expected} columns, and {got} values are opened")]
    QuotientChunkLength {
        /// The first such chunk.
        chunk: usize,
        /// The number of coefficients.
        expected: usize,
        /// The number of values.
        got: usize,
    },
    /// The drawn point or the next one is at infinity, or the vanishing polynomial of the trace's
    /// domain is 0 there.
    #[error("the drawn point can't be opened")]
    UnfitPoint,
    /// The scheme refuses the opened values.
    #[error("invalid opening: {0}")]
    InvalidOpening(OpeningError),
    /// The constraints put together aren't the quotient times the vanishing polynomial.
    #[error("the constraints don't match the quotient at the drawn point")]
    OodEvaluationMismatch,
    /// Memory was refused.
    #[error("out of memory")]
    Memory,
}

impl<OpeningError> From<AllocError> for StarkError<OpeningError> {
    ghost from_gives = { λ _ e. e ≡ Memory };

    fn from(_refused: AllocError) -> StarkError<OpeningError> {
        StarkError::Memory
    }
}

impl<I, W> From<VerifierError<I, W>> for StarkError<VerifierError<I, W>> {
    ghost from_gives = { λ error e. e ≡ refusal_of error };

    fn from(error: VerifierError<I, W>) -> StarkError<VerifierError<I, W>> {
        match error {
            FriError::Memory => StarkError::Memory,
            error => StarkError::InvalidOpening(error),
        }
    }
}

/// Why there is no proof of a trace.
#[derive(Clone, Copy, Debug, Drop, Error, PartialEq, Eq)]
pub enum StarkProverError {
    /// There are more or fewer public values than the AIR has.
    #[error("the AIR has {expected} public values, and there are {got}")]
    PublicValuesMismatch {
        /// The number that the AIR has.
        expected: usize,
        /// The number of those at hand.
        got: usize,
    },
    /// The trace has more or fewer columns than the AIR.
    #[error("the AIR has {expected} columns, and the trace {got}")]
    WidthMismatch {
        /// The number that the AIR has.
        expected: usize,
        /// The number that the trace has.
        got: usize,
    },
    /// The number of rows isn't a power of two.
    #[error("the number of rows isn't a power of two")]
    HeightNotPowerOfTwo,
    /// The trace has too few rows to be folded.
    #[error("the trace has too few rows to be folded")]
    HeightTooSmall,
    /// The group has no domain for the trace's extension or for the quotient.
    #[error("the trace has too many rows for the group of points")]
    HeightTooLarge,
    /// A periodic column is longer than the trace is high.
    #[error("periodic column {column} is longer than the trace")]
    PeriodTooLong {
        /// The first such column.
        column: usize,
    },
    /// The scheme's parameters are not supported.
    #[error("the parameters are not supported")]
    UnfitParameters,
    /// A constraint doesn't hold at a row.
    #[error("constraint {constraint} doesn't hold at row {row}")]
    Unsatisfied {
        /// The first row at which one doesn't.
        row: usize,
        /// The first such constraint there.
        constraint: usize,
    },
    /// The drawn point or the next one is at infinity, or the vanishing polynomial of the trace's
    /// domain is 0 there.
    #[error("the drawn point can't be opened")]
    UnfitPoint,
    /// The drawn point is on the domain that the trace is committed on.
    #[error("the drawn point is on the committed domain")]
    PointOnDomain,
    /// No witness passes the proof of work of a phase.
    #[error("no witness passes the proof of work of the {phase} phase")]
    NoGrindingWitness {
        /// The phase of the run.
        phase: PowPhase,
    },
    /// Memory was refused.
    #[error("out of memory")]
    Memory,
}

impl From<AllocError> for StarkProverError {
    ghost from_gives = { λ _ e. e ≡ OutOfMemory };

    fn from(_refused: AllocError) -> StarkProverError {
        StarkProverError::Memory
    }
}
