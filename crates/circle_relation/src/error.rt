//! Why what a proof opens is refused, and why there is no commitment and no opening.
ghost use Rattle.std.specs.Prelude.{◌≡◌};
ghost use Rattle.circle_relation.specs.Named.{input_name, prover_name};
ghost use Rattle.circle_relation.specs.Failures.{prover_error};
ghost use Rattle.circle_relation.specs.declared.error.ProverError.TheVariants.{Memory};

use circle_commit::{FriError, Named, PowPhase};
use circle_transcript::CircleTranscriptFailure;
use std::alloc::AllocError;
use std::fmt::Display;
use thiserror::Error;

/// Why what a proof opens of the batches and of the first layer is refused.
///
/// The two parameters are the errors of the commitment schemes of the batches and of the codewords.
#[derive(Debug, Drop, Error)]
#[error_bound(InputMmcsError: Display, FriMmcsError: Display)]
pub enum InputError<InputMmcsError, FriMmcsError> {
    /// The rows of a batch are not those of its commitment.
    #[error("input MMCS error: {0}")]
    InputMmcsError(InputMmcsError),
    /// The pairs of the first layer are not those of its commitment.
    #[error("first layer MMCS error: {0}")]
    FirstLayerMmcsError(FriMmcsError),
    /// The lists of a proof don't have the lengths that the claims and the queries fix.
    #[error("input shape error: mismatched dimensions")]
    InputShapeError,
    /// A claimed point is one of the queried points, where the claim has no quotient.
    #[error("opening point coincides with a query point")]
    OpeningPointMatchesQueryPoint,
    /// A matrix is claimed at no point, so that its width is not known.
    #[error("batch {batch}, matrix {matrix}: opened at no points; its width cannot be authenticated")]
    MatrixWithoutOpeningPoints {
        /// The batch, from 0.
        batch: usize,
        /// The matrix, from 0, in its batch.
        matrix: usize,
    },
    /// A claimed domain leaves no room for the fold of the first layer.
    #[error("tallest claimed domain is 2^{log_n} rows; the first-layer fold needs at least 2")]
    DomainTooSmall {
        /// The binary logarithm of the domain's number of points.
        log_n: usize,
    },
}

/// Why claims and a proof are refused.
///
/// The two parameters are the errors of the commitment schemes of the batches and of the codewords.
pub type VerifierError<InputMmcsError, FriMmcsError> = FriError<
    FriMmcsError,
    InputError<InputMmcsError, FriMmcsError>,
>;

/// The variant's name.
impl<InputMmcsError, FriMmcsError> Named for InputError<InputMmcsError, FriMmcsError> {
    ghost name_of = { input_name };

    fn name(&self) -> &'static str {
        match self {
            InputError::InputMmcsError(_) => "InputMmcsError",
            InputError::FirstLayerMmcsError(_) => "FirstLayerMmcsError",
            InputError::InputShapeError => "InputShapeError",
            InputError::OpeningPointMatchesQueryPoint => "OpeningPointMatchesQueryPoint",
            InputError::MatrixWithoutOpeningPoints { .. } => "MatrixWithoutOpeningPoints",
            InputError::DomainTooSmall { .. } => "DomainTooSmall",
        }
    }
}

/// Why a prover's call is refused.
#[derive(Clone, Copy, Debug, Drop, Error, PartialEq, Eq)]
pub enum ProverError {
    /// Memory was refused.
    #[error("out of memory")]
    Memory,
    /// No witness passes the proof of work of a phase.
    #[error("no witness passes the proof of work of the {phase} phase")]
    NoGrindingWitness {
        /// The phase of the run.
        phase: PowPhase,
    },
    /// The parameters are not supported: no queries, a blowup of one, a round that may fold by
    /// another number than two, or a proof of work of more than 30 bits.
    #[error("the parameters are not supported")]
    UnfitParameters,
    /// The group has no domain of the points that a matrix is committed on.
    #[error("a matrix has too many rows for the group of points")]
    HeightTooLarge,
    /// A matrix has too few rows to be folded.
    #[error("a matrix has too few rows to be folded")]
    HeightTooSmall,
    /// The halves of a domain are not disjoint.
    #[error("a domain is not genuine: its halves meet")]
    NotGenuine,
    /// There isn't one list of points for each matrix.
    #[error("there is not one list of points for each matrix")]
    MatrixCountMismatch,
    /// No matrix is committed to.
    #[error("no matrix is committed to")]
    NoCommittedMatrices,
    /// A coordinate of the projective line belongs to no point.
    #[error("an opening point is at infinity")]
    PointAtInfinity,
    /// A matrix is to be opened at a point of the domain that it is committed on.
    #[error("an opening point lies on the committed domain of its matrix")]
    PointOnDomain,
    /// The last folded codeword is not that of a polynomial of as many coefficients as are due, so
    /// some committed matrix isn't of low degree.
    #[error("the last folded word is of too high degree")]
    LastWordNotConstant,
    /// A domain has fewer points than the trace has rows.
    #[error("a domain is smaller than the trace")]
    DomainSmallerThanTrace,
}

impl ProverError {
    /// The variant's name.
    pub fn name(&self) -> &'static str
        ensures { result.now ≡ prover_name self.now }
    {
        match self {
            ProverError::Memory => "Memory",
            ProverError::NoGrindingWitness { .. } => "NoGrindingWitness",
            ProverError::UnfitParameters => "UnfitParameters",
            ProverError::HeightTooLarge => "HeightTooLarge",
            ProverError::HeightTooSmall => "HeightTooSmall",
            ProverError::NotGenuine => "NotGenuine",
            ProverError::MatrixCountMismatch => "MatrixCountMismatch",
            ProverError::NoCommittedMatrices => "NoCommittedMatrices",
            ProverError::PointAtInfinity => "PointAtInfinity",
            ProverError::PointOnDomain => "PointOnDomain",
            ProverError::LastWordNotConstant => "LastWordNotConstant",
            ProverError::DomainSmallerThanTrace => "DomainSmallerThanTrace",
        }
    }
}

impl From<AllocError> for ProverError {
    ghost from_gives = { λ _ e. e ≡ Memory };

    fn from(_refused: AllocError) -> ProverError {
        ProverError::Memory
    }
}

impl From<CircleTranscriptFailure> for ProverError {
    ghost from_gives = { λ failure e. e ≡ prover_error failure };

    fn from(failure: CircleTranscriptFailure) -> ProverError {
        match failure {
            CircleTranscriptFailure::PowWitness { phase, .. }
            | CircleTranscriptFailure::NoWitness { phase, .. } => {
                ProverError::NoGrindingWitness { phase }
            }
            CircleTranscriptFailure::Memory => ProverError::Memory,
        }
    }
}
