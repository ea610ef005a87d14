//! Why a transcript fails.
ghost use Rattle.std.specs.Prelude.{◌≡◌};
ghost use Rattle.circle_transcript.specs.Failure.{phase_of};
ghost use Rattle.circle_transcript.specs.declared.failure.CircleTranscriptFailure.TheVariants.{Memory};

use circle_commit::PowPhase;
use std::alloc::AllocError;
use thiserror::Error;

/// Why a transcript fails. Only `abort` may follow.
#[derive(Clone, Copy, Debug, Error, PartialEq, Eq)]
pub enum CircleTranscriptFailure {
    /// The witness of a proof of work doesn't pass.
    #[error("invalid proof-of-work witness for the {phase} phase: {bits} bits required")]
    PowWitness {
        /// The phase that the proof of work guards.
        phase: PowPhase,
        /// Its difficulty, in bits.
        bits: usize,
    },
    /// No witness passes.
    #[error("no proof-of-work witness for the {phase} phase: {bits} bits required")]
    NoWitness {
        /// The phase that the proof of work guards.
        phase: PowPhase,
        /// Its difficulty, in bits.
        bits: usize,
    },
    /// Memory for the query indices was refused.
    #[error("out of memory")]
    Memory,
}

impl CircleTranscriptFailure {
    /// The phase that failed; where memory was refused it is that of the query indices.
    pub fn phase(&self) -> PowPhase
        ensures { result ≡ phase_of self.now }
    {
        match self {
            CircleTranscriptFailure::PowWitness { phase, .. }
            | CircleTranscriptFailure::NoWitness { phase, .. } => *phase,
            CircleTranscriptFailure::Memory => PowPhase::Query,
        }
    }
}

impl From<AllocError> for CircleTranscriptFailure {
    ghost from_gives = { λ _ e. e ≡ Memory };

    fn from(_refused: AllocError) -> CircleTranscriptFailure {
        CircleTranscriptFailure::Memory
    }
}
