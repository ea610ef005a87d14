//! The Fiat-Shamir transcript of the scheme: what a run is described by, and both sides of it.

pub use circle_transcript::{
    CircleDraws, CircleMessages, CirclePcsShape, CircleProverTranscript, CircleRun,
    CircleTranscript, CircleTranscriptFailure, CircleVerifierTranscript, CircleWitnesses,
    OpeningClaim, both_runs, prover_run, verifier_run,
};
