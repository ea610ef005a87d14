//! Challengers for Fiat-Shamir transcripts: traits whose calls are functions of an abstract state,
//! the description of a transcript and its seed, drivers that play a described transcript, and a
//! challenger over SHA-256.
//!
//! What is proved:
//!
//! - What a challenger returns and the state after it are functions of the state before, for any
//!   lawful challenger. A witness of a proof of work passes exactly where the sampled bits are
//!   zero, `grind` finds one where some passes, and at no difficulty nothing changes (the trait
//!   `GrindingChallenger`).
//! - An element of an extension is absorbed, and drawn, as its coefficients in order, by any such
//!   challenger (`FieldChallenger`).
//! - The text of a `DomainSeparator` is that of its version, name, steps and labels, and of no
//!   other (`DomainSeparator::text`, clause `only`).
//! - A `ProverState` or `VerifierState` takes the text in byte by byte (`new`), each further call
//!   is required to be the next described step, and says exactly what is absorbed or drawn and the
//!   state after it; `finish` requires that no step is left.
//! - `Sha256Challenger` is the sponge over the digest that the crate `sha2` defines, and its
//!   `grind` gives the least element that passes.
//!
//! Its files:
//!
//! - In `src/`, `state.rt`: the drivers `ProverState` and `VerifierState` play a described
//!   transcript on a borrowed challenger. `due.rt`: the steps still due, which contracts alone see.
//! - In `specs/`, `Step`, `Separator`, `Interaction`: steps and the seed's text. `Observing`,
//!   `Sampling`, `Grinding`, `Least`, `Played`, `Sponge`, `Sha256Challenger`: the functions of
//!   states. `Moves`: these of one challenger as one record. `Due`, `TranscriptState`: steps due.
//!   `Rows`: examples.
//! - In `proofs/`, `Readings`: a seed text can be read in one way. `Witnesses`, `Draws`: searches
//!   and draws.
#![tactic(auto)]

pub mod challenger;
pub mod domain_separator;
pub mod due;
pub mod interaction;
pub mod pattern;
pub mod sha256;
pub mod state;

pub use challenger::{
    CanObserve, CanSample, CanSampleBits, ChallengerState, FieldChallenger, GrindingChallenger,
    RunChallenger,
};
pub use domain_separator::DomainSeparator;
pub use due::StepsDue;
pub use interaction::{Hierarchy, Interaction, Kind, Length, ValueType};
pub use pattern::InteractionPattern;
pub use sha256::Sha256Challenger;
pub use state::{ProverSide, ProverState, TranscriptState, VerifierSide, VerifierState};
