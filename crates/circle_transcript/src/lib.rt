//! The Fiat-Shamir transcript of the Circle STARK polynomial commitment scheme (IACR ePrint
//! 2024/278): what a run is described by, and both sides of it.
//!
//! A run absorbs the claimed openings and draws the challenge that batches them, absorbs the
//! commitment to the first layer and draws the challenge that folds it, absorbs a commitment and
//! draws a folding challenge in each round, and absorbs the final polynomial's coefficients and
//! draws the query indices. Proofs of work guard the batching challenge, the folding challenges and
//! the indices.
//!
//! The steps by their labels, top down. Each draw depends on the seed and on all that was absorbed
//! above it, so that none of this can be chosen in view of what is drawn:
//!
//! ```text
//! seed  the shape: how claims are grouped and how wide they are, the numbers of rounds,
//!  |    of final coefficients and of indices with their bits, difficulties, the blowup
//!  |
//!  |    in   opening_point, opened_values   each claim
//!  |    in   batch_pow                      a witness, where there is a difficulty
//!  +->  out  batch_challenge                batches all claims into words
//!  |
//!  |    in   first_layer_commitment         the words, without their lambdas
//!  +->  out  bivariate_challenge            folds these words by y
//!  |
//!  |    in   commit_phase_commitment        in each round: its word
//!  |    in   commit_pow                     a witness, where there is a difficulty
//!  +->  out  fold_challenge                 folds that word by x
//!  |
//!  |    in   final_poly                     the coefficients that folding ends in
//!  |    in   query_pow                      a witness, where there is a difficulty
//!  +->  out  query_indices                  where rows and words are opened
//! ```
//!
//! Not absorbed are the claims' own commitments, which are for the caller to absorb before it draws
//! points; opened rows and siblings, which are tested against commitments; and the lambdas, which
//! nothing fixes: a prover can choose them after the queries.
//!
//! What is proved, for any field, extension, commitment and lawful challenger:
//!
//! - The steps that `CirclePcsShape::pattern` returns and the separator that `domain_separator`
//!   returns are those of the definition, byte for byte; shapes with equal seed texts are equal,
//!   but for a difficulty of rounds that there aren't (`has_seed_of`, clause `told`). That is so
//!   for final polynomials of any number of coefficients that is a power of two.
//! - Both sides of the transcript require each call to be the next described step and say what it
//!   draws and the state after it; `NoWitness` and `PowWitness` come exactly where no witness
//!   passes, and where the one at hand doesn't, and a transcript that is refused for want of memory
//!   leaves the challenger as it was (`new`, clause `refused`).
//! - Over a whole run (`prover_run`, `verifier_run`) the challenges, the indices and the state
//!   after are those of the definition `Draw.draw`; a failure names the phase in which no witness
//!   passes, or the first whose witness doesn't, and its difficulty.
//! - Both sides, from equal states and with the prover's witnesses, draw equal challenges and leave
//!   equal states (`both_runs`, clause `alike`).
//!
//! Its files:
//!
//! - In `src/`, `shape.rt`: what describes a run, its steps and its seed; `moves.rt`: what a
//!   challenger is to a run; `described.rt`: a run by its shape; `transcript.rt`: both sides, whose
//!   calls are made of the steps in `play.rt`; `run.rt`: whole runs.
//! - In `specs/`, `Shape`, `Draw`: the definitions, of which a run's draw is its phases one after
//!   another. `ShapeOf`, `Numbers`, `Claims`, `Transcript`, `Failure`: what the types are; `Runs`,
//!   `CircleRun`: what is drawn, missed or found nowhere over a run; `Rows`: examples.
//! - In `proofs/`, `Seeds`: a seed determines the shape; `Steps`, `Playing`, `Due`, `Labels`;
//!   `ByHand`: steps by hand; `Phases`: what phases say of the tests of their witnesses; `Runs`,
//!   `Drawn`: whole runs.
#![tactic(auto)]

pub mod described;
pub mod failure;
pub mod moves;
mod play;
pub mod run;
pub mod shape;
pub mod transcript;

pub use described::CircleRun;
pub use failure::CircleTranscriptFailure;
pub use moves::TranscriptMoves;
pub use run::{CircleDraws, CircleMessages, CircleWitnesses, both_runs, prover_run, verifier_run};
pub use shape::CirclePcsShape;
pub use transcript::{
    CircleProverTranscript, CircleTranscript, CircleVerifierTranscript, OpeningClaim, Seeded,
};
