//! What a verifier of Circle STARK openings (IACR ePrint 2024/278) checks.
//!
//! For every lawful field, extension and schemes, each step is a method of a value that carries
//! what is known so far, as a ghost field. Before the challenger is seeded, and while it is played:
//!
//! - `TestedRun::new` returns the first refusal of claims and a proof that there is reason for
//!   (`run_tests`), or makes a `TestedRun`: what the tests establish (`tested`), and the logarithm
//!   of the greatest height (`top`). Functions of `verifier` return the refusals of parts of these
//!   tests, which `specs/Refusals` lists in order: `validate_claims`, `validate_parameters`,
//!   `validate_proof_shape` and `validate_points` (`batch_tests`, `parameter_tests`, `proof_tests`,
//!   `point_tests`).
//! - `TestedRun::replay_transcript` draws what the transcript of the claims and the proof draws
//!   from a challenger (`drawn`), or returns the refusal of the first witness that doesn't pass
//!   (`failure`). It makes a `DrawnRun`: the claimed points with the values there, in one list,
//!   which the transcript absorbs (`listed`); a challenge for each round (`betas`); and as many
//!   queries as the parameters say (`count`), each below the greatest height (`below`).
//! - `DrawnRun::opened` makes the run of the relation, where batches are committed to by a scheme.
//!   `DrawnRun::verify` is Ok only where the relation accepts it (`accepted`).
//!
//! Once the challenges are drawn, by the relation of `circle_relation`:
//!
//! - `OpenedRun` has what was tested before the challenges were drawn, and what is known of them
//!   (`drawn`), with the list of claimed points (`listed`). `claimed_heights` returns the heights
//!   that matrices are claimed of, ascending. `authenticate_inputs` is Ok only where the rows of
//!   each batch authenticate at the queries (`shown`).
//! - `OpenedRun::checked` makes a `CheckedRun`: the proof's lists have the lengths that the claims
//!   and the queries fix, each matrix is claimed at a point, and each leaves something to fold
//!   (`opened`). It has the heights (`claimed`).
//! - `CheckedRun::reduced_words` makes `ReducedWords`: for each height the sums of the quotients of
//!   all claims at the queries (`sums`). It is Ok only where no claimed point is that of a query
//!   (`apart`).
//! - `ReducedWords::fold_first_layer` makes a `FirstLayer`: its pairs at the queries (`asked`), and
//!   what they fold into (`folds`). `authenticate_first_layer` is Ok only where these pairs
//!   authenticate (`shown`).
//! - `FirstLayer::fold_rounds` folds the queries' values round by round, joining each height where
//!   it is due, into `LastValues` (`ends`). It is Ok only where the pairs of all rounds
//!   authenticate (`shown`).
//! - `LastValues::check_final` is Ok only where each query ends in the value of the final
//!   polynomial (`ended`).
//! - `OpenedRun::verify` is all of these: Ok only where a run meets what the relation says of it
//!   (`opened`, `holds`).
//! - Whatever these refuse, the relation has a reason for, or memory was refused (`refused`).
//!
//! Its files:
//!
//! - In `specs/`, `Refusals`: the tests before the seeding, in order; `Tests`: these over the
//!   records; `Tested`: what they establish. `OfTested`: what a `TestedRun` is of. `Replay`: what
//!   is drawn. `Drawn`: what is known of a run once its challenges are drawn. `OfDrawn`, `OfRun`:
//!   the relation, its parts, and the lists that calls hand on, over a `DrawnRun` and an
//!   `OpenedRun`. `Shape`, `Batches`, `Rows`, `Sums`, `FirstLayer`, `Rounds`: definitions of
//!   private contracts.
//! - In `proofs/`, `Domains`, `HeightTests`, `ShapeTests`, `Seeding`, `Known`, `Finite`, `Claimed`:
//!   the tests. `Items`, `Replayed`: the transcript. `Sizes`, `Lengths`, `Points`, `Rows`: shapes
//!   and rows. Those that begin with `Reduced`, `FirstLayer` and `Rounds`, and `LastWord`: each
//!   part. `Verified`: the relation, and back.
#![tactic(auto)]

pub mod batches;
pub mod checked;
pub mod drawn;
pub mod first_layer;
pub mod heights;
pub mod last_word;
pub mod queries;
pub mod reduced;
pub mod replay;
pub mod rounds;
pub mod run;
pub mod shape;
pub mod tested;
pub mod verifier;

pub use checked::CheckedRun;
pub use drawn::DrawnRun;
pub use first_layer::FirstLayer;
pub use last_word::LastValues;
pub use reduced::ReducedWords;
pub use run::OpenedRun;
pub use tested::TestedRun;
