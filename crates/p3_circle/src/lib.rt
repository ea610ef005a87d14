//! The Circle STARK polynomial commitment scheme (IACR ePrint 2024/278).
//!
//! The crate re-exports what its callers need of the crates below it. What is proved of its own
//! calls, for every lawful field, extension, commitment scheme and challenger:
//!
//! - `CirclePcs::verify` returns Ok exactly where the relation `Accepts` of `circle_relation` holds
//!   of the claims, the proof and the drawn challenges, unless out of memory (`accepted`,
//!   `complete`). Where a test before the challenger is seeded fails, `verify` returns the first
//!   such refusal and leaves the challenger as it was (`first`). A later refusal has its reason too
//!   (`reason`).
//! - `OpenedRun::verify` returns Ok only where a run meets what the relation says of it once the
//!   challenges are drawn (`opened`, `holds`), and each refusal has its reason (`refused`).
//! - `CirclePcs::new` keeps its arguments.
//! - `CirclePcs::commit` commits to what `get_quotient_ldes` returns: for each matrix the values of
//!   the only polynomials with the given rows on the given domain, at the points of a standard
//!   domain in the transform's order (`matrices`, by `IsExtension`). `commit_ldes` commits to its
//!   argument. `get_evaluations_on_domain` returns the committed rows on their own domain, and
//!   elsewhere the values of the polynomials that the first rows fix (`values`, by
//!   `AreCommittedValues`). Each tests its input in order and returns the first refusal that there
//!   is reason for, or `Memory`, and no other (`refused`, by `RefusesInOrder`).
//!   `natural_domain_for_degree` returns the standard domain with that number of points, and
//!   `build_periodic_lde_table` the table of `circle_plane`. `first_rows` lends the first rows of a
//!   matrix as values on a smaller domain (`points`).
//! - `CirclePcs::open` tests all requests in order, returns the first refusal that there is reason
//!   for, and then leaves the challenger as it was (`refused`). Otherwise it returns, for each
//!   request, matrix and point, the values of the polynomials that the first committed rows fix
//!   (`values`), and a proof. The proof holds the commitments of the codewords under the challenges
//!   that the transcript draws of the claims and the proof, their lambdas, the coefficients of the
//!   last codeword, and the rows and siblings at the drawn indices (`opened`, by `IsGiven`). The
//!   codewords are combined of the committed rows themselves where each matrix is of low degree or
//!   has fewer than 1024 columns (`words`); of a wider matrix of high degree, which only
//!   `commit_ldes` takes, they are combined of the extension of its first rows, and `verify` may
//!   refuse the proof. A later refusal has its reason (`failure`): `LastWordNotConstant` comes only
//!   where, under some challenges, the last codeword is of too high degree, which it never is where
//!   the matrices are of low degree (`degree`); `NoGrindingWitness` only where no witness passes in
//!   the opening's own run.
//! - `CirclePcs::round_trip` makes all three calls in a row, for any number of batches, by a
//!   prover's and a verifier's challenger in one state. It refuses honest batches only when out of
//!   memory (`accepted`), returns the values of the only polynomials (`values`), leaves both
//!   challengers in one state (`states`), and otherwise returns the refusal of the call that
//!   refused, with its reason (`reason`).
//!
//! `CirclePcs` implements the traits `Pcs` and `UnivariateStarkPcs` of `circle_commit`, whose laws
//! it meets: `verify` accepts what `open` returns of an honest statement. The clauses of its calls
//! cite the members of that implementation, which say what each call returns and refuses.
//!
//! Its files:
//!
//! - In `specs/`, `Verdict`: what is accepted and refused. `Honest`: an honest statement. `Scheme`:
//!   calls as relations of lists and states; `SchemeFacts`, `SchemeLaws` and the folder
//!   `SchemeLaws`: the proofs of the traits' laws. `Calls`: names that clauses use. `Constant`:
//!   folding to a constant. `Searches`: an example of searches.
//! - In `proofs/`, `InOrder`, `Scheme`: tests. `Verdicts`: the result of `verify`. `Degrees`: a
//!   last codeword of too high degree. `OwnRows`: the rows that codewords are combined of.
//!   `Constants`, `ConstantSeeds`.
#![tactic(auto)]

pub mod commit;
mod instance;
pub mod laws;
pub mod pcs;
pub mod round_trip;
pub mod transcript;
pub mod verifier;

pub use circle_challenger::{CanObserve, CanSample, FieldChallenger, GrindingChallenger};
pub use circle_commit::{
    CommitmentOpening, CommittedBatch, FriError, FriParameters, Matrix, MatrixOpening, Mmcs,
    OpenedValues, OpeningRequest, Pcs, PeriodicLdeTable, PointOpening, PolynomialSpace, PowPhase,
    RowMajorMatrix, UnivariateStarkPcs, claims_of,
};
pub use circle_field::{ComplexExtendable, ExtensionField, Field};
pub use circle_folding::{
    CircleFriFolding, deep_quotient_reduce_row, extract_lambda, fold_x, fold_x_row, fold_y,
    x_interpolate, x_value,
};
pub use circle_plane::{
    Butterflies, CfftPerm, CfftPermutable, CfftView, CircleCoset, CircleDomain, CircleEvaluations,
    CirclePeriodicEvaluator, CirclePoints, Neutral, PeriodicError, Point,
    build_periodic_lde_table_circle, cfft_permute_index, circle_basis,
};
pub use circle_prover::ProverError;
pub use circle_relation::{
    CircleCommitPhaseMultiStep, CircleFriProof, CircleInputProof, CirclePcsProof, InputError,
};
pub use circle_round_trip::{BatchAtPoints, RoundTripError};
pub use commit::{first_rows, heights_match_domains};
pub use pcs::CirclePcs;
pub use transcript::{
    CircleDraws, CirclePcsShape, CircleProverTranscript, CircleRun, CircleTranscript,
    CircleTranscriptFailure, CircleVerifierTranscript, CircleWitnesses, OpeningClaim, both_runs,
    prover_run, verifier_run,
};
