//! What commitment schemes stand on, and polynomial commitment schemes as traits with laws, for
//! callers that take any of them: matrices by rows, views of them, domains that polynomials are
//! given on, what is opened and claimed of them, the parameters of FRI, how it folds and why it
//! refuses.
//!
//! What is proved:
//!
//! - A matrix is its list of rows: `row`, `split_rows`, `new_col`, `copy_of`, the mapped view and
//!   `to_row_major_matrix` say exactly which rows. `try_new` is `None` exactly where the width is 0
//!   or doesn't divide the number of entries.
//! - `columnwise_dot_product` returns each column's sum by weights of the rows, and
//!   `columnwise_dot_products` the same for several lists of weights, the rows read once.
//! - The trait `Mmcs` says what a scheme that commits to matrices promises, and `PolynomialSpace`
//!   what a domain requires and gives; `FriFoldingStrategy` leaves that to its instances.
//! - A `PeriodicLdeTable` returns the entry of its row i modulo its height (`get`).
//! - `Pcs` commits to polynomials and opens them, `UnivariateStarkPcs` has what a STARK needs
//!   besides. What they promise speaks of lists and of the challenger's states alone, so that a
//!   caller over any scheme can rely on it: Ok of a verifier is one relation of the claims, the
//!   proof and the states before and after, and a refusal that isn't of memory denies it for every
//!   state after.
//! - `claims_of` makes the claims of `verify` of what `open` returned.
//!
//! Its files:
//!
//! - In `src/`, `space.rt`: the trait of domains; `params.rt`: the parameters of FRI and the phases
//!   of proofs of work; `pcs.rt`: what is opened and claimed; `scheme.rt`, `stark.rt`: the traits
//!   of polynomial commitment schemes; `statements.rt`: what the members of `Pcs` say together;
//!   `claims.rt`: from openings to claims.
//! - In `specs/`, `Matrix`, `RowMajorMatrix`, `RowMajorMatrixView`, `PeriodicLdeTable`: what each
//!   type is to contracts. `Mmcs`, `MmcsFacts`, `Pcs`, `Parameters`, `Selectors`: definitions of
//!   schemes, parameters and selectors. `DotProduct`: sums by weights. `RowFacts`, `FlatRows`:
//!   lemmas on rows stored one after another, for the crates above too. `Claims`: claims by their
//!   parts; `Kept`: data kept of batches that were committed to; `Honest`: honest requests, and the
//!   claims that a verifier is handed.
//! - In `proofs/`: column sums, powers of two, lists written from the front; `Lists`.
#![tactic(auto)]

pub mod claims;
pub mod error;
pub mod folding;
pub mod matrix;
pub mod mmcs;
pub mod params;
pub mod pcs;
pub mod periodic;
pub mod scheme;
pub mod space;
pub mod stark;
pub mod statements;
pub mod view;

pub use claims::{CommittedBatch, claims_of};
pub use error::{FriError, Named};
pub use folding::FriFoldingStrategy;
pub use matrix::{
    Dimensions, FieldMatrix, Matrix, MatrixShape, RowIndexMap, RowIndexMappedView, RowMajorMatrix,
    entry_count,
};
pub use mmcs::{
    Mmcs, OpenedRows, are_below, heights_are_powers_of_two, is_power_of_two, log2_strict,
};
pub use params::{FriParameters, MAX_PROOF_OF_WORK_BITS, PowPhase};
pub use pcs::{
    BatchMultiOpening, CommitmentOpening, MatrixOpening, OpenedValues, OpenedValuesForMatrix,
    OpenedValuesForPoint, OpenedValuesForRound, OpeningRequest, PointOpening,
};
pub use periodic::{PeriodicEvaluator, PeriodicLdeTable};
pub use scheme::Pcs;
pub use space::{LagrangeSelectors, PolynomialSpace};
pub use stark::UnivariateStarkPcs;
pub use statements::Statements;
pub use view::RowMajorMatrixView;
