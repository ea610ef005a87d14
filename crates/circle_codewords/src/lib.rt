//! The codewords that an opening of Circle STARKs (IACR ePrint 2024/278) makes of committed
//! matrices: one for each height, of the quotients of all claims on matrices of that height.
//!
//! What is proved, for every lawful field and extension:
//!
//! - An `OpeningPoint` is a point with its coordinate on the projective line. It is made of the
//!   coordinate once, and `OpeningPoint::new` returns none only where that belongs to no point.
//! - A `MatrixAtPoints` is a committed matrix with points that it can be opened at, an
//!   `OpenedMatrix` one with its columns' values there, and `BatchedMatrices` are several with the
//!   powers of a batching challenge. Each carries that fact, and is made by a call that tests it:
//!   `MatrixAtPoints::new` returns none only where the matrix can't be opened (`none`, by
//!   `CanBeOpened`), and `with_values` only where values are too few or of another width.
//! - `are_off_domain` is true exactly where no point is at infinity and the domain of the committed
//!   rows is clear of each (`yes`, `no`); then none is a point of that domain (`apart`).
//! - `MatrixAtPoints::opened_values` returns, at each point and for each column, the value of the
//!   only polynomial that the first committed rows fix (`values`, by `AreOpened`). The weights that
//!   it makes are `PointWeights`, which carry that they are right.
//! - `standard_points` returns the points of a standard domain in the order of the transform, and
//!   `vanishing_ratios` at each of them the imaginary part of a claimed point's vanishing function
//!   over the real one.
//! - `OpenedMatrix::combined_rows` returns at each row the sum of the entries that codewords read
//!   there, each times its power of the batching challenge. Of a matrix of at least `LIFT_WIDTH`
//!   columns codewords read the values of the polynomials that the first committed rows fix
//!   (`read_rows`): the sums are formed on these rows alone, and their coefficients extended by the
//!   transform. Rows of low degree are read as they are, which `circle_completeness` proves.
//! - `BatchedMatrices::reduced_word` has at each point of a height's domain the quotients there of
//!   the claims on matrices of that height, each times its power of the batching challenge, added
//!   up (`word`).
//! - `BatchedMatrices::first_layer` returns for each height the multiple of the vanishing polynomial
//!   in the reduced codeword (`lambdas`), and the codeword without it as rows of two (`layers`,
//!   `shapes`).
//! - `fold_corrected` folds each of these by y, and `fold_round` a later codeword by x and adds to
//!   it what was folded from its height, where that is one of the heights.
//!
//! Its files:
//!
//! - In `src/`, `points.rt`: points with their coordinates; `matrix.rt`: the other values that
//!   carry facts; `values.rt`, `ratios.rt`: what depends on a point; `combined.rt`: combinations of
//!   columns; `corrected.rt`: codewords without their lambda, as rows of two, and their folds by y.
//! - In `specs/`, `Points`: the coordinates of points. Over these coordinates, `Values`, `Ratios`,
//!   `Lifts` and `Words`: the definitions. `OfMatrices`: the same over a value of `matrix.rt`,
//!   whose type has the dictionary of its fields. `Requests`, `Openings`: what an opening is
//!   requested of and returns, and what is opened at the queries. `Rows`: logarithms.
//! - In `proofs/`, `Prefix`: the first rows of a committed matrix are those of a smaller domain;
//!   `Lifts`: what they extend to; `Combinations`: to combine extended rows is to extend what is
//!   combined; `AtPoints`: points by their coordinates; `Opened`, `Known`: values by weights;
//!   `DomainPoints`, `Quotients`, `Claims`, `OpenedClaims`, `Added`: sums of quotients by ratios;
//!   `Logs`: logarithms of heights; `Widths`, `Pairs`, `Joining`, `Zips`.
#![tactic(auto)]

pub mod combined;
pub mod corrected;
pub mod matrix;
pub mod points;
pub mod ratios;
pub mod reduced;
pub mod rounds;
pub mod values;

pub use combined::LIFT_WIDTH;
pub use corrected::fold_corrected;
pub use matrix::{BatchedMatrices, MatrixAtPoints, OpenedMatrix, PointWeights};
pub use points::OpeningPoint;
pub use ratios::{PointRatios, standard_points, vanishing_ratios};
pub use rounds::fold_round;
pub use values::are_off_domain;
