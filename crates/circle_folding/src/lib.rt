//! What the opening argument of Circle STARKs (IACR ePrint 2024/278) does with codewords: quotients
//! that bind claimed values, and folding by pairs.
//!
//! What is proved, for every lawful field and extension:
//!
//! - `deep_quotient_reduce_row` is the quotient of a row under values claimed at a point, by its
//!   formula, and `None` exactly where that point is the row's own (`value`, `claim`, `none`).
//! - `extract_lambda` returns the multiple of the vanishing polynomial in a codeword and takes it
//!   away, and leaves the codeword where memory is refused (`lambda`, `remainder`, `refused`).
//! - `fold_y` and `fold_x` fold each pair of a codeword by the first coordinate that belongs to it,
//!   and `fold_x_row` and `fold_row_with_inv_twiddle` one pair by itself; `CircleFriFolding` is the
//!   latter as a strategy.
//! - Of queries: `query_points` returns the point of each, `add_quotients` adds the quotients of
//!   their rows under a claim and is `None` exactly where the claimed point is one of theirs
//!   (`none`, `apart`, `sums`), `subtract_vanishing` takes lambda times the vanishing polynomial
//!   away. `first_layer_twiddles`, `first_x_twiddles` and `next_x_twiddles` return each query's
//!   twiddle in the first layer and round after round, `query_pairs` and `push_query_pairs` the
//!   rows that are opened of a codeword's commitment, and of one more, and `fold_query_values`
//!   folds each query's pair, leaving the values where memory is refused.
//!   `fold_query_values_with_inv_twiddles` folds them where the inverses are there already.
//! - Of polynomials in x: `x_value` is the sum of the coefficients times the basis at x;
//!   `x_interpolate` returns coefficients exactly where so few have the codeword's values, and they
//!   are the only ones that do (`values`, `only`, `none`).
//! - Where the quotients of a claim are the values of polynomials with few coefficients plus
//!   multiples of the vanishing polynomial, the claimed values are those of the codewords' only
//!   polynomials (`quotient_binds`, `claim_binds`: calls without a result that carry a law).
//!
//! Its files:
//!
//! - In `src/`, `reduced.rt`: queries' points and the quotients of their rows; `query.rt`: their
//!   twiddles, pairs and values; `evaluation.rt`, `interpolation.rt`: polynomials in x.
//! - In `specs/`, `Quotient`, `Lambda`, `Fold`, `Spans`, `Queries`, `Chain`: the definitions.
//!   `Blocks`, `Interpolation`: definitions of private contracts. `WideSpans`: values of a
//!   polynomial of few coefficients plus a multiple of the vanishing polynomial; `Claims`:
//!   quotients on them, and what binds claimed values. `Rows`, `PolynomialRows`, `ClaimRows`:
//!   examples.
//! - In `proofs/`, of lambda: `Vanished`, the vanishing polynomial has one value in each block of
//!   the transform's order; `Orthogonal`, it is orthogonal to polynomials with fewer coefficients,
//!   and its squares add up to half the number of points; `Remainders`, so the extracted multiple
//!   is the only one; `BlockSums`, `Weighted`.
//! - In `proofs/`, of folds: `Sides`, a polynomial by its coefficients at even and odd places;
//!   `FoldedSpans`, codewords of low degree fold to such codewords; `Folds`, `Twiddles`,
//!   `FirstLayer`, `Queries`, `Places`. Of polynomials in x: `Halves`, `Parts`, `Interpolated`,
//!   `Told`. Of quotients: `Vanishing`.
//! - In `proofs/`, of binding: `Polynomials`, functions on the circle by halves of their
//!   coefficients; `Only`; `Bound`: where f and f times im / re are values of few coefficients,
//!   `(2 - re) f = im (im / re) f`, so at the claimed point, where re and im are 0, f is 0;
//!   `Differences`, divided differences in the challenge; `ClaimedWords`, `ClaimedColumns`: both
//!   laws.
#![tactic(auto)]

pub mod binding;
pub mod deep_quotient;
pub mod evaluation;
pub mod folding;
pub mod interpolation;
pub mod query;
pub mod reduced;
pub mod strategy;

pub use binding::{claim_binds, quotient_binds};
pub use deep_quotient::{deep_quotient_reduce_row, extract_lambda};
pub use evaluation::x_value;
pub use folding::{add_each, fold_row_with_inv_twiddle, fold_x, fold_x_row, fold_y};
pub use interpolation::x_interpolate;
pub use query::{
    first_layer_twiddles, first_x_twiddles, fold_query_values, fold_query_values_with_inv_twiddles,
    next_x_twiddles, push_query_pairs, query_pairs, without_bits,
};
pub use reduced::{Claim, MatrixRows, add_quotients, query_points, subtract_vanishing};
pub use strategy::CircleFriFolding;
