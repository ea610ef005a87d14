//! The plane of Circle STARKs: points of the unit circle, domains, and polynomials on them.
//!
//! What is proved, for every lawful field:
//!
//! - `circle_basis` returns the first `2^n` polynomials of the circle basis at a point.
//! - `CircleEvaluations::evaluate` gives in row i of the transform's order, column by column, the
//!   value of the column's polynomial at point i of that order, for any shift (the clause `cfft`),
//!   and in natural order at point i of the natural order (`values`, with the clause `rows` of
//!   `to_natural_order`); the first `2^m` rows are the values on the smaller domain with the same
//!   shift (`prefix`).
//! - On a genuine domain `interpolate` returns coefficients that have the rows as their values, in
//!   both orders, and all that have them are these (`values`, `natural`, `only`); so each of the
//!   two undoes the other. `extrapolate` gives the values of these coefficients on the target in
//!   both orders and on smaller domains, and the coefficients of what it gives are the same with
//!   zeros after them (`values`, by `Extrapolates`).
//! - `from_natural_order` and `to_natural_order` show the rows in the other order without copying,
//!   and twice is back (`back`).
//! - `evaluate_at_point` returns, for each column, the value of the only polynomial with these
//!   values at any point that the domain is clear of, also over an extension (`values`, `only`).
//!   `evaluate_by_each_weights` returns these at several points at once, the rows read once.
//! - The table that `eval_on_lde` and `build_periodic_lde_table_circle` return has the columns'
//!   values at the points of the extension in natural order, in as many rows as differ (`table`, by
//!   `IsPeriodicTable`), and each refusal is the first whose condition holds (`refusal`, by
//!   `IsRefusal`). `eval_at_point` returns the columns' values at a point (`values`).
//! - Multiples of points, values by the halves of the coefficients, and that values on a genuine
//!   domain determine them, by calls that return nothing (`laws`).
//!
//! Its files:
//!
//! - In `src/`, `cfft`: evaluations and their transform, over the ways of `layers` to apply it.
//!   `periodic`: periodic columns.
//! - In `specs/`, `CircleEvaluations`, `Coefficients`, `Evaluated`: what evaluations are and say.
//!   `CfftView`: rows seen in the other order. `Layers`: what groups of rows count.
//!   `PeriodicColumns`, `PeriodicRows`: columns that repeat, what is wrong with one, their table.
//! - In `proofs/`, `Passes`, `AllLayers`, `Transformed`: coefficients are made of values and values
//!   of coefficients. `DoubledPoints`, `DoubledValues`: the points of a domain, doubled r times,
//!   are those of the domain of `2^r` times fewer points over and over. `NaturalRows`,
//!   `PeriodicValues`, `PeriodicTables`, `Periods`, `Weighed`: so a table's columns are written
//!   over the longest period and extended as one matrix.
#![tactic(auto)]

pub mod cfft;
mod layers;
pub mod periodic;

pub use cfft::{CircleEvaluations, circle_basis};
pub use circle_cfft::Butterflies;
pub use circle_domain::{
    CfftPerm, CfftPermutable, CfftView, CircleCoset, CircleDomain, CirclePoints,
    cfft_permute_index, laws, x_twiddles, y_twiddles,
};
pub use circle_point::{Neutral, Point};
pub use periodic::{CirclePeriodicEvaluator, PeriodicError, build_periodic_lde_table_circle};
