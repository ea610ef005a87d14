//! Two AIRs with traces that satisfy them, for examples, tests and benchmarks.
//!
//! - `fibonacci_air`, `fibonacci_trace`: sums of the two entries before, over any field. The
//!   contracts say which AIR and which rows these are, and that the rows satisfy the AIR.
//! - `permutation_air`, `permutation_trace`: rounds of fifth powers over a state of eight elements
//!   of `Mersenne31`. The contracts say how many columns, public values and rows there are, and
//!   tests compare the parts and the rows with those of another implementation.
//!
//! Its files:
//!
//! - In `src/`, `fibonacci.rt` and `permutation.rt`: an AIR and its traces each. `trace.rt`: what a
//!   trace is with its public values.
//! - In `specs/`, `Fibonacci`: the parts of that AIR, and its rows. `Handles`: which nodes its
//!   handles are of. `Shape`: what calls of a builder keep.
//! - In `proofs/`, `Sequence`: why the rows satisfy the AIR. `Shapes`: that calls keep the shape.
#![tactic(auto)]

pub mod fibonacci;
pub mod permutation;
pub mod trace;

pub use fibonacci::{fibonacci_air, fibonacci_trace};
pub use permutation::{permutation_air, permutation_trace};
pub use trace::Trace;
