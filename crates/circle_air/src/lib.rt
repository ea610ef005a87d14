//! Constraints on the rows of a trace, as data: an AIR, an algebraic intermediate representation,
//! is a list of arithmetic steps, the nodes, and a list of constraints on nodes.
//!
//! What is proved, for every lawful field:
//!
//! - `Air::try_new` returns the AIR of its parts, or the first reason to refuse them, unless out of
//!   memory. It refuses unfit columns without allocating. What it tests is a fact of each `Air`:
//!   nodes read columns, periodic columns and public values that are there, and earlier nodes; a
//!   node's degree is at most `2^30`.
//! - `max_constraint_degree` and `log_num_quotient_chunks` are by their definitions, and `digest`
//!   is the SHA-256 of the AIR's text.
//! - Each call of `AirBuilder` appends the nodes and the constraint that it names, or reports an
//!   error and leaves the builder as it was. `finish` returns the AIR of what was appended.
//! - `check_constraints` returns `None` exactly where the rows satisfy the AIR, and otherwise the
//!   first row at which a constraint doesn't hold, and the first such constraint there.
//! - `write_values` writes the values of the nodes over the windows of a block of rows, for windows
//!   over any extension of the field.
//! - `laws::values_commute`: the nodes' values commute with the embedding of a field in an
//!   extension.
//! - `laws::equal_texts`: two AIRs with one text are equal.
//!
//! Its files:
//!
//! - In `specs/`, `Parts` and `Air`: what an AIR is. `Values`: windows, and the nodes' values over
//!   one. `Degrees`, `Refusal`, `Ranges`, `Valid`: degrees, what is refused, and what an AIR keeps
//!   since it wasn't. `Places`, `Satisfies`: the rows of a place, and when rows satisfy an AIR.
//!   `Lanes`: blocks of rows. `Text`: the text of the digest. `Builder`, `Built`: what is appended.
//!   `WorkedRows` evaluates these on a worked AIR.
//! - In `proofs/`, `Nodes`: what is made of one node more. `Lanes`, `Cycles`, `Found`: the values
//!   of a block, rows that go round, and violations found block by block. `Embedding`, `Readings`:
//!   the two laws. `Texts`, `Built`: texts one after another, and columns that were given up.
#![tactic(auto)]

pub mod air;
mod block;
pub mod builder;
pub mod check;
mod digest;
pub mod error;
pub mod evaluate;
pub mod laws;
pub mod node;
pub mod parts;
mod trace;

pub use air::Air;
pub use builder::{AirBuilder, Expr};
pub use check::{Violation, check_constraints};
pub use error::AirError;
pub use node::{Constraint, Node, Place};
pub use parts::AirParts;
