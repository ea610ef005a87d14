//! Merkle trees over the rows of several matrices, with SHA-256 (FIPS 180-4).
//!
//! `ShaMmcs` has the laws of `Mmcs`, with the trees of `specs/Tree.antt`: its data is its list of
//! matrices, what `open_multi_batch` returns is the rows at the indices and authenticates under the
//! matrices' commitment, repeated indices included, and `verify_multi_batch` is Ok exactly where
//! the relation holds, unless out of memory; each refusal is the first whose condition holds (the
//! clause `first`).
//!
//! A tree hashes sixteen messages at a time by `lanes::digests`, code of this crate, which is
//! proved to return the digest that the crate `sha2` defines of each, at about half the cost of one
//! after another. What is left over, and verifying, call `sha2`.
//!
//! A proof has the digests of the siblings of known positions that aren't known themselves, level
//! after level from the lowest up, on each level by position. For rows 1, 4, 5 and 7 of eight it
//! has three digests, `d0` to `d2` in this order, where four single proofs would have twelve:
//!
//! ```text
//! level 3                        root
//!                            /           \
//! level 2              *                       *
//!                   /     \                 /     \
//! level 1        *          d2           *           *
//!              /   \                   /   \       /   \
//! level 0    d0     *                 *     *    d1     *
//! row         0     1     2     3     4     5     6     7
//! ```
//!
//! A `*` is known: on level 0 the digest of opened rows, above it that of the two below it, joined
//! with the opened rows of matrices that have as many rows as the level has positions.
//!
//! Its files:
//!
//! - In `src/`, `lanes.rt`: sixteen messages side by side; `messages.rt`: what a tree hashes, put
//!   together for it; `order.rt`, `positions.rt`: indices and known positions; `tree.rt`,
//!   `prover_data.rt`: the tree; `root.rt`, `verify.rt`: the root of opened rows, and the verdict.
//! - In `specs/`, `Tree`, `Authentication`, `Verdict`: the tree, when rows are authenticated, which
//!   refusal is right. `Messages`, `Lanes`: what is hashed by sixteen. The others: what rows, kept
//!   data and walks are to contracts. `Worked`: examples.
//! - In `proofs/`, `Completeness`: what a tree gives is shown to be of its root. `Refusals`: a
//!   right refusal is of rows that aren't. `Padded`, `Levels`, `Shifts`, `Sixteen`: sixteen
//!   messages at once. The others: walks, levels, orders and positions.
#![tactic(auto)]

mod error;
mod hashing;
mod lanes;
mod messages;
mod mmcs;
mod order;
mod positions;
mod prover_data;
mod root;
mod rows;
mod tree;
mod verify;
mod well_formed;

pub use error::MerkleTreeError;
pub use mmcs::ShaMmcs;
pub use prover_data::ShaProverData;
