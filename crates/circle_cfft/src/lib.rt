//! The circle transform over stored entries: its factors, butterflies, layers and passes.
//!
//! - In `src/`, `butterflies` says how a layer combines two entries, and counts butterflies;
//!   `layers` has one layer, and two at once; `passes` all layers in few passes over memory;
//!   `groups` all layers by groups of rows, counted; `twiddles` the factors of a domain's layers
//!   and their inverses.
//! - In `specs/`, `Butterflies` has the two entries that a butterfly makes, `Passes` the layers one
//!   after another, by which each public pass is told, and `Parts`, `Groups` and `Twiddles` what
//!   private contracts say of a part of the entries, of a group of rows and of the factors.
//! - In `proofs/`, `PairLayers` and `PairBlocks` are of two layers at once; those named `Block..`
//!   of parts one after another; `Lanes`, `LaneWrites` and those named `Group..` of groups of rows;
//!   `QuarterTurns` and `QuarterQuads` of first points in fours, and those named `Twiddle..` of the
//!   list of factors. The folders have what is proved of the functions of the file of that name.
#![tactic(auto)]

mod butterflies;
mod groups;
mod layers;
mod passes;
mod twiddles;

pub use butterflies::Butterflies;
pub use groups::{backward_groups, forward_groups};
pub use passes::{backward_passes, forward_passes};
pub use twiddles::{backward_twiddles, forward_twiddles};
