//! Committed batches with the points that they are opened at, and the scheme's calls on them, which
//! tests alone use. Where the scheme's calls don't take what they would be handed, an error is
//! returned.
#![tactic(auto)]

pub mod batches;
pub mod openings;
pub mod parameters;
