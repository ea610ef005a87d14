//! Calls that allocate nothing, by subject.

pub mod airs;
pub mod challenger;
pub mod codewords;
pub mod domains;
pub mod fields;
pub mod laws;
pub mod matrices;
pub mod openings;
pub mod points;
pub mod quotients;
pub mod scheme;
pub mod transcripts;
