//! Tests of the challengers and of the transcript, by their public calls. They stand here so that
//! the crates themselves are proved once.
#![tactic(auto)]

#[cfg(test)]
mod challenger;
#[cfg(test)]
mod transcript;
