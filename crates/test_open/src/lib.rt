//! Tests of `CirclePcs::open` and of `verify` after it: on domains that are not standard, and what
//! is refused. They stand here so that the crates themselves are proved once. Proofs by the plain
//! definitions are in `prove.json` of `test_cases`.
#![tactic(auto)]

#[cfg(test)]
mod accepted;
#[cfg(test)]
mod refusals;
