//! Tests of `circle_field`, of the matrices of `circle_commit`, of `circle_air` and of
//! `circle_merkle` by their public calls. They stand here so that each of these crates is proved
//! once. What another implementation found on traces is in `violations.json` of `test_cases`.
#![tactic(auto)]

#[cfg(test)]
mod blocks;
#[cfg(test)]
mod builder;
#[cfg(test)]
mod cubic;
#[cfg(test)]
mod large;
#[cfg(test)]
mod matrices;
#[cfg(test)]
mod merkle;
#[cfg(test)]
mod mersenne31;
#[cfg(test)]
mod plain;
