//! Worked examples of the scheme over several crates, with expected values from outside: what is
//! committed to and what the verifier returns; and a caller of it over any scheme.
#![tactic(auto)]

#[cfg(test)]
mod any_scheme;
#[cfg(test)]
mod claims;
#[cfg(test)]
mod commitments;
#[cfg(test)]
mod committing;
#[cfg(test)]
mod verify;
