//! Tests of `CirclePcs::verify` on forged proofs: one statement whose claims, proof or parameters
//! are changed, and claims over schemes that authenticate everything. Each verdict is compared, and
//! the state that the challenger is left in with the one that the verifier's transcript gives.
#![tactic(auto)]

#[cfg(test)]
mod damage;
#[cfg(test)]
mod forged;
#[cfg(test)]
mod played;
#[cfg(test)]
mod sevens;
#[cfg(test)]
mod statement;
#[cfg(test)]
mod trusting;
#[cfg(test)]
mod unhearing;
