//! Tests of `prove`, `verify` and `prove_and_verify` of `circle_stark` that only calls can make:
//! each refusal with the state that the challenger is left in, chosen challenges, another extension
//! and commitment scheme, and traces of up to 2^10 rows. What another implementation proved of stored
//! traces is in `stark_prove.json` and `stark_verify.json` of `test_cases`.
#![tactic(auto)]

#[cfg(test)]
mod calls;
#[cfg(test)]
mod cases;
#[cfg(test)]
mod changes;
#[cfg(test)]
mod chosen;
#[cfg(test)]
mod points;
#[cfg(test)]
mod sizes;
#[cfg(test)]
mod traces;
#[cfg(test)]
mod verdicts;
