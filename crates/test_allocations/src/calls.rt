//! The calls by their names.
use crate::plane::Domain;
use crate::told::{Stage, Told};
use crate::{airs, json, plane, scheme, stark, transcript, trees, without, words};
use anyhow::Result;
use std::alloc::Global;

/// The names of the calls.
pub const NAMES: &[&str] = &[
    "powers",
    "batch_multiplicative_inverse",
    "circle_basis",
    "interpolate",
    "evaluate",
    "extrapolate",
    "evaluate_at_point",
    "selectors_on_coset",
    "split_evals",
    "eval_on_lde",
    "extract_lambda",
    "fold_y",
    "fold_x",
    "transcript",
    "has_seed_of",
    "prover_run",
    "from_json",
    "verify_multi_batch",
    "build_air",
    "check_constraints",
    "air_from_json",
    "air_to_json",
    "fibonacci_air",
    "fibonacci_trace",
    "permutation_air",
    "permutation_trace",
    "commit",
    "open",
    "verify",
    "round_trip",
    "stark_prove",
    "stark_verify",
    "stark_round_trip",
    "without_fields",
    "without_points",
    "without_domains",
    "without_matrices",
    "without_codewords",
    "without_airs",
    "without_quotients",
    "without_challenger",
    "without_states",
    "without_prover",
    "without_verifier",
    "without_finish",
    "without_finish_of_verifier",
    "without_schemes",
    "without_openings",
    "without_laws",
];

/// What is told of the call with this name, or none where there is no such call.
pub fn told_of(alloc: Global, stage: Stage, name: &str) -> Option<Result<Told>> {
    if let Some(subject) = name.strip_prefix("without_") {
        return of_subject(alloc, stage, subject);
    }
    if let Some(told) = of_values(alloc, stage, name) {
        return Some(told);
    }
    if let Some(told) = of_words(alloc, stage, name) {
        return Some(told);
    }
    if let Some(told) = of_airs(alloc, stage, name) {
        return Some(told);
    }
    of_openings(alloc, stage, name)
}

// Those on elements and on values on a domain.
fn of_values(alloc: Global, stage: Stage, name: &str) -> Option<Result<Told>> {
    Some(match name {
        "powers" => plane::powers(alloc, stage),
        "batch_multiplicative_inverse" => plane::inverses(alloc, stage),
        "circle_basis" => plane::basis(alloc, stage),
        "interpolate" => plane::interpolate(alloc, stage, Domain::standard(3)),
        "evaluate" => plane::evaluate(alloc, stage, Domain::standard(3)),
        "extrapolate" => plane::extrapolate(alloc, stage, Domain::standard(2), Domain::standard(3)),
        "evaluate_at_point" => plane::evaluate_at_point(alloc, stage),
        "selectors_on_coset" => plane::selectors(
            alloc,
            stage,
            Domain::standard(2),
            Domain::standard(3),
        ),
        "split_evals" => plane::split_evals(alloc, stage),
        "eval_on_lde" => plane::eval_on_lde(alloc, stage),
        _ => return None,
    })
}

// Those on codewords, on transcripts and on trees, and of elements as JSON.
fn of_words(alloc: Global, stage: Stage, name: &str) -> Option<Result<Told>> {
    Some(match name {
        "extract_lambda" => words::lambda(alloc, stage, 3),
        "fold_y" => words::by_y(alloc, stage, 3),
        "fold_x" => words::by_x(alloc, stage, 3),
        "transcript" => transcript::transcript(alloc, stage),
        "has_seed_of" => transcript::has_seed_of(alloc, stage),
        "prover_run" => transcript::run(alloc, stage),
        "from_json" => json::elements(alloc, stage),
        "verify_multi_batch" => trees::verdict(alloc, stage),
        _ => return None,
    })
}

// Those on AIRs.
fn of_airs(alloc: Global, stage: Stage, name: &str) -> Option<Result<Told>> {
    Some(match name {
        "build_air" => airs::build(alloc, stage),
        "check_constraints" => airs::check(alloc, stage),
        "air_from_json" => json::air(alloc, stage),
        "air_to_json" => json::air_written(alloc, stage),
        "fibonacci_air" => airs::fibonacci(alloc, stage),
        "fibonacci_trace" => airs::fibonacci_rows(alloc, stage),
        "permutation_air" => airs::permutation(alloc, stage),
        "permutation_trace" => airs::permutation_rows(alloc, stage),
        _ => return None,
    })
}

// Those of the scheme and of the STARK.
fn of_openings(alloc: Global, stage: Stage, name: &str) -> Option<Result<Told>> {
    Some(match name {
        "commit" => scheme::commit(alloc, stage),
        "open" => scheme::open(alloc, stage),
        "verify" => scheme::verify(alloc, stage),
        "round_trip" => scheme::round_trip(alloc, stage),
        "stark_prove" => stark::prove(alloc, stage),
        "stark_verify" => stark::verify(alloc, stage),
        "stark_round_trip" => stark::round_trip(alloc, stage),
        _ => return None,
    })
}

// Those of a subject that allocate nothing.
fn of_subject(alloc: Global, stage: Stage, subject: &str) -> Option<Result<Told>> {
    Some(match subject {
        "fields" => without::fields::fields(stage),
        "points" => without::points::points(stage),
        "domains" => without::domains::domains(stage),
        "matrices" => without::matrices::matrices(alloc, stage),
        "codewords" => without::codewords::codewords(stage),
        "airs" => without::airs::airs(alloc, stage),
        "quotients" => without::quotients::quotients(stage),
        "challenger" => without::challenger::challenger(stage),
        "states" => without::transcripts::states(alloc, stage),
        "prover" => without::transcripts::prover(alloc, stage),
        "verifier" => without::transcripts::verifier(alloc, stage),
        "finish" => without::transcripts::finish(alloc, stage),
        "finish_of_verifier" => without::transcripts::finish_of_verifier(alloc, stage),
        "schemes" => without::scheme::schemes(alloc, stage),
        "openings" => without::openings::openings(alloc, stage),
        "laws" => without::laws::laws(alloc, stage),
        _ => return None,
    })
}
