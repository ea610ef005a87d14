//! What is printed where the scheme refuses for reasons that no input gives.
use circle_commands::Failure;
use circle_commands::prove::Refusal;
use circle_commit::PowPhase;
use p3_circle::ProverError;
use std::alloc::AllocError;
use std::fmt::InlineText;
use std::process::Abort;

// Expects that a refusal is printed as this line.
fn expect_named(rt: &impl Abort, refusal: Refusal, line: &str) {
    let failure = Failure::from(refusal);
    assert!(rt; failure.status() == 1, "{line}");
    let shown = InlineText::<64>::of(failure);
    assert!(rt; shown.as_str() == line, "{line}");
}

/// Refusals, and what is printed.
const NAMES: &[(ProverError, &str)] = &[
    (
        ProverError::NoGrindingWitness {
            phase: PowPhase::Batch,
        },
        r#"{"refused":"NoGrindingWitness"}"#,
    ),
    (ProverError::NotGenuine, r#"{"refused":"NotGenuine"}"#),
    (
        ProverError::MatrixCountMismatch,
        r#"{"refused":"MatrixCountMismatch"}"#,
    ),
    (
        ProverError::PointAtInfinity,
        r#"{"refused":"PointAtInfinity"}"#,
    ),
    (
        ProverError::LastWordNotConstant,
        r#"{"refused":"LastWordNotConstant"}"#,
    ),
    (
        ProverError::DomainSmallerThanTrace,
        r#"{"refused":"DomainSmallerThanTrace"}"#,
    ),
];

#[test]
fn names(rt: HostRuntime) {
    expect_named(&rt, Refusal::from(AllocError), r#"{"refused":"Memory"}"#);
    for (error, line) in NAMES {
        expect_named(&rt, Refusal::Prover(*error), line);
    }
}
