//! The calls on traces and proofs, over any extension and any scheme for codewords.
use crate::cases::{Case, LOG_N, MEMORY, Rule, air_of, elements_of, rows_of};
use circle_challenger::{CanObserve, CanSample, GrindingChallenger, Sha256Challenger};
use circle_commit::Mmcs;
use circle_field::{ExtensionField, Field};
use circle_presets::{Scheme, Val, ValMmcs};
use circle_stark::{
    StarkProof, StarkProverError, StarkStatement, StarkTrace, prove, prove_and_verify, verify,
};
use p3_circle::CirclePcs;
use std::alloc::Global;
use std::fmt::{Display, InlineText};
use std::process::Abort;

/// The text of a result.
pub(crate) type Text = InlineText<192>;

/// A proof, with the statement that it is verified under and the scheme.
#[derive(Drop)]
pub(crate) struct Given<EF: Field, W: Mmcs<EF>> {
    pub(crate) pcs: CirclePcs<Val, ValMmcs, W>,
    pub(crate) rule: Rule,
    pub(crate) log_n: usize,
    pub(crate) public_values: &'static [u64],
    pub(crate) proof: StarkProof<Val, EF, ValMmcs, W>,
}

/// What `prove` returns.
pub(crate) type Answer<EF, W> = Result<StarkProof<Val, EF, ValMmcs, W>, StarkProverError>;

/// The proof of a trace of eight rows, with its own statement.
pub(crate) fn honest<EF: Field, W: Mmcs<EF>>(
    pcs: CirclePcs<Val, ValMmcs, W>,
    case: &Case,
    proof: StarkProof<Val, EF, ValMmcs, W>,
) -> Given<EF, W> {
    Given {
        pcs,
        rule: case.rule,
        log_n: LOG_N,
        public_values: case.public_values,
        proof,
    }
}

/// The text of a result: `accepted`, or that of the refusal.
pub(crate) fn told<T: Drop, E: Display + Drop>(answer: Result<T, E>) -> Text {
    match answer {
        Ok(_) => InlineText::of("accepted"),
        Err(refusal) => InlineText::of(refusal),
    }
}

/// `prove` of a trace.
pub(crate) fn proof_of<EF: ExtensionField<Val>, W: Mmcs<EF>, C>(
    rt: &impl Abort,
    alloc: Global,
    pcs: &CirclePcs<Val, ValMmcs, W>,
    case: &Case,
    challenger: &mut C,
) -> Answer<EF, W>
where
    C: CanSample<Val> + GrindingChallenger<Val> + CanObserve<[u8; 32]> + CanObserve<W::Commitment>,
{
    let air = air_of(alloc, case.rule).expect(rt, MEMORY);
    let public_values = elements_of(rt, alloc, case.public_values);
    let trace = StarkTrace {
        air: &air,
        rows: rows_of(rt, alloc, case),
        public_values: &public_values,
    };
    prove(alloc, pcs, trace, challenger)
}

/// The text of what `verify` returns.
pub(crate) fn verdict_on<EF: ExtensionField<Val>, W: Mmcs<EF>, C>(
    rt: &impl Abort,
    alloc: Global,
    given: &Given<EF, W>,
    challenger: &mut C,
) -> Text
where
    W::Error: Display,
    C: CanSample<Val> + GrindingChallenger<Val> + CanObserve<[u8; 32]> + CanObserve<W::Commitment>,
{
    let air = air_of(alloc, given.rule).expect(rt, MEMORY);
    let public_values = elements_of(rt, alloc, given.public_values);
    let statement = StarkStatement {
        air: &air,
        log_n: given.log_n,
        public_values: &public_values,
    };
    told(verify(alloc, &given.pcs, statement, &given.proof, challenger))
}

/// The text of what `prove_and_verify` returns of a trace, and whether both challengers are in one
/// state.
pub(crate) fn outcome_of_both(alloc: Global, pcs: &Scheme, trace: StarkTrace<Val>) -> (Text, bool) {
    let (mut prover, mut verifier) = (Sha256Challenger::new(), Sha256Challenger::new());
    let run = prove_and_verify(alloc, pcs, trace, &mut prover, &mut verifier);
    (told(run), prover == verifier)
}
