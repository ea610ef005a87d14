//! The calls on requests to open and on proofs that allocate nothing, laws among them.
use crate::scheme::{after_commitment, claims, committed, opened, requests, scheme};
use crate::told::{Stage, Told, unfit};
use anyhow::Result;
use circle_challenger::{CanObserve, CanSample, GrindingChallenger};
use circle_commit::{Mmcs, OpeningRequest};
use circle_completeness::laws::honest_openings_end_low;
use circle_completeness::openings_are_accepted;
use circle_field::{ComplexExtendable, ExtensionField};
use circle_presets::{Claim, Proof, Scheme};
use circle_prover::OpenableRequests;
use p3_circle::CirclePcs;
use p3_circle::laws::constant_ends;
use std::alloc::Global;

// Those of requests, which are tested.
fn of_requests<
    Val: ComplexExtendable,
    EF: ExtensionField<Val>,
    InputMmcs: Mmcs<Val>,
    FriMmcs: Mmcs<EF>,
    C,
>(
    pcs: &CirclePcs<Val, InputMmcs, FriMmcs>,
    requests: &[OpeningRequest<InputMmcs::ProverData, EF>],
    challenger: &C,
) -> Result<()>
where
    C: CanSample<Val> + GrindingChallenger<Val> + CanObserve<FriMmcs::Commitment>,
{
    if !pcs.have_heights_of_powers(requests) {
        return unfit("a height is no power of two");
    }
    let openable = OpenableRequests::<Val, EF, InputMmcs, FriMmcs>::new(
        &pcs.mmcs,
        &pcs.fri_params,
        requests,
    )?;
    honest_openings_end_low(&openable, challenger);
    openings_are_accepted(&openable, challenger);
    Ok(())
}

// That of a proof whose final polynomial is a constant.
fn of_constants(scheme: &Scheme, claims: &[Claim], proof: &Proof) {
    constant_ends(&scheme.mmcs, &scheme.fri_params, claims, proof);
}

/// Those calls.
pub fn openings(alloc: Global, stage: Stage) -> Result<Told> {
    let (commitment, data) = committed(alloc, Stage::Whole)?;
    let (values, proof) = opened(alloc, &commitment, &data)?;
    let claims = claims(alloc, commitment, values)?;
    let requests = requests(alloc, &data)?;
    stage.begin()?;
    let scheme = scheme();
    of_requests(&scheme, &requests, &after_commitment(&commitment))?;
    of_constants(&scheme, &claims, &proof);
    Ok(Told::of("Ok"))
}
