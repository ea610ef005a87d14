//! The calls of the challenger.
use crate::plane::cubic;
use crate::told::{Stage, Told, digest, low_bits, told_numbers, unfit};
use anyhow::Result;
use circle_challenger::{
    CanObserve, CanSample, CanSampleBits, FieldChallenger, GrindingChallenger, Sha256Challenger,
};
use circle_field::{Cubic, Field, Mersenne31};

// The challenger that absorbed a value of each kind.
fn absorbed() -> Sha256Challenger {
    let mut challenger = Sha256Challenger::new();
    challenger.observe(&Mersenne31::TWO);
    challenger.observe(&[7u8; 32]);
    challenger.observe_bytes(b"bytes");
    challenger.observe_algebra_element(&cubic([1, 2, 3]));
    challenger.observe_algebra_slice(&[cubic([4, 5, 6]), cubic([7, 8, 9])]);
    challenger
}

/// Those calls.
pub fn challenger(stage: Stage) -> Result<Told> {
    stage.begin()?;
    let mut prover = absorbed();
    let mut verifier = absorbed();
    let drawn: Mersenne31 = prover.sample();
    let extended: Cubic = prover.sample_algebra_element();
    let bits = prover.sample_bits(10);
    let Some(witness) = prover.grind(8) else {
        return unfit("no witness passes");
    };
    let passes = verifier.check_witness(8, witness);
    let is_new = prover == Sha256Challenger::default();
    let is_kept = prover == Sha256Challenger::from_state(prover.to_state());
    Ok(told_numbers(&[
        digest(&[drawn, witness]),
        digest(&[extended]),
        low_bits(bits),
        u32::from(passes),
        u32::from(is_new),
        u32::from(is_kept),
    ]))
}
