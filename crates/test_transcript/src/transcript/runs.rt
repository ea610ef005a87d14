//! What runs over one claim draw. Expected values were computed apart from this code.

use crate::transcript::{NONE, cubic, element, params, shape};
use circle_challenger::{CanSample, Sha256Challenger};
use circle_field::{Cubic, Mersenne31};
use circle_point::Point;
use circle_transcript::{
    CircleMessages, CirclePcsShape, CircleRun, CircleTranscriptFailure, CircleVerifierTranscript,
    prover_run,
};
use std::alloc::Global;
use std::process::Abort;
use test_schemes::expect;

/// The challenge that batches the claim of one value at the point of this coordinate of the
/// projective line.
fn batching_challenge(rt: &impl Abort, alloc: Global, t: u64, value: u64) -> Cubic {
    let point = Point::from_projective_line(cubic(t, 0, 0)).expect(rt, "no point");
    let run = CircleRun::new(shape(rt, alloc, 0, NONE));
    let values = [cubic(value, 0, 0)];
    let claims = [(point, values.as_slice())];
    let commitments: [[u8; 32]; 0] = [];
    let mut challenger = Sha256Challenger::new();
    let final_poly = [cubic(1, 2, 3)];
    let messages = CircleMessages {
        first_layer: &[7; 32],
        commitments: commitments.as_slice(),
        final_poly: final_poly.as_slice(),
    };
    let played = prover_run(alloc, &mut challenger, run, claims.as_slice(), &messages);
    played.expect(rt, "no run").0.alpha
}

/// Asserts the challenge that batches a claim.
fn assert_challenge(rt: &impl Abort, alloc: Global, (t, value): (u64, u64), expected: Cubic) {
    expect!(rt; batching_challenge(rt, alloc, t, value) == expected);
}

#[test]
fn points_and_values_reach_the_batching_challenge(rt: HostRuntime) {
    let alloc = rt.alloc();
    assert_challenge(&rt, alloc, (3, 1), cubic(1208970606, 512735008, 1302233800));
    assert_challenge(&rt, alloc, (5, 1), cubic(560701732, 2107374228, 1877160621));
    assert_challenge(&rt, alloc, (3, 2), cubic(1814986885, 521455366, 1016938663));
}

/// What the verifier draws in the first phase of a transcript that is abandoned then.
fn abandoned(
    alloc: Global,
    challenger: &mut Sha256Challenger,
) -> Result<Cubic, CircleTranscriptFailure> {
    let shape = CirclePcsShape::new(&params(1, NONE), Vec::new(alloc), 3, 1);
    let mut transcript = CircleVerifierTranscript::<
        Sha256Challenger,
        Mersenne31,
        Cubic,
        [u8; 32],
    >::new(alloc, challenger, shape)?;
    let drawn = transcript.batch_phase(&[], element(0));
    transcript.abort();
    drawn
}

#[test]
fn an_abandoned_transcript_gives_the_challenger_back(rt: HostRuntime) {
    let mut challenger = Sha256Challenger::new();
    let drawn = abandoned(rt.alloc(), &mut challenger);
    expect!(rt; drawn == Ok(cubic(1618322056, 275400548, 1748926505)));
    let next: Mersenne31 = challenger.sample();
    expect!(rt; next == element(1257372603));
}
