//! Tests of the transcript. The seed's text was computed apart from this code.
ghost use Rattle.std.specs.Prelude.{◌≡◌, ◌≤◌, [], ◌∷◌, length, flat_map};
ghost use Rattle.circle_challenger.specs.Sha256Challenger.{state_of};
ghost use Rattle.circle_transcript.specs.Shape.{claimed_widths};
ghost use Rattle.circle_transcript.specs.ShapeOf.{shape_of, batches_of};

use circle_challenger::Sha256Challenger;
use circle_commit::{FriParameters, PowPhase};
use circle_field::{Cubic, ExtensionField, Field, Mersenne31};
use circle_point::{Neutral, Point};
use circle_transcript::{
    CircleDraws, CircleMessages, CirclePcsShape, CircleRun, CircleTranscriptFailure,
    CircleWitnesses, both_runs, prover_run, verifier_run,
};
use std::alloc::Global;
use std::fmt::InlineText;
use std::process::Abort;
use test_schemes::expect;
use test_schemes::stubborn::Stubborn;

mod runs;
mod seeds;

/// The difficulties of a run's proofs of work.
#[derive(Clone, Copy)]
struct Difficulties {
    batch: usize,
    commit: usize,
    query: usize,
}

const NONE: Difficulties = Difficulties {
    batch: 0,
    commit: 0,
    query: 0,
};

fn params(log_blowup: usize, bits: Difficulties) -> FriParameters<()>
    ensures { result ≡ record {
      log_blowup = log_blowup;
      log_final_poly_len = 0;
      max_log_arity = 1;
      num_queries = 2;
      batch_proof_of_work_bits = bits.batch;
      commit_proof_of_work_bits = bits.commit;
      query_proof_of_work_bits = bits.query;
      mmcs = tt;
    } }
{
    FriParameters {
        log_blowup,
        log_final_poly_len: 0,
        max_log_arity: 1,
        num_queries: 2,
        batch_proof_of_work_bits: bits.batch,
        commit_proof_of_work_bits: bits.commit,
        query_proof_of_work_bits: bits.query,
        mmcs: (),
    }
}

/// Why a test ends that memory is refused.
const MEMORY: &str = "memory is refused";

/// One batch of one matrix, opened at points with these numbers of columns.
fn one_matrix(rt: &impl Abort, alloc: Global, widths: Vec<usize>) -> Vec<Vec<Vec<usize>>>
    ensures { flat_map (λ m. m) (flat_map (λ b. b) (batches_of result.items)) ≡ widths.items }
{
    let matrices = vec![in alloc; widths].expect(rt, MEMORY);
    vec![in alloc; matrices].expect(rt, MEMORY)
}

/// The shape of a run of `rounds` rounds over one claim of one column, blowup logarithm 1.
fn shape(rt: &impl Abort, alloc: Global, rounds: usize, bits: Difficulties) -> CirclePcsShape
    requires { rounds ≤ 10 }
    ensures widths { claimed_widths (shape_of result) ≡ 1 ∷ [] }
    ensures rounds { result.num_commit_rounds ≡ rounds }
    ensures batch { result.batch_pow_bits ≡ bits.batch }
    ensures commit { result.commit_pow_bits ≡ bits.commit }
    ensures query { result.query_pow_bits ≡ bits.query }
    ensures index { result.index_bits ≤ 63 }
    ensures final_poly { result.log_final_poly_len ≡ 0 }
{
    let widths = vec![in alloc; 1].expect(rt, MEMORY);
    CirclePcsShape::new(
        &params(1, bits),
        one_matrix(rt, alloc, widths),
        rounds + 2,
        1,
    )
}

fn element(n: u64) -> Mersenne31 {
    Mersenne31::from_u64(n)
}

fn cubic(a: u64, b: u64, c: u64) -> Cubic {
    Cubic::from_coefficients(&[element(a), element(b), element(c)])
}

/// Asserts that two runs draw the same.
fn assert_alike(rt: &impl Abort, first: &CircleDraws<Cubic>, second: &CircleDraws<Cubic>) {
    expect!(rt; first.alpha == second.alpha);
    expect!(rt; first.bivariate == second.bivariate);
    expect!(rt; first.betas.as_slice() == second.betas.as_slice());
    expect!(rt; first.indices.as_slice() == second.indices.as_slice());
}

#[test]
fn a_shape_is_as_its_clone(rt: HostRuntime) {
    let alloc = rt.alloc();
    let shape = CirclePcsShape::new(&params(1, NONE), Vec::new(alloc), 5, 1);
    expect!(rt; shape.try_clone(alloc).expect(&rt, MEMORY) == shape);
}

/// Asserts that two shapes have the same text for a seed.
fn assert_same_text(rt: &impl Abort, alloc: Global, shape: &CirclePcsShape, other: &CirclePcsShape)
    requires shape { shape.now.log_final_poly_len ≤ 63 }
    requires other { other.now.log_final_poly_len ≤ 63 }
{
    let one = shape.domain_separator::<Mersenne31, Cubic>(alloc);
    let other = other.domain_separator::<Mersenne31, Cubic>(alloc);
    expect!(rt; one.expect(rt, MEMORY).text() == other.expect(rt, MEMORY).text());
}

#[test]
fn without_rounds_their_difficulty_is_not_named(rt: HostRuntime) {
    let alloc = rt.alloc();
    let easy = shape(&rt, alloc, 0, NONE);
    let hard = shape(&rt, alloc, 0, Difficulties { commit: 5, ..NONE });
    assert_same_text(&rt, alloc, &easy, &hard);
    let have_one_seed = easy.has_seed_of::<Mersenne31, Cubic>(alloc, &hard);
    expect!(rt; have_one_seed.expect(&rt, MEMORY));
}

/// What both sides of a run of two rounds over one claim draw, where the batching challenge has
/// this difficulty.
fn drawn_by_both(
    rt: &impl Abort,
    alloc: Global,
    batch: usize,
    prover: &mut Sha256Challenger,
    verifier: &mut Sha256Challenger,
) -> (CircleDraws<Cubic>, CircleDraws<Cubic>)
    requires batch { batch ≤ 63 }
    requires alike { state_of prover.old ≡ state_of verifier.old }
{
    let bits = Difficulties {
        batch,
        commit: 3,
        query: 4,
    };
    let run = CircleRun::new(shape(rt, alloc, 2, bits));
    let values = [cubic(5, 6, 7)];
    let claims = [(Point::<Cubic>::ZERO, values.as_slice())];
    let final_poly = [cubic(1, 2, 3)];
    let messages = CircleMessages {
        first_layer: &[7; 32],
        commitments: &[[9; 32], [8; 32]],
        final_poly: final_poly.as_slice(),
    };
    both_runs(alloc, prover, verifier, run, claims.as_slice(), &messages).expect(rt, "no run")
}

/// Asserts that both sides draw the same where the batching challenge has this difficulty.
fn assert_drawn_alike(rt: &impl Abort, alloc: Global, batch: usize)
    requires { batch ≤ 63 }
{
    let mut prover = Sha256Challenger::new();
    let mut verifier = Sha256Challenger::new();
    let (first, second) = drawn_by_both(rt, alloc, batch, &mut prover, &mut verifier);
    expect!(rt; prover == verifier);
    expect!(rt; first.betas.len() == 2);
    assert_alike(rt, &first, &second);
}

#[test]
fn both_runs_draw_alike(rt: HostRuntime) {
    assert_drawn_alike(&rt, rt.alloc(), 0);
    assert_drawn_alike(&rt, rt.alloc(), 8);
}

/// Why the verifier refuses a run over one claim with these witnesses, if it does.
fn refusal(
    rt: &impl Abort,
    alloc: Global,
    commitments: &[[u8; 32]],
    bits: Difficulties,
    witnesses: &CircleWitnesses<Mersenne31>,
) -> Option<CircleTranscriptFailure>
    requires few { length commitments.now ≤ 10 }
    requires paired { length witnesses.now.rounds.items ≡ length commitments.now }
    requires batch { bits.batch ≤ 63 }
    requires commit { bits.commit ≤ 63 }
    requires query { bits.query ≤ 63 }
{
    let shape = shape(rt, alloc, commitments.len(), bits);
    let values = [cubic(5, 6, 7)];
    let claims = [(Point::<Cubic>::ZERO, values.as_slice())];
    let final_poly = [cubic(1, 2, 3)];
    let messages = CircleMessages {
        first_layer: &[7; 32],
        commitments,
        final_poly: final_poly.as_slice(),
    };
    let mut challenger = Sha256Challenger::new();
    verifier_run(
        alloc,
        &mut challenger,
        shape,
        claims.as_slice(),
        &messages,
        witnesses,
    )
    .err()
}

/// Why a run is refused whose round has a difficulty of 8 bits, with this witness.
fn refusal_of_a_round(
    rt: &impl Abort,
    alloc: Global,
    witness: u64,
) -> Option<CircleTranscriptFailure> {
    let witnesses = CircleWitnesses {
        batch: element(0),
        rounds: Vec::from_slice(alloc, &[element(witness)]).expect(rt, MEMORY),
        query: element(0),
    };
    let bits = Difficulties { commit: 8, ..NONE };
    refusal(rt, alloc, &[[9; 32]], bits, &witnesses)
}

/// Why a run without rounds is refused whose queries have a difficulty of 8 bits, with this
/// witness.
fn refusal_of_the_queries(
    rt: &impl Abort,
    alloc: Global,
    witness: u64,
) -> Option<CircleTranscriptFailure> {
    let witnesses = CircleWitnesses {
        batch: element(0),
        rounds: Vec::new(alloc),
        query: element(witness),
    };
    let bits = Difficulties { query: 8, ..NONE };
    refusal(rt, alloc, &[], bits, &witnesses)
}

/// Asserts that a failure is of this phase and has this text.
fn assert_failure(
    rt: &impl Abort,
    failure: CircleTranscriptFailure,
    (phase, text): (PowPhase, &str),
) {
    expect!(rt; InlineText::<96>::of(failure).as_str() == text);
    expect!(rt; failure.phase() == phase);
}

/// Whether there is a failure, which has to be of this phase and to have this text.
fn misses(
    rt: &impl Abort,
    refusal: Option<CircleTranscriptFailure>,
    expected: (PowPhase, &str),
) -> bool {
    let Some(failure) = refusal else {
        return false;
    };
    assert_failure(rt, failure, expected);
    true
}

const MISS_OF_A_ROUND: (PowPhase, &str) = (
    PowPhase::CommitPhase,
    "invalid proof-of-work witness for the commit phase: 8 bits required",
);

const MISS_OF_THE_QUERIES: (PowPhase, &str) = (
    PowPhase::Query,
    "invalid proof-of-work witness for the query phase: 8 bits required",
);

#[test]
fn a_miss_names_its_phase(rt: HostRuntime) {
    let (mut by_round, mut by_queries) = (false, false);
    for witness in 0..8 {
        let refusal = refusal_of_a_round(&rt, rt.alloc(), witness);
        by_round |= misses(&rt, refusal, MISS_OF_A_ROUND);
        let refusal = refusal_of_the_queries(&rt, rt.alloc(), witness);
        by_queries |= misses(&rt, refusal, MISS_OF_THE_QUERIES);
    }
    expect!(rt; by_round && by_queries);
}

const NO_WITNESS: (PowPhase, &str) = (
    PowPhase::Batch,
    "no proof-of-work witness for the batch phase: 4 bits required",
);

/// Why the prover of a run over one claim fails, where no witness passes the 4 bits of the batching
/// challenge.
fn failure_of_no_witness(rt: &impl Abort, alloc: Global) -> CircleTranscriptFailure {
    let run = CircleRun::new(shape(rt, alloc, 0, Difficulties { batch: 4, ..NONE }));
    let values = [cubic(5, 6, 7)];
    let claims = [(Point::<Cubic>::ZERO, values.as_slice())];
    let final_poly = [cubic(1, 2, 3)];
    let messages = CircleMessages {
        first_layer: &[7; 32],
        commitments: &[],
        final_poly: final_poly.as_slice(),
    };
    let mut challenger = Stubborn { taken: 0 };
    let played = prover_run(alloc, &mut challenger, run, claims.as_slice(), &messages);
    played.err().expect(rt, "a run")
}

#[test]
fn where_no_witness_passes_the_prover_fails(rt: HostRuntime) {
    let failure = failure_of_no_witness(&rt, rt.alloc());
    assert_failure(&rt, failure, NO_WITNESS);
}
