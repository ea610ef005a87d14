//! What is changed of an opening.
use crate::played::play;
use crate::statement::{Opening, numbers};
use circle_challenger::Sha256Challenger;
use circle_commit::{BatchMultiOpening, MatrixOpening, PointOpening, PowPhase};
use circle_field::{Cubic, Field, Mersenne31};
use circle_presets::{ChallengeMmcs, Proof, Scheme, ValMmcs};
use circle_transcript::{CircleDraws, CircleTranscriptFailure};
use p3_circle::{CircleCommitPhaseMultiStep, CircleFriProof, CircleInputProof, Neutral, Point};
use std::alloc::Global;
use std::test::Fail;
use test_batches::batches::{Domain, cubic, one};
use test_batches::parameters::Numbers;

/// What is changed.
#[derive(Clone, Copy)]
pub(crate) enum Damage {
    Nothing,
    /// Nothing of an opening with a proof of work of the batching challenge.
    NothingOfWorked,
    Parameters(OfParameters),
    Claims(OfClaims),
    Witnesses(OfWitnesses),
    Rounds(OfRounds),
    FirstLayer(OfFirstLayer),
    /// One element of one opened row is raised by one.
    OpenedRow,
    /// The first digest that shows the opened rows is zero.
    Digest,
}

/// What is changed of the parameters.
#[derive(Clone, Copy)]
pub(crate) enum OfParameters {
    /// The difficulty of the batching challenge.
    Difficulty(usize),
    NoQueriesNorBlowup,
    NoBlowup,
    WideFolds,
}

/// What is changed of the claims.
#[derive(Clone, Copy)]
pub(crate) enum OfClaims {
    /// There are none.
    None,
    /// The first matrix is claimed to be on a domain with this logarithm of its size.
    Size(usize),
    Value,
    /// A value, where there is a proof of work of the batching challenge.
    ValueOfWorked,
    Point,
    /// The second matrix is claimed at no point.
    NoPoints,
    /// A third matrix, of two rows, is claimed.
    TwoRows,
}

/// What is changed of the witnesses.
#[derive(Clone, Copy)]
pub(crate) enum OfWitnesses {
    RoundLess,
    Round,
    Batch,
    BatchAndQuery,
    /// The witness of the batching challenge, for which there is work, is zero.
    BatchMissing,
    /// The witness of the indices, for which there is work, is one that doesn't pass.
    Missing,
}

/// What is changed of the rounds and of the codeword that they end in.
#[derive(Clone, Copy)]
pub(crate) enum OfRounds {
    CommitmentLess,
    OpeningLess,
    /// Round 1 is opened at a query less.
    QueryLess,
    /// A query of round 0 has a sibling less.
    SiblingLess,
    /// A query of round 2 has a sibling more.
    SiblingMore,
    /// A sibling is raised by one.
    Sibling,
    /// The first digest that shows the pairs of round 0 is zero.
    Digest,
    CoefficientMore,
    FinalPolynomial,
}

/// What is changed of the first layer.
#[derive(Clone, Copy)]
pub(crate) enum OfFirstLayer {
    LambdaMore,
    LambdaLess,
    /// The first lambda is raised by one.
    Lambda,
    /// There are siblings for a query less.
    QueryLess,
    /// At a query whose index is drawn before, the sibling in this place is raised by one.
    SiblingOfRepeated(usize),
    /// The first digest that shows the pairs is zero.
    Digest,
}

/// The numbers of the parameters by which the opening to be changed is made.
pub(crate) fn numbers_for(damage: Damage) -> Numbers {
    match damage {
        Damage::NothingOfWorked
        | Damage::Claims(OfClaims::ValueOfWorked)
        | Damage::Witnesses(OfWitnesses::BatchMissing) => numbers(0, [8, 0, 0]),
        Damage::Witnesses(OfWitnesses::Missing) => numbers(0, [0, 0, 8]),
        // Where there are more queries, they fall on every pair, and no digest is left to show.
        Damage::Digest
        | Damage::FirstLayer(OfFirstLayer::Digest)
        | Damage::Rounds(OfRounds::Digest) => Numbers {
            num_queries: 4,
            ..numbers(0, [0; 3])
        },
        _ => numbers(0, [0; 3]),
    }
}

/// The item of a list in this place.
pub(crate) fn item<T>(items: &mut Vec<T>, place: usize) -> Result<&mut T, Fail> {
    match items.get_mut(place) {
        Some(item) => Ok(item),
        None => Err(Fail::new("a list is too short")),
    }
}

// Adds one to the element of a list in this place.
fn raise<F: Field>(elements: &mut Vec<F>, place: usize) -> Result<(), Fail> {
    let element = item(elements, place)?;
    *element = *element + F::ONE;
    Ok(())
}

// Takes away the last item of a list.
fn shorten<T: Drop>(items: &mut Vec<T>) -> Result<(), Fail> {
    drop(items.pop());
    Ok(())
}

// Adds a zero to a list.
fn lengthen(elements: &mut Vec<Cubic>) -> Result<(), Fail> {
    Ok(elements.push(Cubic::ZERO)?)
}

// Puts zeros in the place of the first digest.
fn blank(digests: &mut Vec<[u8; 32]>) -> Result<(), Fail> {
    *item(digests, 0)? = [0; 32];
    Ok(())
}

fn damage_parameters(scheme: &mut Scheme, damage: OfParameters) {
    let params = &mut scheme.fri_params;
    match damage {
        OfParameters::Difficulty(bits) => params.batch_proof_of_work_bits = bits,
        OfParameters::NoQueriesNorBlowup => {
            params.num_queries = 0;
            params.log_blowup = 0;
        }
        OfParameters::NoBlowup => params.log_blowup = 0,
        OfParameters::WideFolds => params.max_log_arity = 2,
    }
}

// The claim that a column of two rows is zero at `[0, 1, 0]`.
fn two_rows(alloc: Global) -> Result<MatrixOpening<Cubic, Domain>, Fail> {
    let claim = PointOpening {
        point: cubic([0, 1, 0]),
        values: one(alloc, Cubic::ZERO)?,
    };
    Ok(MatrixOpening {
        domain: Domain::standard(1),
        points: one(alloc, claim)?,
    })
}

/// The claims on matrices.
type Matrices = Vec<MatrixOpening<Cubic, Domain>>;

// The first claim on the first matrix.
fn first_claim(matrices: &mut Matrices) -> Result<&mut PointOpening<Cubic>, Fail> {
    item(&mut item(matrices, 0)?.points, 0)
}

fn damage_matrices(alloc: Global, matrices: &mut Matrices, damage: OfClaims) -> Result<(), Fail> {
    match damage {
        OfClaims::Size(log_n) => item(matrices, 0)?.domain = Domain::new(log_n, Point::ZERO),
        OfClaims::Value | OfClaims::ValueOfWorked => raise(&mut first_claim(matrices)?.values, 0)?,
        OfClaims::Point => first_claim(matrices)?.point = cubic([0, 1, 1]),
        OfClaims::NoPoints => item(matrices, 1)?.points = Vec::new(alloc),
        OfClaims::TwoRows => matrices.push(two_rows(alloc)?)?,
        OfClaims::None => {}
    }
    Ok(())
}

// What a verifier draws over the claims and the proof.
fn drawn(
    alloc: Global,
    given: &Opening,
) -> Result<Result<CircleDraws<Cubic>, CircleTranscriptFailure>, Fail> {
    let mut challenger = Sha256Challenger::new();
    let params = &given.scheme.fri_params;
    play::<ValMmcs, ChallengeMmcs, Sha256Challenger>(
        alloc,
        params,
        &given.claims,
        &given.proof,
        &mut challenger,
    )
}

// Whether the witness of the indices doesn't pass.
fn misses(drawn: &Result<CircleDraws<Cubic>, CircleTranscriptFailure>) -> bool {
    match drawn {
        Err(CircleTranscriptFailure::PowWitness { phase, .. }) => *phase == PowPhase::Query,
        _ => false,
    }
}

// Puts in the least witness of the indices that doesn't pass.
fn miss(alloc: Global, given: &mut Opening) -> Result<(), Fail> {
    for n in 0..256 {
        given.proof.fri_proof.pow_witness = Mersenne31::from_u64(n);
        if misses(&drawn(alloc, given)?) {
            return Ok(());
        }
    }
    Err(Fail::new("every witness passes"))
}

fn damage_witnesses(proof: &mut Proof, damage: OfWitnesses) -> Result<(), Fail> {
    let words = &mut proof.fri_proof;
    match damage {
        OfWitnesses::RoundLess => shorten(&mut words.commit_pow_witnesses)?,
        OfWitnesses::Round => raise(&mut words.commit_pow_witnesses, 1)?,
        OfWitnesses::Batch => proof.batch_pow_witness = Mersenne31::ONE,
        OfWitnesses::BatchAndQuery => {
            words.pow_witness = Mersenne31::ONE;
            proof.batch_pow_witness = Mersenne31::ONE;
        }
        OfWitnesses::BatchMissing => proof.batch_pow_witness = Mersenne31::ZERO,
        OfWitnesses::Missing => {}
    }
    Ok(())
}

/// The openings of the batch and of the first layer.
type Inputs = CircleInputProof<Mersenne31, Cubic, ValMmcs, ChallengeMmcs>;

/// What is proved of the codewords.
type Words = CircleFriProof<Cubic, ChallengeMmcs, Mersenne31, Inputs>;

/// What is opened of a round.
type Round = CircleCommitPhaseMultiStep<Cubic, ChallengeMmcs>;

fn round(words: &mut Words, number: usize) -> Result<&mut Round, Fail> {
    item(&mut words.commit_phase_openings, number)
}

// The siblings of the first query of this round.
fn siblings(words: &mut Words, number: usize) -> Result<&mut Vec<Cubic>, Fail> {
    item(&mut round(words, number)?.sibling_values, 0)
}

fn damage_rounds(words: &mut Words, damage: OfRounds) -> Result<(), Fail> {
    match damage {
        OfRounds::CommitmentLess => shorten(&mut words.commit_phase_commits),
        OfRounds::OpeningLess => shorten(&mut words.commit_phase_openings),
        OfRounds::QueryLess => shorten(&mut round(words, 1)?.sibling_values),
        OfRounds::SiblingLess => shorten(siblings(words, 0)?),
        OfRounds::SiblingMore => lengthen(siblings(words, 2)?),
        OfRounds::Sibling => raise(siblings(words, 0)?, 0),
        OfRounds::Digest => blank(&mut round(words, 0)?.opening_proof),
        OfRounds::CoefficientMore => lengthen(&mut words.final_poly),
        OfRounds::FinalPolynomial => raise(&mut words.final_poly, 0),
    }
}

// The first query whose index is drawn before.
fn repeated(indices: &[usize]) -> Option<usize> {
    for (query, index) in indices.iter().enumerate() {
        if indices[..query].contains(index) {
            return Some(query);
        }
    }
    None
}

fn damage_first_layer(
    alloc: Global,
    given: &mut Opening,
    damage: OfFirstLayer,
) -> Result<(), Fail> {
    let indices = drawn(alloc, given)??.indices;
    let lambdas = &mut given.proof.lambdas;
    let inputs = &mut given.proof.fri_proof.input_openings;
    let siblings = &mut inputs.first_layer_siblings;
    match damage {
        OfFirstLayer::LambdaMore => lengthen(lambdas),
        OfFirstLayer::LambdaLess => shorten(lambdas),
        OfFirstLayer::Lambda => raise(lambdas, 0),
        OfFirstLayer::QueryLess => shorten(siblings),
        OfFirstLayer::SiblingOfRepeated(place) => {
            let query = repeated(&indices).ok_or("no index repeats")?;
            raise(item(siblings, query)?, place)
        }
        OfFirstLayer::Digest => blank(&mut inputs.first_layer_proof),
    }
}

// What is opened of the batch.
fn opened(inputs: &mut Inputs) -> Result<&mut BatchMultiOpening<Mersenne31, ValMmcs>, Fail> {
    item(&mut inputs.input_openings, 0)
}

// Adds one to the element of the first query's row of the second matrix.
fn damage_row(inputs: &mut Inputs) -> Result<(), Fail> {
    let rows = item(&mut opened(inputs)?.opened_values, 0)?;
    raise(item(rows, 1)?, 0)
}

/// Changes the opening.
pub(crate) fn apply(alloc: Global, given: &mut Opening, damage: Damage) -> Result<(), Fail> {
    match damage {
        Damage::Nothing | Damage::NothingOfWorked => Ok(()),
        Damage::Parameters(of) => {
            damage_parameters(&mut given.scheme, of);
            Ok(())
        }
        Damage::Claims(OfClaims::None) => {
            given.claims = Vec::new(alloc);
            Ok(())
        }
        Damage::Claims(of) => {
            let batch = item(&mut given.claims, 0)?;
            damage_matrices(alloc, &mut batch.matrices, of)
        }
        Damage::Witnesses(OfWitnesses::Missing) => miss(alloc, given),
        Damage::Witnesses(of) => damage_witnesses(&mut given.proof, of),
        Damage::Rounds(of) => damage_rounds(&mut given.proof.fri_proof, of),
        Damage::FirstLayer(of) => damage_first_layer(alloc, given, of),
        Damage::OpenedRow => damage_row(&mut given.proof.fri_proof.input_openings),
        Damage::Digest => {
            blank(&mut opened(&mut given.proof.fri_proof.input_openings)?.opening_proof)
        }
    }
}
