//! What is changed of a proof, of its statement or of the parameters.
use crate::calls::{Given, Text, honest, proof_of, verdict_on};
use crate::cases::{FIBONACCI, MEMORY, Rule};
use circle_challenger::{CanObserve, CanSample, GrindingChallenger};
use circle_field::{Cubic, Field, Mersenne31};
use circle_presets::{Challenge, ChallengeMmcs, Val, ValMmcs};
use circle_stark::{StarkOpenedValues, StarkProof};
use std::alloc::Global;
use std::process::Abort;
use test_batches::parameters::{SMALL, scheme};

type Proof = StarkProof<Val, Challenge, ValMmcs, ChallengeMmcs>;

/// What is changed.
#[derive(Clone, Copy)]
pub(crate) enum Change {
    Nothing,
    Rule(Rule),
    LogN(usize),
    PublicValues(&'static [u64]),
    /// The final polynomial has this logarithm of its length.
    LogFinalPolyLen(usize),
    /// The length of the list of chunks.
    Chunks(Length),
    Length(List, Length),
    /// The first element of a list is raised by one.
    Raised(List),
    /// The lists of both chunks change places.
    ChunksSwapped,
    Digest(Root),
    /// A witness is one, though there is no proof of work.
    Witness(Phase),
}

/// A list of opened values.
#[derive(Clone, Copy)]
pub(crate) enum List {
    TraceLocal,
    TraceNext,
    /// The values of a chunk.
    Chunk(usize),
}

/// What the length of a list becomes.
#[derive(Clone, Copy)]
pub(crate) enum Length {
    Shorter,
    Longer,
    Empty,
}

/// Which commitment's first byte is changed.
#[derive(Clone, Copy)]
pub(crate) enum Root {
    Trace,
    Quotient,
    FirstLayer,
}

/// Which witness is changed.
#[derive(Clone, Copy)]
pub(crate) enum Phase {
    Batch,
    Commit,
    Query,
}

// Changes the length of a list, which this item makes longer.
fn resize<T: Drop>(rt: &impl Abort, list: &mut Vec<T>, length: Length, item: T) {
    match length {
        Length::Shorter => drop(list.pop()),
        Length::Longer => list.push(item).expect(rt, MEMORY),
        Length::Empty => list.clear(),
    }
}

// The values in a list.
fn values<'a>(
    rt: &impl Abort,
    opened: &'a mut StarkOpenedValues<Cubic>,
    list: List,
) -> &'a mut Vec<Cubic> {
    match list {
        List::TraceLocal => &mut opened.trace_local,
        List::TraceNext => &mut opened.trace_next,
        List::Chunk(chunk) => {
            let values = opened.quotient_chunks.get_mut(chunk);
            values.expect(rt, "there is no such chunk")
        }
    }
}

fn change_length(
    rt: &impl Abort,
    opened: &mut StarkOpenedValues<Cubic>,
    list: List,
    length: Length,
) {
    resize(rt, values(rt, opened, list), length, Cubic::ZERO);
}

fn raise(rt: &impl Abort, opened: &mut StarkOpenedValues<Cubic>, list: List) {
    let first = values(rt, opened, list).first_mut();
    let element = first.expect(rt, "there is no element");
    *element = *element + Cubic::ONE;
}

fn change_root(proof: &mut Proof, root: Root) {
    let digest = match root {
        Root::Trace => &mut proof.trace_commitment,
        Root::Quotient => &mut proof.quotient_commitment,
        Root::FirstLayer => &mut proof.opening_proof.first_layer_commitment,
    };
    digest[0] = digest[0].wrapping_add(1);
}

fn change_witness(rt: &impl Abort, proof: &mut Proof, phase: Phase) {
    let opening = &mut proof.opening_proof;
    let rounds = &mut opening.fri_proof.commit_pow_witnesses;
    let witness = match phase {
        Phase::Batch => &mut opening.batch_pow_witness,
        Phase::Commit => rounds.first_mut().expect(rt, "there is no round"),
        Phase::Query => &mut opening.fri_proof.pow_witness,
    };
    *witness = Mersenne31::ONE;
}

// Changes a proof, its statement or the parameters.
fn apply(rt: &impl Abort, alloc: Global, given: &mut Given<Cubic, ChallengeMmcs>, change: Change) {
    let opened = &mut given.proof.opened_values;
    match change {
        Change::Nothing => {}
        Change::Rule(rule) => given.rule = rule,
        Change::LogN(log_n) => given.log_n = log_n,
        Change::PublicValues(public_values) => given.public_values = public_values,
        Change::LogFinalPolyLen(log) => given.pcs.fri_params.log_final_poly_len = log,
        Change::Chunks(length) => {
            resize(rt, &mut opened.quotient_chunks, length, Vec::new(alloc));
        }
        Change::Length(list, length) => change_length(rt, opened, list, length),
        Change::Raised(list) => raise(rt, opened, list),
        Change::ChunksSwapped => opened.quotient_chunks.reverse(),
        Change::Digest(root) => change_root(&mut given.proof, root),
        Change::Witness(phase) => change_witness(rt, &mut given.proof, phase),
    }
}

/// The text of the verdict on Fibonacci numbers that are proved and then changed.
pub(crate) fn verdict_after<C>(
    rt: &impl Abort,
    alloc: Global,
    change: Change,
    prover: &mut C,
    verifier: &mut C,
) -> Text
where
    C: CanSample<Val> + GrindingChallenger<Val> + CanObserve<[u8; 32]>,
{
    let pcs = scheme(SMALL);
    let proof = proof_of(rt, alloc, &pcs, &FIBONACCI, prover).expect(rt, "there is no proof");
    let mut given = honest(pcs, &FIBONACCI, proof);
    apply(rt, alloc, &mut given, change);
    verdict_on(rt, alloc, &given, verifier)
}
