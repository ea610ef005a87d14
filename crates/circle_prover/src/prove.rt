//! The opening of requested matrices: their values, and the proof.
ghost use Rattle.std.specs.Prelude.{◌≡◌, List, ◌≤◌, ◌<◌, ◌^◌, length, All, IfOk, IfErr};
ghost use Rattle.circle_commit.specs.Pcs.{openings};
ghost use Rattle.circle_relation.specs.Statement.{BatchClaim};
ghost use Rattle.circle_relation.specs.RunOf.{proof_of};
ghost use Rattle.circle_prover.specs.Opening.{AreEasy};
ghost use Rattle.circle_codewords.specs.Requests.{AreHeights, OpensBatches};
ghost use Rattle.circle_prover.specs.OfRequests.{AreAnsweredBy, AreMatricesAt, AreSomeWordsOf};
ghost use Rattle.circle_prover.specs.OfRequests.{AreWordsWith};
ghost use Rattle.circle_prover.specs.OfRequests.{HoldsInputsAt, HoldsWordsOf, IsFailureFrom};
ghost use Rattle.circle_prover.specs.OfRequests.{IsOpeningBy, IsOutcome};
ghost use Rattle.circle_relation.specs.Taken.{claims_taken, taken_by};
ghost use Rattle.circle_prover.specs.Words.{taken_in};

use crate::claims::{opened_claims, opened_widths};
use crate::foldable::FoldableMatrices;
use crate::heights::greatest_height;
use crate::openable::OpenableRequests;
use crate::openings::{open_rounds, open_rows, open_siblings};
use crate::run::CommittedWords;
use circle_challenger::{CanObserve, CanSample, GrindingChallenger, RunChallenger};
use circle_codewords::MatrixAtPoints;
use circle_commit::{
    BatchMultiOpening, FriFoldingStrategy, Mmcs, OpenedValues, OpenedValuesForRound, log2_strict,
};
use circle_field::{ComplexExtendable, ExtensionField, Field};
use circle_folding::CircleFriFolding;
use circle_relation::{CircleFriProof, CircleInputProof, CirclePcsProof, ProverError};
use circle_transcript::CirclePcsShape;
use std::alloc::{AllocError, Global};

impl<
    Val: ComplexExtendable,
    EF: ExtensionField<Val>,
    InputMmcs: Mmcs<Val>,
    FriMmcs: Mmcs<EF>,
> OpenableRequests<'_, Val, EF, InputMmcs, FriMmcs> {
    // Plays the run of the requests, whose matrices and values are known.
    fn play<C>(
        &self,
        alloc: Global,
        matrices: &[MatrixAtPoints<Val, EF>],
        values: &[OpenedValuesForRound<EF>],
        challenger: &mut C,
    ) -> Result<CommittedWords<Val, EF, FriMmcs::Commitment, FriMmcs::ProverData>, ProverError>
    where
        C: CanSample<Val> + GrindingChallenger<Val> + CanObserve<FriMmcs::Commitment>,
        requires matrices { AreMatricesAt self.now matrices.now }
        requires values { AreAnsweredBy self.now (openings values.now) }
        ensures below { IfOk result (λ w.
            All (λ q. q < 2 ^ w.log_max_height) w.draws.indices.items) }
        ensures some { IfOk result (λ w. 1 ≤ length w.draws.indices.items) }
        ensures easy { IfOk result (λ w. AreEasy self.now.params.now Val.ops w.witnesses) }
        ensures words { IfOk result (AreWordsWith self.now (openings values.now)) }
        ensures outcome { let m = ⟦<C as RunChallenger<Val, EF, FriMmcs::Commitment>>⟧.run in
            IsOutcome self.now (openings values.now) m challenger.old result challenger.new }
    {
        let matrices = self.opened_matrices(alloc, matrices, values)?;
        let claims = opened_claims(alloc, &matrices)?;
        let widths = opened_widths(alloc, values)?;
        let extra_bits = FriFoldingStrategy::<Val, EF>::extra_query_index_bits(&CircleFriFolding);
        let top = greatest_height(&matrices);
        let shape = CirclePcsShape::new(self.params, widths, top, extra_bits);
        let foldable = FoldableMatrices {
            params: self.params,
            matrices: &matrices,
        };
        foldable.open(alloc, challenger, shape, &claims)
    }

    // The rows of each batch at the queries.
    fn open_inputs(
        &self,
        alloc: Global,
        log_max_height: usize,
        indices: &[usize],
    ) -> Result<Vec<BatchMultiOpening<Val, InputMmcs>>, AllocError>
        requires some { 1 ≤ length indices.now }
        requires below { All (λ q. q < 2 ^ log_max_height) indices.now }
        requires top { log_max_height ≤ 62 }
        requires heights { All (λ r. AreHeights log_max_height
            (InputMmcs.matrices r.prover_data.now)) self.now.requests.now }
        ensures { IfOk result (λ made. OpensBatches InputMmcs.matrices InputMmcs.commits
            InputMmcs.authenticates self.now.mmcs.now log_max_height indices.now
            self.now.requests.now made.items) }
    {
        let mut openings = Vec::with_capacity(alloc, self.requests.len())?;
        for request in self.requests {
            let log_height = log2_strict(self.mmcs.get_max_height(request.prover_data));
            let bits = log_max_height - log_height;
            let (opened_values, opening_proof) = open_rows(
                alloc,
                self.mmcs,
                indices,
                bits,
                request.prover_data,
            )?;
            openings.push(BatchMultiOpening {
                opened_values,
                opening_proof,
            })?;
        }
        Ok(openings)
    }

    // The proof that holds what was committed to, and what is opened at the queries.
    fn prove_words(
        &self,
        alloc: Global,
        words: CommittedWords<Val, EF, FriMmcs::Commitment, FriMmcs::ProverData>,
    ) -> Result<CirclePcsProof<Val, EF, InputMmcs, FriMmcs, Val>, AllocError>
        requires some { 1 ≤ length words.draws.indices.items }
        requires below { All (λ q. q < 2 ^ words.log_max_height) words.draws.indices.items }
        requires top { words.log_max_height ≤ 62 }
        requires heights { All (λ r. AreHeights words.log_max_height
            (InputMmcs.matrices r.prover_data.now)) self.now.requests.now }
        requires words { AreSomeWordsOf self.now words }
        ensures taken { IfOk result (λ proof. (claims : List (BatchClaim Unit EF)) →
            taken_by EF.ops claims (proof_of proof) ≡ taken_in (claims_taken EF.ops claims) words) }
        ensures words { IfOk result (HoldsWordsOf self.now words) }
        ensures inputs { IfOk result (HoldsInputsAt self.now words) }
    {
        let CommittedWords {
            heights,
            log_max_height: top,
            draws,
            witnesses,
            lambdas,
            first_commitment,
            first_kept,
            commitments,
            kept,
            final_poly,
        } = words;
        let indices = draws.indices;
        let input_openings = self.open_inputs(alloc, top, &indices)?;
        let (first_layer_siblings, first_layer_proof) = open_siblings(
            alloc,
            &self.params.mmcs,
            top,
            &heights,
            &indices,
            1,
            &first_kept,
        )?;
        let commit_phase_openings = open_rounds(alloc, &self.params.mmcs, top, &indices, &kept)?;
        Ok(CirclePcsProof {
            batch_pow_witness: witnesses.batch,
            first_layer_commitment: first_commitment,
            lambdas,
            fri_proof: CircleFriProof {
                commit_phase_commits: commitments,
                commit_pow_witnesses: witnesses.rounds,
                input_openings: CircleInputProof {
                    input_openings,
                    first_layer_siblings,
                    first_layer_proof,
                },
                commit_phase_openings,
                final_poly,
                pow_witness: witnesses.query,
            },
        })
    }

    /// Opens the requested matrices: their values at the points, and a proof that a verifier
    /// accepts where the matrices are of low degree (Circle STARKs, IACR ePrint 2024/278, sections
    /// 4 to 6).
    ///
    /// Refuses `NoGrindingWitness` of a phase where no witness passes, `LastWordNotConstant` where
    /// the last codeword is of too high degree, as some matrix of fewer than 1024 columns is, and
    /// `Memory` where memory is refused.
    pub fn open<C>(
        &self,
        alloc: Global,
        challenger: &mut C,
    ) -> Result<
        (
            OpenedValues<EF>,
            CirclePcsProof<Val, EF, InputMmcs, FriMmcs, Val>,
        ),
        ProverError,
    >
    where
        C: CanSample<Val> + GrindingChallenger<Val> + CanObserve<FriMmcs::Commitment>,
        ensures values { IfOk result (λ r. AreAnsweredBy self.now (openings r.0.items)) }
        ensures proof { let m = ⟦<C as RunChallenger<Val, EF, FriMmcs::Commitment>>⟧.run in
            IfOk result (λ r. IsOpeningBy self.now m challenger.old r challenger.new) }
        ensures failure { let m = ⟦<C as RunChallenger<Val, EF, FriMmcs::Commitment>>⟧.run in
            IfErr result (IsFailureFrom self.now m challenger.old) }
    {
        let points = self.opening_points(alloc)?;
        let matrices = self.matrices_at_points(alloc, &points)?;
        let values = self.requested_values(alloc, &matrices)?;
        let words = self.play(alloc, &matrices, &values, challenger)?;
        let proof = self.prove_words(alloc, words)?;
        Ok((values, proof))
    }
}
