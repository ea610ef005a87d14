//! The scheme as an instance of the traits of schemes.
ghost use Rattle.circle_commit.specs.Mmcs.{HaveHeightsOfPowers};
ghost use Rattle.circle_plane.specs.PeriodicColumns.{IsRefusedOn, IsTableOn};
ghost use Rattle.p3_circle.specs.Committing.{AreExtensions, AreValuesOfMatrix, HaveRowsForPoints};
ghost use Rattle.p3_circle.specs.Committing.{commit_tests, evaluation_tests, lde_tests};
ghost use Rattle.p3_circle.specs.Committing.{target_tests_at};
ghost use Rattle.p3_circle.specs.Honest.{AreBatchValues, FindsWitnesses, IsHonestBatch};
ghost use Rattle.circle_prover.specs.Opening.{IsFailure};
ghost use Rattle.circle_prover.specs.Requesting.{opening_tests};
ghost use Rattle.circle_verifier.specs.Tests.{run_tests};
ghost use Rattle.p3_circle.specs.Scheme.{AreCommittedTo, AreExtended, CanBeDegree, CanBeEvaluated};
ghost use Rattle.p3_circle.specs.Scheme.{HaveCommittedHeights, IsFirstFrom, IsFirstOf};
ghost use Rattle.p3_circle.specs.Scheme.{IsGiven, IsStandardOfSize, says_memory};
ghost use Rattle.p3_circle.specs.Scheme.{says_prover_memory};
ghost use Rattle.p3_circle.specs.Verdict.{IsAccepted, IsRefused};
ghost use Rattle.p3_circle.specs.Calls.{IsAnswer, IsCommittedUnder, IsOfMemoryIf};
ghost use Rattle.circle_domain.specs.Domain.{log_size};
ghost use Rattle.std.specs.Prelude.{◌+◌, ◌-◌, ◌^◌, min, IfErr, IfOk, OnOk};

use crate::pcs::CirclePcs;
use circle_challenger::{CanObserve, CanSample, GrindingChallenger};
use circle_commit::{
    CommitmentOpening, FriError, Mmcs, OpenedValues, OpeningRequest, Pcs, PeriodicLdeTable,
    RowMajorMatrix, UnivariateStarkPcs,
};
use circle_domain::CircleDomain;
use circle_field::{ComplexExtendable, ExtensionField};
use circle_plane::PeriodicError;
use circle_prover::{OpeningOver, ProverError};
use circle_relation::{CirclePcsProof, VerifierError};
use std::alloc::Global;

impl<Val, EF, InputMmcs, FriMmcs, C> Pcs<EF, C> for CirclePcs<Val, InputMmcs, FriMmcs>
where
    Val: ComplexExtendable,
    EF: ExtensionField<Val>,
    InputMmcs: Mmcs<Val>,
    FriMmcs: Mmcs<EF>,
    C: CanSample<Val> + GrindingChallenger<Val> + CanObserve<FriMmcs::Commitment>,
{
    ghost use Rattle.p3_circle.specs.SchemeFacts.{kept-powers, one-state};
    ghost use Rattle.p3_circle.specs.SchemeLaws.{each-point, honest-commit, honest-open};
    ghost use Rattle.p3_circle.specs.SchemeLaws.{opening-accepted, true-values};

    type Domain = CircleDomain<Val>;

    type Commitment = InputMmcs::Commitment;

    type ProverData = InputMmcs::ProverData;

    type Proof = CirclePcsProof<Val, EF, InputMmcs, FriMmcs, Val>;

    type Error = VerifierError<InputMmcs::Error, FriMmcs::Error>;

    type ProverError = ProverError;

    ghost natural_domain_for_degree_asks = { λ pcs. CanBeDegree Val.CIRCLE_TWO_ADICITY };

    ghost natural_domain_for_degree_gives = { λ pcs.
        IsStandardOfSize Val.CIRCLE_TWO_ADICITY Val.generators };

    ghost commit_asks = { λ pcs. HaveRowsForPoints };

    ghost commits = { IsCommittedUnder Val.generators InputMmcs.Mmcs };

    ghost commit_refuses = { λ pcs batch. IsFirstOf
        (commit_tests Val.CIRCLE_TWO_ADICITY pcs.fri_params Val.eq Val.ops batch) };

    ghost opens_at = { λ pcs. IsHonestBatch Val.ops Val.generators EF.ops EF.embed
        Val.CIRCLE_TWO_ADICITY pcs.fri_params };

    ghost values_of = { λ pcs. AreBatchValues Val.ops Val.generators EF.ops EF.embed };

    ghost finds_witnesses = { λ pcs.
        let o = ⟦<C as OpeningOver<Val, EF, InputMmcs, FriMmcs>>⟧.schemes in
        FindsWitnesses o.fields o.run pcs.fri_params (FriMmcs.commits pcs.fri_params.mmcs)
        InputMmcs.matrices };

    ghost open_asks = { λ pcs. HaveCommittedHeights InputMmcs.matrices };

    ghost open_gives = { λ pcs.
        let o = ⟦<C as OpeningOver<Val, EF, InputMmcs, FriMmcs>>⟧.schemes in
        IsGiven pcs.fri_params InputMmcs.matrices o.fields o.run (InputMmcs.commits pcs.mmcs)
        (InputMmcs.authenticates pcs.mmcs) (FriMmcs.commits pcs.fri_params.mmcs)
        (FriMmcs.authenticates pcs.fri_params.mmcs) Val.CIRCLE_TWO_ADICITY };

    ghost open_refuses = { λ pcs requests old.
        let o = ⟦<C as OpeningOver<Val, EF, InputMmcs, FriMmcs>>⟧.schemes in
        IsFirstFrom (opening_tests InputMmcs.matrices requests Val.CIRCLE_TWO_ADICITY
        pcs.fri_params o.fields EF.eq) (IsFailure o.fields o.run pcs.fri_params
        (FriMmcs.commits pcs.fri_params.mmcs) InputMmcs.matrices requests old) old };

    ghost verify_accepts = { λ pcs claims proof.
        let o = ⟦<C as OpeningOver<Val, EF, InputMmcs, FriMmcs>>⟧.schemes in
        IsAccepted o.fields o.run InputMmcs.authenticates FriMmcs.authenticates pcs.mmcs
        pcs.fri_params claims proof };

    ghost verify_refuses = { λ pcs claims proof old new.
        let o = ⟦<C as OpeningOver<Val, EF, InputMmcs, FriMmcs>>⟧.schemes in
        IsFirstFrom (run_tests o.fields pcs.fri_params claims proof) (IsRefused o.fields o.run
        InputMmcs.authenticates FriMmcs.authenticates pcs.mmcs pcs.fri_params claims proof
        InputMmcs.is_memory FriMmcs.is_memory old new) old new };

    ghost is_memory = { says_memory };

    ghost is_prover_memory = { says_prover_memory };

    ghost honest_commit = { λ pcs.
        honest-commit Val.ops Val.eq Val.eq_law Val.CIRCLE_TWO_ADICITY pcs.fri_params };

    ghost honest_open = { λ pcs. honest-open _ Val.Operations.laws EF.Operations.laws EF.embedding
        Val.eq Val.eq_law EF.eq EF.eq_law Val.at_most_62 Val.generators_law pcs.fri_params
        InputMmcs.matrices (InputMmcs.commits pcs.mmcs) _
        (FriMmcs.commits pcs.fri_params.mmcs) };

    ghost each_point = { λ pcs. each-point };

    ghost true_values = { λ pcs. true-values _ _ Val.Operations.laws EF.Operations.laws EF.embedding
        _ Val.generators_law pcs.fri_params InputMmcs.matrices (InputMmcs.commits pcs.mmcs) _ _ _
        _ };

    ghost complete = { λ pcs. opening-accepted _ Val.Operations.laws EF.Operations.laws EF.embedding
        Val.eq Val.eq_law EF.eq EF.eq_law Val.at_most_62 Val.generators_law pcs.fri_params
        InputMmcs.matrices (InputMmcs.commits pcs.mmcs) _ C.bits_below InputMmcs.authenticates
        FriMmcs.authenticates pcs.mmcs (FriMmcs.commits pcs.fri_params.mmcs) };

    ghost kept_asks = { λ pcs. kept-powers Val.ops Val.generators pcs.fri_params.log_blowup
        (InputMmcs.commits pcs.mmcs) InputMmcs.matrices };

    ghost one_state = { λ pcs claims proof. one-state };

    fn natural_domain_for_degree(&self, degree: usize) -> CircleDomain<Val> {
        self.natural_domain_for_degree(degree)
    }

    fn commit(
        &self,
        alloc: Global,
        evaluations: Vec<(CircleDomain<Val>, RowMajorMatrix<Val>)>,
    ) -> Result<(InputMmcs::Commitment, InputMmcs::ProverData), ProverError>
        requires { HaveRowsForPoints evaluations.items }
        ensures committed { IfOk result (λ r. IsCommittedUnder Val.generators InputMmcs.Mmcs
            self.now evaluations.items r.0 r.1) }
        ensures refused { IfErr result (IsFirstOf (commit_tests Val.CIRCLE_TWO_ADICITY
            self.now.fri_params Val.eq Val.ops evaluations.items)) }
    {
        self.commit(alloc, evaluations)
    }

    fn open(
        &self,
        alloc: Global,
        requests: Vec<OpeningRequest<'_, InputMmcs::ProverData, EF>>,
        challenger: &mut C,
    ) -> Result<
        (
            OpenedValues<EF>,
            CirclePcsProof<Val, EF, InputMmcs, FriMmcs, Val>,
        ),
        ProverError,
    >
        requires { HaveCommittedHeights InputMmcs.matrices requests.items }
        ensures opened { IfOk result (IsAnswer (⟦<Self as Pcs<EF, C>>⟧.open_gives self.now
            requests.entry.items) (C.state challenger.old) (C.state challenger.new)) }
        ensures refused { let p = ⟦<Self as Pcs<EF, C>>⟧ in IfErr result (p.open_refuses self.now
            requests.entry.items (C.state challenger.old) (C.state challenger.new)) }
    {
        self.open(alloc, requests, challenger)
    }

    fn verify(
        &self,
        alloc: Global,
        claims: Vec<CommitmentOpening<EF, InputMmcs::Commitment, CircleDomain<Val>>>,
        proof: &CirclePcsProof<Val, EF, InputMmcs, FriMmcs, Val>,
        challenger: &mut C,
    ) -> Result<(), VerifierError<InputMmcs::Error, FriMmcs::Error>>
        ensures accepted { let p = ⟦<Self as Pcs<EF, C>>⟧ in OnOk result (p.verify_accepts self.now
            claims.items proof.now (C.state challenger.old) (C.state challenger.new)) }
        ensures refused { let p = ⟦<Self as Pcs<EF, C>>⟧ in IfErr result (IsOfMemoryIf p.is_memory
            (p.verify_accepts self.now claims.items proof.now (C.state challenger.old))) }
        ensures reason { let p = ⟦<Self as Pcs<EF, C>>⟧ in IfErr result (p.verify_refuses self.now
            claims.items proof.now (C.state challenger.old) (C.state challenger.new)) }
    {
        self.verify(alloc, claims, proof, challenger)
    }

    fn is_memory(error: &VerifierError<InputMmcs::Error, FriMmcs::Error>) -> bool {
        matches!(error, FriError::Memory)
    }

    fn is_prover_memory(error: &ProverError) -> bool {
        matches!(error, ProverError::Memory)
    }
}

impl<Val, EF, InputMmcs, FriMmcs, C> UnivariateStarkPcs<EF, C>
    for CirclePcs<Val, InputMmcs, FriMmcs>
where
    Val: ComplexExtendable,
    EF: ExtensionField<Val>,
    InputMmcs: Mmcs<Val>,
    FriMmcs: Mmcs<EF>,
    C: CanSample<Val> + GrindingChallenger<Val> + CanObserve<FriMmcs::Commitment>,
{
    ghost use Rattle.p3_circle.specs.SchemeFacts.{batch-committed};

    const ZK: bool = false;

    type PeriodicError = PeriodicError;

    ghost log_max_trace_height = { λ pcs. Val.CIRCLE_TWO_ADICITY - 1 };

    ghost log_min_trace_height = { λ pcs.
        min (2 + pcs.fri_params.log_final_poly_len) (2 ^ 64 - 1) };

    ghost get_quotient_ldes_gives = { λ pcs.
        AreExtensions Val.ops Val.generators pcs.fri_params.log_blowup };

    ghost get_quotient_ldes_refuses = { λ pcs batch. IsFirstOf
        (evaluation_tests Val.CIRCLE_TWO_ADICITY pcs.fri_params Val.eq Val.ops batch) };

    ghost commit_ldes_asks = { λ pcs. HaveHeightsOfPowers };

    ghost commit_ldes_gives = { λ pcs ldes commitment kept. AreCommittedTo
        (InputMmcs.commits pcs.mmcs) ldes commitment (InputMmcs.matrices kept) };

    ghost commit_ldes_refuses = { λ pcs ldes.
        IsFirstOf (lde_tests Val.CIRCLE_TWO_ADICITY pcs.fri_params ldes) };

    ghost get_evaluations_on_domain_asks = { λ pcs kept.
        CanBeEvaluated Val.CIRCLE_TWO_ADICITY (InputMmcs.matrices kept) };

    ghost get_evaluations_on_domain_gives = { λ pcs kept. AreValuesOfMatrix Val.ops
        Val.generators pcs.fri_params.log_blowup (InputMmcs.matrices kept) };

    ghost get_evaluations_on_domain_refuses = { λ pcs kept idx domain. IsFirstOf
        (target_tests_at Val.CIRCLE_TWO_ADICITY pcs.fri_params (InputMmcs.matrices kept) idx
        (log_size domain)) };

    ghost build_periodic_lde_table_asks = { λ pcs. AreExtended Val.CIRCLE_TWO_ADICITY };

    ghost build_periodic_lde_table_gives = { λ pcs columns trace lde.
        IsTableOn Val.ops Val.generators Val.CIRCLE_TWO_ADICITY trace lde columns };

    ghost build_periodic_lde_table_refuses = { λ pcs columns trace lde.
        IsRefusedOn trace lde columns };

    ghost ldes_commit = { λ pcs batch ldes commitment kept. batch-committed Val.ops
        Val.generators pcs.fri_params.log_blowup (InputMmcs.commits pcs.mmcs) batch ldes
        commitment (InputMmcs.matrices kept) };

    fn log_max_trace_height(&self) -> usize {
        self.log_max_trace_height()
    }

    fn log_min_trace_height(&self) -> usize {
        self.log_min_trace_height()
    }

    fn get_quotient_ldes(
        &self,
        alloc: Global,
        evaluations: Vec<(CircleDomain<Val>, RowMajorMatrix<Val>)>,
        num_chunks: usize,
    ) -> Result<Vec<RowMajorMatrix<Val>>, ProverError>
        requires { HaveRowsForPoints evaluations.items }
        ensures made { IfOk result (λ r. AreExtensions Val.ops Val.generators
            self.now.fri_params.log_blowup evaluations.items r.items) }
        ensures refused { IfErr result (IsFirstOf (evaluation_tests Val.CIRCLE_TWO_ADICITY
            self.now.fri_params Val.eq Val.ops evaluations.items)) }
    {
        self.get_quotient_ldes(alloc, evaluations, num_chunks)
    }

    fn commit_ldes(
        &self,
        alloc: Global,
        ldes: Vec<RowMajorMatrix<Val>>,
    ) -> Result<(InputMmcs::Commitment, InputMmcs::ProverData), ProverError>
        requires { HaveHeightsOfPowers ldes.items }
        ensures committed { IfOk result (λ r. AreCommittedTo (InputMmcs.commits self.now.mmcs)
            ldes.items r.0 (InputMmcs.matrices r.1)) }
        ensures refused { IfErr result (IsFirstOf
            (lde_tests Val.CIRCLE_TWO_ADICITY self.now.fri_params ldes.items)) }
    {
        self.commit_ldes(alloc, ldes)
    }

    fn get_evaluations_on_domain(
        &self,
        alloc: Global,
        prover_data: &InputMmcs::ProverData,
        idx: usize,
        domain: CircleDomain<Val>,
    ) -> Result<RowMajorMatrix<Val>, ProverError> {
        self.get_evaluations_on_domain(alloc, prover_data, idx, domain)
    }

    fn build_periodic_lde_table(
        &self,
        alloc: Global,
        periodic_cols: &[Vec<Val>],
        trace_domain: CircleDomain<Val>,
        quotient_domain: CircleDomain<Val>,
    ) -> Result<PeriodicLdeTable<Val>, PeriodicError> {
        self.build_periodic_lde_table(alloc, periodic_cols, trace_domain, quotient_domain)
    }
}
