//! The scheme.
ghost use Rattle.std.specs.Prelude.{◌≡◌, ◌↔◌, ◌+◌, ◌-◌, ◌^◌, ◌<◌, ◌≤◌, length, min, OnOk, IfOk};
ghost use Rattle.std.specs.Prelude.{IfErr, IfSome, IsSome, IsTrue};
ghost use Rattle.circle_commit.specs.Matrix.{IsPowerOfTwo};
ghost use Rattle.circle_commit.specs.Mmcs.{HaveHeightsOfPowers};
ghost use Rattle.circle_commit.specs.Pcs.{openings};
ghost use Rattle.circle_commit.specs.declared.error.FriError.TheVariants.{Memory};
ghost use Rattle.circle_domain.specs.Domain.{log_size, IsStandardDomain};
ghost use Rattle.circle_plane.specs.PeriodicColumns.{columns_of, IsTableOn, IsRefusedOn};
ghost use Rattle.p3_circle.specs.Committing.{RefusesInOrder, commit_tests, evaluation_tests};
ghost use Rattle.p3_circle.specs.Committing.{lde_tests, height_at, target_tests_at};
ghost use Rattle.p3_circle.specs.Committing.{HaveRowsForPoints, AreExtensions, AreValuesOfMatrix};
ghost use Rattle.circle_codewords.specs.Requests.{AreAnswered};
ghost use Rattle.circle_relation.specs.declared.error.ProverError.TheVariants.{Memory as OutOfMemory};
ghost use Rattle.p3_circle.specs.Scheme.{CanBeDegree, HaveCommittedHeights, IsStandardOfSize};
ghost use Rattle.circle_prover.specs.Requesting.{RefusesBefore};
ghost use Rattle.circle_verifier.specs.Tests.{IsFirstRefusal};
ghost use Rattle.p3_circle.specs.Calls.{AreTrueAnswers, IsAnswer, IsOfHighDegreeIf};
ghost use Rattle.p3_circle.specs.Calls.{ReadsOwnRowsIf, scheme_tests};

use crate::commit::{evaluations_on, extensions, validate_evaluations};
use circle_challenger::{CanObserve, CanSample, GrindingChallenger};
use circle_commit::{
    CommitmentOpening, FriParameters, Mmcs, OpenedValues, OpeningRequest, Pcs, PeriodicLdeTable,
    RowMajorMatrix, Statements, heights_are_powers_of_two, is_power_of_two, log2_strict,
};
use circle_domain::CircleDomain;
use circle_field::{ComplexExtendable, ExtensionField, Field};
use circle_plane::{PeriodicError, build_periodic_lde_table_circle};
use circle_prover::{OpenableRequests, ProverError, log_min_trace_height, validate_heights};
use circle_relation::{CirclePcsProof, OverCircle, VerifierError};
use circle_verifier::TestedRun;
use std::alloc::Global;
use std::marker::PhantomData;

/// The polynomial commitment scheme over the circle of the field `Val`.
///
/// `InputMmcs` commits to batches of matrices, `FriMmcs` to the codewords that an opening combines
/// of them.
#[derive(Debug, Drop)]
pub struct CirclePcs<Val: Field, InputMmcs, FriMmcs> {
    /// The commitment scheme of batches of matrices.
    pub mmcs: InputMmcs,
    /// The parameters of an opening, with the commitment scheme of its codewords.
    pub fri_params: FriParameters<FriMmcs>,
    of: PhantomData<Val>,
}

impl<Val: Field, InputMmcs, FriMmcs> CirclePcs<Val, InputMmcs, FriMmcs> {
    /// The scheme with these commitment schemes and parameters.
    pub fn new(mmcs: InputMmcs, fri_params: FriParameters<FriMmcs>) -> Self
        ensures mmcs { result.mmcs ≡ mmcs }
        ensures params { result.fri_params ≡ fri_params }
    {
        CirclePcs {
            mmcs,
            fri_params,
            of: PhantomData,
        }
    }
}

impl<Val: ComplexExtendable, InputMmcs: Mmcs<Val>, FriMmcs> CirclePcs<Val, InputMmcs, FriMmcs> {
    /// Whether what is opened hides the rest of what was committed to: it doesn't.
    pub const ZK: bool = false;

    /// The domain on which a polynomial of `degree` coefficients is given: the standard domain of
    /// `degree` points.
    ///
    /// Requires a power of two from 2 up for which the group has a standard domain.
    pub fn natural_domain_for_degree(&self, degree: usize) -> CircleDomain<Val>
        requires power { IsPowerOfTwo degree }
        requires from_two { 2 ≤ degree }
        requires in_group { degree < 2 ^ Val.CIRCLE_TWO_ADICITY }
        ensures size { 2 ^ log_size result ≡ degree }
        ensures standard { IsStandardDomain Val.CIRCLE_TWO_ADICITY Val.generators result }
    {
        CircleDomain::standard(log2_strict(degree))
    }

    /// What [`natural_domain_for_degree`](Self::natural_domain_for_degree) returns, and `None` for a
    /// degree that it doesn't take.
    pub fn try_natural_domain_for_degree(&self, degree: usize) -> Option<CircleDomain<Val>>
        ensures some { IsSome result ↔ CanBeDegree Val.CIRCLE_TWO_ADICITY degree }
        ensures domain { IfSome result
            (IsStandardOfSize Val.CIRCLE_TWO_ADICITY Val.generators degree) }
    {
        if degree < 2 || !is_power_of_two(degree) {
            return None;
        }
        if log2_strict(degree) >= Val::CIRCLE_TWO_ADICITY {
            return None;
        }
        Some(self.natural_domain_for_degree(degree))
    }

    /// Commits to matrices, each with the domain on which its columns are values of polynomials, a
    /// row for each point in natural order. The committed rows are the polynomials' values on the
    /// standard domain of `2^log_blowup` times as many points, in the transform's order (Circle
    /// STARKs, IACR ePrint 2024/278, sections 4.3 and 6).
    ///
    /// Requires one row for each point. Returns, by tests that take no memory,
    /// `NoCommittedMatrices` where there is no matrix, and then the first of these, matrix after
    /// matrix:
    /// `HeightTooSmall` where the domain has fewer than `2^log_min_trace_height` points,
    /// `HeightTooLarge` where the group has no standard domain to extend to, and `NotGenuine` where
    /// the domain's halves meet. `Memory` where an allocation is refused.
    pub fn commit(
        &self,
        alloc: Global,
        evaluations: Vec<(CircleDomain<Val>, RowMajorMatrix<Val>)>,
    ) -> Result<(InputMmcs::Commitment, InputMmcs::ProverData), ProverError>
        requires { HaveRowsForPoints evaluations.items }
        ensures refused { RefusesInOrder (commit_tests Val.CIRCLE_TWO_ADICITY self.now.fri_params
            Val.eq Val.ops evaluations.items) result }
        ensures matrices { IfOk result (λ r. AreExtensions Val.ops Val.generators
            self.now.fri_params.log_blowup evaluations.items (InputMmcs.matrices r.1)) }
        ensures commitment { IfOk result (λ r.
            InputMmcs.commits self.now.mmcs (InputMmcs.matrices r.1) r.0) }
        ensures heights { IfOk result (λ r. HaveHeightsOfPowers (InputMmcs.matrices r.1)) }
    {
        if evaluations.is_empty() {
            return Err(ProverError::NoCommittedMatrices);
        }
        let ldes = self.get_quotient_ldes(alloc, evaluations, 1)?;
        Ok(self.mmcs.commit(alloc, ldes)?)
    }

    /// Whether all matrices of the requests have heights that are powers of two, as
    /// [`open`](CirclePcs::open) requires.
    pub fn have_heights_of_powers<EF>(
        &self,
        requests: &[OpeningRequest<InputMmcs::ProverData, EF>],
    ) -> bool
        // Of the list by the name that a caller has for it, as that of a `Vec` that lends the slice.
        ensures yes { IsTrue result → (list : _) → requests.now ≡ list
            → HaveCommittedHeights InputMmcs.matrices list }
        ensures no { HaveCommittedHeights InputMmcs.matrices requests.now → IsTrue result }
    {
        for request in requests {
            if !heights_are_powers_of_two(self.mmcs.get_matrices(request.prover_data)) {
                return false;
            }
        }
        true
    }

    /// Opens committed matrices at points: returns for each request, matrix and point the values of
    /// the columns' polynomials, and one proof of them all (Circle STARKs, IACR ePrint 2024/278,
    /// sections 4 to 6). The values are those of the polynomials that the first committed rows fix,
    /// as many rows as there were before the blowup. A matrix may be opened at no point; `verify`
    /// refuses it.
    ///
    /// Requires matrices whose heights are powers of two, as `commit` and `commit_ldes` return
    /// them; [`have_heights_of_powers`](CirclePcs::have_heights_of_powers) tests it of data from
    /// elsewhere. Before the challenger is seeded, `open` leaves it as it was and returns the first
    /// of these, each tested over all requests, by tests that take no memory: `UnfitParameters`,
    /// `NoCommittedMatrices`, `MatrixCountMismatch`, `HeightTooSmall` and `HeightTooLarge` matrix
    /// after matrix, `PointAtInfinity`, `PointOnDomain`.
    ///
    /// Then `NoGrindingWitness` of a phase where no witness passes, `LastWordNotConstant` where a
    /// matrix of fewer than 1024 columns that `commit_ldes` took isn't of low degree, and `Memory`
    /// where an allocation is refused; these leave the challenger in an unspecified state. Honest
    /// requests are refused only when out of memory; the values are those of the only polynomials
    /// of the batches that were committed to, and `verify` accepts claims of them from the state
    /// that `open` was called in. The caller observes the commitments; `open` doesn't.
    ///
    /// No refusal comes of a matrix of 1024 columns or more that isn't of low degree: its codewords
    /// are those of the polynomials that its first rows fix, and `verify` may refuse the proof. Of
    /// all other matrices the codewords are combined of the committed rows themselves (`words`).
    pub fn open<EF: ExtensionField<Val>, C>(
        &self,
        alloc: Global,
        requests: Vec<OpeningRequest<InputMmcs::ProverData, EF>>,
        challenger: &mut C,
    ) -> Result<
        (
            OpenedValues<EF>,
            CirclePcsProof<Val, EF, InputMmcs, FriMmcs, Val>,
        ),
        ProverError,
    >
    where
        FriMmcs: Mmcs<EF>,
        C: CanSample<Val> + GrindingChallenger<Val> + CanObserve<FriMmcs::Commitment>,
        requires { HaveCommittedHeights InputMmcs.matrices requests.items }
        ensures refused { let k = ⟦<EF as OverCircle<Val>>⟧.fields in RefusesBefore (scheme_tests k
            InputMmcs.matrices self.now requests.entry.items) result challenger.old challenger.new }
        ensures values { let k = ⟦<EF as OverCircle<Val>>⟧.fields in IfOk result (λ r. AreAnswered k
            InputMmcs.matrices self.now.fri_params requests.entry.items (openings r.0.items)) }
        ensures opened { IfOk result (IsAnswer (⟦<Self as Pcs<EF, C>>⟧.open_gives self.now
            requests.entry.items) (C.state challenger.old) (C.state challenger.new)) }
        ensures words { IfOk result (λ r. ReadsOwnRowsIf Val.ops Val.generators InputMmcs.matrices
            self.now.fri_params requests.entry.items (openings r.0.items)) }
        ensures failure { let p = ⟦<Self as Pcs<EF, C>>⟧ in IfErr result (p.open_refuses self.now
            requests.entry.items (C.state challenger.old) (C.state challenger.new)) }
        ensures honest { let p = ⟦<Self as Statements<EF, C>>⟧ in IfErr result (λ e. p.is_honest
            self.now requests.entry.items (C.state challenger.old) → e ≡ OutOfMemory) }
        ensures degree { IfErr result (IsOfHighDegreeIf Val.ops Val.generators InputMmcs.matrices
            self.now.fri_params requests.entry.items) }
        ensures only { IfOk result (λ r. AreTrueAnswers Val.Operations Val.generators EF.ops
            EF.embed InputMmcs.Mmcs self.now requests.entry.items (openings r.0.items)) }
        ensures accepted { IfOk result (IsAnswer (⟦<Self as Statements<EF, C>>⟧.are_accepted self.now
            requests.entry.items) (C.state challenger.old) (C.state challenger.new)) }
    {
        let openable = OpenableRequests::<Val, EF, InputMmcs, FriMmcs>::new(
            &self.mmcs,
            &self.fri_params,
            &requests,
        )?;
        openable.open(alloc, challenger)
    }

    /// Whether the claimed values are those of the committed polynomials (Circle STARKs, IACR
    /// ePrint 2024/278, sections 4 to 6): Ok exactly where the relation `Accepts` holds of the
    /// claims, the proof and the drawn challenges, unless out of memory. Any input may be passed:
    /// what is malformed is refused.
    ///
    /// Before the challenger is seeded, `verify` leaves it as it was and returns the first of
    /// these, by tests that take no memory: `NoCommittedMatrices`, `InputError(DomainTooSmall)`,
    /// `GlobalMaxHeightTooLarge`, `UnsupportedGrinding`, `ZeroQueries`, `ZeroBlowup`,
    /// `UnsupportedFoldingCap`, `CommitRoundCountMismatch`, `CommitPowWitnessCountMismatch`,
    /// `NonCanonicalPowWitness` of the rounds and of the queries,
    /// `CommitPhaseOpeningsCountMismatch`, `CommitPhaseQueryCountMismatch`,
    /// `SiblingValuesLengthMismatch`, `FinalPolyLengthMismatch`, `NonCanonicalPowWitness` of the
    /// batching challenge, `PointAtInfinity`.
    ///
    /// Then `InvalidPowWitness` where a witness doesn't pass; and once all is drawn, in no promised
    /// order, the other variants of [`InputError`], `UnconsumedReducedOpenings`,
    /// `CommitPhaseMmcsError` and `FinalPolyMismatch`, each where its reason holds. `Memory` where
    /// an allocation is refused. Of a claimed domain only its size is used. The caller observes the
    /// commitments; `verify` doesn't.
    pub fn verify<EF: ExtensionField<Val>, C>(
        &self,
        alloc: Global,
        claims: Vec<CommitmentOpening<EF, InputMmcs::Commitment, CircleDomain<Val>>>,
        proof: &CirclePcsProof<Val, EF, InputMmcs, FriMmcs, Val>,
        challenger: &mut C,
    ) -> Result<(), VerifierError<InputMmcs::Error, FriMmcs::Error>>
    where
        FriMmcs: Mmcs<EF>,
        C: CanSample<Val> + GrindingChallenger<Val> + CanObserve<FriMmcs::Commitment>,
        ensures first { let k = ⟦<EF as OverCircle<Val>>⟧.fields in IsFirstRefusal k
            self.now.fri_params claims.items proof.now result challenger.old challenger.new }
        ensures accepted { let p = ⟦<Self as Pcs<EF, C>>⟧ in OnOk result (p.verify_accepts self.now
            claims.items proof.now (C.state challenger.old) (C.state challenger.new)) }
        ensures complete { IfErr result (λ e. (t : C.State) → ⟦<Self as Pcs<EF, C>>⟧.verify_accepts
            self.now claims.items proof.now (C.state challenger.old) t → e ≡ Memory) }
        ensures reason { let p = ⟦<Self as Pcs<EF, C>>⟧ in IfErr result (p.verify_refuses self.now
            claims.items proof.now (C.state challenger.old) (C.state challenger.new)) }
    {
        let run = TestedRun::<Val, EF, InputMmcs, FriMmcs>::new(&self.fri_params, &claims, proof)?;
        let drawn = run.replay_transcript(alloc, challenger)?;
        drawn.verify(alloc, &self.mmcs)
    }

    /// The binary logarithm of the greatest number of rows that the group has a standard domain
    /// for. With a blowup fewer rows can be committed to.
    pub fn log_max_trace_height(&self) -> usize
        ensures { result ≡ Val.CIRCLE_TWO_ADICITY - 1 }
    {
        Val::CIRCLE_TWO_ADICITY - 1
    }

    /// The binary logarithm of the least number of rows that can be folded: 2 more than that of the
    /// number of coefficients at which folding stops, or `usize::MAX` where the sum passes it.
    pub fn log_min_trace_height(&self) -> usize
        ensures { result ≡ min (2 + self.now.fri_params.log_final_poly_len) (2 ^ 64 - 1) }
    {
        log_min_trace_height(&self.fri_params)
    }

    /// The matrices that [`commit`](CirclePcs::commit) would commit to. The number of chunks has no
    /// effect.
    ///
    /// Requires and refuses what `commit` does, but accepts an empty list of matrices.
    pub fn get_quotient_ldes(
        &self,
        alloc: Global,
        evaluations: Vec<(CircleDomain<Val>, RowMajorMatrix<Val>)>,
        _num_chunks: usize,
    ) -> Result<Vec<RowMajorMatrix<Val>>, ProverError>
        requires { HaveRowsForPoints evaluations.items }
        ensures refused { RefusesInOrder (evaluation_tests Val.CIRCLE_TWO_ADICITY
            self.now.fri_params Val.eq Val.ops evaluations.items) result }
        ensures matrices { IfOk result (λ made. AreExtensions Val.ops Val.generators
            self.now.fri_params.log_blowup evaluations.items made.items) }
    {
        validate_evaluations(&self.fri_params, &evaluations)?;
        Ok(extensions(alloc, self.fri_params.log_blowup, evaluations)?)
    }

    /// Commits to matrices as they are, each on the standard domain of as many points as it has
    /// rows, in the transform's order.
    ///
    /// Requires heights that are powers of two. Returns, by tests that take no memory,
    /// `NoCommittedMatrices` where there is no matrix, and then the first of these, matrix after
    /// matrix: `HeightTooSmall` below `2^(log_blowup + log_min_trace_height)` rows, and
    /// `HeightTooLarge` from `2^CIRCLE_TWO_ADICITY` rows. `Memory` where an allocation is refused.
    pub fn commit_ldes(
        &self,
        alloc: Global,
        ldes: Vec<RowMajorMatrix<Val>>,
    ) -> Result<(InputMmcs::Commitment, InputMmcs::ProverData), ProverError>
        requires { HaveHeightsOfPowers ldes.items }
        ensures refused { RefusesInOrder
            (lde_tests Val.CIRCLE_TWO_ADICITY self.now.fri_params ldes.items) result }
        ensures matrices { IfOk result (λ r. InputMmcs.matrices r.1 ≡ ldes.items) }
        ensures commitment { IfOk result (λ r. InputMmcs.commits self.now.mmcs ldes.items r.0) }
        ensures heights { IfOk result (λ r. HaveHeightsOfPowers (InputMmcs.matrices r.1)) }
    {
        if ldes.is_empty() {
            return Err(ProverError::NoCommittedMatrices);
        }
        validate_heights(&self.fri_params, &ldes)?;
        Ok(self.mmcs.commit(alloc, ldes)?)
    }

    /// The values of a committed matrix's polynomials on a domain, in natural order: on the domain
    /// that the matrix is committed on its rows in natural order, elsewhere the values by the
    /// coefficients that its first rows fix, as many as the trace had rows.
    ///
    /// Requires the index of a committed matrix whose height is a power of two, and a domain with
    /// `1 <= log_n <= CIRCLE_TWO_ADICITY`. Returns, by tests that take no memory,
    /// `HeightTooSmall` and `HeightTooLarge` as [`commit_ldes`](CirclePcs::commit_ldes) does, and
    /// then `DomainSmallerThanTrace` where the domain has fewer points than the trace had rows.
    /// `Memory` where an allocation is refused.
    pub fn get_evaluations_on_domain(
        &self,
        alloc: Global,
        prover_data: &InputMmcs::ProverData,
        idx: usize,
        domain: CircleDomain<Val>,
    ) -> Result<RowMajorMatrix<Val>, ProverError>
        requires in_range { idx < length (InputMmcs.matrices prover_data.now) }
        requires power { IsPowerOfTwo (height_at (InputMmcs.matrices prover_data.now) idx) }
        requires positive { 1 ≤ log_size domain }
        requires in_group { log_size domain ≤ Val.CIRCLE_TWO_ADICITY }
        ensures refused { RefusesInOrder (target_tests_at Val.CIRCLE_TWO_ADICITY
            self.now.fri_params (InputMmcs.matrices prover_data.now) idx (log_size domain)) result }
        ensures values { IfOk result (AreValuesOfMatrix Val.ops Val.generators
            self.now.fri_params.log_blowup (InputMmcs.matrices prover_data.now) idx domain) }
    {
        let committed = &self.mmcs.get_matrices(prover_data)[idx];
        evaluations_on(alloc, &self.fri_params, committed, domain)
    }

    /// The values of periodic columns of a trace at the points of an extension of its domain, as
    /// [`build_periodic_lde_table_circle`] returns them, with the same requirements and refusals.
    pub fn build_periodic_lde_table(
        &self,
        alloc: Global,
        periodic_cols: &[Vec<Val>],
        trace_domain: CircleDomain<Val>,
        quotient_domain: CircleDomain<Val>,
    ) -> Result<PeriodicLdeTable<Val>, PeriodicError>
        requires larger { log_size trace_domain ≤ log_size quotient_domain }
        requires in_group { log_size trace_domain < Val.CIRCLE_TWO_ADICITY }
        ensures table { IfOk result (IsTableOn Val.ops Val.generators Val.CIRCLE_TWO_ADICITY
            trace_domain quotient_domain (columns_of periodic_cols.now)) }
        ensures refusal { IfErr result (IsRefusedOn
            trace_domain quotient_domain (columns_of periodic_cols.now)) }
    {
        build_periodic_lde_table_circle(alloc, periodic_cols, &trace_domain, &quotient_domain)
    }
}
