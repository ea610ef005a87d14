//! The command `prove`: the values that polynomials have at points, and a proof of them.

ghost use Rattle.std.specs.Prelude.{◌≡◌, ◌⊎◌, ◌+◌, ◌^◌, ◌<◌, ◌≤◌, ◌++◌, ◌∷◌, [], All, map};
ghost use Rattle.std.specs.Prelude.{IfErr, IfOk, IsTrue, MatchResult, OnOk, false, string_bytes};
ghost use Rattle.circle_challenger.specs.Sha256Challenger.{state_of};
ghost use Rattle.std.specs.List.{AllZip};
ghost use Rattle.circle_commit.specs.DotProduct.{pairwise};
ghost use Rattle.circle_commit.specs.Matrix.{IsPowerOfTwo};
ghost use Rattle.circle_commit.specs.Pcs.{openings};
ghost use Rattle.circle_codewords.specs.Requests.{lists_of};
ghost use Rattle.circle_relation.specs.declared.error.ProverError.TheVariants.{Memory};
ghost use Rattle.circle_commands.specs.Named.{prove_name};
ghost use Rattle.circle_commands.specs.Reasons.{IsCommitReason, IsProveReasonFrom};
ghost use Rattle.circle_commands.specs.Reasons.{IsProveRefusal, IsProverRefusal};
ghost use Rattle.circle_commands.specs.Text.{IsLineOf};
ghost use Rattle.circle_commands.specs.Unproved.{AreUnopened, IsFirstUncommitted, IsUncommitted};
ghost use Rattle.circle_commands.specs.Prove.{statement_form, trace_form};
ghost use Rattle.circle_commands.specs.Proved.{AreCommitments, AreCommitted, AreOpened, ArePlaced};
ghost use Rattle.circle_commands.specs.Proved.{HavePoints, IsCommitted, IsCommittedInput, IsProved};
ghost use Rattle.circle_commands.specs.Proved.{IsProvedFrom, IsRequested, batch_claimed};
ghost use Rattle.circle_commands.specs.Proved.{commitments_of, known_of, known_told, logs_of};
ghost use Rattle.circle_commands.specs.Proved.{points_of};
ghost use Rattle.circle_commands.specs.Traces.{AreFitting, AreFittingRows, HasFittingRows};
ghost use Rattle.circle_commands.specs.Traces.{AreTall, AreTallRows, HasTallRows};
ghost use Rattle.circle_commands.specs.Traces.{IsRefusalOfBatch, IsRefusalOfBatches};
ghost use Rattle.circle_commands.specs.Traces.{IsRefusalOfRows};
ghost use Rattle.circle_commands.specs.Verified.{IsVerified, IsVerifiedFrom, batches_told};
ghost use Rattle.circle_commands.specs.Verify.{claims_form};
ghost use Rattle.circle_commands.specs.declared.prove.Refusal.TheVariants.{Prover};

use crate::command::{Command, CommandFrom};
use crate::commitments::{HasCommitment, observe_commitments};
use crate::failure::Failure;
use crate::values::{is_rectangular, matrix};
use crate::{json, verify};
use circle_commit::{
    FriParameters, OpenedValues, OpeningRequest, RowMajorMatrix, is_power_of_two, log2_strict,
};
use circle_field::{Cubic, Mersenne31};
use circle_json::{JsonError, JsonForm, has_keys, member};
use circle_presets::{
    ChallengeMmcs, Challenger, ClaimOn, Commitment, ProverData, Request, Scheme, ValMmcs,
};
use p3_circle::{CircleDomain, CommittedBatch, ProverError, claims_of};
use serde_json::{Value, json};
use std::alloc::{AllocError, Global};

/// The binary logarithm of the least number of rows of a matrix, where folding goes on to a
/// constant.
const MIN_LOG_HEIGHT: usize = 2;

/// The greatest number of rows of a matrix.
const MAX_HEIGHT: usize = 1 << 24;

/// A batch that is committed to.
#[derive(Drop)]
pub(crate) struct Committed<'a> {
    /// The commitment.
    commitment: [u8; 32],
    /// What is kept of it.
    kept: ProverData,
    /// The matrices of the input.
    traces: &'a [Trace],
}

impl HasCommitment for Committed<'_> {
    ghost commitment_of = { λ batch. batch.commitment };

    fn commitment(&self) -> &Commitment {
        &self.commitment
    }
}

/// The batches of an input, to which the scheme with its parameters has committed.
#[derive(Drop)]
pub(crate) struct CommittedInput<'a> {
    /// The input.
    input: &'a Input,
    /// The scheme.
    scheme: Scheme,
    /// The batches, in order.
    batches: Vec<Committed<'a>>,
}

/// A matrix, and where the polynomials are opened that have its columns as values.
#[derive(Drop)]
pub struct Trace {
    /// The points, each by one coordinate.
    pub points: Vec<Cubic>,
    /// The rows, one for each point of a standard domain in natural order.
    pub rows: Vec<Vec<Mersenne31>>,
}

/// An object of the `points` and the `rows`.
impl JsonForm for Trace {
    ghost form = { trace_form };

    fn to_json(&self, alloc: Global) -> Result<Value, AllocError> {
        json!(in alloc; {
            "points": self.points.to_json(alloc)?,
            "rows": self.rows.to_json(alloc)?
        })
    }

    fn from_json(alloc: Global, value: &Value) -> Result<Self, JsonError> {
        has_keys(value, &["points", "rows"])?;
        Ok(Trace {
            points: member(alloc, value, "points")?,
            rows: member(alloc, value, "rows")?,
        })
    }
}

/// The input of the command.
#[derive(Drop)]
pub struct Input {
    /// The matrices, batch by batch.
    pub batches: Vec<Vec<Trace>>,
    /// The parameters of the run.
    pub params: FriParameters<()>,
}

/// An object of the `batches` and the `params`.
impl JsonForm for Input {
    ghost form = { statement_form };

    fn to_json(&self, alloc: Global) -> Result<Value, AllocError> {
        json!(in alloc; {
            "batches": self.batches.to_json(alloc)?,
            "params": self.params.to_json(alloc)?
        })
    }

    fn from_json(alloc: Global, value: &Value) -> Result<Self, JsonError> {
        has_keys(value, &["batches", "params"])?;
        Ok(Input {
            batches: member(alloc, value, "batches")?,
            params: member(alloc, value, "params")?,
        })
    }
}

/// Why the command refuses its input.
#[derive(Clone, Copy, Debug, Drop, PartialEq, Eq)]
pub enum Refusal {
    /// Rows of a matrix differ in length, or one is empty.
    RaggedRows,
    /// The number of rows of a matrix isn't a power of two.
    HeightNotPowerOfTwo,
    /// The scheme refuses to commit or to open, or would for the number of a matrix's rows.
    Prover(ProverError),
}

impl Refusal {
    /// The refusal's name.
    pub fn name(&self) -> &'static str
        ensures { result.now ≡ prove_name self.now }
    {
        match self {
            Refusal::RaggedRows => "RaggedRows",
            Refusal::HeightNotPowerOfTwo => "HeightNotPowerOfTwo",
            Refusal::Prover(error) => error.name(),
        }
    }
}

impl From<ProverError> for Refusal {
    ghost from_gives = { λ error refusal. refusal ≡ Prover error };

    fn from(error: ProverError) -> Refusal {
        Refusal::Prover(error)
    }
}

impl From<AllocError> for Refusal {
    ghost from_gives = { λ _ refusal. refusal ≡ Prover Memory };

    fn from(_refused: AllocError) -> Refusal {
        Refusal::Prover(ProverError::Memory)
    }
}

impl Command for Input {
    ghost use Rattle.circle_commands.specs.Proof.{IsProofLine};
    ghost use Rattle.circle_commands.specs.Reasons.{IsProveReason};

    ghost form = { statement_form };

    ghost is_result = { IsProofLine };

    ghost is_reason = { IsProveReason };

    fn read(alloc: Global, value: &Value) -> Result<Input, JsonError> {
        <Input as JsonForm>::from_json(alloc, value)
    }

    /// The line of claims, parameters and a proof, as [`verify::Input`] reads them.
    ///
    /// Fails as [`prove`] does.
    fn line(self, alloc: Global) -> Result<String, Failure> {
        let claims = prove(alloc, self)?;
        Ok(claims_line(alloc, &claims)?)
    }
}

impl CommandFrom for Input {
    ghost use Rattle.circle_commands.specs.Proof.{IsProofLineFrom};
    ghost use Rattle.circle_commands.specs.Reasons.{IsProveReasonFrom};

    ghost is_result_from = { IsProofLineFrom };

    ghost is_reason_from = { IsProveReasonFrom };

    /// The line of claims, parameters and a proof, as [`verify::Input`] reads them.
    ///
    /// Fails as [`prove_from`] does.
    fn line_from(self, alloc: Global, challenger: &mut Challenger) -> Result<String, Failure> {
        let claims = prove_from(alloc, self, challenger)?;
        Ok(claims_line(alloc, &claims)?)
    }
}

// The compact text of claims, as a line.
fn claims_line(alloc: Global, claims: &verify::Input) -> Result<String, AllocError>
    ensures { IfOk result (λ line. IsLineOf claims_form claims.now (string_bytes line)) }
{
    json::line(alloc, &claims.to_json(alloc)?)
}

/// Commits to the batches, each matrix on the standard domain of as many points as it has rows, and
/// opens them from the challenger that has absorbed the commitments alone, in order.
///
/// Before anything is committed to, refuses by the first of these, matrix after matrix:
/// `RaggedRows` where rows differ in length or one is empty, `HeightNotPowerOfTwo`,
/// `HeightTooLarge` above `2^24` rows, and `HeightTooSmall` below `2^(2 + log_final_poly_len)`, so
/// below four at least. Then fails as [`CirclePcs::commit`] does of the first batch that it
/// refuses, and then as [`CirclePcs::open`] does. Where each matrix has a point,
/// [`verify::verify`] accepts the result.
pub fn prove(alloc: Global, input: Input) -> Result<verify::Input, Refusal>
    ensures rows { let f = input.params.log_final_poly_len in let bs = input.batches.items in
        MatchResult result (λ _. AreTall f bs) (λ e. IsRefusalOfBatches f bs e ⊎ AreTall f bs) }
    ensures proof { IfOk result (IsProved input) }
    ensures accepted { IfOk result (λ out. HavePoints input → IsVerified out) }
    ensures reason { IfErr result (IsProveRefusal input) }
{
    let committed = CommittedInput::new(alloc, &input)?;
    let mut challenger = Challenger::new();
    observe_commitments(&mut challenger, &committed.batches);
    Ok(committed.open(alloc, &mut challenger)?)
}

/// Commits to the batches as [`prove`] does, and opens them from the caller's challenger, which it
/// leaves as [`verify::verify_from`] leaves that of the verifier. The caller has it absorb the
/// commitments, which [`commit`](crate::commit::commit) returns; this
/// call absorbs nothing before the opening.
///
/// Fails as [`prove`] does. Where the rows or a batch are refused, the challenger is as it was;
/// then it is left as [`CirclePcs::open`] leaves it. Where each matrix has a point,
/// [`verify::verify_from`] accepts the result from the same state.
pub fn prove_from(
    alloc: Global,
    input: Input,
    challenger: &mut Challenger,
) -> Result<verify::Input, Refusal>
    ensures rows { let f = input.params.log_final_poly_len in let bs = input.batches.items in
        MatchResult result (λ _. AreTall f bs) (λ e. IsRefusalOfBatches f bs e ⊎ AreTall f bs) }
    ensures proof { IfOk result (λ out.
        IsProvedFrom input out (state_of challenger.old) (state_of challenger.new)) }
    ensures commitments { IfOk result (λ out. AreCommitments input (commitments_of out)) }
    ensures accepted { IfOk result (λ out. HavePoints input
        → IsVerifiedFrom out (state_of challenger.old) (state_of challenger.new)) }
    ensures reason { IfErr result (IsProverRefusal
        (IsProveReasonFrom input (state_of challenger.old) (state_of challenger.new))) }
{
    let committed = CommittedInput::new(alloc, &input)?;
    Ok(committed.open(alloc, challenger)?)
}

impl<'a> CommittedInput<'a> {
    /// Tests the rows of the input's matrices, and commits to its batches.
    ///
    /// Fails as [`prove`] does before it opens.
    pub(crate) fn new(alloc: Global, input: &'a Input) -> Result<Self, Refusal>
        ensures rows { let f = input.now.params.log_final_poly_len in let bs =
            input.now.batches.items in MatchResult result (λ _. AreTall f bs)
            (λ e. IsRefusalOfBatches f bs e ⊎ AreTall f bs) }
        ensures input { IfOk result (λ c. c.input.now ≡ input.now) }
        ensures committed { IfOk result IsCommittedInput }
        ensures reason { IfErr result (IsProverRefusal (IsCommitReason input.now)) }
    {
        validate_batches(input.params.log_final_poly_len, &input.batches)?;
        let scheme = Scheme::new(ValMmcs::new(), input.params.with_mmcs(ChallengeMmcs::new()));
        let batches = commit_batches(alloc, &scheme, &input.batches)?;
        Ok(CommittedInput {
            input,
            scheme,
            batches,
        })
    }

    /// The commitments to the batches, in order.
    pub(crate) fn commitments(&self, alloc: Global) -> Result<Vec<Commitment>, AllocError>
        ensures { IfOk result (λ v. v.items ≡ map (λ b. b.commitment) self.now.batches.items) }
    {
        let mut commitments = Vec::with_capacity(alloc, self.batches.len())?;
        for batch in &self.batches {
            commitments.push(batch.commitment)?;
        }
        Ok(commitments)
    }

    // Opens the batches from the challenger's state.
    fn open(&self, alloc: Global, challenger: &mut Challenger) -> Result<verify::Input, ProverError>
        requires { IsCommittedInput self.now }
        ensures opened { IfOk result (λ out. AreOpened self.now.input.now out
            self.now.batches.items (state_of challenger.old) (state_of challenger.new)) }
        ensures accepted { IfOk result (λ out. HavePoints self.now.input.now
            → IsVerifiedFrom out (state_of challenger.old) (state_of challenger.new)) }
        ensures reason { let s = state_of in IfErr result
            (λ e. (e ≡ Memory) ⊎ AreUnopened self.now.input.now self.now.batches.items
            (s challenger.old) (s challenger.new) e) }
    {
        let requests = requests(alloc, &self.batches)?;
        let (values, proof) = self.scheme.open(alloc, requests, challenger)?;
        Ok(verify::Input {
            batches: claims(alloc, &self.batches, values)?,
            params: self.input.params.with_mmcs(()),
            proof,
        })
    }
}

// Refuses the rows of the matrices, by the first reason.
fn validate_batches(log_final_poly_len: usize, batches: &[Vec<Trace>]) -> Result<(), Refusal>
    ensures { MatchResult result (λ _. AreTall log_final_poly_len batches.now)
        (IsRefusalOfBatches log_final_poly_len batches.now) }
{
    for batch in batches {
        validate_batch(log_final_poly_len, batch)?;
    }
    Ok(())
}

// Refuses the rows of a batch's matrices, by the first reason.
fn validate_batch(log_final_poly_len: usize, batch: &[Trace]) -> Result<(), Refusal>
    ensures { MatchResult result (λ _. All (HasTallRows log_final_poly_len) batch.now)
        (IsRefusalOfBatch log_final_poly_len batch.now) }
{
    for trace in batch {
        validate_rows(log_final_poly_len, &trace.rows)?;
    }
    Ok(())
}

// Whether `height` rows, a power of two, leave nothing to fold where folding stops at
// `2^log_final_poly_len` coefficients.
fn is_too_small(log_final_poly_len: usize, height: usize) -> bool
    requires { IsPowerOfTwo height }
    ensures small { IsTrue result → height < 2 ^ (2 + log_final_poly_len) }
    ensures enough { result ≡ false → 2 ^ (2 + log_final_poly_len) ≤ height }
    ensures four { result ≡ false → 4 ≤ height }
{
    let log_height = log2_strict(height);
    log_height < MIN_LOG_HEIGHT || log_height - MIN_LOG_HEIGHT < log_final_poly_len
}

// Refuses the rows of a matrix, by the first reason.
fn validate_rows(log_final_poly_len: usize, rows: &[Vec<Mersenne31>]) -> Result<(), Refusal>
    ensures { MatchResult result (λ _. AreTallRows log_final_poly_len rows.now)
        (IsRefusalOfRows log_final_poly_len rows.now) }
{
    if !is_rectangular(rows) {
        return Err(Refusal::RaggedRows);
    }
    if !is_power_of_two(rows.len()) {
        return Err(Refusal::HeightNotPowerOfTwo);
    }
    if rows.len() > MAX_HEIGHT {
        return Err(Refusal::Prover(ProverError::HeightTooLarge));
    }
    if is_too_small(log_final_poly_len, rows.len()) {
        return Err(Refusal::Prover(ProverError::HeightTooSmall));
    }
    Ok(())
}

// Commits to each batch.
fn commit_batches<'a>(
    alloc: Global,
    scheme: &Scheme,
    batches: &'a [Vec<Trace>],
) -> Result<Vec<Committed<'a>>, ProverError>
    requires { AreFitting batches.now }
    ensures made { IfOk result (λ v. AreCommitted scheme.now.mmcs
        scheme.now.fri_params.log_blowup batches.now v.items) }
    ensures reason { IfErr result
        (λ e. (e ≡ Memory) ⊎ IsFirstUncommitted scheme.now batches.now e) }
{
    let mut committed = Vec::with_capacity(alloc, batches.len())?;
    for batch in batches {
        push_batch(&mut committed, commit_batch(alloc, scheme, batch)?)?;
    }
    Ok(committed)
}

// Adds a batch.
fn push_batch<'a>(
    committed: &mut Vec<Committed<'a>>,
    batch: Committed<'a>,
) -> Result<(), AllocError>
    ensures { OnOk result (committed.new.items ≡ committed.old.items ++ batch.entry ∷ []) }
{
    committed.push(batch)?;
    Ok(())
}

// Commits to a batch.
fn commit_batch<'a>(
    alloc: Global,
    scheme: &Scheme,
    traces: &'a [Trace],
) -> Result<Committed<'a>, ProverError>
    requires { All HasFittingRows traces.now }
    ensures made { IfOk result
        (IsCommitted scheme.now.mmcs scheme.now.fri_params.log_blowup traces.now) }
    ensures reason { IfErr result (λ e. (e ≡ Memory) ⊎ IsUncommitted scheme.now traces.now e) }
{
    let (commitment, kept) = scheme.commit(alloc, evaluations(alloc, traces)?)?;
    Ok(Committed {
        commitment,
        kept,
        traces,
    })
}

// The matrices of a batch, each with its domain.
fn evaluations(
    alloc: Global,
    traces: &[Trace],
) -> Result<Vec<(CircleDomain<Mersenne31>, RowMajorMatrix<Mersenne31>)>, AllocError>
    requires { All HasFittingRows traces.now }
    ensures { IfOk result (λ v. AllZip (λ t e. ArePlaced t.rows.items e) traces.now v.items) }
{
    let mut evaluations = Vec::with_capacity(alloc, traces.len())?;
    for trace in traces {
        evaluations.push(evaluation(alloc, &trace.rows)?)?;
    }
    Ok(evaluations)
}

// The matrix of these rows with the standard domain of as many points.
fn evaluation(
    alloc: Global,
    rows: &[Vec<Mersenne31>],
) -> Result<(CircleDomain<Mersenne31>, RowMajorMatrix<Mersenne31>), AllocError>
    requires { AreFittingRows rows.now }
    ensures { IfOk result (ArePlaced rows.now) }
{
    let domain = CircleDomain::standard(log2_strict(rows.len()));
    Ok((domain, matrix(alloc, rows)?))
}

// What is to be opened, batch by batch.
fn requests<'a>(
    alloc: Global,
    committed: &'a [Committed<'a>],
) -> Result<Vec<Request<'a>>, AllocError>
    ensures { IfOk result (λ v. AllZip IsRequested committed.now v.items) }
{
    let mut requests = Vec::with_capacity(alloc, committed.len())?;
    for batch in committed {
        requests.push(OpeningRequest {
            prover_data: &batch.kept,
            points: points(alloc, batch.traces)?,
        })?;
    }
    Ok(requests)
}

// The points of a batch's matrices.
fn points(alloc: Global, traces: &[Trace]) -> Result<Vec<Vec<Cubic>>, AllocError>
    ensures { IfOk result (λ v. lists_of v.items ≡ points_of traces.now) }
{
    let mut points = Vec::with_capacity(alloc, traces.len())?;
    for trace in traces {
        points.push(Vec::from_slice(alloc, &trace.points)?)?;
    }
    Ok(points)
}

// The claims that the committed batches have these values.
fn claims(
    alloc: Global,
    committed: &[Committed],
    values: OpenedValues<Cubic>,
) -> Result<Vec<ClaimOn<usize>>, AllocError>
    requires { All (λ c. All HasFittingRows c.traces.now) committed.now }
    ensures { IfOk result (λ v. batches_told v.items
        ≡ pairwise batch_claimed committed.now (openings values.items)) }
{
    claims_of(alloc, known_batches(alloc, committed)?, values)
}

// What a verifier knows of each batch, its matrices' sizes in place of their domains.
fn known_batches(
    alloc: Global,
    committed: &[Committed],
) -> Result<Vec<CommittedBatch<Cubic, [u8; 32], usize>>, AllocError>
    requires { All (λ c. All HasFittingRows c.traces.now) committed.now }
    ensures { IfOk result (λ v. map known_told v.items ≡ map known_of committed.now) }
{
    let mut known = Vec::with_capacity(alloc, committed.len())?;
    for batch in committed {
        known.push(known_batch(alloc, batch)?)?;
    }
    Ok(known)
}

// What a verifier knows of a batch.
fn known_batch(
    alloc: Global,
    batch: &Committed,
) -> Result<CommittedBatch<Cubic, [u8; 32], usize>, AllocError>
    requires { All HasFittingRows batch.now.traces.now }
    ensures { IfOk result (λ known. known_told known ≡ known_of batch.now) }
{
    let points = points(alloc, batch.traces)?;
    Ok(CommittedBatch {
        commitment: batch.commitment,
        domains: log_heights(alloc, batch.traces)?,
        points,
    })
}

// The binary logarithms of the matrices' numbers of rows.
fn log_heights(alloc: Global, traces: &[Trace]) -> Result<Vec<usize>, AllocError>
    requires { All HasFittingRows traces.now }
    ensures { IfOk result (λ v. v.items ≡ logs_of traces.now) }
{
    let mut logs = Vec::with_capacity(alloc, traces.len())?;
    for trace in traces {
        logs.push(log2_strict(trace.rows.len()))?;
    }
    Ok(logs)
}
