//! The command `verify`: whether a proof shows that committed polynomials have the claimed values.

ghost use Rattle.std.specs.Prelude.{◌≡◌, ◌⊎◌, ℕ, List, IfOk, IfErr, OnOk};
ghost use Rattle.circle_challenger.specs.Sha256Challenger.{state_of};
ghost use Rattle.circle_commit.specs.declared.error.FriError.TheVariants.{Memory};
ghost use Rattle.circle_relation.specs.StatementOf.{batch_claim, batch_claims};
ghost use Rattle.circle_commands.specs.Verified.{IsVerified, IsVerifiedFrom, batch_told};
ghost use Rattle.circle_commands.specs.Verified.{IsUnverified, IsUnverifiedFrom, batches_told};
ghost use Rattle.circle_commands.specs.Verify.{claims_form};

use crate::command::{Command, CommandFrom};
use crate::commitments::{HasCommitment, observe_commitments};
use crate::failure::Failure;
use circle_commit::{CommitmentOpening, FriParameters, MatrixOpening};
use circle_json::{JsonError, JsonForm, has_keys, member};
use circle_presets::{
    ChallengeMmcs, Challenger, Claim, ClaimOn, Commitment, Proof, Scheme, ValMmcs,
};
use p3_circle::{CircleDomain, Neutral, Point};
use serde_json::{Value, json};
use std::alloc::{AllocError, Global};

/// Why claims or a proof are refused.
pub use circle_presets::VerifierError as Refusal;

/// The line of a proof that is accepted.
const VERIFIED: &str = "{\"verified\":true}\n";

/// The input of the command.
#[derive(Drop)]
pub struct Input {
    /// The claims about each batch; of the domains the binary logarithms of their sizes.
    pub batches: Vec<ClaimOn<usize>>,
    /// The parameters of the run.
    pub params: FriParameters<()>,
    /// The proof.
    pub proof: Proof,
}

impl HasCommitment for ClaimOn<usize> {
    ghost commitment_of = { λ batch. batch.commitment };

    fn commitment(&self) -> &Commitment {
        &self.commitment
    }
}

/// An object of the `batches`, the `params` and the `proof`.
impl JsonForm for Input {
    ghost form = { claims_form };

    fn to_json(&self, alloc: Global) -> Result<Value, AllocError> {
        json!(in alloc; {
            "batches": self.batches.to_json(alloc)?,
            "params": self.params.to_json(alloc)?,
            "proof": self.proof.to_json(alloc)?
        })
    }

    fn from_json(alloc: Global, value: &Value) -> Result<Self, JsonError> {
        has_keys(value, &["batches", "params", "proof"])?;
        Ok(Input {
            batches: member(alloc, value, "batches")?,
            params: member(alloc, value, "params")?,
            proof: member(alloc, value, "proof")?,
        })
    }
}

impl Command for Input {
    ghost use Rattle.std.specs.Prelude.{◌≡◌};
    ghost use Rattle.circle_commands.specs.Reasons.{IsVerifyReason};
    ghost use Rattle.circle_commands.specs.Verified.{IsVerified, verified_line};

    ghost form = { claims_form };

    ghost is_result = { λ input line. IsVerified input × (line ≡ verified_line) };

    ghost is_reason = { IsVerifyReason };

    fn read(alloc: Global, value: &Value) -> Result<Input, JsonError> {
        <Input as JsonForm>::from_json(alloc, value)
    }

    /// The line `{"verified":true}`.
    ///
    /// Fails as [`verify`] does.
    fn line(self, alloc: Global) -> Result<String, Failure> {
        verify(alloc, self)?;
        Ok(String::from_str(alloc, VERIFIED)?)
    }
}

impl CommandFrom for Input {
    ghost use Rattle.std.specs.Prelude.{◌≡◌};
    ghost use Rattle.circle_commands.specs.Reasons.{IsVerifyReasonFrom};
    ghost use Rattle.circle_commands.specs.Verified.{IsVerifiedFrom, verified_line};

    ghost is_result_from = { λ input old new line.
        IsVerifiedFrom input old new × (line ≡ verified_line) };

    ghost is_reason_from = { IsVerifyReasonFrom };

    /// The line `{"verified":true}`.
    ///
    /// Fails as [`verify_from`] does.
    fn line_from(self, alloc: Global, challenger: &mut Challenger) -> Result<String, Failure> {
        verify_from(alloc, self, challenger)?;
        Ok(String::from_str(alloc, VERIFIED)?)
    }
}

/// Verifies the input's proof of its claims, from the challenger that has absorbed the commitments
/// alone, in order.
///
/// Fails as [`CirclePcs::verify`] does, and of a proof that is verified only when out of memory.
pub fn verify(alloc: Global, input: Input) -> Result<(), Refusal>
    ensures accepted { OnOk result (IsVerified input) }
    ensures complete { IfErr result (λ e. IsVerified input → e ≡ Memory) }
    ensures reason { IfErr result (λ e. (e ≡ Memory) ⊎ IsUnverified input e) }
{
    let mut challenger = Challenger::new();
    observe_commitments(&mut challenger, &input.batches);
    verify_from(alloc, input, &mut challenger)
}

/// Verifies the input's proof of its claims, from the caller's challenger, and leaves it as the
/// prover's challenger was left. The caller has it absorb the commitments, and what else the prover
/// did; this call absorbs nothing before the proof.
///
/// Fails as [`CirclePcs::verify`] does, which says how the challenger is left then, and of a proof
/// that is verified only when out of memory.
pub fn verify_from(alloc: Global, input: Input, challenger: &mut Challenger) -> Result<(), Refusal>
    ensures accepted { OnOk result
        (IsVerifiedFrom input (state_of challenger.old) (state_of challenger.new)) }
    ensures complete { IfErr result (λ e. (left : List ℕ)
        → IsVerifiedFrom input (state_of challenger.old) left → e ≡ Memory) }
    ensures reason { let s = state_of in IfErr result
        (λ e. (e ≡ Memory) ⊎ IsUnverifiedFrom input (s challenger.old) (s challenger.new) e) }
{
    let Input {
        batches,
        params,
        proof,
    } = input;
    let scheme = Scheme::new(ValMmcs::new(), params.with_mmcs(ChallengeMmcs::new()));
    scheme.verify(alloc, placed(alloc, batches)?, &proof, challenger)
}

// The claims about domains of these sizes; only their sizes count.
fn placed(alloc: Global, batches: Vec<ClaimOn<usize>>) -> Result<Vec<Claim>, AllocError>
    ensures { IfOk result (λ claims. batch_claims claims.items ≡ batches_told batches.items) }
{
    let mut claims = Vec::with_capacity(alloc, batches.len())?;
    for batch in batches {
        claims.push(placed_batch(alloc, batch)?)?;
    }
    Ok(claims)
}

// The claims about one batch.
fn placed_batch(alloc: Global, batch: ClaimOn<usize>) -> Result<Claim, AllocError>
    ensures { IfOk result (λ claim. batch_claim claim ≡ batch_told batch) }
{
    let mut matrices = Vec::with_capacity(alloc, batch.matrices.len())?;
    for matrix in batch.matrices {
        matrices.push(MatrixOpening {
            domain: CircleDomain::new(matrix.domain, Point::ZERO),
            points: matrix.points,
        })?;
    }
    Ok(CommitmentOpening {
        commitment: batch.commitment,
        matrices,
    })
}
