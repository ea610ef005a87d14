//! The command `verify`: whether a proof shows that rows of a trace satisfy an AIR.
ghost use Rattle.std.specs.Prelude.{◌≡◌, ◌⊎◌, IfErr, IfOk, OnOk, string_bytes};
ghost use Rattle.circle_challenger.specs.Sha256Challenger.{state_of};
ghost use Rattle.stark_commands.specs.Named.{verify_name};
ghost use Rattle.stark_commands.specs.Reasons.{IsVerifyRefusal, IsVerifyRefusalFrom};
ghost use Rattle.stark_commands.specs.Verified.{HasAir, IsAcceptedFrom, IsVerified, IsVerifiedFrom};
ghost use Rattle.stark_commands.specs.Verified.{described, statement_given, verified_line};
ghost use Rattle.stark_commands.specs.Verify.{claim_form};
ghost use Rattle.stark_commands.specs.declared.verify.Refusal.TheVariants.{Memory};

use crate::command::{Command, CommandFrom};
use crate::failure::{Failure, with_number};
use crate::names::{air_name, stark_name};
use circle_air::{Air, AirError, AirParts};
use circle_commit::FriParameters;
use circle_json::{JsonError, JsonForm, has_keys, member, put_member};
use circle_presets::{Challenge, ChallengeMmcs, Challenger, Val, ValMmcs, VerifierError, scheme};
use circle_stark::{StarkError, StarkProof, StarkStatement};
use serde_json::{Map, Value};
use std::alloc::{AllocError, Global};
use std::fmt::InlineText;

/// A proof that rows of a trace satisfy an AIR.
pub type Proof = StarkProof<Val, Challenge, ValMmcs, ChallengeMmcs>;

/// The input of the command.
#[derive(Drop)]
pub struct Input {
    /// What the AIR is made of.
    pub air: AirParts<Val>,
    /// The binary logarithm of the number of rows.
    pub log_n: usize,
    /// The parameters of the run.
    pub params: FriParameters<()>,
    /// The proof.
    pub proof: Proof,
    /// The public values.
    pub public_values: Vec<Val>,
}

/// An object of the `air`, `log_n`, the `params`, the `proof` and the `public_values`.
impl JsonForm for Input {
    ghost form = { claim_form };

    fn to_json(&self, alloc: Global) -> Result<Value, AllocError> {
        let mut object = Map::new(alloc);
        put_member(alloc, &mut object, "air", &self.air)?;
        put_member(alloc, &mut object, "log_n", &self.log_n)?;
        put_member(alloc, &mut object, "params", &self.params)?;
        put_member(alloc, &mut object, "proof", &self.proof)?;
        put_member(alloc, &mut object, "public_values", &self.public_values)?;
        Ok(Value::Object(object))
    }

    fn from_json(alloc: Global, value: &Value) -> Result<Self, JsonError> {
        has_keys(value, &["air", "log_n", "params", "proof", "public_values"])?;
        Ok(Input {
            air: member(alloc, value, "air")?,
            log_n: member(alloc, value, "log_n")?,
            params: member(alloc, value, "params")?,
            proof: member(alloc, value, "proof")?,
            public_values: member(alloc, value, "public_values")?,
        })
    }
}

/// Why the command refuses its input.
#[derive(Debug, Drop)]
pub enum Refusal {
    /// The parts make no AIR.
    Air(AirError),
    /// The verifier refuses the proof.
    Proof(StarkError<VerifierError>),
    /// Memory was refused.
    Memory,
}

impl Refusal {
    /// The refusal's name.
    pub fn name(&self) -> &'static str
        ensures { result.now ≡ verify_name self.now }
    {
        match self {
            Refusal::Air(error) => air_name(error),
            Refusal::Proof(error) => stark_name(error),
            Refusal::Memory => "Memory",
        }
    }
}

/// A refused AIR, but where it is memory that is refused.
impl From<AirError> for Refusal {
    ghost use Rattle.stark_commands.specs.Refused.{IsRefusalOfAir};
    ghost use Rattle.stark_commands.specs.declared.verify.Refusal.TheVariants.{Air, Memory};

    ghost from_gives = { IsRefusalOfAir Air Memory };

    fn from(error: AirError) -> Refusal {
        match error {
            AirError::Memory => Refusal::Memory,
            other => Refusal::Air(other),
        }
    }
}

/// A refused proof, but where it is memory that is refused.
impl From<StarkError<VerifierError>> for Refusal {
    ghost use Rattle.stark_commands.specs.Refused.{IsRefusalOfProof};
    ghost use Rattle.stark_commands.specs.declared.verify.Refusal.TheVariants.{Memory, Proof};

    ghost from_gives = { IsRefusalOfProof Proof Memory };

    fn from(error: StarkError<VerifierError>) -> Refusal {
        match error {
            StarkError::Memory => Refusal::Memory,
            other => Refusal::Proof(other),
        }
    }
}

impl Command for Input {
    ghost use Rattle.std.specs.Prelude.{◌≡◌};
    ghost use Rattle.stark_commands.specs.Reasons.{IsVerifyReason};
    ghost use Rattle.stark_commands.specs.Verified.{IsVerified, described, statement_given};
    ghost use Rattle.stark_commands.specs.Verified.{verified_line};

    ghost form = { claim_form };

    ghost is_result = { λ input line. IsVerified input
        × (line ≡ verified_line (described (statement_given input)).digest input.log_n) };

    ghost is_reason = { IsVerifyReason };

    fn read(alloc: Global, value: &Value) -> Result<Input, JsonError> {
        <Input as JsonForm>::from_json(alloc, value)
    }

    /// The line of the AIR's digest and `log_n`, which ends in `"verified":true}`.
    ///
    /// Fails as [`verify`] does.
    fn line(self, alloc: Global) -> Result<String, Failure> {
        let log_n = self.log_n;
        let digest = verify(alloc, self)?;
        Ok(verified_line(alloc, &digest, log_n)?)
    }
}

impl CommandFrom for Input {
    ghost use Rattle.std.specs.Prelude.{◌≡◌};
    ghost use Rattle.stark_commands.specs.Reasons.{IsVerifyReasonFrom};
    ghost use Rattle.stark_commands.specs.Verified.{IsVerifiedFrom, described, statement_given};
    ghost use Rattle.stark_commands.specs.Verified.{verified_line};

    ghost is_result_from = { λ input old new line. IsVerifiedFrom input old new
        × (line ≡ verified_line (described (statement_given input)).digest input.log_n) };

    ghost is_reason_from = { IsVerifyReasonFrom };

    /// The line of the AIR's digest and `log_n`, which ends in `"verified":true}`.
    ///
    /// Fails as [`verify_from`] does.
    fn line_from(self, alloc: Global, challenger: &mut Challenger) -> Result<String, Failure> {
        let log_n = self.log_n;
        let digest = verify_from(alloc, self, challenger)?;
        Ok(verified_line(alloc, &digest, log_n)?)
    }
}

/// Verifies the input's proof, from a challenger that has absorbed nothing, and returns the AIR's
/// digest.
///
/// Fails as `Air` where the parts make no AIR, and then as [`circle_stark::verify`] does. Of a
/// proof that is verified it fails only when out of memory.
pub fn verify(alloc: Global, input: Input) -> Result<[u8; 32], Refusal>
    ensures accepted { OnOk result (IsVerified input) }
    ensures digest { IfOk result (λ digest. digest ≡ (described (statement_given input)).digest) }
    ensures complete { IfErr result (λ e. IsVerified input → e ≡ Memory) }
    ensures reason { IfErr result (λ e. (e ≡ Memory) ⊎ IsVerifyRefusal input e) }
{
    let mut challenger = Challenger::new();
    verify_from(alloc, input, &mut challenger)
}

/// Verifies the input's proof, from the caller's challenger, which it leaves as the prover's was
/// left, and returns the AIR's digest. The caller has the challenger absorb what the prover's had
/// before.
///
/// Fails as [`verify`] does: as `Air` with the challenger as it was, and else as
/// [`circle_stark::verify`] leaves it.
pub fn verify_from(
    alloc: Global,
    input: Input,
    challenger: &mut Challenger,
) -> Result<[u8; 32], Refusal>
    ensures accepted { OnOk result
        (IsVerifiedFrom input (state_of challenger.old) (state_of challenger.new)) }
    ensures digest { IfOk result (λ digest. digest ≡ (described (statement_given input)).digest) }
    ensures complete { IfErr result
        (λ e. IsAcceptedFrom input (state_of challenger.old) → e ≡ Memory) }
    ensures reason { let s = state_of in IfErr result
        (λ e. (e ≡ Memory) ⊎ IsVerifyRefusalFrom input (s challenger.old) (s challenger.new) e) }
    ensures kept { IfErr result (λ e. (¬ HasAir input) → challenger.new ≡ challenger.old) }
{
    let Input {
        air,
        log_n,
        params,
        proof,
        public_values,
    } = input;
    let air = Air::try_new(alloc, air)?;
    let statement = StarkStatement {
        air: &air,
        log_n,
        public_values: &public_values,
    };
    circle_stark::verify(alloc, &scheme(params), statement, &proof, challenger)?;
    Ok(air.digest())
}

// The line of a proof that is accepted, of an AIR with this digest and of `2^log_n` rows.
fn verified_line(alloc: Global, digest: &[u8; 32], log_n: usize) -> Result<String, AllocError>
    ensures { IfOk result (λ line. string_bytes line ≡ verified_line digest.now log_n) }
{
    let digits = hex::encode(alloc, digest.as_slice())?;
    let number = with_number(InlineText::new(), log_n);
    let mut line = String::from_str(alloc, "{\"air_digest\":\"")?;
    line.push_str(digits.as_str())?;
    line.push_str("\",\"log_n\":")?;
    line.push_str(number.as_str())?;
    line.push_str(",\"verified\":true}\n")?;
    Ok(line)
}
