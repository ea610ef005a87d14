//! The command `prove`: a proof that rows of a trace satisfy an AIR.
ghost use Rattle.std.specs.Prelude.{◌≡◌, ◌⊎◌, ◌↔◌, IfErr, IfOk, IsTrue, MatchResult, string_bytes};
ghost use Rattle.circle_air.specs.Air.{air_of};
ghost use Rattle.circle_challenger.specs.Sha256Challenger.{state_of};
ghost use Rattle.circle_air.specs.Parts.{parts_of};
ghost use Rattle.circle_commands.specs.Rows.{lists};
ghost use Rattle.circle_commands.specs.Text.{IsLineOf};
ghost use Rattle.stark_commands.specs.Named.{prove_name};
ghost use Rattle.stark_commands.specs.Prove.{statement_form};
ghost use Rattle.stark_commands.specs.Proved.{AreFittingRows, IsFitting, IsProved, IsProvedFrom};
ghost use Rattle.stark_commands.specs.Proved.{IsRefusalOfRows, IsTooLarge, IsUnproved};
ghost use Rattle.stark_commands.specs.Proved.{IsUnprovedFrom};
ghost use Rattle.stark_commands.specs.Verify.{claim_form};
ghost use Rattle.stark_commands.specs.declared.prove.Refusal.TheVariants.{Memory};

use crate::command::{Command, CommandFrom};
use crate::failure::Failure;
use crate::names::{air_name, prover_name};
use crate::verify;
use circle_air::{Air, AirError, AirParts};
use circle_commands::json::line;
use circle_commands::values::{is_rectangular, matrix};
use circle_commit::{FriParameters, is_power_of_two, log2_strict};
use circle_json::{JsonError, JsonForm, has_keys, member};
use circle_presets::{ChallengeMmcs, Challenger, Scheme, Val, ValMmcs};
use circle_stark::{StarkProverError, StarkTrace};
use serde_json::Value;
use std::alloc::{AllocError, Global};

/// The binary logarithm of the greatest number of rows.
const MAX_LOG_HEIGHT: usize = 24;

/// The binary logarithm of the greatest number of chunks of the quotient.
const MAX_LOG_CHUNKS: usize = 10;

/// The binary logarithm of the greatest number of points of the extension and of the quotient.
const MAX_LOG_POINTS: usize = 26;

/// The input of the command.
#[derive(Drop)]
pub struct Input {
    /// What the AIR is made of.
    pub air: AirParts<Val>,
    /// The parameters of the run.
    pub params: FriParameters<()>,
    /// The public values.
    pub public_values: Vec<Val>,
    /// The rows of the trace.
    pub rows: Vec<Vec<Val>>,
}

/// Why the command refuses its input.
#[derive(Clone, Copy, Debug, Drop, PartialEq, Eq)]
pub enum Refusal {
    /// The parts make no AIR.
    Air(AirError),
    /// Rows differ in length, or one is empty.
    RaggedRows,
    /// The number of rows isn't a power of two.
    HeightNotPowerOfTwo,
    /// There are more than `2^24` rows, more than `2^10` chunks of the quotient, or more than `2^26`
    /// points of the extension or of the quotient.
    HeightTooLarge,
    /// The prover refuses the rows.
    Prover(StarkProverError),
    /// Memory was refused.
    Memory,
}

impl Refusal {
    /// The refusal's name.
    pub fn name(&self) -> &'static str
        ensures { result.now ≡ prove_name self.now }
    {
        match self {
            Refusal::Air(error) => air_name(error),
            Refusal::RaggedRows => "RaggedRows",
            Refusal::HeightNotPowerOfTwo => "HeightNotPowerOfTwo",
            Refusal::HeightTooLarge => "HeightTooLarge",
            Refusal::Prover(error) => prover_name(error),
            Refusal::Memory => "Memory",
        }
    }
}

impl From<AllocError> for Refusal {
    ghost use Rattle.stark_commands.specs.declared.prove.Refusal.TheVariants.{Memory};

    ghost from_gives = { λ _ refusal. refusal ≡ Memory };

    fn from(_refused: AllocError) -> Refusal {
        Refusal::Memory
    }
}

/// A refused AIR, but where it is memory that is refused.
impl From<AirError> for Refusal {
    ghost use Rattle.stark_commands.specs.Refused.{IsRefusalOfAir};
    ghost use Rattle.stark_commands.specs.declared.prove.Refusal.TheVariants.{Air, Memory};

    ghost from_gives = { IsRefusalOfAir Air Memory };

    fn from(error: AirError) -> Refusal {
        match error {
            AirError::Memory => Refusal::Memory,
            other => Refusal::Air(other),
        }
    }
}

/// Refused rows, but where it is memory that is refused.
impl From<StarkProverError> for Refusal {
    ghost use Rattle.stark_commands.specs.Refused.{IsRefusalOfTrace};
    ghost use Rattle.stark_commands.specs.declared.prove.Refusal.TheVariants.{Memory, Prover};

    ghost from_gives = { IsRefusalOfTrace Prover Memory };

    fn from(error: StarkProverError) -> Refusal {
        match error {
            StarkProverError::Memory => Refusal::Memory,
            other => Refusal::Prover(other),
        }
    }
}

/// An object of the `air`, the `params`, the `public_values` and the `rows`.
impl Command for Input {
    ghost use Rattle.stark_commands.specs.Proved.{IsProofLine};
    ghost use Rattle.stark_commands.specs.Reasons.{IsProveReason};

    ghost form = { statement_form };

    ghost is_result = { IsProofLine };

    ghost is_reason = { IsProveReason };

    fn read(alloc: Global, value: &Value) -> Result<Input, JsonError> {
        has_keys(value, &["air", "params", "public_values", "rows"])?;
        Ok(Input {
            air: member(alloc, value, "air")?,
            params: member(alloc, value, "params")?,
            public_values: member(alloc, value, "public_values")?,
            rows: member(alloc, value, "rows")?,
        })
    }

    /// The line of an input of `verify`, as [`verify::Input`] reads it.
    ///
    /// Fails as [`prove`] does.
    fn line(self, alloc: Global) -> Result<String, Failure> {
        let claim = prove(alloc, self)?;
        Ok(claim_line(alloc, &claim)?)
    }
}

impl CommandFrom for Input {
    ghost use Rattle.stark_commands.specs.Proved.{IsProofLineFrom};
    ghost use Rattle.stark_commands.specs.Reasons.{IsProveReasonFrom};

    ghost is_result_from = { IsProofLineFrom };

    ghost is_reason_from = { IsProveReasonFrom };

    /// The line of an input of `verify`, as [`verify::Input`] reads it.
    ///
    /// Fails as [`prove_from`] does.
    fn line_from(self, alloc: Global, challenger: &mut Challenger) -> Result<String, Failure> {
        let claim = prove_from(alloc, self, challenger)?;
        Ok(claim_line(alloc, &claim)?)
    }
}

// The compact text of a claim, as a line.
fn claim_line(alloc: Global, claim: &verify::Input) -> Result<String, AllocError>
    ensures { IfOk result (λ text. IsLineOf claim_form claim.now (string_bytes text)) }
{
    line(alloc, &claim.to_json(alloc)?)
}

/// Proves that the input's rows satisfy its AIR, from a challenger that has absorbed nothing.
///
/// Fails by the first [`Refusal`] that holds, in their order, where `Prover` is what
/// [`circle_stark::prove`] returns. [`verify::verify`] accepts the result.
pub fn prove(alloc: Global, input: Input) -> Result<verify::Input, Refusal>
    ensures proved { IfOk result (IsProved input) }
    ensures refused { IfErr result (λ e. (e ≡ Memory) ⊎ IsUnproved input e) }
{
    let mut challenger = Challenger::new();
    prove_from(alloc, input, &mut challenger)
}

/// Proves that the input's rows satisfy its AIR, from the caller's challenger, which it leaves as
/// [`verify::verify_from`] leaves that of the verifier. The caller has the challenger absorb what
/// is to bind the proof, as a name.
///
/// Fails as [`prove`] does: of the AIR and of the rows with the challenger as it was, and else as
/// [`circle_stark::prove`] leaves it. [`verify::verify_from`] accepts the result from the same
/// state.
pub fn prove_from(
    alloc: Global,
    input: Input,
    challenger: &mut Challenger,
) -> Result<verify::Input, Refusal>
    ensures proved { IfOk result (λ claim.
        IsProvedFrom input claim (state_of challenger.old) (state_of challenger.new)) }
    ensures refused { let s = state_of in IfErr result
        (λ e. (e ≡ Memory) ⊎ IsUnprovedFrom input (s challenger.old) (s challenger.new) e) }
    ensures kept { IfErr result (λ e. (¬ IsFitting input) → challenger.new ≡ challenger.old) }
{
    let Input {
        air,
        params,
        public_values,
        rows,
    } = input;
    let air = Air::try_new(alloc, air)?;
    let log_n = validate_rows(params.log_blowup, air.log_num_quotient_chunks(), &rows)?;
    let scheme = Scheme::new(ValMmcs::new(), params.with_mmcs(ChallengeMmcs::new()));
    let trace = StarkTrace {
        air: &air,
        rows: matrix(alloc, &rows)?,
        public_values: &public_values,
    };
    let proof = circle_stark::prove(alloc, &scheme, trace, challenger)?;
    Ok(verify::Input {
        air: parts(alloc, &air)?,
        log_n,
        params,
        proof,
        public_values,
    })
}

// The binary logarithm of the number of rows, of an AIR whose quotient has `2^log_chunks` chunks,
// unless there is a reason to refuse them: then the first.
fn validate_rows(log_blowup: usize, log_chunks: usize, rows: &[Vec<Val>]) -> Result<usize, Refusal>
    ensures { MatchResult result (AreFittingRows log_blowup log_chunks rows.now)
        (IsRefusalOfRows log_blowup log_chunks rows.now) }
{
    if !is_rectangular(rows) {
        return Err(Refusal::RaggedRows);
    }
    if !is_power_of_two(rows.len()) {
        return Err(Refusal::HeightNotPowerOfTwo);
    }
    let log_n = log2_strict(rows.len());
    if is_too_large(log_n, log_blowup, log_chunks) {
        return Err(Refusal::HeightTooLarge);
    }
    Ok(log_n)
}

// Whether `2^log_n` rows are too many to be proved.
fn is_too_large(log_n: usize, log_blowup: usize, log_chunks: usize) -> bool
    ensures { IsTrue result ↔ IsTooLarge log_n log_blowup log_chunks }
{
    log_n > MAX_LOG_HEIGHT
        || log_chunks > MAX_LOG_CHUNKS
        || log_blowup > MAX_LOG_POINTS - log_n
        || log_n + log_chunks > MAX_LOG_POINTS
}

// What an AIR is made of.
fn parts(alloc: Global, air: &Air<Val>) -> Result<AirParts<Val>, AllocError>
    ensures { IfOk result (λ parts. parts_of parts ≡ air_of air.now) }
{
    Ok(AirParts {
        width: air.width(),
        num_public_values: air.num_public_values(),
        periodic_columns: copies(alloc, air.periodic_columns())?,
        nodes: Vec::from_slice(alloc, air.nodes())?,
        constraints: Vec::from_slice(alloc, air.constraints())?,
    })
}

// Copies of the columns.
fn copies(alloc: Global, columns: &[Vec<Val>]) -> Result<Vec<Vec<Val>>, AllocError>
    ensures { IfOk result (λ copies. lists copies.items ≡ lists columns.now) }
{
    let mut copies = Vec::with_capacity(alloc, columns.len())?;
    for column in columns {
        copies.push(Vec::from_slice(alloc, column)?)?;
    }
    Ok(copies)
}
