//! The command `check`: whether the rows of a trace satisfy an AIR.
ghost use Rattle.std.specs.Prelude.{◌≡◌, ◌≤◌, ◌⊎◌, ◌↔◌, All, IfErr, IfOk, IsTrue, MatchResult};
ghost use Rattle.std.specs.Prelude.{OnOk, length, vec_len};
ghost use Rattle.serde_json.specs.View.{view};
ghost use Rattle.circle_air.specs.Air.{air_of};
ghost use Rattle.circle_commands.specs.Rows.{lists, row_length};
ghost use Rattle.circle_json.specs.Objects.{HasKeys, RefusesKeys, keys_of};
ghost use Rattle.stark_commands.specs.Check.{IsFitting, IsRefused, IsSatisfied, IsUnsatisfied};
ghost use Rattle.stark_commands.specs.Check.{ReadsParams, RefusesParams, fields_at, params_member};
ghost use Rattle.stark_commands.specs.Named.{check_name};
ghost use Rattle.stark_commands.specs.declared.check.Refusal.TheVariants.{Memory};

use crate::command::Command;
use crate::failure::Failure;
use crate::names::air_name;
use circle_air::{Air, AirError, AirParts, Violation, check_constraints};
use circle_commands::values::{is_rectangular, matrix};
use circle_commit::{FriParameters, is_power_of_two};
use circle_field::Mersenne31;
use circle_json::{JsonError, JsonForm, has_keys, member};
use serde_json::Value;
use std::alloc::{AllocError, Global};

/// The line of rows that satisfy the AIR.
const SATISFIED: &str = "{\"satisfied\":true}\n";

/// The input of the command.
#[derive(Drop)]
pub struct Input {
    /// What the AIR is made of.
    pub air: AirParts<Mersenne31>,
    /// Parameters of a run, which have no effect.
    pub params: Option<FriParameters<()>>,
    /// The public values.
    pub public_values: Vec<Mersenne31>,
    /// The rows of the trace.
    pub rows: Vec<Vec<Mersenne31>>,
}

/// Why the command refuses its input.
#[derive(Clone, Copy, Debug, Drop, PartialEq, Eq)]
pub enum Refusal {
    /// The parts make no AIR.
    Air(AirError),
    /// Rows differ in length, or one is empty.
    RaggedRows,
    /// The number of rows isn't a power of two.
    HeightNotPowerOfTwo,
    /// There are more or fewer public values than the AIR has.
    PublicValuesMismatch,
    /// The rows don't have the AIR's width.
    WidthMismatch,
    /// A periodic column is longer than the trace.
    PeriodTooLong,
    /// A constraint doesn't hold at a row.
    Unsatisfied(Violation),
    /// Memory was refused.
    Memory,
}

impl Refusal {
    /// The refusal's name.
    pub fn name(&self) -> &'static str
        ensures { result.now ≡ check_name self.now }
    {
        match self {
            Refusal::Air(error) => air_name(error),
            Refusal::RaggedRows => "RaggedRows",
            Refusal::HeightNotPowerOfTwo => "HeightNotPowerOfTwo",
            Refusal::PublicValuesMismatch => "PublicValuesMismatch",
            Refusal::WidthMismatch => "WidthMismatch",
            Refusal::PeriodTooLong => "PeriodTooLong",
            Refusal::Unsatisfied(_) => "Unsatisfied",
            Refusal::Memory => "Memory",
        }
    }
}

impl From<AllocError> for Refusal {
    ghost use Rattle.stark_commands.specs.declared.check.Refusal.TheVariants.{Memory};

    ghost from_gives = { λ _ refusal. refusal ≡ Memory };

    fn from(_refused: AllocError) -> Refusal {
        Refusal::Memory
    }
}

/// A refused AIR, but where it is memory that is refused.
impl From<AirError> for Refusal {
    ghost use Rattle.stark_commands.specs.Refused.{IsRefusalOfAir};
    ghost use Rattle.stark_commands.specs.declared.check.Refusal.TheVariants.{Air, Memory};

    ghost from_gives = { IsRefusalOfAir Air Memory };

    fn from(error: AirError) -> Refusal {
        match error {
            AirError::Memory => Refusal::Memory,
            other => Refusal::Air(other),
        }
    }
}

// Tests that a JSON value is an object with exactly the keys of an input, where that of the
// parameters may be missing.
fn has_input_keys(value: &Value) -> Result<(), JsonError>
    ensures keys { IfOk result (λ _.
        HasKeys (keys_of (fields_at (params_member (view value.now)))) (view value.now)) }
    ensures refuses { IfErr result (λ error.
        RefusesKeys (keys_of (fields_at (params_member (view value.now)))) (view value.now) error) }
{
    if value.get("params").is_none() {
        return has_keys(value, &["air", "public_values", "rows"]);
    }
    has_keys(value, &["air", "params", "public_values", "rows"])
}

// The parameters, if their key is there.
fn given_params(alloc: Global, value: &Value) -> Result<Option<FriParameters<()>>, JsonError>
    ensures reads { IfOk result (ReadsParams (params_member (view value.now))) }
    ensures refuses { IfErr result (RefusesParams (params_member (view value.now))) }
{
    match value.get("params") {
        Some(params) => Ok(Some(<FriParameters<()> as JsonForm>::from_json(alloc, params)?)),
        None => Ok(None),
    }
}

/// An object of the `air`, the `public_values` and the `rows`; `params` may stand there too.
impl Command for Input {
    ghost use Rattle.std.specs.Prelude.{◌≡◌};
    ghost use Rattle.stark_commands.specs.Check.{IsSatisfied, input_form, satisfied_line};
    ghost use Rattle.stark_commands.specs.Reasons.{IsCheckReason};

    ghost form = { input_form };

    ghost is_result = { λ input line. IsSatisfied input × (line ≡ satisfied_line) };

    ghost is_reason = { IsCheckReason };

    fn read(alloc: Global, value: &Value) -> Result<Input, JsonError> {
        has_input_keys(value)?;
        Ok(Input {
            air: member(alloc, value, "air")?,
            params: given_params(alloc, value)?,
            public_values: member(alloc, value, "public_values")?,
            rows: member(alloc, value, "rows")?,
        })
    }

    /// The line `{"satisfied":true}`.
    ///
    /// Fails as [`check`] does.
    fn line(self, alloc: Global) -> Result<String, Failure> {
        check(alloc, self)?;
        Ok(String::from_str(alloc, SATISFIED)?)
    }
}

/// Checks that the input's rows satisfy its AIR.
///
/// Fails by the first [`Refusal`] that holds, in their order: `Unsatisfied` has the first row at
/// which a constraint doesn't hold, and the first such constraint. `Memory` comes at any time.
pub fn check(alloc: Global, input: Input) -> Result<(), Refusal>
    ensures satisfied { OnOk result (IsSatisfied input) }
    ensures refused { IfErr result (λ e. (e ≡ Memory) ⊎ IsUnsatisfied input e) }
{
    let Input {
        air,
        params: _params,
        public_values,
        rows,
    } = input;
    let air = Air::try_new(alloc, air)?;
    validate_trace(&air, &rows, &public_values)?;
    let matrix = matrix(alloc, &rows)?;
    match check_constraints(alloc, &air, &matrix, &public_values)? {
        None => Ok(()),
        Some(violation) => Err(Refusal::Unsatisfied(violation)),
    }
}

// Refuses a trace that doesn't fit the AIR, for the first reason.
fn validate_trace(
    air: &Air<Mersenne31>,
    rows: &[Vec<Mersenne31>],
    public_values: &[Mersenne31],
) -> Result<(), Refusal>
    ensures { let p = air_of air.now in let rows = lists rows.now in MatchResult result
        (λ _. IsFitting p rows public_values.now) (IsRefused p rows public_values.now) }
{
    if !is_rectangular(rows) {
        return Err(Refusal::RaggedRows);
    }
    if !is_power_of_two(rows.len()) {
        return Err(Refusal::HeightNotPowerOfTwo);
    }
    if public_values.len() != air.num_public_values() {
        return Err(Refusal::PublicValuesMismatch);
    }
    if first_len(rows) != air.width() {
        return Err(Refusal::WidthMismatch);
    }
    if !are_periods_short(air, rows.len()) {
        return Err(Refusal::PeriodTooLong);
    }
    Ok(())
}

// The length of the first row, and 0 where there is none.
fn first_len(rows: &[Vec<Mersenne31>]) -> usize
    ensures { result ≡ row_length (lists rows.now) }
{
    match rows.first() {
        Some(row) => row.len(),
        None => 0,
    }
}

// Whether no periodic column is longer than a trace of so many rows.
fn are_periods_short(air: &Air<Mersenne31>, height: usize) -> bool
    ensures { IsTrue result
        ↔ All (λ column. length column ≤ height) (air_of air.now).periodic_columns }
{
    are_at_most(air.periodic_columns(), height)
}

// Whether no column has more entries.
fn are_at_most(columns: &[Vec<Mersenne31>], count: usize) -> bool
    ensures { IsTrue result ↔ All (λ column. vec_len column ≤ count) columns.now }
{
    columns.iter().all(|column| column.len() <= count)
}
