//! The command `values`: the values of polynomials at the points of a domain of the circle.
ghost use Rattle.std.specs.Prelude.{◌≡◌, ◌<◌, ◌↔◌, length, All, IsTrue, IfOk, IfErr, IsErrOf};
ghost use Rattle.std.specs.Prelude.{vec_len};
ghost use Rattle.circle_field.specs.Circle.{IsOnCircle, at};
ghost use Rattle.circle_field.specs.Mersenne31.{operations};
ghost use Rattle.serde_json.specs.View.{view};
ghost use Rattle.circle_commit.specs.RowMajorMatrix.{rows as matrix_rows, width_of, height_of};
ghost use Rattle.circle_plane.specs.CfftView.{seen_rows};
ghost use Rattle.circle_commands.specs.Json.{rows_written};
ghost use Rattle.circle_commands.specs.Named.{values_name};
ghost use Rattle.circle_commands.specs.Rows.{lists, IsRectangular, row_length};
ghost use Rattle.circle_commands.specs.Input.{HasFittingHeight, HasFittingSize, HasPoint};
ghost use Rattle.circle_commands.specs.Input.{HasRectangle, IsFittingHeight, values_of};

use crate::command::Command;
use crate::failure::Failure;
use crate::json;
use circle_commit::{Matrix, RowMajorMatrix, is_power_of_two};
use circle_field::{Field, Mersenne31};
use circle_json::{JsonError, JsonForm, has_keys, member};
use circle_plane::{CfftView, CircleDomain, CircleEvaluations, Point};
use serde_json::{Value, json};
use std::alloc::{AllocError, Global};

/// The binary logarithm of the largest domain.
const MAX_LOG_N: usize = 24;

/// The values of a matrix of polynomials, a row for each point.
type Values = CfftView<RowMajorMatrix<Mersenne31>>;

/// The input of the command.
#[derive(Drop)]
pub struct Input {
    /// The rows of the matrix whose columns are the coefficients in the circle basis.
    pub coefficients: Vec<Vec<Mersenne31>>,
    /// The binary logarithm of the number of points.
    pub log_n: usize,
    /// The coordinates of the first point.
    pub shift: (Mersenne31, Mersenne31),
}

/// Why the command refuses its input.
#[derive(Clone, Copy, Debug, Drop, PartialEq, Eq)]
pub enum Refusal {
    /// The domain would have one point.
    DomainTooSmall,
    /// The domain would have more than `2^24` points.
    DomainTooLarge,
    /// The shift isn't a point of the circle.
    NotOnCircle,
    /// Rows differ in length, or one is empty.
    RaggedRows,
    /// The number of rows isn't a power of two, or exceeds the number of points.
    BadHeight,
    /// An allocation was refused.
    Memory,
}

impl Refusal {
    /// The refusal's name.
    pub fn name(&self) -> &'static str
        ensures { result.now ≡ values_name self.now }
    {
        match self {
            Refusal::DomainTooSmall => "DomainTooSmall",
            Refusal::DomainTooLarge => "DomainTooLarge",
            Refusal::NotOnCircle => "NotOnCircle",
            Refusal::RaggedRows => "RaggedRows",
            Refusal::BadHeight => "BadHeight",
            Refusal::Memory => "Memory",
        }
    }
}

impl From<AllocError> for Refusal {
    ghost use Rattle.circle_commands.specs.declared.values.Refusal.TheVariants.{Memory};

    ghost from_gives = { λ _ refusal. refusal ≡ Memory };

    fn from(_refused: AllocError) -> Refusal {
        Refusal::Memory
    }
}

/// An object of the `coefficients`, `log_n` and the `shift`, an array of its two coordinates.
impl Command for Input {
    ghost use Rattle.std.specs.Prelude.{List, ℕ};
    ghost use Rattle.circle_commands.specs.Input.{values_form, values_of};
    ghost use Rattle.circle_commands.specs.Json.{rows_written};
    ghost use Rattle.circle_commands.specs.Reasons.{IsValuesReason};
    ghost use Rattle.circle_commands.specs.Text.{IsJsonLine};

    ghost form = { values_form };

    ghost is_result = { λ input. IsJsonLine (rows_written (values_of input)) };

    ghost is_reason = { IsValuesReason };

    fn read(alloc: Global, value: &Value) -> Result<Input, JsonError> {
        has_keys(value, &["coefficients", "log_n", "shift"])?;
        let shift = json::part(value, "shift")?;
        Ok(Input {
            coefficients: member(alloc, value, "coefficients")?,
            log_n: member(alloc, value, "log_n")?,
            shift: json::pair(alloc, shift)?,
        })
    }

    /// The line `{"rows":[[E..]..]}`, in natural order.
    ///
    /// Fails as [`values_at_points`] does.
    fn line(self, alloc: Global) -> Result<String, Failure> {
        let values = values_at_points(alloc, &self)?;
        Ok(json::line(alloc, &shown(alloc, &values)?)?)
    }
}

/// The values of the polynomials at the points of the domain, in natural order.
///
/// Fails by the first [`Refusal`] that holds, in their order.
pub fn values_at_points(alloc: Global, input: &Input) -> Result<Values, Refusal>
    ensures too_small { IsErrOf result Refusal.DomainTooSmall ↔ (input.now.log_n ≡ 0) }
    ensures too_large { IsErrOf result Refusal.DomainTooLarge ↔ (MAX_LOG_N < input.now.log_n) }
    ensures not_on_circle { IsErrOf result Refusal.NotOnCircle
        ↔ (HasFittingSize input.now × (¬ HasPoint input.now)) }
    ensures ragged { IsErrOf result Refusal.RaggedRows
        ↔ (HasFittingSize input.now × HasPoint input.now × (¬ HasRectangle input.now)) }
    ensures bad_height { IsErrOf result Refusal.BadHeight ↔ (HasFittingSize input.now
        × HasPoint input.now × HasRectangle input.now × (¬ HasFittingHeight input.now)) }
    ensures rows { IfOk result (λ values. seen_rows matrix_rows values ≡ values_of input.now) }
{
    if input.log_n == 0 {
        return Err(Refusal::DomainTooSmall);
    }
    if input.log_n > MAX_LOG_N {
        return Err(Refusal::DomainTooLarge);
    }
    let (x, y) = input.shift;
    if !is_on_circle(x, y) {
        return Err(Refusal::NotOnCircle);
    }
    if !is_rectangular(&input.coefficients) {
        return Err(Refusal::RaggedRows);
    }
    if !is_fitting_height(input.coefficients.len(), input.log_n) {
        return Err(Refusal::BadHeight);
    }
    let domain = CircleDomain::new(input.log_n, Point::new(x, y));
    let coefficients = matrix(alloc, &input.coefficients)?;
    let values = CircleEvaluations::evaluate(alloc, domain, coefficients)?;
    Ok(values.to_natural_order())
}

// Whether `x^2 + y^2 = 1`.
fn is_on_circle(x: Mersenne31, y: Mersenne31) -> bool
    ensures { IsTrue result ↔ IsOnCircle operations (at x y) }
{
    x.square() + y.square() == Mersenne31::ONE
}

/// Whether the rows have one length, which isn't 0.
pub fn is_rectangular(rows: &[Vec<Mersenne31>]) -> bool
    ensures { IsTrue result ↔ IsRectangular (lists rows.now) }
{
    match rows.first() {
        Some(first) => !first.is_empty() && all_have_length(rows, first.len()),
        None => true,
    }
}

// Whether each row has this length.
fn all_have_length(rows: &[Vec<Mersenne31>], len: usize) -> bool
    ensures { IsTrue result ↔ All (λ row. vec_len row ≡ len) rows.now }
{
    rows.iter().all(|row| row.len() == len)
}

// Whether the height is a power of two and at most `2^log_n`.
fn is_fitting_height(height: usize, log_n: usize) -> bool
    requires { log_n < 64 }
    ensures { IsTrue result ↔ IsFittingHeight height log_n }
{
    is_power_of_two(height) && height <= 1 << log_n
}

/// The matrix of these rows.
///
/// Requires rows of one length, at least one. Fails where memory is refused.
pub fn matrix(
    alloc: Global,
    rows: &[Vec<Mersenne31>],
) -> Result<RowMajorMatrix<Mersenne31>, AllocError>
    requires some { 0 < length rows.now }
    requires rectangular { IsRectangular (lists rows.now) }
    ensures content { IfOk result (λ matrix. matrix_rows matrix ≡ lists rows.now) }
    ensures width { IfOk result (λ matrix. width_of matrix ≡ row_length (lists rows.now)) }
    ensures height { IfOk result (λ matrix. height_of matrix ≡ length rows.now) }
{
    let width = rows[0].len();
    let mut entries = Vec::new(alloc);
    for row in rows {
        entries.extend_from_slice(row)?;
    }
    Ok(RowMajorMatrix::new(entries, width))
}

// The object of a matrix's rows.
fn shown<M: Matrix<Mersenne31>>(alloc: Global, values: &M) -> Result<Value, AllocError>
    ensures { IfOk result (λ value. view value ≡ rows_written (M.rows values.now)) }
{
    let mut rows = Vec::with_capacity(alloc, values.height())?;
    for r in 0..values.height() {
        rows.push(Vec::from_slice(alloc, values.row(r))?.to_json(alloc)?)?;
    }
    json!(in alloc; {"rows": Value::from(rows)})
}
