//! The command `shape`: what fixes the transcript of a run.

ghost use Rattle.std.specs.Prelude.{◌≡◌, ◌≤◌, ◌↔◌, IfOk, IfErr, IsErrOf, string_bytes};
ghost use Rattle.serde_json.specs.View.{view};
ghost use Rattle.circle_transcript.specs.ShapeOf.{shape_of};
ghost use Rattle.circle_commands.specs.Named.{shape_name};
ghost use Rattle.circle_commands.specs.Shape.{HasRoom, degree, shape_object, shape_of_input};
ghost use Rattle.circle_commands.specs.Shape.{shape_written};

use crate::command::Command;
use crate::failure::Failure;
use crate::json;
use circle_commit::FriParameters;
use circle_field::{Cubic, Mersenne31};
use circle_json::{JsonError, has_keys, member};
use circle_transcript::CirclePcsShape;
use serde_json::{Value, json};
use std::alloc::{AllocError, Global};

/// The binary logarithm of a height that is past the group of the circle.
const LOG_HEIGHT_BOUND: usize = 31;

/// The bits of an index besides those that folding uses up.
const EXTRA_INDEX_BITS: usize = 1;

/// The input of the command.
#[derive(Drop)]
pub struct Input {
    /// The binary logarithm of the greatest committed height.
    pub log_max_height: usize,
    /// The number of columns of every claim, by batch, matrix and point.
    pub opened_widths: Vec<Vec<Vec<usize>>>,
    /// The parameters of the run.
    pub params: FriParameters<()>,
}

/// Why the command refuses its input.
#[derive(Clone, Copy, Debug, Drop, PartialEq, Eq)]
pub enum Refusal {
    /// The greatest height leaves no room for the blowup and the final polynomial.
    HeightTooSmall,
    /// The greatest height is past the circle's group.
    HeightTooLarge,
}

impl Refusal {
    /// The refusal's name.
    pub fn name(&self) -> &'static str
        ensures { result.now ≡ shape_name self.now }
    {
        match self {
            Refusal::HeightTooSmall => "HeightTooSmall",
            Refusal::HeightTooLarge => "HeightTooLarge",
        }
    }
}

/// An object of `log_max_height`, the `opened_widths` and the `params`.
impl Command for Input {
    ghost use Rattle.circle_transcript.specs.ShapeOf.{shape_of};
    ghost use Rattle.circle_commands.specs.Reasons.{IsShapeReason};
    ghost use Rattle.circle_commands.specs.Shape.{degree, shape_form, shape_of_input};
    ghost use Rattle.circle_commands.specs.Shape.{shape_written};
    ghost use Rattle.circle_commands.specs.Text.{IsJsonLine};

    ghost form = { shape_form };

    ghost is_result = { λ input.
        IsJsonLine (shape_written degree (shape_of (shape_of_input input))) };

    ghost is_reason = { IsShapeReason };

    fn read(alloc: Global, value: &Value) -> Result<Input, JsonError> {
        has_keys(value, &["log_max_height", "opened_widths", "params"])?;
        Ok(Input {
            log_max_height: member(alloc, value, "log_max_height")?,
            opened_widths: member(alloc, value, "opened_widths")?,
            params: member(alloc, value, "params")?,
        })
    }

    /// The line of the shape's numbers, the number of steps of its transcript, how the claims are
    /// grouped, and the text that the transcript is seeded with.
    ///
    /// Fails as [`shape`] does.
    fn line(self, alloc: Global) -> Result<String, Failure> {
        let shape = shape(self)?;
        Ok(json::line(alloc, &shown(alloc, &shape)?)?)
    }
}

/// The shape of a run with the input's parameters and claims.
///
/// Fails as `HeightTooSmall` unless `log_max_height` exceeds the sum of the blowup's logarithm and
/// that of the final polynomial's length, and then as `HeightTooLarge` from `2^31` rows up.
pub fn shape(input: Input) -> Result<CirclePcsShape, Refusal>
    ensures too_small { IsErrOf result Refusal.HeightTooSmall ↔ (¬ HasRoom input) }
    ensures too_large { IsErrOf result Refusal.HeightTooLarge
        ↔ (HasRoom input × (LOG_HEIGHT_BOUND ≤ input.log_max_height)) }
    ensures shape { IfOk result (λ shape. shape ≡ shape_of_input input) }
    ensures short { IfOk result (λ shape. shape.log_final_poly_len ≤ 63) }
{
    let Input {
        log_max_height,
        opened_widths,
        params,
    } = input;
    match params.log_blowup.checked_add(params.log_final_poly_len) {
        Some(least) if least < log_max_height => {}
        _ => return Err(Refusal::HeightTooSmall),
    }
    if log_max_height >= LOG_HEIGHT_BOUND {
        return Err(Refusal::HeightTooLarge);
    }
    Ok(CirclePcsShape::new(&params, opened_widths, log_max_height, EXTRA_INDEX_BITS))
}

// The object of a shape's numbers and digits.
fn shown(alloc: Global, shape: &CirclePcsShape) -> Result<Value, AllocError>
    requires final_poly { shape.now.log_final_poly_len ≤ 63 }
    ensures { IfOk result (λ value. view value ≡ shape_written degree (shape_of shape.now)) }
{
    let separator = shape.domain_separator::<Mersenne31, Cubic>(alloc)?;
    let layout = hex::encode(alloc, separator.labels()[1].as_slice())?;
    let seed = hex::encode(alloc, separator.text())?;
    let steps = separator.pattern().steps().len();
    object(alloc, shape, layout, seed, steps)
}

// The object of a shape's numbers, the digits of its layout and its seed, and the number of steps.
fn object(
    alloc: Global,
    shape: &CirclePcsShape,
    layout: String,
    seed: String,
    steps: usize,
) -> Result<Value, AllocError>
    ensures { IfOk result (λ value. view value ≡ shape_object shape.now.index_bits
        (string_bytes layout) shape.now.num_commit_rounds (string_bytes seed) steps) }
{
    json!(in alloc; {
        "index_bits": shape.index_bits,
        "layout": layout,
        "num_commit_rounds": shape.num_commit_rounds,
        "seed": seed,
        "steps": steps
    })
}
