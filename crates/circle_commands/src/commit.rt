//! The command `commit`: commitments to the batches of an input of `prove`.

ghost use Rattle.std.specs.Prelude.{◌≡◌, ◌⊎◌, IfErr, IfOk, MatchResult};
ghost use Rattle.serde_json.specs.View.{view};
ghost use Rattle.circle_commands.specs.Commit.{commitments_written};
ghost use Rattle.circle_commands.specs.Proved.{AreCommitments};
ghost use Rattle.circle_commands.specs.Reasons.{IsCommitReason, IsProverRefusal};
ghost use Rattle.circle_commands.specs.Traces.{AreTall, IsRefusalOfBatches};

use crate::command::Command;
use crate::failure::Failure;
use crate::json;
use crate::prove::{self, CommittedInput, Refusal};
use circle_json::{JsonError, JsonForm};
use circle_presets::Commitment;
use serde_json::{Value, json};
use std::alloc::{AllocError, Global};

/// The input of the command.
#[derive(Drop)]
pub struct Input {
    /// The input of `prove` whose batches are committed to.
    pub statement: prove::Input,
}

/// An input of `prove`.
impl Command for Input {
    ghost use Rattle.circle_commands.specs.Commit.{IsCommitLine, commit_form};
    ghost use Rattle.circle_commands.specs.Reasons.{IsCommitReason};

    ghost form = { commit_form };

    ghost is_result = { λ input. IsCommitLine input.statement };

    ghost is_reason = { λ input. IsCommitReason input.statement };

    fn read(alloc: Global, value: &Value) -> Result<Input, JsonError> {
        Ok(Input {
            statement: prove::Input::from_json(alloc, value)?,
        })
    }

    /// The line of the commitments.
    ///
    /// Fails as [`commit`] does.
    fn line(self, alloc: Global) -> Result<String, Failure> {
        let commitments = commit(alloc, &self.statement)?;
        Ok(json::line(alloc, &shown(alloc, &commitments)?)?)
    }
}

/// The commitments to the batches, in order, which the claims of [`prove::prove_from`] are about.
/// The points of the matrices count for nothing.
///
/// Fails as [`prove::prove`] does before it opens: of the rows, and then as [`CirclePcs::commit`]
/// does of the first batch that it refuses. So it returns none of the refusals of an opening:
/// `UnfitParameters`, `NoCommittedMatrices` of an input without a batch, `PointOnDomain` and
/// `NoGrindingWitness`.
pub fn commit(alloc: Global, input: &prove::Input) -> Result<Vec<Commitment>, Refusal>
    ensures rows { let f = input.now.params.log_final_poly_len in let bs = input.now.batches.items
        in MatchResult result (λ _. AreTall f bs) (λ e. IsRefusalOfBatches f bs e ⊎ AreTall f bs) }
    ensures commitments { IfOk result (λ v. AreCommitments input.now v.items) }
    ensures reason { IfErr result (IsProverRefusal (IsCommitReason input.now)) }
{
    let committed = CommittedInput::new(alloc, input)?;
    Ok(committed.commitments(alloc)?)
}

// The object of the commitments.
fn shown(alloc: Global, commitments: &Vec<Commitment>) -> Result<Value, AllocError>
    ensures { IfOk result (λ value. view value ≡ commitments_written commitments.now.items) }
{
    json!(in alloc; {"commitments": commitments.to_json(alloc)?})
}
