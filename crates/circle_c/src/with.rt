//! A command's result for a text by parameters of the caller's own.
ghost use Rattle.std.specs.Prelude.{◌≡◌, ◌≤◌, ⊤, ℕ, IfErr, IfOk, List};
ghost use Rattle.circle_challenger.specs.Sha256Challenger.{state_of};
ghost use Rattle.circle_commit.specs.declared.params.FriParameters.{FriParameters};
ghost use Rattle.circle_commands.specs.Answer.{IsAnswer};
ghost use Rattle.circle_commands.specs.Text.{IsTextOf};
ghost use Rattle.circle_commands.specs.declared.failure.Reason.TheVariants.{ParametersDiffer};
ghost use Rattle.circle_c.specs.Challenger.{IsReasonFrom};
ghost use Rattle.circle_c.specs.Line.{WritesRefusal, WritesResult, WritesUnreadable};
ghost use Rattle.circle_c.specs.Params.{HasNumbersBy};
ghost use Rattle.circle_c.specs.With.{IsNotReadWith, IsReasonWith, IsResultWith};

use crate::challenger::CircleChallenger;
use crate::line::report;
use crate::params::{CircleParams, are_numbers_of};
use circle_commands::command::{CommandFrom, read};
use circle_commands::failure::LINE_LEN;
use circle_commands::{Failure, Reason, verify};
use circle_commit::FriParameters;
use circle_presets::Challenger;
use std::alloc::Global;

/// A command whose input has parameters that a caller may require.
pub(crate) trait Parametrized: CommandFrom {
    // The parameters of an input.
    ghost params_of: { Self → FriParameters ⊤ };

    /// The parameters.
    fn params(&self) -> &FriParameters<()>
        ensures { result.now ≡ params_of self.now };

    // Differing parameters are no reason of the command's own.
    ghost never: { (input : Self) → ¬ Self.is_reason input ParametersDiffer };

    ghost never_from: { (input : Self) → (old new : List ℕ)
        → ¬ Self.is_reason_from input old new ParametersDiffer };
}

impl Parametrized for verify::Input {
    ghost params_of = { λ input. input.params };

    ghost never = { λ input no. no };

    ghost never_from = { λ input old new no. no };

    fn params(&self) -> &FriParameters<()> {
        &self.params
    }
}

/// The input that a text stands for, whose parameters are these.
///
/// Fails as `ParametersDiffer` where it has others, and else as `circle_commands::read` does.
fn read_with<T: Parametrized + Drop>(
    alloc: Global,
    text: &[u8],
    params: &CircleParams,
) -> Result<T, Failure>
    ensures reads { IfOk result (IsTextOf T.form text.now) }
    ensures has { IfOk result (HasNumbersBy T.params_of params.now) }
    ensures refuses { IfErr result (IsNotReadWith (HasNumbersBy T.params_of params.now) T.form
        text.now) }
{
    let input: T = read(alloc, text)?;
    if !are_numbers_of(params, input.params()) {
        return Err(Failure::Refused(Reason::ParametersDiffer));
    }
    Ok(input)
}

/// The line of the command where the text's parameters are these.
///
/// Fails as [`read_with`] and then as [`Command::line`] does.
fn answer_with<T: Parametrized + Drop>(
    alloc: Global,
    text: &[u8],
    params: &CircleParams,
) -> Result<String, Failure>
    ensures { let has = HasNumbersBy T.params_of params.now in IsAnswer T.form
        (IsResultWith has T.is_result) (IsReasonWith has T.is_reason) text.now result }
{
    read_with::<T>(alloc, text, params)?.line(alloc)
}

/// The line of the command from the caller's challenger, where the text's parameters are these.
///
/// Fails as [`read_with`] and then as [`CommandFrom::line_from`] does.
fn answer_with_from<T: Parametrized + Drop>(
    alloc: Global,
    text: &[u8],
    params: &CircleParams,
    challenger: &mut Challenger,
) -> Result<String, Failure>
    ensures { let has = HasNumbersBy T.params_of params.now in IsAnswer T.form (IsResultWith has
        (λ i. T.is_result_from i (state_of challenger.old) (state_of challenger.new)))
        (IsReasonWith has (IsReasonFrom T.is_reason_from (state_of challenger.old)))
        text.now result }
{
    read_with::<T>(alloc, text, params)?.line_from(alloc, challenger)
}

/// Runs the command on a text whose parameters are to be these, writes the line and returns the
/// status.
pub(crate) fn call_with<T: Parametrized + Drop>(
    alloc: Global,
    text: &[u8],
    params: &CircleParams,
    line: &mut [u8],
    needed: &mut usize,
) -> u8
    ensures status { result ≤ 2 }
    ensures result { let has = HasNumbersBy T.params_of params.now in result ≡ 0 →
        WritesResult T.form text.now line.old line.new needed.new (IsResultWith has T.is_result) }
    ensures refused { let has = HasNumbersBy T.params_of params.now in result ≡ 1 →
        WritesRefusal T.form text.now line.old line.new needed.new (IsReasonWith has T.is_reason) }
    ensures unreadable { result ≡ 2
        → WritesUnreadable T.form text.now line.old line.new needed.new }
    ensures short { ¬ (result ≡ 0) → needed.new ≤ LINE_LEN }
{
    report(&answer_with::<T>(alloc, text, params), line, needed)
}

/// Runs the command from the caller's challenger on a text whose parameters are to be these, writes
/// the line and returns the status. The challenger is left as the command leaves it where there is
/// a result, and else as it was.
pub(crate) fn call_with_from<T: Parametrized + Drop>(
    alloc: Global,
    text: &[u8],
    params: &CircleParams,
    challenger: &mut CircleChallenger,
    line: &mut [u8],
    needed: &mut usize,
) -> u8
    ensures status { result ≤ 2 }
    ensures result { let has = HasNumbersBy T.params_of params.now in result ≡ 0 → WritesResult
        T.form text.now line.old line.new needed.new (IsResultWith has
        (λ i. T.is_result_from i challenger.old.state challenger.new.state)) }
    ensures refused { let has = HasNumbersBy T.params_of params.now in result ≡ 1 → WritesRefusal
        T.form text.now line.old line.new needed.new (IsReasonWith has
        (IsReasonFrom T.is_reason_from challenger.old.state)) }
    ensures unreadable { result ≡ 2
        → WritesUnreadable T.form text.now line.old line.new needed.new }
    ensures short { ¬ (result ≡ 0) → needed.new ≤ LINE_LEN }
    ensures state { ¬ (result ≡ 0) → challenger.new ≡ challenger.old }
{
    let mut own = challenger.to_challenger();
    let answer = answer_with_from::<T>(alloc, text, params, &mut own);
    let status = report(&answer, line, needed);
    challenger.leave_if(status == 0, &own);
    status
}
