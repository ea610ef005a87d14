//! What the commands have in common: the input of each, and the line that it returns.
ghost use Rattle.std.specs.Prelude.{◌≡◌, ℕ, List, IfErr, IfOk, string_bytes};
ghost use Rattle.serde_json.specs.View.{view};
ghost use Rattle.circle_challenger.specs.Sha256Challenger.{state_of};
ghost use Rattle.circle_json.specs.Form.{Form};
ghost use Rattle.circle_commands.specs.Text.{IsTextOf};
ghost use Rattle.stark_commands.specs.Answer.{IsAnswer, IsNotRead};
ghost use Rattle.stark_commands.specs.Failure.{IsRefusedFor};
ghost use Rattle.stark_commands.specs.declared.failure.Reason.{Reason};

use crate::failure::Failure;
use circle_commands::command::value;
use circle_json::JsonError;
use circle_presets::Challenger;
use serde_json::Value;
use std::alloc::Global;

/// The input of a command.
pub trait Command: Sized {
    // How inputs stand in JSON.
    ghost form: { Form Self };

    // The lines that are results of an input.
    ghost is_result: { Self → List ℕ → Type 0 };

    // The reasons for which an input is refused.
    ghost is_reason: { Self → Reason → Type 0 };

    /// The input that a JSON value stands for.
    ///
    /// Fails by the [`JsonError`] that says why it stands for none.
    fn read(alloc: Global, value: &Value) -> Result<Self, JsonError>
        ensures reads { IfOk result (form.reads (view value.now)) }
        ensures refuses { IfErr result (form.refuses (view value.now)) };

    /// The line of the command's result of the input.
    ///
    /// Fails when out of memory, and as `Refused` where there is a reason to refuse the input.
    fn line(self, alloc: Global) -> Result<String, Failure>
        ensures result { IfOk result (λ line. is_result self (string_bytes line)) }
        ensures refused { IfErr result (IsRefusedFor (is_reason self)) };
}

/// The input of a command that can go on from a caller's challenger.
pub trait CommandFrom: Command {
    // The lines that are results of an input from a challenger in the first state, which is left
    // in the second.
    ghost is_result_from: { Self → List ℕ → List ℕ → List ℕ → Type 0 };

    // The reasons for which an input is refused from a challenger in the first state, which is left
    // in the second.
    ghost is_reason_from: { Self → List ℕ → List ℕ → Reason → Type 0 };

    /// The line of the command's result of the input, from the caller's challenger.
    ///
    /// Fails when out of memory, and as `Refused` where there is a reason to refuse the input.
    fn line_from(self, alloc: Global, challenger: &mut Challenger) -> Result<String, Failure>
        ensures result { IfOk result (λ line. is_result_from self (state_of challenger.old)
            (state_of challenger.new) (string_bytes line)) }
        ensures refused { IfErr result (IsRefusedFor (is_reason_from self (state_of challenger.old)
            (state_of challenger.new))) };
}

/// The line of the command's result of the input that a text stands for.
///
/// Fails as [`read`] and then as [`Command::line`] does.
pub fn answer<T: Command>(alloc: Global, text: &[u8]) -> Result<String, Failure>
    ensures { IsAnswer T.form T.is_result T.is_reason text.now result }
{
    let input: T = read(alloc, text)?;
    input.line(alloc)
}

/// The line of the command's result of the input that a text stands for, from the caller's
/// challenger.
///
/// Fails as [`read`], which leaves the challenger as it was, and then as [`CommandFrom::line_from`]
/// does.
pub fn answer_from<T: CommandFrom>(
    alloc: Global,
    text: &[u8],
    challenger: &mut Challenger,
) -> Result<String, Failure>
    ensures { IsAnswer T.form
        (λ input. T.is_result_from input (state_of challenger.old) (state_of challenger.new))
        (λ input. T.is_reason_from input (state_of challenger.old) (state_of challenger.new))
        text.now result }
{
    let input: T = read(alloc, text)?;
    input.line_from(alloc, challenger)
}

/// The input that a text stands for.
///
/// Fails as `Json` where the text isn't JSON, as `Unfit` where it is JSON that stands for no input,
/// and as `Memory`.
#[tactic(auto, using(crate::proofs::Told::not_text_read))]
pub fn read<T: Command>(alloc: Global, text: &[u8]) -> Result<T, Failure>
    ensures reads { IfOk result (IsTextOf T.form text.now) }
    ensures refuses { IfErr result (IsNotRead T.form text.now) }
{
    let value = value(alloc, text)?;
    Ok(T::read(alloc, &value)?)
}
