//! A verifier's own statement, and a proof in a text of its own.
ghost use Rattle.std.specs.Prelude.{◌≡◌, ◌≤◌, IfErr, IfOk};
ghost use Rattle.serde_json.specs.View.{view};
ghost use Rattle.circle_json.specs.Form.{Form};
ghost use Rattle.circle_commands.specs.Answer.{IsNotRead};
ghost use Rattle.circle_commands.specs.Text.{IsTextOf};
ghost use Rattle.stark_commands.specs.Commands.{verify, verify_from};
ghost use Rattle.circle_c.specs.Challenger.{IsReasonFrom};
ghost use Rattle.circle_c.specs.Statement.{AreTextsOf, IsUnread, WritesRefusalOf};
ghost use Rattle.circle_c.specs.Statement.{WritesUnreadText, WritesVerdict, statement_of};

use crate::challenger::CircleChallenger;
use crate::stark_line::report;
use crate::unread::Unread;
use circle_air::AirParts;
use circle_commands::Failure;
use circle_commands::command::value;
use circle_commit::FriParameters;
use circle_json::{JsonError, JsonForm, has_keys, member};
use circle_presets::Val;
use serde_json::Value;
use stark_commands::failure::LINE_LEN;
use stark_commands::verify::{Input, Proof};
use stark_commands::{Command, CommandFrom};
use std::alloc::Global;

/// What a proof is to be of, and under which parameters.
#[derive(Drop)]
pub(crate) struct Statement {
    /// What the AIR is made of.
    air: AirParts<Val>,
    /// The binary logarithm of the number of rows.
    log_n: usize,
    /// The parameters of the run.
    params: FriParameters<()>,
    /// The public values.
    public_values: Vec<Val>,
}

impl Statement {
    // The input of the command `verify` that has this proof.
    fn with_proof(self, proof: Proof) -> Input
        ensures stated { statement_of result ≡ self }
        ensures proved { result.proof ≡ proof }
    {
        Input {
            air: self.air,
            log_n: self.log_n,
            params: self.params,
            proof,
            public_values: self.public_values,
        }
    }
}

/// What one of the two texts stands for.
pub(crate) trait Part: Sized {
    // How such values stand in JSON.
    ghost form: { Form Self };

    /// The value that a JSON value stands for.
    ///
    /// Fails by the [`JsonError`] that says why it stands for none.
    fn read(alloc: Global, value: &Value) -> Result<Self, JsonError>
        ensures reads { IfOk result (form.reads (view value.now)) }
        ensures refuses { IfErr result (form.refuses (view value.now)) };
}

/// An object of the parts, each under its name.
impl Part for Statement {
    ghost use Rattle.circle_c.specs.Statement.{statement_form};

    ghost form = { statement_form };

    fn read(alloc: Global, value: &Value) -> Result<Statement, JsonError> {
        has_keys(value, &["air", "log_n", "params", "public_values"])?;
        Ok(Statement {
            air: member(alloc, value, "air")?,
            log_n: member(alloc, value, "log_n")?,
            params: member(alloc, value, "params")?,
            public_values: member(alloc, value, "public_values")?,
        })
    }
}

impl Part for Proof {
    ghost use Rattle.stark_commands.specs.Forms.{proof_form};

    ghost form = { proof_form };

    fn read(alloc: Global, value: &Value) -> Result<Proof, JsonError> {
        <Proof as JsonForm>::from_json(alloc, value)
    }
}

// What a text stands for.
//
// Fails as `Json` where the text isn't JSON, as `Unfit` where it is JSON that stands for nothing, and
// as `Memory`.
fn read<T: Part>(alloc: Global, text: &[u8]) -> Result<T, Failure>
    ensures reads { IfOk result (IsTextOf T.form text.now) }
    ensures refuses { IfErr result (IsNotRead T.form text.now) }
{
    let value = value(alloc, text)?;
    Ok(T::read(alloc, &value)?)
}

// The input whose statement one text stands for, and whose proof the other does. The statement is
// read first.
fn read_input(alloc: Global, statement: &[u8], proof: &[u8]) -> Result<Input, Unread>
    ensures reads { IfOk result (AreTextsOf statement.now proof.now) }
    ensures refuses { IfErr result (IsUnread statement.now proof.now) }
{
    let stated = match read::<Statement>(alloc, statement) {
        Ok(stated) => stated,
        Err(failure) => return Err(Unread::OfStatement(failure)),
    };
    match read::<Proof>(alloc, proof) {
        Ok(proof) => Ok(stated.with_proof(proof)),
        Err(failure) => Err(Unread::OfProof(failure)),
    }
}

/// Verifies the proof that one text stands for, of the statement that another does, writes the line
/// and returns the status.
pub(crate) fn call_verify(
    alloc: Global,
    statement: &[u8],
    proof: &[u8],
    line: &mut [u8],
    needed: &mut usize,
) -> u8
    ensures status { result ≤ 2 }
    ensures accepted { result ≡ 0 → WritesVerdict statement.now proof.now line.old line.new
        needed.new verify.is_result }
    ensures refused { result ≡ 1 → WritesRefusalOf statement.now proof.now line.old line.new
        needed.new verify.is_reason }
    ensures unreadable { result ≡ 2
        → WritesUnreadText statement.now proof.now line.old line.new needed.new }
    ensures short { ¬ (result ≡ 0) → needed.new ≤ LINE_LEN }
{
    match read_input(alloc, statement, proof) {
        Ok(input) => report(&input.line(alloc), line, needed),
        Err(unread) => unread.refuse(line, needed),
    }
}

/// As [`call_verify`], from the caller's challenger, which is left as the verifier leaves it where
/// the proof is accepted, and else as it was.
pub(crate) fn call_verify_from(
    alloc: Global,
    statement: &[u8],
    proof: &[u8],
    challenger: &mut CircleChallenger,
    line: &mut [u8],
    needed: &mut usize,
) -> u8
    ensures status { result ≤ 2 }
    ensures accepted { result ≡ 0 → WritesVerdict statement.now proof.now line.old line.new
        needed.new (λ i. verify_from.is_result_from i challenger.old.state challenger.new.state) }
    ensures refused { result ≡ 1 → WritesRefusalOf statement.now proof.now line.old line.new
        needed.new (IsReasonFrom verify_from.is_reason_from challenger.old.state) }
    ensures unreadable { result ≡ 2
        → WritesUnreadText statement.now proof.now line.old line.new needed.new }
    ensures short { ¬ (result ≡ 0) → needed.new ≤ LINE_LEN }
    ensures state { ¬ (result ≡ 0) → challenger.new ≡ challenger.old }
{
    let input = match read_input(alloc, statement, proof) {
        Ok(input) => input,
        Err(unread) => return unread.refuse(line, needed),
    };
    let mut own = challenger.to_challenger();
    let status = report(&input.line_from(alloc, &mut own), line, needed);
    challenger.leave_if(status == 0, &own);
    status
}
