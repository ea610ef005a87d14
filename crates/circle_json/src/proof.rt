//! Proofs, read from JSON and written as JSON.
ghost use Rattle.circle_json.specs.ObjectForm.{object_form};
ghost use Rattle.circle_json.specs.Proof.{fri_fields, input_fields, proof_fields, step_fields};
ghost use Rattle.std.specs.Prelude.{◌≡◌, IfOk, IfErr, codes};
ghost use Rattle.serde_json.specs.Data.{put as with_member};
ghost use Rattle.serde_json.specs.View.{view, members_view};
ghost use Rattle.circle_json.specs.Coefficients.{coefficients_form};
ghost use Rattle.circle_json.specs.Objects.{HasMember, RefusesMember};

use crate::coefficients::{FlatForm, coefficients_from_json, coefficients_to_json};
use crate::error::JsonError;
use crate::form::JsonForm;
use crate::object::{has_keys, member, put_member};
use circle_commit::Mmcs;
use circle_field::Field;
use circle_relation::{
    CircleCommitPhaseMultiStep, CircleFriProof, CircleInputProof, CirclePcsProof,
};
use serde_json::{Map, Value};
use std::alloc::{AllocError, Global};

/// An object of the `opening_proof` and the `sibling_values`.
impl<F: Field + JsonForm + Drop, M: Mmcs<F>> JsonForm for CircleCommitPhaseMultiStep<F, M>
where
    M::MultiProof: JsonForm,
{
    ghost form = { object_form (step_fields F.JsonForm.form M.MultiProof.form) };

    fn to_json(&self, alloc: Global) -> Result<Value, AllocError> {
        let mut object = Map::new(alloc);
        put_member(alloc, &mut object, "opening_proof", &self.opening_proof)?;
        put_member(alloc, &mut object, "sibling_values", &self.sibling_values)?;
        Ok(Value::Object(object))
    }

    fn from_json(alloc: Global, value: &Value) -> Result<Self, JsonError> {
        has_keys(value, &["opening_proof", "sibling_values"])?;
        Ok(CircleCommitPhaseMultiStep {
            opening_proof: member(alloc, value, "opening_proof")?,
            sibling_values: member(alloc, value, "sibling_values")?,
        })
    }
}

/// An object of the parts, each under its name.
impl<
    Val: Field + JsonForm + Drop,
    Challenge: Field + JsonForm + Drop,
    InputMmcs: Mmcs<Val>,
    FriMmcs: Mmcs<Challenge>,
> JsonForm for CircleInputProof<Val, Challenge, InputMmcs, FriMmcs>
where
    InputMmcs::MultiProof: JsonForm,
    FriMmcs::MultiProof: JsonForm,
{
    ghost form = { object_form (input_fields Val.JsonForm.form Challenge.JsonForm.form
        InputMmcs.MultiProof.form FriMmcs.MultiProof.form) };

    fn to_json(&self, alloc: Global) -> Result<Value, AllocError> {
        let mut object = Map::new(alloc);
        put_member(
            alloc,
            &mut object,
            "first_layer_proof",
            &self.first_layer_proof,
        )?;
        put_member(
            alloc,
            &mut object,
            "first_layer_siblings",
            &self.first_layer_siblings,
        )?;
        put_member(alloc, &mut object, "input_openings", &self.input_openings)?;
        Ok(Value::Object(object))
    }

    fn from_json(alloc: Global, value: &Value) -> Result<Self, JsonError> {
        has_keys(
            value,
            &[
                "first_layer_proof",
                "first_layer_siblings",
                "input_openings",
            ],
        )?;
        Ok(CircleInputProof {
            input_openings: member(alloc, value, "input_openings")?,
            first_layer_siblings: member(alloc, value, "first_layer_siblings")?,
            first_layer_proof: member(alloc, value, "first_layer_proof")?,
        })
    }
}

// The coefficients that the member `final_poly` of an object stands for.
fn final_poly<F: FlatForm + Drop>(alloc: Global, object: &Value) -> Result<Vec<F>, JsonError>
    ensures reads { IfOk result (λ read. HasMember (codes "final_poly") (view object.now)
        (λ value. (coefficients_form F.JsonForm.form).reads value read)) }
    ensures refuses { IfErr result (λ error. RefusesMember (codes "final_poly")
        (coefficients_form F.JsonForm.form).refuses (view object.now) error) }
{
    let value = object.get("final_poly").ok_or(JsonError::MissingKey)?;
    coefficients_from_json(alloc, value)
}

// Gives an object the member `final_poly` that is the form of these coefficients.
fn put_final_poly<F: FlatForm>(
    alloc: Global,
    object: &mut Map<String, Value>,
    coefficients: &Vec<F>,
) -> Result<(), AllocError>
    ensures member { IfOk result (λ _. members_view object.new.entries
        ≡ with_member (codes "final_poly")
        ((coefficients_form F.JsonForm.form).written coefficients.now)
        (members_view object.old.entries)) }
    ensures reads { IfOk result (λ _. let form = coefficients_form F.JsonForm.form in
        form.reads (form.written coefficients.now) coefficients.now) }
{
    serde_json::put(
        object,
        alloc,
        "final_poly",
        coefficients_to_json(alloc, coefficients)?,
    )
}

/// An object of the parts, each under its name; a final polynomial of one coefficient is that
/// coefficient.
impl<
    F: Field + FlatForm + Drop,
    M: Mmcs<F>,
    Witness: JsonForm + Drop,
    InputProof: JsonForm + Drop,
> JsonForm for CircleFriProof<F, M, Witness, InputProof>
where
    M::Commitment: JsonForm,
    M::MultiProof: JsonForm,
{
    ghost form = { object_form (fri_fields F.JsonForm.form Witness.form InputProof.form
        M.Commitment.form M.MultiProof.form) };

    fn to_json(&self, alloc: Global) -> Result<Value, AllocError> {
        let mut object = Map::new(alloc);
        put_member(
            alloc,
            &mut object,
            "commit_phase_commits",
            &self.commit_phase_commits,
        )?;
        put_member(
            alloc,
            &mut object,
            "commit_phase_openings",
            &self.commit_phase_openings,
        )?;
        put_member(
            alloc,
            &mut object,
            "commit_pow_witnesses",
            &self.commit_pow_witnesses,
        )?;
        put_final_poly(alloc, &mut object, &self.final_poly)?;
        put_member(alloc, &mut object, "input_openings", &self.input_openings)?;
        put_member(alloc, &mut object, "pow_witness", &self.pow_witness)?;
        Ok(Value::Object(object))
    }

    fn from_json(alloc: Global, value: &Value) -> Result<Self, JsonError> {
        has_keys(
            value,
            &[
                "commit_phase_commits",
                "commit_phase_openings",
                "commit_pow_witnesses",
                "final_poly",
                "input_openings",
                "pow_witness",
            ],
        )?;
        Ok(CircleFriProof {
            commit_phase_commits: member(alloc, value, "commit_phase_commits")?,
            commit_pow_witnesses: member(alloc, value, "commit_pow_witnesses")?,
            input_openings: member(alloc, value, "input_openings")?,
            commit_phase_openings: member(alloc, value, "commit_phase_openings")?,
            final_poly: final_poly(alloc, value)?,
            pow_witness: member(alloc, value, "pow_witness")?,
        })
    }
}

/// An object of the parts, each under its name.
impl<
    Val: Field + JsonForm + Drop,
    Challenge: Field + FlatForm + Drop,
    InputMmcs: Mmcs<Val>,
    FriMmcs: Mmcs<Challenge>,
    Witness: JsonForm + Drop,
> JsonForm for CirclePcsProof<Val, Challenge, InputMmcs, FriMmcs, Witness>
where
    InputMmcs::MultiProof: JsonForm,
    FriMmcs::Commitment: JsonForm,
    FriMmcs::MultiProof: JsonForm,
{
    ghost form = { object_form (proof_fields Val.JsonForm.form Challenge.JsonForm.form Witness.form
        InputMmcs.MultiProof.form FriMmcs.Commitment.form FriMmcs.MultiProof.form) };

    fn to_json(&self, alloc: Global) -> Result<Value, AllocError> {
        let mut object = Map::new(alloc);
        put_member(
            alloc,
            &mut object,
            "batch_pow_witness",
            &self.batch_pow_witness,
        )?;
        put_member(
            alloc,
            &mut object,
            "first_layer_commitment",
            &self.first_layer_commitment,
        )?;
        put_member(alloc, &mut object, "fri_proof", &self.fri_proof)?;
        put_member(alloc, &mut object, "lambdas", &self.lambdas)?;
        Ok(Value::Object(object))
    }

    fn from_json(alloc: Global, value: &Value) -> Result<Self, JsonError> {
        has_keys(
            value,
            &[
                "batch_pow_witness",
                "first_layer_commitment",
                "fri_proof",
                "lambdas",
            ],
        )?;
        Ok(CirclePcsProof {
            batch_pow_witness: member(alloc, value, "batch_pow_witness")?,
            first_layer_commitment: member(alloc, value, "first_layer_commitment")?,
            lambdas: member(alloc, value, "lambdas")?,
            fri_proof: member(alloc, value, "fri_proof")?,
        })
    }
}
