//! Batches' openings, claims and parameters, read from JSON and written as JSON.
ghost use Rattle.std.specs.Prelude.{◌≡◌, IfErr, IfOk};
ghost use Rattle.serde_json.specs.View.{view};
ghost use Rattle.circle_json.specs.ObjectForm.{object_form};
ghost use Rattle.circle_json.specs.Objects.{HasKeys, RefusesKeys, keys_of, object_written};
ghost use Rattle.circle_json.specs.Claims.{ReadsLength, RefusesLength, batch_fields, fields_at};
ghost use Rattle.circle_json.specs.Claims.{length_member, matrix_fields, opening_fields};
ghost use Rattle.circle_json.specs.Claims.{parameters_form, point_fields, short_fields};
ghost use Rattle.circle_json.specs.Claims.{whole_fields};

use crate::error::JsonError;
use crate::form::JsonForm;
use crate::object::{has_keys, member, put_member};
use circle_commit::{
    BatchMultiOpening, CommitmentOpening, FriParameters, MatrixOpening, Mmcs, PointOpening,
};
use serde_json::{Map, Value, json};
use std::alloc::{AllocError, Global};

/// An object of the point, under `point`, and the values, under `values`.
impl<Challenge: JsonForm + Drop> JsonForm for PointOpening<Challenge> {
    ghost form = { object_form (point_fields Challenge.form) };

    fn to_json(&self, alloc: Global) -> Result<Value, AllocError> {
        let mut object = Map::new(alloc);
        put_member(alloc, &mut object, "point", &self.point)?;
        put_member(alloc, &mut object, "values", &self.values)?;
        Ok(Value::Object(object))
    }

    fn from_json(alloc: Global, value: &Value) -> Result<Self, JsonError> {
        has_keys(value, &["point", "values"])?;
        Ok(PointOpening {
            point: member(alloc, value, "point")?,
            values: member(alloc, value, "values")?,
        })
    }
}

/// An object of the binary logarithm of the domain's size, under `log_n`, and of the `points`.
impl<Challenge: JsonForm + Drop> JsonForm for MatrixOpening<Challenge, usize> {
    ghost form = { object_form (matrix_fields Challenge.form) };

    fn to_json(&self, alloc: Global) -> Result<Value, AllocError> {
        let mut object = Map::new(alloc);
        put_member(alloc, &mut object, "log_n", &self.domain)?;
        put_member(alloc, &mut object, "points", &self.points)?;
        Ok(Value::Object(object))
    }

    fn from_json(alloc: Global, value: &Value) -> Result<Self, JsonError> {
        has_keys(value, &["log_n", "points"])?;
        Ok(MatrixOpening {
            domain: member(alloc, value, "log_n")?,
            points: member(alloc, value, "points")?,
        })
    }
}

/// An object of the `commitment` and the `matrices`.
impl<Challenge: JsonForm + Drop, Commitment: JsonForm + Drop> JsonForm
    for CommitmentOpening<Challenge, Commitment, usize> {
    ghost form = { object_form (batch_fields Challenge.form Commitment.form) };

    fn to_json(&self, alloc: Global) -> Result<Value, AllocError> {
        let mut object = Map::new(alloc);
        put_member(alloc, &mut object, "commitment", &self.commitment)?;
        put_member(alloc, &mut object, "matrices", &self.matrices)?;
        Ok(Value::Object(object))
    }

    fn from_json(alloc: Global, value: &Value) -> Result<Self, JsonError> {
        has_keys(value, &["commitment", "matrices"])?;
        Ok(CommitmentOpening {
            commitment: member(alloc, value, "commitment")?,
            matrices: member(alloc, value, "matrices")?,
        })
    }
}

/// An object of the `opened_values` and the `opening_proof`.
impl<T: Copy + JsonForm + Drop, M: Mmcs<T>> JsonForm for BatchMultiOpening<T, M>
where
    M::MultiProof: JsonForm,
{
    ghost form = { object_form (opening_fields T.form M.MultiProof.form) };

    fn to_json(&self, alloc: Global) -> Result<Value, AllocError> {
        let mut object = Map::new(alloc);
        put_member(alloc, &mut object, "opened_values", &self.opened_values)?;
        put_member(alloc, &mut object, "opening_proof", &self.opening_proof)?;
        Ok(Value::Object(object))
    }

    fn from_json(alloc: Global, value: &Value) -> Result<Self, JsonError> {
        has_keys(value, &["opened_values", "opening_proof"])?;
        Ok(BatchMultiOpening {
            opened_values: member(alloc, value, "opened_values")?,
            opening_proof: member(alloc, value, "opening_proof")?,
        })
    }
}

// The object of the parameters without the final polynomial's length.
fn short_object(parameters: &FriParameters<()>, alloc: Global) -> Result<Value, AllocError>
    ensures { IfOk result (λ value. view value ≡ object_written short_fields parameters.now) }
{
    json!(in alloc; {
        "batch_pow_bits": parameters.batch_proof_of_work_bits,
        "commit_pow_bits": parameters.commit_proof_of_work_bits,
        "log_blowup": parameters.log_blowup,
        "max_log_arity": parameters.max_log_arity,
        "num_queries": parameters.num_queries,
        "query_pow_bits": parameters.query_proof_of_work_bits
    })
}

// The object of the parameters with the final polynomial's length.
fn whole_object(parameters: &FriParameters<()>, alloc: Global) -> Result<Value, AllocError>
    ensures { IfOk result (λ value. view value ≡ object_written whole_fields parameters.now) }
{
    json!(in alloc; {
        "batch_pow_bits": parameters.batch_proof_of_work_bits,
        "commit_pow_bits": parameters.commit_proof_of_work_bits,
        "log_blowup": parameters.log_blowup,
        "log_final_poly_len": parameters.log_final_poly_len,
        "max_log_arity": parameters.max_log_arity,
        "num_queries": parameters.num_queries,
        "query_pow_bits": parameters.query_proof_of_work_bits
    })
}

// Tests that a JSON value is an object with exactly the keys of parameters, where that of the final
// polynomial's length may be missing.
fn has_parameter_keys(value: &Value) -> Result<(), JsonError>
    ensures keys { IfOk result (λ _.
        HasKeys (keys_of (fields_at (length_member (view value.now)))) (view value.now)) }
    ensures refuses { IfErr result (λ error.
        RefusesKeys (keys_of (fields_at (length_member (view value.now)))) (view value.now) error) }
{
    if value.get("log_final_poly_len").is_none() {
        return has_keys(
            value,
            &[
                "batch_pow_bits",
                "commit_pow_bits",
                "log_blowup",
                "max_log_arity",
                "num_queries",
                "query_pow_bits",
            ],
        );
    }
    has_keys(
        value,
        &[
            "batch_pow_bits",
            "commit_pow_bits",
            "log_blowup",
            "log_final_poly_len",
            "max_log_arity",
            "num_queries",
            "query_pow_bits",
        ],
    )
}

// The final polynomial's length, which is 0 where its key is missing.
fn final_length(alloc: Global, value: &Value) -> Result<usize, JsonError>
    ensures reads { IfOk result (ReadsLength (length_member (view value.now))) }
    ensures refuses { IfErr result (RefusesLength (length_member (view value.now))) }
{
    match value.get("log_final_poly_len") {
        Some(length) => usize::from_json(alloc, length),
        None => Ok(0),
    }
}

/// An object of the seven numbers, each under its name, where the bits of proof of work are short
/// for its difficulty.
///
/// `log_final_poly_len` may be missing, which means 0, and is written only where it isn't 0.
impl JsonForm for FriParameters<()> {
    ghost form = { parameters_form };

    fn to_json(&self, alloc: Global) -> Result<Value, AllocError> {
        if self.log_final_poly_len == 0 {
            return short_object(self, alloc);
        }
        whole_object(self, alloc)
    }

    fn from_json(alloc: Global, value: &Value) -> Result<Self, JsonError> {
        has_parameter_keys(value)?;
        Ok(FriParameters {
            log_blowup: member(alloc, value, "log_blowup")?,
            log_final_poly_len: final_length(alloc, value)?,
            max_log_arity: member(alloc, value, "max_log_arity")?,
            num_queries: member(alloc, value, "num_queries")?,
            batch_proof_of_work_bits: member(alloc, value, "batch_pow_bits")?,
            commit_proof_of_work_bits: member(alloc, value, "commit_pow_bits")?,
            query_proof_of_work_bits: member(alloc, value, "query_pow_bits")?,
            mmcs: (),
        })
    }
}
