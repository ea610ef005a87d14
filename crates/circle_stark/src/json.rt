//! Proofs, read from JSON and written as JSON.
ghost use Rattle.circle_json.specs.ObjectForm.{object_form};
ghost use Rattle.circle_stark.specs.Json.{stark_fields, value_fields};

use crate::proof::{StarkOpenedValues, StarkProof};
use circle_commit::Mmcs;
use circle_field::Field;
use circle_json::{FlatForm, JsonError, JsonForm, has_keys, member, put_member};
use serde_json::{Map, Value};
use std::alloc::{AllocError, Global};

/// An object of the parts, each under its name.
impl<EF: JsonForm + Drop> JsonForm for StarkOpenedValues<EF> {
    ghost form = { object_form (value_fields EF.form) };

    fn to_json(&self, alloc: Global) -> Result<Value, AllocError> {
        let mut object = Map::new(alloc);
        put_member(alloc, &mut object, "quotient_chunks", &self.quotient_chunks)?;
        put_member(alloc, &mut object, "trace_local", &self.trace_local)?;
        put_member(alloc, &mut object, "trace_next", &self.trace_next)?;
        Ok(Value::Object(object))
    }

    fn from_json(alloc: Global, value: &Value) -> Result<Self, JsonError> {
        has_keys(value, &["quotient_chunks", "trace_local", "trace_next"])?;
        Ok(StarkOpenedValues {
            trace_local: member(alloc, value, "trace_local")?,
            trace_next: member(alloc, value, "trace_next")?,
            quotient_chunks: member(alloc, value, "quotient_chunks")?,
        })
    }
}

/// An object of the parts, each under its name.
impl<
    Val: Field + JsonForm + Drop,
    EF: Field + FlatForm + Drop,
    InputMmcs: Mmcs<Val>,
    FriMmcs: Mmcs<EF>,
> JsonForm for StarkProof<Val, EF, InputMmcs, FriMmcs>
where
    InputMmcs::Commitment: JsonForm,
    InputMmcs::MultiProof: JsonForm,
    FriMmcs::Commitment: JsonForm,
    FriMmcs::MultiProof: JsonForm,
{
    ghost form = { object_form (stark_fields Val.JsonForm.form EF.JsonForm.form
        InputMmcs.Commitment.form InputMmcs.MultiProof.form FriMmcs.Commitment.form
        FriMmcs.MultiProof.form) };

    fn to_json(&self, alloc: Global) -> Result<Value, AllocError> {
        let mut object = Map::new(alloc);
        put_member(alloc, &mut object, "opened_values", &self.opened_values)?;
        put_member(alloc, &mut object, "opening_proof", &self.opening_proof)?;
        put_member(
            alloc,
            &mut object,
            "quotient_commitment",
            &self.quotient_commitment,
        )?;
        put_member(
            alloc,
            &mut object,
            "trace_commitment",
            &self.trace_commitment,
        )?;
        Ok(Value::Object(object))
    }

    fn from_json(alloc: Global, value: &Value) -> Result<Self, JsonError> {
        has_keys(
            value,
            &[
                "opened_values",
                "opening_proof",
                "quotient_commitment",
                "trace_commitment",
            ],
        )?;
        Ok(StarkProof {
            trace_commitment: member(alloc, value, "trace_commitment")?,
            quotient_commitment: member(alloc, value, "quotient_commitment")?,
            opened_values: member(alloc, value, "opened_values")?,
            opening_proof: member(alloc, value, "opening_proof")?,
        })
    }
}
