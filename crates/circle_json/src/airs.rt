//! AIRs, read from JSON and written as JSON.
ghost use Rattle.std.specs.Prelude.{◌≡◌, IfOk, MatchResult};
ghost use Rattle.serde_json.specs.Data.{member as one_member, no_members, object};
ghost use Rattle.serde_json.specs.View.{view};
ghost use Rattle.circle_json.specs.Airs.{constraint_fields, counts_form, node_form};
ghost use Rattle.circle_json.specs.Airs.{parts_fields, place_form};
ghost use Rattle.circle_json.specs.Choices.{IsOfNoMember};
ghost use Rattle.circle_json.specs.ObjectForm.{object_form};

use crate::error::JsonError;
use crate::form::{JsonForm, array_of, count, items};
use crate::object::{has_keys, member, members, put_member};
use circle_air::{AirParts, Constraint, Node, Place};
use serde_json::{Map, Value};
use std::alloc::{AllocError, Global};

/// The place's name, in lower case.
///
/// Fails as `WrongKind` where the value is no text, or another one.
impl JsonForm for Place {
    ghost form = { place_form };

    fn to_json(&self, alloc: Global) -> Result<Value, AllocError> {
        let name = match self {
            Place::Every => "every",
            Place::First => "first",
            Place::Last => "last",
            Place::Transition => "transition",
        };
        Ok(Value::from(String::from_str(alloc, name)?))
    }

    fn from_json(_alloc: Global, value: &Value) -> Result<Self, JsonError> {
        match value.as_str().ok_or(JsonError::WrongKind)? {
            "every" => Ok(Place::Every),
            "first" => Ok(Place::First),
            "last" => Ok(Place::Last),
            "transition" => Ok(Place::Transition),
            _ => Err(JsonError::WrongKind),
        }
    }
}

/// An object of the `node` and of its place, under `when`.
impl JsonForm for Constraint {
    ghost form = { object_form constraint_fields };

    fn to_json(&self, alloc: Global) -> Result<Value, AllocError> {
        let mut object = Map::new(alloc);
        put_member(alloc, &mut object, "node", &self.node)?;
        put_member(alloc, &mut object, "when", &self.place)?;
        Ok(Value::Object(object))
    }

    fn from_json(alloc: Global, value: &Value) -> Result<Self, JsonError> {
        has_keys(value, &["node", "when"])?;
        Ok(Constraint {
            node: member(alloc, value, "node")?,
            place: member(alloc, value, "when")?,
        })
    }
}

/// An array of the two numbers.
///
/// Fails as `WrongKind` where the value is no array of two, and as a number does.
impl JsonForm for (usize, usize) {
    ghost form = { counts_form };

    fn to_json(&self, alloc: Global) -> Result<Value, AllocError> {
        let (left, right) = *self;
        array_of(alloc, &[left, right])
    }

    fn from_json(_alloc: Global, value: &Value) -> Result<Self, JsonError> {
        let [left, right] = items(value)? else {
            return Err(JsonError::WrongKind);
        };
        Ok((count(left)? as usize, count(right)? as usize))
    }
}

// The key and the value of the only member of an object.
fn only_member(value: &Value) -> Result<(&str, &Value), JsonError>
    ensures { MatchResult result
        (λ found. view value.now ≡ object (one_member found.0.now (view found.1.now) no_members))
        (IsOfNoMember (view value.now)) }
{
    let members = members(value)?;
    if members.len() > 1 {
        return Err(JsonError::UnknownKey);
    }
    match members.first_key_value() {
        Some((key, member)) => Ok((key.as_str(), member)),
        None => Err(JsonError::MissingKey),
    }
}

// The object with one member, of this key.
fn object_of<T: JsonForm>(alloc: Global, key: &str, value: &T) -> Result<Value, AllocError>
    ensures written { IfOk result (λ made. view made
        ≡ object (one_member key.now (T.form.written value.now) no_members)) }
    ensures reads { IfOk result (λ _. T.form.reads (T.form.written value.now) value.now) }
{
    let mut object = Map::new(alloc);
    put_member(alloc, &mut object, key, value)?;
    Ok(Value::Object(object))
}

/// An object of one member, whose key is the node's kind: `local`, `next`, `periodic`, `public` and
/// `neg` with a number, `constant` with an element, `add`, `sub` and `mul` with an array of two
/// numbers.
///
/// Fails as `WrongKind` where the value is no object, as `MissingKey` where it is an empty one, and
/// as `UnknownKey` where it has two keys or another one; and then as the member does.
impl<F: JsonForm + Copy> JsonForm for Node<F> {
    ghost form = { node_form F.JsonForm.form };

    fn to_json(&self, alloc: Global) -> Result<Value, AllocError> {
        match self {
            Node::Local(column) => object_of(alloc, "local", column),
            Node::Next(column) => object_of(alloc, "next", column),
            Node::Periodic(column) => object_of(alloc, "periodic", column),
            Node::Public(index) => object_of(alloc, "public", index),
            Node::Constant(element) => object_of(alloc, "constant", element),
            Node::Add(left, right) => object_of(alloc, "add", &(*left, *right)),
            Node::Sub(left, right) => object_of(alloc, "sub", &(*left, *right)),
            Node::Mul(left, right) => object_of(alloc, "mul", &(*left, *right)),
            Node::Neg(operand) => object_of(alloc, "neg", operand),
        }
    }

    fn from_json(alloc: Global, value: &Value) -> Result<Self, JsonError> {
        let (key, read) = only_member(value)?;
        match key {
            "local" => Ok(Node::Local(usize::from_json(alloc, read)?)),
            "next" => Ok(Node::Next(usize::from_json(alloc, read)?)),
            "periodic" => Ok(Node::Periodic(usize::from_json(alloc, read)?)),
            "public" => Ok(Node::Public(usize::from_json(alloc, read)?)),
            "constant" => Ok(Node::Constant(F::from_json(alloc, read)?)),
            "neg" => Ok(Node::Neg(usize::from_json(alloc, read)?)),
            "add" => {
                let (left, right) = <(usize, usize) as JsonForm>::from_json(alloc, read)?;
                Ok(Node::Add(left, right))
            }
            "sub" => {
                let (left, right) = <(usize, usize) as JsonForm>::from_json(alloc, read)?;
                Ok(Node::Sub(left, right))
            }
            "mul" => {
                let (left, right) = <(usize, usize) as JsonForm>::from_json(alloc, read)?;
                Ok(Node::Mul(left, right))
            }
            _ => Err(JsonError::UnknownKey),
        }
    }
}

/// An object of the parts, each under its name.
impl<F: JsonForm + Copy + Drop> JsonForm for AirParts<F> {
    ghost form = { object_form (parts_fields F.JsonForm.form) };

    fn to_json(&self, alloc: Global) -> Result<Value, AllocError> {
        let mut object = Map::new(alloc);
        put_member(alloc, &mut object, "constraints", &self.constraints)?;
        put_member(alloc, &mut object, "nodes", &self.nodes)?;
        put_member(
            alloc,
            &mut object,
            "num_public_values",
            &self.num_public_values,
        )?;
        put_member(
            alloc,
            &mut object,
            "periodic_columns",
            &self.periodic_columns,
        )?;
        put_member(alloc, &mut object, "width", &self.width)?;
        Ok(Value::Object(object))
    }

    fn from_json(alloc: Global, value: &Value) -> Result<Self, JsonError> {
        has_keys(
            value,
            &[
                "constraints",
                "nodes",
                "num_public_values",
                "periodic_columns",
                "width",
            ],
        )?;
        Ok(AirParts {
            width: member(alloc, value, "width")?,
            num_public_values: member(alloc, value, "num_public_values")?,
            periodic_columns: member(alloc, value, "periodic_columns")?,
            nodes: member(alloc, value, "nodes")?,
            constraints: member(alloc, value, "constraints")?,
        })
    }
}
