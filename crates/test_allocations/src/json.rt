//! Calls on JSON.
use crate::plane::cubic;
use crate::told::{Stage, Told, digest, told};
use anyhow::Result;
use circle_air::{AirParts, Constraint, Node, Place};
use circle_field::{Cubic, Field, Mersenne31};
use circle_json::JsonForm;
use std::alloc::{AllocError, Global};

/// `JsonForm::from_json` of a list of elements.
pub fn elements(alloc: Global, stage: Stage) -> Result<Told> {
    let elements = vec![in alloc; cubic([2, 7, 1]), cubic([0, 1, 0])]?;
    let value = elements.to_json(alloc)?;
    stage.begin()?;
    let elements = Vec::<Cubic>::from_json(alloc, &value)?;
    Ok(told(digest(&elements)))
}

// The parts of an AIR with a node of each form, which needs no test.
fn parts(alloc: Global) -> Result<AirParts<Mersenne31>, AllocError> {
    let nodes = [
        Node::Local(0),
        Node::Constant(Mersenne31::ONE),
        Node::Add(0, 1),
        Node::Neg(2),
    ];
    let place = Place::Transition;
    Ok(AirParts {
        width: 1,
        num_public_values: 0,
        periodic_columns: vec![in alloc; vec![in alloc; Mersenne31::TWO]?]?,
        nodes: Vec::from_slice(alloc, &nodes)?,
        constraints: Vec::from_slice(alloc, &[Constraint { place, node: 3 }])?,
    })
}

/// `JsonForm::from_json` of the parts of an AIR.
pub fn air(alloc: Global, stage: Stage) -> Result<Told> {
    let value = parts(alloc)?.to_json(alloc)?;
    stage.begin()?;
    let parts = AirParts::<Mersenne31>::from_json(alloc, &value)?;
    Ok(told(parts.nodes.len()))
}

/// `JsonForm::to_json` of the parts of an AIR.
pub fn air_written(alloc: Global, stage: Stage) -> Result<Told> {
    let parts = parts(alloc)?;
    stage.begin()?;
    Ok(told(parts.to_json(alloc)?.is_object()))
}
