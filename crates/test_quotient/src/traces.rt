//! Traces, read from JSON.
use crate::statement::{Rows, Statement};
use anyhow::{Context, Result, bail};
use circle_air::{Air, AirParts};
use circle_commit::Matrix;
use circle_field::{Cubic, Field, Mersenne31};
use circle_json::member;
use serde_json::Value;
use std::alloc::Global;

/// A trace with its name, the challenge of its constraints and the coordinate of a point.
#[derive(Drop)]
pub struct Trace<'a> {
    pub name: &'a str,
    pub statement: Statement,
    pub alpha: Cubic,
    pub zeta: Cubic,
}

impl<'a> Trace<'a> {
    /// The trace that an object stands for.
    pub fn read(alloc: Global, object: &'a Value) -> Result<Trace<'a>> {
        let name = object.get("name").and_then(Value::as_str);
        Ok(Trace {
            name: name.context("a trace has no name")?,
            alpha: member(alloc, object, "alpha")?,
            zeta: member(alloc, object, "zeta")?,
            statement: statement(alloc, object)?,
        })
    }

    /// Both sides of the identity with `2^log_num_chunks` chunks.
    pub fn both_sides(&self, alloc: Global, log_num_chunks: usize) -> Result<(Cubic, Cubic)> {
        self.statement
            .both_sides(alloc, log_num_chunks, self.alpha, self.zeta)
    }

    /// Whether the identity holds with `2^log_num_chunks` chunks.
    pub fn holds_with(&self, alloc: Global, log_num_chunks: usize) -> Result<bool> {
        let (constraints, quotient) = self.both_sides(alloc, log_num_chunks)?;
        Ok(constraints == quotient)
    }

    /// Whether the identity holds with as many chunks as the AIR needs.
    pub fn holds(&self, alloc: Global) -> Result<bool> {
        self.holds_with(alloc, self.statement.air.log_num_quotient_chunks())
    }
}

// The statement that an object stands for.
fn statement(alloc: Global, object: &Value) -> Result<Statement> {
    let rows = matrix(alloc, object)?;
    Ok(Statement {
        log_n: rows.height().trailing_zeros() as usize,
        rows,
        public_values: member(alloc, object, "public_values")?,
        air: air(alloc, object)?,
        multiple: Mersenne31::ZERO,
    })
}

// The AIR of an object.
fn air(alloc: Global, object: &Value) -> Result<Air<Mersenne31>> {
    let parts: AirParts<Mersenne31> = member(alloc, object, "air")?;
    Ok(Air::try_new(alloc, parts)?)
}

// The matrix of an object's rows.
fn matrix(alloc: Global, object: &Value) -> Result<Rows> {
    let rows: Vec<Vec<Mersenne31>> = member(alloc, object, "rows")?;
    let width = rows.first().map_or(1, Vec::len);
    Rows::try_new(rows.concat(alloc)?, width).context("the rows differ in length")
}

/// The items of an object's list.
pub fn items<'a>(object: &'a Value, key: &str) -> Result<&'a [Value]> {
    match object.get(key).and_then(Value::as_array) {
        Some(list) => Ok(list.as_slice()),
        None => bail!("there is no list {key}"),
    }
}
