//! Constraints that were tested.
ghost use Rattle.std.specs.Prelude.{◌≡◌, ◌+◌, ◌^◌, ◌≤◌, ◌⊎◌, Err, IfErr, IfOk, IfSome, None, Some};
ghost use Rattle.std.specs.Prelude.{IsTrue, is_none, length, map};
ghost use Rattle.circle_air.specs.Degrees.{IsLogOfChunks, degree_of_parts};
ghost use Rattle.circle_air.specs.Parts.{parts_of};
ghost use Rattle.circle_air.specs.Refusal.{columns_refusal, refusal};
ghost use Rattle.circle_air.specs.declared.error.AirError.TheVariants.{Memory};

use crate::error::AirError;
use crate::node::{Constraint, Node};
use crate::parts::{AirParts, check_periods, checked_greatest_degree};
use std::alloc::Global;

/// Constraints on the rows of a trace (an algebraic intermediate representation), tested.
///
/// Each node reads columns, periodic columns and public values that are there, and earlier nodes;
/// no node's degree is above `2^30`; the lengths of the periodic columns are powers of two; there
/// are constraints, on nodes that are there.
#[derive(Drop)]
pub struct Air<F> {
    parts: AirParts<F>,
    max_constraint_degree: usize,
    ghost valid: { IsTrue (is_none (refusal (parts_of parts))) },
    ghost degree_is: { max_constraint_degree ≡ degree_of_parts (parts_of parts) },
    ghost small_degree: { max_constraint_degree ≤ 2 ^ 30 + 1 },
}

impl<F: Copy> Air<F> {
    ghost use Rattle.circle_air.specs.Air.{air_of};

    /// The AIR of these parts.
    ///
    /// Fails by the first reason to refuse them, or as `Memory`. The columns are tested first and
    /// without memory, so a reason to refuse them is returned even when out of memory.
    pub fn try_new(alloc: Global, parts: AirParts<F>) -> Result<Self, AirError>
        ensures accepts { IfOk result (λ _. refusal (parts_of parts) ≡ None) }
        ensures same { IfOk result (λ air. air_of air ≡ parts_of parts) }
        ensures refuses { IfErr result (λ e. (e ≡ Memory) ⊎ (refusal (parts_of parts) ≡ Some e)) }
        ensures columns { IfSome (columns_refusal (parts_of parts)) (λ e. result ≡ Err e) }
    {
        if parts.width == 0 {
            return Err(AirError::NoColumns);
        }
        check_periods(&parts.periodic_columns)?;
        let degrees = parts.checked_degrees(alloc)?;
        if parts.constraints.is_empty() {
            return Err(AirError::NoConstraints);
        }
        let max_constraint_degree = checked_greatest_degree(&parts.constraints, &degrees)?;
        Ok(Air {
            parts,
            max_constraint_degree,
        })
    }

    /// The number of columns, at least 1.
    pub fn width(&self) -> usize
        ensures { result ≡ (air_of self.now).width }
    {
        self.parts.width
    }

    /// The number of public values.
    pub fn num_public_values(&self) -> usize
        ensures { result ≡ (air_of self.now).num_public_values }
    {
        self.parts.num_public_values
    }

    /// The columns that repeat, each for one period, whose length is a power of two.
    pub fn periodic_columns(&self) -> &[Vec<F>]
        ensures { map (λ column. column.items) result.now ≡ (air_of self.now).periodic_columns }
    {
        &self.parts.periodic_columns
    }

    /// The steps, each after its operands.
    pub fn nodes(&self) -> &[Node<F>]
        ensures { result.now ≡ (air_of self.now).nodes }
    {
        &self.parts.nodes
    }

    /// The constraints, at least one.
    pub fn constraints(&self) -> &[Constraint]
        ensures { result.now ≡ (air_of self.now).constraints }
    {
        &self.parts.constraints
    }

    /// The greatest degree of a constraint: that of its node, and one more unless it holds at every
    /// row.
    pub fn max_constraint_degree(&self) -> usize
        ensures { result ≡ degree_of_parts (air_of self.now) }
    {
        self.max_constraint_degree
    }

    /// The binary logarithm of the number of chunks of the quotient: the least `k` from 1 on for
    /// which `2^k + 1` is at least the greatest degree of a constraint.
    pub fn log_num_quotient_chunks(&self) -> usize
        ensures { IsLogOfChunks (degree_of_parts (air_of self.now)) result }
    {
        let mut log = 1;
        let mut chunks = 2;
        while chunks + 1 < self.max_constraint_degree {
            chunks *= 2;
            log += 1;
        }
        log
    }
}
