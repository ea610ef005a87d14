//! Calls on AIRs.
use crate::told::{Stage, Told, told, unfit};
use anyhow::Result;
use circle_air::{Air, AirBuilder, AirError, Place, check_constraints};
use circle_airs::{fibonacci_air, fibonacci_trace, permutation_air, permutation_trace};
use circle_commit::{Matrix, RowMajorMatrix};
use circle_field::{Field, Mersenne31};
use std::alloc::Global;

/// The AIR of one column whose next entry is the double of the entry.
pub fn doubling(alloc: Global) -> Result<Air<Mersenne31>, AirError> {
    let mut builder = AirBuilder::new(alloc, 1, 0);
    let entry = builder.local(0)?;
    let double = builder.add(entry, entry)?;
    let next = builder.next(0)?;
    builder.assert_eq(Place::Transition, next, double)?;
    builder.finish()
}

/// The calls of `AirBuilder`.
pub fn build(alloc: Global, stage: Stage) -> Result<Told> {
    stage.begin()?;
    Ok(told(doubling(alloc)?.max_constraint_degree()))
}

/// `check_constraints`.
pub fn check(alloc: Global, stage: Stage) -> Result<Told> {
    let air = doubling(alloc)?;
    let rows = RowMajorMatrix::new_col(Mersenne31::powers(alloc, Mersenne31::TWO, 4)?);
    if rows.width() != air.width() || air.num_public_values() != 0 {
        return unfit("the rows don't fit the AIR");
    }
    stage.begin()?;
    let violation = check_constraints(alloc, &air, &rows, &[])?;
    Ok(told(violation.is_none()))
}

/// `fibonacci_air`.
pub fn fibonacci(alloc: Global, stage: Stage) -> Result<Told> {
    stage.begin()?;
    let air: Air<Mersenne31> = fibonacci_air(alloc)?;
    Ok(told(air.nodes().len()))
}

/// `fibonacci_trace`.
pub fn fibonacci_rows(alloc: Global, stage: Stage) -> Result<Told> {
    stage.begin()?;
    let trace = fibonacci_trace(alloc, Mersenne31::ONE, Mersenne31::ONE, 8)?;
    Ok(told(trace.rows.height()))
}

/// `permutation_air`.
pub fn permutation(alloc: Global, stage: Stage) -> Result<Told> {
    stage.begin()?;
    Ok(told(permutation_air(alloc)?.nodes().len()))
}

/// `permutation_trace`.
pub fn permutation_rows(alloc: Global, stage: Stage) -> Result<Told> {
    stage.begin()?;
    let trace = permutation_trace(alloc, &[Mersenne31::ONE; 8], 4)?;
    Ok(told(trace.rows.height()))
}
