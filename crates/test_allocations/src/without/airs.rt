//! The calls of AIRs.
use crate::airs::doubling;
use crate::told::{Stage, Told};
use anyhow::Result;
use circle_air::Place;
use std::alloc::Global;

/// Those calls.
pub fn airs(alloc: Global, stage: Stage) -> Result<Told> {
    let air = doubling(alloc)?;
    stage.begin()?;
    let digest = air.digest();
    Ok(Told::of(format_args!(
        "Ok {} {} {} {}, {} {} {}, {} {}",
        air.width(),
        air.num_public_values(),
        air.max_constraint_degree(),
        air.log_num_quotient_chunks(),
        air.periodic_columns().len(),
        air.nodes().len(),
        air.constraints().len(),
        digest[0],
        Place::Transition.has_row(3, 4),
    )))
}
