//! The calls of the schemes that allocate nothing.
use crate::scheme::{committed, params};
use crate::told::{Stage, Told, low_bits, told_numbers, unfit};
use anyhow::Result;
use circle_commit::Mmcs;
use circle_field::Mersenne31;
use circle_merkle::ShaMmcs;
use circle_presets::{Scheme, scheme};
use p3_circle::{CirclePcsShape, Matrix};
use std::alloc::Global;

// The logarithms of the sizes of natural domains, and the limits of heights.
fn of_heights(scheme: &Scheme) -> Result<[usize; 4]> {
    let Some(domain) = scheme.try_natural_domain_for_degree(8) else {
        return unfit("there is no such domain");
    };
    Ok([
        domain.log_n(),
        scheme.natural_domain_for_degree(2).log_n(),
        scheme.log_min_trace_height(),
        scheme.log_max_trace_height(),
    ])
}

/// Those calls.
pub fn schemes(alloc: Global, stage: Stage) -> Result<Told> {
    let (_, data) = committed(alloc, Stage::Whole)?;
    stage.begin()?;
    let trees = ShaMmcs::<Mersenne31>::new();
    let scheme = scheme(params());
    let [domain, natural, least, greatest] = of_heights(&scheme)?;
    let shape = CirclePcsShape::new(&params(), Vec::new(alloc), 3, 1);
    Ok(told_numbers(&[
        low_bits(domain),
        low_bits(natural),
        low_bits(least),
        low_bits(greatest),
        low_bits(trees.get_matrices(&data).len()),
        low_bits(trees.get_max_height(&data)),
        low_bits(shape.index_bits),
    ]))
}
