//! Both sides of the identity at a point, of what is opened there.
use anyhow::{Result, bail};
use circle_air::Air;
use circle_commit::{LagrangeSelectors, is_power_of_two, log2_strict};
use circle_field::{ComplexExtendable, ExtensionField, Field};
use circle_point::Point;
use circle_quotient::composition::composition;
use circle_quotient::recomposition::recompose_quotient;
use circle_quotient::window::PointWindow;
use std::alloc::Global;

/// What constraints read at a point.
#[derive(Drop)]
pub struct Opened<E> {
    pub local: Vec<E>,
    pub next: Vec<E>,
    pub periodic: Vec<E>,
    pub public_values: Vec<E>,
    pub selectors: LagrangeSelectors<E>,
}

/// The constraints over what they read at a point, put together by the powers of `alpha`.
pub fn composed<F: Field, EF: ExtensionField<F>>(
    alloc: Global,
    air: &Air<F>,
    opened: &Opened<EF>,
    alpha: EF,
) -> Result<EF> {
    if opened.local.len() != air.width() || opened.next.len() != air.width() {
        bail!("the window doesn't have the AIR's columns");
    }
    if opened.periodic.len() != air.periodic_columns().len()
        || opened.public_values.len() != air.num_public_values()
    {
        bail!("the window doesn't have the AIR's other values");
    }
    let window = PointWindow {
        local: &opened.local,
        next: &opened.next,
        periodic: &opened.periodic,
        public_values: &opened.public_values,
    };
    Ok(composition(alloc, air, &window, &opened.selectors, alpha)?)
}

/// What the values of chunks come to at the point of `zeta`.
pub fn recomposed<F: ComplexExtendable, EF: ExtensionField<F>>(
    alloc: Global,
    log_n: usize,
    chunks: &[Vec<EF>],
    zeta: EF,
) -> Result<EF> {
    if log_n == 0 || log_n > 62 || !is_power_of_two(chunks.len()) {
        bail!("the number of chunks is no power of two");
    }
    if log_n + log2_strict(chunks.len()) >= F::CIRCLE_TWO_ADICITY {
        bail!("the group is too small");
    }
    if chunks.iter().any(|chunk| chunk.len() != EF::DEGREE) {
        bail!("a chunk doesn't have a value for each coefficient");
    }
    if Point::from_projective_line(zeta).is_none() {
        bail!("the point is at infinity");
    }
    Ok(recompose_quotient::<F, EF>(alloc, log_n, chunks, zeta)?)
}

/// The vanishing polynomial of `2^log_n` points at the point of `zeta`.
pub fn vanishing_at<E: Field>(log_n: usize, zeta: E) -> Result<E> {
    match Point::from_projective_line(zeta) {
        Some(point) if log_n > 0 && log_n <= 62 => Ok(point.v_n(log_n)),
        _ => bail!("the vanishing polynomial has no value there"),
    }
}
