//! The calls of quotients.
use crate::plane::cubic;
use crate::told::{Stage, Told, digest, told, unfit};
use anyhow::Result;
use circle_field::{Cubic, Mersenne31};
use circle_quotient::fit::{fit_is_clear, is_fit};

/// Those calls.
pub fn quotients(stage: Stage) -> Result<Told> {
    let zeta = cubic([0, 1, 0]);
    stage.begin()?;
    fit_is_clear::<Mersenne31, Cubic>(3, zeta);
    let Some(next) = is_fit::<Mersenne31, Cubic>(3, zeta) else {
        return unfit("the point isn't fit");
    };
    Ok(told(digest(&[next])))
}
