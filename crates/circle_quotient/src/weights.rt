//! The weights of constraints: powers of a challenge.
ghost use Rattle.std.specs.Prelude.{◌≡◌, IfOk};
ghost use Rattle.circle_quotient.specs.Terms.{falling_powers};

use circle_field::Field;
use std::alloc::{AllocError, Global};

/// The powers of `x` from `count - 1` down to 0. Fails where memory is refused.
pub(crate) fn falling_powers<E: Field>(
    alloc: Global,
    x: E,
    count: usize,
) -> Result<Vec<E>, AllocError>
    ensures { IfOk result (λ made. made.items ≡ falling_powers E.ops x count) }
{
    let mut powers = E::powers(alloc, x, count)?;
    powers.reverse();
    Ok(powers)
}
