//! Values of polynomials in x.
ghost use Rattle.std.specs.Prelude.{◌≡◌, length};
ghost use Rattle.circle_commit.specs.Matrix.{IsPowerOfTwo};
ghost use Rattle.circle_point.specs.Basis.{iterated_x, x_value};

use circle_commit::log2_strict;
use circle_field::{ExtensionField, Field};

/// The value at `x` of the polynomial with these coefficients: the sum of `c_j` times the product
/// of `u_i(x)` over the bits `i` of `j` that are 1, where `u_0` is `x` and the next of `u` is
/// `2 u^2 - 1` (Circle STARKs, IACR ePrint 2024/278, section 3.3).
///
/// Requires a number of coefficients that is a power of two.
pub fn x_value<F: Field, EF: ExtensionField<F>>(coefficients: &[EF], x: F) -> EF
    requires { IsPowerOfTwo (length coefficients.now) }
    ensures { result ≡ x_value EF.ops coefficients.now (EF.embed x) }
{
    let half = coefficients.len() / 2;
    if half == 0 {
        return coefficients[0];
    }
    let (low, high) = coefficients.split_at(half);
    x_value(low, x) + x_value(high, x).times_base(iterated_x(x, log2_strict(half)))
}

/// The x coordinate of the point that one with x coordinate `x` becomes by `times` doublings.
pub(crate) fn iterated_x<F: Field>(x: F, times: usize) -> F
    ensures { result ≡ iterated_x F.ops times x }
{
    let mut iterated = x;
    for _ in 0..times {
        iterated = iterated.square().double() - F::ONE;
    }
    iterated
}
