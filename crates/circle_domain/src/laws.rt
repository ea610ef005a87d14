//! Laws of points and of the circle basis. The calls of this module return nothing, take no memory
//! and carry what their contracts say.
ghost use Rattle.std.specs.Prelude.{◌≡◌, ◌+◌, ◌^◌, ◌≤◌, ◌++◌, length};
ghost use Rattle.circle_field.specs.Circle.{plus, times};
ghost use Rattle.circle_point.specs.Basis.{value};
ghost use Rattle.circle_point.specs.Point.{coordinates};
ghost use Rattle.circle_domain.specs.Domain.{IsGenuineDomain, cfft_points_of, log_size};
ghost use Rattle.circle_domain.specs.Layers.{value_by_halves};
ghost use Rattle.circle_domain.specs.Values.{AgreeAt};

use crate::domain::CircleDomain;
use circle_field::{ComplexExtendable, Field};
use circle_point::Point;

/// The multiple of a point by `m + n` is the sum of those by `m` and by `n`, and that of its double
/// by `n` is its own by twice `n`.
pub fn multiples_add<F: Field>(point: Point<F>, m: usize, n: usize)
    ensures sum { times F.ops (m + n) (coordinates point)
        ≡ plus F.ops (times F.ops m (coordinates point)) (times F.ops n (coordinates point)) }
    ensures double { times F.ops n (plus F.ops (coordinates point) (coordinates point))
        ≡ times F.ops (n + n) (coordinates point) }
{
    let _law = (m, n);
    let _point = point;
}

/// The value of coefficients is that of their lower half and, times the polynomial of the basis at
/// which the upper half begins, that of the upper half (Circle STARKs, IACR ePrint 2024/278,
/// section 4).
///
/// Requires `2^log_half` coefficients in the lower half and no more in the upper.
pub fn halves_add<F: Field>(lower: &[F], upper: &[F], point: Point<F>, log_half: usize)
    requires lower { length lower.now ≡ 2 ^ log_half }
    requires upper { length upper.now ≤ 2 ^ log_half }
    ensures { value F.ops (lower.now ++ upper.now) (coordinates point)
        ≡ value_by_halves F.ops log_half lower.now upper.now (coordinates point) }
{
    let _lower = lower;
    let _upper = upper;
    let _point = point;
    let _law = log_half;
}

/// On a genuine domain only one polynomial of as many coefficients as there are points has its
/// values at them.
///
/// Requires `log_n <= CIRCLE_TWO_ADICITY` and a coefficient for each point.
pub fn coefficients_are_only<F: ComplexExtendable>(
    domain: &CircleDomain<F>,
    coefficients: &[F],
    others: &[F],
)
    requires genuine { IsGenuineDomain F.ops domain.now }
    requires in_group { log_size domain.now ≤ F.CIRCLE_TWO_ADICITY }
    requires counted { length coefficients.now ≡ 2 ^ log_size domain.now }
    requires as_many { length others.now ≡ 2 ^ log_size domain.now }
    ensures { AgreeAt F.ops (cfft_points_of F.ops F.generators domain.now)
        coefficients.now others.now → coefficients.now ≡ others.now }
{
    let _domain = domain;
    let _coefficients = coefficients;
    let _others = others;
}
