//! Points that matrices are opened at, each with its coordinate.
ghost use Rattle.std.specs.Prelude.{◌≡◌, ◌↔◌, IsNone, IfSome, Ok};
ghost use Rattle.circle_domain.specs.Selectors.{IsFinite};
ghost use Rattle.circle_point.specs.Point.{coordinates};
ghost use Rattle.circle_point.specs.Projective.{from_line};

use circle_field::{Field, Operations};
use circle_point::Point;
use std::alloc::AllocError;

/// A point that matrices are opened at, with its coordinate.
pub struct OpeningPoint<EF: Operations> {
    /// Its coordinate on the projective line.
    pub coordinate: EF,
    /// The point.
    pub point: Point<EF>,
    pub ghost finite: { IsFinite EF.ops coordinate },
    pub ghost at: { coordinates point ≡ from_line EF.ops coordinate },
}

impl<EF: Operations> Clone for OpeningPoint<EF> {
    ghost is_clone = { λ a b. b ≡ a };

    ghost is_infallible = { λ _. Unit {0} };

    fn clone(&self) -> Result<Self, AllocError>
        ensures { result ≡ Ok self.now }
    {
        Ok(*self)
    }
}

impl<EF: Operations> Copy for OpeningPoint<EF> {}

impl<EF: Field> OpeningPoint<EF> {
    /// The point of a coordinate on the projective line. `None` where `t^2 = -1`, which is at
    /// infinity. Takes no memory.
    pub fn new(coordinate: EF) -> Option<OpeningPoint<EF>>
        ensures none { IsNone result ↔ (EF.ops.mul coordinate coordinate ≡ EF.ops.neg EF.ops.one) }
        ensures coordinate { IfSome result (λ p. p.coordinate ≡ coordinate) }
    {
        let point = Point::from_projective_line(coordinate)?;
        Some(OpeningPoint { coordinate, point })
    }
}
