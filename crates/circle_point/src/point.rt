//! Points of the unit circle and their group (Circle STARKs, IACR ePrint 2024/278, section 3).
ghost use Rattle.std.specs.Prelude.{◌≡◌, ◌≢◌, ◌↔◌, IsTrue, IsNone, IfSome, ◌≤◌, ◌<◌, ◌^◌, ◌-◌, Ok};
ghost use Rattle.circle_field.specs.Circle.{Coordinates, IsOnCircle, at, origin, lifted};
ghost use Rattle.circle_field.specs.Circle.{plus, opposite, times};
ghost use Rattle.circle_point.specs.Projective.{is_at_infinity, minus};
ghost use Rattle.circle_field.specs.Field.{nth_power, two, sub};

use circle_field::{ComplexExtendable, ExtensionField, Field, Operations};
use std::alloc::AllocError;
use std::ops::{Add, AddAssign, Mul, Neg, Sub};

/// A point `(x, y)` of the unit circle: `x^2 + y^2 = 1`.
#[derive(PartialEq, Eq, Debug, Hash)]
pub struct Point<F: Operations> {
    x: F,
    y: F,
    pub ghost on_circle: { IsOnCircle F.ops (at x y) },
}

impl<F: Operations> Clone for Point<F> {
    ghost is_clone = { λ a b. b ≡ a };

    ghost is_infallible = { λ _. Unit {0} };

    fn clone(&self) -> Result<Self, AllocError>
        ensures { result ≡ Ok self.now }
    {
        Ok(*self)
    }
}

impl<F: Operations> Copy for Point<F> {}

/// A type with a neutral element of its sum, as a constant that contracts know.
pub trait Neutral {
    /// The neutral element.
    const ZERO: Self;

    ghost ZERO: { Self };
}

impl<F: Field> Neutral for Point<F> {
    ghost use Rattle.circle_field.specs.CircleGroup.{origin-on_circle};

    /// The point `(1, 0)`.
    const ZERO: Self = Point {
        x: F::ONE,
        y: F::ZERO,
    };

    ghost ZERO = { record {
      x = F.ops.one;
      y = F.ops.zero;
      on_circle = origin-on_circle F.Operations.laws.ring;
    } };
}

/// Whether the coordinate is that of a point at infinity: `t^2 = -1`.
pub fn is_at_infinity<F: Field>(t: &F) -> bool
    ensures { result ≡ is_at_infinity F.eq F.ops t.now }
{
    t.square() == -F::ONE
}

impl<F: Field> Point<F> {
    ghost use Rattle.circle_point.specs.Basis.{vanishing, vanishing_product};
    ghost use Rattle.circle_point.specs.Projective.{from_line, to_line, half_turn, difference_from};
    ghost use Rattle.circle_point.specs.Point.{coordinates};

    /// Whether `x^2 + y^2 = 1`, as [`Point::new`] requires.
    pub fn is_on_circle(x: F, y: F) -> bool
        ensures { IsTrue result ↔ IsOnCircle F.ops (at x y) }
    {
        x * x + y * y == F::ONE
    }

    /// The point with these coordinates.
    ///
    /// Requires `x^2 + y^2 = 1`, as [`Point::is_on_circle`] tests.
    pub fn new(x: F, y: F) -> Self
        requires { IsOnCircle F.ops (at x y) }
        ensures { coordinates result ≡ at x y }
    {
        Point { x, y }
    }

    /// The x coordinate.
    pub fn x(self) -> F
        ensures { result ≡ (coordinates self).x }
    {
        self.x
    }

    /// The y coordinate.
    pub fn y(self) -> F
        ensures { result ≡ (coordinates self).y }
    {
        self.y
    }

    /// The point of a coordinate of the projective line: `((1 - t^2) / (1 + t^2), 2t / (1 + t^2))`
    /// (section 3, Lemma 1). `None` where `t^2 = -1`, which is at infinity.
    pub fn from_projective_line(t: F) -> Option<Self>
        ensures none { IsNone result ↔ (F.ops.mul t t ≡ F.ops.neg F.ops.one) }
        ensures point { IfSome result (λ p. coordinates p ≡ from_line F.ops t) }
        ensures back { IfSome result (λ p. to_line F.ops (coordinates p) ≡ t) }
    {
        let square = t.square();
        let inverse = (F::ONE + square).try_inverse()?;
        Some(Point {
            x: (F::ONE - square) * inverse,
            y: t.double() * inverse,
        })
    }

    /// The coordinate `y / (x + 1)` of the projective line (section 3, Lemma 1). `None` at `x =
    /// -1`, which is the point `(-1, 0)` alone.
    pub fn to_projective_line(self) -> Option<F>
        ensures none { IsNone result ↔ ((coordinates self).x ≡ F.ops.neg F.ops.one) }
        ensures value { IfSome result (λ t. t ≡ to_line F.ops (coordinates self)) }
        ensures back { IfSome result (λ t. from_line F.ops t ≡ coordinates self) }
    {
        let inverse = (self.x + F::ONE).try_inverse()?;
        Some(self.y * inverse)
    }

    /// The point plus itself (section 3.1, equation 1).
    pub fn double(self) -> Self
        ensures { coordinates result ≡ plus F.ops (coordinates self) (coordinates self) }
    {
        Point {
            x: self.x.square().double() - F::ONE,
            y: self.x.double() * self.y,
        }
    }

    /// The point doubled `log_n` times, so its multiple by `2^log_n`.
    pub fn repeated_double(self, log_n: usize) -> Self
        ensures { coordinates result ≡ times F.ops (2 ^ log_n) (coordinates self) }
    {
        let mut point = self;
        for _ in 0..log_n {
            point = point.double();
        }
        point
    }

    /// The vanishing polynomial of the standard domain of `2^log_n` points, at this point: the x
    /// coordinate of the point's multiple by `2^(log_n - 1)` (section 3.3, equation 8).
    ///
    /// Requires `log_n >= 1`.
    pub fn v_n(self, log_n: usize) -> F
        requires { 1 ≤ log_n }
        ensures multiple { result ≡ (times F.ops (2 ^ (log_n - 1)) (coordinates self)).x }
        ensures polynomial { result ≡ vanishing F.ops log_n (coordinates self) }
    {
        let mut x = self.x;
        for _ in 1..log_n {
            x = x.square().double() - F::ONE;
        }
        x
    }

    /// The product of `v_n(1)` to `v_n(log_n - 1)`, which is 1 for `log_n` at most 1.
    pub fn v_n_prod(self, log_n: usize) -> F
        ensures { result ≡ vanishing_product F.ops (log_n - 1) (coordinates self) }
    {
        let mut factor = self.x;
        let mut product = F::ONE;
        for _ in 1..log_n {
            product = product * factor;
            factor = factor.square().double() - F::ONE;
        }
        product
    }

    /// The selector that is zero at this point alone, at the point `at`: the coordinate of
    /// `at - self` on the projective line (section 5.1, Lemma 11).
    ///
    /// Requires that `at` is not `self + (-1, 0)`, the pole: where it isn't, `(at -
    /// self).to_projective_line()` is `Some`, the result.
    pub fn v_tilde_p<EF: ExtensionField<F>>(self, at: Point<EF>) -> EF
        requires { coordinates at
            ≢ plus EF.ops (half_turn EF.ops) (lifted EF.embed (coordinates self)) }
        ensures { result
            ≡ to_line EF.ops (minus EF.ops EF.embed (coordinates at) (coordinates self)) }
    {
        (at - self).to_projective_line().unwrap()
    }

    /// The value at this point of `v_n(log_n)` over the selector of the point, by which Lagrange
    /// polynomials are normalised: `-2^log_n` times the y coordinate of the point's multiple by
    /// `2^(log_n - 1)` (section 5.1, Remark 16).
    ///
    /// Requires `log_n >= 1` and `log_n < 2^63`.
    pub fn s_p_at_p(self, log_n: usize) -> F
        requires positive { 1 ≤ log_n }
        requires small { log_n < 2 ^ 63 }
        ensures { result ≡ F.ops.neg (F.ops.mul (nth_power F.ops (two F.ops) log_n)
            (times F.ops (2 ^ (log_n - 1)) (coordinates self)).y) }
    {
        -self.v_n_prod(log_n).mul_2exp_u64((2 * log_n - 1) as u64) * self.y
    }

    /// The numerator and the denominator of the single-point vanishing function at `at`, with a
    /// simple zero there, as the real and the imaginary part of a complex number (section 3.3,
    /// equation 11): `(1 - d.x, -d.y)` with `d = self - at`.
    pub fn v_p<EF: ExtensionField<F>>(self, at: Point<EF>) -> (EF, EF)
        ensures re { let d = difference_from EF.ops EF.embed (coordinates self) (coordinates at) in
            result.0 ≡ sub EF.ops EF.ops.one d.x }
        ensures im { let d = difference_from EF.ops EF.embed (coordinates self) (coordinates at) in
            result.1 ≡ EF.ops.neg d.y }
        ensures norm { EF.ops.add (EF.ops.mul result.0 result.0) (EF.ops.mul result.1 result.1)
            ≡ EF.ops.add result.0 result.0 }
    {
        let difference = -at + self;
        (EF::ONE - difference.x, -difference.y)
    }
}

impl<F: ComplexExtendable> Point<F> {
    ghost use Rattle.circle_point.specs.Point.{coordinates};

    /// The generator of the cyclic group of `2^log_n` points.
    ///
    /// Requires `log_n <= CIRCLE_TWO_ADICITY`.
    pub fn generator(log_n: usize) -> Self
        requires { log_n ≤ F.CIRCLE_TWO_ADICITY }
        ensures { coordinates result ≡ F.generators log_n }
    {
        let (x, y) = F::circle_two_adic_generator(log_n);
        Point::new(x, y)
    }
}

/// The opposite point `(x, -y)` (section 3.1, equation 2).
impl<F: Field> Neg for Point<F> {
    type Output = Point<F>;

    ghost use Rattle.circle_point.specs.Point.{coordinates};

    ghost neg_gives = { λ p r. coordinates r ≡ opposite F.ops (coordinates p) };

    fn neg(self) -> Point<F>
        ensures opposite { coordinates result ≡ opposite F.ops (coordinates self) }
        ensures cancels { plus F.ops (coordinates self) (coordinates result) ≡ origin F.ops }
    {
        Point {
            x: self.x,
            y: -self.y,
        }
    }
}

/// `(a, b) + (c, d) = (ac - bd, ad + bc)`, where the second point may be over a smaller field.
///
/// The point of the larger field stands on the left: `at + p`, since `p + at` has no operator. In a
/// generic function the type of a constructor on the right is written out, as
/// `at + Point::<F>::generator(n)`: each field that `EF` extends could stand there, itself too.
impl<F: Field, EF: ExtensionField<F>> Add<Point<F>> for Point<EF> {
    type Output = Point<EF>;

    ghost use Rattle.circle_point.specs.Point.{coordinates};

    ghost add_gives = { λ p q r.
        coordinates r ≡ plus EF.ops (coordinates p) (lifted EF.embed (coordinates q)) };

    fn add(self, rhs: Point<F>) -> Point<EF>
        ensures sum { coordinates result
            ≡ plus EF.ops (coordinates self) (lifted EF.embed (coordinates rhs)) }
        ensures commutes { coordinates result
            ≡ plus EF.ops (lifted EF.embed (coordinates rhs)) (coordinates self) }
        ensures associates { let q = lifted EF.embed (coordinates rhs) in (r : Coordinates EF) →
            plus EF.ops (coordinates result) r ≡ plus EF.ops (coordinates self) (plus EF.ops q r) }
        ensures neutral { plus EF.ops (coordinates self) (origin EF.ops) ≡ coordinates self }
    {
        let (x, y) = (EF::from_base(rhs.x), EF::from_base(rhs.y));
        Point {
            x: self.x * x - self.y * y,
            y: self.x * y + self.y * x,
        }
    }
}

/// The sum with the opposite of `rhs`, which may be over a smaller field.
///
/// As for the sum, the point of the larger field stands on the left; the difference the other way
/// is `-at + p`.
impl<F: Field, EF: ExtensionField<F>> Sub<Point<F>> for Point<EF> {
    type Output = Point<EF>;

    ghost use Rattle.circle_point.specs.Point.{coordinates};

    ghost sub_gives = { λ p q r.
        coordinates r ≡ minus EF.ops EF.embed (coordinates p) (coordinates q) };

    fn sub(self, rhs: Point<F>) -> Point<EF>
        ensures difference { coordinates result
            ≡ minus EF.ops EF.embed (coordinates self) (coordinates rhs) }
        ensures undoes { plus EF.ops (coordinates result) (lifted EF.embed (coordinates rhs))
            ≡ coordinates self }
    {
        let (x, y) = (EF::from_base(rhs.x), EF::from_base(rhs.y));
        Point {
            x: self.x * x + self.y * y,
            y: self.y * x - self.x * y,
        }
    }
}

impl<F: Field> AddAssign<Point<F>> for Point<F> {
    ghost use Rattle.circle_point.specs.Point.{coordinates};

    ghost add_assign_gives = { λ p q r.
        coordinates r ≡ plus F.ops (coordinates p) (coordinates q) };

    fn add_assign(&mut self, rhs: Point<F>) {
        *self = *self + rhs;
    }
}

/// The n-fold sum, by doubling.
impl<F: Field> Mul<usize> for Point<F> {
    type Output = Point<F>;

    ghost use Rattle.circle_point.specs.Point.{coordinates};

    ghost mul_gives = { λ p n r. coordinates r ≡ times F.ops n (coordinates p) };

    fn mul(self, rhs: usize) -> Point<F> {
        let mut result = Point::ZERO;
        let mut multiple = self;
        let mut rest = rhs;
        while rest != 0 {
            if rest % 2 == 1 {
                result += multiple;
            }
            multiple = multiple.double();
            rest /= 2;
        }
        result
    }
}
