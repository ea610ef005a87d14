//! The prime field of 127 elements, small enough that a test goes over all points of its circle.
ghost use Rattle.std.specs.Prelude.{◌≡◌, ◌<◌};
ghost use Rattle.circle_field.specs.Circle.{at, plus};

use circle_field::{ComplexExtendable, Field, Operations};
use std::ops::{Add, Mul, Neg, Sub};

/// An element of the prime field of 127 elements, by its residue.
#[derive(Clone, Copy, PartialEq, Eq, Hash, Debug)]
pub struct Mersenne7 {
    value: u64,
    ghost below_order: { value < 127 },
}

// The number of elements.
const ORDER: u64 = 127;

impl Mersenne7 {
    ghost use Rattle.test_quotient.specs.Mersenne7.{element, generators, operations};

    // The element of a number.
    fn reduced(number: u64) -> Self
        ensures { result ≡ element number }
    {
        Mersenne7 {
            value: number % ORDER,
        }
    }

    // A point of order 2^7 of the unit circle.
    fn circle_generator() -> (Self, Self)
        ensures { at result.0 result.1 ≡ generators 7 }
    {
        (Mersenne7 { value: 2 }, Mersenne7 { value: 39 })
    }

    // The double of a point of the circle's group.
    fn double_point(x: Self, y: Self) -> (Self, Self)
        ensures { at result.0 result.1 ≡ plus operations (at x y) (at x y) }
    {
        (x * x - y * y, x * y + y * x)
    }
}

impl Operations for Mersenne7 {
    ghost use Rattle.test_quotient.specs.Mersenne7.{operations};
    ghost use Rattle.test_quotient.specs.Mersenne7Laws.{laws};

    ghost ops = { operations };

    ghost laws = { laws };
}

impl Add for Mersenne7 {
    type Output = Self;

    ghost use Rattle.test_quotient.specs.Mersenne7.{operations};

    ghost add_gives = { λ a b r. r ≡ operations.add a b };

    fn add(self, rhs: Self) -> Self {
        Self::reduced(self.value + rhs.value)
    }
}

impl Sub for Mersenne7 {
    type Output = Self;

    ghost use Rattle.circle_field.specs.Field.{sub};
    ghost use Rattle.test_quotient.specs.Mersenne7.{operations};

    ghost sub_gives = { λ a b r. r ≡ sub operations a b };

    fn sub(self, rhs: Self) -> Self {
        self + -rhs
    }
}

impl Mul for Mersenne7 {
    type Output = Self;

    ghost use Rattle.test_quotient.specs.Mersenne7.{operations};

    ghost mul_gives = { λ a b r. r ≡ operations.mul a b };

    fn mul(self, rhs: Self) -> Self {
        Self::reduced(self.value * rhs.value)
    }
}

impl Neg for Mersenne7 {
    type Output = Self;

    ghost use Rattle.test_quotient.specs.Mersenne7.{operations};

    ghost neg_gives = { λ a r. r ≡ operations.neg a };

    fn neg(self) -> Self {
        Self::reduced(ORDER - self.value)
    }
}

impl Field for Mersenne7 {
    ghost use Rattle.test_quotient.specs.Mersenne7.{element};
    ghost use Rattle.test_quotient.specs.Mersenne7Laws.{equal_exactly};
    ghost use Rattle.std.specs.Prelude.{refl};

    const ZERO: Self = Mersenne7 { value: 0 };

    const ONE: Self = Mersenne7 { value: 1 };

    const TWO: Self = Mersenne7 { value: 2 };

    ghost ZERO = { element 0 };

    ghost ONE = { element 1 };

    ghost TWO = { element 2 };

    ghost clone_law = { λ a b h. h };

    ghost clone_infallible_law = { λ a. tt };

    ghost zero_law = { refl };

    ghost one_law = { refl };

    ghost two_law = { refl };

    ghost can_add_law = { λ a b. tt };

    ghost add_law = { λ a b r h. h };

    ghost can_sub_law = { λ a b. tt };

    ghost sub_law = { λ a b r h. h };

    ghost can_mul_law = { λ a b. tt };

    ghost mul_law = { λ a b r h. h };

    ghost can_neg_law = { λ a. tt };

    ghost neg_law = { λ a r h. h };

    ghost eq_law = { equal_exactly };

    fn try_inverse(&self) -> Option<Self> {
        if self.is_zero() {
            return None;
        }
        Some(self.exp_u64(ORDER - 2))
    }

    fn from_u64(int: u64) -> Self {
        Self::reduced(int)
    }
}

impl ComplexExtendable for Mersenne7 {
    ghost use Rattle.test_quotient.specs.Mersenne7.{generators};
    ghost use Rattle.test_quotient.specs.Mersenne7Circle.{are_generators};
    ghost use Rattle.std.proofs.Common.{lit≤};

    const CIRCLE_TWO_ADICITY: usize = 7;

    ghost CIRCLE_TWO_ADICITY = { 7 };

    ghost generators = { generators };

    ghost at_least_two = { lit≤ tt };

    ghost at_most_62 = { lit≤ tt };

    ghost generators_law = { are_generators };

    fn circle_two_adic_generator(log_n: usize) -> (Self, Self) {
        let mut point = Self::circle_generator();
        for _ in log_n..Self::CIRCLE_TWO_ADICITY {
            point = Self::double_point(point.0, point.1);
        }
        point
    }
}
