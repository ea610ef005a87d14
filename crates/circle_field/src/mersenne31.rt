//! The prime field of `2^31 - 1` elements.
ghost use Rattle.std.specs.Prelude.{◌≡◌, ◌+◌, ◌*◌, ◌/◌, ◌%◌, ◌^◌, ◌<◌, ◌≤◌, MatchOption};
ghost use Rattle.circle_field.specs.Circle.{at, plus};

use crate::extension::ComplexExtendable;
use crate::field::{Field, Operations};
use std::ops::{Add, AddAssign, Mul, MulAssign, Neg, Sub, SubAssign};

/// An element of the prime field of `2^31 - 1` elements, the base field of Circle STARKs (IACR
/// ePrint 2024/278, section 3).
///
/// An element is stored as its residue below the order, so equal elements have equal bits.
#[derive(Clone, Copy, PartialEq, Eq, Hash, Debug)]
pub struct Mersenne31 {
    value: u32,
    ghost below_order: { value < 2147483647 },
}

/// The element 0, for constants of other types.
pub const ZERO: Mersenne31 = Mersenne31 { value: 0 };

/// The element 1, for constants of other types.
pub const ONE: Mersenne31 = Mersenne31 { value: 1 };

/// The element 2, for constants of other types.
pub const TWO: Mersenne31 = Mersenne31 { value: 2 };

/// The residue of the half of 1.
const HALF: u32 = 1073741824;

impl Mersenne31 {
    ghost use Rattle.circle_field.specs.Mersenne31.{order, residue, element, power, operations, generators};

    /// The number of elements: the prime `2^31 - 1`.
    pub const ORDER: u32 = 2147483647;

    /// The element of the residue `value`, or `None` where `value` is not below the order.
    pub fn try_new(value: u32) -> Option<Self>
        ensures { MatchOption result (order ≤ value) (λ a. residue a ≡ value) }
    {
        if value < Self::ORDER {
            Some(Mersenne31 { value })
        } else {
            None
        }
    }

    /// The residue of the element, which is below the order.
    pub fn value(&self) -> u32
        ensures same { result ≡ residue self.now }
        ensures canonical { result < order }
    {
        self.value
    }

    /// The element of a number below twice the order, by one subtraction at most.
    fn from_sum(sum: u32) -> Self
        requires { sum < order + order }
        ensures { result ≡ element sum }
    {
        Mersenne31 {
            value: if sum < Self::ORDER {
                sum
            } else {
                sum - Self::ORDER
            },
        }
    }

    /// The element of a number below `2^31` times the order.
    fn from_product(product: u64) -> Self
        requires { product < order * 2 ^ 31 }
        ensures { result ≡ element product }
    {
        Self::from_sum(fold_bits(product) as u32)
    }

    /// The element of half an even number, which is below `2^31` times the order.
    ///
    /// The low 31 bits of the half and its other bits are the two words of the even number, but for
    /// one shift of the lower word. So the compiler multiplies four pairs at a time in few steps.
    fn from_double(double: u64) -> Self
        requires even { double % 2 ≡ 0 }
        requires below { double < order * 2 ^ 32 }
        ensures { result ≡ element (double / 2) }
    {
        let low = (double & u32::MAX as u64) as u32;
        Self::from_sum((double >> 32) as u32 + (low >> 1))
    }

    /// A point of order `2^31` of the unit circle.
    fn circle_generator() -> (Self, Self)
        ensures { at result.0 result.1 ≡ generators 31 }
    {
        (
            Mersenne31 { value: 311014874 },
            Mersenne31 { value: 1584694829 },
        )
    }

    /// The element squared `times` times.
    fn exp_power_of_2(self, times: u32) -> Self
        ensures { result ≡ power self (2 ^ times) }
    {
        let mut squared = self;
        for _ in 0..times {
            squared = squared.square();
        }
        squared
    }

    /// The double of a point of the circle's group.
    fn double_point(x: Self, y: Self) -> (Self, Self)
        ensures { at result.0 result.1 ≡ plus operations (at x y) (at x y) }
    {
        (x * x - y * y, (x * y).double())
    }
}

/// The low 31 bits of a number plus its other bits, which has the same remainder by the order,
/// since `2^31` is 1 there.
pub(crate) fn fold_bits(int: u64) -> u64
    ensures { result ≡ int % 2 ^ 31 + int / 2 ^ 31 }
{
    (int & Mersenne31::ORDER as u64) + (int >> 31)
}

impl Operations for Mersenne31 {
    ghost use Rattle.circle_field.specs.Mersenne31.{operations};
    ghost use Rattle.circle_field.specs.Mersenne31Laws.{laws};

    ghost ops = { operations };

    ghost laws = { laws };
}

impl Add for Mersenne31 {
    type Output = Self;

    ghost use Rattle.circle_field.specs.Mersenne31.{operations};

    ghost add_gives = { λ a b r. r ≡ operations.add a b };

    fn add(self, rhs: Self) -> Self {
        Self::from_sum(self.value + rhs.value)
    }
}

impl Sub for Mersenne31 {
    type Output = Self;

    ghost use Rattle.circle_field.specs.Field.{sub};
    ghost use Rattle.circle_field.specs.Mersenne31.{operations};

    ghost sub_gives = { λ a b r. r ≡ sub operations a b };

    fn sub(self, rhs: Self) -> Self {
        Self::from_sum(self.value + (Self::ORDER - rhs.value))
    }
}

impl Mul for Mersenne31 {
    type Output = Self;

    ghost use Rattle.circle_field.specs.Mersenne31.{operations};

    ghost mul_gives = { λ a b r. r ≡ operations.mul a b };

    fn mul(self, rhs: Self) -> Self {
        Self::from_double(self.value as u64 * (rhs.value + rhs.value) as u64)
    }
}

impl Neg for Mersenne31 {
    type Output = Self;

    ghost use Rattle.circle_field.specs.Mersenne31.{operations};

    ghost neg_gives = { λ a r. r ≡ operations.neg a };

    fn neg(self) -> Self {
        Self::from_sum(Self::ORDER - self.value)
    }
}

impl AddAssign for Mersenne31 {
    ghost use Rattle.circle_field.specs.Mersenne31.{operations};

    ghost add_assign_gives = { λ a b r. r ≡ operations.add a b };

    fn add_assign(&mut self, rhs: Self) {
        *self = *self + rhs;
    }
}

impl SubAssign for Mersenne31 {
    ghost use Rattle.circle_field.specs.Field.{sub};
    ghost use Rattle.circle_field.specs.Mersenne31.{operations};

    ghost sub_assign_gives = { λ a b r. r ≡ sub operations a b };

    fn sub_assign(&mut self, rhs: Self) {
        *self = *self - rhs;
    }
}

impl MulAssign for Mersenne31 {
    ghost use Rattle.circle_field.specs.Mersenne31.{operations};

    ghost mul_assign_gives = { λ a b r. r ≡ operations.mul a b };

    fn mul_assign(&mut self, rhs: Self) {
        *self = *self * rhs;
    }
}

impl Field for Mersenne31 {
    ghost use Rattle.circle_field.specs.Mersenne31.{element};
    ghost use Rattle.circle_field.specs.Mersenne31Laws.{equal_exactly};
    ghost use Rattle.std.specs.Prelude.{refl};

    const ZERO: Self = Mersenne31 { value: 0 };

    const ONE: Self = Mersenne31 { value: 1 };

    const TWO: Self = Mersenne31 { value: 2 };

    ghost ZERO = { element 0 };

    ghost ONE = { element 1 };

    ghost TWO = { element 2 };

    ghost clone_law = { λ a b h. h };

    ghost clone_infallible_law = { λ a. tt };

    ghost zero_law = { refl };

    ghost one_law = { refl };

    ghost two_law = { refl };

    ghost can_add_law = { λ a b. tt };

    ghost add_law = { λ a b r h. h };

    ghost can_sub_law = { λ a b. tt };

    ghost sub_law = { λ a b r h. h };

    ghost can_mul_law = { λ a b. tt };

    ghost mul_law = { λ a b r h. h };

    ghost can_neg_law = { λ a. tt };

    ghost neg_law = { λ a r h. h };

    ghost eq_law = { equal_exactly };

    /// The inverse as the power of the order less 2: its bits are 29 ones, a zero and a one.
    fn try_inverse(&self) -> Option<Self> {
        if self.is_zero() {
            return None;
        }
        let p101 = self.exp_power_of_2(2) * *self;
        let ones_4 = p101.square() * p101;
        let ones_8 = ones_4.exp_power_of_2(4) * ones_4;
        let ones_8_shifted = ones_8.exp_power_of_2(4);
        let ones_12 = ones_8_shifted * ones_4;
        let ones_16 = ones_8_shifted.exp_power_of_2(4) * ones_8;
        let ones_28 = ones_16.exp_power_of_2(12) * ones_12;
        Some(ones_28.exp_power_of_2(3) * p101)
    }

    /// Half the residue where it is even, and otherwise half of its sum with the order, which is
    /// `2^30` more than half its other bits.
    fn halve(&self) -> Self {
        let half = self.value >> 1;
        Mersenne31 {
            value: if self.value % 2 == 1 {
                half + HALF
            } else {
                half
            },
        }
    }

    fn from_u64(int: u64) -> Self {
        Self::from_product(fold_bits(int))
    }
}

impl ComplexExtendable for Mersenne31 {
    ghost use Rattle.circle_field.specs.Mersenne31.{generators};
    ghost use Rattle.circle_field.specs.Mersenne31Circle.{are_generators};
    ghost use Rattle.std.proofs.Common.{lit≤};

    const CIRCLE_TWO_ADICITY: usize = 31;

    ghost CIRCLE_TWO_ADICITY = { 31 };

    ghost generators = { generators };

    ghost at_least_two = { lit≤ tt };

    ghost at_most_62 = { lit≤ tt };

    ghost generators_law = { are_generators };

    fn circle_two_adic_generator(log_n: usize) -> (Self, Self) {
        let mut point = Self::circle_generator();
        for _ in log_n..Self::CIRCLE_TWO_ADICITY {
            point = Self::double_point(point.0, point.1);
        }
        point
    }
}
