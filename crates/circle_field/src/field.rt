//! The trait of fields.
ghost use Rattle.std.specs.Prelude.{◌≡◌, ◌↔◌, IsTrue, IsNone, IfSome, IfOk, map, true};
ghost use Rattle.std.specs.List.{range_with_len};
ghost use Rattle.circle_field.specs.Field.{FieldOps, FieldLaws, of_nat, nth_power, two, sub};

use std::alloc::{AllocError, Global};
use std::fmt::Debug;
use std::hash::Hash;
use std::ops::{Add, Mul, Neg, Sub};

/// The operations of a field as contracts see them, and their laws.
///
/// They stand in a trait of their own so that a type can name them in an invariant under one bound.
pub trait Operations: Copy {
    ghost ops: { FieldOps Self };

    ghost laws: { FieldLaws ops };
}

/// A field in which 2 is not 0.
///
/// Every operator is total, and gives what [`Operations`] says; two elements are equal by `==`
/// exactly where they are the same element.
pub trait Field: Operations
    + Eq
    + Hash
    + Debug
    + Add<Self, Output = Self>
    + Sub<Self, Output = Self>
    + Mul<Self, Output = Self>
    + Neg<Output = Self> {
    /// The neutral element of the sum.
    const ZERO: Self;

    /// The neutral element of the product.
    const ONE: Self;

    /// `1 + 1`.
    const TWO: Self;

    ghost ZERO: { Self };

    ghost ONE: { Self };

    ghost TWO: { Self };

    /// Whether this is the element 0.
    fn is_zero(&self) -> bool
        ensures { IsTrue result ↔ (self.now ≡ Self.ops.zero) }
    {
        *self == Self::ZERO
    }

    /// The element times itself.
    fn square(&self) -> Self
        ensures { result ≡ Self.ops.mul self.now self.now }
    {
        *self * *self
    }

    /// The element plus itself.
    fn double(&self) -> Self
        ensures { result ≡ Self.ops.add self.now self.now }
    {
        *self + *self
    }

    /// The element to the power `power`, so 1 for the power 0.
    fn exp_u64(&self, power: u64) -> Self
        ensures { result ≡ nth_power Self.ops self.now power }
    {
        let mut result = Self::ONE;
        let mut base = *self;
        let mut rest = power;
        while rest != 0 {
            if rest % 2 == 1 {
                result = result * base;
            }
            base = base.square();
            rest /= 2;
        }
        result
    }

    /// The element times `2^exp`.
    fn mul_2exp_u64(&self, exp: u64) -> Self
        ensures { result ≡ Self.ops.mul self.now (nth_power Self.ops (two Self.ops) exp) }
    {
        *self * Self::TWO.exp_u64(exp)
    }

    /// Half the element, which plus itself is the element.
    fn halve(&self) -> Self
        ensures { result ≡ Self.ops.mul self.now (Self.ops.inv (two Self.ops)) }
    {
        match Self::TWO.try_inverse() {
            Some(half) => *self * half,
            None => unreachable!(),
        }
    }

    /// The element divided by `2^exp`.
    fn div_2exp_u64(&self, exp: u64) -> Self
        ensures { result
            ≡ Self.ops.mul self.now (nth_power Self.ops (Self.ops.inv (two Self.ops)) exp) }
    {
        *self * Self::ONE.halve().exp_u64(exp)
    }

    /// The powers of `base` from 0 to `n - 1`, called as `F::powers(alloc, base, n)`. Fails where
    /// memory is refused.
    fn powers(alloc: Global, base: Self, n: usize) -> Result<Vec<Self>, AllocError>
        ensures { IfOk result
            (λ powers. powers.items ≡ map (λ i. nth_power Self.ops base i) (range_with_len 0 n)) }
    {
        let mut powers = Vec::with_capacity(alloc, n)?;
        let mut power = Self::ONE;
        for _ in 0..n {
            powers.push(power)?;
            power = power * base;
        }
        Ok(powers)
    }

    /// The inverse, which times the element is 1; `None` exactly at 0.
    fn try_inverse(&self) -> Option<Self>
        ensures none { IsNone result ↔ (self.now ≡ Self.ops.zero) }
        ensures inverse { IfSome result (λ b. b ≡ Self.ops.inv self.now) };

    /// The sum of `int` ones.
    fn from_u64(int: u64) -> Self
        ensures { result ≡ of_nat Self.ops int };

    ghost clone_law: { (a b : Self) → Self.is_clone a b → b ≡ a };

    ghost clone_infallible_law: { (a : Self) → Self.is_infallible a };

    ghost zero_law: { ZERO ≡ Self.ops.zero };

    ghost one_law: { ONE ≡ Self.ops.one };

    ghost two_law: { TWO ≡ two Self.ops };

    ghost can_add_law: { (a b : Self) → Self.can_add a b };

    ghost add_law: { (a b r : Self) → Self.add_gives a b r → r ≡ Self.ops.add a b };

    ghost can_sub_law: { (a b : Self) → Self.can_sub a b };

    ghost sub_law: { (a b r : Self) → Self.sub_gives a b r → r ≡ sub Self.ops a b };

    ghost can_mul_law: { (a b : Self) → Self.can_mul a b };

    ghost mul_law: { (a b r : Self) → Self.mul_gives a b r → r ≡ Self.ops.mul a b };

    ghost can_neg_law: { (a : Self) → Self.can_neg a };

    ghost neg_law: { (a r : Self) → Self.neg_gives a r → r ≡ Self.ops.neg a };

    ghost eq_law: { (a b : Self) → (Self.eq a b ≡ true) ↔ (a ≡ b) };
}
