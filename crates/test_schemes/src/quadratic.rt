//! The quadratic extension of Mersenne31 by a square root of -1, over which the unit circle has no
//! point for two coordinates of the projective line.
ghost use Rattle.std.specs.Prelude.{◌≡◌};
ghost use Rattle.circle_field.specs.Mersenne31.{operations as base};

use circle_field::mersenne31::{self, Mersenne31};
use circle_field::{ExtensionField, Field, Operations};
use std::ops::{Add, Mul, Neg, Sub};

/// An element of the field of `(2^31 - 1)^2` elements: a polynomial `c0 + c1 X` over
/// [`Mersenne31`], where `X^2` is -1, which is no square there.
#[derive(Clone, Copy, PartialEq, Eq, Hash, Debug)]
pub struct Quadratic {
    c0: Mersenne31,
    c1: Mersenne31,
}

impl Quadratic {
    ghost use Rattle.test_schemes.specs.QuadraticField.{norm};
    ghost use Rattle.test_schemes.specs.Quadratic.{pair_of};

    /// The product of the element with its conjugate.
    fn norm(&self) -> Mersenne31
        ensures { result ≡ norm base (pair_of self.now) }
    {
        self.c0.square() + self.c1.square()
    }
}

impl Operations for Quadratic {
    ghost use Rattle.test_schemes.specs.Quadratic.{operations};
    ghost use Rattle.test_schemes.specs.QuadraticOperations.{laws};

    ghost ops = { operations };

    ghost laws = { laws };
}

impl Add for Quadratic {
    type Output = Self;

    ghost use Rattle.test_schemes.specs.Quadratic.{operations};

    ghost add_gives = { λ a b r. r ≡ operations.add a b };

    fn add(self, rhs: Self) -> Self {
        Quadratic {
            c0: self.c0 + rhs.c0,
            c1: self.c1 + rhs.c1,
        }
    }
}

impl Sub for Quadratic {
    type Output = Self;

    ghost use Rattle.circle_field.specs.Field.{sub};
    ghost use Rattle.test_schemes.specs.Quadratic.{operations};

    ghost sub_gives = { λ a b r. r ≡ sub operations a b };

    fn sub(self, rhs: Self) -> Self {
        Quadratic {
            c0: self.c0 - rhs.c0,
            c1: self.c1 - rhs.c1,
        }
    }
}

impl Mul for Quadratic {
    type Output = Self;

    ghost use Rattle.test_schemes.specs.Quadratic.{operations};

    ghost mul_gives = { λ a b r. r ≡ operations.mul a b };

    fn mul(self, rhs: Self) -> Self {
        Quadratic {
            c0: self.c0 * rhs.c0 - self.c1 * rhs.c1,
            c1: self.c0 * rhs.c1 + self.c1 * rhs.c0,
        }
    }
}

impl Neg for Quadratic {
    type Output = Self;

    ghost use Rattle.test_schemes.specs.Quadratic.{operations};

    ghost neg_gives = { λ a r. r ≡ operations.neg a };

    fn neg(self) -> Self {
        Quadratic {
            c0: -self.c0,
            c1: -self.c1,
        }
    }
}

impl Field for Quadratic {
    ghost use Rattle.test_schemes.specs.Quadratic.{operations};
    ghost use Rattle.circle_field.specs.Field.{two};
    ghost use Rattle.test_schemes.specs.QuadraticOperations.{equal_exactly};
    ghost use Rattle.std.specs.Prelude.{refl};

    const ZERO: Self = Quadratic {
        c0: mersenne31::ZERO,
        c1: mersenne31::ZERO,
    };

    const ONE: Self = Quadratic {
        c0: mersenne31::ONE,
        c1: mersenne31::ZERO,
    };

    const TWO: Self = Quadratic {
        c0: mersenne31::TWO,
        c1: mersenne31::ZERO,
    };

    ghost ZERO = { operations.zero };

    ghost ONE = { operations.one };

    ghost TWO = { two operations };

    ghost clone_law = { λ a b h. h };

    ghost clone_infallible_law = { λ a. tt };

    ghost zero_law = { refl };

    ghost one_law = { refl };

    ghost two_law = { refl };

    ghost can_add_law = { λ a b. tt };

    ghost add_law = { λ a b r h. h };

    ghost can_sub_law = { λ a b. tt };

    ghost sub_law = { λ a b r h. h };

    ghost can_mul_law = { λ a b. tt };

    ghost mul_law = { λ a b r h. h };

    ghost can_neg_law = { λ a. tt };

    ghost neg_law = { λ a r h. h };

    ghost eq_law = { equal_exactly };

    fn try_inverse(&self) -> Option<Self> {
        match self.norm().try_inverse() {
            Some(scale) => Some(Quadratic {
                c0: scale * self.c0,
                c1: scale * -self.c1,
            }),
            None => None,
        }
    }

    fn from_u64(int: u64) -> Self {
        Self::from_base(Mersenne31::from_u64(int))
    }
}

impl ExtensionField<Mersenne31> for Quadratic {
    ghost use Rattle.test_schemes.specs.Quadratic.{embed, coefficients};
    ghost use Rattle.test_schemes.specs.QuadraticOperations.{is_embedding, are_coefficients};
    ghost use Rattle.std.proofs.Common.{lit≤};

    const DEGREE: usize = 2;

    ghost DEGREE = { 2 };

    ghost embed = { embed };

    ghost coefficients = { coefficients };

    ghost degree_positive = { lit≤ tt };

    ghost embedding = { is_embedding };

    ghost are_coefficients = { are_coefficients };

    fn from_base(x: Mersenne31) -> Self {
        Quadratic {
            c0: x,
            c1: Mersenne31::ZERO,
        }
    }

    fn coefficient(&self, i: usize) -> Mersenne31 {
        match i {
            0 => self.c0,
            _ => self.c1,
        }
    }

    fn with_coefficient(&self, i: usize, coefficient: Mersenne31) -> Self {
        match i {
            0 => Quadratic {
                c0: coefficient,
                c1: self.c1,
            },
            _ => Quadratic {
                c0: self.c0,
                c1: coefficient,
            },
        }
    }

    fn from_coefficients(coeffs: &[Mersenne31]) -> Self {
        Quadratic {
            c0: coeffs[0],
            c1: coeffs[1],
        }
    }
}
