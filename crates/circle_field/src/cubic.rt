//! The cubic extension of Mersenne31.
ghost use Rattle.std.specs.Prelude.{◌≡◌, ◌*◌, ◌^◌, ◌<◌};
ghost use Rattle.circle_field.specs.Mersenne31.{residue, operations as base};
ghost use Rattle.circle_field.specs.CubicFive.{five};

use crate::extension::{ElementBytes, ExtensionField};
use crate::field::{Field, Operations};
use crate::mersenne31::{self, Mersenne31, fold_bits};
use std::ops::{Add, AddAssign, Mul, MulAssign, Neg, Sub, SubAssign};

/// An element of the field of `(2^31 - 1)^3` elements: a polynomial `c0 + c1 X + c2 X^2` over
/// [`Mersenne31`], where `X^3` is 5, which is no cube there.
#[derive(Clone, Copy, PartialEq, Eq, Hash, Debug)]
pub struct Cubic {
    c0: Mersenne31,
    c1: Mersenne31,
    c2: Mersenne31,
}

impl Cubic {
    ghost use Rattle.circle_field.specs.CubicField.{adjugate, norm};
    ghost use Rattle.circle_field.specs.Cubic.{triple_of};

    /// The product of the two conjugates.
    fn conjugates(&self) -> Self
        ensures { triple_of result ≡ adjugate base five (triple_of self.now) }
    {
        Cubic {
            c0: self.c0.square() - times_five(self.c1 * self.c2),
            c1: times_five(self.c2.square()) - self.c0 * self.c1,
            c2: self.c1.square() - self.c0 * self.c2,
        }
    }

    /// The product of all three conjugates, of which `conjugates` is that of two.
    fn norm(&self, conjugates: Self) -> Mersenne31
        requires { triple_of conjugates ≡ adjugate base five (triple_of self.now) }
        ensures { result ≡ norm base five (triple_of self.now) }
    {
        let high = self.c2 * conjugates.c1 + self.c1 * conjugates.c2;
        self.c0 * conjugates.c0 + times_five(high)
    }
}

/// The element times 5.
fn times_five(x: Mersenne31) -> Mersenne31
    ensures { result ≡ base.mul five x }
{
    x.double().double() + x
}

/// The product of the residues, which isn't reduced.
fn product(a: Mersenne31, b: Mersenne31) -> u64
    ensures product { result ≡ residue a * residue b }
    ensures below { result < 2 ^ 62 }
{
    a.value() as u64 * b.value() as u64
}

impl Operations for Cubic {
    ghost use Rattle.circle_field.specs.Cubic.{operations};
    ghost use Rattle.circle_field.specs.CubicOperations.{laws};

    ghost ops = { operations };

    ghost laws = { laws };
}

impl Add for Cubic {
    type Output = Self;

    ghost use Rattle.circle_field.specs.Cubic.{operations};

    ghost add_gives = { λ a b r. r ≡ operations.add a b };

    fn add(self, rhs: Self) -> Self {
        Cubic {
            c0: self.c0 + rhs.c0,
            c1: self.c1 + rhs.c1,
            c2: self.c2 + rhs.c2,
        }
    }
}

impl Sub for Cubic {
    type Output = Self;

    ghost use Rattle.circle_field.specs.Field.{sub};
    ghost use Rattle.circle_field.specs.Cubic.{operations};

    ghost sub_gives = { λ a b r. r ≡ sub operations a b };

    fn sub(self, rhs: Self) -> Self {
        Cubic {
            c0: self.c0 - rhs.c0,
            c1: self.c1 - rhs.c1,
            c2: self.c2 - rhs.c2,
        }
    }
}

impl Mul for Cubic {
    type Output = Self;

    ghost use Rattle.circle_field.specs.Cubic.{operations};

    ghost mul_gives = { λ a b r. r ≡ operations.mul a b };

    /// The nine products of coefficients, summed before they are reduced. Those that count five
    /// times are folded first, so that no sum passes 64 bits.
    fn mul(self, rhs: Self) -> Self {
        let high = fold_bits(product(self.c1, rhs.c2) + product(self.c2, rhs.c1));
        let top = fold_bits(product(self.c2, rhs.c2));
        let cross = product(self.c0, rhs.c1) + product(self.c1, rhs.c0);
        let outer = product(self.c0, rhs.c2) + product(self.c2, rhs.c0);
        Cubic {
            c0: Mersenne31::from_u64(product(self.c0, rhs.c0) + 5 * high),
            c1: Mersenne31::from_u64(cross + 5 * top),
            c2: Mersenne31::from_u64(outer + product(self.c1, rhs.c1)),
        }
    }
}

impl Neg for Cubic {
    type Output = Self;

    ghost use Rattle.circle_field.specs.Cubic.{operations};

    ghost neg_gives = { λ a r. r ≡ operations.neg a };

    fn neg(self) -> Self {
        Cubic {
            c0: -self.c0,
            c1: -self.c1,
            c2: -self.c2,
        }
    }
}

impl AddAssign for Cubic {
    ghost use Rattle.circle_field.specs.Cubic.{operations};

    ghost add_assign_gives = { λ a b r. r ≡ operations.add a b };

    fn add_assign(&mut self, rhs: Self) {
        *self = *self + rhs;
    }
}

impl SubAssign for Cubic {
    ghost use Rattle.circle_field.specs.Field.{sub};
    ghost use Rattle.circle_field.specs.Cubic.{operations};

    ghost sub_assign_gives = { λ a b r. r ≡ sub operations a b };

    fn sub_assign(&mut self, rhs: Self) {
        *self = *self - rhs;
    }
}

impl MulAssign for Cubic {
    ghost use Rattle.circle_field.specs.Cubic.{operations};

    ghost mul_assign_gives = { λ a b r. r ≡ operations.mul a b };

    fn mul_assign(&mut self, rhs: Self) {
        *self = *self * rhs;
    }
}

impl Field for Cubic {
    ghost use Rattle.circle_field.specs.Cubic.{operations};
    ghost use Rattle.circle_field.specs.Field.{two};
    ghost use Rattle.circle_field.specs.CubicOperations.{equal_exactly};
    ghost use Rattle.std.specs.Prelude.{refl};

    const ZERO: Self = Cubic {
        c0: mersenne31::ZERO,
        c1: mersenne31::ZERO,
        c2: mersenne31::ZERO,
    };

    const ONE: Self = Cubic {
        c0: mersenne31::ONE,
        c1: mersenne31::ZERO,
        c2: mersenne31::ZERO,
    };

    const TWO: Self = Cubic {
        c0: mersenne31::TWO,
        c1: mersenne31::ZERO,
        c2: mersenne31::ZERO,
    };

    ghost ZERO = { operations.zero };

    ghost ONE = { operations.one };

    ghost TWO = { two operations };

    ghost clone_law = { λ a b h. h };

    ghost clone_infallible_law = { λ a. tt };

    ghost zero_law = { refl };

    ghost one_law = { refl };

    ghost two_law = { refl };

    ghost can_add_law = { λ a b. tt };

    ghost add_law = { λ a b r h. h };

    ghost can_sub_law = { λ a b. tt };

    ghost sub_law = { λ a b r h. h };

    ghost can_mul_law = { λ a b. tt };

    ghost mul_law = { λ a b r h. h };

    ghost can_neg_law = { λ a. tt };

    ghost neg_law = { λ a r h. h };

    ghost eq_law = { equal_exactly };

    fn try_inverse(&self) -> Option<Self> {
        let conjugates = self.conjugates();
        match self.norm(conjugates).try_inverse() {
            Some(scale) => Some(Cubic {
                c0: scale * conjugates.c0,
                c1: scale * conjugates.c1,
                c2: scale * conjugates.c2,
            }),
            None => None,
        }
    }

    fn halve(&self) -> Self {
        Cubic {
            c0: self.c0.halve(),
            c1: self.c1.halve(),
            c2: self.c2.halve(),
        }
    }

    fn from_u64(int: u64) -> Self {
        Self::from_base(Mersenne31::from_u64(int))
    }
}

impl ExtensionField<Mersenne31> for Cubic {
    ghost use Rattle.circle_field.specs.Cubic.{embed, coefficients};
    ghost use Rattle.circle_field.specs.CubicOperations.{is_embedding, are_coefficients};
    ghost use Rattle.std.proofs.Common.{lit≤};

    const DEGREE: usize = 3;

    ghost DEGREE = { 3 };

    ghost embed = { embed };

    ghost coefficients = { coefficients };

    ghost degree_positive = { lit≤ tt };

    ghost embedding = { is_embedding };

    ghost are_coefficients = { are_coefficients };

    fn from_base(x: Mersenne31) -> Self {
        Cubic {
            c0: x,
            c1: Mersenne31::ZERO,
            c2: Mersenne31::ZERO,
        }
    }

    fn coefficient(&self, i: usize) -> Mersenne31 {
        match i {
            0 => self.c0,
            1 => self.c1,
            _ => self.c2,
        }
    }

    fn with_coefficient(&self, i: usize, coefficient: Mersenne31) -> Self {
        match i {
            0 => Cubic {
                c0: coefficient,
                ..*self
            },
            1 => Cubic {
                c1: coefficient,
                ..*self
            },
            _ => Cubic {
                c2: coefficient,
                ..*self
            },
        }
    }

    fn times_base(self, factor: Mersenne31) -> Self {
        Cubic {
            c0: factor * self.c0,
            c1: factor * self.c1,
            c2: factor * self.c2,
        }
    }

    fn from_coefficients(coeffs: &[Mersenne31]) -> Self {
        Cubic {
            c0: coeffs[0],
            c1: coeffs[1],
            c2: coeffs[2],
        }
    }
}

/// The bytes of the coefficients of 1, `X` and `X^2`, in this order.
impl ElementBytes for Cubic {
    type Bytes = [u8; 12];

    ghost use Rattle.circle_field.specs.Cubic.{cubic_bytes};
    ghost use Rattle.circle_field.specs.CubicBytes.{cubic_told_apart};
    ghost use Rattle.std.specs.Prelude.{refl};

    const BYTES: usize = 12;

    ghost BYTES = { 12 };

    ghost bytes = { cubic_bytes };

    ghost count = { λ a. refl };

    ghost told_apart = { cubic_told_apart };

    fn to_bytes(&self) -> [u8; 12] {
        let [a0, a1, a2, a3] = self.c0.to_bytes();
        let [b0, b1, b2, b3] = self.c1.to_bytes();
        let [c0, c1, c2, c3] = self.c2.to_bytes();
        [a0, a1, a2, a3, b0, b1, b2, b3, c0, c1, c2, c3]
    }
}
