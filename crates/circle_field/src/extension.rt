//! Extensions of fields, prime fields, and fields whose unit circle has a large cyclic group.
ghost use Rattle.std.specs.Prelude.{◌≡◌, ℕ, ◌≤◌, ◌<◌, List, [], ◌∷◌, length, Some, slice_get};
ghost use Rattle.std.specs.Prelude.{slice_set};
ghost use Rattle.std.proofs.Common.{lit≤};
ghost use Rattle.circle_field.specs.Field.{IsEmbedding, of_nat};
ghost use Rattle.circle_field.specs.Primes.{IsPrime};
ghost use Rattle.circle_field.specs.Extension.{AreCoefficients, identity_embedding};
ghost use Rattle.circle_field.specs.Extension.{own_coefficient};
ghost use Rattle.circle_field.specs.Circle.{Coordinates, at, AreGenerators};

use crate::field::Field;
use std::convert::AsSlice;

/// A field over which the unit circle `x^2 + y^2 = 1` has a cyclic group of `2^CIRCLE_TWO_ADICITY`
/// points (Circle STARKs, IACR ePrint 2024/278, section 3).
pub trait ComplexExtendable: Field {
    /// The binary logarithm of the group's order: from 2 to 62.
    const CIRCLE_TWO_ADICITY: usize;

    ghost CIRCLE_TWO_ADICITY: { ℕ };

    ghost generators: { ℕ → Coordinates Self };

    /// The coordinates of a point of order `2^log_n`, whose double is the result for `log_n - 1`.
    ///
    /// Requires `log_n <= CIRCLE_TWO_ADICITY`.
    fn circle_two_adic_generator(log_n: usize) -> (Self, Self)
        requires { log_n ≤ CIRCLE_TWO_ADICITY }
        ensures { at result.0 result.1 ≡ generators log_n };

    ghost at_least_two: { 2 ≤ CIRCLE_TWO_ADICITY };

    ghost at_most_62: { CIRCLE_TWO_ADICITY ≤ 62 };

    ghost generators_law: { AreGenerators Self.ops CIRCLE_TWO_ADICITY generators };
}

/// An extension of the field `F`: a field with an embedding of `F`, whose elements are told by
/// `DEGREE` coefficients in `F`.
pub trait ExtensionField<F: Field>: Field {
    /// The number of coefficients, at least 1.
    const DEGREE: usize;

    ghost DEGREE: { ℕ };

    ghost embed: { F → Self };

    ghost coefficients: { Self → List F };

    /// The element of the base field as one of the extension.
    fn from_base(x: F) -> Self
        ensures { result ≡ embed x };

    /// The coefficient at place `i`.
    ///
    /// Requires `i < DEGREE`.
    fn coefficient(&self, i: usize) -> F
        requires { i < DEGREE }
        ensures { slice_get (coefficients self.now) i ≡ Some result };

    /// The element with another coefficient at place `i`.
    ///
    /// Requires `i < DEGREE`.
    fn with_coefficient(&self, i: usize, coefficient: F) -> Self
        requires { i < DEGREE }
        ensures { coefficients result ≡ slice_set (coefficients self.now) i coefficient };

    /// The element with these coefficients.
    ///
    /// Requires `DEGREE` of them.
    fn from_coefficients(coeffs: &[F]) -> Self
        requires { length coeffs.now ≡ DEGREE }
        ensures { coefficients result ≡ coeffs.now };

    /// The element times an element of the base field.
    fn times_base(self, factor: F) -> Self
        ensures { result ≡ Self.ops.mul (embed factor) self }
    {
        Self::from_base(factor) * self
    }

    ghost degree_positive: { 1 ≤ DEGREE };

    ghost embedding: { IsEmbedding F.ops Self.ops embed };

    ghost are_coefficients: { AreCoefficients F.ops Self.ops embed DEGREE coefficients };
}

/// Every field is an extension of itself of degree 1.
impl<F: Field> ExtensionField<F> for F {
    const DEGREE: usize = 1;

    ghost DEGREE = { 1 };

    ghost embed = { λ x. x };

    ghost coefficients = { λ x. x ∷ [] };

    ghost degree_positive = { lit≤ tt };

    ghost embedding = { identity_embedding F.ops };

    ghost are_coefficients = { own_coefficient F.ops };

    fn from_base(x: F) -> F {
        x
    }

    fn coefficient(&self, _i: usize) -> F {
        *self
    }

    fn with_coefficient(&self, _i: usize, coefficient: F) -> F {
        coefficient
    }

    fn from_coefficients(coeffs: &[F]) -> F {
        coeffs[0]
    }
}

/// A field of prime order below `2^64`.
pub trait PrimeField64: Field {
    /// The number of elements, a prime: each element is the sum of as many ones as one number below
    /// it, and of no other such number.
    const ORDER: u64;

    ghost ORDER: { ℕ };

    /// The number below the order of which the element is that many ones.
    fn as_u64(&self) -> u64
        ensures below { result < ORDER }
        ensures same { of_nat Self.ops result ≡ self.now };

    ghost order_prime: { IsPrime ORDER };

    ghost numbers_told_apart: { (m n : ℕ) → m < ORDER → n < ORDER → of_nat Self.ops m
        ≡ of_nat Self.ops n → m ≡ n };
}

/// Elements with a fixed number of bytes.
pub trait ElementBytes: Copy {
    /// The bytes of an element.
    type Bytes: AsSlice<u8> + Drop;

    /// How many bytes an element has.
    const BYTES: usize;

    ghost BYTES: { ℕ };

    ghost bytes: { Self → List ℕ };

    /// The bytes of the element.
    fn to_bytes(&self) -> Self::Bytes
        ensures { Self.Bytes.items result ≡ bytes self.now };

    ghost count: { (a : Self) → length (bytes a) ≡ BYTES };

    ghost told_apart: { (a b : Self) → bytes a ≡ bytes b → a ≡ b };
}
