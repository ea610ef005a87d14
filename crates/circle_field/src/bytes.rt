//! Elements of [`Mersenne31`] as numbers and as bytes.
ghost use Rattle.std.specs.Prelude.{refl};
ghost use Rattle.circle_field.specs.Bytes.{bytes, bytes_told_apart};
ghost use Rattle.circle_field.specs.Mersenne31Laws.{numbers_told_apart};
ghost use Rattle.circle_field.specs.Mersenne31Prime.{order_prime};

use crate::extension::{ElementBytes, PrimeField64};
use crate::mersenne31::Mersenne31;

impl PrimeField64 for Mersenne31 {
    const ORDER: u64 = 2147483647;

    ghost ORDER = { 2147483647 };

    ghost order_prime = { order_prime };

    ghost numbers_told_apart = { numbers_told_apart };

    fn as_u64(&self) -> u64 {
        self.value() as u64
    }
}

/// The residue in four bytes, the greatest first.
impl ElementBytes for Mersenne31 {
    type Bytes = [u8; 4];

    const BYTES: usize = 4;

    ghost BYTES = { 4 };

    ghost bytes = { bytes };

    ghost count = { λ a. refl };

    ghost told_apart = { bytes_told_apart };

    fn to_bytes(&self) -> [u8; 4] {
        self.value().to_be_bytes()
    }
}
