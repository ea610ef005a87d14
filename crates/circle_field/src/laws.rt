//! Laws of sums and powers. The calls of this module return nothing, take no memory and carry what
//! their contracts say.
ghost use Rattle.std.specs.Prelude.{◌≡◌, ◌≢◌, ◌+◌};
ghost use Rattle.circle_field.specs.Field.{nth_power, of_nat};

use crate::field::Field;

/// The power by a sum of exponents is the product of the powers, that of a square is the power by
/// twice the exponent, and no power of an element other than 0 is 0.
pub fn powers_multiply<F: Field>(base: F, m: usize, n: usize)
    ensures sum { nth_power F.ops base (m + n)
        ≡ F.ops.mul (nth_power F.ops base m) (nth_power F.ops base n) }
    ensures square { nth_power F.ops (F.ops.mul base base) n ≡ nth_power F.ops base (n + n) }
    ensures nonzero { base ≢ F.ops.zero → nth_power F.ops base n ≢ F.ops.zero }
{
    let _law = (base, m, n);
}

/// The sum of `m + n` ones is that of `m` and that of `n` ones, and an element and its sum with
/// another determine the other.
pub fn sums_add<F: Field>(left: F, right: F, m: usize, n: usize)
    ensures ones { of_nat F.ops (m + n) ≡ F.ops.add (of_nat F.ops m) (of_nat F.ops n) }
    ensures told { (other : F) → F.ops.add left right ≡ F.ops.add left other → right ≡ other }
{
    let _law = (left, right, m, n);
}
