//! The calls of fields that allocate nothing: all but `powers` and `batch_multiplicative_inverse`.
use crate::plane::cubic;
use crate::told::{Stage, Told, digest, told_numbers, unfit, with_number};
use anyhow::Result;
use circle_field::laws::{powers_multiply, sums_add};
use circle_field::{
    ComplexExtendable, Cubic, ElementBytes, ExtensionField, Field, Mersenne31, PrimeField64,
};

// What the operators and the calls of the base field return at these elements.
fn of_base(one: Mersenne31, other: Mersenne31) -> u32 {
    let mut changed = one;
    changed += other;
    changed *= other;
    changed -= one;
    powers_multiply(one, 2, 3);
    sums_add(one, other, 2, 3);
    digest(&[
        one + other,
        one - other,
        one * other,
        -one,
        changed,
        one.square(),
        one.double(),
        one.halve(),
        one.exp_u64(5),
        one.mul_2exp_u64(3),
        one.div_2exp_u64(3),
        one.try_inverse().unwrap_or(other),
        Mersenne31::from_u64(1 << 40),
        Mersenne31::try_new(7).unwrap_or(other),
    ])
}

// What the operators and the calls of the extension return at these elements.
fn of_extension(one: Cubic, other: Cubic) -> u32 {
    let mut changed = one;
    changed += other;
    changed *= other;
    changed -= one;
    digest(&[
        one + other,
        one - other,
        one * other,
        -one,
        changed,
        one.square(),
        one.double(),
        one.halve(),
        one.exp_u64(5),
        one.mul_2exp_u64(3),
        one.div_2exp_u64(3),
        one.try_inverse().unwrap_or(other),
        Cubic::from_u64(1 << 40),
    ])
}

// What the calls that join the fields return at an element of each.
fn of_both(base: Mersenne31, extended: Cubic) -> u32 {
    digest(&[
        Cubic::from_base(base),
        extended.with_coefficient(1, base),
        extended.times_base(base),
        Cubic::from_coefficients(&[base, extended.coefficient(2), base]),
    ])
}

// The number that bytes come to.
fn of_bytes(bytes: &[u8]) -> u32 {
    let mut sum = 0;
    for byte in bytes {
        sum = with_number(sum, u32::from(*byte));
    }
    sum
}

// What the calls that read an element of each field return.
fn of_readers(base: Mersenne31, extended: Cubic) -> [u32; 5] {
    let is_same = u32::from(base == Mersenne31::ONE) + u32::from(extended == Cubic::ONE);
    [
        is_same,
        u32::from(base.is_zero()) + u32::from(extended.is_zero()),
        (base.as_u64() % 1000) as u32 + base.value() % 1000,
        of_bytes(base.to_bytes().as_slice()),
        of_bytes(extended.to_bytes().as_slice()),
    ]
}

/// Those calls.
pub fn fields(stage: Stage) -> Result<Told> {
    stage.begin()?;
    let (base, extended) = (Mersenne31::from_u64(12345), cubic([2, 7, 1]));
    let (x, y) = Mersenne31::circle_two_adic_generator(5);
    if base.is_zero() || extended.is_zero() {
        return unfit("an element is 0");
    }
    let numbers = [
        of_base(base, x),
        of_extension(extended, cubic([0, 1, 5])),
        of_both(y, extended),
        digest(&of_readers(base, extended).map(|n| Mersenne31::from_u64(u64::from(n)))),
    ];
    Ok(told_numbers(&numbers))
}
