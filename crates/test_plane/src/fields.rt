//! Inverses together, and powers in the quadratic extension.
use crate::transform::{MEMORY, are_nonzero};
use circle_field::{ExtensionField, Field, Mersenne31, batch_multiplicative_inverse};
use test_schemes::expect;
use test_schemes::quadratic::Quadratic;

fn element(value: u64) -> Mersenne31 {
    Mersenne31::from_u64(value)
}

// The polynomial with these coefficients.
fn quadratic(c0: u64, c1: u64) -> Quadratic {
    Quadratic::from_coefficients(&[element(c0), element(c1)])
}

#[test]
fn inverses_together(rt: HostRuntime) {
    let elements = [element(1), element(2), element(5)];
    assert!(rt; are_nonzero(&elements));
    let inverses = batch_multiplicative_inverse(rt.alloc(), &elements).expect(&rt, MEMORY);
    let expected = [element(1), element(1073741824), element(858993459)];
    expect!(&rt; inverses.as_slice() == expected.as_slice());
}

#[test]
fn powers(rt: HostRuntime) {
    let expected = [
        quadratic(1, 0),
        quadratic(0, 1),
        quadratic(2147483646, 0),
        quadratic(0, 2147483646),
    ];
    let powers = Quadratic::powers(rt.alloc(), quadratic(0, 1), 4).expect(&rt, MEMORY);
    expect!(&rt; powers.as_slice() == expected.as_slice());
}
