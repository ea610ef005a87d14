//! The prime field.
use circle_field::{ComplexExtendable, Field, Mersenne31};

const ORDER: u32 = 2147483647;

fn minus_one() -> Mersenne31 {
    -Mersenne31::ONE
}

#[test]
fn try_new_takes_residues_below_the_order(rt: HostRuntime) {
    assert_eq!(rt; Mersenne31::try_new(0), Some(Mersenne31::ZERO));
    assert_eq!(rt; Mersenne31::try_new(ORDER - 1), Some(minus_one()));
    assert_eq!(rt; Mersenne31::try_new(ORDER), None);
    assert_eq!(rt; Mersenne31::try_new(u32::MAX), None);
}

#[test]
fn from_u64_reduces(rt: HostRuntime) {
    assert_eq!(rt; Mersenne31::from_u64(ORDER as u64), Mersenne31::ZERO);
    assert_eq!(rt; Mersenne31::from_u64(2 * ORDER as u64), Mersenne31::ZERO);
    assert_eq!(rt; Mersenne31::from_u64(u64::MAX).value(), 3);
}

#[test]
fn in_place(rt: HostRuntime) {
    let mut element = minus_one();
    element += Mersenne31::from_u64(5);
    element *= Mersenne31::from_u64(3);
    assert_eq!(rt; element.value(), 12);
    element -= Mersenne31::from_u64(13);
    assert_eq!(rt; element, minus_one());
}

// Binary logarithms of orders, and the coordinates of the generators of these orders.
const GENERATORS: &[(usize, u32, u32)] = &[
    (16, 2135874973, 483411332),
    (3, 32768, 2147450879),
    (1, 2147483646, 0),
    (0, 1, 0),
];

#[test]
fn generators(rt: HostRuntime) {
    for (bits, x, y) in GENERATORS {
        let (found_x, found_y) = Mersenne31::circle_two_adic_generator(*bits);
        assert_eq!(rt; (found_x.value(), found_y.value()), (*x, *y), "{bits} bits");
    }
}
