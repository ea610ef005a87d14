//! The cubic extension.
use circle_field::{Cubic, ElementBytes, ExtensionField, Field, Mersenne31, PrimeField64};

fn cubic(c0: u64, c1: u64, c2: u64) -> Cubic {
    let coeffs = [
        Mersenne31::from_u64(c0),
        Mersenne31::from_u64(c1),
        Mersenne31::from_u64(c2),
    ];
    Cubic::from_coefficients(&coeffs)
}

#[test]
fn coefficients(rt: HostRuntime) {
    let a = cubic(7, 8, 9);
    let (c0, c1, c2): (Mersenne31, Mersenne31, Mersenne31) = (
        a.coefficient(0),
        a.coefficient(1),
        a.coefficient(2),
    );
    assert_eq!(rt; (c0.value(), c1.value(), c2.value()), (7, 8, 9));
    assert_eq!(rt; Cubic::from_base(Mersenne31::TWO), Cubic::TWO);
}

#[test]
fn in_place(rt: HostRuntime) {
    let mut element = cubic(1, 2, 3);
    element += cubic(1, 1, 1);
    element *= cubic(0, 1, 0);
    assert_eq!(rt; element, cubic(20, 2, 3));
    element -= cubic(20, 2, 4);
    assert_eq!(rt; element, cubic(0, 0, 2147483646));
}

#[test]
fn bytes(rt: HostRuntime) {
    assert_eq!(rt; (-Mersenne31::ONE).as_u64(), 2147483646);
    assert_eq!(rt; (-Mersenne31::ONE).to_bytes(), [127, 255, 255, 254]);
    assert_eq!(rt;
        cubic(258, 0, 2147483646).to_bytes(),
        [0, 0, 1, 2, 0, 0, 0, 0, 127, 255, 255, 254]
    );
}
