//! Sums in place and hashes of points, and the halves of a domain, over Mersenne31.
use circle_field::Mersenne31;
use circle_plane::{CircleCoset, CircleDomain, Point};
use std::hash::{DefaultHasher, Hash, Hasher};
use std::process::Abort;
use test_schemes::expect;

type Circle = Point<Mersenne31>;

fn hash_of(point: Circle) -> u64 {
    let mut state = DefaultHasher::new();
    point.hash(&mut state);
    state.finish()
}

#[test]
fn sums_in_place_and_hashes(rt: HostRuntime) {
    let one = Circle::generator(3);
    let mut sum = one;
    sum += one;
    expect!(&rt; sum == one.double());
    expect!(&rt; hash_of(sum) == hash_of(one.double()));
}

// Asserts that a half of the domain of eight points has every other of them, from this one on.
fn assert_half(rt: &impl Abort, half: CircleCoset<Mersenne31>, first: usize) {
    let mut place = first;
    for point in half {
        assert!(rt; place < 8);
        expect!(rt; point == CircleDomain::standard(3).nth_point(place));
        place += 2;
    }
}

#[test]
fn halves_of_a_domain(rt: HostRuntime) {
    let domain = CircleDomain::<Mersenne31>::standard(3);
    assert_half(&rt, domain.coset0(), 0);
    assert_half(&rt, domain.coset1(), 1);
    expect!(&rt; domain.coset0().count() == 4);
    expect!(&rt; domain.coset1().count() == 4);
}
