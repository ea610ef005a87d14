//! Standard domains of 16 and of 1024 points over Mersenne31: from point to point, domains beside
//! them, and their parts with the rows of these, of 8 and of 32 columns.
use crate::selectors::{coordinate, vanishing};
use crate::transform::{Domain, MEMORY, Rows, copy_of, is_in_group, rows_of};
use circle_commit::{Matrix, PolynomialSpace, is_power_of_two};
use circle_field::{Field, Mersenne31};
use circle_plane::Point;
use std::alloc::Global;
use std::process::Abort;
use test_schemes::expect;

// The coordinate of the first point.
fn first_point(rt: &impl Abort, domain: Domain) -> Mersenne31 {
    assert!(rt; domain.shift().to_projective_line().is_some());
    domain.first_point()
}

// `nth_point`, after a test of what it requires.
fn nth_point(rt: &impl Abort, domain: Domain, place: usize) -> Point<Mersenne31> {
    assert!(rt; is_in_group(domain) && place < domain.size());
    domain.nth_point(place)
}

// The coordinate after that of point `i`. Asserts that the point's is `t`, that the vanishing
// polynomial is zero there, and that the next one is the first behind the last point alone.
fn step(
    rt: &impl Abort,
    domain: Domain,
    first: Mersenne31,
    (i, point): (usize, Point<Mersenne31>),
    t: Mersenne31,
) -> Mersenne31 {
    assert!(rt; is_in_group(domain) && i < domain.size());
    expect!(rt; point == domain.nth_point(i));
    expect!(rt; coordinate(rt, point) == t);
    expect!(rt; vanishing(rt, domain, t).is_zero());
    let next = domain.next_point(t).expect(rt, "there is no next point");
    expect!(rt; (next == first) == (i + 1 == domain.size()));
    next
}

// Asserts that the steps from the first point are through the points in natural order, at each of
// which the vanishing polynomial is zero, and lead back.
fn assert_walk(rt: &impl Abort, domain: Domain) {
    assert!(rt; is_in_group(domain));
    let first = first_point(rt, domain);
    expect!(rt; coordinate(rt, domain.shift()) == first);
    let mut t = first;
    for place in domain.points().enumerate() {
        t = step(rt, domain, first, place, t);
    }
}

// A domain beside this one of at least `min_size` points.
fn other_of(rt: &impl Abort, domain: Domain, min_size: usize) -> Domain {
    assert!(rt; is_in_group(domain));
    let other = domain.try_create_disjoint_domain(min_size);
    other.expect(rt, "there is no other domain")
}

// Asserts that a point is none of a domain's.
fn assert_clear(rt: &impl Abort, domain: Domain, point: Point<Mersenne31>) {
    assert!(rt; is_in_group(domain));
    expect!(rt; domain.is_clear_of(point));
}

// Asserts that there is a domain of at least `min_size` points, none of which is one of this
// domain's.
fn assert_other(rt: &impl Abort, domain: Domain, min_size: usize) {
    let other = other_of(rt, domain, min_size);
    assert!(rt; is_in_group(other) && other.size() >= min_size);
    for point in other.points() {
        assert_clear(rt, domain, point);
    }
}

// Rows of this width, one after another of the entries 0, 1, 2, ..
fn counting(rt: &impl Abort, alloc: Global, height: usize, width: usize) -> Rows {
    assert!(rt; height <= 1024 && width <= 32);
    let mut entries = Vec::new(alloc);
    for i in 0..height * width {
        entries
            .push(Mersenne31::from_u64(i as u64))
            .expect(rt, MEMORY);
    }
    rows_of(rt, entries, width)
}

// The place of a row of a part in the domain, by the row's first entry.
fn place_of(rt: &impl Abort, row: &[Mersenne31]) -> usize {
    assert!(rt; !row.is_empty());
    row[0].value() as usize / row.len()
}

// Asserts that the domain has this point at a place, with this row.
fn assert_at(
    rt: &impl Abort,
    (domain, rows): (Domain, &Rows),
    place: usize,
    (point, row): (Point<Mersenne31>, &[Mersenne31]),
) {
    expect!(rt; point == nth_point(rt, domain, place));
    assert!(rt; place < rows.height());
    expect!(rt; row == rows.row(place));
}

// Marks a place that wasn't seen.
fn mark(rt: &impl Abort, seen: &mut [bool], place: usize) {
    assert!(rt; place < seen.len() && !seen[place]);
    seen[place] = true;
}

// The row of point `i` of a part, after a test of that point: its opposite is as many places before
// the end.
fn row_of_point<'a>(
    rt: &impl Abort,
    (part, of_part): (Domain, &'a Rows),
    i: usize,
    point: Point<Mersenne31>,
) -> &'a [Mersenne31] {
    assert!(rt; is_in_group(part) && i < part.size() && i < of_part.height());
    expect!(rt; nth_point(rt, part, part.size() - 1 - i) == -point);
    of_part.row(i)
}

// Asserts that a part holds points of the domain that no other part has, each with its row, and the
// opposite of each as many places before the end.
fn assert_part(
    rt: &impl Abort,
    of_domain: (Domain, &Rows),
    of_part: (Domain, &Rows),
    seen: &mut [bool],
) {
    assert!(rt; is_in_group(of_part.0));
    for (i, point) in of_part.0.points().enumerate() {
        let row = row_of_point(rt, of_part, i, point);
        let place = place_of(rt, row);
        assert_at(rt, of_domain, place, (point, row));
        mark(rt, seen, place);
    }
}

// The parts of a domain, this number of them, and the rows of each.
fn parts_of(
    rt: &impl Abort,
    alloc: Global,
    domain: Domain,
    rows: Rows,
    count: usize,
) -> (Vec<Domain>, Vec<Rows>) {
    assert!(rt; is_in_group(domain) && domain.is_standard());
    assert!(rt;
        is_power_of_two(count) && count <= domain.size() / 2 && rows.height() == domain.size()
    );
    let parts = domain.split_domains(alloc, count);
    let of_parts = domain.split_evals(alloc, count, rows);
    (parts.expect(rt, MEMORY), of_parts.expect(rt, MEMORY))
}

// Asserts that this number of parts, with the rows of each, make up the domain with its rows.
fn assert_parts(rt: &impl Abort, alloc: Global, domain: Domain, width: usize, count: usize) {
    assert!(rt; domain.log_n() <= 31);
    let rows = counting(rt, alloc, domain.size(), width);
    let (parts, of_parts) = parts_of(rt, alloc, domain, copy_of(rt, alloc, &rows), count);
    expect!(rt; parts.len() == count);
    expect!(rt; of_parts.len() == count);
    let mut seen = vec![in alloc; false; domain.size()].expect(rt, MEMORY);
    assert_each_part(rt, (domain, &rows), &parts, &of_parts, &mut seen);
    expect!(rt; !seen.contains(&false));
}

// Asserts that of each part.
fn assert_each_part(
    rt: &impl Abort,
    of_domain: (Domain, &Rows),
    parts: &[Domain],
    of_parts: &[Rows],
    seen: &mut [bool],
) {
    for (part, of_part) in parts.iter().zip(of_parts) {
        assert_part(rt, of_domain, (*part, of_part), seen);
    }
}

#[test]
fn walks_of_16_and_of_1024_points(rt: HostRuntime) {
    assert_walk(&rt, Domain::standard(4));
    assert_walk(&rt, Domain::standard(10));
}

// Asserts that there are domains of at least these sizes, none of which has one of this domain's.
fn assert_others(rt: &impl Abort, domain: Domain, min_sizes: [usize; 4]) {
    for min_size in min_sizes {
        assert_other(rt, domain, min_size);
    }
}

#[test]
fn other_domains(rt: HostRuntime) {
    assert_others(&rt, Domain::standard(4), [10, 100, 11, 31]);
    assert_others(&rt, Domain::standard(10), [10, 100, 1019, 1039]);
}

#[test]
fn parts_of_16_and_of_1024_points(rt: HostRuntime) {
    for count in [1, 2, 4, 8] {
        assert_parts(&rt, rt.alloc(), Domain::standard(4), 8, count);
        assert_parts(&rt, rt.alloc(), Domain::standard(10), 32, count);
    }
}
