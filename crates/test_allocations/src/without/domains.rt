//! The calls of domains that allocate nothing.
ghost use Rattle.std.specs.Prelude.{◌≤◌, ◌<◌, ◌^◌};
ghost use Rattle.circle_domain.specs.Domain.{log_size};

use crate::plane::Domain;
use crate::told::{Stage, Told, digest, low_bits, told_numbers, unfit, with_number};
use anyhow::Result;
use circle_commit::PolynomialSpace;
use circle_field::{ComplexExtendable, Field, Mersenne31};
use p3_circle::{CircleCoset, CircleDomain, CirclePoints, Point, cfft_permute_index};

// The number that the points of a domain come to.
fn of_points(points: CirclePoints<Mersenne31>) -> u32 {
    let mut sum = 0;
    for point in points {
        sum = with_number(sum, digest(&[point.x(), point.y()]));
    }
    sum
}

// The number that the points of half a domain come to.
fn of_coset(points: CircleCoset<Mersenne31>) -> u32 {
    let mut sum = 0;
    for point in points {
        sum = with_number(sum, digest(&[point.x(), point.y()]));
    }
    sum
}

// What the readers and tests of a domain return.
fn of_readers<F: ComplexExtendable>(domain: CircleDomain<F>) -> [usize; 8]
    requires positive { 1 ≤ log_size domain }
    requires in_group { log_size domain ≤ F.CIRCLE_TWO_ADICITY }
    requires has_point { 3 < 2 ^ log_size domain }
{
    let point = domain.nth_point(3);
    [
        domain.log_n(),
        domain.size(),
        domain.transition_degree_multiple(),
        usize::from(domain.is_genuine()),
        usize::from(domain.is_standard()),
        usize::from(domain.is_clear_of(point * 5)),
        usize::from(domain.try_nth_point(3).is_some()),
        usize::from(CircleDomain::<F>::try_standard(40).is_some()),
    ]
}

// The values at the point of this coordinate: those of the selectors and of the vanishing
// polynomial.
fn of_values(domain: Domain, t: Mersenne31) -> Result<u32> {
    if domain.log_n() > 31 || !domain.is_genuine() {
        return unfit("the domain is not genuine");
    }
    let Some(at) = Point::from_projective_line(t) else {
        return unfit("the point is at infinity");
    };
    if !domain.is_clear_of(at) {
        return unfit("the domain is not clear of the point");
    }
    let row = domain.selectors_at_point(t);
    Ok(digest(&[
        row.is_first_row,
        row.is_last_row,
        row.is_transition,
        row.inv_vanishing,
        domain.vanishing_poly_at_point(t),
    ]))
}

// The coordinates of the first point and of the next one, and the logarithm of the size of another
// domain.
fn of_others(domain: Domain, t: Mersenne31) -> Result<[u32; 3]> {
    if domain.log_n() == 0 || domain.log_n() > 31 {
        return unfit("the domain has one point, or isn't in the group");
    }
    if domain.shift().to_projective_line().is_none() {
        return unfit("the first point is (-1, 0)");
    }
    let first = domain.first_point();
    let next = domain.next_point(t).unwrap_or(Mersenne31::ZERO);
    let other = domain
        .try_create_disjoint_domain(8)
        .map_or(0, |other| other.log_n());
    Ok([first.value(), next.value(), low_bits(other)])
}

// The number that the points of a domain and of its halves come to.
fn of_orders(domain: Domain) -> Result<u32> {
    if domain.log_n() == 0 || domain.log_n() > 31 {
        return unfit("the domain has one point, or isn't in the group");
    }
    let sum = with_number(of_points(domain.points()), of_coset(domain.coset0()));
    Ok(with_number(sum, of_coset(domain.coset1())))
}

/// Those calls.
pub fn domains(stage: Stage) -> Result<Told> {
    stage.begin()?;
    let standard = Domain::standard(4);
    let domain = Domain::new(4, standard.shift());
    let t = Mersenne31::from_u64(3);
    let mut sum = 0;
    for number in of_readers(Domain::standard(4)) {
        sum = with_number(sum, low_bits(number));
    }
    let [first, next, other] = of_others(domain, t)?;
    Ok(told_numbers(&[
        sum,
        of_values(domain, t)?,
        first,
        next,
        other,
        of_orders(domain)?,
        low_bits(cfft_permute_index(3, 4)),
        u32::from(domain == standard),
    ]))
}
