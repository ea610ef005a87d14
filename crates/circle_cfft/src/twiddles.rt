//! The factors of all layers of a domain's transform, and their inverses.
//!
//! The first points of the pairs come in fours: a point `(x, y)`, its opposite `(-x, -y)`, its
//! quarter turn and the opposite of that. So the first two layers are made of one point in four.
//! The factors of the other layers are x coordinates of doubles, and doubles of quarter turns are
//! opposites: so an inverse takes one product with one of the layer above.
ghost use Rattle.std.specs.Prelude.{ℕ, ◌≡◌, ◌≢◌, ◌≤◌, ◌+◌, ◌-◌, ◌*◌, ◌^◌, ◌/◌, ◌%◌, ◌++◌};
ghost use Rattle.std.specs.Prelude.{All, IfOk, OnOk, length, map, take, drop};
ghost use Rattle.std.specs.List.{range_with_len};
ghost use Rattle.circle_point.specs.Point.{coordinates};
ghost use Rattle.circle_domain.specs.Domain.{factors_by_layer, log_size, shift_of};
ghost use Rattle.circle_domain.specs.Layers.{block_starts, layer_factors};
ghost use Rattle.circle_domain.specs.Order.{IsGenuine};
ghost use Rattle.circle_cfft.specs.Twiddles.{all_layers, inverses_by_layer};
ghost use Rattle.circle_cfft.specs.Twiddles.{first_of_second, layers_from};
ghost use Rattle.circle_cfft.specs.Twiddles.{AreLinked, TurnsLeft};

use circle_domain::{CircleDomain, append_moved, layer_twiddles};
use circle_field::{ComplexExtendable, Field, batch_multiplicative_inverse};
use circle_point::Point;
use std::alloc::{AllocError, Global};

/// The factors of the blocks of each layer, beginning with the smallest blocks: entry `m` has
/// those of the layer whose blocks have `2^(m + 1)` points.
///
/// Requires `1 <= log_n <= CIRCLE_TWO_ADICITY`. Fails where memory is refused.
pub fn forward_twiddles<F: ComplexExtendable>(
    alloc: Global,
    domain: CircleDomain<F>,
) -> Result<Vec<Vec<F>>, AllocError>
    requires positive { 1 ≤ log_size domain }
    requires in_group { log_size domain ≤ F.CIRCLE_TWO_ADICITY }
    ensures { IfOk result (λ twiddles. map (λ factors. factors.items) twiddles.items
        ≡ factors_by_layer F.ops F.generators domain) }
{
    if domain.log_n() < 3 {
        return layer_twiddles(alloc, domain);
    }
    let left = turns_left::<F>();
    let factors = higher_factors(alloc, domain, left)?;
    split_layers(alloc, domain.log_n(), left, &factors)
}

/// The inverses of the factors that [`forward_twiddles`] returns.
///
/// Requires a genuine domain with `log_n <= CIRCLE_TWO_ADICITY`. Fails where memory is refused.
pub fn backward_twiddles<F: ComplexExtendable>(
    alloc: Global,
    domain: CircleDomain<F>,
) -> Result<Vec<Vec<F>>, AllocError>
    requires genuine { IsGenuine F.ops (log_size domain) (shift_of domain) }
    requires in_group { log_size domain ≤ F.CIRCLE_TWO_ADICITY }
    ensures { IfOk result (λ inverses. map (λ factors. factors.items) inverses.items
        ≡ inverses_by_layer F.ops F.generators domain) }
{
    if domain.log_n() < 3 {
        return inverses_by_layer(alloc, domain);
    }
    let left = turns_left::<F>();
    let factors = higher_factors(alloc, domain, left)?;
    let inverses = higher_inverses(alloc, &factors)?;
    split_layers(alloc, domain.log_n(), left, &inverses)
}

// The inverses of all factors, each layer by itself: for domains with too few points for the rest.
fn inverses_by_layer<F: ComplexExtendable>(
    alloc: Global,
    domain: CircleDomain<F>,
) -> Result<Vec<Vec<F>>, AllocError>
    requires genuine { IsGenuine F.ops (log_size domain) (shift_of domain) }
    requires in_group { log_size domain ≤ F.CIRCLE_TWO_ADICITY }
    ensures { IfOk result (λ inverses. map (λ factors. factors.items) inverses.items
        ≡ inverses_by_layer F.ops F.generators domain) }
{
    let twiddles = layer_twiddles(alloc, domain)?;
    let mut inverses = Vec::with_capacity(alloc, twiddles.len())?;
    for factors in &twiddles {
        inverses.push(batch_multiplicative_inverse(alloc, factors)?)?;
    }
    Ok(inverses)
}

// Whether the quarter turn by the generator of order 4 is that of `(x, y)` to `(-y, x)`; else it is
// that to `(y, -x)`.
fn turns_left<F: ComplexExtendable>() -> bool
    ensures { TurnsLeft F.ops F.generators result }
{
    Point::<F>::generator(2).y() == F::ONE
}

// The product with the y coordinate of the quarter turn, which is 1 or -1.
fn turned<F: ComplexExtendable>(left: bool, a: F) -> F
    requires { TurnsLeft F.ops F.generators left }
    ensures { result ≡ F.ops.mul (F.generators 2).y a }
{
    if left { a } else { -a }
}

// The factors of all layers but the first, one layer after another.
fn higher_factors<F: ComplexExtendable>(
    alloc: Global,
    domain: CircleDomain<F>,
    left: bool,
) -> Result<Vec<F>, AllocError>
    requires eights { 3 ≤ log_size domain }
    requires in_group { log_size domain ≤ F.CIRCLE_TWO_ADICITY }
    requires left { TurnsLeft F.ops F.generators left }
    ensures { IfOk result (λ factors. factors.items ≡ layers_from F.ops (log_size domain - 1)
        (layer_factors F.ops F.generators (log_size domain) (shift_of domain) 1)) }
{
    let mut factors = second_layer(alloc, domain, left)?;
    append_layers(&mut factors)?;
    Ok(factors)
}

// The factors of the second layer: for each eight points, the x coordinates of the first and of its
// quarter turn.
fn second_layer<F: ComplexExtendable>(
    alloc: Global,
    domain: CircleDomain<F>,
    left: bool,
) -> Result<Vec<F>, AllocError>
    requires eights { 3 ≤ log_size domain }
    requires in_group { log_size domain ≤ F.CIRCLE_TWO_ADICITY }
    requires left { TurnsLeft F.ops F.generators left }
    ensures { IfOk result (λ factors. factors.items
        ≡ layer_factors F.ops F.generators (log_size domain) (shift_of domain) 1) }
{
    let points = eighth_points(alloc, domain)?;
    let mut factors = Vec::with_capacity(alloc, domain.size() / 2)?;
    for point in &points {
        factors.push(point.x())?;
        factors.push(-turned(left, point.y()))?;
    }
    Ok(factors)
}

// The first point of each eight points, in the order of the transform.
fn eighth_points<F: ComplexExtendable>(
    alloc: Global,
    domain: CircleDomain<F>,
) -> Result<Vec<Point<F>>, AllocError>
    requires eights { 3 ≤ log_size domain }
    requires in_group { log_size domain ≤ F.CIRCLE_TWO_ADICITY }
    ensures { IfOk result (λ points. map coordinates points.items
        ≡ block_starts F.ops F.generators (log_size domain - 3) 3 (shift_of domain)) }
{
    let steps = generators_down(alloc, domain.log_n())?;
    let mut points = Vec::with_capacity(alloc, domain.size() / 8)?;
    points.push(domain.shift())?;
    for log_order in 3..domain.log_n() {
        append_moved(&mut points, steps[domain.log_n() - 1 - log_order])?;
    }
    Ok(points)
}

// The generators of the groups of `2^(log_n - 1)` points, of half as many and so on down to 8: each
// is the double of the one before it.
fn generators_down<F: ComplexExtendable>(
    alloc: Global,
    log_n: usize,
) -> Result<Vec<Point<F>>, AllocError>
    requires eights { 3 ≤ log_n }
    requires in_group { log_n ≤ F.CIRCLE_TWO_ADICITY }
    ensures { IfOk result (λ points. map coordinates points.items
        ≡ map (λ i. F.generators (log_n - 1 - i)) (range_with_len 0 (log_n - 3))) }
{
    let mut points = Vec::with_capacity(alloc, log_n)?;
    let mut point = Point::generator(log_n - 1);
    for _ in 3..log_n {
        points.push(point)?;
        point = point.double();
    }
    Ok(points)
}

// Appends to the factors of a layer those of all layers above it: each layer has the x coordinates
// of the doubles of every second point of the layer before.
fn append_layers<F: Field>(factors: &mut Vec<F>) -> Result<(), AllocError>
    requires { 1 ≤ length factors.old.items }
    ensures { (m : ℕ) → length factors.old.items ≡ 2 ^ m →
        OnOk result (factors.new.items ≡ layers_from F.ops (m + 1) factors.old.items) }
{
    for i in 0..factors.len() - 1 {
        let doubled = factors[2 * i].square().double() - F::ONE;
        factors.push(doubled)?;
    }
    Ok(())
}

// The inverses of the factors of all layers but the first, from the top layer down.
//
// Of any four factors a, b, c, d of a layer and the two above them, u and v, 2ab is v and 2cd is
// -u. So only the topmost three are inverted, and each of the others takes one product.
fn higher_inverses<F: Field>(alloc: Global, factors: &[F]) -> Result<Vec<F>, AllocError>
    requires some { 3 ≤ length factors.now }
    requires fours { (length factors.now + 1) % 4 ≡ 0 }
    requires linked { AreLinked F.ops ((length factors.now + 1) / 2) factors.now }
    requires nonzero { All (λ a. a ≢ F.ops.zero) factors.now }
    ensures { IfOk result (λ inverses. inverses.items ≡ map F.ops.inv factors.now) }
{
    let top = factors.len() - 3;
    let mut inverses = Vec::from_slice(alloc, factors)?;
    inverses.truncate(top);
    inverses.append(&mut batch_multiplicative_inverse(alloc, &factors[top..])?)?;
    for j in (0..top / 4).rev() {
        invert_four(&mut inverses, factors, j);
    }
    Ok(inverses)
}

// Writes the inverses of four factors, `4 * j` and the next, where those of all above them stand.
fn invert_four<F: Field>(inverses: &mut [F], factors: &[F], j: usize)
    requires length { length inverses.old ≡ length factors.now }
    requires room { 4 * j + 7 ≤ length factors.now }
    requires fours { (length factors.now + 1) % 4 ≡ 0 }
    requires linked { AreLinked F.ops ((length factors.now + 1) / 2) factors.now }
    requires nonzero { All (λ a. a ≢ F.ops.zero) factors.now }
    requires above { inverses.old
        ≡ take (4 * j + 4) factors.now ++ map F.ops.inv (drop (4 * j + 4) factors.now) }
    ensures { inverses.new ≡ take (4 * j) factors.now ++ map F.ops.inv (drop (4 * j) factors.now) }
{
    let above = factors.len() / 2 + 1;
    let first = inverses[above + 2 * j + 1].double();
    let second = -inverses[above + 2 * j].double();
    inverses[4 * j] = factors[4 * j + 1] * first;
    inverses[4 * j + 1] = factors[4 * j] * first;
    inverses[4 * j + 2] = factors[4 * j + 3] * second;
    inverses[4 * j + 3] = factors[4 * j + 2] * second;
}

// All layers by themselves, from the factors of all but the first or from their inverses.
fn split_layers<F: ComplexExtendable>(
    alloc: Global,
    log_n: usize,
    left: bool,
    higher: &[F],
) -> Result<Vec<Vec<F>>, AllocError>
    requires left { TurnsLeft F.ops F.generators left }
    requires eights { 3 ≤ log_n }
    requires small { log_n ≤ 62 }
    requires count { length higher.now + 1 ≡ 2 ^ (log_n - 1) }
    ensures { IfOk result (λ layers. map (λ layer. layer.items) layers.items
        ≡ all_layers F.ops (F.generators 2).y log_n higher.now) }
{
    let mut layers = Vec::with_capacity(alloc, log_n)?;
    layers.push(first_layer(alloc, left, &higher[..1 << (log_n - 2)])?)?;
    let mut rest = higher;
    for layer in 1..log_n {
        let (factors, after) = rest.split_at(1 << (log_n - 1 - layer));
        layers.push(Vec::from_slice(alloc, factors)?)?;
        rest = after;
    }
    Ok(layers)
}

// The first layer, from the second.
fn first_layer<F: ComplexExtendable>(
    alloc: Global,
    left: bool,
    second: &[F],
) -> Result<Vec<F>, AllocError>
    requires left { TurnsLeft F.ops F.generators left }
    requires pairs { length second.now % 2 ≡ 0 }
    requires small { length second.now ≤ 2 ^ 62 }
    ensures { IfOk result (λ first.
        first.items ≡ first_of_second F.ops (F.generators 2).y second.now) }
{
    let mut first = Vec::with_capacity(alloc, 2 * second.len())?;
    for i in 0..second.len() / 2 {
        let x = turned(left, second[2 * i]);
        let z = turned(left, second[2 * i + 1]);
        first.push(-z)?;
        first.push(z)?;
        first.push(x)?;
        first.push(-x)?;
    }
    Ok(first)
}
