//! Sums of elements of the base field, each times a weight in an extension, for many lanes at once.
ghost use Rattle.std.specs.Prelude.{◌≡◌, ℕ, ◌<◌, All, IfOk, IfSome, length, map, replicate};
ghost use Rattle.std.specs.Option.{option_copied};
ghost use Rattle.circle_commit.specs.DotProduct.{pairwise, with_multiple};
ghost use Rattle.circle_commit.specs.PeriodicLdeTable.{columns_of};
ghost use Rattle.circle_air.specs.Values.{entry};
ghost use Rattle.circle_quotient.specs.Lanes.{HaveLanes, factor_at, lane_of};

use crate::window::write_same;
use circle_field::{ExtensionField, Field};
use std::alloc::{AllocError, Global};

/// So many lists of as many zeros each. Fails where memory is refused.
pub(crate) fn zero_lists<F: Field>(
    alloc: Global,
    count: usize,
    lanes: usize,
) -> Result<Vec<Vec<F>>, AllocError>
    ensures { IfOk result (λ made. HaveLanes count lanes made.items) }
{
    let mut made = Vec::with_capacity(alloc, count)?;
    for _ in 0..count {
        let zeros = vec![in alloc; F::ZERO; lanes]?;
        made.push(zeros)?;
    }
    Ok(made)
}

// Writes the product of the entries at each lane.
fn write_products<F: Field>(left: &[F], right: &[F], products: &mut [F])
    requires left { length left.now ≡ length products.old }
    requires right { length right.now ≡ length products.old }
    ensures { (r : ℕ) → r < length products.new → entry F.ops products.new r
        ≡ F.ops.mul (entry F.ops left.now r) (entry F.ops right.now r) }
{
    for (i, product) in products.iter_mut().enumerate() {
        *product = left[i] * right[i];
    }
}

// Adds to each sum the element at its place times the weight.
fn add_multiple<F: Field>(sums: &mut [F], elements: &[F], weight: F)
    requires { length sums.old ≡ length elements.now }
    ensures { sums.new ≡ with_multiple F.ops (λ (x : F). x) weight sums.old elements.now }
{
    for (i, element) in elements.iter().enumerate() {
        sums[i] = sums[i] + *element * weight;
    }
}

/// Makes each entry of each list 0.
pub(crate) fn clear_all<F: Field>(lists: &mut [Vec<F>])
    ensures { columns_of lists.new
        ≡ map (λ entries. replicate (length entries) F.ops.zero) (columns_of lists.old) }
{
    for i in 0..lists.len() {
        write_same(F::ZERO, &mut lists[i]);
    }
}

// Adds to the sum of each lane its element times the weight, coefficient after coefficient.
fn add_weighted<F: Field, EF: ExtensionField<F>>(
    coefficients: &mut [Vec<F>],
    elements: &[F],
    weight: EF,
)
    requires { HaveLanes EF.DEGREE (length elements.now) coefficients.old }
    ensures { columns_of coefficients.new ≡ pairwise
        (λ sums c. with_multiple F.ops (λ (x : F). x) c sums elements.now)
        (columns_of coefficients.old) (EF.coefficients weight) }
{
    for i in 0..EF::DEGREE {
        add_multiple(&mut coefficients[i], elements, weight.coefficient(i));
    }
}

/// The sum of a lane.
///
/// Requires a list for each coefficient, and in it an entry for the lane.
pub(crate) fn lane_sum<F: Field, EF: ExtensionField<F>>(coefficients: &[Vec<F>], lane: usize) -> EF
    requires degree { length coefficients.now ≡ EF.DEGREE }
    requires lane { All (λ sums. lane < length sums) (columns_of coefficients.now) }
    ensures { EF.coefficients result ≡ lane_of F.ops coefficients.now lane }
{
    let mut sum = EF::ZERO;
    for i in 0..EF::DEGREE {
        sum = sum.with_coefficient(i, coefficients[i][lane]);
    }
    sum
}

/// Adds to the sum of each lane its element times the weight, and times the lane's factor where
/// there are some. The sums are given by their coefficients: for each place those of all lanes.
///
/// Requires lists for as many coefficients as the weight has, with an entry for each element, and
/// as many factors. Writes the elements times the factors into `products`.
pub(crate) fn add_selected<F: Field, EF: ExtensionField<F>>(
    coefficients: &mut [Vec<F>],
    products: &mut [F],
    factors: Option<&[F]>,
    elements: &[F],
    weight: EF,
)
    requires factors { IfSome factors (λ s. length s.now ≡ length elements.now) }
    requires products { length products.old ≡ length elements.now }
    requires sums { HaveLanes EF.DEGREE (length elements.now) coefficients.old }
    ensures lanes { HaveLanes EF.DEGREE (length elements.now) coefficients.new }
    ensures sums { (r : ℕ) (a : EF) → r < length elements.now →
        lane_of F.ops coefficients.old r ≡ EF.coefficients a →
        lane_of F.ops coefficients.new r ≡ EF.coefficients (EF.ops.add a (EF.ops.mul (EF.embed
        (F.ops.mul (factor_at F.ops (option_copied factors.entry) r)
        (entry F.ops elements.now r))) weight)) }
{
    match factors {
        Some(factors) => {
            write_products(factors, elements, products);
            add_weighted(coefficients, products, weight);
        }
        None => add_weighted(coefficients, elements, weight),
    }
}
