//! Butterflies, and their count.
ghost use Rattle.std.specs.Prelude.{◌≡◌, ◌+◌, ◌-◌, ◌<◌, ◌^◌, length};
ghost use Rattle.circle_commit.specs.DotProduct.{pairwise};
ghost use Rattle.circle_cfft.specs.Butterflies.{plus_multiple, minus_multiple};
ghost use Rattle.circle_cfft.specs.Butterflies.{total, scaled_difference, count_of};

use circle_field::Field;

/// How a layer combines an entry of the lower half of a block with that of the upper half.
pub(crate) trait Butterfly<F: Field> {
    ghost lower: { F → F → F → F };

    ghost upper: { F → F → F → F };

    /// The two entries made of `low` and `high` by the factor of their block.
    fn apply(low: F, high: F, factor: F) -> (F, F)
        ensures low { result.0 ≡ Self.lower factor low high }
        ensures high { result.1 ≡ Self.upper factor low high };
}

/// From coefficients to values: `a + b t` and `a - b t`.
pub(crate) struct Forward;

impl<F: Field> Butterfly<F> for Forward {
    ghost lower = { plus_multiple F.ops };

    ghost upper = { minus_multiple F.ops };

    fn apply(low: F, high: F, factor: F) -> (F, F) {
        let product = high * factor;
        (low + product, low - product)
    }
}

/// From values to twice the coefficients, by the inverse `t` of the factor: `a + b` and `(a - b)
/// t`.
pub(crate) struct Backward;

impl<F: Field> Butterfly<F> for Backward {
    ghost lower = { total F.ops };

    ghost upper = { scaled_difference F.ops };

    fn apply(low: F, high: F, factor: F) -> (F, F) {
        (low + high, (low - high) * factor)
    }
}

/// A number of butterflies of two rows, each counted as it is done: it begins at zero, and
/// [`combine_rows`] alone raises it.
#[derive(Drop)]
pub struct Butterflies {
    count: u128,
}

impl Butterflies {
    /// None so far.
    pub fn new() -> Self
        ensures { count_of result ≡ 0 }
    {
        Butterflies { count: 0 }
    }

    /// How many pairs of rows were combined, which is the number of butterflies of one column.
    pub fn count(&self) -> u128
        ensures { result ≡ count_of self.now }
    {
        self.count
    }
}

/// The butterfly of two rows, which is counted.
///
/// Requires rows of one length and a count below `2^128 - 1`.
pub(crate) fn combine_rows<F: Field, B: Butterfly<F>>(
    lows: &mut [F],
    highs: &mut [F],
    factor: F,
    butterflies: &mut Butterflies,
)
    requires length { length lows.old ≡ length highs.old }
    requires room { count_of butterflies.old < 2 ^ 128 - 1 }
    ensures low { lows.new ≡ pairwise (B.lower factor) lows.old highs.old }
    ensures high { highs.new ≡ pairwise (B.upper factor) lows.old highs.old }
    ensures count { count_of butterflies.new ≡ count_of butterflies.old + 1 }
{
    butterflies.count += 1;
    combine::<F, B>(lows, highs, factor);
}

/// The butterfly at each place of two lists.
pub(crate) fn combine<F: Field, B: Butterfly<F>>(lows: &mut [F], highs: &mut [F], factor: F)
    requires { length lows.old ≡ length highs.old }
    ensures low { lows.new ≡ pairwise (B.lower factor) lows.old highs.old }
    ensures high { highs.new ≡ pairwise (B.upper factor) lows.old highs.old }
{
    for i in 0..lows.len() {
        let (low, high) = B::apply(lows[i], highs[i], factor);
        lows[i] = low;
        highs[i] = high;
    }
}
