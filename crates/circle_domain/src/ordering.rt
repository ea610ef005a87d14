//! The order of the circle transform, as a permutation of the natural order of a domain.
//!
//! The standard domain of eight points, at each point its place in one order and in the other:
//!
//! ```text
//!      natural order              order of the transform
//!
//!         2     1                        4     7
//!      3           0                  3           0
//!      4           7                  2           1
//!         5     6                        5     6
//!
//! place in the order of the transform    0  1  2  3  4  5  6  7
//! place in natural order                 0  7  4  3  2  5  6  1
//! ```
//!
//! In the order of the transform the places `2 i` and `2 i + 1` are opposite points, with one x and
//! opposite y, which the first step pairs; of these pairs the first and the second have opposite x,
//! and so the third and the fourth, which the next step pairs.
ghost use Rattle.std.specs.Prelude.{ℕ, ◌≡◌, ◌≤◌, ◌<◌, ◌^◌, ◌-◌, map, Ok, IfOk, OnOk};
ghost use Rattle.circle_domain.specs.Ordering.{cfft_index, reversed, other_order};
ghost use Rattle.circle_commit.specs.Matrix.{IsPowerOfTwo};
ghost use Rattle.circle_point.specs.Point.{coordinates};
ghost use Rattle.circle_domain.specs.Domain.{log_size, shift_of};
ghost use Rattle.circle_domain.specs.Order.{coset, with_moved};

use crate::domain::CircleDomain;
use circle_commit::{Matrix, MatrixShape, RowIndexMap, RowIndexMappedView, log2_strict};
use circle_field::{ComplexExtendable, Field};
use circle_point::Point;
use std::alloc::{AllocError, Global};

/// The natural place of the point at place `index` of the transform's order, among `2^log_n`
/// points: with `h = index / 2`, the `log_n`-bit reversal of `h` where `index` is even, and of
/// `2^log_n - 1 - h` where it is odd.
///
/// It is its own inverse, so that the rows of either order are found in the other by it.
///
/// Requires `log_n <= 63` and `index < 2^log_n`.
pub fn cfft_permute_index(index: usize, log_n: usize) -> usize
    requires small { log_n ≤ 63 }
    requires in_range { index < 2 ^ log_n }
    ensures value { result ≡ cfft_index log_n index }
    ensures below { result < 2 ^ log_n }
    ensures own_inverse { cfft_index log_n result ≡ index }
{
    let half = index / 2;
    let source = if index % 2 == 0 {
        half
    } else {
        (1 << log_n) - 1 - half
    };
    reverse_bits_len(source, log_n)
}

// The number whose lowest `bit_len` bits are those of `x` in the other order.
//
// The halves of each block of 2 bits are exchanged, then those of 4 bits, and so on up to the whole
// word.
fn reverse_bits_len(x: usize, bit_len: usize) -> usize
    requires small { bit_len ≤ 63 }
    requires in_range { x < 2 ^ bit_len }
    ensures { result ≡ reversed bit_len x }
{
    let word = ((x >> 1) & 0x5555_5555_5555_5555) | ((x & 0x5555_5555_5555_5555) << 1);
    let word = ((word >> 2) & 0x3333_3333_3333_3333) | ((word & 0x3333_3333_3333_3333) << 2);
    let word = ((word >> 4) & 0x0f0f_0f0f_0f0f_0f0f) | ((word & 0x0f0f_0f0f_0f0f_0f0f) << 4);
    let word = ((word >> 8) & 0x00ff_00ff_00ff_00ff) | ((word & 0x00ff_00ff_00ff_00ff) << 8);
    let word = ((word >> 16) & 0x0000_ffff_0000_ffff) | ((word & 0x0000_ffff_0000_ffff) << 16);
    let word = (word >> 32) | (word << 32);
    word >> 1 >> (63 - bit_len)
}

/// The permutation between the two orders of a domain, as an order of a matrix's rows.
pub struct CfftPerm {
    log_height: usize,
    pub ghost small: { log_height ≤ 63 },
}

impl Clone for CfftPerm {
    ghost is_clone = { λ a b. b ≡ a };

    ghost is_infallible = { λ _. Unit {0} };

    fn clone(&self) -> Result<Self, AllocError>
        ensures { result ≡ Ok self.now }
    {
        Ok(*self)
    }
}

impl Copy for CfftPerm {}

impl CfftPerm {
    ghost use Rattle.circle_domain.specs.CfftPerm.{log_height_of};

    pub(crate) fn new(log_height: usize) -> Self
        requires { log_height ≤ 63 }
        ensures { log_height_of result ≡ log_height }
    {
        CfftPerm { log_height }
    }
}

impl RowIndexMap for CfftPerm {
    ghost use Rattle.circle_domain.specs.CfftPerm.{log_height_of};

    ghost height = { λ map. 2 ^ log_height_of map };

    ghost map_row_index = { λ map r. cfft_index (log_height_of map) r };

    fn height(&self) -> usize {
        1 << self.log_height
    }

    fn map_row_index(&self, r: usize) -> usize {
        cfft_permute_index(r, self.log_height)
    }
}

/// A matrix whose rows are seen in the other order of a domain.
pub type CfftView<M> = RowIndexMappedView<CfftPerm, M>;

/// A matrix whose rows can be seen in the other order of a domain.
pub trait CfftPermutable<T>: Matrix<T> {
    /// The rows in the other order of a domain, without copying them.
    ///
    /// Requires a height that is a power of two, as `is_power_of_two` tests.
    fn cfft_perm_rows(self) -> CfftView<Self>
        requires { IsPowerOfTwo (Self.height self) }
        ensures rows { (n : ℕ) → Self.height self ≡ 2 ^ n →
            ⟦<CfftView<Self> as Matrix<T>>⟧.rows result ≡ other_order n (Self.rows self) }
        ensures height { ⟦<CfftView<Self> as MatrixShape>⟧.height result ≡ Self.height self }
        ensures width { ⟦<CfftView<Self> as MatrixShape>⟧.width result ≡ Self.width self };
}

impl<T, M: Matrix<T>> CfftPermutable<T> for M {
    fn cfft_perm_rows(self) -> CfftView<Self> {
        let log_height = log2_strict(self.height());
        RowIndexMappedView {
            index_map: CfftPerm::new(log_height),
            inner: self,
        }
    }
}

/// The first points of the pairs of opposite points, in the order of the transform.
///
/// Requires `1 <= log_n <= CIRCLE_TWO_ADICITY`. Fails where memory is refused.
pub fn first_points<F: ComplexExtendable>(
    alloc: Global,
    domain: CircleDomain<F>,
) -> Result<Vec<Point<F>>, AllocError>
    requires positive { 1 ≤ log_size domain }
    requires in_group { log_size domain ≤ F.CIRCLE_TWO_ADICITY }
    ensures { IfOk result (λ points. map coordinates points.items
        ≡ coset F.ops F.generators (log_size domain - 1) (shift_of domain)) }
{
    let mut points = Vec::with_capacity(alloc, domain.size() / 2)?;
    points.push(domain.shift())?;
    for log_order in 1..domain.log_n() {
        append_moved(&mut points, Point::generator(log_order))?;
    }
    Ok(points)
}

/// Appends to the points each of them moved by `step`.
///
/// Fails where memory is refused.
pub fn append_moved<F: Field>(points: &mut Vec<Point<F>>, step: Point<F>) -> Result<(), AllocError>
    ensures { OnOk result (map coordinates points.new.items
        ≡ with_moved F.ops (coordinates step) (map coordinates points.old.items)) }
{
    for i in 0..points.len() {
        let moved = points[i] + step;
        points.push(moved)?;
    }
    Ok(())
}
