//! One layer of the circle transform over stored entries.
//!
//! A layer splits the entries into blocks, one for each factor, and combines the two halves of each
//! block (Circle STARKs, IACR ePrint 2024/278, section 4.2).
ghost use Rattle.std.specs.Prelude.{◌≡◌, ◌+◌, ◌*◌, [], ◌∷◌, ◌++◌, length, map, take, drop};
ghost use Rattle.circle_commit.specs.DotProduct.{pairwise};
ghost use Rattle.circle_domain.specs.Layers.{layer};

use crate::butterflies::{Butterfly, combine};
use circle_field::Field;

/// One layer: combines the halves of each block of `2 * half` entries by the block's factor.
///
/// Requires that the blocks make up the entries.
pub(crate) fn apply_layer<F: Field, B: Butterfly<F>>(values: &mut [F], half: usize, factors: &[F])
    requires { length values.old ≡ length factors.now * (half + half) }
    ensures { values.new ≡ layer B.lower B.upper half factors.now values.old }
{
    for (i, factor) in factors.iter().enumerate() {
        let start = i * (half + half);
        let block = &mut values[start..start + half + half];
        apply_block::<F, B>(block, half, *factor);
    }
}

// The layer at one block. A block of two entries takes less time than a call, so it is inlined.
fn apply_block<F: Field, B: Butterfly<F>>(block: &mut [F], half: usize, factor: F)
    requires { length block.old ≡ half + half }
    ensures { block.new ≡ pairwise (B.lower factor) (take half block.old) (drop half block.old)
        ++ pairwise (B.upper factor) (take half block.old) (drop half block.old) }
{
    if half == 1 {
        apply_halves::<F, B>(block, half, factor);
    } else {
        apply_large_block::<F, B>(block, half, factor);
    }
}

// The layer at a block that isn't inlined: see `descend_large_block`.
#[inline(never)]
fn apply_large_block<F: Field, B: Butterfly<F>>(block: &mut [F], half: usize, factor: F)
    requires { length block.old ≡ half + half }
    ensures { block.new ≡ pairwise (B.lower factor) (take half block.old) (drop half block.old)
        ++ pairwise (B.upper factor) (take half block.old) (drop half block.old) }
{
    apply_halves::<F, B>(block, half, factor);
}

// The layer at the halves of a block.
#[inline(always)]
fn apply_halves<F: Field, B: Butterfly<F>>(block: &mut [F], half: usize, factor: F)
    requires { length block.old ≡ half + half }
    ensures { block.new ≡ pairwise (B.lower factor) (take half block.old) (drop half block.old)
        ++ pairwise (B.upper factor) (take half block.old) (drop half block.old) }
{
    let (low, high) = block.split_at_mut(half);
    combine::<F, B>(low, high, factor);
}

/// Two layers at once, the upper first: the blocks of `4 * quarter` entries by `uppers`, and their
/// halves by `lowers`.
///
/// Requires that the blocks make up the entries, and two lower factors for each upper one.
pub(crate) fn descend_pair<F: Field, B: Butterfly<F>>(
    values: &mut [F],
    quarter: usize,
    uppers: &[F],
    lowers: &[F],
)
    requires values { length values.old
        ≡ length uppers.now * ((quarter + quarter) + (quarter + quarter)) }
    requires lowers { length lowers.now ≡ length uppers.now + length uppers.now }
    ensures { values.new ≡ layer B.lower B.upper quarter lowers.now
        (layer B.lower B.upper (quarter + quarter) uppers.now values.old) }
{
    for (i, factor) in uppers.iter().enumerate() {
        let start = i * (4 * quarter);
        let block = &mut values[start..start + 4 * quarter];
        descend_block::<F, B>(block, quarter, *factor, (lowers[2 * i], lowers[2 * i + 1]));
    }
}

// Two layers at one block, the upper first. A block of four entries takes less time than a call, so
// it is inlined.
fn descend_block<F: Field, B: Butterfly<F>>(
    block: &mut [F],
    quarter: usize,
    upper: F,
    lower: (F, F),
)
    requires { length block.old ≡ (quarter + quarter) + (quarter + quarter) }
    ensures { block.new ≡ layer B.lower B.upper quarter (lower.0 ∷ lower.1 ∷ [])
        (layer B.lower B.upper (quarter + quarter) (upper ∷ []) block.old) }
{
    if quarter == 1 {
        descend_quarters::<F, B>(block, quarter, upper, lower);
    } else {
        descend_large_block::<F, B>(block, quarter, upper, lower);
    }
}

// Two layers at a block that isn't inlined, the upper first.
//
// Inlined, the compiler would test once for all blocks together whether the quarters overlap, find
// that they may, and do one place at a time.
#[inline(never)]
fn descend_large_block<F: Field, B: Butterfly<F>>(
    block: &mut [F],
    quarter: usize,
    upper: F,
    lower: (F, F),
)
    requires { length block.old ≡ (quarter + quarter) + (quarter + quarter) }
    ensures { block.new ≡ layer B.lower B.upper quarter (lower.0 ∷ lower.1 ∷ [])
        (layer B.lower B.upper (quarter + quarter) (upper ∷ []) block.old) }
{
    descend_quarters::<F, B>(block, quarter, upper, lower);
}

// Two layers at the quarters of a block, the upper first.
#[inline(always)]
fn descend_quarters<F: Field, B: Butterfly<F>>(
    block: &mut [F],
    quarter: usize,
    upper: F,
    lower: (F, F),
)
    requires { length block.old ≡ (quarter + quarter) + (quarter + quarter) }
    ensures { block.new ≡ layer B.lower B.upper quarter (lower.0 ∷ lower.1 ∷ [])
        (layer B.lower B.upper (quarter + quarter) (upper ∷ []) block.old) }
{
    let (low, high) = block.split_at_mut(2 * quarter);
    let (a, b) = low.split_at_mut(quarter);
    let (c, d) = high.split_at_mut(quarter);
    combine_four::<F, B, Kept>(a, b, c, d, (upper, upper), lower, Kept);
}

/// Two layers at once, the lower first: the halves of the blocks of `4 * quarter` entries by
/// `lowers`, and the blocks by `uppers`. Each entry is finished as it is written.
///
/// Requires that the blocks make up the entries, and two lower factors for each upper one.
pub(crate) fn ascend_pair<F: Field, B: Butterfly<F>, S: Finish<F>>(
    values: &mut [F],
    quarter: usize,
    uppers: &[F],
    lowers: &[F],
    finish: S,
)
    requires values { length values.old
        ≡ length uppers.now * ((quarter + quarter) + (quarter + quarter)) }
    requires lowers { length lowers.now ≡ length uppers.now + length uppers.now }
    ensures { values.new ≡ map (S.finished finish) (layer B.lower B.upper (quarter + quarter)
        uppers.now (layer B.lower B.upper quarter lowers.now values.old)) }
{
    for (i, factor) in uppers.iter().enumerate() {
        let start = i * (4 * quarter);
        let block = &mut values[start..start + 4 * quarter];
        let lower = (lowers[2 * i], lowers[2 * i + 1]);
        ascend_block::<F, B, S>(block, quarter, *factor, lower, finish);
    }
}

// Two layers at one block, the lower first: see `descend_block`.
fn ascend_block<F: Field, B: Butterfly<F>, S: Finish<F>>(
    block: &mut [F],
    quarter: usize,
    upper: F,
    lower: (F, F),
    finish: S,
)
    requires { length block.old ≡ (quarter + quarter) + (quarter + quarter) }
    ensures { block.new ≡ map (S.finished finish) (layer B.lower B.upper (quarter + quarter)
        (upper ∷ []) (layer B.lower B.upper quarter (lower.0 ∷ lower.1 ∷ []) block.old)) }
{
    if quarter == 1 {
        ascend_quarters::<F, B, S>(block, quarter, upper, lower, finish);
    } else {
        ascend_large_block::<F, B, S>(block, quarter, upper, lower, finish);
    }
}

// Two layers at a block that isn't inlined, the lower first: see `descend_large_block`.
#[inline(never)]
fn ascend_large_block<F: Field, B: Butterfly<F>, S: Finish<F>>(
    block: &mut [F],
    quarter: usize,
    upper: F,
    lower: (F, F),
    finish: S,
)
    requires { length block.old ≡ (quarter + quarter) + (quarter + quarter) }
    ensures { block.new ≡ map (S.finished finish) (layer B.lower B.upper (quarter + quarter)
        (upper ∷ []) (layer B.lower B.upper quarter (lower.0 ∷ lower.1 ∷ []) block.old)) }
{
    ascend_quarters::<F, B, S>(block, quarter, upper, lower, finish);
}

// Two layers at the quarters of a block, the lower first.
#[inline(always)]
fn ascend_quarters<F: Field, B: Butterfly<F>, S: Finish<F>>(
    block: &mut [F],
    quarter: usize,
    upper: F,
    lower: (F, F),
    finish: S,
)
    requires { length block.old ≡ (quarter + quarter) + (quarter + quarter) }
    ensures { block.new ≡ map (S.finished finish) (layer B.lower B.upper (quarter + quarter)
        (upper ∷ []) (layer B.lower B.upper quarter (lower.0 ∷ lower.1 ∷ []) block.old)) }
{
    let (low, high) = block.split_at_mut(2 * quarter);
    let (a, b) = low.split_at_mut(quarter);
    let (c, d) = high.split_at_mut(quarter);
    combine_four::<F, B, S>(a, c, b, d, lower, (upper, upper), finish);
}

// The butterflies of `a` with `c` and of `b` with `d`, by the first factors, and then of `a` with
// `b` and of `c` with `d`, by the second ones, at each place of the four lists.
fn combine_four<F: Field, B: Butterfly<F>, S: Finish<F>>(
    a: &mut [F],
    b: &mut [F],
    c: &mut [F],
    d: &mut [F],
    first: (F, F),
    second: (F, F),
    finish: S,
)
    requires b_length { length b.old ≡ length a.old }
    requires c_length { length c.old ≡ length a.old }
    requires d_length { length d.old ≡ length a.old }
    ensures a { a.new ≡ pairwise (λ x y. S.finished finish (B.lower second.0 x y))
        (pairwise (B.lower first.0) a.old c.old) (pairwise (B.lower first.1) b.old d.old) }
    ensures b { b.new ≡ pairwise (λ x y. S.finished finish (B.upper second.0 x y))
        (pairwise (B.lower first.0) a.old c.old) (pairwise (B.lower first.1) b.old d.old) }
    ensures c { c.new ≡ pairwise (λ x y. S.finished finish (B.lower second.1 x y))
        (pairwise (B.upper first.0) a.old c.old) (pairwise (B.upper first.1) b.old d.old) }
    ensures d { d.new ≡ pairwise (λ x y. S.finished finish (B.upper second.1 x y))
        (pairwise (B.upper first.0) a.old c.old) (pairwise (B.upper first.1) b.old d.old) }
{
    for i in 0..a.len() {
        let (low_a, high_c) = B::apply(a[i], c[i], first.0);
        let (low_b, high_d) = B::apply(b[i], d[i], first.1);
        let (new_a, new_b) = B::apply(low_a, low_b, second.0);
        let (new_c, new_d) = B::apply(high_c, high_d, second.1);
        a[i] = finish.finish(new_a);
        b[i] = finish.finish(new_b);
        c[i] = finish.finish(new_c);
        d[i] = finish.finish(new_d);
    }
}

/// Multiplies each entry by `factor`.
pub(crate) fn scale_entries<F: Field>(entries: &mut [F], factor: F)
    ensures { entries.new ≡ map (λ a. F.ops.mul a factor) entries.old }
{
    for entry in entries.iter_mut() {
        *entry = *entry * factor;
    }
}

/// What becomes of each entry that is written.
pub(crate) trait Finish<F: Field>: Copy {
    ghost finished: { Self → F → F };

    /// The entry to write in place of this one.
    fn finish(self, entry: F) -> F
        ensures { result ≡ Self.finished self entry };
}

/// Each entry as it is.
#[derive(Clone, Copy)]
pub(crate) struct Kept;

impl<F: Field> Finish<F> for Kept {
    ghost finished = { λ kept entry. entry };

    fn finish(self, entry: F) -> F {
        entry
    }
}

/// Each entry times `scale`.
#[derive(Clone, Copy)]
pub(crate) struct Scaled<F: Copy> {
    pub(crate) scale: F,
}

impl<F: Field> Finish<F> for Scaled<F> {
    ghost finished = { λ scaled entry. F.ops.mul entry scaled.scale };

    fn finish(self, entry: F) -> F {
        entry * self.scale
    }
}
