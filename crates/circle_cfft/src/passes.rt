//! All layers of the circle transform over stored entries, in few passes over memory.
ghost use Rattle.std.specs.Prelude.{◌≡◌, ◌≤◌, ◌<◌, ◌+◌, ◌*◌, ◌^◌, length, map};
ghost use Rattle.circle_cfft.specs.Passes.{AreLayersOf, to_values, to_coefficients};
ghost use Rattle.circle_cfft.specs.Passes.{ascending, descending, factors_at};
ghost use Rattle.circle_cfft.specs.Parts.{AreLayersOfPart, factors_of_part, part_of};

use crate::butterflies::{Backward, Butterfly, Forward};
use crate::layers::{Kept, Scaled, apply_layer, ascend_pair, descend_pair, scale_entries};
use circle_field::Field;

// A block of this many entries stays in the cache while its layers are applied.
const CACHED_ENTRIES: usize = 1 << 16;

/// From coefficients to values: the layers of these factors, the largest blocks first. Layer `l`
/// combines rows that are `2^l` apart, and `twiddles[l]` has the factor of each of its blocks.
///
/// Requires that at each layer the blocks make up the entries, of which there are some.
pub fn forward_passes<F: Field>(entries: &mut [F], width: usize, twiddles: &[Vec<F>])
    requires wide { 1 ≤ width }
    requires some { 1 ≤ length entries.old }
    requires layers { AreLayersOf width (length entries.old) twiddles.now }
    ensures { entries.new ≡ to_values F.ops width twiddles.now entries.old }
{
    let cached = cached_layers(width, twiddles.len());
    let (lower, upper) = twiddles.split_at(cached);
    descend::<F, Forward>(entries, half_of(width, cached), upper, 0);
    descend_parts::<F, Forward>(entries, width, lower);
}

/// From values to coefficients: the layers of the inverses of the factors, the smallest blocks
/// first, and each entry times `scale`.
///
/// Requires that at each layer the blocks make up the entries, of which there are some.
pub fn backward_passes<F: Field>(entries: &mut [F], width: usize, inverses: &[Vec<F>], scale: F)
    requires wide { 1 ≤ width }
    requires some { 1 ≤ length entries.old }
    requires layers { AreLayersOf width (length entries.old) inverses.now }
    ensures { entries.new ≡ map (λ a. F.ops.mul a scale)
        (to_coefficients F.ops width inverses.now entries.old) }
{
    let cached = cached_layers(width, inverses.len());
    let (lower, upper) = inverses.split_at(cached);
    ascend_parts::<F, Backward>(entries, width, lower);
    ascend_scaled::<F, Backward>(entries, half_of(width, cached), upper, scale);
}

// How many of the lowest layers are applied to one block of the entries after another: as many as
// leave such a block in the cache, less one where the layers above are of an odd number.
fn cached_layers(width: usize, layers: usize) -> usize
    requires { 1 ≤ width }
    ensures { result ≤ layers }
{
    if CACHED_ENTRIES < width {
        return 0;
    }
    let cached = layers.min((CACHED_ENTRIES / width).ilog2() as usize);
    cached.saturating_sub((layers - cached) % 2)
}

// The layers of these factors, the largest blocks first: all of them at one of the largest blocks
// before the next is begun.
fn descend_parts<F: Field, B: Butterfly<F>>(entries: &mut [F], width: usize, twiddles: &[Vec<F>])
    requires wide { 1 ≤ width }
    requires some { 1 ≤ length entries.old }
    requires layers { AreLayersOf width (length entries.old) twiddles.now }
    ensures { entries.new ≡ descending B.lower B.upper width (factors_at twiddles.now)
        (length twiddles.now) entries.old }
{
    if twiddles.is_empty() {
        return;
    }
    let count = entries.len();
    let size = half_of(width, twiddles.len());
    for part in 0..count / size {
        let start = part * size;
        descend::<F, B>(&mut entries[start..start + size], width, twiddles, part);
    }
}

// The layers of these factors at part number `part` of the entries, the largest blocks first and
// two layers at a time.
fn descend<F: Field, B: Butterfly<F>>(
    values: &mut [F],
    width: usize,
    twiddles: &[Vec<F>],
    part: usize,
)
    requires wide { 1 ≤ width }
    requires some { 1 ≤ length values.old }
    requires layers { AreLayersOfPart width (length values.old) part twiddles.now }
    ensures { values.new ≡ descending B.lower B.upper width (factors_of_part width
        (length values.old) part twiddles.now) (length twiddles.now) values.old }
{
    let count = values.len();
    let odd = twiddles.len() % 2;
    for pair in (0..twiddles.len() / 2).rev() {
        let layer = odd + 2 * pair;
        let uppers = factors_of(twiddles, layer + 1, width, count, part);
        let lowers = factors_of(twiddles, layer, width, count, part);
        descend_pair::<F, B>(values, half_of(width, layer), uppers, lowers);
    }
    if odd == 1 {
        apply_layer::<F, B>(values, width, factors_of(twiddles, 0, width, count, part));
    }
}

// The layers of these factors, the smallest blocks first: all of them at one of the largest blocks
// before the next is begun.
fn ascend_parts<F: Field, B: Butterfly<F>>(entries: &mut [F], width: usize, twiddles: &[Vec<F>])
    requires wide { 1 ≤ width }
    requires some { 1 ≤ length entries.old }
    requires layers { AreLayersOf width (length entries.old) twiddles.now }
    ensures { entries.new ≡ ascending B.lower B.upper width (factors_at twiddles.now)
        (length twiddles.now) entries.old }
{
    if twiddles.is_empty() {
        return;
    }
    let count = entries.len();
    let size = half_of(width, twiddles.len());
    for part in 0..count / size {
        let start = part * size;
        ascend::<F, B>(&mut entries[start..start + size], width, twiddles, part);
    }
}

// The layers of these factors, the smallest blocks first, and each entry times `scale` as the last
// two layers write it.
fn ascend_scaled<F: Field, B: Butterfly<F>>(
    entries: &mut [F],
    width: usize,
    twiddles: &[Vec<F>],
    scale: F,
)
    requires wide { 1 ≤ width }
    requires some { 1 ≤ length entries.old }
    requires layers { AreLayersOf width (length entries.old) twiddles.now }
    ensures { entries.new ≡ map (λ a. F.ops.mul a scale) (ascending B.lower B.upper width
        (factors_at twiddles.now) (length twiddles.now) entries.old) }
{
    let count = entries.len();
    if twiddles.len() < 2 {
        ascend::<F, B>(entries, width, twiddles, 0);
        scale_entries(entries, scale);
        return;
    }
    let below = twiddles.len() - 2;
    ascend::<F, B>(entries, width, &twiddles[..below], 0);
    let uppers = factors_of(twiddles, below + 1, width, count, 0);
    let lowers = factors_of(twiddles, below, width, count, 0);
    let scaled = Scaled { scale };
    ascend_pair::<F, B, Scaled<F>>(entries, half_of(width, below), uppers, lowers, scaled);
}

// The layers of these factors at part number `part` of the entries, the smallest blocks first and
// two layers at a time.
fn ascend<F: Field, B: Butterfly<F>>(
    values: &mut [F],
    width: usize,
    twiddles: &[Vec<F>],
    part: usize,
)
    requires wide { 1 ≤ width }
    requires some { 1 ≤ length values.old }
    requires layers { AreLayersOfPart width (length values.old) part twiddles.now }
    ensures { values.new ≡ ascending B.lower B.upper width (factors_of_part width
        (length values.old) part twiddles.now) (length twiddles.now) values.old }
{
    let count = values.len();
    let odd = twiddles.len() % 2;
    apply_first::<F, B>(values, width, twiddles, part, odd);
    for pair in 0..twiddles.len() / 2 {
        let layer = odd + 2 * pair;
        let uppers = factors_of(twiddles, layer + 1, width, count, part);
        let lowers = factors_of(twiddles, layer, width, count, part);
        ascend_pair::<F, B, Kept>(values, half_of(width, layer), uppers, lowers, Kept);
    }
}

// The lowest layer of these factors at part number `part` of the entries, if `layers` is 1, or
// none if it is 0.
fn apply_first<F: Field, B: Butterfly<F>>(
    values: &mut [F],
    width: usize,
    twiddles: &[Vec<F>],
    part: usize,
    layers: usize,
)
    requires wide { 1 ≤ width }
    requires some { 1 ≤ length values.old }
    requires first { layers ≤ 1 }
    requires within { layers ≤ length twiddles.now }
    requires layers { AreLayersOfPart width (length values.old) part twiddles.now }
    ensures { values.new ≡ ascending B.lower B.upper width (factors_of_part width
        (length values.old) part twiddles.now) layers values.old }
{
    if layers == 1 {
        let factors = factors_of(twiddles, 0, width, values.len(), part);
        apply_layer::<F, B>(values, width, factors);
    }
}

// The factors that a layer has for part number `part` of the entries, of `count` entries each.
fn factors_of<F: Field>(
    twiddles: &[Vec<F>],
    layer: usize,
    width: usize,
    count: usize,
    part: usize,
) -> &[F]
    requires within { layer < length twiddles.now }
    requires wide { 1 ≤ width }
    requires some { 1 ≤ count }
    requires layers { AreLayersOfPart width count part twiddles.now }
    ensures { result.now ≡ factors_of_part width count part twiddles.now layer }
{
    nth_part(&twiddles[layer], part, count / (2 * half_of(width, layer)))
}

// Part number `part` of the factors, `blocks` in each.
fn nth_part<F: Field>(factors: &[F], part: usize, blocks: usize) -> &[F]
    requires { part * blocks + blocks ≤ length factors.now }
    ensures { result.now ≡ part_of part blocks factors.now }
{
    let start = part * blocks;
    &factors[start..start + blocks]
}

// Half the entries of a block of that layer.
fn half_of(width: usize, layer: usize) -> usize
    requires wide { 1 ≤ width }
    requires fits { 2 ^ layer * width < 2 ^ 64 }
    ensures { result ≡ 2 ^ layer * width }
{
    width << layer
}
