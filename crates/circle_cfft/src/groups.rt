//! All layers of the circle transform over stored entries, several to a group of rows, with their
//! butterflies counted.
//!
//! A pass applies consecutive layers. Its entries are blocks of lanes, two lanes for one layer,
//! four for two, and so on; the rows that stand at one place of each lane of a block are a group,
//! which no butterfly of the pass leaves.
ghost use Rattle.std.proofs.Common.{rules};
ghost use Rattle.std.specs.Prelude.{◌≡◌, ◌≤◌, ◌<◌, ◌+◌, ◌-◌, ◌*◌, ◌^◌, ℕ, length, map, [], ◌∷◌};
ghost use Rattle.circle_domain.specs.Layers.{layer};
ghost use Rattle.circle_cfft.specs.Butterflies.{count_of};
ghost use Rattle.circle_cfft.specs.Groups.{pass_layers, block_layers, HasFactors, pairs_of};
ghost use Rattle.circle_cfft.specs.Groups.{scaled, IsGroup, ChangesGroup};
ghost use Rattle.circle_cfft.specs.Passes.{AreLayersOf, factors_at};
ghost use Rattle.circle_cfft.specs.Passes.{to_values, to_coefficients};

use crate::butterflies::{Backward, Butterflies, Butterfly, Forward, combine_rows};
use crate::layers::scale_entries;
use circle_field::Field;

/// In which order a pass applies its layers.
trait Order {
    ghost order: { ℕ → ℕ → ℕ };

    /// The layer to apply after `done` of `layers` layers.
    fn next_layer(done: usize, layers: usize) -> usize
        requires { done < layers }
        ensures { result ≡ order layers done };

    ghost is_layer: { (layers done : ℕ) → done < layers → order layers done < layers };
}

/// The largest blocks first.
impl Order for Forward {
    ghost order = { λ layers done. layers - 1 - done };

    ghost is_layer = { Prim.search rules };

    fn next_layer(done: usize, layers: usize) -> usize {
        layers - 1 - done
    }
}

/// The smallest blocks first.
impl Order for Backward {
    ghost order = { λ layers done. done };

    ghost is_layer = { λ layers done h. h };

    fn next_layer(done: usize, _layers: usize) -> usize {
        done
    }
}

/// One group of rows: the entries `offset .. offset + width` of each lane of `stride` entries.
#[derive(Clone, Copy)]
struct Group {
    offset: usize,
    width: usize,
    stride: usize,
}

/// What [`forward_passes`](crate::forward_passes) does: up to `group` consecutive layers are
/// applied to one independent group of rows before the next group is begun. A `group` above the
/// number of layers counts as that number.
///
/// Requires at least one layer a group, that at each layer the blocks make up the entries, of which
/// there are some, and room for the count.
pub fn forward_groups<F: Field>(
    entries: &mut [F],
    width: usize,
    twiddles: &[Vec<F>],
    group: usize,
    butterflies: &mut Butterflies,
)
    requires wide { 1 ≤ width }
    requires some { 1 ≤ length entries.old }
    requires layers { AreLayersOf width (length entries.old) twiddles.now }
    requires group { 1 ≤ group }
    requires room { count_of butterflies.old + length twiddles.now * length entries.old < 2 ^ 128 }
    ensures values { entries.new ≡ to_values F.ops width twiddles.now entries.old }
    ensures count { (half : ℕ) → length entries.old ≡ (half + half) * width →
        count_of butterflies.new ≡ count_of butterflies.old + length twiddles.now * half }
{
    let mut low = twiddles.len();
    while low > 0 {
        let high = low;
        low = high.saturating_sub(group);
        let layers = &twiddles[low..high];
        apply_pass::<F, Forward>(entries, width, 1 << low, layers, None, butterflies);
    }
}

/// What [`backward_passes`](crate::backward_passes) does, by groups of rows as
/// [`forward_groups`] has them. The multiplication by `scale` is in the last pass.
///
/// Requires at least one layer a group, that at each layer the blocks make up the entries, of which
/// there are some, and room for the count.
pub fn backward_groups<F: Field>(
    entries: &mut [F],
    width: usize,
    inverses: &[Vec<F>],
    scale: F,
    group: usize,
    butterflies: &mut Butterflies,
)
    requires wide { 1 ≤ width }
    requires some { 1 ≤ length entries.old }
    requires layers { AreLayersOf width (length entries.old) inverses.now }
    requires group { 1 ≤ group }
    requires room { count_of butterflies.old + length inverses.now * length entries.old < 2 ^ 128 }
    ensures values { entries.new ≡ map (λ a. F.ops.mul a scale)
        (to_coefficients F.ops width inverses.now entries.old) }
    ensures count { (half : ℕ) → length entries.old ≡ (half + half) * width →
        count_of butterflies.new ≡ count_of butterflies.old + length inverses.now * half }
{
    if inverses.is_empty() {
        scale_entries(entries, scale);
        return;
    }
    let mut low = 0;
    while inverses.len() - low > group {
        let layers = &inverses[low..low + group];
        apply_pass::<F, Backward>(entries, width, 1 << low, layers, None, butterflies);
        low += group;
    }
    let layers = &inverses[low..];
    apply_pass::<F, Backward>(entries, width, 1 << low, layers, Some(scale), butterflies);
}

// The layers of these factors, block after block, where a lane has `rows` rows, and the
// multiplication of all entries by the scale that there may be.
fn apply_pass<F: Field, B: Butterfly<F> + Order>(
    entries: &mut [F],
    width: usize,
    rows: usize,
    twiddles: &[Vec<F>],
    scale: Option<F>,
    butterflies: &mut Butterflies,
)
    requires wide { 1 ≤ width }
    requires some { 1 ≤ length entries.old }
    requires some_layer { 1 ≤ length twiddles.now }
    requires layers { AreLayersOf (rows * width) (length entries.old) twiddles.now }
    requires room { count_of butterflies.old + length twiddles.now * length entries.old < 2 ^ 128 }
    ensures values { entries.new ≡ scaled F.ops scale
        (pass_layers B.lower B.upper B.order (rows * width) twiddles.now entries.old) }
    ensures count { (half : ℕ) → length entries.old ≡ (half + half) * width →
        count_of butterflies.new ≡ count_of butterflies.old + length twiddles.now * half }
{
    let size = (rows * width) << twiddles.len();
    for index in 0..entries.len() / size {
        let block = &mut entries[index * size..(index + 1) * size];
        apply_block::<F, B>(block, width, rows, index, twiddles, scale, butterflies);
    }
}

// The pass at its block `index`, group after group.
fn apply_block<F: Field, B: Butterfly<F> + Order>(
    block: &mut [F],
    width: usize,
    rows: usize,
    index: usize,
    twiddles: &[Vec<F>],
    scale: Option<F>,
    butterflies: &mut Butterflies,
)
    requires wide { 1 ≤ width }
    requires some { 1 ≤ rows }
    requires length { length block.old ≡ 2 ^ length twiddles.now * (rows * width) }
    requires factors { HasFactors (length twiddles.now) index (factors_at twiddles.now) }
    requires room { count_of butterflies.old + rows * pairs_of (length twiddles.now) < 2 ^ 128 }
    ensures values { block.new ≡ scaled F.ops scale
        (block_layers B.lower B.upper B.order (rows * width) index twiddles.now block.old) }
    ensures count { count_of butterflies.new
        ≡ count_of butterflies.old + rows * pairs_of (length twiddles.now) }
{
    for row in 0..rows {
        let group = Group {
            offset: row * width,
            width,
            stride: rows * width,
        };
        apply_group::<F, B>(block, group, index, twiddles, butterflies);
        scale_group(block, group, 1 << twiddles.len(), scale);
    }
}

// The layers of a pass at one group of rows of block `index`.
fn apply_group<F: Field, B: Butterfly<F> + Order>(
    block: &mut [F],
    group: Group,
    index: usize,
    twiddles: &[Vec<F>],
    butterflies: &mut Butterflies,
)
    requires group { IsGroup group }
    requires length { length block.old ≡ 2 ^ length twiddles.now * group.stride }
    requires factors { HasFactors (length twiddles.now) index (factors_at twiddles.now) }
    requires room { count_of butterflies.old + pairs_of (length twiddles.now) < 2 ^ 128 }
    ensures rows { ChangesGroup F.ops.zero group (2 ^ length twiddles.now)
        (block_layers B.lower B.upper B.order 1 index twiddles.now) block.old block.new }
    ensures count { count_of butterflies.new
        ≡ count_of butterflies.old + pairs_of (length twiddles.now) }
{
    for done in 0..twiddles.len() {
        let layer = B::next_layer(done, twiddles.len());
        let parts = 1 << (twiddles.len() - 1 - layer);
        let factors = &twiddles[layer][index * parts..(index + 1) * parts];
        combine_parts::<F, B>(block, group, 1 << layer, factors, butterflies);
    }
}

// One layer at one group of rows, part after part of the block: the butterflies of `half` lanes and
// the `half` lanes above them.
fn combine_parts<F: Field, B: Butterfly<F>>(
    block: &mut [F],
    group: Group,
    half: usize,
    factors: &[F],
    butterflies: &mut Butterflies,
)
    requires group { IsGroup group }
    requires some { 1 ≤ length factors.now }
    requires length { length block.old ≡ length factors.now * ((half + half) * group.stride) }
    requires room { count_of butterflies.old + length factors.now * half < 2 ^ 128 }
    ensures rows { ChangesGroup F.ops.zero group (length factors.now * (half + half))
        (layer B.lower B.upper half factors.now) block.old block.new }
    ensures count { count_of butterflies.new
        ≡ count_of butterflies.old + length factors.now * half }
{
    let size = (half + half) * group.stride;
    for (i, factor) in factors.iter().enumerate() {
        let part = &mut block[i * size..(i + 1) * size];
        combine_lanes::<F, B>(part, group, half, *factor, butterflies);
    }
}

// The butterflies of one group of rows in one part, lane after lane.
fn combine_lanes<F: Field, B: Butterfly<F>>(
    part: &mut [F],
    group: Group,
    half: usize,
    factor: F,
    butterflies: &mut Butterflies,
)
    requires group { IsGroup group }
    requires length { length part.old ≡ (half + half) * group.stride }
    requires room { count_of butterflies.old + half < 2 ^ 128 }
    ensures rows { ChangesGroup F.ops.zero group (half + half)
        (layer B.lower B.upper half (factor ∷ [])) part.old part.new }
    ensures count { count_of butterflies.new ≡ count_of butterflies.old + half }
{
    let (lows, highs) = part.split_at_mut(half * group.stride);
    for lane in 0..half {
        let start = lane * group.stride + group.offset;
        let end = start + group.width;
        combine_rows::<F, B>(
            &mut lows[start..end],
            &mut highs[start..end],
            factor,
            butterflies,
        );
    }
}

// Multiplies a group of rows of `lanes` lanes by the scale that there may be.
fn scale_group<F: Field>(block: &mut [F], group: Group, lanes: usize, scale: Option<F>)
    requires group { IsGroup group }
    requires length { length block.old ≡ lanes * group.stride }
    ensures { ChangesGroup F.ops.zero group lanes (scaled F.ops scale) block.old block.new }
{
    let Some(factor) = scale else {
        return;
    };
    for lane in 0..lanes {
        let start = lane * group.stride + group.offset;
        scale_entries(&mut block[start..start + group.width], factor);
    }
}
