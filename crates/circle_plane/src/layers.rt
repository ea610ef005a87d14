//! The ways to apply the layers of a transform: in few passes over memory, and by groups of rows,
//! whose butterflies are counted.
ghost use Rattle.std.specs.Prelude.{◌≡◌, ℕ, ◌≤◌, ◌<◌, ◌+◌, ◌*◌, ◌^◌, length, map};
ghost use Rattle.circle_cfft.specs.Butterflies.{count_of};
ghost use Rattle.circle_cfft.specs.Passes.{AreLayersOf, to_values, to_coefficients};

use circle_cfft::{Butterflies, backward_groups, backward_passes, forward_groups, forward_passes};
use circle_field::Field;

/// A way to apply the layers of a transform.
pub(crate) trait Layers<F: Field> {
    // There is room to count this many more butterflies.
    ghost has_room: { Self → ℕ → Type 0 };

    // What it counts of `layers` layers over `entries` entries in rows of this width.
    ghost counts: { Self → Self → (width entries layers : ℕ) → Type 0 };

    /// From coefficients to values.
    fn forward(&mut self, entries: &mut [F], width: usize, twiddles: &[Vec<F>])
        requires wide { 1 ≤ width }
        requires some { 1 ≤ length entries.old }
        requires layers { AreLayersOf width (length entries.old) twiddles.now }
        requires room { has_room self.old (length twiddles.now * length entries.old) }
        ensures values { entries.new ≡ to_values F.ops width twiddles.now entries.old }
        ensures count { counts self.old self.new width (length entries.old)
            (length twiddles.now) };

    /// From values to coefficients, by the inverses of the factors, each entry times `scale`.
    fn backward(&mut self, entries: &mut [F], width: usize, inverses: &[Vec<F>], scale: F)
        requires wide { 1 ≤ width }
        requires some { 1 ≤ length entries.old }
        requires layers { AreLayersOf width (length entries.old) inverses.now }
        requires room { has_room self.old (length inverses.now * length entries.old) }
        ensures values { entries.new ≡ map (λ a. F.ops.mul a scale)
            (to_coefficients F.ops width inverses.now entries.old) }
        ensures count { counts self.old self.new width (length entries.old)
            (length inverses.now) };
}

/// In few passes over memory.
#[derive(Drop)]
pub(crate) struct InPasses;

impl<F: Field> Layers<F> for InPasses {
    ghost has_room = { λ _ _. Unit {0} };

    ghost counts = { λ _ _ _ _ _. Unit {0} };

    fn forward(&mut self, entries: &mut [F], width: usize, twiddles: &[Vec<F>]) {
        forward_passes(entries, width, twiddles);
    }

    fn backward(&mut self, entries: &mut [F], width: usize, inverses: &[Vec<F>], scale: F) {
        backward_passes(entries, width, inverses, scale);
    }
}

/// By groups of rows: up to `group` consecutive layers are applied to one before the next is begun.
#[derive(Drop)]
pub(crate) struct InGroups {
    group: usize,
    butterflies: Butterflies,
    ghost some_layers: { 1 ≤ group },
}

impl InGroups {
    ghost use Rattle.circle_plane.specs.Layers.{counted};

    /// Groups of `group` layers, and no butterflies so far.
    pub(crate) fn new(group: usize) -> Self
        requires { 1 ≤ group }
        ensures { counted result ≡ 0 }
    {
        InGroups {
            group,
            butterflies: Butterflies::new(),
        }
    }

    /// The butterflies so far.
    pub(crate) fn into_butterflies(self) -> Butterflies
        ensures { count_of result ≡ counted self }
    {
        let InGroups {
            group: _,
            butterflies,
        } = self;
        butterflies
    }
}

impl<F: Field> Layers<F> for InGroups {
    ghost use Rattle.circle_plane.specs.Layers.{counted};

    ghost has_room = { λ groups more. counted groups + more < 2 ^ 128 };

    ghost counts = { λ old new width entries layers. (half : ℕ) → entries ≡ (half + half) * width
        → counted new ≡ counted old + layers * half };

    fn forward(&mut self, entries: &mut [F], width: usize, twiddles: &[Vec<F>]) {
        forward_groups(entries, width, twiddles, self.group, &mut self.butterflies);
    }

    fn backward(&mut self, entries: &mut [F], width: usize, inverses: &[Vec<F>], scale: F) {
        backward_groups(
            entries,
            width,
            inverses,
            scale,
            self.group,
            &mut self.butterflies,
        );
    }
}
