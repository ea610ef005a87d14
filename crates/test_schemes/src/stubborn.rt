//! A challenger that no witness passes.
ghost use Rattle.std.specs.Prelude.{◌==◌, ◌^◌, ◌-◌, Some, None, if◌then◌else◌};
ghost use Rattle.circle_field.specs.Mersenne31.{element};
ghost use Rattle.std.proofs.Math.Pow.{ones_lt};

use circle_challenger::{
    CanObserve, CanSample, CanSampleBits, ChallengerState, GrindingChallenger,
};
use circle_field::{Field, Mersenne31};

/// A challenger with one state, so that its results never change: its elements are 0 and its
/// numbers are the greatest. It counts what it absorbs, which its state doesn't show.
#[derive(Debug, Drop)]
pub struct Stubborn {
    pub taken: u64,
}

impl ChallengerState for Stubborn {
    type State = ();

    ghost state = { λ _. tt };
}

impl<T> CanObserve<T> for Stubborn {
    ghost after_observe = { λ s _. s };

    fn observe(&mut self, _value: &T) {
        self.taken = self.taken.wrapping_add(1);
    }
}

impl CanSample<Mersenne31> for Stubborn {
    ghost sampled = { λ _. element 0 };

    ghost after_sample = { λ s. s };

    fn sample(&mut self) -> Mersenne31 {
        Mersenne31::ZERO
    }
}

impl CanSampleBits for Stubborn {
    ghost sampled_bits = { λ _ bits. 2 ^ bits - 1 };

    ghost after_bits = { λ s _. s };

    ghost bits_below = { λ _ bits _. ones_lt bits };

    fn sample_bits(&mut self, bits: usize) -> usize {
        (1 << bits) - 1
    }
}

impl GrindingChallenger<Mersenne31> for Stubborn {
    ghost found_witness = { λ _ bits. if bits == 0 then Some (element 0) else None };

    fn grind(&mut self, bits: usize) -> Option<Mersenne31> {
        if bits == 0 {
            Some(Mersenne31::from_u64(0))
        } else {
            None
        }
    }
}
