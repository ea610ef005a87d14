//! A challenger whose elements are chosen.
ghost use Rattle.std.specs.Prelude.{Some};
ghost use Rattle.std.proofs.lemmas.Nat.{pow_pos};
ghost use Rattle.circle_field.specs.Mersenne31.{element};

use circle_challenger::{
    CanObserve, CanSample, CanSampleBits, ChallengerState, GrindingChallenger,
};
use circle_field::{Field, Mersenne31};

/// Three elements that come again and again, the next one first.
#[derive(Clone, Copy)]
pub(crate) struct Cycle {
    first: Mersenne31,
    second: Mersenne31,
    third: Mersenne31,
}

/// A challenger that samples three chosen elements in turn, whatever it absorbs. Its numbers are 0,
/// so every witness passes. It counts the elements that it sampled.
#[derive(Drop)]
pub(crate) struct Chosen {
    left: Cycle,
    count: u64,
}

impl Chosen {
    /// The challenger that samples these elements.
    pub(crate) fn new(elements: [u64; 3]) -> Self {
        let [first, second, third] = elements;
        Chosen {
            left: Cycle {
                first: Mersenne31::from_u64(first),
                second: Mersenne31::from_u64(second),
                third: Mersenne31::from_u64(third),
            },
            count: 0,
        }
    }

    /// The number of elements that it sampled.
    pub(crate) fn sampled(&self) -> u64 {
        self.count
    }
}

impl ChallengerState for Chosen {
    type State = Cycle;

    ghost state = { λ c. c.left };
}

impl<T> CanObserve<T> for Chosen {
    ghost after_observe = { λ s _. s };

    fn observe(&mut self, _value: &T) {}
}

impl CanSample<Mersenne31> for Chosen {
    ghost sampled = { λ s. s.first };

    ghost after_sample = { λ s. record { first = s.second; second = s.third; third = s.first } };

    fn sample(&mut self) -> Mersenne31 {
        let Cycle {
            first,
            second,
            third,
        } = self.left;
        self.left = Cycle {
            first: second,
            second: third,
            third: first,
        };
        self.count = self.count.wrapping_add(1);
        first
    }
}

impl CanSampleBits for Chosen {
    ghost sampled_bits = { λ _ _. 0 };

    ghost after_bits = { λ s _. s };

    ghost bits_below = { λ _ bits _. pow_pos bits };

    fn sample_bits(&mut self, _bits: usize) -> usize {
        0
    }
}

impl GrindingChallenger<Mersenne31> for Chosen {
    ghost found_witness = { λ _ _. Some (element 0) };

    fn grind(&mut self, _bits: usize) -> Option<Mersenne31> {
        Some(Mersenne31::from_u64(0))
    }
}
