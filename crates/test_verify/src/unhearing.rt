//! A challenger for schemes whose commitments show nothing.
ghost use Rattle.circle_challenger.specs.Sponge.{absorbed_element, after_squeeze, least_witness};
ghost use Rattle.circle_challenger.specs.Sponge.{number-below, sampled_element, sampled_number};

use circle_challenger::{
    CanObserve, CanSample, CanSampleBits, ChallengerState, GrindingChallenger, Sha256Challenger,
};
use circle_field::Mersenne31;
use test_schemes::schemes::Nothing;

/// The challenger over SHA-256, which absorbs nothing of a commitment that shows nothing.
#[derive(PartialEq, Eq, Debug, Drop)]
pub(crate) struct Unhearing {
    inner: Sha256Challenger,
}

impl Unhearing {
    /// The challenger that took nothing in.
    pub(crate) fn new() -> Self {
        Unhearing {
            inner: Sha256Challenger::new(),
        }
    }
}

impl ChallengerState for Unhearing {
    ghost use Rattle.circle_challenger.specs.Sha256Challenger.{state_of};

    type State = [u8; 32];

    ghost state = { λ c. state_of c.inner };
}

impl CanObserve<Nothing> for Unhearing {
    ghost after_observe = { λ s _. s };

    fn observe(&mut self, _value: &Nothing) {}
}

impl CanObserve<Mersenne31> for Unhearing {
    ghost after_observe = { absorbed_element };

    fn observe(&mut self, value: &Mersenne31) {
        self.inner.observe(value);
    }
}

impl CanSample<Mersenne31> for Unhearing {
    ghost sampled = { sampled_element };

    ghost after_sample = { after_squeeze };

    fn sample(&mut self) -> Mersenne31 {
        self.inner.sample()
    }
}

impl CanSampleBits for Unhearing {
    ghost sampled_bits = { sampled_number };

    ghost after_bits = { λ s bits. after_squeeze s };

    ghost bits_below = { λ s bits h. number-below s bits };

    fn sample_bits(&mut self, bits: usize) -> usize {
        self.inner.sample_bits(bits)
    }
}

impl GrindingChallenger<Mersenne31> for Unhearing {
    ghost found_witness = { least_witness };

    fn grind(&mut self, bits: usize) -> Option<Mersenne31> {
        self.inner.grind(bits)
    }
}
