//! A challenger over SHA-256.
ghost use Rattle.std.specs.Prelude.{◌≡◌, ◌++◌, ◌∷◌, [], ◌%◌, ◌<◌, ◌≤◌, replicate, is_some, IfSome};
ghost use Rattle.circle_challenger.specs.Grinding.{passes, after_check};
ghost use Rattle.sha2.specs.Sha256.{sha256};
ghost use Rattle.circle_challenger.specs.Sponge.{absorbed, absorbed_element, number_of};
ghost use Rattle.circle_challenger.specs.Sponge.{after_squeeze, sampled_element, sampled_number};
ghost use Rattle.circle_challenger.specs.Sponge.{number-below};

use crate::challenger::{
    CanObserve, CanSample, CanSampleBits, ChallengerState, GrindingChallenger,
};
use circle_field::{ElementBytes, Field, Mersenne31};
use sha2::{Digest, Sha256};

/// A challenger over SHA-256 whose state is 32 bytes, zeros at first. What it absorbs, and each
/// draw, replaces the state by a digest of it (FIPS 180-4).
#[derive(Clone, PartialEq, Eq, Debug, Drop)]
pub struct Sha256Challenger {
    state: [u8; 32],
}

/// The digest of a tag, a state and bytes, one after the other.
fn tagged_digest(tag: u8, state: &[u8; 32], bytes: &[u8]) -> [u8; 32]
    ensures { result ≡ sha256 (tag ∷ state.now ++ bytes.now) }
{
    let mut hasher = Sha256::new();
    hasher.update([tag]);
    hasher.update(state.as_slice());
    hasher.update(bytes);
    hasher.finalize()
}

impl Sha256Challenger {
    ghost use Rattle.circle_challenger.specs.Sha256Challenger.{state_of};

    /// The challenger that took nothing in.
    pub fn new() -> Self
        ensures { state_of result ≡ replicate 32 0 }
    {
        Sha256Challenger { state: [0; 32] }
    }

    /// The challenger in this state, as [`to_state`](Self::to_state) returns it.
    pub fn from_state(state: [u8; 32]) -> Self
        ensures { state_of result ≡ state }
    {
        Sha256Challenger { state }
    }

    /// The state, by which a challenger can be stored or handed on.
    pub fn to_state(&self) -> [u8; 32]
        ensures { result ≡ state_of self.now }
    {
        self.state
    }

    /// Absorbs bytes.
    pub fn observe_bytes(&mut self, bytes: &[u8])
        ensures { state_of self.new ≡ absorbed (state_of self.old) bytes.now }
    {
        self.state = tagged_digest(0, &self.state, bytes);
    }

    /// The number that is drawn next: the first eight bytes of what is squeezed out of the state,
    /// the greatest first.
    fn number(&self) -> u64
        ensures { result ≡ number_of (state_of self.now) }
    {
        match tagged_digest(1, &self.state, &[]).first_chunk::<8>() {
            Some(first) => u64::from_be_bytes(*first),
            None => unreachable!(),
        }
    }

    /// The challenger after a check that the witness passes, and `None` where it doesn't.
    fn passed(&self, bits: usize, witness: &Mersenne31) -> Option<Self>
        requires some { 0 < bits }
        requires small { bits ≤ 63 }
        ensures answer { is_some result ≡ passes absorbed_element sampled_number (state_of self.now)
            bits witness.now }
        ensures after { IfSome result (λ c. state_of c ≡ after_check absorbed_element
            (λ s n. after_squeeze s) (state_of self.now) bits witness.now) }
    {
        let mut trial = Sha256Challenger { state: self.state };
        trial.observe(witness);
        if trial.number() % (1 << bits) != 0 {
            return None;
        }
        trial.advance();
        Some(trial)
    }

    /// Goes on to the state after a draw.
    fn advance(&mut self)
        ensures { state_of self.new ≡ after_squeeze (state_of self.old) }
    {
        self.state = tagged_digest(2, &self.state, &[]);
    }
}

impl Default for Sha256Challenger {
    ghost use Rattle.circle_challenger.specs.Sha256Challenger.{state_of};

    ghost is_default = { λ c. state_of c ≡ replicate 32 0 };

    fn default() -> Self {
        Sha256Challenger::new()
    }
}

impl ChallengerState for Sha256Challenger {
    ghost use Rattle.circle_challenger.specs.Sha256Challenger.{state_of};

    type State = [u8; 32];

    ghost state = { state_of };
}

impl CanObserve<Mersenne31> for Sha256Challenger {
    ghost use Rattle.circle_challenger.specs.Sponge.{absorbed_element};

    ghost after_observe = { absorbed_element };

    fn observe(&mut self, value: &Mersenne31) {
        self.observe_bytes(&value.to_bytes());
    }
}

impl CanObserve<[u8; 32]> for Sha256Challenger {
    ghost use Rattle.circle_challenger.specs.Sponge.{absorbed};

    ghost after_observe = { absorbed };

    fn observe(&mut self, value: &[u8; 32]) {
        self.observe_bytes(value);
    }
}

impl CanSample<Mersenne31> for Sha256Challenger {
    ghost sampled = { sampled_element };

    ghost after_sample = { after_squeeze };

    fn sample(&mut self) -> Mersenne31 {
        let number = self.number();
        self.advance();
        Mersenne31::from_u64(number)
    }
}

impl CanSampleBits for Sha256Challenger {
    ghost sampled_bits = { sampled_number };

    ghost after_bits = { λ s bits. after_squeeze s };

    ghost bits_below = { λ s bits h. number-below s bits };

    fn sample_bits(&mut self, bits: usize) -> usize {
        let number = self.number();
        self.advance();
        (number % (1 << bits)) as usize
    }
}

impl GrindingChallenger<Mersenne31> for Sha256Challenger {
    ghost use Rattle.circle_challenger.specs.Sponge.{least_witness};

    ghost found_witness = { least_witness };

    /// The least element from 0 up that passes.
    fn grind(&mut self, bits: usize) -> Option<Mersenne31> {
        if bits == 0 {
            return Some(Mersenne31::ZERO);
        }
        for n in 0..Mersenne31::ORDER {
            let witness = Mersenne31::from_u64(u64::from(n));
            if let Some(after) = self.passed(bits, &witness) {
                *self = after;
                return Some(witness);
            }
        }
        None
    }
}
