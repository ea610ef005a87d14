//! The traits of challengers.
ghost use Rattle.std.specs.Prelude.{◌≡◌, ℕ, ◌≤◌, ◌<◌, ◌^◌, IfSome, IfNone, IsTrue, Option, Some};
ghost use Rattle.std.specs.Prelude.{true, false, flat_map};
ghost use Rattle.circle_field.specs.Field.{of_nat};
ghost use Rattle.circle_challenger.specs.Grinding.{passes, after_check};
ghost use Rattle.circle_challenger.specs.Moves.{Moves, RunMoves};
ghost use Rattle.circle_challenger.specs.Observing.{after_all};
ghost use Rattle.circle_challenger.specs.Sampling.{samples, after_samples};

use circle_field::{ExtensionField, Field};

/// The state of a challenger as contracts see it: what its results depend on, and nothing else.
///
/// Two challengers in one state return the same, however they keep that state.
pub trait ChallengerState {
    /// The states.
    type State;

    ghost state: { Self → Self.State };
}

/// A challenger that absorbs values of the type `T`.
pub trait CanObserve<T>: ChallengerState {
    ghost after_observe: { Self.State → T → Self.State };

    /// Absorbs the value.
    fn observe(&mut self, value: &T)
        ensures { Self.state self.new ≡ after_observe (Self.state self.old) value.now };
}

/// A challenger that gives elements of the field `F`.
pub trait CanSample<F>: ChallengerState {
    ghost sampled: { Self.State → F };

    ghost after_sample: { Self.State → Self.State };

    /// The next element.
    fn sample(&mut self) -> F
        ensures value { result ≡ sampled (Self.state self.old) }
        ensures after { Self.state self.new ≡ after_sample (Self.state self.old) };
}

/// A challenger that gives numbers of a given number of bits.
pub trait CanSampleBits: ChallengerState {
    ghost sampled_bits: { Self.State → ℕ → ℕ };

    ghost after_bits: { Self.State → ℕ → Self.State };

    /// The next number below `2^bits`.
    ///
    /// Requires `bits <= 63`.
    fn sample_bits(&mut self, bits: usize) -> usize
        requires { bits ≤ 63 }
        ensures value { result ≡ sampled_bits (Self.state self.old) bits }
        ensures after { Self.state self.new ≡ after_bits (Self.state self.old) bits };

    ghost bits_below: { (s : Self.State) (bits : ℕ) → bits ≤ 63 → sampled_bits s bits < 2 ^ bits };
}

/// A challenger with proofs of work: a witness passes at a difficulty of `bits` bits where `bits`
/// sampled bits are zero after it was absorbed.
pub trait GrindingChallenger<F: Field>: CanObserve<F> + CanSampleBits {
    ghost found_witness: { Self.State → ℕ → Option F };

    /// Absorbs the witness, and returns whether `bits` bits sampled then are zero. A difficulty of
    /// no bits passes with every witness, and nothing changes.
    ///
    /// Requires `bits <= 63`.
    fn check_witness(&mut self, bits: usize, witness: F) -> bool
        requires { bits ≤ 63 }
        ensures answer { result ≡ passes Self.after_observe Self.sampled_bits (Self.state self.old)
            bits witness }
        ensures after { Self.state self.new ≡ after_check Self.after_observe Self.after_bits
            (Self.state self.old) bits witness }
    {
        if bits == 0 {
            return true;
        }
        self.observe(&witness);
        self.sample_bits(bits) == 0
    }

    /// Looks for a witness that passes, and takes it in as `check_witness` does. `None` where none
    /// does, and then nothing changes. A difficulty of no bits gives 0.
    ///
    /// Requires `bits <= 63`.
    fn grind(&mut self, bits: usize) -> Option<F>
        requires { bits ≤ 63 }
        ensures answer { result ≡ found_witness (Self.state self.old) bits }
        ensures passes { IfSome result (λ w. IsTrue (passes Self.after_observe Self.sampled_bits
            (Self.state self.old) bits w)) }
        ensures after { IfSome result (λ w. Self.state self.new ≡ after_check Self.after_observe
            Self.after_bits (Self.state self.old) bits w) }
        ensures none { IfNone result ((w : F) → passes Self.after_observe Self.sampled_bits
            (Self.state self.old) bits w ≡ false) }
        ensures unchanged { IfNone result (Self.state self.new ≡ Self.state self.old) }
        ensures easy { bits ≡ 0 → result ≡ Some F.ops.zero };
}

/// What a challenger over the field `F` absorbs and gives of the extension `EF`, and what it is to
/// a transcript whose challenges are there.
///
/// Each challenger that samples and grinds has it, so no function requires it: a clause quotes the
/// impl, and reads `moves` of it.
pub trait FieldChallenger<F: Field, EF: ExtensionField<F>>: CanSample<F> + GrindingChallenger<F> {
    ghost moves: { Moves Self Self.State F EF };

    /// Absorbs an element of the extension, its coefficients in order.
    fn observe_algebra_element(&mut self, value: &EF)
        ensures { Self.state self.new ≡ after_all Self.after_observe (Self.state self.old)
            (EF.coefficients value.now) }
    {
        for i in 0..EF::DEGREE {
            self.observe(&value.coefficient(i));
        }
    }

    /// Absorbs elements of the extension in order, the coefficients of each in order.
    fn observe_algebra_slice(&mut self, values: &[EF])
        ensures { Self.state self.new ≡ after_all Self.after_observe (Self.state self.old)
            (flat_map EF.coefficients values.now) }
    {
        for value in values {
            self.observe_algebra_element(value);
        }
    }

    /// The element of the extension whose coefficients are the next elements, in order.
    fn sample_algebra_element(&mut self) -> EF
        ensures value { EF.coefficients result ≡ samples Self.sampled Self.after_sample EF.DEGREE
            (Self.state self.old) }
        ensures after { Self.state self.new ≡ after_samples Self.after_sample EF.DEGREE
            (Self.state self.old) }
    {
        let mut value = EF::ZERO;
        for i in 0..EF::DEGREE {
            value = value.with_coefficient(i, self.sample());
        }
        value
    }
}

impl<F: Field, EF: ExtensionField<F>, C: CanSample<F> + GrindingChallenger<F>> FieldChallenger<
    F,
    EF,
> for C {
    ghost moves = { record {
      state = C.state;
      after_observe = C.after_observe;
      sampled = C.sampled;
      after_sample = C.after_sample;
      sampled_bits = C.sampled_bits;
      after_bits = C.after_bits;
      found = C.found_witness;
      degree = EF.DEGREE;
      coefficients = EF.coefficients;
      of_nat = of_nat F.ops;
      zero = F.ops.zero;
    } };
}

/// The same for a challenger that absorbs commitments of the type `Com` too: a clause reads `run`.
pub trait RunChallenger<F: Field, EF: ExtensionField<F>, Com>: FieldChallenger<F, EF>
    + CanObserve<Com> {
    ghost run: { RunMoves Self Self.State F EF Com };
}

impl<
    F: Field,
    EF: ExtensionField<F>,
    Com,
    C: CanSample<F> + GrindingChallenger<F> + CanObserve<Com>,
> RunChallenger<F, EF, Com> for C {
    ghost run = { record {
      base = ⟦<C as FieldChallenger<F, EF>>⟧.moves;
      after_commitment = ⟦<C as CanObserve<Com>>⟧.after_observe;
    } };
}
