//! A challenger of the caller's own, and the calls that have it absorb and draw.
ghost use Rattle.std.specs.Prelude.{◌≡◌, ◌<◌, ◌≤◌, ◌↔◌, IsTrue, false, map};
ghost use Rattle.circle_challenger.specs.Sampling.{after_samples, samples};
ghost use Rattle.circle_challenger.specs.Sha256Challenger.{state_of};
ghost use Rattle.circle_challenger.specs.Sponge.{absorbed, absorbed_element, after_squeeze};
ghost use Rattle.circle_challenger.specs.Sponge.{sampled_element};
ghost use Rattle.circle_field.specs.Mersenne31.{element, order, residue};

use circle_challenger::{CanObserve, FieldChallenger};
use circle_field::ExtensionField;
use circle_presets::{Challenge, Challenger, Val};

/// The state of a challenger, as C passes it; all zero in one that has absorbed nothing.
#[repr(C)]
#[derive(Clone, Copy, Debug, Drop, PartialEq, Eq)]
pub struct CircleChallenger {
    /// The state.
    pub state: [u8; 32],
}

impl CircleChallenger {
    ghost use Rattle.circle_challenger.specs.Sha256Challenger.{state_of};

    /// The challenger in this state.
    pub(crate) fn to_challenger(&self) -> Challenger
        ensures { state_of result ≡ self.now.state }
    {
        Challenger::from_state(self.state)
    }

    /// Takes the challenger's state.
    fn leave(&mut self, challenger: &Challenger)
        ensures { self.new.state ≡ state_of challenger.now }
    {
        self.state = challenger.to_state();
    }

    /// Takes the challenger's state where a command is done with it.
    pub(crate) fn leave_if(&mut self, done: bool, challenger: &Challenger)
        ensures taken { IsTrue done → self.new.state ≡ state_of challenger.now }
        ensures kept { done ≡ false → self.new ≡ self.old }
    {
        if done {
            self.leave(challenger);
        }
    }
}

/// Absorbs bytes, in one piece.
#[unsafe(no_mangle)]
pub extern "C" fn circle_challenger_observe(challenger: &mut CircleChallenger, bytes: &[u8])
    ensures { challenger.new.state ≡ absorbed challenger.old.state bytes.now }
{
    let mut own = challenger.to_challenger();
    own.observe_bytes(bytes);
    challenger.leave(&own);
}

/// Absorbs the element of the field that this number stands for, and returns 0; or returns 1 where
/// the number is that of no element, and leaves the challenger as it was.
#[unsafe(no_mangle)]
pub extern "C" fn circle_challenger_observe_element(
    challenger: &mut CircleChallenger,
    number: u32,
) -> u8
    ensures status { result ≤ 1 }
    ensures range { (result ≡ 0) ↔ (number < order) }
    ensures absorbed { result ≡ 0
        → challenger.new.state ≡ absorbed_element challenger.old.state (element number) }
    ensures state { result ≡ 1 → challenger.new ≡ challenger.old }
{
    let Some(element) = Val::try_new(number) else {
        return 1;
    };
    let mut own = challenger.to_challenger();
    own.observe(&element);
    challenger.leave(&own);
    0
}

/// Draws an element of the extension: the numbers of its three coefficients.
#[unsafe(no_mangle)]
pub extern "C" fn circle_challenger_sample(
    challenger: &mut CircleChallenger,
    element: &mut [u32; 3],
)
    ensures drawn { element.new
        ≡ map residue (samples sampled_element after_squeeze 3 challenger.old.state) }
    ensures state { challenger.new.state ≡ after_samples after_squeeze 3 challenger.old.state }
{
    let mut own = challenger.to_challenger();
    let drawn: Challenge = own.sample_algebra_element();
    challenger.leave(&own);
    let [c0, c1, c2]: [Val; 3] = [
        drawn.coefficient(0),
        drawn.coefficient(1),
        drawn.coefficient(2),
    ];
    *element = [c0.value(), c1.value(), c2.value()];
}
