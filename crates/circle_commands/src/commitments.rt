//! The commitments that the challenger of a run absorbs before anything else.

ghost use Rattle.std.specs.Prelude.{◌≡◌, ℕ, List, map};
ghost use Rattle.circle_challenger.specs.Sha256Challenger.{state_of};
ghost use Rattle.circle_commands.specs.Commitments.{after_commitments};

use circle_challenger::CanObserve;
use circle_presets::{Challenger, Commitment};

/// Matrices with a commitment to them.
pub(crate) trait HasCommitment {
    // The commitment.
    ghost commitment_of: { Self → List ℕ };

    /// The commitment.
    fn commitment(&self) -> &Commitment
        ensures { result.now ≡ commitment_of self.now };
}

/// Absorbs the commitments of the batches, in order.
pub(crate) fn observe_commitments<B: HasCommitment>(challenger: &mut Challenger, batches: &[B])
    ensures { state_of challenger.new
        ≡ after_commitments (state_of challenger.old) (map B.commitment_of batches.now) }
{
    for batch in batches {
        challenger.observe(batch.commitment());
    }
}
