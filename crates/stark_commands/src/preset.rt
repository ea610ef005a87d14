//! Why proofs are refused or not made, to contracts, at the one choice of types that is built.
ghost use Rattle.stark_commands.specs.Preset.{Preset};

use circle_presets::{Challenge, Challenger, Scheme};
use circle_stark::StarkRelation;

/// The members of the relation at that choice, for contracts alone. `Chosen` in `specs/` names
/// them, so that a clause cites a definition and quotes no `impl`.
pub(crate) trait HasPreset {
    // The members.
    ghost preset: { Preset };
}

impl HasPreset for Challenger {
    ghost preset = { let p = ⟦<Scheme as StarkRelation<Challenge, Challenger>>⟧ in record {
      Proof = _;
      Refuses = p.refuses;
      Unproved = p.unproved;
    } };
}
