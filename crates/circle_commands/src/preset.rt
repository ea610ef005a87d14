//! What the schemes are to contracts at the one choice of types that is built here.
ghost use Rattle.circle_commands.specs.Preset.{Preset};

use circle_presets::{Challenge, ChallengeMmcs, Challenger, Scheme, Val, ValMmcs};
use circle_prover::OpeningOver;
use p3_circle::Pcs;

/// The members of the traits of schemes at that choice, for contracts alone. `Chosen` in `specs/`
/// names them, so that a clause cites a definition and quotes no `impl`.
pub(crate) trait HasPreset {
    // The members.
    ghost preset: { Preset };
}

impl HasPreset for Challenger {
    ghost preset = { let o =
        ⟦<Challenger as OpeningOver<Val, Challenge, ValMmcs, ChallengeMmcs>>⟧ in
        let p = ⟦<Scheme as Pcs<Challenge, Challenger>>⟧ in record {
          Domain = _;
          Kept = _;
          WordKept = _;
          Proof = _;
          schemes = o.schemes;
          CommitRefuses = p.commit_refuses;
          OpenRefuses = p.open_refuses;
          VerifyRefuses = p.verify_refuses;
        } };
}
