//! The claim that the callers of the STARK speak of.
ghost use Rattle.std.specs.Prelude.{ℕ, List};
ghost use Rattle.circle_challenger.specs.declared.sha256.Sha256Challenger.{Sha256Challenger};
ghost use Rattle.circle_stark.specs.Schemes.{Schemes};
ghost use Rattle.circle_field.specs.declared.cubic.Cubic.{Cubic};
ghost use Rattle.circle_field.specs.declared.mersenne31.Mersenne31.{Mersenne31};
ghost use Rattle.circle_callers.specs.Preset.{Scheme};

use circle_presets::{Challenge, ChallengeMmcs, Challenger, Scheme, Val, ValMmcs};
use circle_stark::StarkProof;
use circle_stark::relation::StarkSchemes;

/// A proof over the types of `circle_presets`.
pub type Proof = StarkProof<Val, Challenge, ValMmcs, ChallengeMmcs>;

/// The claim that `last` is term `2^log_n`, counted from 0, of the sequence that begins with
/// `first` and `second` and continues with the sum of the two terms before.
#[derive(Clone, Copy)]
pub struct Claim {
    /// The binary logarithm of the place of `last`.
    pub log_n: usize,
    /// The first term.
    pub first: Val,
    /// The second term.
    pub second: Val,
    /// The claimed term.
    pub last: Val,
}

/// What contracts see of these types. `Sums` in `specs/` names it, so that a clause cites a
/// definition and quotes no `impl`.
pub(crate) trait HasSchemes {
    // The schemes.
    ghost schemes: { Schemes Scheme Sha256Challenger (List ℕ) Mersenne31 Cubic };
}

impl HasSchemes for Challenger {
    ghost schemes = { ⟦<Scheme as StarkSchemes<Challenge, Challenger>>⟧.schemes };
}
