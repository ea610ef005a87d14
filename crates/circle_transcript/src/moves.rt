//! What a challenger is to a run.
ghost use Rattle.circle_challenger.specs.Moves.{RunMoves};

use circle_challenger::{
    CanObserve, CanSample, ChallengerState, GrindingChallenger, RunChallenger,
};
use circle_field::{ExtensionField, Field};

/// What a challenger over the field `F` is to a run whose challenges are in `EF`, and whose
/// commitments are of the type `Com`.
///
/// Each challenger that samples, grinds and absorbs such commitments has it. The type of a
/// transcript carries it, so that a clause reads it off the transcript.
pub trait TranscriptMoves<F, EF, Com>: ChallengerState {
    ghost run: { RunMoves Self Self.State F EF Com };
}

impl<
    F: Field,
    EF: ExtensionField<F>,
    Com,
    C: CanSample<F> + GrindingChallenger<F> + CanObserve<Com>,
> TranscriptMoves<F, EF, Com> for C {
    ghost run = { ⟦<C as RunChallenger<F, EF, Com>>⟧.run };
}
