//! Laws of the codewords that an opening makes of committed matrices under true claims. The calls
//! of this module return nothing and carry what their contracts say.
ghost use Rattle.std.specs.Prelude.{◌≤◌};
ghost use Rattle.circle_challenger.specs.Moves.{RunMoves};
ghost use Rattle.circle_completeness.specs.LowWords.{AreHeightWordsLow, IsLastWordLow};
ghost use Rattle.circle_completeness.specs.Honest.{AreNeverTooHigh, EndLow};

use circle_challenger::{CanObserve, CanSample, GrindingChallenger};
use circle_commit::Mmcs;
use circle_field::{ComplexExtendable, ExtensionField};
use circle_prover::OpenableRequests;
use circle_relation::OverCircle;

/// The codeword of a height, which `alpha` combines of the quotients of all claims on matrices of
/// that height, is the values of a polynomial with `2^(h - log_blowup)` coefficients plus a
/// multiple of the vanishing polynomial, where all claims are true; without its lambda it is those
/// values.
///
/// Requires a blowup of at least 2. Takes no memory.
pub fn height_words_are_low<F: ComplexExtendable, EF: ExtensionField<F>>(
    alpha: EF,
    log_blowup: usize,
)
    requires blowup { 1 ≤ log_blowup }
    ensures { AreHeightWordsLow ⟦<EF as OverCircle<F>>⟧.fields log_blowup alpha }
{
    let _law = (alpha, log_blowup);
}

/// Where all claims are true, what the codewords of the heights fold to by `bivariate` and the
/// codewords of the rounds under `betas`, with the heights that join, are the values of polynomials
/// in x, each with half as many coefficients as the one before; so the last codeword is the values
/// of a final polynomial.
///
/// Requires a blowup of at least 2. Takes no memory.
pub fn last_word_is_low<F: ComplexExtendable, EF: ExtensionField<F>>(
    alpha: EF,
    bivariate: EF,
    betas: &[EF],
    log_blowup: usize,
    log_final_poly_len: usize,
)
    requires blowup { 1 ≤ log_blowup }
    ensures { IsLastWordLow ⟦<EF as OverCircle<F>>⟧.fields log_blowup alpha log_final_poly_len
        bivariate betas.now }
{
    let _betas = betas;
    let _law = (alpha, bivariate, log_blowup, log_final_poly_len);
}

/// Where the requested matrices are of low degree, the codeword that the rounds of an opening with
/// its values end in is, whatever the challenges, the values of a final polynomial; so no opening
/// of them is refused for a last codeword of too high degree.
///
/// Takes no memory.
pub fn honest_openings_end_low<
    Val: ComplexExtendable,
    EF: ExtensionField<Val>,
    InputMmcs: Mmcs<Val>,
    FriMmcs: Mmcs<EF>,
    C,
>(requests: &OpenableRequests<Val, EF, InputMmcs, FriMmcs>, challenger: &C)
where
    C: CanSample<Val> + GrindingChallenger<Val> + CanObserve<FriMmcs::Commitment>,
    ensures ends { EndLow requests.now }
    ensures never { (m : RunMoves C C.State Val EF FriMmcs.Commitment) →
        AreNeverTooHigh requests.now m }
{
    let _requests = requests;
    let _challenger = challenger;
}
