//! What the members of a scheme say together.
ghost use Rattle.std.specs.Prelude.{List};
ghost use Rattle.circle_commit.specs.Pcs.{Openings};
ghost use Rattle.circle_commit.specs.declared.pcs.OpeningRequest.{OpeningRequest};
ghost use Rattle.circle_commit.specs.Honest.{AcceptsAnswers, AreTrueValues, IsHonestFrom};

use crate::PolynomialSpace;
use crate::scheme::Pcs;
use circle_challenger::ChallengerState;
use circle_field::ExtensionField;

/// What the members of a scheme say together, for contracts alone.
///
/// Each scheme has it, so no function requires it: a clause quotes the impl, and reads `is_honest`
/// of it.
pub trait Statements<Challenge, C: ChallengerState>: Pcs<Challenge, C>
where
    Challenge: ExtensionField<<Self::Domain as PolynomialSpace>::Val>,
{
    // The requests are honest, and in their run from this state each search finds a witness.
    ghost is_honest: { Self → List (OpeningRequest Self.ProverData Challenge) → C.State → Type 0 };

    // The results are the values of the polynomials of the batches that were committed to.
    ghost are_true: { Self → List (OpeningRequest Self.ProverData Challenge) → Openings Challenge
        → Type 0 };

    // Claims of the results are accepted from the first state, which leaves the second.
    ghost are_accepted: { Self → List (OpeningRequest Self.ProverData Challenge) → C.State
        → Openings Challenge → Self.Proof → C.State → Type 0 };
}

impl<Challenge, C: ChallengerState, P: Pcs<Challenge, C>> Statements<Challenge, C> for P
where
    Challenge: ExtensionField<<P::Domain as PolynomialSpace>::Val>,
{
    ghost is_honest = { λ pcs. IsHonestFrom (P.commits pcs) (P.opens_at pcs)
        (P.finds_witnesses pcs) };

    ghost are_true = { λ pcs. AreTrueValues (P.commits pcs) (P.values_of pcs) };

    ghost are_accepted = { λ pcs requests s values proof t. AcceptsAnswers P.Domain.size
        (P.commits pcs) (λ claims. P.verify_accepts pcs claims proof s t) requests values };
}
