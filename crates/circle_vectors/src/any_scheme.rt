//! A caller over any scheme of polynomial commitments: what it says follows from the trait alone.
ghost use Rattle.std.specs.Prelude.{IfOk, IsTrue};

use circle_challenger::ChallengerState;
use circle_commit::{CommitmentOpening, Pcs, PolynomialSpace};
use circle_field::ExtensionField;
use std::alloc::{AllocError, Global};

/// Whether a scheme accepts claims and a proof from the challenger's state: true exactly where its
/// relation holds. Fails where memory is refused.
pub fn accepts<Challenge, C: ChallengerState, P: Pcs<Challenge, C>>(
    alloc: Global,
    pcs: &P,
    claims: Vec<CommitmentOpening<Challenge, P::Commitment, P::Domain>>,
    proof: &P::Proof,
    challenger: &mut C,
) -> Result<bool, AllocError>
where
    Challenge: ExtensionField<<P::Domain as PolynomialSpace>::Val>,
    ensures yes { IfOk result (λ b. IsTrue b → P.verify_accepts pcs.now claims.items proof.now
        (C.state challenger.old) (C.state challenger.new)) }
    ensures no { IfOk result (λ b. (left : C.State) → P.verify_accepts pcs.now claims.items
        proof.now (C.state challenger.old) left → IsTrue b) }
{
    match pcs.verify(alloc, claims, proof, challenger) {
        Ok(()) => Ok(true),
        Err(error) => {
            if P::is_memory(&error) {
                return Err(AllocError);
            }
            Ok(false)
        }
    }
}
