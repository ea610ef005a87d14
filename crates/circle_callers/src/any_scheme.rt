//! A committer and a verifier over any scheme of polynomial commitments: what the contract says
//! follows from the laws of the trait alone.
ghost use Rattle.std.specs.Prelude.{◌≡◌, ◌∷◌, [], IfErr, IfOk, IsTrue};
ghost use Rattle.circle_round_trip.specs.declared.any_scheme.RoundTripError.TheVariants.{Verify};

use circle_challenger::ChallengerState;
use circle_commit::{
    CommittedBatch, OpeningRequest, Pcs, PolynomialSpace, RowMajorMatrix, claims_of,
};
use circle_field::ExtensionField;
use p3_circle::RoundTripError;
use std::alloc::{AllocError, Global};

/// Commits to a matrix on a domain, opens it at a point, and lets a verifier judge the opening, by
/// two challengers that begin in one state. Returns a value for each column.
///
/// The values are those of the columns' polynomials, and no opening is refused unless the verifier
/// runs out of memory. Fails as well where the scheme commits to nothing or opens nothing.
pub fn opened_at<E, C: ChallengerState, P: Pcs<E, C>>(
    alloc: Global,
    pcs: &P,
    given: (
        P::Domain,
        RowMajorMatrix<<P::Domain as PolynomialSpace>::Val>,
    ),
    point: E,
    prover: &mut C,
    verifier: &mut C,
) -> Result<Vec<E>, RoundTripError<P::ProverError, P::Error>>
where
    E: ExtensionField<<P::Domain as PolynomialSpace>::Val>,
    requires asks { P.commit_asks pcs.now (given ∷ []) }
    requires same { C.state prover.old ≡ C.state verifier.old }
    ensures values { IfOk result (λ v. P.values_of pcs.now (given ∷ []) ((point ∷ []) ∷ [])
        ((v.items ∷ []) ∷ [])) }
    ensures believed { IfErr result (λ e. (why : _) → e ≡ Verify why → IsTrue (P.is_memory why)) }
{
    let domain = given.0;
    let (commitment, data) = match pcs.commit(alloc, one(alloc, given)?) {
        Ok(committed) => committed,
        Err(error) => return Err(RoundTripError::Commit(error)),
    };
    let request = OpeningRequest {
        prover_data: &data,
        points: one(alloc, one(alloc, point)?)?,
    };
    let (opened, proof) = match pcs.open(alloc, one(alloc, request)?, prover) {
        Ok(opened) => opened,
        Err(error) => return Err(RoundTripError::Open(error)),
    };
    let values = Vec::from_slice(alloc, &opened[0][0][0])?;
    let known = CommittedBatch {
        commitment,
        domains: one(alloc, domain)?,
        points: one(alloc, one(alloc, point)?)?,
    };
    let claims = claims_of(alloc, one(alloc, known)?, opened)?;
    match pcs.verify(alloc, claims, &proof, verifier) {
        Ok(()) => Ok(values),
        Err(error) => Err(RoundTripError::Verify(error)),
    }
}

// A vector of one item.
fn one<T: Drop>(alloc: Global, item: T) -> Result<Vec<T>, AllocError>
    ensures { IfOk result (λ v. v.items ≡ item ∷ []) }
{
    let mut list = Vec::with_capacity(alloc, 1)?;
    list.push(item)?;
    Ok(list)
}
