//! The law of openings that are accepted. The call of this module returns nothing and carries what
//! its contract says.
ghost use Rattle.circle_completeness.specs.Accepted.{AcceptsOpeningsOf};

use circle_challenger::{CanObserve, CanSample, GrindingChallenger, RunChallenger};
use circle_commit::Mmcs;
use circle_field::{ComplexExtendable, ExtensionField};
use circle_prover::OpenableRequests;

/// Whatever an opening returns for the requests is accepted (Circle STARKs, IACR ePrint 2024/278,
/// sections 4 to 6): where what is claimed is what was returned, of each matrix at one point at
/// least, under commitments of the requested matrices, the challenges that a verifier draws from
/// the state that the opening began in are those of the opening, they leave the state that it left,
/// and the verifier's relation holds of them.
///
/// That is so of matrices of fewer than 1024 columns, of whatever degree, and of all of low degree.
/// A wide one of high degree is opened at the queries by its own rows, but its codewords are those
/// of the extension of its first rows: what is returned for it may be refused.
///
/// Takes no memory.
pub fn openings_are_accepted<
    Val: ComplexExtendable,
    EF: ExtensionField<Val>,
    InputMmcs: Mmcs<Val>,
    FriMmcs: Mmcs<EF>,
    C,
>(requests: &OpenableRequests<Val, EF, InputMmcs, FriMmcs>, challenger: &C)
where
    C: CanSample<Val> + GrindingChallenger<Val> + CanObserve<FriMmcs::Commitment>,
    ensures { AcceptsOpeningsOf requests.now
        ⟦<C as RunChallenger<Val, EF, FriMmcs::Commitment>>⟧.run }
{
    let _requests = requests;
    let _challenger = challenger;
}
