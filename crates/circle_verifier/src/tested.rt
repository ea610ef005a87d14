//! A verifier's run before its challenges are drawn.
ghost use Rattle.std.specs.Prelude.{◌≡◌};
ghost use Rattle.circle_relation.specs.RunOf.{proof_of};
ghost use Rattle.circle_relation.specs.StatementOf.{batch_claims};
ghost use Rattle.circle_verifier.specs.Tested.{IsTestedOver};
ghost use Rattle.circle_verifier.specs.Tests.{claimed_height};

use circle_commit::{CommitmentOpening, FriParameters, Mmcs};
use circle_domain::CircleDomain;
use circle_field::Operations;
use circle_relation::{CirclePcsProof, OverCircle};

/// Claims and a proof that passed all tests that precede the seeding of the challenger.
#[derive(Drop)]
pub struct TestedRun<
    'a,
    Val: Operations,
    EF: OverCircle<Val>,
    InputMmcs: Mmcs<Val>,
    FriMmcs: Mmcs<EF>,
> {
    /// The parameters, with the commitment scheme of the codewords.
    pub params: &'a FriParameters<FriMmcs>,
    /// What is claimed of each batch.
    pub claims: &'a [CommitmentOpening<EF, InputMmcs::Commitment, CircleDomain<Val>>],
    /// The proof.
    pub proof: &'a CirclePcsProof<Val, EF, InputMmcs, FriMmcs, Val>,
    /// The binary logarithm of the greatest height that is claimed.
    pub log_max_height: usize,
    /// What the tests establish.
    pub ghost tested: { IsTestedOver EF.fields params.now (batch_claims claims.now)
        (proof_of proof.now) },
    /// What the height is.
    pub ghost top: { log_max_height ≡ claimed_height params.now.log_blowup
        (batch_claims claims.now) },
}
