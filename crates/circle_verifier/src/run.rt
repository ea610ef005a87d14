//! A verifier's run once its challenges are drawn.
ghost use Rattle.std.specs.Prelude.{◌≡◌};
ghost use Rattle.circle_relation.specs.RunOf.{run_with};
ghost use Rattle.circle_relation.specs.StatementOf.{batch_claims};
ghost use Rattle.circle_relation.specs.Taken.{claims_taken};
ghost use Rattle.circle_transcript.specs.Claims.{claims_of};
ghost use Rattle.circle_verifier.specs.Drawn.{IsDrawn};

use circle_commit::{CommitmentOpening, FriParameters, Mmcs};
use circle_domain::CircleDomain;
use circle_field::Operations;
use circle_relation::{CirclePcsProof, OverCircle};
use circle_transcript::OpeningClaim;

/// What a verifier has of a run once its challenges are drawn: the schemes and the parameters, what
/// is claimed, the proof, and what was drawn.
#[derive(Drop)]
pub struct OpenedRun<
    'a,
    Val: Operations,
    EF: Operations + OverCircle<Val>,
    InputMmcs: Mmcs<Val>,
    FriMmcs: Mmcs<EF>,
> {
    /// The commitment scheme of the batches.
    pub mmcs: &'a InputMmcs,
    /// The parameters, with the commitment scheme of the codewords.
    pub params: &'a FriParameters<FriMmcs>,
    /// What is claimed of each batch.
    pub claims: &'a [CommitmentOpening<EF, InputMmcs::Commitment, CircleDomain<Val>>],
    /// Each claimed point with the values there, in the order batch, matrix, point.
    pub claimed_points: &'a [OpeningClaim<'a, EF>],
    /// The proof.
    pub proof: &'a CirclePcsProof<Val, EF, InputMmcs, FriMmcs, Val>,
    /// The binary logarithm of the greatest committed height.
    pub log_max_height: usize,
    /// The challenge that batches the claims.
    pub alpha: EF,
    /// The challenge that folds the first layer.
    pub bivariate: EF,
    /// The folding challenge of each round.
    pub betas: &'a [EF],
    /// The queries, each below the greatest committed height.
    pub indices: &'a [usize],
    /// The points are those of the claims.
    pub ghost listed: { claims_of claimed_points.now ≡ claims_taken EF.fields.extension
        (batch_claims claims.now) },
    /// What was tested before the challenges were drawn, and what is known of the challenges.
    pub ghost drawn: { IsDrawn EF.fields params.now (run_with claims.now proof.now (record {
      alpha = alpha;
      bivariate = bivariate;
      betas = betas.now;
      queries = indices.now;
    })) log_max_height },
}
