//! A verifier's run with its challenges, which it owns.
ghost use Rattle.std.specs.Prelude.{◌≡◌, ◌<◌, ◌^◌, length, All};
ghost use Rattle.circle_relation.specs.StatementOf.{batch_claims};
ghost use Rattle.circle_relation.specs.Taken.{claims_taken};
ghost use Rattle.circle_transcript.specs.Claims.{claims_of};
ghost use Rattle.circle_verifier.specs.Tested.{rounds_due};

use crate::tested::TestedRun;
use circle_commit::Mmcs;
use circle_field::Operations;
use circle_relation::OverCircle;
use circle_transcript::{CircleDraws, OpeningClaim};

/// Claims and a proof that passed the tests, with challenges for them.
#[derive(Drop)]
pub struct DrawnRun<
    'a,
    Val: Operations,
    EF: Operations + OverCircle<Val>,
    InputMmcs: Mmcs<Val>,
    FriMmcs: Mmcs<EF>,
> {
    /// The claims and the proof.
    pub run: TestedRun<'a, Val, EF, InputMmcs, FriMmcs>,
    /// Each claimed point with the values there, in the order batch, matrix, point.
    pub claimed_points: Vec<OpeningClaim<'a, EF>>,
    /// The challenges.
    pub draws: CircleDraws<EF>,
    /// The points are those of the claims.
    pub ghost listed: { claims_of claimed_points.items ≡ claims_taken EF.fields.extension
        (batch_claims run.claims.now) },
    /// There is a challenge for each round.
    pub ghost betas: { length draws.betas.items ≡ rounds_due run.params.now
        (batch_claims run.claims.now) },
    /// There are as many queries as the parameters say.
    pub ghost count: { length draws.indices.items ≡ run.params.now.num_queries },
    /// Each query is below the greatest height that is claimed.
    pub ghost below: { All (λ q. q < 2 ^ run.log_max_height) draws.indices.items },
}
