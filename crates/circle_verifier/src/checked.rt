//! A verifier's run whose proof's lists have the lengths that are due.
ghost use Rattle.std.specs.Prelude.{◌≡◌};
ghost use Rattle.circle_verifier.specs.OfRun.{IsOpened, heights_of};

use crate::run::OpenedRun;
use circle_commit::Mmcs;
use circle_field::Operations;
use circle_relation::OverCircle;

/// A run whose proof's lists have the lengths that the claims and the queries fix, where each
/// matrix is claimed at a point and leaves something to fold.
#[derive(Drop)]
pub struct CheckedRun<
    'a,
    Val: Operations,
    EF: Operations + OverCircle<Val>,
    InputMmcs: Mmcs<Val>,
    FriMmcs: Mmcs<EF>,
> {
    /// The run.
    pub run: OpenedRun<'a, Val, EF, InputMmcs, FriMmcs>,
    /// The binary logarithms of all heights that matrices are claimed of, ascending, each once.
    pub heights: Vec<usize>,
    /// What was tested.
    pub ghost opened: { IsOpened run },
    /// What the heights are.
    pub ghost claimed: { heights.items ≡ heights_of run },
}
