//! What contracts see of an opening's fields, its challenger and its two schemes.
ghost use Rattle.circle_prover.specs.Schemes.{Schemes};

use circle_commit::Mmcs;
use circle_relation::OverCircle;
use circle_transcript::TranscriptMoves;

/// The fields, the challenger, the scheme of the batches and that of the codewords, for contracts
/// alone, where there are no [`OpenableRequests`](crate::OpenableRequests) that carry them.
pub trait OpeningOver<
    Val: Copy,
    EF: OverCircle<Val>,
    InputMmcs: Mmcs<Val>,
    FriMmcs: Mmcs<EF>,
>: TranscriptMoves<Val, EF, FriMmcs::Commitment> {
    ghost schemes: { Schemes Self Self.State Val EF InputMmcs InputMmcs.Commitment
        InputMmcs.ProverData InputMmcs.MultiProof FriMmcs FriMmcs.Commitment FriMmcs.ProverData
        FriMmcs.MultiProof };
}

impl<
    Val: Copy,
    EF: OverCircle<Val>,
    InputMmcs: Mmcs<Val>,
    FriMmcs: Mmcs<EF>,
    C: TranscriptMoves<Val, EF, FriMmcs::Commitment>,
> OpeningOver<Val, EF, InputMmcs, FriMmcs> for C {
    ghost schemes = { record {
      fields = EF.fields;
      run = Self.run;
      kept = InputMmcs.matrices;
      Commits = InputMmcs.commits;
      authenticates = InputMmcs.authenticates;
      word_kept = FriMmcs.matrices;
      WordCommits = FriMmcs.commits;
      word_authenticates = FriMmcs.authenticates;
    } };
}
