//! What is promised of a proof, for contracts alone.
ghost use Rattle.std.specs.Prelude.{ℕ};
ghost use Rattle.circle_air.specs.Degrees.{IsLogOfChunks, degree_of_parts};
ghost use Rattle.circle_commit.specs.Honest.{AreTrueValues};
ghost use Rattle.circle_commit.specs.declared.matrix.RowMajorMatrix.{RowMajorMatrix};
ghost use Rattle.circle_stark.specs.Accepts.{Accepts};
ghost use Rattle.circle_stark.specs.OpensRows.{Opens};
ghost use Rattle.circle_stark.specs.Refusals.{stark_tests};
ghost use Rattle.circle_stark.specs.Schemes.{Schemes};
ghost use Rattle.circle_stark.specs.Statement.{proved_of, statement_of, values_of};
ghost use Rattle.circle_stark.specs.Trace.{stated, tests_of_trace};
ghost use Rattle.circle_stark.specs.Unproved.{IsTraceUnproved, IsUnproved};
ghost use Rattle.circle_stark.specs.Verdict.{IsOpeningRefused, Refuses};
ghost use Rattle.p3_circle.specs.Scheme.{IsFirstFrom};
ghost use Rattle.circle_stark.specs.declared.error.StarkError.{StarkError};
ghost use Rattle.circle_stark.specs.declared.error.StarkProverError.{StarkProverError};
ghost use Rattle.circle_stark.specs.declared.proof.StarkStatement.{StarkStatement};
ghost use Rattle.circle_stark.specs.declared.trace.StarkTrace.{StarkTrace};

use crate::proof::StarkProof;
use circle_challenger::{
    CanObserve, CanSample, ChallengerState, GrindingChallenger, RunChallenger,
};
use circle_commit::{Mmcs, Pcs};
use circle_field::{ComplexExtendable, ElementBytes, ExtensionField};
use circle_relation::{OverCircle, VerifierError};
use p3_circle::CirclePcs;

/// What contracts see of a scheme that proofs are made over, and of the challengers of its runs.
pub trait StarkSchemes<EF, C: ChallengerState> {
    /// The entries of a trace.
    type Entry;

    /// The proofs. They stand in this trait, not in [`StarkRelation`]: the prover can quote an impl
    /// at concrete types only where its associated types name all of its parameters.
    type Proof;

    // The fields, the schemes of the batches and of the codewords, and what a challenger is to
    // both.
    ghost schemes: { Schemes Self C C.State Self.Entry EF };
}

impl<Val, EF, InputMmcs, FriMmcs, C> StarkSchemes<EF, C> for CirclePcs<Val, InputMmcs, FriMmcs>
where
    Val: ComplexExtendable + ElementBytes,
    EF: ExtensionField<Val>,
    InputMmcs: Mmcs<Val>,
    FriMmcs: Mmcs<EF>,
    C: CanSample<Val>
        + GrindingChallenger<Val>
        + CanObserve<InputMmcs::Commitment>
        + CanObserve<FriMmcs::Commitment>,
{
    type Entry = Val;

    type Proof = StarkProof<Val, EF, InputMmcs, FriMmcs>;

    ghost schemes = { let p = ⟦<Self as Pcs<EF, C>>⟧ in record {
      Commitment = InputMmcs.Commitment;
      WordCommitment = FriMmcs.Commitment;
      RowsProof = InputMmcs.MultiProof;
      WordRowsProof = FriMmcs.MultiProof;
      ProverData = InputMmcs.ProverData;
      Opening = _;
      Error = _;
      WordScheme = FriMmcs;
      operations = Val.Operations;
      bytes = Val.bytes;
      num_bytes = Val.BYTES;
      fields = ⟦<EF as OverCircle<Val>>⟧.fields;
      own = ⟦<C as RunChallenger<Val, EF, InputMmcs::Commitment>>⟧.run;
      words = ⟦<C as RunChallenger<Val, EF, FriMmcs::Commitment>>⟧.run;
      params = λ pcs. pcs.fri_params;
      kept = InputMmcs.matrices;
      Commits = λ pcs. InputMmcs.commits pcs.mmcs;
      authenticates = λ pcs. InputMmcs.authenticates pcs.mmcs;
      word_authenticates = λ pcs. FriMmcs.authenticates pcs.fri_params.mmcs;
      Gives = p.open_gives;
      RefusesToOpen = p.open_refuses;
      AreTrue = λ pcs. AreTrueValues (p.commits pcs) (p.values_of pcs);
      RefusesClaims = λ pcs. IsOpeningRefused (p.verify_refuses pcs);
    } };
}

/// What is promised of proofs over a scheme, for contracts alone.
///
/// Each scheme has it, so no function requires it: a clause cites the members of the scheme's.
pub trait StarkRelation<EF, C: ChallengerState>: StarkSchemes<EF, C> {
    /// Why the scheme refuses claimed values.
    type Error;

    // A verifier with the first challenger accepts the proof of the statement, and leaves the
    // second.
    ghost accepts: { Self → StarkStatement Self.Entry → C → C → Self.Proof → Type 0 };

    // The proof is accepted so, whatever state is left.
    ghost holds: { Self → StarkStatement Self.Entry → Self.Proof → C → Type 0 };

    // With the first challenger, not yet seeded, the proof of the statement, whose quotient has
    // 2^n chunks, is refused for this reason, which leaves the second.
    ghost refuses_seeded: { Self → StarkStatement Self.Entry → Self.Proof → ℕ → C → C
        → StarkError Self.Error → Type 0 };

    // A verifier with the first challenger refuses the proof of the statement for this reason, and
    // leaves the second.
    ghost refuses: { Self → StarkStatement Self.Entry → Self.Proof → C → C → StarkError Self.Error
        → Type 0 };

    // A prover with the first challenger doesn't prove rows that satisfy the statement, for this
    // reason, and leaves the second.
    ghost unopened: { Self → StarkStatement Self.Entry → RowMajorMatrix Self.Entry → C → C
        → StarkProverError → Type 0 };

    // A prover with the first challenger refuses the trace for this reason, and leaves the second.
    ghost unproved: { Self → StarkTrace Self.Entry → C → C → StarkProverError → Type 0 };

    // The proof of the statement, made with this challenger, opens these rows: its values are those
    // of the only polynomials that have them.
    ghost opens: { Self → StarkStatement Self.Entry → RowMajorMatrix Self.Entry → C → Self.Proof
        → Type 0 };
}

impl<Val, EF, InputMmcs, FriMmcs, C> StarkRelation<EF, C> for CirclePcs<Val, InputMmcs, FriMmcs>
where
    Val: ComplexExtendable + ElementBytes,
    EF: ExtensionField<Val>,
    InputMmcs: Mmcs<Val>,
    FriMmcs: Mmcs<EF>,
    C: CanSample<Val>
        + GrindingChallenger<Val>
        + CanObserve<InputMmcs::Commitment>
        + CanObserve<FriMmcs::Commitment>,
{
    type Error = VerifierError<InputMmcs::Error, FriMmcs::Error>;

    ghost accepts = { λ pcs statement old new proof. Accepts Self.schemes pcs
        (statement_of statement) (proved_of proof) (C.state old) (C.state new) };

    ghost holds = { λ pcs statement proof old. (left : C.State) × Accepts Self.schemes pcs
        (statement_of statement) (proved_of proof) (C.state old) left };

    ghost refuses_seeded = { λ pcs statement proof kk old new. Refuses Self.schemes pcs
        proof.opening_proof (statement_of statement) (proved_of proof) kk (C.state old)
        (C.state new) };

    ghost refuses = { λ pcs statement proof old new e. (kk : ℕ) →
        IsLogOfChunks (degree_of_parts (statement_of statement).parts) kk →
        IsFirstFrom (stark_tests Val.CIRCLE_TWO_ADICITY pcs.fri_params kk EF.DEGREE
        (statement_of statement) (values_of proof.opened_values))
        (Refuses Self.schemes pcs proof.opening_proof (statement_of statement) (proved_of proof) kk
        (C.state old) (C.state new)) (C.state old) (C.state new) e };

    ghost unopened = { λ pcs statement rows old new e. (kk : ℕ) →
        IsLogOfChunks (degree_of_parts (statement_of statement).parts) kk → IsUnproved Self.schemes
        pcs (statement_of statement) kk rows (C.state old) (C.state new) e };

    ghost unproved = { λ pcs trace old new e. (kk : ℕ) →
        IsLogOfChunks (degree_of_parts (stated trace).parts) kk →
        IsFirstFrom (tests_of_trace Val.CIRCLE_TWO_ADICITY pcs.fri_params kk trace)
        (IsTraceUnproved Self.schemes pcs (stated trace) kk trace.rows old new) old new e };

    ghost opens = { λ pcs statement rows old proof. Opens Self.schemes (statement_of statement) rows
        (C.state old) (proved_of proof) };
}
