//! The rounds of an opening: each codeword is committed to, a challenge is drawn, and the codeword
//! is folded by it.
ghost use Rattle.std.specs.Prelude.{◌≡◌, ℕ, ◌≤◌, ◌-◌, ◌+◌, ◌^◌, ◌++◌, [], ◌∷◌, length, map, All};
ghost use Rattle.std.specs.Prelude.{IfOk, IfErr, OnOk, Ok, Some};
ghost use Rattle.circle_challenger.specs.Due.{AreNext, HasPlayed};
ghost use Rattle.circle_commit.specs.Matrix.{IsPowerOfTwo};
ghost use Rattle.circle_transcript.specs.Shape.{round_steps, rounds_steps};
ghost use Rattle.circle_transcript.specs.Transcript.{due, numbers, run_of, state_of, IsSame};
ghost use Rattle.circle_transcript.specs.Transcript.{commit_found, commit_from};
ghost use Rattle.circle_codewords.specs.Words.{pairs_of};
ghost use Rattle.circle_prover.specs.Failure.{IsRoundFailure, IsRoundsFailure};
ghost use Rattle.circle_prover.specs.OfFoldable.{fields_of};
ghost use Rattle.circle_prover.specs.Words.{AreCommitted, ArePlayed, AreRoundsFrom};
ghost use Rattle.circle_prover.specs.Words.{EndsIn, Follows};

use crate::foldable::FoldableMatrices;
use circle_challenger::{CanObserve, CanSample, GrindingChallenger};
use circle_codewords::fold_round;
use circle_commit::{Mmcs, RowMajorMatrix};
use circle_field::{ComplexExtendable, ExtensionField, Field};
use circle_relation::ProverError;
use circle_transcript::CircleProverTranscript;
use std::alloc::{AllocError, Global};

/// A round that was played.
#[derive(Drop)]
pub(crate) struct Round<F, EF, Com, Data> {
    /// The commitment to its codeword.
    pub commitment: Com,
    /// What the committer keeps of it.
    pub kept: Data,
    /// The witness of the proof of work before the challenge, 0 where it has no difficulty.
    pub witness: F,
    /// The folding challenge.
    pub beta: EF,
    /// The codeword that the round leaves.
    pub next: Vec<EF>,
}

/// The rounds that were played so far, each by its place.
#[derive(Drop)]
pub(crate) struct Rounds<F, EF, Com, Data> {
    /// The commitments to their codewords.
    pub commitments: Vec<Com>,
    /// What the committer keeps of them.
    pub kept: Vec<Data>,
    /// The witnesses of the proofs of work.
    pub witnesses: Vec<F>,
    /// The folding challenges.
    pub betas: Vec<EF>,
}

// Commits to a codeword, by pairs. Requires a number of entries that is a power of two, and even.
fn commit_word<EF: Field, M: Mmcs<EF>>(
    alloc: Global,
    mmcs: &M,
    word: Vec<EF>,
) -> Result<(M::Commitment, M::ProverData), AllocError>
    requires power { IsPowerOfTwo (length word.items) }
    requires pairs { 2 ≤ length word.items }
    ensures { IfOk result (λ r. AreCommitted (M.commits mmcs.now) (pairs_of word.items ∷ [])
        (M.matrices r.1) r.0) }
{
    let mut words = Vec::with_capacity(alloc, 1)?;
    words.push(RowMajorMatrix::new(word, 2))?;
    mmcs.commit(alloc, words)
}

// No rounds, with room for `capacity` of them.
fn no_rounds<F: Field, EF: Field, Com: Drop, Data: Drop>(
    alloc: Global,
    capacity: usize,
) -> Result<Rounds<F, EF, Com, Data>, AllocError>
    ensures commitments { IfOk result (λ rounds. rounds.commitments.items ≡ []) }
    ensures kept { IfOk result (λ rounds. rounds.kept.items ≡ []) }
    ensures witnesses { IfOk result (λ rounds. rounds.witnesses.items ≡ []) }
    ensures betas { IfOk result (λ rounds. rounds.betas.items ≡ []) }
{
    Ok(Rounds {
        commitments: Vec::with_capacity(alloc, capacity)?,
        kept: Vec::with_capacity(alloc, capacity)?,
        witnesses: Vec::with_capacity(alloc, capacity)?,
        betas: Vec::with_capacity(alloc, capacity)?,
    })
}

// Adds a round to those that were played, and returns the codeword that it leaves.
fn add_round<F: Field, EF: Field, Com: Drop, Data: Drop>(
    rounds: &mut Rounds<F, EF, Com, Data>,
    round: Round<F, EF, Com, Data>,
) -> Result<Vec<EF>, AllocError>
    ensures commitments { OnOk result
        (rounds.new.commitments.items ≡ rounds.old.commitments.items ++ round.commitment ∷ []) }
    ensures kept { OnOk result (rounds.new.kept.items ≡ rounds.old.kept.items ++ round.kept ∷ []) }
    ensures witnesses { OnOk result
        (rounds.new.witnesses.items ≡ rounds.old.witnesses.items ++ round.witness ∷ []) }
    ensures betas { OnOk result
        (rounds.new.betas.items ≡ rounds.old.betas.items ++ round.beta ∷ []) }
    ensures word { IfOk result (λ word. word ≡ round.next) }
{
    rounds.commitments.push(round.commitment)?;
    rounds.kept.push(round.kept)?;
    rounds.witnesses.push(round.witness)?;
    rounds.betas.push(round.beta)?;
    Ok(round.next)
}

impl<F: ComplexExtendable, EF: ExtensionField<F>, M: Mmcs<EF>> FoldableMatrices<'_, F, EF, M> {
    /// Plays the round of a codeword of `2^log_height` entries.
    ///
    /// Requires that its steps are the next, a difficulty of at most 63, `1 <= log_height` and
    /// `log_height + 2 <= CIRCLE_TWO_ADICITY`, and for each of the heights a codeword of half as
    /// many entries. Refuses `NoGrindingWitness` where no witness passes, and `Memory` where memory
    /// is refused.
    fn play_round<'b, C>(
        &self,
        alloc: Global,
        transcript: &mut CircleProverTranscript<'b, C, F, EF, M::Commitment>,
        log_height: usize,
        word: Vec<EF>,
        heights: &[usize],
        folded: &[Vec<EF>],
    ) -> Result<Round<F, EF, M::Commitment, M::ProverData>, ProverError>
    where
        C: CanSample<F> + GrindingChallenger<F> + CanObserve<M::Commitment>,
        requires next { AreNext (round_steps EF.DEGREE (numbers transcript.old).commit_pow_bits)
            (due transcript.old) }
        requires small { (numbers transcript.old).commit_pow_bits ≤ 63 }
        requires word { length word.items ≡ 2 ^ log_height }
        requires positive { 1 ≤ log_height }
        requires in_group { log_height + 2 ≤ F.CIRCLE_TWO_ADICITY }
        requires words { map (λ w. length w.items) folded.now ≡ map (λ h. 2 ^ (h - 1)) heights.now }
        ensures same { IsSame transcript.old transcript.new }
        ensures due { OnOk result (HasPlayed (round_steps EF.DEGREE
            (numbers transcript.old).commit_pow_bits) (due transcript.old) (due transcript.new)) }
        ensures easy { IfOk result (λ r.
            (numbers transcript.old).commit_pow_bits ≡ 0 → r.witness ≡ F.ops.zero) }
        ensures found { IfOk result (λ r.
            commit_found transcript.old r.commitment ≡ Some r.witness) }
        ensures played { IfOk result (λ r. commit_from transcript.old r.commitment r.witness
            ≡ Ok (EF.coefficients r.beta, state_of transcript.new)) }
        ensures committed { IfOk result (λ r. AreCommitted (M.commits self.now.params.now.mmcs)
            (pairs_of word.items ∷ []) (M.matrices r.kept) r.commitment) }
        ensures length { IfOk result (λ r. length r.next.items ≡ 2 ^ (log_height - 1)) }
        ensures folds { IfOk result (λ r. Follows (fields_of self.now) heights.now folded.now
            log_height r.beta word.items r.next.items) }
        ensures failure { let m = run_of transcript.old in IfErr result
            (IsRoundFailure m (M.commits self.now.params.now.mmcs) transcript.old word.items) }
    {
        let (commitment, kept) = commit_word(alloc, &self.params.mmcs, word)?;
        let (beta, witness) = transcript.commit_round(&commitment)?;
        let layer = &self.params.mmcs.get_matrices(&kept)[0];
        let next = fold_round::<F, EF>(alloc, beta, log_height, layer, heights, folded)?;
        Ok(Round {
            commitment,
            kept,
            witness: witness.unwrap_or(F::ZERO),
            beta,
            next,
        })
    }

    /// Plays `num_rounds` rounds, the first of a codeword of `2^log_height` entries.
    ///
    /// Requires that their steps are the next, a difficulty of at most 63, no more rounds than
    /// `log_height`, `log_height + 2 <= CIRCLE_TWO_ADICITY`, and for each of the heights a codeword
    /// of half as many entries. Refuses `NoGrindingWitness` where a round has no witness that
    /// passes, and `Memory` where memory is refused.
    pub(crate) fn play_rounds<'b, C>(
        &self,
        alloc: Global,
        transcript: &mut CircleProverTranscript<'b, C, F, EF, M::Commitment>,
        num_rounds: usize,
        log_height: usize,
        first: Vec<EF>,
        heights: &[usize],
        folded: &[Vec<EF>],
    ) -> Result<(Rounds<F, EF, M::Commitment, M::ProverData>, Vec<EF>), ProverError>
    where
        C: CanSample<F> + GrindingChallenger<F> + CanObserve<M::Commitment>,
        requires next { let bits = (numbers transcript.old).commit_pow_bits in
            AreNext (rounds_steps EF.DEGREE bits num_rounds) (due transcript.old) }
        requires small { (numbers transcript.old).commit_pow_bits ≤ 63 }
        requires first { length first.items ≡ 2 ^ log_height }
        requires fewer { num_rounds ≤ log_height }
        requires in_group { log_height + 2 ≤ F.CIRCLE_TWO_ADICITY }
        requires words { map (λ w. length w.items) folded.now ≡ map (λ h. 2 ^ (h - 1)) heights.now }
        ensures same { IsSame transcript.old transcript.new }
        ensures due { let bits = (numbers transcript.old).commit_pow_bits in OnOk result (HasPlayed
            (rounds_steps EF.DEGREE bits num_rounds) (due transcript.old) (due transcript.new)) }
        ensures commitments { IfOk result (λ r. length r.0.commitments.items ≡ num_rounds) }
        ensures witnesses { IfOk result (λ r. length r.0.witnesses.items ≡ num_rounds) }
        ensures easy { IfOk result (λ r. (numbers transcript.old).commit_pow_bits ≡ 0 →
            All (λ w. w ≡ F.ops.zero) r.0.witnesses.items) }
        ensures played { IfOk result (λ r. ArePlayed transcript.old transcript.new r.0) }
        ensures length { IfOk result (λ r. length r.1.items ≡ 2 ^ (log_height - num_rounds)) }
        ensures committed { IfOk result (λ r. AreRoundsFrom (fields_of self.now) heights.now
            folded.now (M.commits self.now.params.now.mmcs) M.matrices log_height first.items r.0) }
        ensures word { IfOk result (λ r. EndsIn (fields_of self.now) heights.now folded.now
            log_height first.items r.0.betas.items num_rounds r.1.items) }
        ensures failure { let k = fields_of self.now in IfErr result
            (IsRoundsFailure (run_of transcript.old) (M.commits self.now.params.now.mmcs)
            transcript.old k heights.now folded.now log_height first.items num_rounds) }
    {
        let mut rounds = no_rounds(alloc, num_rounds)?;
        let mut word = first;
        for i in 0..num_rounds {
            let round = self.play_round(alloc, transcript, log_height - i, word, heights, folded)?;
            word = add_round(&mut rounds, round)?;
        }
        Ok((rounds, word))
    }
}
