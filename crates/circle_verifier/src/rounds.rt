//! The rounds after the first layer, which fold codewords by x.
ghost use Rattle.std.specs.Prelude.{◌≡◌, ◌+◌, ◌-◌, ◌/◌, ◌^◌, ◌<◌, ◌≤◌, length, map, All};
ghost use Rattle.std.specs.Prelude.{slice_index_or, OnOk, IfOk, IfErr};
ghost use Rattle.circle_commit.specs.DotProduct.{pairwise};
ghost use Rattle.circle_folding.specs.Chain.{round_twiddles};
ghost use Rattle.circle_verifier.specs.Rounds.{inverses_from, values_in, siblings_in, folds_in};
ghost use Rattle.circle_verifier.specs.Rounds.{words_below, HasRound};
ghost use Rattle.circle_verifier.specs.OfRun.{RoundsAuthenticate, Refuses};
ghost use Rattle.circle_relation.specs.RunOf.{joining_of};

use crate::first_layer::FirstLayer;
use crate::last_word::LastValues;
use crate::run::OpenedRun;
use circle_commit::{Dimensions, FriError, Mmcs};
use circle_field::{ComplexExtendable, ExtensionField, Field, batch_multiplicative_inverse};
use circle_folding::{
    add_each, first_x_twiddles, fold_query_values_with_inv_twiddles, next_x_twiddles, query_pairs,
    without_bits,
};
use circle_relation::{QueryValues, VerifierError};
use std::alloc::{AllocError, Global};

impl<
    'a,
    Val: ComplexExtendable,
    EF: ExtensionField<Val>,
    InputMmcs: Mmcs<Val>,
    FriMmcs: Mmcs<EF>,
> FirstLayer<'a, Val, EF, InputMmcs, FriMmcs> {
    /// Folds the queries' values through all rounds, beginning with those of the greatest height:
    /// in each round the pairs at the queries authenticate, are folded, and the height that is due
    /// joins them. Returns the values in the last codeword. Refuses a round whose pairs don't
    /// authenticate, by `CommitPhaseMmcsError`.
    ///
    /// Each round is verified once, for all queries, and the twiddles of all rounds are inverted
    /// together. Fails with `Memory` where memory is refused.
    #[tactic(auto, unfolding(circle_relation::specs::Reasons::IsReason))]
    pub fn fold_rounds(
        self,
        alloc: Global,
    ) -> Result<
        LastValues<'a, Val, EF, InputMmcs, FriMmcs>,
        VerifierError<InputMmcs::Error, FriMmcs::Error>,
    >
        ensures run { IfOk result (λ last. last.run.now ≡ self.entry.run.now) }
        ensures shown { OnOk result (RoundsAuthenticate self.entry.run.now.run) }
        ensures refused { IfErr result (Refuses self.entry.run.now.run) }
    {
        let FirstLayer { run, folded, .. } = self;
        let mut waiting = folded;
        // The greatest height is one of those that are claimed, so there is a last one.
        let Some(first) = waiting.pop() else {
            let values = Vec::new(alloc);
            return Ok(LastValues { run, values });
        };
        let mut values = first.values;
        let (rounds, top) = (run.run.betas.len(), run.run.log_max_height);
        let inverses = inverse_round_twiddles::<Val>(alloc, top, rounds, run.run.indices)?;
        let mut later = inverses.as_slice();
        let mut left = waiting.as_slice();
        for round in 0..rounds {
            let (inv_twiddles, rest) = later.split_at(run.run.indices.len());
            run.run.fold_round(alloc, round, inv_twiddles, &mut values)?;
            left = run.run.join(round, left, &mut values);
            later = rest;
        }
        Ok(LastValues { run, values })
    }
}

impl<
    Val: ComplexExtendable,
    EF: ExtensionField<Val>,
    InputMmcs: Mmcs<Val>,
    FriMmcs: Mmcs<EF>,
> OpenedRun<'_, Val, EF, InputMmcs, FriMmcs> {
    // Folds the queries' values in the codeword of a round, where their pairs authenticate.
    #[tactic(auto, unfolding(circle_relation::specs::Reasons::IsReason))]
    fn fold_round(
        &self,
        alloc: Global,
        round: usize,
        inv_twiddles: &[Val],
        values: &mut [EF],
    ) -> Result<(), VerifierError<InputMmcs::Error, FriMmcs::Error>>
        requires round { round < length self.now.betas.now }
        requires inverses { inv_twiddles.now ≡ map Val.ops.inv (round_twiddles Val.ops
            Val.generators self.now.log_max_height round self.now.indices.now) }
        requires values { values.old ≡ values_in self.now round }
        ensures folded { OnOk result (values.new ≡ folds_in self.now round) }
        ensures shown { OnOk result (HasRound self.now round) }
        ensures refused { IfErr result (Refuses self.now) }
    {
        let opening = &self.proof.fri_proof.commit_phase_openings[round];
        let siblings = first_entries(alloc, &opening.sibling_values)?;
        self.authenticate_round(alloc, round, values, &siblings)?;
        let (beta, bits) = (self.betas[round], round + 1);
        fold_query_values_with_inv_twiddles(
            beta,
            bits,
            self.indices,
            inv_twiddles,
            values,
            &siblings,
        );
        Ok(())
    }

    // Refuses a round of which the pairs don't authenticate.
    #[tactic(auto, unfolding(circle_relation::specs::Reasons::IsReason))]
    fn authenticate_round(
        &self,
        alloc: Global,
        round: usize,
        values: &[EF],
        siblings: &[EF],
    ) -> Result<(), VerifierError<InputMmcs::Error, FriMmcs::Error>>
        requires round { round < length self.now.betas.now }
        requires values { values.now ≡ values_in self.now round }
        requires siblings { siblings.now ≡ siblings_in self.now round }
        ensures shown { OnOk result (HasRound self.now round) }
        ensures refused { IfErr result (Refuses self.now) }
    {
        let pairs = query_pairs(alloc, round + 1, self.indices, values, siblings)?;
        let places = without_bits(alloc, self.indices, round + 2)?;
        let shape = Dimensions {
            width: 2,
            height: 1 << (self.log_max_height - 2 - round),
        };
        let commitment = &self.proof.fri_proof.commit_phase_commits[round];
        let proof = &self.proof.fri_proof.commit_phase_openings[round].opening_proof;
        let verdict = self
            .params
            .mmcs
            .verify_multi_batch(alloc, commitment, &[shape], &places, &pairs, proof);
        match verdict {
            Ok(()) => Ok(()),
            Err(error) if FriMmcs::is_memory(&error) => Err(FriError::Memory),
            Err(error) => Err(FriError::CommitPhaseMmcsError(error)),
        }
    }

    // Adds to the values that a round folds into those that join them at their height, where it is
    // claimed; returns the codewords that are left.
    fn join<'b>(
        &self,
        round: usize,
        waiting: &'b [QueryValues<EF>],
        values: &mut [EF],
    ) -> &'b [QueryValues<EF>]
        requires round { round < length self.now.betas.now }
        requires waiting { map joining_of waiting.now
            ≡ words_below self.now (self.now.log_max_height - round) }
        requires values { values.old ≡ folds_in self.now round }
        ensures left { map joining_of result.now
            ≡ words_below self.now (self.now.log_max_height - (round + 1)) }
        ensures values { values.new ≡ values_in self.now (round + 1) }
    {
        let height = self.log_max_height - 1 - round;
        match waiting.split_last() {
            Some((word, rest)) if word.log_height == height => {
                add_each(values, &word.values);
                rest
            }
            _ => waiting,
        }
    }
}

// The inverses of the queries' twiddles in the rounds, round after round, by one inversion.
fn inverse_round_twiddles<F: ComplexExtendable>(
    alloc: Global,
    log_max_height: usize,
    rounds: usize,
    indices: &[usize],
) -> Result<Vec<F>, AllocError>
    requires rounds { rounds + 2 ≤ log_max_height }
    requires in_group { log_max_height < F.CIRCLE_TWO_ADICITY }
    requires in_range { All (λ q. q < 2 ^ log_max_height) indices.now }
    ensures { IfOk result (λ inverses. inverses.items
        ≡ inverses_from F.ops F.generators log_max_height indices.now 0 rounds) }
{
    let mut twiddles = Vec::with_capacity(alloc, rounds.saturating_mul(indices.len()))?;
    let mut of_round = first_x_twiddles::<F>(alloc, log_max_height, indices)?;
    for round in 0..rounds {
        twiddles.extend_from_slice(&of_round)?;
        next_x_twiddles(round, indices, &mut of_round);
    }
    batch_multiplicative_inverse(alloc, &twiddles)
}

// The first entry of each row.
fn first_entries<E: Field>(alloc: Global, rows: &[Vec<E>]) -> Result<Vec<E>, AllocError>
    requires { All (λ row. length row ≡ 1) (map (λ row. row.items) rows.now) }
    ensures { IfOk result (λ entries. entries.items
        ≡ map (λ row. slice_index_or row.items 0 E.ops.zero) rows.now) }
{
    let mut entries = Vec::with_capacity(alloc, rows.len())?;
    for row in rows {
        entries.push(row[0])?;
    }
    Ok(entries)
}
