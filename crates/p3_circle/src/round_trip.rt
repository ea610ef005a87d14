//! A whole run over the scheme.
ghost use Rattle.std.specs.Prelude.{◌≡◌, All, IfErr, IfOk, OnOk};
ghost use Rattle.circle_commit.specs.Pcs.{openings};
ghost use Rattle.circle_round_trip.specs.RoundTrip.{AreHonestUnder, AreValuesOf, HasPoints};
ghost use Rattle.circle_round_trip.specs.RoundTrip.{IsOfMemory, IsReasonUnder};
ghost use Rattle.p3_circle.specs.Committing.{HaveRowsForPoints};
ghost use Rattle.p3_circle.specs.Honest.{AreBatchValues};
ghost use Rattle.p3_circle.specs.Scheme.{says_memory, says_prover_memory};
ghost use Rattle.p3_circle.specs.SchemeLaws.HonestOpenings.{points_in};

use crate::pcs::CirclePcs;
use circle_challenger::{CanObserve, CanSample, GrindingChallenger};
use circle_commit::{Mmcs, OpenedValues, Pcs, RowMajorMatrix};
use circle_domain::CircleDomain;
use circle_field::{ComplexExtendable, ExtensionField};
use circle_prover::ProverError;
use circle_relation::VerifierError;
use circle_round_trip::{BatchAtPoints, RoundTripError, round_trip};
use std::alloc::Global;

impl<Val: ComplexExtendable, InputMmcs: Mmcs<Val>, FriMmcs> CirclePcs<Val, InputMmcs, FriMmcs> {
    /// Commits to batches, opens them all at once, each matrix at its own points, and verifies the
    /// result, by two challengers that begin in one state.
    ///
    /// Returns, batch by batch, the values of the only polynomials with the batch's rows, once
    /// `verify` has accepted them; then both challengers end in one state. Otherwise it returns the
    /// refusal of `commit`, `open` or `verify`, for the reason that they state, or `Memory`. Honest
    /// batches are refused only when out of memory, where each search for a witness finds one.
    ///
    /// Requires for each matrix a row for each point of its domain, and a list of at least one
    /// point.
    pub fn round_trip<EF: ExtensionField<Val>, C>(
        &self,
        alloc: Global,
        batches: Vec<BatchAtPoints<EF, CircleDomain<Val>, RowMajorMatrix<Val>>>,
        prover: &mut C,
        verifier: &mut C,
    ) -> Result<
        OpenedValues<EF>,
        RoundTripError<ProverError, VerifierError<InputMmcs::Error, FriMmcs::Error>>,
    >
    where
        FriMmcs: Mmcs<EF>,
        C: CanSample<Val> + GrindingChallenger<Val> + CanObserve<FriMmcs::Commitment>,
        requires rows { All (λ b. HaveRowsForPoints b.evaluations.items) batches.items }
        requires points { All HasPoints batches.items }
        requires same { C.state prover.old ≡ C.state verifier.old }
        ensures accepted { IfErr result (λ e. AreHonestUnder ⟦<Self as Pcs<EF, C>>⟧ self.now
            batches.items (C.state prover.old) → IsOfMemory says_prover_memory says_memory e) }
        ensures values { IfOk result (λ v. AreValuesOf (AreBatchValues Val.ops Val.generators EF.ops
            EF.embed) batches.items (openings v.items)) }
        ensures states { OnOk result (C.state prover.new ≡ C.state verifier.new) }
        ensures reason { let s = C.state in IfErr result (IsReasonUnder ⟦<Self as Pcs<EF, C>>⟧
            self.now batches.items points_in (s prover.old) (s prover.new) (s verifier.new)) }
    {
        round_trip::<EF, C, Self>(alloc, self, batches, prover, verifier)
    }
}
