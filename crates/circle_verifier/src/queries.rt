//! What a verifier checks once the challenges of a run are drawn.
ghost use Rattle.std.specs.Prelude.{◌≡◌, OnOk, IfErr};
ghost use Rattle.circle_relation.specs.Reasons.{IsReason};
ghost use Rattle.circle_verifier.specs.OfDrawn.{drawn_run, IsAccepted, IsRefused};
ghost use Rattle.circle_verifier.specs.OfRun.{run_of, IsOpened, Holds, Refuses};

use crate::checked::CheckedRun;
use crate::drawn::DrawnRun;
use crate::run::OpenedRun;
use circle_commit::Mmcs;
use circle_field::{ComplexExtendable, ExtensionField};
use circle_relation::VerifierError;
use std::alloc::Global;

impl<
    Val: ComplexExtendable,
    EF: ExtensionField<Val>,
    InputMmcs: Mmcs<Val>,
    FriMmcs: Mmcs<EF>,
> OpenedRun<'_, Val, EF, InputMmcs, FriMmcs> {
    /// Refuses a run by the first of these that fails: the lists of the proof have the lengths that
    /// are due, each batch's rows authenticate, no claimed point is that of a query, the pairs of
    /// the first layer and of each round authenticate, and each query ends in the value of the
    /// final polynomial.
    ///
    /// Fails with `Memory` where memory is refused.
    pub fn verify(
        self,
        alloc: Global,
    ) -> Result<(), VerifierError<InputMmcs::Error, FriMmcs::Error>>
        ensures opened { OnOk result (IsOpened self.entry) }
        ensures holds { OnOk result (Holds self.entry) }
        ensures refused { IfErr result (Refuses self.entry) }
    {
        let checked = self.checked(alloc)?;
        checked.verify(alloc)
    }
}

impl<
    Val: ComplexExtendable,
    EF: ExtensionField<Val>,
    InputMmcs: Mmcs<Val>,
    FriMmcs: Mmcs<EF>,
> CheckedRun<'_, Val, EF, InputMmcs, FriMmcs> {
    /// Refuses a run, once its lists' lengths are tested, as [`OpenedRun::verify`] does.
    #[tactic(auto, unfolding(circle_relation::specs::Reasons::IsReason))]
    pub fn verify(
        &self,
        alloc: Global,
    ) -> Result<(), VerifierError<InputMmcs::Error, FriMmcs::Error>>
        ensures holds { OnOk result (Holds self.now.run) }
        ensures refused { IfErr result (Refuses self.now.run) }
    {
        self.run.authenticate_inputs(alloc)?;
        let reduced = self.reduced_words(alloc)?;
        let layer = reduced.fold_first_layer(alloc)?;
        layer.authenticate_first_layer(alloc)?;
        let last = layer.fold_rounds(alloc)?;
        last.check_final()
    }
}

impl<
    Val: ComplexExtendable,
    EF: ExtensionField<Val>,
    InputMmcs: Mmcs<Val>,
    FriMmcs: Mmcs<EF>,
> DrawnRun<'_, Val, EF, InputMmcs, FriMmcs> {
    /// The run as its batches are committed to by `mmcs`.
    pub fn opened<'a>(&'a self, mmcs: &'a InputMmcs) -> OpenedRun<'a, Val, EF, InputMmcs, FriMmcs>
        ensures mmcs { result.mmcs.now ≡ mmcs.now }
        ensures params { result.params.now ≡ self.now.run.params.now }
        ensures run { run_of result ≡ drawn_run self.now }
    {
        OpenedRun {
            mmcs,
            params: self.run.params,
            claims: self.run.claims,
            claimed_points: &self.claimed_points,
            proof: self.run.proof,
            log_max_height: self.run.log_max_height,
            alpha: self.draws.alpha,
            bivariate: self.draws.bivariate,
            betas: &self.draws.betas,
            indices: &self.draws.indices,
        }
    }

    /// Refuses a run whose batches are committed to by `mmcs`, as [`OpenedRun::verify`] does.
    pub fn verify(
        &self,
        alloc: Global,
        mmcs: &InputMmcs,
    ) -> Result<(), VerifierError<InputMmcs::Error, FriMmcs::Error>>
        ensures accepted { OnOk result (IsAccepted self.now mmcs.now) }
        ensures refused { IfErr result (IsRefused self.now mmcs.now) }
    {
        let run = self.opened(mmcs);
        run.verify(alloc)
    }
}
