//! The steps of a transcript that are still due, which contracts alone see.
ghost use Rattle.std.specs.Prelude.{◌≡◌, List, [], drop};
ghost use Rattle.std.specs.Borrow.{ftrue};
ghost use Rattle.circle_challenger.specs.Step.{Step};

use crate::domain_separator::DomainSeparator;
use std::marker::{Model, PhantomData};

/// The steps that are still due, and the challenger as it was left when they were last kept. It
/// takes no memory, and its methods do nothing when they run.
#[derive(Drop)]
pub struct StepsDue<C> {
    of: PhantomData<C>,
    pub ghost steps: { List Step },
    pub ghost challenger: { C },
}

impl<C> Model for StepsDue<C> {
    ghost also_owns = { λ _. ftrue };
}

impl<C> StepsDue<C> {
    /// Any steps and any challenger: each caller's `Invariants.antt` picks them, by what is known
    /// of `_by`.
    fn picked<T>(_by: &T) -> StepsDue<C>
        ghost picked: { List Step × C }
        ensures { (result.steps ≡ picked.0) × (result.challenger ≡ picked.1) }
    {
        StepsDue { of: PhantomData }
    }

    /// The steps of the separator, over this challenger.
    pub(crate) fn of(_separator: &DomainSeparator, _challenger: &C) -> StepsDue<C>
        ensures { result.steps ≡ _separator.now.steps }
    {
        StepsDue::picked(&(_separator, _challenger))
    }

    /// These steps, over this challenger.
    pub(crate) fn over(&self, _challenger: &C) -> StepsDue<C>
        ensures steps { result.steps ≡ self.now.steps }
        ensures challenger { result.challenger ≡ _challenger.now }
    {
        StepsDue::picked(&(self, _challenger))
    }

    /// Takes the steps out, over the same challenger, and leaves none: a list is resumed with once.
    pub fn take(&mut self) -> StepsDue<C>
        ensures steps { result.steps ≡ self.old.steps }
        ensures challenger { result.challenger ≡ self.old.challenger }
        ensures left { self.new.steps ≡ [] }
    {
        let left = StepsDue::picked(self);
        std::mem::replace(self, left)
    }

    /// The steps but the first.
    pub(crate) fn after_first(&self) -> StepsDue<C>
        ensures { result.steps ≡ drop 1 self.now.steps }
    {
        StepsDue::picked(self)
    }
}
