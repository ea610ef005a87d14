//! The steps of a transcript in order.
ghost use Rattle.std.specs.Prelude.{◌≡◌, map};

use crate::interaction::Interaction;
use std::marker::Model;

/// The steps of a transcript, in the order in which they are played. Contracts see the list of
/// steps.
#[derive(Debug, Drop)]
pub struct InteractionPattern {
    steps: Vec<Interaction>,
}

impl Model for InteractionPattern {
    ghost use Rattle.std.specs.Prelude.{List, map};
    ghost use Rattle.circle_challenger.specs.Step.{Step};
    ghost use Rattle.circle_challenger.specs.Interaction.{step_of};

    ghost Value = { List Step };

    ghost view = { λ p. map step_of p.steps.items };
}

impl InteractionPattern {
    ghost use Rattle.circle_challenger.specs.Interaction.{step_of};

    /// The pattern of these steps.
    pub fn new(steps: Vec<Interaction>) -> Self
        ensures { result ≡ map step_of steps.items }
    {
        InteractionPattern { steps }
    }

    /// The steps in order.
    pub fn steps(&self) -> &[Interaction]
        ensures { map step_of result.now ≡ self.now }
    {
        &self.steps
    }
}
