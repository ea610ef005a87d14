//! Constraints checked on the values of their nodes at a block of rows.
ghost use Rattle.std.specs.Prelude.{◌≡◌, ℕ, ◌+◌, ◌-◌, ◌*◌, ◌<◌, ◌≤◌, ◌↔◌, All, IsTrue, length, min};
ghost use Rattle.circle_air.specs.Lanes.{HoldsInLane, IsFailureAt};
ghost use Rattle.circle_air.specs.Places.{HasRow};
ghost use Rattle.circle_air.specs.Satisfies.{IsFoundIn};

use crate::check::Violation;
use crate::evaluate::node_lanes;
use crate::node::{Constraint, Place};
use crate::trace::LANES;
use circle_field::Field;

/// Where a block of rows stands in a trace.
#[derive(Clone, Copy)]
pub(crate) struct BlockPlace {
    /// The first row of the block.
    pub start: usize,
    /// The number of rows of the trace.
    pub height: usize,
    ghost in_range: { start < height },
}

// Whether all values are 0.
fn are_zero<F: Field>(values: &[F]) -> bool
    ensures { IsTrue result ↔ All (λ v. v ≡ F.ops.zero) values.now }
{
    values.iter().all(|v| v.is_zero())
}

impl BlockPlace {
    // The number of rows of the block.
    fn count(&self) -> usize
        ensures { result ≡ min LANES (self.now.height - self.now.start) }
    {
        LANES.min(self.height - self.start)
    }

    // The lanes of the rows of a place: from the first number on and below the second.
    fn lanes(&self, place: Place) -> (usize, usize)
        ensures order { result.0 ≤ result.1 }
        ensures end { result.1 ≤ LANES }
        ensures has { (r : ℕ) → r < LANES → self.now.start + r < self.now.height
            → HasRow place self.now.height (self.now.start + r)
            → (result.0 ≤ r) × (r < result.1) }
    {
        let count = self.count();
        let has_last = self.start + count == self.height;
        match place {
            Place::Every => (0, count),
            Place::First if self.start == 0 => (0, 1),
            Place::Last if has_last => (count - 1, count),
            Place::First | Place::Last => (0, 0),
            Place::Transition if has_last => (0, count - 1),
            Place::Transition => (0, count),
        }
    }

    // Whether the constraint holds at each row of the block.
    fn holds<F: Field>(&self, constraint: Constraint, values: &[F]) -> bool
        requires { (constraint.node + 1) * LANES ≤ length values.now }
        ensures { IsTrue result → (r : ℕ) → r < LANES → self.now.start + r < self.now.height
            → HoldsInLane F.ops LANES values.now self.now.height (self.now.start + r) r constraint }
    {
        let (from, end) = self.lanes(constraint.place);
        are_zero(&node_lanes(values, constraint.node, LANES)[from..end])
    }

    // Whether each constraint holds at each row of the block.
    fn is_clean<F: Field>(&self, constraints: &[Constraint], values: &[F]) -> bool
        requires { All (λ c. (c.node + 1) * LANES ≤ length values.now) constraints.now }
        ensures { IsTrue result → (r : ℕ) → r < LANES → self.now.start + r < self.now.height
            → All (HoldsInLane F.ops LANES values.now self.now.height (self.now.start + r) r)
            constraints.now }
    {
        for constraint in constraints {
            if !self.holds(*constraint, values) {
                return false;
            }
        }
        true
    }

    // Whether the constraint holds at the row of a lane.
    fn holds_in_lane<F: Field>(&self, constraint: Constraint, values: &[F], lane: usize) -> bool
        requires node { (constraint.node + 1) * LANES ≤ length values.now }
        requires lane { lane < LANES }
        requires row { self.now.start + lane < self.now.height }
        ensures { IsTrue result ↔ HoldsInLane F.ops LANES values.now self.now.height
            (self.now.start + lane) lane constraint }
    {
        !constraint.place.has_row(self.start + lane, self.height)
            || node_lanes(values, constraint.node, LANES)[lane].is_zero()
    }

    // The first constraint that doesn't hold at the row of a lane.
    fn failing<F: Field>(
        &self,
        constraints: &[Constraint],
        values: &[F],
        lane: usize,
    ) -> Option<usize>
        requires range { All (λ c. (c.node + 1) * LANES ≤ length values.now) constraints.now }
        requires lane { lane < LANES }
        requires row { self.now.start + lane < self.now.height }
        ensures { IsFailureAt (HoldsInLane F.ops LANES values.now self.now.height (self.now.start + lane)
            lane) constraints.now result }
    {
        for (j, constraint) in constraints.iter().enumerate() {
            if !self.holds_in_lane(*constraint, values, lane) {
                return Some(j);
            }
        }
        None
    }

    /// The first row of the block at which a constraint doesn't hold, and the first such constraint
    /// there.
    pub fn violation<F: Field>(&self, constraints: &[Constraint], values: &[F]) -> Option<Violation>
        requires { All (λ c. (c.node + 1) * LANES ≤ length values.now) constraints.now }
        ensures { IsFoundIn (λ i. HoldsInLane F.ops LANES values.now self.now.height i
            (i - self.now.start)) constraints.now self.now.start
            (min self.now.height (self.now.start + LANES)) result }
    {
        if self.is_clean(constraints, values) {
            return None;
        }
        for lane in 0..self.count() {
            if let Some(constraint) = self.failing(constraints, values, lane) {
                let row = self.start + lane;
                return Some(Violation { row, constraint });
            }
        }
        None
    }
}
