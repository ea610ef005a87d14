//! The values of an AIR's nodes over the windows of a block on the quotient's domain.
ghost use Rattle.std.specs.Prelude.{◌≡◌, ℕ, ◌+◌, ◌<◌, ◌≤◌, ◌^◌, All, IfOk, length};
ghost use Rattle.circle_commit.specs.PeriodicLdeTable.{columns_of};
ghost use Rattle.circle_air.specs.Air.{air_of};
ghost use Rattle.circle_air.specs.Lanes.{lane};
ghost use Rattle.circle_air.specs.Values.{values};
ghost use Rattle.circle_quotient.specs.Terms.{window_of_place};

use crate::lanes::{LaneWindows, write_rows};
use crate::sums::zero_lists;
use crate::trace::ExtendedTrace;
use circle_air::Air;
use circle_air::evaluate::write_values;
use circle_commit::{Matrix, entry_count};
use circle_field::Field;
use std::alloc::{AllocError, Global};

/// Room for the rows of a block, column by column, and for the values of the nodes there.
#[derive(Drop)]
pub(crate) struct NodeLanes<F> {
    pub lanes: usize,
    pub local: Vec<Vec<F>>,
    pub next: Vec<Vec<F>>,
    pub values: Vec<F>,
}

impl<F: Field> NodeLanes<F> {
    ghost use Rattle.circle_quotient.specs.NodeLanes.{HasRoom};

    /// Room for blocks of `lanes` rows. Fails where memory is refused.
    pub fn new(alloc: Global, air: &Air<F>, lanes: usize) -> Result<Self, AllocError>
        ensures lanes { IfOk result (λ made. made.lanes ≡ lanes) }
        ensures room { IfOk result (HasRoom (air_of air.now)) }
    {
        let local = zero_lists(alloc, air.width(), lanes)?;
        let next = zero_lists(alloc, air.width(), lanes)?;
        let count = entry_count(air.nodes().len(), lanes)?;
        let values = vec![in alloc; F::ZERO; count]?;
        Ok(NodeLanes {
            lanes,
            local,
            next,
            values,
        })
    }

    /// Writes the values of the nodes at the places from `start` on, one for each lane.
    pub fn write<M: Matrix<F>>(
        &mut self,
        air: &Air<F>,
        trace: &ExtendedTrace<F, M>,
        periodic: &[Vec<F>],
        start: usize,
    )
        requires room { HasRoom (air_of air.now) self.old }
        requires width { M.width trace.now.rows.now ≡ (air_of air.now).width }
        requires public { length trace.now.public_values.now ≡ (air_of air.now).num_public_values }
        requires periodic { length periodic.now ≡ length (air_of air.now).periodic_columns }
        requires periods { All (λ column. 0 < length column) (columns_of periodic.now) }
        requires small { trace.now.log_n + trace.now.log_num_chunks ≤ 62 }
        requires start { start < M.height trace.now.rows.now }
        ensures lanes { self.new.lanes ≡ self.old.lanes }
        ensures room { HasRoom (air_of air.now) self.new }
        ensures values { (r : ℕ) → r < self.old.lanes →
            lane F.ops self.old.lanes r self.new.values.items ≡ values F.ops (λ (x : F). x)
            (air_of air.now).nodes (window_of_place F.ops (M.rows trace.now.rows.now)
            (2 ^ trace.now.log_num_chunks) (columns_of periodic.now) trace.now.public_values.now
            (start + r)) }
    {
        let next_start = (start + (1 << trace.log_num_chunks)) % trace.rows.height();
        write_rows(&mut self.local, self.lanes, trace.rows, start);
        write_rows(&mut self.next, self.lanes, trace.rows, next_start);
        let windows = LaneWindows {
            local: &self.local,
            next: &self.next,
            periodic,
            public_values: trace.public_values,
            start,
        };
        write_values(
            air.nodes(),
            &windows,
            self.lanes,
            self.values.as_mut_slice(),
        );
    }
}
