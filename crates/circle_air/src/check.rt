//! Constraints checked on the rows of a trace.
ghost use Rattle.std.specs.Prelude.{◌≡◌, ◌+◌, ◌*◌, ◌<◌, IfOk, MatchOption};
ghost use Rattle.std.specs.Prelude.{length, min};
ghost use Rattle.circle_air.specs.Air.{air_of};
ghost use Rattle.circle_air.specs.Satisfies.{HoldsAt, IsFirstViolation, IsFoundIn, Satisfies};

use crate::air::Air;
use crate::block::BlockPlace;
use crate::evaluate::write_values;
use crate::trace::{LANES, TraceWindows};
use circle_commit::{Matrix, entry_count};
use circle_field::Field;
use std::alloc::{AllocError, Global};

/// A constraint that doesn't hold at a row.
#[derive(Clone, Copy, PartialEq, Eq, Debug)]
pub struct Violation {
    /// The row.
    pub row: usize,
    /// The constraint's position in the AIR's list.
    pub constraint: usize,
}

/// Checks the constraints on the rows of a trace: `None` where each holds at each row of its place,
/// and otherwise the first row at which one doesn't, and the first such constraint there.
///
/// Requires rows of the AIR's width, and as many public values as it has. Fails where memory is
/// refused.
pub fn check_constraints<F: Field, M: Matrix<F>>(
    alloc: Global,
    air: &Air<F>,
    rows: &M,
    public_values: &[F],
) -> Result<Option<Violation>, AllocError>
    requires width { M.width rows.now ≡ (air_of air.now).width }
    requires public { length public_values.now ≡ (air_of air.now).num_public_values }
    ensures { IfOk result (λ found. let p = air_of air.now in MatchOption found
        (Satisfies F.ops p (M.rows rows.now) public_values.now)
        (IsFirstViolation F.ops p (M.rows rows.now) public_values.now)) }
{
    let mut values = vec![in alloc; F::ZERO; entry_count(air.nodes().len(), LANES)?]?;
    let values = values.as_mut_slice();
    let height = rows.height();
    for block in 0..height.div_ceil(LANES) {
        let windows = TraceWindows {
            air,
            rows,
            public_values,
            start: block * LANES,
        };
        match check_block(&windows, values) {
            Some(violation) => return Ok(Some(violation)),
            None => {}
        }
    }
    Ok(None)
}

// Checks the constraints on the rows of a block. Writes the values of the nodes on the way.
fn check_block<F: Field, M: Matrix<F>>(
    windows: &TraceWindows<F, M>,
    values: &mut [F],
) -> Option<Violation>
    requires width { M.width windows.now.rows.now ≡ (air_of windows.now.air.now).width }
    requires public { length windows.now.public_values.now
        ≡ (air_of windows.now.air.now).num_public_values }
    requires room { length values.old ≡ length (air_of windows.now.air.now).nodes * LANES }
    ensures found { let w = windows.now in let p = air_of w.air.now in
        IsFoundIn (HoldsAt F.ops p (M.rows w.rows.now) w.public_values.now) p.constraints
        w.start (min (length (M.rows w.rows.now)) (w.start + LANES)) result }
    ensures room { length values.new ≡ length (air_of windows.now.air.now).nodes * LANES }
{
    write_values(windows.air.nodes(), windows, LANES, values);
    let block = BlockPlace {
        start: windows.start,
        height: windows.rows.height(),
    };
    block.violation(windows.air.constraints(), values)
}
