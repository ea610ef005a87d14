//! Indices in ascending order, with their places.
ghost use Rattle.std.specs.Prelude.{◌<◌, IfOk};
ghost use Rattle.circle_merkle.specs.Order.{IsOrdered, LeavesFirsts};

use std::alloc::{AllocError, Global};

/// The indices with their places in the list, in ascending order, equal ones in the list's order.
///
/// Fails where memory is refused.
pub fn in_order(alloc: Global, indices: &[usize]) -> Result<Vec<(usize, usize)>, AllocError>
    ensures { IfOk result (λ order. IsOrdered indices.now order.items) }
{
    let mut order = Vec::with_capacity(alloc, indices.len())?;
    for (place, index) in indices.iter().enumerate() {
        order.push((*index, place))?;
    }
    order.sort_unstable();
    Ok(order)
}

/// Of indices in ascending order with their places, leaves the first of equal ones.
pub fn leave_firsts(order: &mut Vec<(usize, usize)>)
    ensures { LeavesFirsts order.old.items order.new.items }
{
    order.dedup_by_key(|entry| entry.0);
}
