//! The positions of a tree that are known where some of the lowest level's are.
ghost use Rattle.std.specs.Prelude.{◌≡◌, ℕ, ◌+◌, ◌/◌, ◌<◌, ◌≤◌, ◌^◌, ◌++◌, ◌∷◌, All, IfOk, OnOk};
ghost use Rattle.std.specs.Prelude.{length, option_to_list};
ghost use Rattle.circle_merkle.specs.Tree.{known, sibling as sibling_of};
ghost use Rattle.circle_merkle.specs.Walk.{parents_of, siblings_of};

use std::alloc::{AllocError, Global};

/// The distinct indices in ascending order.
pub fn distinct(alloc: Global, indices: &[usize]) -> Result<Vec<usize>, AllocError>
    ensures { IfOk result (λ positions. (levels : ℕ) → All (λ i. i < 2 ^ levels) indices.now
        → positions.items ≡ known indices.now levels 0) }
{
    let mut positions = Vec::from_slice(alloc, indices)?;
    positions.sort_unstable();
    positions.dedup();
    Ok(positions)
}

/// The other position of a pair.
pub fn sibling(position: usize) -> usize
    ensures { result ≡ sibling_of position }
{
    position ^ 1
}

/// The sibling of a known position, if that isn't known too, and the known positions after both.
///
/// Takes the position and the known ones after it, all in ascending order.
pub fn split_pair(position: usize, others: &[usize]) -> (Option<usize>, &[usize])
    ensures shorter { length result.1.now ≤ length others.now }
    ensures parents { parents_of (position ∷ others.now) ≡ position / 2 ∷ parents_of result.1.now }
    ensures siblings { siblings_of (position ∷ others.now)
        ≡ option_to_list result.0 ++ siblings_of result.1.now }
{
    let sibling = sibling(position);
    match others.split_first() {
        Some((next, after)) if *next == sibling => (None, after),
        _ => (Some(sibling), others),
    }
}

/// Makes `parents` the positions one level up from the known positions of a level, which stand in
/// ascending order. Gives how many siblings of known ones aren't known.
///
/// Fails where memory is refused.
pub fn climb(known: &[usize], parents: &mut Vec<usize>) -> Result<usize, AllocError>
    ensures parents { OnOk result (parents.new.items ≡ parents_of known.now) }
    ensures missing { IfOk result (λ count. count ≡ length (siblings_of known.now)) }
{
    parents.clear();
    let mut count = 0;
    let mut rest = known;
    while let Some((position, others)) = rest.split_first() {
        let (missing, after) = split_pair(*position, others);
        parents.push(*position / 2)?;
        count += usize::from(missing.is_some());
        rest = after;
    }
    Ok(count)
}
