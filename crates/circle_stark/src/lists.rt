//! Lists of one item and of two.
ghost use Rattle.std.specs.Prelude.{◌≡◌, [], ◌∷◌, IfOk, vec_len};

use std::alloc::{AllocError, Global};

/// A list of one item.
pub(crate) fn single<T: Drop>(alloc: Global, item: T) -> Result<Vec<T>, AllocError>
    ensures { IfOk result (λ list. list.items ≡ item ∷ []) }
{
    let mut list = Vec::with_capacity(alloc, 1)?;
    list.push(item)?;
    Ok(list)
}

/// A list of two items.
pub(crate) fn pair<T: Drop>(alloc: Global, first: T, second: T) -> Result<Vec<T>, AllocError>
    ensures { IfOk result (λ both. both.items ≡ first ∷ second ∷ []) }
{
    let mut both = Vec::with_capacity(alloc, 2)?;
    both.push(first)?;
    both.push(second)?;
    Ok(both)
}

/// The item of a list of one.
pub(crate) fn only<T: Drop>(items: Vec<T>) -> T
    requires { vec_len items ≡ 1 }
    ensures { items.items ≡ result ∷ [] }
{
    let mut items = items;
    items.swap_remove(0)
}

/// The items of a list of two.
pub(crate) fn both<T: Drop>(items: Vec<T>) -> (T, T)
    requires { vec_len items ≡ 2 }
    ensures { items.items ≡ result.0 ∷ result.1 ∷ [] }
{
    let mut items = items;
    let second = items.swap_remove(1);
    (items.swap_remove(0), second)
}
