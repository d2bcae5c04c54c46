ghost use Rattle.std.specs.Prelude.{◌≡◌, ◌++◌, ◌∷◌, ◌<◌, ◌≤◌, ◌-◌, [], None, OnOk, slice_get, vec_len, vec_capacity};

use std::alloc::AllocError;

/// For how many more items a list has room at the least, once it has grown.
const LEAST: usize = 16;

/// What stands at a position, from 1.
pub(crate) fn at_position<T: Copy>(items: &[T], position: u64) -> Option<T>
    ensures none { position ≡ 0 → result ≡ None }
    ensures at { 1 ≤ position → result ≡ slice_get items.now (position - 1) }
{
    let place = position.checked_sub(1)?;
    items.get(place as usize).copied()
}

/// Appends an item for which a place is reserved.
pub(crate) fn append<T: Copy>(items: &mut Vec<T>, item: &T)
    requires { vec_len items.old < vec_capacity items.old }
    ensures items { items.new.items ≡ items.old.items ++ item.now ∷ [] }
    ensures capacity { vec_capacity items.new ≡ vec_capacity items.old }
{
    items.push_reserved(*item);
}

/// Makes room for one more item and mostly for many: a list that is nearly full grows to eight times its items, so that it is
/// seldom copied. What nothing was written to yet costs no memory.
pub(crate) fn grow<T: Copy>(items: &mut Vec<T>) -> Result<(), AllocError>
    ensures items { items.new.items ≡ items.old.items }
    ensures room { OnOk result (vec_len items.new < vec_capacity items.new) }
{
    if items.capacity() - items.len() < LEAST {
        items.reserve(items.len().saturating_mul(7).max(LEAST))?;
    }
    Ok(())
}
