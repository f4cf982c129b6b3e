//! Appends to a vector that has the capacity.
ghost use Rattle.std.specs.Prelude.{◌≡◌, ◌+◌, ◌≤◌, ◌++◌, length, vec_len, vec_capacity};
ghost use Rattle.value_store.specs.declared.store.room.Growth.TheVariants.{Never};

use crate::store::room::{Growth, Room};

/// Up to this many items are appended one by one, which is faster than the call that appends many.
const FEW: usize = 8;

/// Appends items that the vector has the capacity for. The call that appends many promises only that a vector doesn't
/// shrink, so a store that never grows appends one by one.
#[inline(always)]
pub(super) fn append<T: Copy>(to: &mut Vec<T>, items: &[T], room: Room)
    requires { vec_len to.old + length items.now ≤ vec_capacity to.old }
    ensures items { to.new.items ≡ to.old.items ++ items.now }
    ensures capacity { vec_capacity to.old ≤ vec_capacity to.new }
    ensures fixed { room.growth ≡ Never → vec_capacity to.new ≡ vec_capacity to.old }
{
    if items.len() > FEW && !matches!(room.growth, Growth::Never) {
        append_many(to, items);
        return;
    }
    for item in items {
        to.push_reserved(*item);
    }
}

// Appends many items that the vector has the capacity for.
#[inline(never)]
fn append_many<T: Copy>(to: &mut Vec<T>, items: &[T])
    requires { vec_len to.old + length items.now ≤ vec_capacity to.old }
    ensures items { to.new.items ≡ to.old.items ++ items.now }
    ensures capacity { vec_capacity to.old ≤ vec_capacity to.new }
{
    let _appended = to.extend_from_slice(items);
}
