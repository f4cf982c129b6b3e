//! Leaves the frame that was opened for a value.

ghost use Rattle.std.specs.Prelude.{◌<◌, OnErr};
ghost use Rattle.pickle_map.specs.Framed.{DropsStopped};
ghost use Rattle.value_store.specs.Slots.{level_count, KeepsRoom};

use crate::mapper::stop::Stop;
use crate::mapper::watch::Watch;
use value_store::store::Store;

/// Leaves the frame that was opened for a value: the value has closed it, or the frame is rolled back where the value
/// stopped.
#[inline(always)]
pub(crate) fn leave_level<T, W: Watch>(mapped: &Result<T, Stop>, store: &mut Store, watch: &mut W)
    requires { OnErr mapped.now (1 < level_count store.old) }
    ensures left { DropsStopped store.old store.new mapped.now }
    ensures room { KeepsRoom store.old store.new }
{
    match mapped {
        Ok(_) => watch.close(),
        Err(stop) => {
            store.drop_level();
            watch.stop(*stop);
        }
    }
}
