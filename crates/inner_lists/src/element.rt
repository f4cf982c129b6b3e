//! Maps types beside the frames of a store.

ghost use Rattle.std.specs.Prelude.{◌≡◌, IfOk};
ghost use Rattle.pickle_map.specs.Framed.{IsEnd};
ghost use Rattle.pickle_meaning.specs.Values.{opened, outer_of};
ghost use Rattle.value_store.specs.Slots.{level_count};
ghost use Rattle.inner_lists.specs.Calls.{Frame, MapsBeside, MayMap, frames_of};

use crate::place::ListPlace;
use bit_space::{Order, Space};
use pickle_map::mapper::state::Mapper;
use pickle_map::mapper::stop::Stop;
use pickle_map::mapper::watch::Watch;

/// Maps the type at a place of the table into the innermost frame. Returns the bit after it.
pub fn map_type<S: Space, W: Watch>(
    mapper: &mut Mapper<'_, W>,
    node: usize,
    order: Order,
    start: u128,
    space: &mut S,
) -> Result<u64, Stop>
    requires node { MayMap mapper.old node }
    ensures frame { Frame (S.view space.old) (S.view space.new) mapper.old mapper.new }
    ensures depth { level_count mapper.new.store.now ≡ level_count mapper.old.store.now }
    ensures ends { IfOk result (IsEnd start (S.view space.old)) }
    ensures is { MapsBeside (S.view space.old) (S.view space.new) mapper.old mapper.new (frames_of mapper.old)
        node order start result }
{
    mapper.map_type(node, order, start, space)
}

/// Maps an element of a list, from the bit `start` on, into the list's frame, which is emptied first. Returns the bit
/// after it.
pub fn map_element<S: Space, W: Watch>(
    mapper: &mut Mapper<'_, W>,
    list: ListPlace,
    start: u64,
    space: &mut S,
) -> Result<u64, Stop>
    requires node { MayMap mapper.old list.element }
    ensures frame { Frame (S.view space.old) (S.view space.new) mapper.old mapper.new }
    ensures depth { level_count mapper.new.store.now ≡ level_count mapper.old.store.now }
    ensures ends { IfOk result (IsEnd start (S.view space.old)) }
    ensures is { MapsBeside (S.view space.old) (S.view space.new) mapper.old mapper.new
        (opened (outer_of (frames_of mapper.old))) list.element list.order start result }
{
    mapper.store.clear_level();
    map_type(mapper, list.element, list.order, u128::from(start), space)
}
