//! Maps strings.

ghost use Rattle.std.specs.Prelude.{◌≡◌, ◌+◌, ◌*◌, ◌<◌, ◌≤◌, [], IfOk, IfErr, OnOk};
ghost use Rattle.bit_space.specs.SpaceView.{known_bits, Keeps};
ghost use Rattle.bit_space.specs.Reading.{MayRead};
ghost use Rattle.bit_space.specs.declared.order.Order.TheVariants.{Big};
ghost use Rattle.pickle_map.specs.AtWork.{Frame, AddsToLevel, LeavesLevel, Maps, Closes};
ghost use Rattle.pickle_map.specs.Calls.{as_text, as_text_level};
ghost use Rattle.pickle_map.specs.Framed.{IsEnd, RefusesReading};
ghost use Rattle.pickle_meaning.specs.Values.{outer_of};
ghost use Rattle.value_store.specs.Slots.{levels, IsWriting, level_count};

use crate::mapper::level::leave_level;
use crate::mapper::read::refusal_at;
use crate::mapper::state::Mapper;
use crate::mapper::stop::Stop;
use crate::mapper::watch::{Unwatched, Watch};
use bit_space::{BitFault, Meter, Order, Space, read_number};

impl<W: Watch> Mapper<'_, W> {
    /// Maps a string from the bit `start` on. Returns the bit after its final 0.
    pub(crate) fn map_text<S: Space>(&mut self, start: u64, space: &mut S) -> Result<u64, Stop>
        requires inside { start ≤ 8 * (S.view space.old).len }
        requires open { level_count self.old.store.now ≤ 64 }
        ensures frame { Frame (S.view space.old) (S.view space.new) self.old self.new 0 result }
        ensures ends { IfOk result (IsEnd start (S.view space.old)) }
        ensures is { Maps (S.view space.old) self.old self.new (as_text start) result }
        ensures level { AddsToLevel self.old self.new result }
    {
        self.meter.tick()?;
        self.store.open_text();
        let mapped = self.text_body(start, space);
        leave_level(&mapped, self.store, &mut Unwatched);
        mapped
    }

    /// Reads the bytes of a string into its frame, and closes it. It is a separate function, so that its loop has the
    /// meter and the store in registers.
    #[inline(never)]
    fn text_body<S: Space>(&mut self, start: u64, space: &mut S) -> Result<u64, Stop>
        requires inside { start ≤ 8 * (S.view space.old).len }
        requires writing { IsWriting self.old.nodes.now self.old.store.now [] start
            (outer_of (levels self.old.nodes.now self.old.store.now)) }
        requires open { 1 < level_count self.old.store.now }
        requires free { self.old.meter.now.made < self.old.meter.now.steps }
        ensures frame { Frame (S.view space.old) (S.view space.new) self.old self.new 0 result }
        ensures ends { IfOk result (IsEnd start (S.view space.old)) }
        ensures is { Closes (S.view space.old) self.old self.new (as_text_level start) result }
        ensures level { LeavesLevel self.old self.new result }
    {
        let meter = &mut *self.meter;
        let store = &mut *self.store;
        let mut place = start;
        loop {
            match read_byte(space, place, meter) {
                Ok(byte) => {
                    let first = place == start;
                    place += 8;
                    if byte == 0 {
                        store.close_text(start)?;
                        meter.note_made();
                        return Ok(place);
                    }
                    store.push_byte(byte, first, start)?;
                    meter.note_made();
                }
                Err(fault) => return Err(refusal_at(fault, start)),
            }
        }
    }
}

/// Reads a byte of a string.
#[inline(always)]
fn read_byte<S: Space>(space: &mut S, place: u64, meter: &mut Meter) -> Result<u8, BitFault>
    ensures keeps { Keeps (S.view space.old) (S.view space.new) }
    ensures limit { meter.new.limit ≡ meter.old.limit }
    ensures made { meter.new.made ≡ meter.old.made }
    ensures steps { OnOk result (meter.new.steps ≡ meter.old.steps + 1) }
    ensures rise { meter.old.steps ≤ meter.new.steps }
    ensures inside { OnOk result (place + 8 ≤ 8 * (S.view space.old).len) }
    ensures ok { IfOk result (λ n. MayRead (known_bits (S.view space.old)) Big place 8 n) }
    ensures err { IfErr result (RefusesReading (place + 8) (S.view space.old) (S.view space.new) meter.old meter.new) }
{
    Ok(read_number(space, place, 8, Order::Big, meter)? as u8)
}
