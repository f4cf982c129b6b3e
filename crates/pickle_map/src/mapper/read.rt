//! Reads of a mapping.

ghost use Rattle.std.specs.Prelude.{◌≡◌, ℕ, ◌+◌, ◌*◌, ◌<◌, ◌≤◌, OnOk, IfOk, IfErr};
ghost use Rattle.bit_space.specs.SpaceView.{known_bits, Keeps};
ghost use Rattle.bit_space.specs.Reading.{MayRead};
ghost use Rattle.pickle_map.specs.Framed.{StopsReading, refusal_at};

use crate::mapper::stop::Stop;
use bit_space::{BitFault, Meter, Order, Space, read_number};
use pickle_meaning::faults::MapFaultKind;

/// Reads `width` bits from the bit `start` on, as an unsigned number.
#[tactic(auto, using(crate::proofs::Placing::refusal_stops))]
#[inline(always)]
pub fn read_digits<S: Space>(
    space: &mut S,
    start: u64,
    width: u8,
    order: Order,
    meter: &mut Meter,
) -> Result<u64, Stop>
    requires some { 0 < width }
    requires most { width ≤ 64 }
    ensures keeps { Keeps (S.view space.old) (S.view space.new) }
    ensures limit { meter.new.limit ≡ meter.old.limit }
    ensures made { meter.new.made ≡ meter.old.made }
    ensures steps { OnOk result (meter.new.steps ≡ meter.old.steps + 1) }
    ensures inside { OnOk result (start + width ≤ 8 * (S.view space.old).len) }
    ensures ok { IfOk result (λ n. MayRead (known_bits (S.view space.old)) order start width n) }
    ensures err { IfErr result
        (StopsReading start (start + width) (S.view space.old) (S.view space.new) meter.old meter.new) }
{
    match read_number(space, start, width, order, meter) {
        Ok(digits) => Ok(digits),
        Err(fault) => Err(refusal_at(fault, start)),
    }
}

/// The stop of a refused read. Its fault is at the bit `place`.
#[inline(always)]
pub fn refusal_at(fault: BitFault, place: u64) -> Stop
    ensures { result ≡ refusal_at fault place }
{
    match fault {
        BitFault::End => Stop::Fault(MapFaultKind::End, u128::from(place)),
        BitFault::Device => Stop::Device,
        BitFault::Limit => Stop::Limit,
    }
}
