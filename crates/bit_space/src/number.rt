//! Numbers of 1 to 64 bits at any bit of a space.

ghost use Rattle.std.specs.Prelude.{◌≡◌, ℕ, ◌+◌, ◌-◌, ◌*◌, ◌^◌, ◌<◌, ◌≤◌, length, slice_range, IfOk, IfErr, OnOk, OnErr, ◌/◌, ◌%◌};
ghost use Rattle.bit_space.specs.Bits.{binary, bits_of, number, numeral};
ghost use Rattle.bit_space.specs.SpaceView.{known_bits, Keeps, HasRisen};
ghost use Rattle.bit_space.specs.Reading.{MayRead, RefusesReading, UnlessDevice};
ghost use Rattle.bit_space.specs.declared.order.Order.{Order};
ghost use Rattle.bit_space.specs.declared.number.BitFault.TheVariants.{Device, Limit};

use crate::meter::{LimitPassed, Meter};
use crate::order::Order;
use crate::space::{DeviceFault, Space};
use thiserror::Error;

/// Why a number was not read. It displays its name.
#[derive(Clone, Copy, Debug, PartialEq, Eq, Error)]
pub enum BitFault {
    /// The bits are not all inside the space.
    #[error("End")]
    End,
    /// The space failed.
    #[error("Device")]
    Device,
    /// No step was left.
    #[error("Limit")]
    Limit,
}

impl From<DeviceFault> for BitFault {
    ghost from_gives = { λ _ fault. fault ≡ Device };

    fn from(_fault: DeviceFault) -> BitFault {
        BitFault::Device
    }
}

impl From<LimitPassed> for BitFault {
    ghost from_gives = { λ _ fault. fault ≡ Limit };

    fn from(_fault: LimitPassed) -> BitFault {
        BitFault::Limit
    }
}

/// The most bytes over which 64 bits can extend.
const WINDOW: usize = 9;

/// Reads the unsigned number of the `width` bits from bit `pos` on, 1 to 64 of them.
///
/// The call takes one step first. It returns `Limit` exactly where no step is left, and then `End`
/// exactly where the bits are not all inside the space. Otherwise it reads their bytes by one call
/// of `read_at`, and returns `Device` only where the space's count of failures rose.
#[inline]
pub fn read_number<S: Space>(
    space: &mut S,
    pos: u64,
    width: u8,
    order: Order,
    meter: &mut Meter,
) -> Result<u64, BitFault>
    requires some { 0 < width }
    requires most { width ≤ 64 }
    ensures keeps { Keeps (S.view space.old) (S.view space.new) }
    ensures limit { meter.new.limit ≡ meter.old.limit }
    ensures made { meter.new.made ≡ meter.old.made }
    ensures steps { OnOk result ((meter.old.steps < meter.old.limit) × (meter.new.steps ≡ meter.old.steps + 1)) }
    ensures inside { OnOk result (pos + width ≤ 8 * (S.view space.old).len) }
    ensures ok { IfOk result (λ n. MayRead (known_bits (S.view space.old)) order pos width n) }
    ensures err { IfErr result
        (RefusesReading (pos + width) (S.view space.old) (S.view space.new) meter.old meter.new) }
    ensures untouched { IfErr result (λ fault. UnlessDevice fault (space.new ≡ space.old)) }
{
    meter.tick()?;
    let bits = space.len() * 8;
    if pos > bits || u64::from(width) > bits - pos {
        return Err(BitFault::End);
    }
    if pos % 8 == 0 && width == 8 {
        return Ok(read_byte(space, pos)?);
    }
    Ok(read_bits(space, pos, width, order)?)
}

// Reads the number of the 8 bits of one byte, which is that byte in either byte order.
#[inline(always)]
fn read_byte<S: Space>(space: &mut S, pos: u64) -> Result<u64, DeviceFault>
    requires whole { pos % 8 ≡ 0 }
    requires inside { pos / 8 < (S.view space.old).len }
    ensures keeps { Keeps (S.view space.old) (S.view space.new) }
    ensures ok { IfOk result (λ n. (order : Order) → MayRead (known_bits (S.view space.old)) order pos 8 n) }
    ensures failed { OnErr result (HasRisen (S.view space.old).failures (S.view space.new).failures) }
{
    let mut byte = [0u8; 1];
    space.read_at(pos / 8, &mut byte)?;
    Ok(u64::from(byte[0]))
}

// Reads the number of bits that are inside the space. For whole bytes the size of the window is known at compile time.
#[inline(never)]
fn read_bits<S: Space>(space: &mut S, pos: u64, width: u8, order: Order) -> Result<u64, DeviceFault>
    requires some { 0 < width }
    requires most { width ≤ 64 }
    requires inside { pos + width ≤ 8 * (S.view space.old).len }
    ensures keeps { Keeps (S.view space.old) (S.view space.new) }
    ensures ok { IfOk result (λ n. MayRead (known_bits (S.view space.old)) order pos width n) }
    ensures failed { OnErr result (HasRisen (S.view space.old).failures (S.view space.new).failures) }
{
    let lead = pos % 8;
    if lead == 0 && width == 16 {
        return read_window(space, pos, width, order, &mut [0u8; 2]);
    }
    if lead == 0 && width == 32 {
        return read_window(space, pos, width, order, &mut [0u8; 4]);
    }
    if lead == 0 && width == 64 {
        return read_window(space, pos, width, order, &mut [0u8; 8]);
    }
    let count = (lead as usize + width as usize + 7) / 8;
    let mut bytes = [0u8; WINDOW];
    read_window(space, pos, width, order, &mut bytes[..count])
}

// Reads the number of bits in the bytes of a window, which are read by one call.
#[inline(always)]
fn read_window<S: Space>(
    space: &mut S,
    pos: u64,
    width: u8,
    order: Order,
    window: &mut [u8],
) -> Result<u64, DeviceFault>
    requires some { 0 < width }
    requires most { width ≤ 64 }
    requires window { (length window.old ≤ 9) × (pos % 8 + width ≤ 8 * length window.old) }
    requires inside { pos / 8 + length window.old ≤ (S.view space.old).len }
    ensures keeps { Keeps (S.view space.old) (S.view space.new) }
    ensures ok { IfOk result (λ n. MayRead (known_bits (S.view space.old)) order pos width n) }
    ensures failed { OnErr result (HasRisen (S.view space.old).failures (S.view space.new).failures) }
{
    space.read_at(pos / 8, window)?;
    let cut = cut_out(window, (pos % 8) as usize, width as usize);
    Ok(in_order(cut, width, order))
}

// The numeral of the bits of a window, of at most eight bytes.
#[inline]
fn join(window: &[u8]) -> u64
    requires { length window.now ≤ 8 }
    ensures { result ≡ numeral (bits_of window.now) }
{
    let mut all: u64 = 0;
    for byte in window {
        all = all * 256 + u64::from(*byte);
    }
    all
}

// The numeral of the bits of a window of nine bytes.
fn join_wide(window: &[u8]) -> u128
    requires { length window.now ≡ 9 }
    ensures { result ≡ numeral (bits_of window.now) }
{
    u128::from(join(&window[..8])) * 256 + u128::from(window[8])
}

// The numeral of `width` bits of a window, from bit `lead` on.
#[inline]
fn cut_out(window: &[u8], lead: usize, width: usize) -> u64
    requires window { length window.now ≤ 9 }
    requires some { 0 < width }
    requires width { width ≤ 64 }
    requires inside { lead + width ≤ 8 * length window.now }
    ensures { result ≡ numeral (slice_range (bits_of window.now) lead (lead + width)) }
{
    if window.len() == WINDOW {
        return cut_out_wide(window, lead, width);
    }
    let behind = (8 * window.len() - lead - width) as u32;
    let mask = (1u128 << (width as u32)) - 1;
    (join(window) >> behind) & (mask as u64)
}

// The same as `cut_out` for a window of nine bytes, which is rarely needed.
#[inline(never)]
fn cut_out_wide(window: &[u8], lead: usize, width: usize) -> u64
    requires window { length window.now ≡ 9 }
    requires width { width ≤ 64 }
    requires inside { lead + width ≤ 8 * length window.now }
    ensures { result ≡ numeral (slice_range (bits_of window.now) lead (lead + width)) }
{
    let behind = (8 * window.len() - lead - width) as u32;
    let mask = (1u128 << (width as u32)) - 1;
    ((join_wide(window) >> behind) & mask) as u64
}

// The number, in a byte order, of the bits whose numeral is `cut`.
fn in_order(cut: u64, width: u8, order: Order) -> u64
    requires some { 0 < width }
    requires most { width ≤ 64 }
    requires fits { cut < 2 ^ width }
    ensures { result ≡ number order (binary width cut) }
{
    match order {
        Order::Big => cut,
        Order::Little => turn(cut, width),
    }
}

// The little-endian number of the bits whose numeral is `cut`. The last group is the most
// significant, and the groups before it follow, the nearest first.
fn turn(cut: u64, width: u8) -> u64
    requires some { 0 < width }
    requires most { width ≤ 64 }
    requires fits { cut < 2 ^ width }
    ensures { result ≡ number Order.Little (binary width cut) }
{
    let groups = (width - 1) / 8;
    let last = (width - groups * 8) as u32;
    let mut rest = cut >> last;
    let mut turned = cut & ((1 << last) - 1);
    for _ in 0..groups {
        turned = turned * 256 + rest % 256;
        rest /= 256;
    }
    turned
}
