//! Dumps of bytes, in lines of 16.
mod line;

ghost use Rattle.std.specs.Prelude.{◌≡◌, ◌+◌, ◌-◌, ◌^◌, ◌<◌, ◌≤◌, [], if◌then◌else◌, min, codes, OnOk, OnErr, IfErr};
ghost use Rattle.std.specs.Io.KnownBytes.{Appends};
ghost use Rattle.bit_space.specs.SpaceView.{HasRisen, Keeps};
ghost use Rattle.text_output.specs.Written.{AppendsPart};
ghost use Rattle.run_parts.specs.DumpText.{Dumps, DumpsPart, dump_text, range_text, row_text, ruler_text};
ghost use Rattle.run_parts.specs.declared.dump.DumpFault.TheVariants.{Device, Write as WriteFailed};

use bit_space::{DeviceFault, Space};
use line::{LINE_ROOM, lay_out};
use std::io::Write;
use text_output::write::{WriteFault, put};
use thiserror::Error;

/// Why a dump ended early. It displays the line that reports it.
#[derive(Clone, Copy, Debug, PartialEq, Eq, Error)]
#[error("fault {}", self.name())]
pub enum DumpFault {
    /// A read of the space failed.
    Device,
    /// The writer returned an error, or accepted no byte.
    Write,
}

impl DumpFault {
    /// Its name in the printed line: that of its variant.
    pub fn name(self) -> &'static str
        ensures device { self ≡ DumpFault.Device → result.now ≡ codes "Device" }
        ensures write { self ≡ DumpFault.Write → result.now ≡ codes "Write" }
    {
        match self {
            DumpFault::Device => "Device",
            DumpFault::Write => WriteFault.name(),
        }
    }
}

impl From<DeviceFault> for DumpFault {
    ghost from_gives = { λ _ fault. fault ≡ Device };

    fn from(_fault: DeviceFault) -> DumpFault {
        DumpFault::Device
    }
}

impl From<WriteFault> for DumpFault {
    ghost from_gives = { λ _ fault. fault ≡ WriteFailed };

    fn from(_fault: WriteFault) -> DumpFault {
        DumpFault::Write
    }
}

/// Writes the bytes of a space from byte `from` on, at most `size` of them, as lines of 16; before them a ruler, if
/// `ruler` is set.
///
/// The range is cut at the end of the space. The bytes of each line are read at once, before the line is written. What
/// the writer accepted before a fault is a prefix of the text. The text is that of the GNU poke command `dump`, by this
/// project's profile.
pub fn dump<S: Space, W: Write>(
    space: &mut S,
    from: u64,
    size: u64,
    ruler: bool,
    w: &mut W,
) -> Result<(), DumpFault>
    ensures ok { OnOk result
        (Dumps (S.view space.old) (W.contents w.old) (W.contents w.new) (λ bytes. dump_text bytes from size ruler)) }
    ensures err { OnErr result (DumpsPart (S.view space.old) (W.contents w.old) (W.contents w.new)
        (λ bytes. dump_text bytes from size ruler)) }
    ensures device { IfErr result
        (λ fault. fault ≡ DumpFault.Device → HasRisen (S.view space.old).failures (S.view space.new).failures) }
    ensures keeps { Keeps (S.view space.old) (S.view space.new) }
{
    put_ruler(ruler, w)?;
    put_lines(space, from, size, w)?;
    Ok(())
}

#[tactic(auto, unfolding(crate::specs::DumpText::ruler_text))]
fn put_ruler<W: Write>(ruler: bool, w: &mut W) -> Result<(), WriteFault>
    ensures ok { OnOk result (Appends (W.contents w.old) (W.contents w.new) (if ruler then ruler_text else [])) }
    ensures err { OnErr result (AppendsPart (W.contents w.old) (W.contents w.new) (if ruler then ruler_text else [])) }
{
    if ruler {
        put(
            w,
            b"76543210  0011 2233 4455 6677 8899 aabb ccdd eeff  0123456789ABCDEF\n",
        )
    } else {
        Ok(())
    }
}

fn put_lines<S: Space, W: Write>(
    space: &mut S,
    from: u64,
    size: u64,
    w: &mut W,
) -> Result<(), DumpFault>
    ensures ok { OnOk result (Dumps (S.view space.old) (W.contents w.old) (W.contents w.new) (range_text from size)) }
    ensures err { OnErr result
        (DumpsPart (S.view space.old) (W.contents w.old) (W.contents w.new) (range_text from size)) }
    ensures device { IfErr result
        (λ fault. fault ≡ DumpFault.Device → HasRisen (S.view space.old).failures (S.view space.new).failures) }
    ensures keeps { Keeps (S.view space.old) (S.view space.new) }
{
    let end = from.saturating_add(size).min(space.len());
    let lines = end.saturating_sub(from).div_ceil(16);
    for i in 0..lines {
        let at = from + 16 * i;
        let count = (end - at).min(16) as usize;
        put_line(space, at, count, w)?;
    }
    Ok(())
}

fn put_line<S: Space, W: Write>(
    space: &mut S,
    at: u64,
    count: usize,
    w: &mut W,
) -> Result<(), DumpFault>
    requires few { count ≤ 16 }
    requires within { at + count ≤ (S.view space.old).len }
    ensures ok { OnOk result (Dumps (S.view space.old) (W.contents w.old) (W.contents w.new) (row_text at count)) }
    ensures err { OnErr result
        (DumpsPart (S.view space.old) (W.contents w.old) (W.contents w.new) (row_text at count)) }
    ensures device { IfErr result
        (λ fault. fault ≡ DumpFault.Device → HasRisen (S.view space.old).failures (S.view space.new).failures) }
    ensures keeps { Keeps (S.view space.old) (S.view space.new) }
{
    let mut window = [0u8; 16];
    let bytes = &mut window[..count];
    space.read_at(at, bytes)?;
    let mut line = [0u8; LINE_ROOM];
    let len = lay_out(at, bytes, &mut line);
    put(w, &line[..len])?;
    Ok(())
}
