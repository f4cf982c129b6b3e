//! Texts that are gathered before they are written. Their length is therefore known before the first byte is written.

ghost use Rattle.std.specs.Prelude.{◌≡◌, ◌<◌, ◌≤◌, Some, length, codes, IsOk, IfOk, IfErr, OnOk, OnErr};
ghost use Rattle.std.specs.Io.KnownBytes.{Appends};
ghost use Rattle.poke_batch.specs.Selected.{sighted, typed_text, typed_whole};
ghost use Rattle.poke_batch.specs.TypedLines.{lent_sight};
ghost use Rattle.poke_batch.specs.TypeRuns.{lent_bytes};
ghost use Rattle.text_output.specs.Written.{AppendsPart};

use crate::selected::print_selected;
use command_line::terms::Terms;
use std::alloc::Global;
use std::io;
use std::io::Write;
use text_output::mode::Mode;
use text_output::style::{Look, Style};
use text_output::write::WriteFault;
use thiserror::Error;
use value_text::print::show::{FileBytes, Sight};
use value_text::print::{print_shown, print_styled};
use value_text::typed::Typed;

/// Why a text isn't gathered. It displays as the name that its line prints.
#[derive(Clone, Copy, Debug, Drop, PartialEq, Eq, Error)]
#[error("{}", self.name())]
pub enum DraftFault {
    /// The text has more bytes than it may have.
    TooLong,
    /// An allocation failed.
    Memory,
}

impl DraftFault {
    /// The name that its line prints: `Output` or `Memory`.
    pub fn name(self) -> &'static str
        ensures too_long { self ≡ DraftFault.TooLong → result.now ≡ codes "Output" }
        ensures memory { self ≡ DraftFault.Memory → result.now ≡ codes "Memory" }
    {
        match self {
            DraftFault::TooLong => "Output",
            DraftFault::Memory => "Memory",
        }
    }
}

// The first bytes of a text. They grow up to `most` bytes and no further.
#[derive(Drop)]
struct Draft {
    bytes: Vec<u8>,
    most: u64,
}

impl Write for Draft {
    ghost contents = { λ draft. Some draft.bytes.items };

    fn write(&mut self, buf: &[u8]) -> io::Result<usize> {
        let left = self.most.saturating_sub(self.bytes.len() as u64);
        let count = left.min(buf.len() as u64) as usize;
        self.bytes.extend_from_slice(&buf[..count])?;
        Ok(count)
    }

    fn flush(&mut self) -> io::Result<()> {
        Ok(())
    }
}

/// The value as it is printed under terms, if its text has at most `most` bytes. No more bytes than that are stored.
///
/// `TooLong` means that the printed value has more bytes; `Memory` means that an allocation failed.
pub fn gather(
    alloc: Global,
    value: Typed<'_>,
    mode: Mode,
    terms: &Terms,
    file: Option<FileBytes<'_>>,
    most: u64,
) -> Result<Vec<u8>, DraftFault>
    ensures text { IfOk result (λ text. text.items ≡ typed_text terms.now (lent_bytes file.entry) mode value.entry) }
    ensures fits { IfOk result (λ text. length text.items ≤ most) }
    ensures err { IfErr result (λ fault. fault ≡ DraftFault.TooLong
        → most < length (typed_text terms.now (lent_bytes file.entry) mode value.entry)) }
{
    let mut draft = Draft {
        bytes: Vec::new(alloc),
        most,
    };
    let printed = print_under(value, mode, terms, file, &mut draft);
    judge(printed, draft.bytes, most)
}

/// Prints a value, or the parts of it that the terms select, in a mode and the style of the terms or, if they have a
/// look, shows it to the eye, beside bytes of its file, if they are known. If the writer fails, what it accepted is the
/// first bytes of the text, but not all of them.
pub fn print_under<W: Write>(
    value: Typed<'_>,
    mode: Mode,
    terms: &Terms,
    file: Option<FileBytes<'_>>,
    w: &mut W,
) -> Result<(), WriteFault>
    ensures ok { OnOk result (Appends (W.contents w.old) (W.contents w.new)
        (typed_text terms.now (lent_bytes file.entry) mode value.entry)) }
    ensures err { OnErr result (AppendsPart (W.contents w.old) (W.contents w.new)
        (typed_text terms.now (lent_bytes file.entry) mode value.entry)) }
{
    let sight = sighted(file, terms.look);
    match &terms.selection {
        None => print_whole(value, mode, terms.style, sight, w),
        Some(selection) => print_selected(value, selection, mode, terms.style, sight, w),
    }
}

// A look, if one is given, beside bytes of the file, if they are.
fn sighted<'a>(file: Option<FileBytes<'a>>, look: Option<Look>) -> Option<Sight<'a>>
    ensures { lent_sight result ≡ sighted (lent_bytes file.entry) look }
{
    match look {
        Some(look) => Some(Sight { look, file }),
        None => None,
    }
}

// Prints a value in a mode and a style or, with a look, for the eye.
fn print_whole<W: Write>(
    value: Typed<'_>,
    mode: Mode,
    style: Style,
    sight: Option<Sight<'_>>,
    w: &mut W,
) -> Result<(), WriteFault>
    ensures ok { OnOk result (Appends (W.contents w.old) (W.contents w.new)
        (typed_whole (lent_sight sight.entry) style mode value.entry)) }
    ensures err { OnErr result (AppendsPart (W.contents w.old) (W.contents w.new)
        (typed_whole (lent_sight sight.entry) style mode value.entry)) }
{
    match sight {
        None => print_styled(value, mode, style, w),
        Some(sight) => print_shown(value, sight, w),
    }
}

// Decides between the text and its fault, from the bytes that were stored.
fn judge(printed: Result<(), WriteFault>, bytes: Vec<u8>, most: u64) -> Result<Vec<u8>, DraftFault>
    ensures same { IfOk result (λ text. text ≡ bytes) }
    ensures done { IfOk result (λ text. IsOk printed) }
    ensures fits { IfOk result (λ text. length text.items ≤ most) }
    ensures all { IfErr result (λ fault. fault ≡ DraftFault.TooLong → OnOk printed (most < length bytes.items)) }
    ensures part { IfErr result (λ fault. fault ≡ DraftFault.TooLong → OnErr printed (most ≤ length bytes.items)) }
{
    let len = bytes.len() as u64;
    match printed {
        Ok(()) if len <= most => Ok(bytes),
        Err(WriteFault) if len < most => Err(DraftFault::Memory),
        _ => Err(DraftFault::TooLong),
    }
}
