//! The one loop over a writer, and its fault.

ghost use Rattle.std.specs.Prelude.{◌≡◌, codes, OnOk, OnErr};
ghost use Rattle.std.specs.Io.KnownBytes.{Appends};
ghost use Rattle.text_output.specs.Written.{AppendsPart};

use std::io::Write;
use thiserror::Error;

/// A failing writer: it returned an error, or accepted no byte of a text that had bytes left. It displays as its line.
#[derive(Clone, Copy, Debug, Drop, PartialEq, Eq, Error)]
#[error("fault {}", self.name())]
pub struct WriteFault;

impl WriteFault {
    /// The name that its line prints: `Write`.
    pub fn name(self) -> &'static str
        ensures { result.now ≡ codes "Write" }
    {
        "Write"
    }
}

/// Writes all bytes of `text`. With a fault, the writer accepted some of the first bytes, but not all. A byte that the
/// writer accepted is never offered again, and an error isn't tried again.
// Not inlined: a caller would clear the large result of a write at each entry.
#[inline(never)]
pub fn put<W: Write>(w: &mut W, text: &[u8]) -> Result<(), WriteFault>
    ensures ok { OnOk result (Appends (W.contents w.old) (W.contents w.new) text.now) }
    ensures err { OnErr result (AppendsPart (W.contents w.old) (W.contents w.new) text.now) }
{
    let mut done = 0;
    while done < text.len() {
        match w.write(&text[done..]) {
            Ok(0) => return Err(WriteFault),
            Ok(n) => done += n,
            Err(_) => return Err(WriteFault),
        }
    }
    Ok(())
}
