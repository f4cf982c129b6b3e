//! Writes a text that was gathered first.

ghost use Rattle.std.specs.Prelude.{OnOk, OnErr};
ghost use Rattle.std.specs.Io.KnownBytes.{Appends};
ghost use Rattle.run_parts.specs.Told.{AppendsUpTo};

use poke_batch::write::{WriteFault, put};
use std::io::Write;

/// Writes a text that was gathered and, with `flush`, what waits to be written. If the writer fails, it accepted the
/// first bytes of the text, or all.
pub fn put_whole<O: Write>(out: &mut O, text: &[u8], flush: bool) -> Result<(), WriteFault>
    ensures ok { OnOk result (Appends (O.contents out.old) (O.contents out.new) text.now) }
    ensures err { OnErr result (AppendsUpTo (O.contents out.old) (O.contents out.new) text.now) }
{
    put(out, text)?;
    if !flush {
        return Ok(());
    }
    match out.flush() {
        Ok(()) => Ok(()),
        Err(_) => Err(WriteFault),
    }
}
