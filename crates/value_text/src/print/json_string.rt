//! Prints a string in JSON alone.
ghost use Rattle.std.specs.Prelude.{OnOk, OnErr};
ghost use Rattle.std.specs.Io.KnownBytes.{Appends};
ghost use Rattle.text_output.specs.Written.{AppendsPart};
ghost use Rattle.value_text.specs.JsonText.{json_string};

use super::escape::Escapes;
use super::line::Line;
use super::printer::Printer;
use std::io::Write;
use text_output::write::WriteFault;

/// Prints bytes as a JSON string, without a line feed. Bytes from 0x20 to 0x7e are themselves but for `"` and `\`, and any
/// other byte is the escape of the character of its number. If the writer fails, what it accepted is the first bytes of
/// the string, but not all of them.
pub fn print_json_string<W: Write>(bytes: &[u8], w: &mut W) -> Result<(), WriteFault>
    ensures ok { OnOk result (Appends (W.contents w.old) (W.contents w.new) (json_string bytes.now)) }
    ensures err { OnErr result (AppendsPart (W.contents w.old) (W.contents w.new) (json_string bytes.now)) }
{
    let mut printer = Printer {
        writer: w,
        line: Line::new(),
        failed: false,
    };
    printer.put_quoted(Escapes::Json, bytes);
    printer.finish()
}
