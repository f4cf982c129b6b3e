//! The line of one file among many.

ghost use Rattle.std.specs.Prelude.{◌≡◌, ◌<◌, ◌≤◌, ◌++◌, take, length, IfOk, OnErr, OnOk};
ghost use Rattle.std.specs.Io.KnownBytes.{Appends};
ghost use Rattle.text_output.specs.Written.{AppendsPart};
ghost use Rattle.poke_batch.specs.FileLine.{after_name, name_byte, shown_name, status_text, file_line, written_of};

use crate::report::put_outcome;
use command_line::fault_form::FaultForm;
use run_parts::outcome::Outcome;
use run_parts::status::Status;
use std::io::Write;
use text_output::hex::hex_digit;
use text_output::write::{WriteFault, put};

/// Writes the line of a file: its name, the exit status of its run, and what the run wrote, with a tab between them.
/// That is `text` for a run that is done, and otherwise what reports its outcome. In the name, `\` and bytes outside
/// 0x20 to 0x7e are escaped as in strings. `text` ends with a line feed.
#[tactic(auto, using(text_output::proofs::Parts::written))]
pub fn put_file_line<W: Write>(
    w: &mut W,
    name: &[u8],
    outcome: Outcome,
    faults: FaultForm,
    text: &[u8],
) -> Result<(), WriteFault>
    ensures ok { OnOk result (Appends (W.contents w.old) (W.contents w.new)
        (file_line faults name.now outcome text.now)) }
    ensures err { OnErr result (AppendsPart (W.contents w.old) (W.contents w.new)
        (file_line faults name.now outcome text.now)) }
{
    put_name(w, name)?;
    put_after_name(w, outcome, faults, text)?;
    Ok(())
}

/// Writes what the line of a file has after the name.
#[tactic(auto, using(text_output::proofs::Parts::written))]
pub fn put_after_name<W: Write>(
    w: &mut W,
    outcome: Outcome,
    faults: FaultForm,
    text: &[u8],
) -> Result<(), WriteFault>
    ensures ok { OnOk result (Appends (W.contents w.old) (W.contents w.new) (after_name faults outcome text.now)) }
    ensures err { OnErr result (AppendsPart (W.contents w.old) (W.contents w.new)
        (after_name faults outcome text.now)) }
{
    put(w, column(outcome.status()))?;
    put_written(w, outcome, faults, text)?;
    Ok(())
}

// What a run wrote: its text if it is done, else what reports its outcome.
fn put_written<W: Write>(
    w: &mut W,
    outcome: Outcome,
    faults: FaultForm,
    text: &[u8],
) -> Result<(), WriteFault>
    ensures ok { OnOk result (Appends (W.contents w.old) (W.contents w.new) (written_of faults outcome text.now)) }
    ensures err { OnErr result (AppendsPart (W.contents w.old) (W.contents w.new)
        (written_of faults outcome text.now)) }
{
    match outcome {
        Outcome::Done => put(w, text),
        _ => put_outcome(w, outcome, faults),
    }
}

fn column(status: Status) -> &'static [u8]
    ensures { result.now ≡ status_text status }
{
    match status {
        Status::Done => b"\t0\t",
        Status::Fault => b"\t1\t",
        Status::Refused => b"\t2\t",
        Status::Outside => b"\t3\t",
    }
}

/// Writes the name of a file, escaped as in its line.
pub fn put_name<W: Write>(w: &mut W, name: &[u8]) -> Result<(), WriteFault>
    ensures ok { OnOk result (Appends (W.contents w.old) (W.contents w.new) (shown_name name.now)) }
    ensures err { OnErr result (AppendsPart (W.contents w.old) (W.contents w.new) (shown_name name.now)) }
{
    let mut done = 0;
    while done < name.len() {
        put_byte(w, name[done])?;
        done += 1;
    }
    Ok(())
}

// A byte of a name, or its escape if it needs one.
fn put_byte<W: Write>(w: &mut W, byte: u8) -> Result<(), WriteFault>
    ensures ok { OnOk result (Appends (W.contents w.old) (W.contents w.new) (name_byte byte)) }
    ensures err { OnErr result (AppendsPart (W.contents w.old) (W.contents w.new) (name_byte byte)) }
{
    match byte {
        b'\\' => put(w, b"\\\\"),
        b'\n' => put(w, b"\\n"),
        b'\t' => put(w, b"\\t"),
        32..=126 => put(w, &[byte]),
        _ => put(
            w,
            &[b'\\', b'x', hex_digit(byte >> 4), hex_digit(byte & 15)],
        ),
    }
}
