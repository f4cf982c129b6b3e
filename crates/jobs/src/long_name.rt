//! A name of a list that is too long to be opened. Its line is written as the name is read, so it needs no memory.
ghost use Rattle.std.specs.Prelude.{◌≡◌, ◌++◌, [], false, IfOk, OnErr, OnOk};
ghost use Rattle.std.specs.Io.KnownBytes.{Appends};
ghost use Rattle.jobs.specs.Asides.{TellsEnded};
ghost use Rattle.jobs.specs.Every.{every_of};
ghost use Rattle.jobs.specs.Explained.{IsOpeningLine};
ghost use Rattle.jobs.specs.Reasons.{lines_of};
ghost use Rattle.jobs.specs.LongNames.{CopiesRest, CutsLong, CutsRest, WritesLong, before_name, end_of_name, name_part, rest_failure};
ghost use Rattle.text_output.specs.Written.{AppendsPart};

use crate::aside::Aside;
use crate::file_run::{FileForm, Task, finish_file, opening_line, tell_reasons};
use crate::names::next_byte;
use crate::why::Reasons;
use poke_batch::file_line::{put_after_name, put_name};
use poke_batch::file_object::{put_later_members, put_name_bytes};
use poke_batch::outcome::{Failure, Outcome};
use poke_batch::write::{WriteFault, put};
use std::io::{Read, Write};

/// How far the rest of a name was read.
#[derive(Clone, Copy, Debug, Drop, PartialEq, Eq)]
pub enum Rest {
    /// To its end.
    Ended,
    /// To where the list couldn't be read.
    Unread,
}

impl Rest {
    /// The failure in the line of the name.
    pub fn failure(self) -> Failure
        ensures { result ≡ rest_failure self }
    {
        match self {
            Rest::Ended => Failure::Open,
            Rest::Unread => Failure::Read,
        }
    }
}

/// Writes the line of a name whose first bytes were read of a list, and reads the rest. If the list can't be read, the
/// line has the bytes up to there.
pub fn run_long<L: Read, A: Aside, O: Write>(
    task: Task<'_>,
    list: &mut L,
    start: &[u8],
    aside: &mut A,
    out: &mut O,
) -> Result<Rest, WriteFault>
    ensures ok { IfOk result (WritesLong (every_of task.entry) start.now (L.remaining list.old) (L.remaining list.new)
        (O.contents out.old) (O.contents out.new)) }
    ensures err { OnErr result (CutsLong (every_of task.entry) start.now (L.remaining list.old)
        (O.contents out.old) (O.contents out.new)) }
    ensures told { TellsEnded (every_of task.entry) start.now (L.remaining list.old) (L.remaining list.new)
        (A.told aside.old) (A.told aside.new) }
{
    aside.show();
    put_start(task.form, start, out)?;
    let rest = put_rest(task.form, list, out)?;
    let lines = long_lines(task, rest);
    put_end(
        task.form,
        Outcome::Failed(rest.failure()),
        lines.lines(),
        out,
    )?;
    tell_reasons(task, start, lines.lines(), aside, out)?;
    finish_file(task, aside, out)?;
    Ok(rest)
}

// Writes the start of a line, up to these bytes of its name.
#[tactic(auto, using(text_output::proofs::Parts::written))]
fn put_start<O: Write>(form: FileForm, start: &[u8], out: &mut O) -> Result<(), WriteFault>
    ensures ok { OnOk result (Appends (O.contents out.old) (O.contents out.new)
        (before_name form ++ name_part form start.now)) }
    ensures err { OnErr result (AppendsPart (O.contents out.old) (O.contents out.new)
        (before_name form ++ name_part form start.now)) }
{
    put(out, before_name(form))?;
    put_part(form, start, out)?;
    Ok(())
}

// What a line has before the name of its file.
fn before_name(form: FileForm) -> &'static [u8]
    ensures { result.now ≡ before_name form }
{
    match form {
        FileForm::Line(_) => b"",
        FileForm::Object => b"{\"name\":\"",
    }
}

// Writes bytes of a name.
fn put_part<O: Write>(form: FileForm, bytes: &[u8], out: &mut O) -> Result<(), WriteFault>
    ensures ok { OnOk result (Appends (O.contents out.old) (O.contents out.new) (name_part form bytes.now)) }
    ensures err { OnErr result (AppendsPart (O.contents out.old) (O.contents out.new) (name_part form bytes.now)) }
{
    match form {
        FileForm::Line(_) => put_name(out, bytes),
        FileForm::Object => put_name_bytes(out, bytes),
    }
}

// Reads the rest of a name, and writes each byte as it is read.
fn put_rest<L: Read, O: Write>(
    form: FileForm,
    list: &mut L,
    out: &mut O,
) -> Result<Rest, WriteFault>
    ensures ok { IfOk result (CopiesRest form (L.remaining list.old) (L.remaining list.new)
        (O.contents out.old) (O.contents out.new)) }
    ensures err { OnErr result (CutsRest form (L.remaining list.old) (O.contents out.old) (O.contents out.new)) }
{
    for _ in 0..u64::MAX {
        let Ok(next) = next_byte(list) else {
            return Ok(Rest::Unread);
        };
        match next {
            Some(0) => return Ok(Rest::Ended),
            Some(byte) => put_part(form, &[byte], out)?,
            None => return Ok(Rest::Ended),
        }
    }
    // (no name has as many bytes)
    Ok(Rest::Unread)
}

// The line that says why the file of a long name isn't opened, if that is requested.
fn long_lines(task: Task<'_>, rest: Rest) -> Reasons
    ensures quiet { task.entry.explains ≡ false → lines_of result ≡ [] }
    ensures unread { rest ≡ Rest.Unread → lines_of result ≡ [] }
    ensures lines { IsOpeningLine (lines_of result) }
{
    if !task.explains || rest != Rest::Ended {
        return Reasons::new(task.alloc);
    }
    opening_line(task.alloc, "the name has more than 4096 bytes")
}

// Writes the end of a line, after its name.
fn put_end<O: Write>(
    form: FileForm,
    outcome: Outcome,
    lines: &[u8],
    out: &mut O,
) -> Result<(), WriteFault>
    ensures ok { OnOk result (Appends (O.contents out.old) (O.contents out.new) (end_of_name form outcome lines.now)) }
    ensures err { OnErr result (AppendsPart (O.contents out.old) (O.contents out.new)
        (end_of_name form outcome lines.now)) }
{
    match form {
        FileForm::Line(faults) => put_after_name(out, outcome, faults, b""),
        FileForm::Object => put_object_end(outcome, lines, out),
    }
}

#[tactic(auto, using(text_output::proofs::Parts::written))]
fn put_object_end<O: Write>(outcome: Outcome, lines: &[u8], out: &mut O) -> Result<(), WriteFault>
    ensures ok { OnOk result (Appends (O.contents out.old) (O.contents out.new)
        (end_of_name FileForm.Object outcome lines.now)) }
    ensures err { OnErr result (AppendsPart (O.contents out.old) (O.contents out.new)
        (end_of_name FileForm.Object outcome lines.now)) }
{
    put(out, b"\"")?;
    put_later_members(out, outcome, b"", lines)?;
    Ok(())
}
