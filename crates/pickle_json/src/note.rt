//! A note about a pickle as members of a JSON object.

ghost use Rattle.std.specs.Prelude.{◌≡◌, ◌≤◌, ◌<◌, ◌^◌, length, OnOk, OnErr};
ghost use Rattle.std.specs.Io.KnownBytes.{Appends};
ghost use Rattle.text_output.specs.Written.{AppendsPart};
ghost use Rattle.pickle_json.specs.Notes.{left_in_line, end_column, help_of, note_members, place_members};

use crate::member::{put_count, put_number, put_string, put_text};
use pickle_source::line_column::{LineColumn, place_behind};
use pickle_source::note::Note;
use std::io::Write;
use text_output::write::WriteFault;

/// Writes the members of a note: `"line":3,"column":5,"end":9,"says":"..","write":".."`. Line and column are those of the
/// first byte that is meant, counted from 1, and `end` is the column after the last one in that line. A note that means no
/// bytes has no `end`, and one without help no `write`.
pub fn put_note<W: Write>(w: &mut W, pickle: &[u8], note: &Note) -> Result<(), WriteFault>
    ensures ok { OnOk result (Appends (W.contents w.old) (W.contents w.new) (note_members pickle.now note.now)) }
    ensures err { OnErr result (AppendsPart (W.contents w.old) (W.contents w.new) (note_members pickle.now note.now)) }
{
    let (before, rest) = pickle.split_at(note.at.min(pickle.len()));
    let marked = left_in_line(rest).min(note.length);
    let sentence = note.sentence.as_slice();
    put_placed(w, place_behind(before), marked, sentence, help_of(note))
}

// Writes the members of a sentence about so many bytes from a place on.
#[tactic(auto, using(text_output::proofs::Parts::written))]
fn put_placed<W: Write>(
    w: &mut W,
    place: LineColumn,
    marked: usize,
    text: &[u8],
    help: &[u8],
) -> Result<(), WriteFault>
    requires column { place.column ≤ 2 ^ 63 }
    requires few { marked < 2 ^ 63 }
    ensures ok { OnOk result (Appends (W.contents w.old) (W.contents w.new)
        (place_members place.line place.column marked text.now help.now)) }
    ensures err { OnErr result (AppendsPart (W.contents w.old) (W.contents w.new)
        (place_members place.line place.column marked text.now help.now)) }
{
    put_count(w, b"\"line\":", place.line as u64)?;
    put_count(w, b",\"column\":", place.column as u64)?;
    put_number(w, b",\"end\":", end_column(place.column, marked))?;
    put_string(w, b",\"says\":", text)?;
    put_text(w, b",\"write\":", help)?;
    Ok(())
}

// How many bytes come before the end of a line.
fn left_in_line(rest: &[u8]) -> usize
    ensures value { result ≡ left_in_line rest.now }
    ensures few { result ≤ length rest.now }
{
    rest.iter()
        .take_while(|byte| !(**byte == b'\n' || **byte == b'\r'))
        .count()
}

// The column after so many bytes from a column on, if there are any.
fn end_column(column: usize, marked: usize) -> Option<u64>
    requires column { column ≤ 2 ^ 63 }
    requires few { marked < 2 ^ 63 }
    ensures { result ≡ end_column column marked }
{
    if marked == 0 {
        None
    } else {
        Some((column + marked) as u64)
    }
}

// What to write instead, empty if the note doesn't say that.
fn help_of(note: &Note) -> &[u8]
    ensures { result.now ≡ help_of note.now }
{
    match &note.help {
        Some(help) => help.as_slice(),
        None => &[],
    }
}
