//! The JSON object of one file among many.

ghost use Rattle.std.specs.Prelude.{◌≡◌, ◌≤◌, length, true, IfOk, OnOk, OnErr};
ghost use Rattle.std.specs.Io.KnownBytes.{Appends};
ghost use Rattle.run_parts.specs.Outcomes.{outcome_status};
ghost use Rattle.text_output.specs.Written.{AppendsPart};
ghost use Rattle.value_text.specs.ValueText.{comma, spelled};
ghost use Rattle.value_text.specs.JsonText.{json_escape};
ghost use Rattle.poke_batch.specs.FileLine.{name_byte, shown_name};
ghost use Rattle.poke_batch.specs.FileObject.{file_object, first_line_json, later_members, line_length, lines_json, name_json, reasons_member, result_members, status_member, text_lines, value_member, why_member, without_end, without_indent};

use run_parts::outcome::Outcome;
use run_parts::status::Status;
use std::io::Write;
use text_output::hex::hex_digit;
use text_output::write::{WriteFault, put};
use value_text::print::print_json_string;

/// Writes the JSON object of a file, on a line: `{"name":"a.bin","status":0,"value":1}`. The members are its name, the
/// exit status of its run, and the value, or what reports its refusal or fault: `"fault":"End","at":32`. `text` is the
/// printed value in JSON, with a line feed. The name is that of its line, as a JSON string. Each line of `reasons` is a
/// string in the member `why`, without the two blanks that indent it; without reasons there is no such member.
#[tactic(auto, using(text_output::proofs::Parts::written))]
pub fn put_file_object<W: Write>(
    w: &mut W,
    name: &[u8],
    outcome: Outcome,
    text: &[u8],
    reasons: &[u8],
) -> Result<(), WriteFault>
    ensures ok { OnOk result (Appends (W.contents w.old) (W.contents w.new)
        (file_object name.now outcome text.now reasons.now)) }
    ensures err { OnErr result (AppendsPart (W.contents w.old) (W.contents w.new)
        (file_object name.now outcome text.now reasons.now)) }
{
    put(w, b"{\"name\":")?;
    put_name_string(w, name)?;
    put_later_members(w, outcome, text, reasons)?;
    Ok(())
}

/// Writes what the object of a file has after the name, and its end.
#[tactic(auto, using(text_output::proofs::Parts::written))]
pub fn put_later_members<W: Write>(
    w: &mut W,
    outcome: Outcome,
    text: &[u8],
    reasons: &[u8],
) -> Result<(), WriteFault>
    ensures ok { OnOk result (Appends (W.contents w.old) (W.contents w.new)
        (later_members outcome text.now reasons.now)) }
    ensures err { OnErr result (AppendsPart (W.contents w.old) (W.contents w.new)
        (later_members outcome text.now reasons.now)) }
{
    put_status(w, outcome)?;
    put_result(w, outcome, text)?;
    put_why(w, reasons)?;
    put(w, b"}\n")?;
    Ok(())
}

// Writes the member with the exit status of a run.
fn put_status<W: Write>(w: &mut W, outcome: Outcome) -> Result<(), WriteFault>
    ensures ok { OnOk result (Appends (W.contents w.old) (W.contents w.new) (status_member (outcome_status outcome))) }
    ensures err { OnErr result (AppendsPart (W.contents w.old) (W.contents w.new)
        (status_member (outcome_status outcome))) }
{
    put(w, status_member(outcome.status()))
}

fn status_member(status: Status) -> &'static [u8]
    ensures { result.now ≡ status_member status }
{
    match status {
        Status::Done => b",\"status\":0,",
        Status::Fault => b",\"status\":1,",
        Status::Refused => b",\"status\":2,",
        Status::Outside => b",\"status\":3,",
    }
}

// The value of a run that is done, or what reports its refusal or fault.
fn put_result<W: Write>(w: &mut W, outcome: Outcome, text: &[u8]) -> Result<(), WriteFault>
    ensures ok { OnOk result (Appends (W.contents w.old) (W.contents w.new) (result_members outcome text.now)) }
    ensures err { OnErr result (AppendsPart (W.contents w.old) (W.contents w.new) (result_members outcome text.now)) }
{
    match outcome {
        Outcome::Done => put_value(w, text),
        _ => outcome.put_members(w),
    }
}

#[tactic(auto, using(text_output::proofs::Parts::written))]
fn put_value<W: Write>(w: &mut W, text: &[u8]) -> Result<(), WriteFault>
    ensures ok { OnOk result (Appends (W.contents w.old) (W.contents w.new) (value_member text.now)) }
    ensures err { OnErr result (AppendsPart (W.contents w.old) (W.contents w.new) (value_member text.now)) }
{
    put(w, b"\"value\":")?;
    put_without_end(w, text)?;
    Ok(())
}

// Writes a text without the line feed at its end.
fn put_without_end<W: Write>(w: &mut W, text: &[u8]) -> Result<(), WriteFault>
    ensures ok { OnOk result (Appends (W.contents w.old) (W.contents w.new) (without_end text.now)) }
    ensures err { OnErr result (AppendsPart (W.contents w.old) (W.contents w.new) (without_end text.now)) }
{
    put(w, without_end(text))
}

// A text without the line feed at its end.
fn without_end(text: &[u8]) -> &[u8]
    ensures { result.now ≡ without_end text.now }
{
    &text[..text.len().saturating_sub(1)]
}

// Writes the member with the lines of a text, if there are any.
fn put_why<W: Write>(w: &mut W, reasons: &[u8]) -> Result<(), WriteFault>
    ensures ok { OnOk result (Appends (W.contents w.old) (W.contents w.new) (why_member reasons.now)) }
    ensures err { OnErr result (AppendsPart (W.contents w.old) (W.contents w.new) (why_member reasons.now)) }
{
    match reasons {
        [] => Ok(()),
        _ => put_reasons(w, reasons),
    }
}

// Writes the member with the lines of a text.
#[tactic(auto, using(text_output::proofs::Parts::written))]
fn put_reasons<W: Write>(w: &mut W, reasons: &[u8]) -> Result<(), WriteFault>
    ensures ok { OnOk result (Appends (W.contents w.old) (W.contents w.new) (reasons_member reasons.now)) }
    ensures err { OnErr result (AppendsPart (W.contents w.old) (W.contents w.new) (reasons_member reasons.now)) }
{
    put(w, b",\"why\":[")?;
    put_lines(w, reasons)?;
    put(w, b"]")?;
    Ok(())
}

/// Writes the lines of a text as JSON strings, with commas between them. Of a line that two blanks indent the remainder
/// is written.
pub fn put_lines<W: Write>(w: &mut W, text: &[u8]) -> Result<(), WriteFault>
    ensures ok { OnOk result (Appends (W.contents w.old) (W.contents w.new) (lines_json true (text_lines text.now))) }
    ensures err { OnErr result (AppendsPart (W.contents w.old) (W.contents w.new)
        (lines_json true (text_lines text.now))) }
{
    let mut done = 0;
    while done < text.len() {
        let length = put_line(w, done == 0, &text[done..])?;
        done += length + 1;
    }
    Ok(())
}

// Writes the first line of a text, after a comma unless it is the first of all. Returns how many bytes the line has,
// without its line feed.
#[tactic(auto, using(text_output::proofs::Parts::written))]
fn put_line<W: Write>(w: &mut W, first: bool, text: &[u8]) -> Result<usize, WriteFault>
    ensures length { IfOk result (λ length. length ≡ line_length text.now) }
    ensures ok { OnOk result (Appends (W.contents w.old) (W.contents w.new) (first_line_json first text.now)) }
    ensures err { OnErr result (AppendsPart (W.contents w.old) (W.contents w.new) (first_line_json first text.now)) }
{
    let length = line_length(text);
    put(w, separator(first))?;
    print_json_string(without_indent(&text[..length]), w)?;
    Ok(length)
}

// A comma, but not before the first.
fn separator(first: bool) -> &'static [u8]
    ensures { result.now ≡ comma first }
{
    if first { b"" } else { b"," }
}

// How many bytes the first line of a text has, without its line feed.
fn line_length(text: &[u8]) -> usize
    ensures value { result ≡ line_length text.now }
    ensures within { result ≤ length text.now }
{
    text.iter().take_while(|byte| **byte != b'\n').count()
}

// A line without the two blanks that indent it.
fn without_indent(line: &[u8]) -> &[u8]
    ensures { result.now ≡ without_indent line.now }
{
    match line {
        [b' ', b' ', rest @ ..] => rest,
        _ => line,
    }
}

// Writes the name of a file as a JSON string.
#[tactic(auto, using(text_output::proofs::Parts::written), unfolding(value_text::specs::JsonText::json_string))]
fn put_name_string<W: Write>(w: &mut W, name: &[u8]) -> Result<(), WriteFault>
    ensures ok { OnOk result (Appends (W.contents w.old) (W.contents w.new) (name_json name.now)) }
    ensures err { OnErr result (AppendsPart (W.contents w.old) (W.contents w.new) (name_json name.now)) }
{
    put(w, b"\"")?;
    put_name_bytes(w, name)?;
    put(w, b"\"")?;
    Ok(())
}

/// Writes the bytes of a name, or of a part of one, as they are in the JSON string of a file's name.
pub fn put_name_bytes<W: Write>(w: &mut W, name: &[u8]) -> Result<(), WriteFault>
    ensures ok { OnOk result (Appends (W.contents w.old) (W.contents w.new)
        (spelled json_escape (shown_name name.now))) }
    ensures err { OnErr result (AppendsPart (W.contents w.old) (W.contents w.new)
        (spelled json_escape (shown_name name.now))) }
{
    let mut done = 0;
    while done < name.len() {
        put_name_byte(w, name[done])?;
        done += 1;
    }
    Ok(())
}

// A byte of a name as its line has it, in a JSON string.
fn put_name_byte<W: Write>(w: &mut W, byte: u8) -> Result<(), WriteFault>
    ensures ok { OnOk result (Appends (W.contents w.old) (W.contents w.new) (spelled json_escape (name_byte byte))) }
    ensures err { OnErr result (AppendsPart (W.contents w.old) (W.contents w.new)
        (spelled json_escape (name_byte byte))) }
{
    match byte {
        b'\\' => put(w, b"\\\\\\\\"),
        b'"' => put(w, b"\\\""),
        b'\n' => put(w, b"\\\\n"),
        b'\t' => put(w, b"\\\\t"),
        32..=126 => put(w, &[byte]),
        _ => put(
            w,
            &[
                b'\\',
                b'\\',
                b'x',
                hex_digit(byte >> 4),
                hex_digit(byte & 15),
            ],
        ),
    }
}
