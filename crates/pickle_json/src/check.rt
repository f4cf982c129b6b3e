//! The check of a pickle as a JSON object.

ghost use Rattle.std.specs.Prelude.{◌≡◌, ◌++◌, [], codes, true, false, IfOk, OnOk, OnErr};
ghost use Rattle.std.specs.Io.KnownBytes.{Appends};
ghost use Rattle.run_parts.specs.Accepted.{IsTableOf, Refuses};
ghost use Rattle.text_output.specs.Written.{AppendsPart};
ghost use Rattle.pickle_json.specs.Notes.{note_members};
ghost use Rattle.pickle_json.specs.Checks.{Answers, AnswersPart, IsAsked, accepted_json, lead, more_members, notes_json, refused_json, untold_json, warnings_json};

use crate::note::put_note;
use pickle_reasons::refusal_note;
use pickle_source::note::Note;
use pickle_types::table::Table;
use pickle_warnings::accepted_notes;
use run_parts::accept::{Refusal, accept};
use run_parts::outcome::Outcome;
use run_parts::status::Status;
use std::alloc::{AllocError, Global};
use std::io::Write;
use text_output::write::{WriteFault, put};

/// Checks a pickle, and writes the answer as a JSON object on a line: `{"accepted":true}`, or
/// `{"refused":"Syntax","byte":25}`. Returns the exit status of the check.
///
/// With `explains`, an accepted pickle has the member `warnings`, with an object for each note about what it can't mean;
/// without notes there is no such member. A refused one has the members of the note about the refusal. If an allocation
/// for notes fails, `warnings` or `says` is `null`.
pub fn put_check<W: Write>(
    alloc: Global,
    pickle: &[u8],
    explains: bool,
    w: &mut W,
) -> Result<Status, WriteFault>
    ensures ok { IfOk result (λ status. Answers pickle.now explains status (W.contents w.old) (W.contents w.new)) }
    ensures err { OnErr result (AnswersPart pickle.now explains (W.contents w.old) (W.contents w.new)) }
{
    match accept(alloc, pickle) {
        Ok(table) => put_acceptance(alloc, pickle, &table, explains, w),
        Err(refusal) => put_refusal(alloc, pickle, refusal, explains, w),
    }
}

// Writes the answer for a pickle that has a table, and returns the exit status.
fn put_acceptance<W: Write>(
    alloc: Global,
    pickle: &[u8],
    _table: &Table,
    explains: bool,
    w: &mut W,
) -> Result<Status, WriteFault>
    requires { IsTableOf pickle.now _table.now }
    ensures ok { IfOk result (λ status. Answers pickle.now explains status (W.contents w.old) (W.contents w.new)) }
    ensures err { OnErr result (AnswersPart pickle.now explains (W.contents w.old) (W.contents w.new)) }
{
    match notes_if(alloc, pickle, explains) {
        Ok(notes) => put_noted(pickle, _table, explains, notes.as_slice(), w),
        Err(_) => put_unnoted(pickle, _table, explains, w),
    }
}

// Writes the answer for an accepted pickle and the notes about it, and returns the exit status.
fn put_noted<W: Write>(
    pickle: &[u8],
    _table: &Table,
    _explains: bool,
    notes: &[Note],
    w: &mut W,
) -> Result<Status, WriteFault>
    requires table { IsTableOf pickle.now _table.now }
    requires asked { _explains ≡ false → notes.now ≡ [] }
    ensures ok { IfOk result (λ status. Answers pickle.now _explains status (W.contents w.old) (W.contents w.new)) }
    ensures err { OnErr result (AnswersPart pickle.now _explains (W.contents w.old) (W.contents w.new)) }
{
    put_accepted(w, pickle, notes)?;
    Ok(Status::Done)
}

// Writes the answer for an accepted pickle about which notes were requested that couldn't be made.
fn put_unnoted<W: Write>(
    _pickle: &[u8],
    _table: &Table,
    _explains: bool,
    w: &mut W,
) -> Result<Status, WriteFault>
    requires table { IsTableOf _pickle.now _table.now }
    requires asked { _explains ≡ true }
    ensures ok { IfOk result (λ status. Answers _pickle.now _explains status (W.contents w.old) (W.contents w.new)) }
    ensures err { OnErr result (AnswersPart _pickle.now _explains (W.contents w.old) (W.contents w.new)) }
{
    put(w, b"{\"accepted\":true,\"warnings\":null}\n")?;
    Ok(Status::Done)
}

// The notes about an accepted pickle, if they are requested.
fn notes_if(alloc: Global, pickle: &[u8], explains: bool) -> Result<Vec<Note>, AllocError>
    ensures asked { IfOk result (λ notes. explains ≡ false → notes.items ≡ []) }
    ensures fault { OnErr result (explains ≡ true) }
{
    if explains {
        accepted_notes(alloc, pickle)
    } else {
        Ok(Vec::new(alloc))
    }
}

/// Writes the answer for a pickle that is refused so, and returns the exit status.
pub fn put_refusal<W: Write>(
    alloc: Global,
    pickle: &[u8],
    refusal: Refusal,
    explains: bool,
    w: &mut W,
) -> Result<Status, WriteFault>
    ensures ok { Refuses pickle.now refusal →
        IfOk result (λ status. Answers pickle.now explains status (W.contents w.old) (W.contents w.new)) }
    ensures err { Refuses pickle.now refusal →
        OnErr result (AnswersPart pickle.now explains (W.contents w.old) (W.contents w.new)) }
{
    match note_if(alloc, pickle, refusal, explains) {
        Ok(note) => put_explained(pickle, refusal, explains, &note, w),
        Err(_) => put_unexplained(pickle, refusal, explains, w),
    }
}

// Writes the answer for a refused pickle with the note about it, if there is one, and returns the exit status.
fn put_explained<W: Write>(
    pickle: &[u8],
    refusal: Refusal,
    _explains: bool,
    note: &Option<Note>,
    w: &mut W,
) -> Result<Status, WriteFault>
    requires asked { IsAsked _explains refusal note.now }
    ensures ok { Refuses pickle.now refusal →
        IfOk result (λ status. Answers pickle.now _explains status (W.contents w.old) (W.contents w.new)) }
    ensures err { Refuses pickle.now refusal →
        OnErr result (AnswersPart pickle.now _explains (W.contents w.old) (W.contents w.new)) }
{
    put_refused(w, pickle, refusal, note)?;
    Ok(Outcome::Refused(refusal).status())
}

// Writes the answer for a refused pickle about which a note was requested that couldn't be made.
fn put_unexplained<W: Write>(
    _pickle: &[u8],
    refusal: Refusal,
    _explains: bool,
    w: &mut W,
) -> Result<Status, WriteFault>
    requires asked { _explains ≡ true }
    ensures ok { Refuses _pickle.now refusal →
        IfOk result (λ status. Answers _pickle.now _explains status (W.contents w.old) (W.contents w.new)) }
    ensures err { Refuses _pickle.now refusal →
        OnErr result (AnswersPart _pickle.now _explains (W.contents w.old) (W.contents w.new)) }
{
    put_untold(w, refusal)?;
    Ok(Outcome::Refused(refusal).status())
}

#[tactic(auto, using(text_output::proofs::Parts::written))]
fn put_untold<W: Write>(w: &mut W, refusal: Refusal) -> Result<(), WriteFault>
    ensures ok { OnOk result (Appends (W.contents w.old) (W.contents w.new) (untold_json refusal)) }
    ensures err { OnErr result (AppendsPart (W.contents w.old) (W.contents w.new) (untold_json refusal)) }
{
    put(w, b"{")?;
    Outcome::Refused(refusal).put_members(w)?;
    put(w, b",\"says\":null}\n")?;
    Ok(())
}

// The note about a refusal, if it is requested. The fault of an allocation that failed needs none.
fn note_if(
    alloc: Global,
    pickle: &[u8],
    refusal: Refusal,
    explains: bool,
) -> Result<Option<Note>, AllocError>
    ensures asked { IfOk result (IsAsked explains refusal) }
    ensures fault { OnErr result (explains ≡ true) }
{
    match (explains, refusal) {
        (false, _) | (true, Refusal::Memory) => Ok(None),
        (true, _) => match refusal_note(alloc, pickle, refusal) {
            Ok(note) => Ok(Some(note)),
            Err(fault) => Err(fault),
        },
    }
}

fn put_accepted<W: Write>(w: &mut W, pickle: &[u8], notes: &[Note]) -> Result<(), WriteFault>
    ensures ok { OnOk result (Appends (W.contents w.old) (W.contents w.new) (accepted_json pickle.now notes.now)) }
    ensures err { OnErr result
        (AppendsPart (W.contents w.old) (W.contents w.new) (accepted_json pickle.now notes.now)) }
{
    match notes {
        [] => put(w, b"{\"accepted\":true}\n"),
        _ => put_warnings(w, pickle, notes),
    }
}

#[tactic(auto, using(text_output::proofs::Parts::written))]
fn put_warnings<W: Write>(w: &mut W, pickle: &[u8], notes: &[Note]) -> Result<(), WriteFault>
    ensures ok { OnOk result (Appends (W.contents w.old) (W.contents w.new) (warnings_json pickle.now notes.now)) }
    ensures err { OnErr result
        (AppendsPart (W.contents w.old) (W.contents w.new) (warnings_json pickle.now notes.now)) }
{
    put(w, b"{\"accepted\":true,\"warnings\":[")?;
    put_notes(w, pickle, notes)?;
    put(w, b"]}\n")?;
    Ok(())
}

// Writes an object for each note, with commas between them.
fn put_notes<W: Write>(w: &mut W, pickle: &[u8], notes: &[Note]) -> Result<(), WriteFault>
    ensures ok { OnOk result (Appends (W.contents w.old) (W.contents w.new) (notes_json pickle.now true notes.now)) }
    ensures err { OnErr result
        (AppendsPart (W.contents w.old) (W.contents w.new) (notes_json pickle.now true notes.now)) }
{
    let mut done = 0;
    while done < notes.len() {
        put_one(w, pickle, done == 0, &notes[done])?;
        done += 1;
    }
    Ok(())
}

// Writes the object of a note, after a comma unless it is the first.
#[tactic(auto, using(text_output::proofs::Parts::written))]
fn put_one<W: Write>(w: &mut W, pickle: &[u8], first: bool, note: &Note) -> Result<(), WriteFault>
    ensures ok { OnOk result (Appends (W.contents w.old) (W.contents w.new)
        (lead first ++ (note_members pickle.now note.now ++ codes "}"))) }
    ensures err { OnErr result (AppendsPart (W.contents w.old) (W.contents w.new)
        (lead first ++ (note_members pickle.now note.now ++ codes "}"))) }
{
    put(w, lead(first))?;
    put_note(w, pickle, note)?;
    put(w, b"}")?;
    Ok(())
}

fn lead(first: bool) -> &'static [u8]
    ensures { result.now ≡ lead first }
{
    if first { b"{" } else { b",{" }
}

#[tactic(auto, using(text_output::proofs::Parts::written))]
fn put_refused<W: Write>(
    w: &mut W,
    pickle: &[u8],
    refusal: Refusal,
    note: &Option<Note>,
) -> Result<(), WriteFault>
    ensures ok { OnOk result
        (Appends (W.contents w.old) (W.contents w.new) (refused_json pickle.now refusal note.now)) }
    ensures err { OnErr result
        (AppendsPart (W.contents w.old) (W.contents w.new) (refused_json pickle.now refusal note.now)) }
{
    put(w, b"{")?;
    Outcome::Refused(refusal).put_members(w)?;
    put_more(w, pickle, note)?;
    put(w, b"}\n")?;
    Ok(())
}

// Writes the members of a note after others, if there is one.
fn put_more<W: Write>(w: &mut W, pickle: &[u8], note: &Option<Note>) -> Result<(), WriteFault>
    ensures ok { OnOk result (Appends (W.contents w.old) (W.contents w.new) (more_members pickle.now note.now)) }
    ensures err { OnErr result (AppendsPart (W.contents w.old) (W.contents w.new) (more_members pickle.now note.now)) }
{
    match note {
        None => Ok(()),
        Some(note) => put_after_comma(w, pickle, note),
    }
}

#[tactic(auto, using(text_output::proofs::Parts::written))]
fn put_after_comma<W: Write>(w: &mut W, pickle: &[u8], note: &Note) -> Result<(), WriteFault>
    ensures ok { OnOk result
        (Appends (W.contents w.old) (W.contents w.new) (codes "," ++ note_members pickle.now note.now)) }
    ensures err { OnErr result
        (AppendsPart (W.contents w.old) (W.contents w.new) (codes "," ++ note_members pickle.now note.now)) }
{
    put(w, b",")?;
    put_note(w, pickle, note)?;
    Ok(())
}
