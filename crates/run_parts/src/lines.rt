//! The line that reports a refusal or a fault, in words or as a JSON object. A line feed ends it.

ghost use Rattle.std.specs.Prelude.{◌≡◌, ◌++◌, decimal, OnOk, OnErr};
ghost use Rattle.std.specs.Io.KnownBytes.{Appends};
ghost use Rattle.text_output.specs.Written.{AppendsPart};
ghost use Rattle.run_parts.specs.Reports.{lead, member_lead, report_json, report_line, report_members, starts_members, starts_text};

use crate::status::Status;
use itoa::Buffer;
use std::io::Write;
use text_output::write::{WriteFault, put};

/// Where a run ended.
#[derive(Clone, Copy, Debug, Drop, PartialEq, Eq)]
pub enum RunEnd {
    /// Nowhere in its pickle or its file.
    Nowhere,
    /// At a byte of the pickle, counted from 0.
    Byte(usize),
    /// In a declaration of the pickle, counted from 1.
    Declaration(usize),
    /// At a bit of the file, counted from 0.
    Bit(u128),
    /// At so many bits of the file, of which this is the first.
    Starts { first: u64, count: u64 },
}

/// Writes the line of a run that ended with a status other than `Done`. `kind` is the name of the refusal or fault.
pub fn put_report<W: Write>(
    w: &mut W,
    status: Status,
    kind: &[u8],
    place: RunEnd,
) -> Result<(), WriteFault>
    ensures ok { OnOk result (Appends (W.contents w.old) (W.contents w.new) (report_line status kind.now place)) }
    ensures err { OnErr result (AppendsPart (W.contents w.old) (W.contents w.new) (report_line status kind.now place)) }
{
    let lead = lead(status);
    match place {
        RunEnd::Nowhere => put_plain(w, lead, kind, b"\n"),
        RunEnd::Byte(byte) => put_placed(w, lead, kind, b" at byte ", byte as u128, b"\n"),
        RunEnd::Declaration(declaration) => {
            put_placed(w, lead, kind, b" in type ", declaration as u128, b"\n")
        }
        RunEnd::Bit(bit) => put_placed(w, lead, kind, b" at ", bit, b"#b\n"),
        RunEnd::Starts { first, count } => put_starts(w, lead, kind, first, count),
    }
}

/// Writes the JSON object of a run that ended with a status other than `Done`, on a line. `kind` is the name of the refusal
/// or fault, in letters.
#[tactic(auto, using(text_output::proofs::Parts::written))]
pub fn put_report_json<W: Write>(
    w: &mut W,
    status: Status,
    kind: &[u8],
    place: RunEnd,
) -> Result<(), WriteFault>
    ensures ok { OnOk result (Appends (W.contents w.old) (W.contents w.new) (report_json status kind.now place)) }
    ensures err { OnErr result (AppendsPart (W.contents w.old) (W.contents w.new) (report_json status kind.now place)) }
{
    put(w, b"{")?;
    put_report_members(w, status, kind, place)?;
    put(w, b"}\n")?;
    Ok(())
}

/// Writes the members of that object: `"fault":"End","at":32`.
pub fn put_report_members<W: Write>(
    w: &mut W,
    status: Status,
    kind: &[u8],
    place: RunEnd,
) -> Result<(), WriteFault>
    ensures ok { OnOk result (Appends (W.contents w.old) (W.contents w.new) (report_members status kind.now place)) }
    ensures err { OnErr result
        (AppendsPart (W.contents w.old) (W.contents w.new) (report_members status kind.now place)) }
{
    let lead = member_lead(status);
    match place {
        RunEnd::Nowhere => put_plain(w, lead, kind, b"\""),
        RunEnd::Byte(byte) => put_member(w, lead, kind, b"\",\"byte\":", byte as u128),
        RunEnd::Declaration(declaration) => {
            put_member(w, lead, kind, b"\",\"type\":", declaration as u128)
        }
        RunEnd::Bit(bit) => put_member(w, lead, kind, b"\",\"at\":", bit),
        RunEnd::Starts { first, count } => put_starts_members(w, lead, kind, first, count),
    }
}

// The word with which the line of a status begins.
fn lead(status: Status) -> &'static [u8]
    ensures { result.now ≡ lead status }
{
    match status {
        Status::Refused => b"refused ",
        Status::Done | Status::Fault | Status::Outside => b"fault ",
    }
}

// The start of the members of a status, up to the name.
fn member_lead(status: Status) -> &'static [u8]
    ensures { result.now ≡ member_lead status }
{
    match status {
        Status::Refused => b"\"refused\":\"",
        Status::Done | Status::Fault | Status::Outside => b"\"fault\":\"",
    }
}

// `lead`, the kind, and `tail`
#[tactic(auto, using(text_output::proofs::Parts::written))]
fn put_plain<W: Write>(w: &mut W, lead: &[u8], kind: &[u8], tail: &[u8]) -> Result<(), WriteFault>
    ensures ok { OnOk result (Appends (W.contents w.old) (W.contents w.new) (lead.now ++ (kind.now ++ tail.now))) }
    ensures err { OnErr result
        (AppendsPart (W.contents w.old) (W.contents w.new) (lead.now ++ (kind.now ++ tail.now))) }
{
    put(w, lead)?;
    put(w, kind)?;
    put(w, tail)?;
    Ok(())
}

// `lead`, the kind, and a number between `link` and `tail`
#[tactic(auto, using(text_output::proofs::Parts::written))]
fn put_placed<W: Write>(
    w: &mut W,
    lead: &[u8],
    kind: &[u8],
    link: &[u8],
    number: u128,
    tail: &[u8],
) -> Result<(), WriteFault>
    ensures ok { OnOk result (Appends (W.contents w.old) (W.contents w.new)
        (lead.now ++ (kind.now ++ (link.now ++ (decimal number ++ tail.now))))) }
    ensures err { OnErr result (AppendsPart (W.contents w.old) (W.contents w.new)
        (lead.now ++ (kind.now ++ (link.now ++ (decimal number ++ tail.now))))) }
{
    put(w, lead)?;
    put(w, kind)?;
    put(w, link)?;
    put_number(w, number, tail)?;
    Ok(())
}

// `lead`, the kind, and a number after `link`
#[tactic(auto, using(text_output::proofs::Parts::written))]
fn put_member<W: Write>(
    w: &mut W,
    lead: &[u8],
    kind: &[u8],
    link: &[u8],
    number: u128,
) -> Result<(), WriteFault>
    ensures ok { OnOk result (Appends (W.contents w.old) (W.contents w.new)
        (lead.now ++ (kind.now ++ (link.now ++ decimal number)))) }
    ensures err { OnErr result (AppendsPart (W.contents w.old) (W.contents w.new)
        (lead.now ++ (kind.now ++ (link.now ++ decimal number)))) }
{
    put(w, lead)?;
    put(w, kind)?;
    put(w, link)?;
    put_digits(w, number)?;
    Ok(())
}

// `lead`, the kind, and how many bits there are, with the first of them
#[tactic(auto, using(text_output::proofs::Parts::written))]
fn put_starts<W: Write>(
    w: &mut W,
    lead: &[u8],
    kind: &[u8],
    first: u64,
    count: u64,
) -> Result<(), WriteFault>
    ensures ok { OnOk result (Appends (W.contents w.old) (W.contents w.new)
        (lead.now ++ (kind.now ++ starts_text first count))) }
    ensures err { OnErr result (AppendsPart (W.contents w.old) (W.contents w.new)
        (lead.now ++ (kind.now ++ starts_text first count))) }
{
    put(w, lead)?;
    put(w, kind)?;
    put_two(w, b" at ", first, b"#b count ", count, b"\n")?;
    Ok(())
}

// two numbers, after `link`, before `tail`, and with `middle` between them
#[tactic(auto, using(text_output::proofs::Parts::written))]
fn put_two<W: Write>(
    w: &mut W,
    link: &[u8],
    first: u64,
    middle: &[u8],
    second: u64,
    tail: &[u8],
) -> Result<(), WriteFault>
    ensures ok { OnOk result (Appends (W.contents w.old) (W.contents w.new)
        (link.now ++ ((decimal first ++ middle.now) ++ (decimal second ++ tail.now)))) }
    ensures err { OnErr result (AppendsPart (W.contents w.old) (W.contents w.new)
        (link.now ++ ((decimal first ++ middle.now) ++ (decimal second ++ tail.now)))) }
{
    put(w, link)?;
    put_number(w, u128::from(first), middle)?;
    put_number(w, u128::from(second), tail)?;
    Ok(())
}

// the same as members
#[tactic(auto, using(text_output::proofs::Parts::written))]
fn put_starts_members<W: Write>(
    w: &mut W,
    lead: &[u8],
    kind: &[u8],
    first: u64,
    count: u64,
) -> Result<(), WriteFault>
    ensures ok { OnOk result (Appends (W.contents w.old) (W.contents w.new)
        (lead.now ++ (kind.now ++ starts_members first count))) }
    ensures err { OnErr result (AppendsPart (W.contents w.old) (W.contents w.new)
        (lead.now ++ (kind.now ++ starts_members first count))) }
{
    put(w, lead)?;
    put(w, kind)?;
    put_two_members(w, b"\",\"at\":", first, b",\"count\":", count)?;
    Ok(())
}

// two numbers, after `link`, and with `middle` between them
#[tactic(auto, using(text_output::proofs::Parts::written))]
fn put_two_members<W: Write>(
    w: &mut W,
    link: &[u8],
    first: u64,
    middle: &[u8],
    second: u64,
) -> Result<(), WriteFault>
    ensures ok { OnOk result (Appends (W.contents w.old) (W.contents w.new)
        (link.now ++ ((decimal first ++ middle.now) ++ decimal second))) }
    ensures err { OnErr result (AppendsPart (W.contents w.old) (W.contents w.new)
        (link.now ++ ((decimal first ++ middle.now) ++ decimal second))) }
{
    put(w, link)?;
    put_number(w, u128::from(first), middle)?;
    put_digits(w, u128::from(second))?;
    Ok(())
}

/// Writes the decimal digits of a number.
pub fn put_digits<W: Write>(w: &mut W, number: u128) -> Result<(), WriteFault>
    ensures ok { OnOk result (Appends (W.contents w.old) (W.contents w.new) (decimal number)) }
    ensures err { OnErr result (AppendsPart (W.contents w.old) (W.contents w.new) (decimal number)) }
{
    let mut digits = Buffer::new();
    put(w, digits.format(number).as_bytes())
}

/// Writes the decimal digits of a number, and `tail`.
#[tactic(auto, using(text_output::proofs::Parts::written))]
pub fn put_number<W: Write>(w: &mut W, number: u128, tail: &[u8]) -> Result<(), WriteFault>
    ensures ok { OnOk result (Appends (W.contents w.old) (W.contents w.new) (decimal number ++ tail.now)) }
    ensures err { OnErr result (AppendsPart (W.contents w.old) (W.contents w.new) (decimal number ++ tail.now)) }
{
    put_digits(w, number)?;
    put(w, tail)?;
    Ok(())
}
