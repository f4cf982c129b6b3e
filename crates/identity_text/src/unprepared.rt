//! Why a pickle is no format, in a line.

ghost use Rattle.std.specs.Prelude.{◌≡◌, IfOk, OnOk, OnErr};
ghost use Rattle.std.specs.Io.KnownBytes.{Appends};
ghost use Rattle.text_output.specs.Written.{AppendsPart};
ghost use Rattle.identity_text.specs.Unprepared.{form_reason, head_reason, reason, unprepared_line};

use identification::Unfit;
use pickle_heads::HeadFault;
use poke_batch::file_line::put_name;
use run_parts::outcome::Outcome;
use std::alloc::{AllocError, Global};
use std::io::Write;
use text_output::write::{WriteFault, put};

/// The line that says which pickle is no format, and why: `error: the pickle png is no format: refused Syntax at byte 17`.
/// The name is escaped as that of a file.
pub fn unprepared_text(alloc: Global, name: &[u8], why: Unfit) -> Result<Vec<u8>, AllocError>
    ensures { IfOk result (λ text. text.items ≡ unprepared_line name.now why) }
{
    let mut text = Vec::new(alloc);
    match put_line(&mut text, name, why) {
        Ok(()) => Ok(text),
        Err(WriteFault) => Err(AllocError),
    }
}

#[tactic(auto, using(text_output::proofs::Parts::written))]
fn put_line<W: Write>(w: &mut W, name: &[u8], why: Unfit) -> Result<(), WriteFault>
    ensures ok { OnOk result (Appends (W.contents w.old) (W.contents w.new) (unprepared_line name.now why)) }
    ensures err { OnErr result (AppendsPart (W.contents w.old) (W.contents w.new) (unprepared_line name.now why)) }
{
    put(w, b"error: the pickle ")?;
    put_name(w, name)?;
    put(w, b" is no format: ")?;
    put_reason(w, why)?;
    Ok(())
}

fn put_reason<W: Write>(w: &mut W, why: Unfit) -> Result<(), WriteFault>
    ensures ok { OnOk result (Appends (W.contents w.old) (W.contents w.new) (reason why)) }
    ensures err { OnErr result (AppendsPart (W.contents w.old) (W.contents w.new) (reason why)) }
{
    match why {
        Unfit::Refused(refusal) => Outcome::Refused(refusal).put_line(w),
        Unfit::Head(fault) => put_head_reason(w, fault),
        Unfit::NoIdentifyingType => {
            put(w, b"it has no type of the name in its line Identified by\n")
        }
        Unfit::NoMainType => put(
            w,
            b"it has no type of the name in its line main, or no such line\n",
        ),
        Unfit::NoForm => put(w, b"no pickle has the name in its line Form of\n"),
        Unfit::Cycle => put(w, b"it is a form of itself\n"),
        Unfit::Order => put(
            w,
            b"its name doesn't come after that of the pickle before it\n",
        ),
        Unfit::Memory => put(w, b"fault Memory\n"),
    }
}

// What is wrong with a line of the head.
fn put_head_reason<W: Write>(w: &mut W, fault: HeadFault) -> Result<(), WriteFault>
    ensures ok { OnOk result (Appends (W.contents w.old) (W.contents w.new) (head_reason fault)) }
    ensures err { OnErr result (AppendsPart (W.contents w.old) (W.contents w.new) (head_reason fault)) }
{
    match fault {
        HeadFault::Order => put(
            w,
            b"a line of its head is there twice, or after one that has to follow it\n",
        ),
        _ => put_form(w, fault.name().as_bytes()),
    }
}

#[tactic(auto, using(text_output::proofs::Parts::written))]
fn put_form<W: Write>(w: &mut W, line: &[u8]) -> Result<(), WriteFault>
    ensures ok { OnOk result (Appends (W.contents w.old) (W.contents w.new) (form_reason line.now)) }
    ensures err { OnErr result (AppendsPart (W.contents w.old) (W.contents w.new) (form_reason line.now)) }
{
    put(w, b"its line ")?;
    put(w, line)?;
    put(w, b" isn't in its form\n")?;
    Ok(())
}
