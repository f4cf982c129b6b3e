//! The text of the bounds of a mapping.
ghost use Rattle.std.specs.Prelude.{OnOk, OnErr};
ghost use Rattle.std.specs.Io.KnownBytes.{Appends};
ghost use Rattle.text_output.specs.Written.{AppendsPart};
ghost use Rattle.run_parts.specs.BoundText.{bound_line, bound_number, bound_text, bound_text_and};

use itoa::Buffer;
use std::io::Write;
use text_output::write::{WriteFault, put};

/// Writes the most steps and slots that a mapping takes, a line for each. `None` is a bound of 2^128 or more.
#[tactic(auto, using(text_output::proofs::Parts::written))]
pub fn put_bounds<W: Write>(
    w: &mut W,
    steps: Option<u128>,
    slots: Option<u128>,
) -> Result<(), WriteFault>
    ensures ok { OnOk result (Appends (W.contents w.old) (W.contents w.new) (bound_text steps slots)) }
    ensures err { OnErr result (AppendsPart (W.contents w.old) (W.contents w.new) (bound_text steps slots)) }
{
    put_line(w, b"steps ", steps)?;
    put_line(w, b"slots ", slots)?;
    Ok(())
}

/// Writes the most steps and slots that a mapping takes, and the most bytes of its text, a line for each. `None` is a
/// bound of 2^128 or more.
#[tactic(auto, using(text_output::proofs::Parts::written))]
pub fn put_bounds_and_text<W: Write>(
    w: &mut W,
    steps: Option<u128>,
    slots: Option<u128>,
    text: Option<u128>,
) -> Result<(), WriteFault>
    ensures ok { OnOk result (Appends (W.contents w.old) (W.contents w.new) (bound_text_and steps slots text)) }
    ensures err { OnErr result (AppendsPart (W.contents w.old) (W.contents w.new) (bound_text_and steps slots text)) }
{
    put_bounds(w, steps, slots)?;
    put_line(w, b"text ", text)?;
    Ok(())
}

/// Writes a line with a name and a bound.
#[tactic(auto, using(text_output::proofs::Parts::written), unfolding(crate::specs::BoundText::bound_line))]
pub fn put_line<W: Write>(w: &mut W, name: &[u8], bound: Option<u128>) -> Result<(), WriteFault>
    ensures ok { OnOk result (Appends (W.contents w.old) (W.contents w.new) (bound_line name.now bound)) }
    ensures err { OnErr result (AppendsPart (W.contents w.old) (W.contents w.new) (bound_line name.now bound)) }
{
    put(w, name)?;
    put_bound(w, bound)?;
    put(w, b"\n")?;
    Ok(())
}

fn put_bound<W: Write>(w: &mut W, bound: Option<u128>) -> Result<(), WriteFault>
    ensures ok { OnOk result (Appends (W.contents w.old) (W.contents w.new) (bound_number bound)) }
    ensures err { OnErr result (AppendsPart (W.contents w.old) (W.contents w.new) (bound_number bound)) }
{
    match bound {
        Some(number) => put(w, Buffer::new().format(number).as_bytes()),
        None => put(w, b"more than 2^128-1"),
    }
}
