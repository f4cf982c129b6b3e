//! Members of a JSON object, each after a comma.

ghost use Rattle.std.specs.Prelude.{◌++◌, decimal, OnOk, OnErr};
ghost use Rattle.std.specs.Io.KnownBytes.{Appends};
ghost use Rattle.text_output.specs.Written.{AppendsPart};
ghost use Rattle.value_text.specs.JsonText.{json_string};
ghost use Rattle.pickle_json.specs.Members.{text_member, number_member};

use run_parts::lines::put_digits;
use std::io::Write;
use text_output::write::{WriteFault, put};
use value_text::print::print_json_string;

/// Writes a member whose value is a string. Without a text there is no member. `key` has the comma, the quotes and the
/// colon: `,"says":`.
pub fn put_text<W: Write>(w: &mut W, key: &[u8], text: &[u8]) -> Result<(), WriteFault>
    ensures ok { OnOk result (Appends (W.contents w.old) (W.contents w.new) (text_member key.now text.now)) }
    ensures err { OnErr result (AppendsPart (W.contents w.old) (W.contents w.new) (text_member key.now text.now)) }
{
    match text {
        [] => Ok(()),
        _ => put_string(w, key, text),
    }
}

/// Writes a member whose value is a string, after `key`.
#[tactic(auto, using(text_output::proofs::Parts::written))]
pub fn put_string<W: Write>(w: &mut W, key: &[u8], text: &[u8]) -> Result<(), WriteFault>
    ensures ok { OnOk result (Appends (W.contents w.old) (W.contents w.new) (key.now ++ json_string text.now)) }
    ensures err { OnErr result (AppendsPart (W.contents w.old) (W.contents w.new) (key.now ++ json_string text.now)) }
{
    put(w, key)?;
    print_json_string(text, w)?;
    Ok(())
}

/// Writes a member whose value is a number, after `key`. Without a number there is no member.
pub fn put_number<W: Write>(w: &mut W, key: &[u8], number: Option<u64>) -> Result<(), WriteFault>
    ensures ok { OnOk result (Appends (W.contents w.old) (W.contents w.new) (number_member key.now number)) }
    ensures err { OnErr result (AppendsPart (W.contents w.old) (W.contents w.new) (number_member key.now number)) }
{
    match number {
        None => Ok(()),
        Some(number) => put_count(w, key, number),
    }
}

/// Writes a member whose value is a number, after `key`.
#[tactic(auto, using(text_output::proofs::Parts::written))]
pub fn put_count<W: Write>(w: &mut W, key: &[u8], number: u64) -> Result<(), WriteFault>
    ensures ok { OnOk result (Appends (W.contents w.old) (W.contents w.new) (key.now ++ decimal number)) }
    ensures err { OnErr result (AppendsPart (W.contents w.old) (W.contents w.new) (key.now ++ decimal number)) }
{
    put(w, key)?;
    put_digits(w, u128::from(number))?;
    Ok(())
}
