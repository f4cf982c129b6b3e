//! The JSON object of a format that fits a file.

ghost use Rattle.std.specs.Prelude.{◌≡◌, decimal, OnOk, OnErr};
ghost use Rattle.std.specs.Io.KnownBytes.{Appends};
ghost use Rattle.text_output.specs.Written.{AppendsPart};
ghost use Rattle.identity_text.specs.Columns.{told};
ghost use Rattle.identity_text.specs.Objects.{endian_member, object, object_end, object_start};

use crate::row::Row;
use bit_space::Order;
use run_parts::lines::put_digits;
use std::io::Write;
use text_output::write::{WriteFault, put};
use value_text::print::print_json_string;

/// Writes the object of a format that fits. Its members are `format`, `type`, `endian`, `size`, which is that of the
/// value by which it fits, in bits, and `description`.
#[tactic(auto, using(text_output::proofs::Parts::written))]
pub fn put_object<W: Write>(w: &mut W, row: &Row<'_>) -> Result<(), WriteFault>
    ensures ok { OnOk result (Appends (W.contents w.old) (W.contents w.new) (object (told row.now))) }
    ensures err { OnErr result (AppendsPart (W.contents w.old) (W.contents w.new) (object (told row.now))) }
{
    put_start(w, row)?;
    put_end(w, row)?;
    Ok(())
}

#[tactic(auto, using(text_output::proofs::Parts::written))]
fn put_start<W: Write>(w: &mut W, row: &Row<'_>) -> Result<(), WriteFault>
    ensures ok { OnOk result (Appends (W.contents w.old) (W.contents w.new) (object_start (told row.now))) }
    ensures err { OnErr result (AppendsPart (W.contents w.old) (W.contents w.new) (object_start (told row.now))) }
{
    put(w, b"{\"format\":")?;
    print_json_string(row.name, w)?;
    put(w, b",\"type\":")?;
    print_json_string(row.type_name, w)?;
    put_endian(w, row.order)?;
    Ok(())
}

#[tactic(auto, using(text_output::proofs::Parts::written))]
fn put_end<W: Write>(w: &mut W, row: &Row<'_>) -> Result<(), WriteFault>
    ensures ok { OnOk result (Appends (W.contents w.old) (W.contents w.new) (object_end (told row.now))) }
    ensures err { OnErr result (AppendsPart (W.contents w.old) (W.contents w.new) (object_end (told row.now))) }
{
    put(w, b",\"size\":")?;
    put_size(w, row.size)?;
    put(w, b",\"description\":")?;
    print_json_string(row.sentence, w)?;
    put(w, b"}")?;
    Ok(())
}

fn put_size<W: Write>(w: &mut W, size: u64) -> Result<(), WriteFault>
    ensures ok { OnOk result (Appends (W.contents w.old) (W.contents w.new) (decimal size)) }
    ensures err { OnErr result (AppendsPart (W.contents w.old) (W.contents w.new) (decimal size)) }
{
    put_digits(w, u128::from(size))
}

fn put_endian<W: Write>(w: &mut W, order: Order) -> Result<(), WriteFault>
    ensures ok { OnOk result (Appends (W.contents w.old) (W.contents w.new) (endian_member order)) }
    ensures err { OnErr result (AppendsPart (W.contents w.old) (W.contents w.new) (endian_member order)) }
{
    match order {
        Order::Little => put(w, b",\"endian\":\"little\""),
        Order::Big => put(w, b",\"endian\":\"big\""),
    }
}
