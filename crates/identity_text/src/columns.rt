//! The columns of a format that fits a file.

ghost use Rattle.std.specs.Prelude.{◌≡◌, OnOk, OnErr};
ghost use Rattle.std.specs.Io.KnownBytes.{Appends};
ghost use Rattle.text_output.specs.Written.{AppendsPart};
ghost use Rattle.identity_text.specs.Columns.{columns, order_column, told};

use crate::row::Row;
use bit_space::Order;
use poke_batch::file_line::put_name;
use std::io::Write;
use text_output::write::{WriteFault, put};

/// Writes the columns of a format that fits: its name, its documented type and the byte order, with tabs between.
#[tactic(auto, using(text_output::proofs::Parts::written))]
pub fn put_columns<W: Write>(w: &mut W, row: &Row<'_>) -> Result<(), WriteFault>
    ensures ok { OnOk result (Appends (W.contents w.old) (W.contents w.new) (columns (told row.now))) }
    ensures err { OnErr result (AppendsPart (W.contents w.old) (W.contents w.new) (columns (told row.now))) }
{
    put_name(w, row.name)?;
    put(w, b"\t")?;
    put_name(w, row.type_name)?;
    put_order(w, row.order)?;
    Ok(())
}

fn put_order<W: Write>(w: &mut W, order: Order) -> Result<(), WriteFault>
    ensures ok { OnOk result (Appends (W.contents w.old) (W.contents w.new) (order_column order)) }
    ensures err { OnErr result (AppendsPart (W.contents w.old) (W.contents w.new) (order_column order)) }
{
    match order {
        Order::Little => put(w, b"\tlittle"),
        Order::Big => put(w, b"\tbig"),
    }
}
