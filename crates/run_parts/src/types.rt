//! The types that a pickle declares, with a line for each.

ghost use Rattle.std.specs.Prelude.{◌≡◌, OnOk, OnErr};
ghost use Rattle.std.specs.Io.KnownBytes.{Appends};
ghost use Rattle.pickle_types.specs.DeclaredTypes.{told_of};
ghost use Rattle.run_parts.specs.Outcomes.{EndsAs};
ghost use Rattle.run_parts.specs.Told.{Says};
ghost use Rattle.run_parts.specs.TypesText.{kind_column, width_number, width_text, type_line, told_lines, TypesAs};
ghost use Rattle.text_output.specs.Written.{AppendsPart};

use crate::accept::accept;
use crate::outcome::{Failure, Outcome};
use crate::status::Status;
use crate::tell::{answer, tell};
use itoa::Buffer;
use pickle_types::declared_types::{DeclaredType, TypeKind};
use std::alloc::Global;
use std::io::Write;
use text_output::write::{WriteFault, put};

/// Checks a pickle, and writes a line for each type that it declares, in the order of the declarations: its name, its
/// kind and the least width of its values, with a tab between them.
///
/// The kind is the word of the type's right side: `integer`, `offset`, `string`, `array`, `struct` or `union`. A type
/// that is declared as another name of a type has the kind of that type. The width is in bits, such as `48#b`, and from
/// 2^64 bits on `more than 2^64-1#b`. Lines and words are this project's profile.
pub fn run_types<O: Write, E: Write>(
    alloc: Global,
    pickle: &[u8],
    out: &mut O,
    err: &mut E,
) -> Status
    ensures { Says (TypesAs pickle.now) result
        (O.contents out.old) (O.contents out.new) (E.contents err.old) (E.contents err.new) }
{
    tell(types_outcome(alloc, pickle, out), err)
}

/// Does what [`run_types`] does, and returns the outcome in place of writing its line.
pub fn types_outcome<O: Write>(alloc: Global, pickle: &[u8], out: &mut O) -> Outcome
    ensures { EndsAs (TypesAs pickle.now) result (O.contents out.old) (O.contents out.new) }
{
    let table = match accept(alloc, pickle) {
        Ok(table) => table,
        Err(refusal) => return Outcome::Refused(refusal),
    };
    match table.declared_types(alloc) {
        Ok(types) => answer(put_types(out, types.as_slice())),
        Err(_) => Outcome::Failed(Failure::Memory),
    }
}

fn put_types<W: Write>(w: &mut W, types: &[DeclaredType<'_>]) -> Result<(), WriteFault>
    ensures ok { OnOk result (Appends (W.contents w.old) (W.contents w.new) (told_lines types.now)) }
    ensures err { OnErr result (AppendsPart (W.contents w.old) (W.contents w.new) (told_lines types.now)) }
{
    let mut done = 0;
    while done < types.len() {
        put_type(w, &types[done])?;
        done += 1;
    }
    Ok(())
}

#[tactic(auto, using(text_output::proofs::Parts::written), unfolding(crate::specs::TypesText::type_line))]
fn put_type<W: Write>(w: &mut W, told: &DeclaredType<'_>) -> Result<(), WriteFault>
    ensures ok { OnOk result (Appends (W.contents w.old) (W.contents w.new) (type_line (told_of told.now))) }
    ensures err { OnErr result (AppendsPart (W.contents w.old) (W.contents w.new) (type_line (told_of told.now))) }
{
    put(w, told.name)?;
    put(w, column(told.kind))?;
    put_width(w, told.least)?;
    Ok(())
}

fn column(kind: TypeKind) -> &'static [u8]
    ensures { result.now ≡ kind_column kind }
{
    match kind {
        TypeKind::Integer => b"\tinteger\t",
        TypeKind::Offset => b"\toffset\t",
        TypeKind::String => b"\tstring\t",
        TypeKind::Array => b"\tarray\t",
        TypeKind::Struct => b"\tstruct\t",
        TypeKind::Union => b"\tunion\t",
    }
}

#[tactic(auto, using(text_output::proofs::Parts::written), unfolding(crate::specs::TypesText::width_text))]
fn put_width<W: Write>(w: &mut W, width: Option<u64>) -> Result<(), WriteFault>
    ensures ok { OnOk result (Appends (W.contents w.old) (W.contents w.new) (width_text width)) }
    ensures err { OnErr result (AppendsPart (W.contents w.old) (W.contents w.new) (width_text width)) }
{
    put_number(w, width)?;
    put(w, b"#b\n")?;
    Ok(())
}

fn put_number<W: Write>(w: &mut W, width: Option<u64>) -> Result<(), WriteFault>
    ensures ok { OnOk result (Appends (W.contents w.old) (W.contents w.new) (width_number width)) }
    ensures err { OnErr result (AppendsPart (W.contents w.old) (W.contents w.new) (width_number width)) }
{
    match width {
        Some(bits) => put(w, Buffer::new().format(bits).as_bytes()),
        None => put(w, b"more than 2^64-1"),
    }
}
