//! The types that a pickle declares, as JSON objects.

ghost use Rattle.std.specs.Prelude.{◌≡◌, ◌++◌, ℕ, map, OnOk, OnErr};
ghost use Rattle.std.specs.Io.KnownBytes.{Appends};
ghost use Rattle.pickle_types.specs.DeclaredTypes.{told_of};
ghost use Rattle.run_parts.specs.Outcomes.{EndsAs};
ghost use Rattle.text_output.specs.Written.{AppendsPart};
ghost use Rattle.value_text.specs.ValueText.{comma};
ghost use Rattle.pickle_json.specs.Fields.{WritesFields, WritesFieldsPart, WritesMember, WritesMemberPart, field_json};
ghost use Rattle.pickle_json.specs.TypeObjects.{IsRefusedFor, TypesInJson, WritesObject, WritesObjectPart, WritesObjects, WritesObjectsPart, kind_member, type_start};

use crate::field::FieldTexts;
use crate::member::{put_number, put_string};
use pickle_source::anatomy::{braces, statement};
use pickle_source::script::{Script, TokenRange};
use pickle_types::declared_types::{DeclaredType, TypeKind};
use pickle_types::table::Table;
use pickle_types::view::{Node, Shape, part_node};
use run_parts::accept::accept;
use run_parts::outcome::{Failure, Outcome};
use run_parts::tell::answer;
use std::alloc::Global;
use std::io::Write;
use text_output::write::{WriteFault, put};

/// Checks a pickle, and writes a JSON object for each type that it declares, on a line, in the order of the declarations.
///
/// Its members are `name`, `kind` (as [`run_types`](run_parts::types::run_types) prints it), `least`, the least width of
/// its values in bits if that is below 2^64, and `text`, the declaration as the pickle has it, without the `;`. A struct or
/// a union that is declared with braces has `fields`, an object for each.
pub fn types_outcome<O: Write>(alloc: Global, pickle: &[u8], out: &mut O) -> Outcome
    ensures ends { EndsAs (TypesInJson pickle.now) result (O.contents out.old) (O.contents out.new) }
    ensures refused { IsRefusedFor pickle.now result }
{
    let table = match accept(alloc, pickle) {
        Ok(table) => table,
        Err(refusal) => return Outcome::Refused(refusal),
    };
    let Some(script) = Script::new(alloc, pickle) else {
        return Outcome::Failed(Failure::Memory);
    };
    match table.declared_types(alloc) {
        Ok(types) => answer(put_types(out, &script, &table, types.as_slice())),
        Err(_) => Outcome::Failed(Failure::Memory),
    }
}

// Writes an object for each type, on a line.
fn put_types<W: Write>(
    w: &mut W,
    script: &Script<'_>,
    table: &Table,
    types: &[DeclaredType<'_>],
) -> Result<(), WriteFault>
    ensures ok { OnOk result (WritesObjects (map told_of types.now) (W.contents w.old) (W.contents w.new)) }
    ensures err { OnErr result (WritesObjectsPart (map told_of types.now) (W.contents w.old) (W.contents w.new)) }
{
    let mut done = 0;
    let mut first = 0;
    while done < types.len() {
        let whole = statement(script, first, script.len());
        put_type(w, script, table, &types[done], whole)?;
        first = whole.end.saturating_add(1);
        done += 1;
    }
    Ok(())
}

// Writes the object of a type, whose declaration is some tokens.
fn put_type<W: Write>(
    w: &mut W,
    script: &Script<'_>,
    table: &Table,
    told: &DeclaredType<'_>,
    whole: TokenRange,
) -> Result<(), WriteFault>
    ensures ok { OnOk result (WritesObject (told_of told.now) (W.contents w.old) (W.contents w.new)) }
    ensures err { OnErr result (WritesObjectPart (told_of told.now) (W.contents w.old) (W.contents w.new)) }
{
    put_start(w, told, script.slice(whole))?;
    put_declared(w, script, table, told, whole)?;
    put(w, b"}\n")?;
    Ok(())
}

// Writes the members of a type before its fields.
#[tactic(auto, using(text_output::proofs::Parts::written))]
fn put_start<W: Write>(w: &mut W, told: &DeclaredType<'_>, text: &[u8]) -> Result<(), WriteFault>
    ensures ok { OnOk result (Appends (W.contents w.old) (W.contents w.new) (type_start (told_of told.now) text.now)) }
    ensures err { OnErr result
        (AppendsPart (W.contents w.old) (W.contents w.new) (type_start (told_of told.now) text.now)) }
{
    put_string(w, b"{\"name\":", told.name)?;
    put_kind(w, told.kind)?;
    put_number(w, b",\"least\":", told.least)?;
    put_string(w, b",\"text\":", text)?;
    Ok(())
}

// Writes the member with the word of a kind.
fn put_kind<W: Write>(w: &mut W, kind: TypeKind) -> Result<(), WriteFault>
    ensures ok { OnOk result (Appends (W.contents w.old) (W.contents w.new) (kind_member kind)) }
    ensures err { OnErr result (AppendsPart (W.contents w.old) (W.contents w.new) (kind_member kind)) }
{
    put(w, kind_member(kind))
}

fn kind_member(kind: TypeKind) -> &'static [u8]
    ensures { result.now ≡ kind_member kind }
{
    match kind {
        TypeKind::Integer => b",\"kind\":\"integer\"",
        TypeKind::Offset => b",\"kind\":\"offset\"",
        TypeKind::String => b",\"kind\":\"string\"",
        TypeKind::Array => b",\"kind\":\"array\"",
        TypeKind::Struct => b",\"kind\":\"struct\"",
        TypeKind::Union => b",\"kind\":\"union\"",
    }
}

// Writes the member with the fields of a type, if its declaration has braces.
fn put_declared<W: Write>(
    w: &mut W,
    script: &Script<'_>,
    table: &Table,
    told: &DeclaredType<'_>,
    whole: TokenRange,
) -> Result<(), WriteFault>
    ensures ok { OnOk result (WritesMember (W.contents w.old) (W.contents w.new)) }
    ensures err { OnErr result (WritesMemberPart (W.contents w.old) (W.contents w.new)) }
{
    match fields_of(script, told.kind, whole) {
        None => Ok(()),
        Some(inside) => put_fields(w, script, inside, table.nodes(), node_of(table, told.name)),
    }
}

// The tokens between the braces of a declared struct or union.
fn fields_of(script: &Script<'_>, kind: TypeKind, whole: TokenRange) -> Option<TokenRange> {
    let form = TokenRange {
        first: whole.first.saturating_add(3),
        end: whole.end,
    };
    match kind {
        TypeKind::Struct | TypeKind::Union => braces(script, form),
        TypeKind::Integer | TypeKind::Offset | TypeKind::String | TypeKind::Array => None,
    }
}

// Writes the member with the fields between braces. `of` is the node of their struct or union.
fn put_fields<W: Write>(
    w: &mut W,
    script: &Script<'_>,
    inside: TokenRange,
    nodes: &[Node],
    of: usize,
) -> Result<(), WriteFault>
    ensures ok { OnOk result (WritesMember (W.contents w.old) (W.contents w.new)) }
    ensures err { OnErr result (WritesMemberPart (W.contents w.old) (W.contents w.new)) }
{
    put(w, b",\"fields\":[")?;
    put_each(w, script, inside, nodes, of)?;
    put(w, b"]")?;
    Ok(())
}

// Writes an object for each field between braces, with commas between them.
fn put_each<W: Write>(
    w: &mut W,
    script: &Script<'_>,
    inside: TokenRange,
    nodes: &[Node],
    of: usize,
) -> Result<(), WriteFault>
    ensures ok { OnOk result ((count : ℕ) × WritesFields count (W.contents w.old) (W.contents w.new)) }
    ensures err { OnErr result (WritesFieldsPart (W.contents w.old) (W.contents w.new)) }
{
    let mut first = inside.first;
    let mut place = 0;
    while first < inside.end {
        let whole = statement(script, first, inside.end);
        put_field(
            w,
            place == 0,
            &FieldTexts::of(script, whole, width_of(nodes, of, place)),
        )?;
        first = whole.end.max(first).saturating_add(1);
        place += 1;
    }
    Ok(())
}

#[tactic(auto, using(text_output::proofs::Parts::written))]
fn put_field<W: Write>(w: &mut W, first: bool, field: &FieldTexts<'_>) -> Result<(), WriteFault>
    ensures ok { OnOk result (Appends (W.contents w.old) (W.contents w.new) (comma first ++ field_json field.now)) }
    ensures err { OnErr result
        (AppendsPart (W.contents w.old) (W.contents w.new) (comma first ++ field_json field.now)) }
{
    put(w, separator(first))?;
    field.put(w)?;
    Ok(())
}

// A comma, but not before the first.
fn separator(first: bool) -> &'static [u8]
    ensures { result.now ≡ comma first }
{
    if first { b"" } else { b"," }
}

// The node of a declared type, or one past the nodes.
fn node_of(table: &Table, name: &[u8]) -> usize {
    match table.find(name) {
        Some(id) => id.node(),
        None => table.nodes().len(),
    }
}

// The width in bits of a field, where its type is read as one number.
fn width_of(nodes: &[Node], of: usize, place: usize) -> Option<u64> {
    let node = nodes.get(part_node(nodes, of, place)?)?;
    match &node.shape {
        Shape::Integer(number) | Shape::Offset(number, _) | Shape::Integral { number, .. } => {
            Some(u64::from(number.width))
        }
        Shape::String | Shape::Array(_, _) | Shape::Struct { .. } | Shape::Union { .. } => None,
    }
}
