//! A field of a struct or a union, as a JSON object.

ghost use Rattle.std.specs.Prelude.{OnOk, OnErr};
ghost use Rattle.std.specs.Io.KnownBytes.{Appends};
ghost use Rattle.text_output.specs.Written.{AppendsPart};
ghost use Rattle.pickle_json.specs.Fields.{name_start, field_json};

use crate::member::{put_number, put_string, put_text};
use pickle_source::anatomy::{bound, field_parts};
use pickle_source::script::{Script, TokenRange};
use std::io::Write;
use text_output::write::{WriteFault, put};

/// The texts of a field as the pickle has them. What the field doesn't have is empty.
#[derive(Clone, Copy)]
pub struct FieldTexts<'t> {
    pub name: &'t [u8],
    /// The type, with its array suffix.
    pub form: &'t [u8],
    /// `big` or `little`.
    pub order: &'t [u8],
    /// The expression in the array suffix.
    pub bound: &'t [u8],
    pub constraint: &'t [u8],
    pub label: &'t [u8],
    pub condition: &'t [u8],
    /// The width of each value in bits, where the type alone says it.
    pub width: Option<u64>,
}

impl<'t> FieldTexts<'t> {
    /// The texts of the field that some tokens are, without its `;`.
    pub fn of(script: &Script<'t>, whole: TokenRange, width: Option<u64>) -> FieldTexts<'t> {
        let parts = field_parts(script, whole);
        FieldTexts {
            name: script.slice(parts.name),
            form: script.slice(parts.form),
            order: script.slice(parts.order),
            bound: script.slice(bound(script, parts.form)),
            constraint: script.slice(parts.constraint),
            label: script.slice(parts.label),
            condition: script.slice(parts.condition),
            width,
        }
    }

    /// Writes the field as a JSON object: `{"name":"a","type":"byte","width":8,"constraint":"a < 3"}`. A field without a
    /// name has the name `null`. Of the other members there are those that the field has.
    #[tactic(auto, using(text_output::proofs::Parts::written))]
    pub fn put<W: Write>(&self, w: &mut W) -> Result<(), WriteFault>
        ensures ok { OnOk result (Appends (W.contents w.old) (W.contents w.new) (field_json self.now)) }
        ensures err { OnErr result (AppendsPart (W.contents w.old) (W.contents w.new) (field_json self.now)) }
    {
        put_name(w, self.name)?;
        put_string(w, b",\"type\":", self.form)?;
        put_text(w, b",\"order\":", self.order)?;
        put_number(w, b",\"width\":", self.width)?;
        put_text(w, b",\"bound\":", self.bound)?;
        put_text(w, b",\"constraint\":", self.constraint)?;
        put_text(w, b",\"label\":", self.label)?;
        put_text(w, b",\"condition\":", self.condition)?;
        put(w, b"}")?;
        Ok(())
    }
}

// Writes the start of a field's object, up to its name.
fn put_name<W: Write>(w: &mut W, name: &[u8]) -> Result<(), WriteFault>
    ensures ok { OnOk result (Appends (W.contents w.old) (W.contents w.new) (name_start name.now)) }
    ensures err { OnErr result (AppendsPart (W.contents w.old) (W.contents w.new) (name_start name.now)) }
{
    match name {
        [] => put(w, b"{\"name\":null"),
        _ => put_string(w, b"{\"name\":", name),
    }
}
