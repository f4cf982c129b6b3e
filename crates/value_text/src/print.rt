//! Prints mapped values.
mod bytes;
mod chars;
mod cut;
mod digits;
mod escape;
mod flat;
pub mod form;
mod json;
mod json_string;
pub mod line;
mod lines;
mod name;
mod number;
pub mod printer;
pub mod show;
mod steps;
mod string;
pub mod suffix;
mod tree;
mod value;

ghost use Rattle.std.specs.Prelude.{◌≡◌, OnOk, OnErr};
ghost use Rattle.std.specs.Io.KnownBytes.{Appends};
ghost use Rattle.value_store.specs.Refs.{value_shown};
ghost use Rattle.text_output.specs.Written.{AppendsPart};
ghost use Rattle.value_text.specs.Puts.{Puts};
ghost use Rattle.value_text.specs.Printed.{printed};
ghost use Rattle.value_text.specs.ShowParts.{shown_at, sight_of};
ghost use Rattle.value_text.specs.JsonText.{json_string};
ghost use Rattle.value_text.specs.Styled.{styled, with_chars_in, typed_printed};
ghost use Rattle.value_text.specs.Cells.{cell, typed_cell};
ghost use Rattle.value_text.specs.TypedValue.{typed_shown};

use crate::mode::Mode;
use crate::style::{Chars, Style};
use crate::typed::{Typed, Types};
use escape::Escapes;
use flat::Flat;
use json::Json;
pub use json_string::print_json_string;
use line::Line;
use printer::Printer;
use show::Sight;
use std::io::Write;
use text_output::write::WriteFault;
use value_store::ValueRef;

/// Prints a value in a mode. If the writer fails, what it accepted is the first bytes of the printed value, but not all
/// of them.
pub fn print<W: Write>(value: ValueRef<'_>, mode: Mode, w: &mut W) -> Result<(), WriteFault>
    ensures ok { OnOk result (Appends (W.contents w.old) (W.contents w.new) (printed mode (value_shown value.entry))) }
    ensures err { OnErr result
        (AppendsPart (W.contents w.old) (W.contents w.new) (printed mode (value_shown value.entry))) }
{
    let types = Types::none();
    print_styled(Typed::new(value, &types, None), mode, Style::plain(), w)
}

/// Prints a value beside its type, in a mode and a style. If the writer fails, what it accepted is the first bytes of
/// the printed value, but not all of them.
pub fn print_styled<W: Write>(
    value: Typed<'_>,
    mode: Mode,
    style: Style,
    w: &mut W,
) -> Result<(), WriteFault>
    ensures ok { OnOk result (Appends (W.contents w.old) (W.contents w.new) (typed_printed style mode value.entry)) }
    ensures err { OnErr result
        (AppendsPart (W.contents w.old) (W.contents w.new) (typed_printed style mode value.entry)) }
{
    let mut printer = Printer {
        writer: w,
        line: Line::new(),
        failed: false,
    };
    printer.put_printed(mode, style, with_chars(style.chars, value));
    printer.finish()
}

/// Prints a value beside its type for the eye. If the writer fails, what it accepted is the first bytes of the text, but
/// not all of them. The text may change between versions.
pub fn print_shown<W: Write>(
    value: Typed<'_>,
    sight: Sight<'_>,
    w: &mut W,
) -> Result<(), WriteFault>
    ensures ok { OnOk result
        (Appends (W.contents w.old) (W.contents w.new) (shown_at (sight_of sight.entry) value.entry)) }
    ensures err { OnErr result
        (AppendsPart (W.contents w.old) (W.contents w.new) (shown_at (sight_of sight.entry) value.entry)) }
{
    let mut printer = Printer {
        writer: w,
        line: Line::new(),
        failed: false,
    };
    printer.put_show(sight, value);
    printer.finish()
}

// The value with its type where its arrays of chars are texts, else without it.
fn with_chars(chars: Chars, value: Typed<'_>) -> Typed<'_>
    ensures { typed_shown result ≡ with_chars_in chars value.entry }
{
    match chars {
        Chars::Numbers => value.untyped(),
        Chars::Text => value,
    }
}

impl<W: Write> Printer<'_, W> {
    /// Puts what [`print_styled`] prints.
    pub fn put_typed(&mut self, mode: Mode, style: Style, value: Typed<'_>)
        ensures { Puts W.contents self.old self.new (typed_printed style mode value.entry) }
    {
        self.put_printed(mode, style, with_chars(style.chars, value))
    }

    /// Puts a cell of a table: what [`print_styled`] prints in JSON or, in any other mode, in flat, without the line feed at
    /// its end.
    pub fn put_cell(&mut self, mode: Mode, style: Style, value: Typed<'_>)
        ensures { Puts W.contents self.old self.new (typed_cell style mode value.entry) }
    {
        self.put_shown_cell(mode, style, with_chars(style.chars, value))
    }

    fn put_shown_cell(&mut self, mode: Mode, style: Style, value: Typed<'_>)
        ensures { Puts W.contents self.old self.new (cell style mode (typed_shown value.entry)) }
    {
        match mode {
            Mode::Json => self.put_value::<Json>(&style, &value),
            _ => self.put_value::<Flat>(&style, &value),
        }
    }

    /// Puts a string in JSON.
    pub fn put_json_string(&mut self, bytes: &[u8])
        ensures { Puts W.contents self.old self.new (json_string bytes.now) }
    {
        self.put_quoted(Escapes::Json, bytes)
    }

    fn put_printed(&mut self, mode: Mode, style: Style, value: Typed<'_>)
        ensures { Puts W.contents self.old self.new (styled style mode (typed_shown value.entry)) }
    {
        match mode {
            Mode::Flat => self.put_value_line::<Flat>(&style, &value),
            Mode::Tree => self.put_tree(&style, value),
            Mode::Json => self.put_value_line::<Json>(&style, &value),
            Mode::Lines => self.put_lines(&style, &value),
        }
    }
}
