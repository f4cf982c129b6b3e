//! The escapes of strings.
ghost use Rattle.std.specs.Prelude.{◌++◌, false};
ghost use Rattle.value_text.specs.Puts.{Puts};
ghost use Rattle.value_text.specs.ValueText.{escape_text};
ghost use Rattle.value_text.specs.JsonText.{json_escape};
ghost use Rattle.value_text.specs.Escaped.{escape_of};

use super::printer::Printer;
use crate::hex::hex_digit;
use std::io::Write;

/// The language whose escapes are written.
#[derive(Clone, Copy)]
pub enum Escapes {
    Poke,
    Json,
}

impl<W: Write> Printer<'_, W> {
    /// Writes a byte as an escape.
    pub fn put_escape(&mut self, escapes: Escapes, byte: u8)
        ensures { Puts W.contents self.old self.new (escape_of escapes byte) }
    {
        match escapes {
            Escapes::Poke => self.put_poke_escape(byte),
            Escapes::Json => self.put_json_escape(byte),
        }
    }

    fn put_poke_escape(&mut self, byte: u8)
        ensures { Puts W.contents self.old self.new (escape_text byte) }
    {
        match byte {
            b'\\' => self.put(b"\\\\"),
            b'"' => self.put(b"\\\""),
            b'\n' => self.put(b"\\n"),
            b'\t' => self.put(b"\\t"),
            _ => self.put(&[b'\\', b'x', hex_digit(byte >> 4), hex_digit(byte & 15)]),
        }
    }

    fn put_json_escape(&mut self, byte: u8)
        ensures { Puts W.contents self.old self.new (json_escape byte) }
    {
        match byte {
            b'\\' => self.put(b"\\\\"),
            b'"' => self.put(b"\\\""),
            b'\t' => self.put(b"\\t"),
            b'\n' => self.put(b"\\n"),
            _ => self.put(&[
                b'\\',
                b'u',
                b'0',
                b'0',
                hex_digit((byte >> 4) & 15),
                hex_digit(byte & 15),
            ]),
        }
    }
}
