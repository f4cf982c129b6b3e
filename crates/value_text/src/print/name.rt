//! Prints names.
ghost use Rattle.std.specs.Prelude.{◌++◌, codes};
ghost use Rattle.value_text.specs.Puts.{Puts};
ghost use Rattle.value_text.specs.Lent.{lent_name};
ghost use Rattle.value_text.specs.ValueText.{title_text, name_text, comma};

use super::bytes::SHORT;
use super::printer::Printer;
use std::io::Write;

impl<W: Write> Printer<'_, W> {
    /// Writes the name of a struct or a union, or the word for its sort if it is nameless.
    #[inline(always)]
    pub fn put_title(&mut self, sort: &[u8], name: Option<&[u8]>)
        ensures { Puts W.contents self.old self.new (title_text sort.now (lent_name name.entry)) }
    {
        match name {
            Some(name) => self.put_word(name),
            None => self.put_word(sort),
        }
    }

    /// Writes a field's name, and a comma before it unless the field is the first. A nameless field has only the comma.
    #[inline(always)]
    pub fn put_start(&mut self, first: bool, name: Option<&[u8]>)
        ensures { Puts W.contents self.old self.new (comma first ++ name_text (lent_name name.entry)) }
    {
        match name {
            Some(name) => self.put_name(first, name),
            None => self.put_comma(first),
        }
    }

    #[tactic(auto, using(crate::proofs::Puts::puts))]
    #[inline(always)]
    fn put_name(&mut self, first: bool, name: &[u8])
        ensures { Puts W.contents self.old self.new (comma first ++ (name.now ++ codes "=")) }
    {
        if name.len() <= SHORT {
            return self.put_short_name(first, name);
        }
        self.put_comma(first);
        self.put(name);
        self.put(b"=");
    }

    /// Writes a comma, but not before the first.
    #[inline(always)]
    pub fn put_comma(&mut self, first: bool)
        ensures { Puts W.contents self.old self.new (comma first) }
    {
        if !first {
            self.put(b",");
        }
    }
}
