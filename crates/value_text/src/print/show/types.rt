//! Writes the words of types.
ghost use Rattle.std.specs.Prelude.{◌≡◌, ◌++◌, codes, decimal, slice_get};
ghost use Rattle.pickle_types.specs.Table.{name_of};
ghost use Rattle.value_text.specs.Puts.{Puts};
ghost use Rattle.value_text.specs.TypedValue.{nodes_in, char_node_in};
ghost use Rattle.value_text.specs.ShowParts.{known_of};
ghost use Rattle.value_text.specs.ValueText.{title_text};
ghost use Rattle.value_text.specs.TypeWords.{sign_word, integer_word, is_byte, number_word, offset_word, is_letter, shape_word, found_word, node_word};

use super::super::printer::Printer;
use crate::typed::Types;
use pickle_types::integer::IntegerType;
use pickle_types::view::{Name, Shape};
use std::io::Write;

impl<W: Write> Printer<'_, W> {
    /// Writes the word of the type at a node, with at most so many levels of arrays inside one another.
    #[tactic(auto, unfolding(crate::specs::TypeWords::node_word))]
    #[cycle(words)]
    pub fn put_node_word(&mut self, levels: u32, types: &Types<'_>, of: usize)
        ensures { Puts W.contents self.old self.new (node_word levels (known_of types.now) of) }
    {
        if levels == 0 {
            self.put(b"..")
        } else if is_letter(types, of) {
            self.put(b"char")
        } else {
            self.put_found_word(levels - 1, types, of)
        }
    }

    #[inline(always)]
    #[cycle(words)]
    fn put_found_word(&mut self, levels: u32, types: &Types<'_>, of: usize)
        ensures { Puts W.contents self.old self.new
            (found_word (node_word levels (known_of types.now)) (slice_get (nodes_in types.now) of)) }
    {
        match types.nodes().get(of) {
            Some(node) => self.put_shape_word(levels, types, &node.shape),
            None => {}
        }
    }

    #[inline(always)]
    #[cycle(words)]
    fn put_shape_word(&mut self, levels: u32, types: &Types<'_>, shape: &Shape)
        ensures { Puts W.contents self.old self.new (shape_word (node_word levels (known_of types.now)) shape.now) }
    {
        match shape {
            Shape::Integer(ty) => self.put_number_word(*ty),
            Shape::Offset(ty, unit) => self.put_offset_word(*ty, *unit),
            Shape::String => self.put(b"string"),
            Shape::Array(of, _) => self.put_list_word(levels, types, *of),
            Shape::Struct { name, .. } => self.put_sort(b"struct", name),
            Shape::Integral { name, number, .. } => self.put_integral_word(name, *number),
            Shape::Union { name, .. } => self.put_sort(b"union", name),
        }
    }

    #[tactic(auto, using(crate::proofs::Puts::puts))]
    #[cycle(words)]
    fn put_list_word(&mut self, levels: u32, types: &Types<'_>, of: usize)
        ensures { Puts W.contents self.old self.new (node_word levels (known_of types.now) of ++ codes "[]") }
    {
        self.put_node_word(levels, types, of);
        self.put(b"[]");
    }

    fn put_sort(&mut self, sort: &[u8], name: &Option<Name>)
        ensures { Puts W.contents self.old self.new (title_text sort.now (name_of name.now)) }
    {
        match name {
            Some(name) => self.put_word(name.as_slice()),
            None => self.put_word(sort),
        }
    }

    #[tactic(auto, using(crate::proofs::Puts::puts))]
    fn put_integral_word(&mut self, name: &Option<Name>, ty: IntegerType)
        ensures { Puts W.contents self.old self.new
            (title_text (codes "struct") (name_of name.now) ++ (codes " " ++ integer_word ty)) }
    {
        self.put_sort(b"struct", name);
        self.put(b" ");
        self.put_integer_word(ty);
    }

    #[inline(always)]
    fn put_number_word(&mut self, ty: IntegerType)
        ensures { Puts W.contents self.old self.new (number_word ty) }
    {
        if ty.width == 8 && !ty.signed {
            self.put(b"byte")
        } else {
            self.put_integer_word(ty)
        }
    }

    #[tactic(auto, using(crate::proofs::Puts::puts))]
    fn put_integer_word(&mut self, ty: IntegerType)
        ensures { Puts W.contents self.old self.new (integer_word ty) }
    {
        self.put(sign_word(ty.signed));
        self.put_digits(u32::from(ty.width));
        self.put(b">");
    }

    #[tactic(auto, using(crate::proofs::Puts::puts))]
    fn put_offset_word(&mut self, ty: IntegerType, unit: u32)
        ensures { Puts W.contents self.old self.new (offset_word ty unit) }
    {
        self.put(b"offset<");
        self.put_integer_word(ty);
        self.put(b",");
        self.put_unit(unit);
        self.put(b">");
    }
}

// Whether a node is that of `char`.
#[inline(always)]
fn is_letter(types: &Types<'_>, of: usize) -> bool
    ensures { result ≡ is_letter (char_node_in types.now) of }
{
    match types.char_node() {
        Some(letters) => of == letters,
        None => false,
    }
}

fn sign_word(signed: bool) -> &'static [u8]
    ensures { result.now ≡ sign_word signed }
{
    if signed { b"int<" } else { b"uint<" }
}
