//! Writes the type of a value after its name.
ghost use Rattle.std.specs.Prelude.{◌++◌};
ghost use Rattle.pickle_types.specs.NodeParts.{node_part};
ghost use Rattle.value_store.specs.Refs.{value_shown};
ghost use Rattle.text_output.specs.Brackets.{in_brackets};
ghost use Rattle.value_text.specs.Puts.{Puts};
ghost use Rattle.value_text.specs.TypedValue.{nodes_in, node_in, mapped_in};
ghost use Rattle.value_text.specs.ShowText.{dim_start, dim_end};
ghost use Rattle.value_text.specs.ShowParts.{known_of, known_in, type_at, known_type, bare_type, inner_type, known_at, counted, titled};
ghost use Rattle.value_text.specs.TypeWords.{some_word};

use super::super::printer::Printer;
use crate::typed::{Typed, Types};
use pickle_types::view::part_node;
use std::io::Write;
use text_output::style::Look;
use value_store::{Kind, ValueRef};

/// How many levels of arrays a word for a type has at most.
const LEVELS: u32 = 8;

impl<W: Write> Printer<'_, W> {
    /// Writes the type of a value. `inner` is whether it is an element, whose type its array names.
    #[inline(always)]
    pub fn put_type(&mut self, look: Look, inner: bool, value: Typed<'_>)
        ensures { Puts W.contents self.old self.new
            (type_at look.dim (known_in value.entry) inner (node_in value.entry) (mapped_in value.entry)) }
    {
        if inner {
            return self.put_inner_type(look.dim, value.value());
        }
        match value.node() {
            Some(of) => self.put_known_type(look.dim, value.types(), of, value.value()),
            None => self.put_bare_type(look.dim, value.value()),
        }
    }

    #[tactic(auto, using(crate::proofs::ShowTypes::by_inner))]
    #[inline(always)]
    fn put_inner_type(&mut self, dim: bool, value: ValueRef<'_>)
        ensures { Puts W.contents self.old self.new (inner_type dim (value_shown value.entry)) }
    {
        match value.kind() {
            Kind::Array => self.put_counted(dim, value.len()),
            _ => {}
        }
    }

    #[tactic(auto, using(crate::proofs::ShowTypes::by_bare))]
    fn put_bare_type(&mut self, dim: bool, value: ValueRef<'_>)
        ensures { Puts W.contents self.old self.new (bare_type dim (value_shown value.entry)) }
    {
        match value.kind() {
            Kind::Integer | Kind::Offset | Kind::Text => {}
            Kind::Array => self.put_counted(dim, value.len()),
            Kind::Struct => self.put_titled_cell(dim, b"struct", value.type_name()),
            Kind::Union => self.put_titled_cell(dim, b"union", value.type_name()),
        }
    }

    #[tactic(auto, using(crate::proofs::Puts::puts))]
    fn put_counted(&mut self, dim: bool, count: usize)
        ensures { Puts W.contents self.old self.new (counted dim count) }
    {
        self.put(b" ");
        self.put_dim_start(dim);
        self.put_in_brackets(count);
        self.put_dim_end(dim);
    }

    #[tactic(auto, using(crate::proofs::Puts::puts))]
    fn put_titled_cell(&mut self, dim: bool, sort: &[u8], name: Option<&[u8]>)
        ensures { Puts W.contents self.old self.new (titled dim sort.now name.entry) }
    {
        self.put(b" ");
        self.put_dim_start(dim);
        self.put_title(sort, name);
        self.put_dim_end(dim);
    }

    #[tactic(auto, using(crate::proofs::Puts::puts))]
    #[inline(never)]
    fn put_known_type(&mut self, dim: bool, types: &Types<'_>, of: usize, value: ValueRef<'_>)
        ensures { Puts W.contents self.old self.new (known_type dim (known_of types.now) of (value_shown value.entry)) }
    {
        self.put(b" ");
        self.put_dim_start(dim);
        self.put_known_word(types, of, value);
        self.put_dim_end(dim);
    }

    #[inline(always)]
    fn put_dim_start(&mut self, dim: bool)
        ensures { Puts W.contents self.old self.new (dim_start dim) }
    {
        if dim {
            self.put(b"\x1b[2m");
        }
    }

    #[inline(always)]
    fn put_dim_end(&mut self, dim: bool)
        ensures { Puts W.contents self.old self.new (dim_end dim) }
    {
        if dim {
            self.put(b"\x1b[22m");
        }
    }

    #[tactic(auto, using(crate::proofs::ShowTypes::by_known))]
    #[inline(always)]
    fn put_known_word(&mut self, types: &Types<'_>, of: usize, value: ValueRef<'_>)
        ensures { Puts W.contents self.old self.new (known_at (known_of types.now) of (value_shown value.entry)) }
    {
        match value.kind() {
            Kind::Array => self.put_array_word(types, of, value.len()),
            _ => self.put_node_word(LEVELS, types, of),
        }
    }

    #[tactic(auto, using(crate::proofs::Puts::puts))]
    fn put_array_word(&mut self, types: &Types<'_>, of: usize, count: usize)
        ensures { Puts W.contents self.old self.new
            (some_word (known_of types.now) (node_part (nodes_in types.now) of 0) ++ in_brackets count) }
    {
        self.put_some_word(types, part_node(types.nodes(), of, 0));
        self.put_in_brackets(count);
    }

    fn put_some_word(&mut self, types: &Types<'_>, of: Option<usize>)
        ensures { Puts W.contents self.old self.new (some_word (known_of types.now) of) }
    {
        match of {
            Some(of) => self.put_node_word(LEVELS, types, of),
            None => {}
        }
    }
}
