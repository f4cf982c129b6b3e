//! The most bytes of a printed value, from its type and the bits of the file alone.
ghost use Rattle.std.specs.Prelude.{IfOk};
ghost use Rattle.pickle_types.specs.Bounds.{IsBound};
ghost use Rattle.pickle_types.specs.TypeTable.{type_named, IsInTable};
ghost use Rattle.text_bounds.specs.TextRoom.{most_text, most_text_in_any, most_text_for};

use crate::form::Form;
use crate::nodes::type_size;
use crate::room::end_room;
use pickle_types::bounds::{greater_of, sum_of};
use pickle_types::table::{Table, TypeId};
use poke_batch::mode::Mode;
use std::alloc::{AllocError, Global};
use text_output::style::Style;

/// The most bytes of a printed value of a type over a file of `bits` bits in a style and a mode, the line feed at its end
/// included. `None` for 2^128 or more; `Memory` if an allocation fails.
#[tactic(auto, unfolding(crate::specs::TextRoom::most_text))]
pub fn most_text(
    alloc: Global,
    table: &Table,
    id: TypeId,
    bits: u64,
    style: Style,
    mode: Mode,
) -> Result<Option<u128>, AllocError>
    requires known { IsInTable table.now id }
    ensures { IfOk result (λ most. IsBound most (most_text style mode (type_named table.now id) bits)) }
{
    let form = Form { mode, style };
    let known = type_size(alloc, form, bits, table, id)?;
    Ok(sum_of(known.size.text, Some(end_room(mode))))
}

/// The same, the most in any mode.
#[tactic(auto, unfolding(crate::specs::TextRoom::most_text_in_any))]
pub fn most_text_in_any(
    alloc: Global,
    table: &Table,
    id: TypeId,
    bits: u64,
    style: Style,
) -> Result<Option<u128>, AllocError>
    requires known { IsInTable table.now id }
    ensures { IfOk result (λ most. IsBound most (most_text_in_any style (type_named table.now id) bits)) }
{
    let flat = most_text(alloc, table, id, bits, style, Mode::Flat)?;
    let tree = most_text(alloc, table, id, bits, style, Mode::Tree)?;
    let json = most_text(alloc, table, id, bits, style, Mode::Json)?;
    let lines = most_text(alloc, table, id, bits, style, Mode::Lines)?;
    Ok(greater_of(flat, greater_of(tree, greater_of(json, lines))))
}

/// The same in `mode` or, if that is `None`, the most in any mode.
pub fn most_text_for(
    alloc: Global,
    table: &Table,
    id: TypeId,
    bits: u64,
    style: Style,
    mode: Option<Mode>,
) -> Result<Option<u128>, AllocError>
    requires known { IsInTable table.now id }
    ensures { IfOk result (λ most. IsBound most (most_text_for style mode (type_named table.now id) bits)) }
{
    match mode {
        Some(mode) => most_text(alloc, table, id, bits, style, mode),
        None => most_text_in_any(alloc, table, id, bits, style),
    }
}
