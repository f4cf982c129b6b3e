//! The sizes of types, computed from the sizes of the types that they are made of.
ghost use Rattle.std.specs.Prelude.{◌≡◌, ℕ, ◌+◌, ◌||◌};
ghost use Rattle.pickle_types.specs.Sound.{IsWidth};
ghost use Rattle.pickle_types.specs.Table.{name_of, optional_term};
ghost use Rattle.pickle_types.specs.Types.{Bound, PokeType, IntegerOf, OffsetOf, StringOf, ArrayOf, StructOf, IntegralOf, UnionOf, Fields, NoFields, Parts, NoParts};
ghost use Rattle.pickle_types.specs.Bounds.{is_some};
ghost use Rattle.text_bounds.specs.TextRoom.{Size, rooms_of, rooms_in, moved, more_size, elements_size, or_text, text_size};
ghost use Rattle.text_bounds.specs.TextHeld.{HoldsSize, AreSizes, AreFieldSizes, ArePartSizes, JoinsField, JoinsPart, HoldsLeast};

use super::form::Form;
use super::room::{
    array_room, element_before, element_moves, escape_room, field_before, field_moves,
    integer_room, line_room, more_room, offset_room, string_room, titled_room,
};
use super::size::{TextSize, both, greater, move_part, no_size, repeat, times, with_parts};
use pickle_types::bounds::{
    elements, greater_width, least_before, least_present, lesser_width, sum_of, width_sum,
};
use pickle_types::integer::IntegerType;
use pickle_types::view::{Field, Name, Part};
use poke_batch::mode::Mode;
use text_output::style::Chars;

/// The least width of a type in bits, `None` for 2^64 or more, and the size of its printed values.
#[derive(Clone, Copy, Default)]
pub struct NodeSize {
    /// The least width.
    pub least: Option<u64>,
    /// The size of the printed values.
    pub size: TextSize,
}

/// What is known of the last fields of a struct. A width is in bits, and `None` for 2^64 or more.
#[derive(Clone, Copy)]
pub struct FieldSizes {
    /// The least width if the fields are one after another.
    pub sum: Option<u64>,
    /// The least width if the fields may overlap.
    pub greatest: Option<u64>,
    /// Whether one of the fields has a label.
    pub has_label: bool,
    /// The size of the printed fields.
    pub size: TextSize,
}

/// What is known of the last alternatives of a union, or the last fields of an integral struct. A width is in bits, and
/// `None` for 2^64 or more.
#[derive(Clone, Copy)]
pub struct PartSizes {
    /// Whether there are none.
    pub is_empty: bool,
    /// The least width of one of them, 0 if there are none.
    pub least: Option<u64>,
    /// The size if all of them are printed.
    pub all: TextSize,
    /// The size if one of them is printed.
    pub greatest: TextSize,
}

/// The sizes of no fields.
#[tactic(auto, unfolding(pickle_types::specs::Bounds::least_width, crate::specs::TextRoom::size_of))]
pub fn no_fields() -> FieldSizes
    ensures { (form : Form) (place m : ℕ) → AreFieldSizes result form place NoFields m }
{
    FieldSizes {
        sum: Some(0),
        greatest: Some(0),
        has_label: false,
        size: no_size(),
    }
}

/// The sizes of no parts.
#[tactic(auto, unfolding(pickle_types::specs::Bounds::least_width, crate::specs::TextRoom::size_of))]
pub fn no_parts() -> PartSizes
    ensures { (form : Form) (place m : ℕ) → ArePartSizes result form place NoParts m }
{
    PartSizes {
        is_empty: true,
        least: Some(0),
        all: no_size(),
        greatest: no_size(),
    }
}

/// The sizes of a field and of those after it.
#[tactic(auto, unfolding(pickle_types::specs::Bounds::least_width, crate::specs::TextRoom::size_of))]
pub fn field_and_rest(
    form: Form,
    place: usize,
    field: &Field,
    own: NodeSize,
    rest: FieldSizes,
) -> FieldSizes
    ensures { JoinsField form place field.now own rest result }
{
    let least = least_present(own.least, &field.condition);
    let sum = width_sum(least, rest.sum);
    let greatest = greater_width(least, rest.greatest);
    let has_label = is_labelled(field, rest.has_label);
    let size = both(
        place_part(form.mode, place, &field.name, own.size),
        rest.size,
    );
    FieldSizes {
        sum,
        greatest,
        has_label,
        size,
    }
}

/// Whether a field, or one of those after it, has a label.
fn is_labelled(field: &Field, rest: bool) -> bool
    ensures { result ≡ (is_some (optional_term field.now.label) || rest) }
{
    field.label.is_some() || rest
}

/// The sizes of a part and of those after it.
#[tactic(auto, unfolding(pickle_types::specs::Bounds::least_width, crate::specs::TextRoom::size_of))]
pub fn part_and_rest(
    form: Form,
    place: usize,
    part: &Part,
    own: NodeSize,
    rest: PartSizes,
) -> PartSizes
    ensures { JoinsPart form place part.now own rest result }
{
    let least = least_before(own.least, rest.least, rest.is_empty);
    let all = both(place_part(form.mode, place, &part.name, own.size), rest.all);
    let greatest = greater(
        place_part(form.mode, 0, &part.name, own.size),
        rest.greatest,
    );
    PartSizes {
        is_empty: false,
        least,
        all,
        greatest,
    }
}

/// The size of a part with what is before it.
fn place_part(mode: Mode, place: usize, name: &Option<Name>, part: TextSize) -> TextSize
    ensures { let name = name_of name.now in (size : Size) → HoldsSize part size
        → HoldsSize result
        (moved ((rooms_of mode).field_before name place) ((rooms_of mode).field_moves name place) size) }
{
    let before = field_before(mode, name, place);
    let moves = field_moves(mode, name, place);
    move_part(before, moves, part)
}

/// The sizes of an integer of a type, in a file of so many bits.
#[tactic(auto, unfolding(pickle_types::specs::Bounds::least_width, crate::specs::TextRoom::size_of))]
pub fn integer_size(form: Form, bits: u64, ty: IntegerType) -> NodeSize
    requires width { IsWidth ty }
    ensures { AreSizes result form (IntegerOf ty) bits }
{
    let width = u64::from(ty.width);
    let own = integer_room(form, ty) + line_room(form.mode, bits, width);
    NodeSize {
        least: Some(width),
        size: with_parts(form.mode, Some(own), no_size()),
    }
}

/// The sizes of an offset whose magnitude has a type, with its unit in bits.
#[tactic(auto, unfolding(pickle_types::specs::Bounds::least_width, crate::specs::TextRoom::size_of))]
pub fn offset_size(form: Form, bits: u64, ty: IntegerType, unit: u32) -> NodeSize
    requires width { IsWidth ty }
    ensures { AreSizes result form (OffsetOf ty unit) bits }
{
    let width = u64::from(ty.width);
    let own = offset_room(form, ty, unit) + line_room(form.mode, bits, width);
    NodeSize {
        least: Some(width),
        size: with_parts(form.mode, Some(own), no_size()),
    }
}

/// The sizes of a string, which has at most the bits of the file.
#[tactic(auto, unfolding(pickle_types::specs::Bounds::least_width, crate::specs::TextRoom::size_of))]
pub fn string_size(form: Form, bits: u64) -> NodeSize
    ensures { AreSizes result form StringOf bits }
{
    let own = string_room(form.mode, bits) + line_room(form.mode, bits, bits);
    NodeSize {
        least: Some(8),
        size: with_parts(form.mode, Some(own), no_size()),
    }
}

/// The sizes of an array, from those of an element. It has as many elements as fit into the file's bits.
#[tactic(auto, unfolding(pickle_types::specs::Bounds::least_width, crate::specs::TextRoom::size_of))]
pub fn array_size(form: Form, bits: u64, element: NodeSize) -> NodeSize
    ensures { (type : PokeType) (bound : Bound) → AreSizes element form type bits
        → AreSizes result form (ArrayOf type bound) bits }
{
    let mode = form.mode;
    let count = elements(bits, element.least);
    let own = array_room(mode, count) + line_room(mode, bits, bits);
    let before = element_before(mode, count);
    let moves = element_moves(mode, count);
    let parts = elements_size(form, bits, count, move_part(before, moves, element.size));
    let array = with_parts(mode, Some(own), parts);
    NodeSize {
        least: Some(0),
        size: or_text(form, bits, count, array),
    }
}

/// The size of the elements of an array, of which a style may leave some out. One always counts, since it may be
/// requested.
fn elements_size(form: Form, bits: u64, count: u128, each: TextSize) -> TextSize
    ensures { (n : ℕ) (size : Size) → count ≡ n → HoldsSize each size
        → HoldsSize result (elements_size (rooms_in form) form.style.elements bits n size) }
{
    match form.style.elements {
        None => repeat(count, each),
        Some(most) => {
            let printed = count.min(u128::from(most.max(1)));
            both(repeat(printed, each), more_size(form.mode, bits, count))
        }
    }
}

/// The size of what represents elements that are left out.
fn more_size(mode: Mode, bits: u64, count: u128) -> TextSize
    ensures { HoldsSize result (more_size (rooms_of mode) count count bits bits) }
{
    TextSize {
        text: Some(more_room(mode, bits, count)),
        lines: Some(1),
    }
}

/// The size of an array that is a text if its elements are chars. A type doesn't say whether they are.
fn or_text(form: Form, bits: u64, count: u128, array: TextSize) -> TextSize
    ensures { (n : ℕ) (size : Size) → count ≡ n → HoldsSize array size
        → HoldsSize result (or_text form.style.chars (text_size (rooms_in form) n bits bits) size) }
{
    match form.style.chars {
        Chars::Numbers => array,
        Chars::Text => greater(text_size(form.mode, bits, count), array),
    }
}

/// The size of a text of so many bytes.
fn text_size(mode: Mode, bits: u64, count: u128) -> TextSize
    ensures { HoldsSize result (text_size (rooms_of mode) count bits bits) }
{
    let around = 2 + line_room(mode, bits, bits);
    let own = sum_of(Some(around), times(escape_room(mode), Some(count)));
    with_parts(mode, own, no_size())
}

#[tactic(auto, unfolding(pickle_types::specs::Bounds::least_width))]
fn least_of_fields(pinned: bool, fields: FieldSizes) -> Option<u64>
    ensures { HoldsLeast pinned fields result }
{
    if pinned || fields.has_label {
        fields.greatest
    } else {
        fields.sum
    }
}

/// The sizes of a struct, from those of its fields.
#[tactic(auto, unfolding(pickle_types::specs::Bounds::least_width, crate::specs::TextRoom::size_of))]
pub fn struct_size(
    form: Form,
    bits: u64,
    name: &Option<Name>,
    pinned: bool,
    fields: FieldSizes,
) -> NodeSize
    ensures { (all : Fields) → AreFieldSizes fields form 0 all bits
        → AreSizes result form (StructOf (name_of name.now) pinned all) bits }
{
    let least = least_of_fields(pinned, fields);
    let own = titled_room(form.mode, b"struct", name) + line_room(form.mode, bits, bits);
    NodeSize {
        least,
        size: with_parts(form.mode, Some(own), fields.size),
    }
}

/// The sizes of an integral struct, from those of its fields.
#[tactic(auto, unfolding(pickle_types::specs::Bounds::least_width, crate::specs::TextRoom::size_of))]
pub fn integral_size(
    form: Form,
    bits: u64,
    name: &Option<Name>,
    ty: IntegerType,
    fields: PartSizes,
) -> NodeSize
    ensures { (all : Parts) → ArePartSizes fields form 0 all bits
        → AreSizes result form (IntegralOf (name_of name.now) ty all) bits }
{
    let width = u64::from(ty.width);
    let own = titled_room(form.mode, b"struct", name) + line_room(form.mode, bits, width);
    NodeSize {
        least: Some(width),
        size: with_parts(form.mode, Some(own), fields.all),
    }
}

/// The sizes of a union, from those of its alternatives.
#[tactic(auto, unfolding(pickle_types::specs::Bounds::least_width, crate::specs::TextRoom::size_of))]
pub fn union_size(form: Form, bits: u64, name: &Option<Name>, alternatives: PartSizes) -> NodeSize
    ensures { (all : Parts) → ArePartSizes alternatives form 0 all bits
        → AreSizes result form (UnionOf (name_of name.now) all) bits }
{
    let own = titled_room(form.mode, b"union", name) + line_room(form.mode, bits, bits);
    NodeSize {
        least: alternatives.least,
        size: with_parts(form.mode, Some(own), alternatives.greatest),
    }
}
