//! How many bytes the pieces of a printed value take.
ghost use Rattle.std.specs.Prelude.{◌≡◌, ℕ, ℤ, ◌+◌, ◌*◌, ◌^◌, ◌<◌, ◌≤◌, None, length, decimal};
ghost use Rattle.std.specs.Fmt.{signed_decimal};
ghost use Rattle.pickle_types.specs.Bounds.{IsBound};
ghost use Rattle.pickle_types.specs.Sound.{IsWidth};
ghost use Rattle.pickle_types.specs.Table.{name_of};
ghost use Rattle.poke_batch.specs.Suffixes.{suffix_text};
ghost use Rattle.poke_batch.specs.PathText.{field_step};
ghost use Rattle.poke_batch.specs.JsonText.{json_escape};
ghost use Rattle.poke_batch.specs.ValueText.{spelled, spelled_byte, integer_text, typed_text, suffix_of, unit_text, title_text, name_text};
ghost use Rattle.value_text.specs.StyledNumbers.{unit_in, hex_digits, hexadecimal, signed_hex, hex_suffix, typed_hex};
ghost use Rattle.text_output.specs.declared.style.Numbers.TheVariants.{Decimal, Hexadecimal, Digits};
ghost use Rattle.text_output.specs.Brackets.{in_brackets};
ghost use Rattle.value_text.specs.Notation.{json};
ghost use Rattle.text_bounds.specs.TextRoom.{longest_number, rooms_of, rooms_in, integer_room, offset_room, string_room};

use crate::form::Form;
use itoa::Buffer;
use pickle_types::bounds::{greater_of, sum_of};
use pickle_types::integer::IntegerType;
use pickle_types::view::Name;
use poke_batch::mode::Mode;
use text_output::style::Numbers;
use value_text::print::suffix::{Suffix, suffix_of};

fn digits(number: u128) -> u128
    ensures count { result ≡ length (decimal number) }
    ensures few { result ≤ 40 }
{
    Buffer::new().format(number).len() as u128
}

/// The most digits that a number of a type has, with its minus.
fn longest_digits(ty: IntegerType) -> u128
    requires width { IsWidth ty }
    ensures count { result ≡ length (signed_decimal (longest_number ty)) }
    ensures few { result ≤ 41 }
{
    if ty.signed {
        1 + digits(1u128 << (u32::from(ty.width) - 1))
    } else {
        digits((1u128 << u32::from(ty.width)) - 1)
    }
}

fn suffix_room(suffix: Suffix) -> u128
    ensures count { result ≡ length (suffix_text suffix) }
    ensures few { result ≤ 2 }
{
    let sign = if suffix.signed { 0 } else { 1 };
    let letter = if suffix.letter.is_some() { 1 } else { 0 };
    sign + letter
}

/// The bytes that name the type of an integer, beside its digits.
fn type_room(ty: IntegerType) -> u128
    ensures count { (number : ℤ)
        → length (typed_text (suffix_of ty) ty number) ≡ result + length (signed_decimal number) }
    ensures few { result ≤ 60 }
{
    match suffix_of(ty) {
        Some(suffix) => suffix_room(suffix),
        None => cast_room(ty),
    }
}

fn cast_room(ty: IntegerType) -> u128
    ensures count { (number : ℤ) → length (typed_text None ty number) ≡ result + length (signed_decimal number) }
    ensures few { result ≤ 60 }
{
    let word = if ty.signed { 5 } else { 6 };
    word + 3 + digits(u128::from(ty.width))
}

/// The longest printed integer with its type.
#[tactic(auto, unfolding(value_text::specs::ValueText::integer_text))]
fn typed_room(ty: IntegerType) -> u128
    requires width { IsWidth ty }
    ensures count { result ≡ length (integer_text ty (longest_number ty)) }
    ensures few { result ≤ 101 }
{
    type_room(ty) + longest_digits(ty)
}

/// The longest decimal integer.
fn decimal_room(mode: Mode, ty: IntegerType) -> u128
    requires width { IsWidth ty }
    ensures count { result ≡ integer_room Decimal (rooms_of mode) ty }
    ensures few { result ≤ 101 }
{
    match mode {
        Mode::Flat | Mode::Tree | Mode::Lines => typed_room(ty),
        Mode::Json => longest_digits(ty),
    }
}

/// The hexadecimal digits of a number, at most so many.
#[tactic(auto, using(crate::proofs::NumberLengths::hex_last, crate::proofs::NumberLengths::hex_more))]
fn hex_digits(most: u8, number: u128) -> u128
    ensures count { result ≡ length (hex_digits most number) }
    ensures few { result ≤ most }
{
    if most == 0 {
        0
    } else if number < 16 {
        1
    } else {
        1 + hex_digits(most - 1, number / 16)
    }
}

/// The hexadecimal digits of a number.
fn hex_count(number: u128) -> u128
    ensures count { result ≡ length (hexadecimal number) }
    ensures few { result ≤ 32 }
{
    hex_digits(32, number)
}

/// `0x` and the most hexadecimal digits that a number of a type has, with its minus.
fn longest_hex(ty: IntegerType) -> u128
    requires width { IsWidth ty }
    ensures count { result ≡ length (signed_hex (longest_number ty)) }
    ensures few { result ≤ 35 }
{
    if ty.signed {
        3 + hex_count(1u128 << (u32::from(ty.width) - 1))
    } else {
        2 + hex_count((1u128 << u32::from(ty.width)) - 1)
    }
}

/// The bytes that name the type of a hexadecimal integer, beside its digits.
#[tactic(auto, using(crate::proofs::NumberLengths::hex_typed))]
fn hex_type_room(ty: IntegerType) -> u128
    ensures count { (number : ℤ) → length (typed_hex (hex_suffix ty) ty number) ≡ result + length (signed_hex number) }
    ensures few { result ≤ 60 }
{
    if ty.signed && ty.width == 8 {
        cast_room(ty)
    } else {
        type_room(ty)
    }
}

/// The longest hexadecimal integer.
#[tactic(auto, using(crate::proofs::NumberLengths::quoted_length), unfolding(value_text::specs::StyledNumbers::hex_integer))]
fn hex_room(mode: Mode, ty: IntegerType) -> u128
    requires width { IsWidth ty }
    ensures count { result ≡ integer_room Hexadecimal (rooms_of mode) ty }
    ensures few { result ≤ 101 }
{
    match mode {
        Mode::Flat | Mode::Tree | Mode::Lines => hex_type_room(ty) + longest_hex(ty),
        Mode::Json => 2 + longest_hex(ty),
    }
}

/// The longest integer without its type.
fn digits_room(mode: Mode, ty: IntegerType) -> u128
    requires width { IsWidth ty }
    ensures count { result ≡ integer_room Digits (rooms_of mode) ty }
    ensures few { result ≤ 41 }
{
    match mode {
        Mode::Flat | Mode::Tree | Mode::Lines | Mode::Json => longest_digits(ty),
    }
}

/// The longest printed integer.
pub fn integer_room(form: Form, ty: IntegerType) -> u128
    requires width { IsWidth ty }
    ensures count { result ≡ integer_room form.style.numbers (rooms_in form) ty }
    ensures few { result ≤ 101 }
{
    match form.style.numbers {
        Numbers::Decimal => decimal_room(form.mode, ty),
        Numbers::Hexadecimal => hex_room(form.mode, ty),
        Numbers::Digits => digits_room(form.mode, ty),
    }
}

fn unit_room(unit: u32) -> u128
    ensures count { result ≡ length (unit_text unit) }
    ensures few { result ≤ 40 }
{
    match unit {
        1 => 1,
        8 => 1,
        _ => digits(u128::from(unit)),
    }
}

/// What comes after a magnitude.
#[tactic(auto, unfolding(value_text::specs::StyledNumbers::unit_in))]
fn unit_room_in(numbers: Numbers, unit: u32) -> u128
    ensures count { result ≡ length (unit_in numbers unit) }
    ensures few { result ≤ 41 }
{
    match numbers {
        Numbers::Decimal | Numbers::Hexadecimal => 1 + unit_room(unit),
        Numbers::Digits => 0,
    }
}

/// The longest printed offset, whose unit is in bits.
#[tactic(auto, using(crate::proofs::NumberLengths::offset_length, crate::proofs::NumberLengths::json_offset_length))]
pub fn offset_room(form: Form, ty: IntegerType, unit: u32) -> u128
    requires width { IsWidth ty }
    ensures count { result ≡ offset_room form.style.numbers (rooms_in form) ty unit }
    ensures few { result ≤ 163 }
{
    let number = integer_room(form, ty);
    match form.mode {
        Mode::Flat | Mode::Tree | Mode::Lines => number + unit_room_in(form.style.numbers, unit),
        Mode::Json => 22 + number + digits(u128::from(unit)),
    }
}

/// The longest escape of a byte.
pub fn escape_room(mode: Mode) -> u128
    ensures count { result ≡ (rooms_of mode).escape }
    ensures few { result ≤ 6 }
{
    match mode {
        Mode::Flat | Mode::Tree | Mode::Lines => 4,
        Mode::Json => 6,
    }
}

/// Quotes, and the longest escape for each byte that fits into so many bits. The last byte is 0, which isn't printed.
pub fn string_room(mode: Mode, bits: u64) -> u128
    ensures count { result ≡ string_room (rooms_of mode) bits }
    ensures few { result < 2 ^ 65 }
{
    let most = u128::from((bits / 8).saturating_sub(1));
    2 + escape_room(mode) * most
}

fn brackets_room(number: u128) -> u128
    ensures count { result ≡ length (in_brackets number) }
    ensures few { result ≤ 42 }
{
    2 + digits(number)
}

/// What an array of so many elements has beside them.
pub fn array_room(mode: Mode, count: u128) -> u128
    ensures count { result ≡ (rooms_of mode).array count }
    ensures few { result ≤ 42 }
{
    match mode {
        Mode::Flat | Mode::Json | Mode::Lines => 2,
        Mode::Tree => brackets_room(count),
    }
}

fn title_room(sort: &[u8], name: &Option<Name>) -> u128
    ensures count { result ≡ length (title_text sort.now (name_of name.now)) }
    ensures few { result < 2 ^ 64 }
{
    match name {
        Some(name) => name.as_slice().len() as u128,
        None => sort.len() as u128,
    }
}

/// What a struct or a union has beside its members.
pub fn titled_room(mode: Mode, sort: &[u8], name: &Option<Name>) -> u128
    ensures count { result ≡ (rooms_of mode).titled sort.now (name_of name.now) }
    ensures few { result < 2 ^ 65 }
{
    match mode {
        Mode::Flat | Mode::Lines => title_room(sort, name) + 3,
        Mode::Tree => title_room(sort, name),
        Mode::Json => 2,
    }
}

/// What is around a printed value on a line. In the mode `lines` that is its start, at most `bits`, and its size, at
/// most `widest`.
pub fn line_room(mode: Mode, bits: u64, widest: u64) -> u128
    ensures count { result ≡ (rooms_of mode).line bits widest }
    ensures few { result ≤ 88 }
{
    match mode {
        Mode::Flat | Mode::Json => 0,
        Mode::Tree => 1,
        Mode::Lines => 8 + (digits(u128::from(bits)) + digits(u128::from(widest))),
    }
}

/// What represents elements that are left out, of so many on so many bits.
pub fn more_room(mode: Mode, bits: u64, count: u128) -> u128
    ensures { result ≡ (rooms_of mode).more count count bits bits }
{
    let left = digits(count);
    match mode {
        Mode::Flat => 4 + left,
        Mode::Tree => 6 + left,
        Mode::Json => 8 + left,
        Mode::Lines => (4 + left) + (line_room(mode, bits, bits) + (3 + left)),
    }
}

/// What is before an element.
pub fn element_before(mode: Mode, place: u128) -> u128
    ensures count { result ≡ (rooms_of mode).element_before place }
{
    match mode {
        Mode::Flat | Mode::Json => 1,
        Mode::Tree => brackets_room(place) + 1,
        Mode::Lines => 0,
    }
}

/// What is before each line of an element.
pub fn element_moves(mode: Mode, place: u128) -> u128
    ensures count { result ≡ (rooms_of mode).element_moves place }
{
    match mode {
        Mode::Flat | Mode::Json => 0,
        Mode::Tree => 2,
        Mode::Lines => brackets_room(place),
    }
}

fn name_room(name: &Option<Name>) -> u128
    ensures count { result ≡ length (name_text (name_of name.now)) }
    ensures few { result ≤ 2 ^ 64 }
{
    match name {
        Some(name) => name.as_slice().len() as u128 + 1,
        None => 0,
    }
}

/// A byte of a string in JSON.
fn json_byte_room(byte: u8) -> u128
    ensures count { result ≡ length (spelled_byte json_escape byte) }
    ensures few { result ≤ 6 }
{
    match byte {
        b'"' | b'\\' | 9 | 10 => 2,
        32..=126 => 1,
        _ => 6,
    }
}

fn json_bytes_room(bytes: &[u8]) -> u128
    ensures count { result ≡ length (spelled json_escape bytes.now) }
    ensures few { result ≤ 6 * length bytes.now }
{
    let mut room: u128 = 0;
    for byte in bytes {
        room += json_byte_room(*byte);
    }
    room
}

/// The key of a field or an alternative, and the colon after it.
#[tactic(auto, unfolding(value_text::specs::JsonText::json_string))]
fn key_room(name: &Option<Name>, place: usize) -> u128
    ensures count { result ≡ length (json.key (name_of name.now) place) }
    ensures few { result < 2 ^ 68 }
{
    match name {
        Some(name) => 3 + json_bytes_room(name.as_slice()),
        None => 3 + digits(place as u128),
    }
}

/// What is before a field or an alternative.
pub fn field_before(mode: Mode, name: &Option<Name>, place: usize) -> u128
    ensures count { result ≡ (rooms_of mode).field_before (name_of name.now) place }
{
    match mode {
        Mode::Flat => 1 + name_room(name),
        Mode::Tree => name_room(name),
        Mode::Json => 1 + key_room(name, place),
        Mode::Lines => 0,
    }
}

/// The step of a path to a field or an alternative.
fn step_room(name: &Option<Name>, place: usize) -> u128
    ensures count { result ≡ length (field_step (name_of name.now) place) }
{
    match name {
        Some(name) => 1 + name.as_slice().len() as u128,
        None => 1 + digits(place as u128),
    }
}

/// What is before each line of a field or an alternative.
pub fn field_moves(mode: Mode, name: &Option<Name>, place: usize) -> u128
    ensures count { result ≡ (rooms_of mode).field_moves (name_of name.now) place }
{
    match mode {
        Mode::Flat | Mode::Json => 0,
        Mode::Tree => 2,
        Mode::Lines => step_room(name, place),
    }
}

/// The line feed after a text of one line, and the dot that is the path of a value without parts.
pub fn end_room(mode: Mode) -> u128
    ensures count { result ≡ (rooms_of mode).end }
{
    match mode {
        Mode::Flat | Mode::Json | Mode::Lines => 1,
        Mode::Tree => 0,
    }
}

/// The sum of what a value has itself and what its parts have. In the mode `lines` it is the greater of the two.
pub fn join(mode: Mode, own: Option<u128>, parts: Option<u128>) -> Option<u128>
    ensures { (x y : ℕ) → IsBound own x → IsBound parts y → IsBound result ((rooms_of mode).joined x y) }
{
    match mode {
        Mode::Flat | Mode::Tree | Mode::Json => sum_of(own, parts),
        Mode::Lines => greater_of(own, parts),
    }
}
