//! Sizes of texts, with checked arithmetic.
ghost use Rattle.std.specs.Prelude.{◌≡◌, ℕ, ◌+◌, ◌*◌, max};
ghost use Rattle.pickle_types.specs.Bounds.{IsBound};
ghost use Rattle.text_bounds.specs.TextHeld.{HoldsSize};
ghost use Rattle.text_bounds.specs.TextRoom.{Size, rooms_of, with_parts, moved, no_size, both, greater, repeated};

use crate::room::join;
use pickle_types::bounds::{greater_of, sum_of};
use poke_batch::mode::Mode;

/// A bound on the bytes of a text, and one on the lines in it that get longer if it is the text of a part. `None` for
/// 2^128 or more.
#[derive(Clone, Copy, Default)]
pub struct TextSize {
    /// The bytes.
    pub text: Option<u128>,
    /// The lines that get longer.
    pub lines: Option<u128>,
}

/// A product.
pub fn times(count: u128, each: Option<u128>) -> Option<u128>
    ensures { (n x : ℕ) → count ≡ n → IsBound each x → IsBound result (n * x) }
{
    if count == 0 {
        return Some(0);
    }
    match each {
        Some(x) => count.checked_mul(x),
        None => None,
    }
}

/// The size of an empty text.
pub fn no_size() -> TextSize
    ensures { HoldsSize result no_size }
{
    TextSize {
        text: Some(0),
        lines: Some(0),
    }
}

/// The size of a value that has so many bytes beside its parts.
pub fn with_parts(mode: Mode, own: Option<u128>, parts: TextSize) -> TextSize
    ensures { (room : ℕ) (size : Size) → IsBound own room → HoldsSize parts size
        → HoldsSize result (with_parts (rooms_of mode) room size) }
{
    let text = join(mode, own, parts.text);
    let lines = join(mode, Some(1), parts.lines);
    TextSize { text, lines }
}

/// The size of a part with `before` bytes before it, and `moves` bytes before each of its lines.
pub fn move_part(before: u128, moves: u128, part: TextSize) -> TextSize
    ensures { (x y : ℕ) (size : Size) → before ≡ x → moves ≡ y → HoldsSize part size
        → HoldsSize result (moved x y size) }
{
    let text = sum_of(sum_of(Some(before), times(moves, part.lines)), part.text);
    TextSize {
        text,
        lines: part.lines,
    }
}

/// The size of two texts, one after the other.
pub fn both(a: TextSize, b: TextSize) -> TextSize
    ensures { (x y : Size) → HoldsSize a x → HoldsSize b y → HoldsSize result (both x y) }
{
    let text = sum_of(a.text, b.text);
    let lines = sum_of(a.lines, b.lines);
    TextSize { text, lines }
}

/// A size that is enough for either of two texts.
pub fn greater(a: TextSize, b: TextSize) -> TextSize
    ensures { (x y : Size) → HoldsSize a x → HoldsSize b y → HoldsSize result (greater x y) }
{
    let text = greater_of(a.text, b.text);
    let lines = greater_of(a.lines, b.lines);
    TextSize { text, lines }
}

/// The size of so many texts of one size.
pub fn repeat(count: u128, each: TextSize) -> TextSize
    ensures { (n : ℕ) (size : Size) → count ≡ n → HoldsSize each size → HoldsSize result (repeated n size) }
{
    let text = times(count, each.text);
    let lines = times(count, each.lines);
    TextSize { text, lines }
}
