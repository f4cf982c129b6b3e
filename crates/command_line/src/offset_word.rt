//! Offsets as arguments, such as `8#B`.
ghost use Rattle.std.specs.Prelude.{◌≡◌, ℕ, ◌≤◌, ◌^◌, ◌==◌, IfNone, IfSome, position};
ghost use Rattle.command_line.specs.OffsetWord.{IsOffsetWord, IsUnit};

use crate::numerals::decimal;

/// The most bits of a unit.
pub const LARGEST_UNIT: u64 = 4_294_967_295;

/// The number of bits that an offset argument names, such as 64 for `8#B`. `None` if the argument doesn't have the form
/// of an offset, or names 2^64 bits or more.
///
/// The form is this project's profile of GNU poke's offsets: decimal digits, `#`, and a unit. The unit is `b` (a bit),
/// `B` (a byte) or a number of bits from 1 to 4,294,967,295 in decimal digits. Both numbers may have leading zeros.
/// Neither may have a sign or blanks.
pub fn offset_word(word: &[u8]) -> Option<u64>
    ensures some { IfSome result (IsOffsetWord word.now) }
    ensures none { IfNone result ((bits : ℕ) → IsOffsetWord word.now bits → 2 ^ 64 ≤ bits) }
{
    let hash = hash_place(word)?;
    let magnitude = decimal(&word[..hash])?;
    let unit = unit_bits(&word[hash + 1..])?;
    magnitude.checked_mul(unit)
}

fn hash_place(word: &[u8]) -> Option<usize>
    ensures { result ≡ position (λ byte. byte == 35) word.now }
{
    word.iter().position(|byte| *byte == b'#')
}

fn unit_bits(unit: &[u8]) -> Option<u64>
    ensures some { IfSome result (IsUnit unit.now) }
    ensures none { IfNone result ((bits : ℕ) → ¬ (IsUnit unit.now bits)) }
{
    match unit {
        b"b" => Some(1),
        b"B" => Some(8),
        digits => decimal(digits).filter(|bits| *bits >= 1 && *bits <= LARGEST_UNIT),
    }
}
