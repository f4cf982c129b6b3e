//! The letters after the digits of an integer, which name its type.
ghost use Rattle.std.specs.Prelude.{◌≡◌};
ghost use Rattle.std.specs.Option.{option_map};
ghost use Rattle.value_text.specs.Suffixes.{letter_text, suffix_text};
ghost use Rattle.value_text.specs.ValueText.{suffix_of, width_letter};

use pickle_types::integer::IntegerType;

/// `U` if the type is unsigned, then the letter of its width. A width of 32 bits has no letter.
#[derive(Clone, Copy)]
pub struct Suffix {
    pub signed: bool,
    pub letter: Option<u8>,
}

/// The suffix of a type, if it has one.
#[inline]
pub fn suffix_of(ty: IntegerType) -> Option<Suffix>
    ensures { option_map suffix_text result ≡ suffix_of ty }
{
    match width_letter(ty.width) {
        Some(letter) => Some(Suffix {
            signed: ty.signed,
            letter,
        }),
        None => None,
    }
}

// The letter of a width: the outer `None` if no suffix names the width, the inner one if the width needs no letter.
#[inline]
fn width_letter(width: u8) -> Option<Option<u8>>
    ensures { option_map letter_text result ≡ width_letter width }
{
    match width {
        4 => Some(Some(b'N')),
        8 => Some(Some(b'B')),
        16 => Some(Some(b'H')),
        32 => Some(None),
        64 => Some(Some(b'L')),
        _ => None,
    }
}
