//! Sentences about bytes that aren't tokens.

use crate::digits::digits_help;
use crate::sentence::{Part, sentence};
use pickle_source::note::Note;
use pickle_source::script::bytes_between;
use pickle_source::text::{Text, is_shown};
use pickle_syntax::lexer::fault::LexFaultKind;
use pickle_syntax::lexer::lex;
use std::alloc::{AllocError, Global};
use text_output::hex::hex_digit;

/// How many bytes a pickle is looked through for bytes that no text has.
const FRONT: usize = 64;

/// How many bytes of a text are written as escapes.
const MOST_ESCAPED: usize = 4;

/// What is wrong with the bytes of a pickle from a place on.
pub fn lexical_note(
    alloc: Global,
    pickle: &[u8],
    kind: LexFaultKind,
    at: usize,
) -> Result<Note, AllocError> {
    let rest = bytes_between(pickle, at, pickle.len());
    let text = Text::new(alloc);
    let text = match kind {
        LexFaultKind::BadByte => byte_sentence(alloc, rest)?,
        LexFaultKind::Unclosed => text.say(unclosed_sentence(rest).as_bytes())?,
        LexFaultKind::BadNumber => number_sentence(alloc, rest)?,
        LexFaultKind::TooLong => text.say(b"a pickle has at most 1048576 bytes")?,
        LexFaultKind::Memory => text.say(b"there was no memory")?,
    };
    let help = match kind {
        LexFaultKind::BadByte => help_byte(alloc, pickle, at)?,
        LexFaultKind::Unclosed => fixed_help(alloc, help_unclosed(rest))?,
        LexFaultKind::BadNumber => help_number(alloc, pickle, at)?,
        LexFaultKind::TooLong | LexFaultKind::Memory => None,
    };
    Ok(Note {
        at,
        length: mark_length(kind, rest),
        sentence: text.into_bytes(),
        help,
    })
}

/// A help that is always the same.
fn fixed_help(alloc: Global, help: &str) -> Result<Option<Vec<u8>>, AllocError> {
    Ok(Some(Text::new(alloc).say(help.as_bytes())?.into_bytes()))
}

/// How many bytes are marked.
fn mark_length(kind: LexFaultKind, rest: &[u8]) -> usize {
    match kind {
        LexFaultKind::BadNumber => word_length(rest),
        LexFaultKind::BadByte if is_quote(rest) => {
            word_length(bytes_between(rest, 1, rest.len())).saturating_add(1)
        }
        LexFaultKind::Unclosed if !is_quote(rest) && rest.first() != Some(&b'"') => 2,
        _ => 1,
    }
}

fn is_quote(rest: &[u8]) -> bool {
    matches!(rest, [b'\'', ..])
}

/// How many letters, digits and `_` come first.
fn word_length(rest: &[u8]) -> usize {
    rest.iter().take_while(|byte| is_word_byte(**byte)).count()
}

fn is_word_byte(byte: u8) -> bool {
    byte.is_ascii_alphanumeric() || byte == b'_'
}

fn byte_sentence(alloc: Global, rest: &[u8]) -> Result<Text, AllocError> {
    let text = Text::new(alloc);
    match rest {
        [b'\'', b'\\', ..] | [b'\\', ..] => text.say(
            b"no escape begins here: the escapes are `\\\\`, `\\'`, `\\\"`, `\\n`, `\\t` and `\\x` with two hexadecimal digits",
        ),
        [b'\'', ..] => text.say(
            b"this is neither a character, as `'a'`, nor one of the attributes `'length` and `'size`",
        ),
        [byte, ..] => {
            let byte = [*byte];
            sentence(
                alloc,
                b"the byte `$0` begins no token",
                &[Part::Word(byte.as_slice())],
            )
        }
        [] => text.say(b"the pickle ends here"),
    }
}

/// What to write instead of a byte that begins no token.
fn help_byte(alloc: Global, pickle: &[u8], at: usize) -> Result<Option<Vec<u8>>, AllocError> {
    let help = match bytes_between(pickle, at, pickle.len()) {
        [b'\'', b'\\', escape @ ..] | [b'\\', escape @ ..] => {
            return help_escape(alloc, escape);
        }
        [b'\'', b'o', b'f', b'f', b's', b'e', b't', ..] => {
            "`'offset` is left out: write the place where it is known, as `(a'size + b'size)`"
        }
        [b'\'', quoted @ ..] => return help_quoted(alloc, quoted),
        [b'$', ..] => "there is no `$`: an array's last index is `a'length - 1`",
        [0xef, 0xbb, 0xbf, ..] => "leave out the byte order mark: it is 3 bytes that editors hide",
        [0xff, 0xfe, ..] | [0xfe, 0xff, ..] if at == 0 =>
            "write the pickle as UTF-8 or ASCII, not as UTF-16",
        rest if is_in_text(alloc, pickle, at)? => return help_text(alloc, rest),
        _ if is_binary(pickle, at) => {
            "a pickle is text, and this begins as other files do: are PICKLE and FILE swapped?"
        }
        [byte, ..] if 0x80 <= *byte => "letters outside of ASCII belong only in comments",
        _ => return Ok(None),
    };
    fixed_help(alloc, help)
}

/// Whether a place is inside a text in quotes: up to there its closing quote isn't found.
fn is_in_text(alloc: Global, pickle: &[u8], at: usize) -> Result<bool, AllocError> {
    match lex(alloc, bytes_between(pickle, 0, at)) {
        Ok(_) => Ok(false),
        Err(fault) if fault.kind == LexFaultKind::Memory => Err(AllocError),
        Err(fault) => Ok(fault.kind == LexFaultKind::Unclosed),
    }
}

/// What to write instead of bytes that need an escape, which come first.
fn help_text(alloc: Global, rest: &[u8]) -> Result<Option<Vec<u8>>, AllocError> {
    let count = rest
        .iter()
        .take(MOST_ESCAPED)
        .take_while(|byte| !is_shown(**byte))
        .count();
    let mut text = Text::new(alloc).say(b"in a text write `")?;
    for byte in rest.iter().take(count) {
        text = say_hexadecimal(text.say(b"\\x")?, &[*byte])?;
    }
    Ok(Some(text.say(b"` instead")?.into_bytes()))
}

/// Whether the byte at a place is near the front, and among bytes that no text has.
fn is_binary(pickle: &[u8], at: usize) -> bool {
    let front = bytes_between(pickle, 0, FRONT.min(pickle.len()));
    let is_text = matches!(front, [b't', b'y', b'p', b'e', ..] | [b'/', ..]);
    !is_text && at < FRONT && front.iter().any(|byte| is_control(*byte))
        || at == 0 && matches!(pickle, [0x80..=0xff, ..])
}

fn is_control(byte: u8) -> bool {
    byte < 0x20 && !matches!(byte, b'\t' | b'\n' | b'\r' | 0x0c)
}

/// What to write instead of an escape. `escape` is what comes after its backslash.
fn help_escape(alloc: Global, escape: &[u8]) -> Result<Option<Vec<u8>>, AllocError> {
    let Some(byte) = escape_value(escape) else {
        return Ok(None);
    };
    let digits = say_hexadecimal(Text::new(alloc), &[byte])?.into_bytes();
    let text = sentence(alloc, b"write `\\x$0`", &[Part::Whole(digits.as_slice())])?;
    Ok(Some(text.into_bytes()))
}

/// The byte that an escape of C represents.
fn escape_value(escape: &[u8]) -> Option<u8> {
    match escape {
        [b'a', ..] => Some(7),
        [b'b', ..] => Some(8),
        [b'e', ..] => Some(27),
        [b'f', ..] => Some(12),
        [b'r', ..] => Some(13),
        [b'v', ..] => Some(11),
        [b'x' | b'X', digit, ..] => digit_value(*digit),
        [
            first @ b'0'..=b'3',
            second @ b'0'..=b'7',
            third @ b'0'..=b'7',
            ..
        ] => { Some((*first & 7) << 6 | (*second & 7) << 3 | (*third & 7)) }
        [first @ b'0'..=b'7', second @ b'0'..=b'7', ..] => {
            Some((*first & 7) << 3 | (*second & 7))
        }
        [first @ b'0'..=b'7', ..] => Some(*first & 7),
        _ => None,
    }
}

/// The value of a hexadecimal digit.
fn digit_value(digit: u8) -> Option<u8> {
    match digit {
        b'0'..=b'9' => Some(digit & 15),
        b'a'..=b'f' | b'A'..=b'F' => Some((digit & 7).saturating_add(9)),
        _ => None,
    }
}

/// Adds the hexadecimal digits of some bytes to the text.
pub fn say_hexadecimal(text: Text, bytes: &[u8]) -> Result<Text, AllocError> {
    let mut text = text;
    for byte in bytes {
        text = text.say(&[hex_digit(*byte >> 4), hex_digit(*byte & 15)])?;
    }
    Ok(text)
}

/// What to write instead of a quote that begins no character. `quoted` is what comes after it.
fn help_quoted(alloc: Global, quoted: &[u8]) -> Result<Option<Vec<u8>>, AllocError> {
    let end = quoted
        .iter()
        .position(|byte| matches!(*byte, b'\'' | b'\n' | b'\\'));
    let word = bytes_between(quoted, 0, end.unwrap_or(0));
    let is_number = quoted.get(word.len()) == Some(&b'\'');
    if is_number && 1 < word.len() && word.len() <= 8 {
        let digits = say_hexadecimal(Text::new(alloc), word)?.into_bytes();
        let text = sentence(
            alloc,
            b"a character is one byte: write these $0 as the number `0x$1`",
            &[Part::Number(word.len()), Part::Whole(digits.as_slice())],
        )?;
        return Ok(Some(text.into_bytes()));
    }
    fixed_help(
        alloc,
        match quoted {
            [b'm', ..] | [b's', b't', ..] =>
                "the attributes are `'length` and `'size`; there is nothing like the others",
            _ =>
                "a character is one byte in quotes; `'length` is that of an array, `'size` that of any field",
        },
    )
}

fn unclosed_sentence(rest: &[u8]) -> &'static str {
    match rest {
        [b'"', ..] => "this text has no closing `\"` in its line",
        _ => "this comment has no closing `*/`",
    }
}

fn help_unclosed(rest: &[u8]) -> &'static str {
    match rest {
        [b'"', ..] => "a text is in one line: write a line feed in it as `\\n`",
        _ => "comments do not nest: write `*/` at its end",
    }
}

fn number_sentence(alloc: Global, rest: &[u8]) -> Result<Text, AllocError> {
    let word = bytes_between(rest, 0, word_length(rest));
    sentence(
        alloc,
        b"no number is written `$0`: no type holds it, or letters follow it that are no part of it",
        &[Part::Word(word)],
    )
}

/// What to write instead of a number.
fn help_number(alloc: Global, pickle: &[u8], at: usize) -> Result<Option<Vec<u8>>, AllocError> {
    let rest = bytes_between(pickle, at, pickle.len());
    let word = bytes_between(rest, 0, word_length(rest));
    let help = match word {
        [.., b'K' | b'M' | b'G', b'b' | b'B'] | [.., b'i', b'b' | b'B'] => {
            "units are `b`, `B` and whole numbers of bits after `#`: write 4 KiB as `4#8192`"
        }
        [digits @ .., b'l' | b'L', b'e' | b'E'] if is_width(pickle, at) => {
            return help_width(alloc, digits, b"little");
        }
        [digits @ .., b'b' | b'B', b'e' | b'E'] if is_width(pickle, at) => {
            return help_width(alloc, digits, b"big");
        }
        [b'0', b'b' | b'B' | b'o' | b'O', ..] => "digits after `0b` are 0 and 1, after `0o` 0 to 7",
        [digits @ .., b'B'] if is_unit(pickle, at) => return help_unit(alloc, digits),
        _ => match digits_help(alloc, word)? {
            Some(help) => return Ok(Some(help.into_bytes())),
            None => return help_suffix(alloc, word, is_negated(pickle, at)),
        },
    };
    fixed_help(alloc, help)
}

/// Whether a number is where an integer type has its width.
fn is_width(pickle: &[u8], at: usize) -> bool {
    bytes_between(pickle, at.saturating_sub(4), at) == b"int<".as_slice()
}

/// What to write for a width with a byte order.
fn help_width(alloc: Global, digits: &[u8], order: &[u8]) -> Result<Option<Vec<u8>>, AllocError> {
    let words = b"write the width as `$0`, and `$1` before the type";
    let text = sentence(alloc, words, &[Part::Word(digits), Part::Word(order)])?;
    Ok(Some(text.into_bytes()))
}

/// Whether a number is where an offset type has its unit: after a comma.
fn is_unit(pickle: &[u8], at: usize) -> bool {
    let mut before = bytes_between(pickle, 0, at).iter().rev();
    before.find(|byte| !byte.is_ascii_whitespace()) == Some(&b',')
}

/// What to write for a unit that is a number of bytes.
fn help_unit(alloc: Global, digits: &[u8]) -> Result<Option<Vec<u8>>, AllocError> {
    match str::from_utf8(digits).ok().and_then(bits_in) {
        Some(bits) => {
            let words = b"a unit is a number of bits: write `$0` for $1 bytes";
            let text = sentence(alloc, words, &[Part::Number(bits), Part::Whole(digits)])?;
            Ok(Some(text.into_bytes()))
        }
        None => fixed_help(alloc, "a unit is a number of bits, `b` or `B`"),
    }
}

/// The bits of a number of bytes, in decimal digits.
fn bits_in(bytes: &str) -> Option<usize> {
    bytes.parse::<usize>().ok()?.checked_mul(8)
}

/// Whether a minus sign is before a number.
fn is_negated(pickle: &[u8], at: usize) -> bool {
    bytes_between(pickle, at.saturating_sub(1), at) == b"-".as_slice()
}

/// The number with another suffix, if it is a number then.
fn help_suffix(alloc: Global, word: &[u8], negated: bool) -> Result<Option<Vec<u8>>, AllocError> {
    let unsigned = Text::new(alloc).say(word)?.say(b"U")?.into_bytes();
    let has_suffix = matches!(
        word,
        [
            ..,
            b'U' | b'u' | b'N' | b'n' | b'B' | b'b' | b'H' | b'h' | b'L' | b'l'
        ]
    );
    let shorter = bytes_between(word, 0, word.len().saturating_sub(1));
    let shortest = bytes_between(word, 0, word.len().saturating_sub(2));
    let first = if negated {
        shorter
    } else {
        unsigned.as_slice()
    };
    for other in [first, unsigned.as_slice(), shorter, shortest] {
        if (has_suffix || word.len() < other.len()) && is_number(alloc, other)? {
            let text = sentence(alloc, b"write `$0`", &[Part::Word(other)])?;
            return Ok(Some(text.into_bytes()));
        }
    }
    fixed_help(
        alloc,
        if is_digits(word) {
            "a number has at most 64 bits: the greatest is `18446744073709551615U`"
        } else {
            "after the digits may come `U` for a number without a sign, and `N`, `B`, `H` or `L` for 4, 8, 16 or 64 bits"
        },
    )
}

/// Whether a word is digits alone, with their base.
fn is_digits(word: &[u8]) -> bool {
    match word {
        [b'0', b'x' | b'X', digits @ ..] => digits.iter().all(|byte| byte.is_ascii_hexdigit()),
        digits => digits.iter().all(|byte| byte.is_ascii_digit()),
    }
}

/// Whether bytes are a number, which the lexer decides.
fn is_number(alloc: Global, word: &[u8]) -> Result<bool, AllocError> {
    match lex(alloc, word) {
        Ok(tokens) => Ok(tokens.len() == 1),
        Err(fault) if fault.kind == LexFaultKind::Memory => Err(AllocError),
        Err(_) => Ok(false),
    }
}
