//! Places and sizes in bytes, as arguments request them.
ghost use Rattle.std.specs.Prelude.{◌≡◌, ℕ, ◌*◌, IfOk, IfErr, OnErr, codes};
ghost use Rattle.clap.specs.Matches.{found_of, first_value};
ghost use Rattle.command_line.specs.Numerals.{IsByteCount};
ghost use Rattle.command_line.specs.OffsetWord.{IsOffsetWord, IsNoOffset, IsNoByteOffset};
ghost use Rattle.command_line.specs.Starts.{NamesStart, IsNoStart, NamesByteIfAny, IsNoByteIfAny, NamesBytes, IsNoBytes, NamesWindow, IsNoWindow};
ghost use Rattle.command_line.specs.Found.{word_in, IsNoOffsetIfAny, NamesOffsetIfAny};
ghost use Rattle.command_line.specs.declared.words.WordFault.TheVariants.{Offset};

use crate::numerals::byte_count;
use crate::offset_word::offset_word;
use crate::start::{Start, byte_start};
use crate::words::WordFault;
use crate::words::found::word;
use clap::ArgMatches;

/// Where a mapping starts.
pub fn start_of(found: &ArgMatches<'_>) -> Result<Start, WordFault>
    ensures ok { IfOk result
        (NamesStart (first_value (found_of found.now) (codes "byte")) (word_in (found_of found.now) (codes "at"))) }
    ensures err { IfErr result (λ fault. fault ≡ Offset) }
    ensures refused { OnErr result
        (IsNoStart (first_value (found_of found.now) (codes "byte")) (word_in (found_of found.now) (codes "at"))) }
{
    match found.get_str("byte") {
        Some(word) => byte_start(word.as_bytes()).ok_or(WordFault::Offset),
        None => Ok(Start::Bit(bits_of(word(found, "at"))?)),
    }
}

/// The byte where a format is looked for. Without a request it is the file's first.
pub fn byte_of(found: &ArgMatches<'_>) -> Result<Start, WordFault>
    ensures ok { IfOk result (NamesByteIfAny (first_value (found_of found.now) (codes "byte"))) }
    ensures err { IfErr result (λ fault. fault ≡ Offset) }
    ensures refused { OnErr result (IsNoByteIfAny (first_value (found_of found.now) (codes "byte"))) }
{
    match found.get_str("byte") {
        Some(word) => byte_start(word.as_bytes()).ok_or(WordFault::Offset),
        None => Ok(Start::Bit(0)),
    }
}

/// After how many bytes from there the file ends, if that is given.
pub fn window_of(found: &ArgMatches<'_>) -> Result<Option<u64>, WordFault>
    ensures ok { IfOk result (NamesWindow (first_value (found_of found.now) (codes "length"))) }
    ensures err { IfErr result (λ fault. fault ≡ Offset) }
    ensures refused { OnErr result (IsNoWindow (first_value (found_of found.now) (codes "length"))) }
{
    match found.get_str("length") {
        Some(word) => Ok(Some(plain_bytes(word)?)),
        None => Ok(None),
    }
}

/// The number of bytes that the argument `plain` is, or else the offset `name` names.
pub fn bytes_in(found: &ArgMatches<'_>, plain: &str, name: &str) -> Result<u64, WordFault>
    ensures ok { IfOk result
        (NamesBytes (first_value (found_of found.now) plain.now) (word_in (found_of found.now) name.now)) }
    ensures err { IfErr result (λ fault. fault ≡ Offset) }
    ensures refused { OnErr result
        (IsNoBytes (first_value (found_of found.now) plain.now) (word_in (found_of found.now) name.now)) }
{
    match found.get_str(plain) {
        Some(word) => plain_bytes(word),
        None => bytes_of(word(found, name)),
    }
}

// The number of bytes that an argument is.
fn plain_bytes(word: &str) -> Result<u64, WordFault>
    ensures ok { IfOk result (IsByteCount word.now) }
    ensures err { IfErr result (λ fault. fault ≡ Offset) }
    ensures refused { OnErr result ((bytes : ℕ) → ¬ (IsByteCount word.now bytes)) }
{
    match byte_count(word.as_bytes()) {
        Some(bytes) => Ok(bytes),
        None => Err(WordFault::Offset),
    }
}

/// The number of bits that an argument names.
pub fn bits_of(word: &str) -> Result<u64, WordFault>
    ensures ok { IfOk result (IsOffsetWord word.now) }
    ensures err { IfErr result (λ fault. fault ≡ Offset) }
    ensures refused { OnErr result (IsNoOffset word.now) }
{
    match offset_word(word.as_bytes()) {
        Some(bits) => Ok(bits),
        None => Err(WordFault::Offset),
    }
}

/// The number of bits that an argument names, if it was given.
pub fn bits_if_any(found: &ArgMatches<'_>, name: &str) -> Result<Option<u64>, WordFault>
    ensures ok { IfOk result (NamesOffsetIfAny (first_value (found_of found.now) name.now)) }
    ensures err { IfErr result (λ fault. fault ≡ Offset) }
    ensures refused { OnErr result (IsNoOffsetIfAny (first_value (found_of found.now) name.now)) }
{
    match found.get_str(name) {
        Some(word) => Ok(Some(bits_of(word)?)),
        None => Ok(None),
    }
}

// The number of bytes that an argument names, if it names whole bytes.
fn bytes_of(word: &str) -> Result<u64, WordFault>
    ensures ok { IfOk result (λ bytes. IsOffsetWord word.now (8 * bytes)) }
    ensures err { IfErr result (λ fault. fault ≡ Offset) }
    ensures refused { OnErr result (IsNoByteOffset word.now) }
{
    let bits = bits_of(word)?;
    if bits % 8 != 0 {
        return Err(WordFault::Offset);
    }
    Ok(bits / 8)
}
