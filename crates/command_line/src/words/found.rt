//! What clap found for the arguments of a command.
ghost use Rattle.std.specs.Prelude.{◌≡◌, ◌≢◌, ◌⊎◌, IfOk, IfErr, option_map, string_bytes};
ghost use Rattle.clap.specs.Matches.{found_of, first_value, one_text};
ghost use Rattle.command_line.specs.Numerals.{IsNumber, IsNoNumber};
ghost use Rattle.command_line.specs.Found.{after_type_in, type_in, word_in, NumberIn, NumberIfAny, IsNoNumberIfAny};
ghost use Rattle.command_line.specs.Flags.{FlagIn};
ghost use Rattle.command_line.specs.Misread.{FailsFor};
ghost use Rattle.command_line.specs.declared.words.WordFault.TheVariants.{Memory};

use crate::numerals::whole_number;
use crate::words::WordFault;
use crate::words::usage::{NO_NUMBER, invalid_value};
use clap::ArgMatches;
use std::alloc::{AllocError, Global};

/// The text of an argument, empty if it wasn't given.
pub fn word<'a>(found: &ArgMatches<'a>, name: &str) -> &'a str
    ensures { result.now ≡ word_in (found_of found.now) name.now }
{
    found.get_str(name).unwrap_or("")
}

/// The argument for the type. If the argument `after` it isn't given, its own is left out.
pub fn type_word<'a>(found: &ArgMatches<'a>, after: &str) -> Option<&'a str>
    ensures { option_map (λ word. word.now) result ≡ type_in (found_of found.now) after.now }
{
    match found.get_str(after) {
        Some(_) => found.get_str("TYPE"),
        None => None,
    }
}

/// The argument `after` the type, which is in the place of a type that is left out.
pub fn after_type<'a>(found: &ArgMatches<'a>, after: &str) -> Option<&'a str>
    ensures { option_map (λ word. word.now) result ≡ after_type_in (found_of found.now) after.now }
{
    match found.get_str(after) {
        Some(word) => Some(word),
        None => found.get_str("TYPE"),
    }
}

/// A copy of the text of an argument.
pub fn word_of(alloc: Global, found: &ArgMatches<'_>, name: &str) -> Result<String, AllocError>
    ensures { IfOk result (λ text. string_bytes text ≡ word_in (found_of found.now) name.now) }
{
    String::from_str(alloc, word(found, name))
}

/// A copy of the text of an argument, if it was given.
pub fn word_if_any(
    alloc: Global,
    found: &ArgMatches<'_>,
    name: &str,
) -> Result<Option<String>, AllocError>
    ensures { IfOk result (λ text. option_map string_bytes text ≡ first_value (found_of found.now) name.now) }
{
    match found.get_str(name) {
        Some(word) => Ok(Some(String::from_str(alloc, word)?)),
        None => Ok(None),
    }
}

/// The number that an argument is, if it was given. `place` is how messages name the argument.
pub fn number_if_any(
    alloc: Global,
    found: &ArgMatches<'_>,
    name: &str,
    place: &str,
) -> Result<Option<u64>, WordFault>
    ensures ok { IfOk result (NumberIfAny (first_value (found_of found.now) name.now)) }
    ensures err { IfErr result
        (λ fault. (fault ≡ Memory) ⊎ IsNoNumberIfAny (first_value (found_of found.now) name.now)) }
    ensures fault { IfErr result (λ fault. fault ≢ WordFault.Offset) }
    ensures misread { IfErr result (FailsFor (IsNoNumberIfAny (first_value (found_of found.now) name.now)) ⊥) }
{
    match found.get_str(name) {
        Some(word) => Ok(Some(number_of_word(alloc, word, place)?)),
        None => Ok(None),
    }
}

/// The number that an argument is, or the default if it wasn't given.
pub fn number_of(
    alloc: Global,
    found: &ArgMatches<'_>,
    name: &str,
    place: &str,
    default: u64,
) -> Result<u64, WordFault>
    ensures ok { IfOk result (NumberIn (first_value (found_of found.now) name.now) default) }
    ensures err { IfErr result
        (λ fault. (fault ≡ Memory) ⊎ IsNoNumberIfAny (first_value (found_of found.now) name.now)) }
    ensures fault { IfErr result (λ fault. fault ≢ WordFault.Offset) }
    ensures misread { IfErr result (FailsFor (IsNoNumberIfAny (first_value (found_of found.now) name.now)) ⊥) }
{
    match found.get_str(name) {
        Some(word) => number_of_word(alloc, word, place),
        None => Ok(default),
    }
}

/// The number that a text is. Like clap's own numbers it may have a plus before its digits. `place` is how messages name
/// the argument.
pub fn number_of_word(alloc: Global, word: &str, place: &str) -> Result<u64, WordFault>
    ensures ok { IfOk result (IsNumber word.now) }
    ensures err { IfErr result (λ fault. (fault ≡ Memory) ⊎ IsNoNumber word.now) }
    ensures fault { IfErr result (λ fault. fault ≢ WordFault.Offset) }
    ensures misread { IfErr result (FailsFor (IsNoNumber word.now) ⊥) }
{
    match whole_number(word.as_bytes()) {
        Some(number) => Ok(number),
        None => Err(WordFault::Usage(invalid_value(alloc, word, place, NO_NUMBER)?)),
    }
}

/// Whether a flag was given.
pub fn flag_of(found: &ArgMatches<'_>, name: &str) -> bool
    ensures { FlagIn (one_text (found_of found.now) name.now) result }
{
    found.get_flag(name)
}
