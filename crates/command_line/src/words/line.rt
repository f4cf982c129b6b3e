//! The words that the parser reads.
ghost use Rattle.std.specs.Prelude.{◌≡◌, ◌++◌, ◌∷◌, [], IfOk, OnOk, map, codes, string_bytes};
ghost use Rattle.command_line.specs.Lines.{without_help_of_help, asks_help_of_help, begins_with_minus, place_after, spelled, spelled_end, command_line};

use crate::words::commands::PROGRAM;
use std::alloc::{AllocError, Global};

/// The one option whose values may begin with `-`.
const BYTE: &str = "--byte";

/// Where a word is among the arguments.
#[derive(Clone, Copy, Debug, PartialEq, Eq)]
pub enum WordPlace {
    Options,
    /// After `--byte`.
    Byte,
    /// After `--`, which ends the options.
    Rest,
}

/// The arguments without the request for help that is the last argument of the command `help`. clap would take it for
/// the name of a command.
pub fn without_help_of_help(words: &[String]) -> &[String]
    ensures { map string_bytes result.now ≡ without_help_of_help (map string_bytes words.now) }
{
    match words.split_last() {
        Some((_last, rest)) if asks_help_of_help(words) => rest,
        _ => words,
    }
}

fn asks_help_of_help(words: &[String]) -> bool
    ensures { result ≡ asks_help_of_help (map string_bytes words.now) }
{
    match words {
        [first, .., last] => first.as_str() == "help"
            && (last.as_str() == "-h" || last.as_str() == "--help"),
        _ => false,
    }
}

/// The program's name, and the arguments as a program without ties reads them: `--byte` and a value that begins with `-`
/// are one word, as `--byte=-512`.
pub fn command_line(alloc: Global, words: &[String]) -> Result<Vec<String>, AllocError>
    ensures { IfOk result (λ line. map string_bytes line.items ≡ command_line (map string_bytes words.now)) }
{
    let words = without_help_of_help(words);
    let mut line = Vec::new(alloc);
    line.push(String::from_str(alloc, PROGRAM)?)?;
    let mut place = WordPlace::Options;
    for word in words {
        push_spelled(alloc, &mut line, place, word.as_str())?;
        place = place_after(place, word.as_str());
    }
    push_end(alloc, &mut line, place)?;
    Ok(line)
}

fn place_after(place: WordPlace, word: &str) -> WordPlace
    ensures { result ≡ place_after place word.now }
{
    match (place, word) {
        (WordPlace::Options, "--") => WordPlace::Rest,
        (WordPlace::Options, "--byte") => WordPlace::Byte,
        (WordPlace::Rest, _) => WordPlace::Rest,
        _ => WordPlace::Options,
    }
}

fn push_spelled(
    alloc: Global,
    line: &mut Vec<String>,
    place: WordPlace,
    word: &str,
) -> Result<(), AllocError>
    ensures { OnOk result
        (map string_bytes line.new.items ≡ map string_bytes line.old.items ++ spelled place word.now) }
{
    match place {
        WordPlace::Options if word == BYTE => Ok(()),
        WordPlace::Byte => push_value(alloc, line, word),
        _ => push_word(alloc, line, word),
    }
}

// The value of `--byte`.
fn push_value(alloc: Global, line: &mut Vec<String>, word: &str) -> Result<(), AllocError>
    ensures { OnOk result
        (map string_bytes line.new.items ≡ map string_bytes line.old.items ++ spelled WordPlace.Byte word.now) }
{
    if begins_with_minus(word) {
        let mut joined = String::from_str(alloc, "--byte=")?;
        joined.push_str(word)?;
        line.push(joined)?;
        return Ok(());
    }
    push_word(alloc, line, BYTE)?;
    push_word(alloc, line, word)
}

fn push_end(alloc: Global, line: &mut Vec<String>, place: WordPlace) -> Result<(), AllocError>
    ensures { OnOk result (map string_bytes line.new.items ≡ map string_bytes line.old.items ++ spelled_end place) }
{
    match place {
        WordPlace::Byte => push_word(alloc, line, BYTE),
        _ => Ok(()),
    }
}

fn push_word(alloc: Global, line: &mut Vec<String>, word: &str) -> Result<(), AllocError>
    ensures { OnOk result (map string_bytes line.new.items ≡ map string_bytes line.old.items ++ word.now ∷ []) }
{
    line.push(String::from_str(alloc, word)?)?;
    Ok(())
}

fn begins_with_minus(word: &str) -> bool
    ensures { result ≡ begins_with_minus word.now }
{
    match word.as_bytes() {
        [b'-', ..] => true,
        _ => false,
    }
}
