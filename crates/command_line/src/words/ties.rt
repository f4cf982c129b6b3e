//! The ties between arguments, which the parser's own program doesn't have.
ghost use Rattle.std.specs.Prelude.{◌≡◌, ◌&&◌, codes, option_map};
ghost use Rattle.clap.specs.Matches.{found_of, first_value};
ghost use Rattle.command_line.specs.Commands.{tied_as};
ghost use Rattle.command_line.specs.Found.{shows_file_alone};
ghost use Rattle.command_line.specs.Ties.{is_given, are_apart, needs, is_either_given, has_head_type, is_typed, has_words, keeps_argument, keeps_tie, keep_ties, keeps_ties, type_before_files};

use crate::subject::{has_type, is_by_head, is_file_alone};
use crate::words::arguments::{Argument, Groups, Tie, arguments};
use crate::words::found::{after_type, type_word, word};
use crate::words::parser::has;
use clap::ArgMatches;
use clap::parser::ValueSource;

/// Whether the arguments of a command keep the ties that the table has.
pub fn keeps_ties(command: &str, found: &ArgMatches<'_>) -> bool
    ensures { result ≡ keeps_ties command.now (found_of found.now) }
{
    keep_all_ties(command, found, arguments())
}

fn keep_all_ties(command: &str, found: &ArgMatches<'_>, table: Groups) -> bool
    ensures { result ≡ (keep_ties command.now (found_of found.now) table.mapping.now
        && (keep_ties command.now (found_of found.now) table.formats.now
        && (keep_ties command.now (found_of found.now) table.style.now
        && (keep_ties command.now (found_of found.now) table.others.now
        && keep_ties command.now (found_of found.now) table.positionals.now)))) }
{
    keep_ties(command, found, table.mapping)
        && keep_ties(command, found, table.formats)
        && keep_ties(command, found, table.style)
        && keep_ties(command, found, table.others)
        && keep_ties(command, found, table.positionals)
}

// Whether the arguments of a group that a command has keep their ties.
fn keep_ties(command: &str, found: &ArgMatches<'_>, group: &[Argument]) -> bool
    ensures { result ≡ keep_ties command.now (found_of found.now) group.now }
{
    group.iter().all(|row| keeps_argument(command, found, row))
}

// Whether an argument keeps its tie, if a command has it.
fn keeps_argument(command: &str, found: &ArgMatches<'_>, row: &Argument) -> bool
    ensures { result ≡ keeps_argument command.now (found_of found.now) row.now }
{
    !has(row, command) || keeps_tie(found, row.name, row.tie)
}

fn keeps_tie(found: &ArgMatches<'_>, name: &str, tie: Tie) -> bool
    ensures { result ≡ keeps_tie (found_of found.now) name.now (tied_as tie) }
{
    match tie {
        Tie::Free => true,
        Tie::Apart(other) => are_apart(found, name, other),
        Tie::Needs(other) => needs(found, name, other),
        Tie::Either(other) => is_either_given(found, name, other),
        Tie::ByHead => !is_given(found, name) || has_head_type(found),
        Tie::NeedsOrByHead(other) => needs(found, name, other) || has_head_type(found),
        Tie::Typed => is_typed(found, found.get_str(name)),
        Tie::Last => has_words(found, name),
        Tie::LastOrAlone => shows_file_alone(found) || has_words(found, name),
    }
}

// Whether the head of the pickle says the type.
fn has_head_type(found: &ArgMatches<'_>) -> bool
    ensures { result ≡ has_head_type (found_of found.now) }
{
    is_by_head(word(found, "PICKLE"), type_before_files(found))
}

// The argument for the type before files, which may be in a list.
fn type_before_files<'a>(found: &ArgMatches<'a>) -> Option<&'a str>
    ensures { option_map (λ word. word.now) result ≡ type_before_files (found_of found.now) }
{
    match found.get_str("files0-from") {
        Some(_) => found.get_str("TYPE"),
        None => type_word(found, "FILE"),
    }
}

/// Whether TYPE and the argument after it are given, of which TYPE may be left out beside an installed pickle.
pub fn has_words(found: &ArgMatches<'_>, after: &str) -> bool
    ensures { result ≡ has_words (found_of found.now) after.now }
{
    after_type(found, after).is_some() && is_typed(found, type_word(found, after))
}

/// Whether one argument alone is the file to show or to search.
pub fn shows_file_alone(found: &ArgMatches<'_>) -> bool
    ensures { result ≡ shows_file_alone (found_of found.now) }
{
    is_file_alone(
        found.get_str("PICKLE"),
        found.get_str("TYPE"),
        found.get_str("FILE"),
    )
}

fn is_typed(found: &ArgMatches<'_>, name: Option<&str>) -> bool
    ensures { result ≡ is_typed (found_of found.now) (option_map (λ name. name.now) name.entry) }
{
    has_type(word(found, "PICKLE"), name)
}

fn are_apart(found: &ArgMatches<'_>, name: &str, other: &str) -> bool
    ensures { result ≡ are_apart (found_of found.now) name.now other.now }
{
    !(is_given(found, name) && is_given(found, other))
}

fn needs(found: &ArgMatches<'_>, name: &str, other: &str) -> bool
    ensures { result ≡ needs (found_of found.now) name.now other.now }
{
    !is_given(found, name) || is_given(found, other)
}

fn is_either_given(found: &ArgMatches<'_>, name: &str, other: &str) -> bool
    ensures { result ≡ is_either_given (found_of found.now) name.now other.now }
{
    is_given(found, name) != is_given(found, other)
}

/// Whether an argument was given, and hasn't just its default.
pub fn is_given(found: &ArgMatches<'_>, name: &str) -> bool
    ensures { result ≡ is_given (found_of found.now) name.now }
{
    match found.value_source(name) {
        Some(ValueSource::CommandLine) => true,
        _ => false,
    }
}
