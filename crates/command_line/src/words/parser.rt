//! The arguments of the table, as the parser reads them.
ghost use Rattle.std.specs.Prelude.{◌≡◌, [], false, IfOk, option_map};
ghost use Rattle.clap.specs.Walk.{Rule};
ghost use Rattle.clap.specs.Simple.{App, new_rule};
ghost use Rattle.command_line.specs.Commands.{table_of, IsArg, IsApp, rule_of_argument, rules_of, with_rules, before_if, has, accepted, names_of, with_kind, with_letter, with_default, with_values};

use crate::words::arguments::{Accepts, Argument, Groups, Kind, Tie};
use clap::{Arg, ArgAction, Command};
use std::alloc::{AllocError, Global};

/// Whether the program has the ties between its arguments: those that exclude or require one another, the words that
/// must be given, and the values that may begin with `-`. The contract of the parser says what it finds only for a
/// program without ties.
#[derive(Clone, Copy)]
pub enum Ties {
    With,
    /// With those where TYPE is left out, which is then no argument.
    WithoutType,
    /// With those where the pickle and TYPE are left out.
    WithoutPickle,
    Without,
}

/// The command with the arguments of the table that the command `name` has.
pub fn with_arguments<'a>(
    alloc: Global,
    command: Command<'a>,
    name: &str,
    table: Groups,
    ties: Ties,
) -> Result<Command<'a>, AllocError>
    ensures { IfOk result (λ made. (app : App) → ties ≡ Ties.Without → IsApp app command.entry
        → IsApp (with_rules app (rules_of name.now (table_of table))) made) }
{
    let command = with_group(alloc, command, name, table.mapping, ties)?;
    let command = with_group(alloc, command, name, table.formats, ties)?;
    let command = with_group(alloc, command, name, table.style, ties)?;
    let command = with_group(alloc, command, name, table.others, ties)?;
    with_group(alloc, command, name, table.positionals, ties)
}

// The command with the arguments of a group that the command `name` has.
fn with_group<'a>(
    alloc: Global,
    command: Command<'a>,
    name: &str,
    group: &'static [Argument],
    ties: Ties,
) -> Result<Command<'a>, AllocError>
    ensures { IfOk result (λ made. (app : App) → ties ≡ Ties.Without → IsApp app command.entry
        → IsApp (with_rules app (rules_of name.now group.entry.now)) made) }
{
    let mut command = command;
    for row in group {
        command = with_row(alloc, command, row, name, ties)?;
    }
    Ok(command)
}

// The command with the argument, if it has that.
fn with_row<'a>(
    alloc: Global,
    command: Command<'a>,
    row: &Argument,
    name: &str,
    ties: Ties,
) -> Result<Command<'a>, AllocError>
    ensures { IfOk result (λ made. (app : App) → ties ≡ Ties.Without → IsApp app command.entry
        → IsApp (with_rules app (before_if (has name.now row.now) (rule_of_argument row.now) [])) made) }
{
    if is_left_out(row, ties) {
        return Ok(command);
    }
    if !has(row, name) {
        return Ok(command);
    }
    command.arg(argument(alloc, row, ties)?)
}

// Whether the program has no such argument in any command.
fn is_left_out(row: &Argument, ties: Ties) -> bool
    ensures { ties ≡ Ties.Without → result ≡ false }
{
    match ties {
        Ties::WithoutType => row.name == "TYPE",
        Ties::WithoutPickle => row.name == "TYPE" || row.name == "PICKLE",
        Ties::With | Ties::Without => false,
    }
}

/// Whether a command has the argument.
pub fn has(row: &Argument, command: &str) -> bool
    ensures { result ≡ has command.now row.now }
{
    row.of.contains(&command)
}

fn argument<'a>(alloc: Global, row: &Argument, ties: Ties) -> Result<Arg<'a>, AllocError>
    ensures { IfOk result (λ arg. ties ≡ Ties.Without → IsArg (rule_of_argument row.now) arg) }
{
    let arg = free_argument(alloc, row);
    match ties {
        Ties::With | Ties::WithoutType | Ties::WithoutPickle => with_tie(required(arg, row), row),
        Ties::Without => Ok(arg),
    }
}

// Without what it excludes and requires.
fn free_argument<'a>(alloc: Global, row: &Argument) -> Arg<'a>
    ensures { IsArg (rule_of_argument row.now) result }
{
    let arg = with_kind(bare_argument(alloc, row), row);
    let arg = with_letter(arg, row.letter);
    let arg = with_default(arg, row.default);
    with_values(arg, row)
}

fn bare_argument<'a>(alloc: Global, row: &Argument) -> Arg<'a>
    ensures { IsArg (new_rule row.now.name.now) result }
{
    Arg::new(alloc, row.name)
        .help(row.help)
        .hide_short_help(row.is_rare)
}

fn with_kind<'a>(arg: Arg<'a>, row: &Argument) -> Arg<'a>
    ensures { (rule : Rule) → IsArg rule arg.entry → IsArg (with_kind row.now.kind row.now.name.now rule) result }
{
    match row.kind {
        Kind::Flag => arg.long(row.name).action(ArgAction::SetTrue),
        Kind::Valued => arg.long(row.name).value_name(row.value),
        Kind::Repeated => arg
            .long(row.name)
            .value_name(row.value)
            .action(ArgAction::Append),
        Kind::Positional => arg.required(true),
        Kind::Omissible => arg,
        Kind::Positionals => arg.num_args(0..),
    }
}

fn with_letter<'a>(arg: Arg<'a>, letter: Option<char>) -> Arg<'a>
    ensures { (rule : Rule) → IsArg rule arg.entry → IsArg (with_letter letter rule) result }
{
    match letter {
        Some(letter) => arg.short(letter),
        None => arg,
    }
}

fn with_default<'a>(arg: Arg<'a>, default: Option<&'a str>) -> Arg<'a>
    ensures { (rule : Rule) → IsArg rule arg.entry
        → IsArg (with_default (option_map (λ text. text.now) default.entry) rule) result }
{
    match default {
        Some(default) => arg.default_value(default),
        None => arg,
    }
}

fn with_values<'a>(arg: Arg<'a>, row: &Argument) -> Arg<'a>
    ensures { (rule : Rule) → IsArg rule arg.entry
        → IsArg (with_values (names_of row.now) (accepted row.now.accepts) rule) result }
{
    match row.accepts {
        Accepts::Number => arg.value_parser(clap::value_parser!(u64)),
        Accepts::OneOf(words) => arg.value_parser(words),
        _ => arg,
    }
}

// Required, though it or an argument before it may be left out, and with values that may begin with `-`.
fn required<'a>(arg: Arg<'a>, row: &Argument) -> Arg<'a> {
    arg.required(is_required(row))
        .allow_hyphen_values(matches!(row.accepts, Accepts::Place))
}

fn is_required(row: &Argument) -> bool {
    matches!(row.kind, Kind::Positional | Kind::Omissible)
}

// With what it excludes and requires.
fn with_tie<'a>(arg: Arg<'a>, row: &Argument) -> Result<Arg<'a>, AllocError> {
    match row.tie {
        Tie::Apart(other) => arg.conflicts_with(other),
        Tie::Needs(other) => arg.requires_arg(other),
        Tie::Either(other) => arg.required_unless_present(other)?.conflicts_with(other),
        _ => Ok(arg),
    }
}
