//! The commands, and the texts of their help.
ghost use Rattle.std.specs.Prelude.{◌≡◌, IfOk, [], if◌then◌else◌, option_map};
ghost use Rattle.std.specs.List.{list_any};
ghost use Rattle.std.specs.Str.{bytes_eq};
ghost use Rattle.clap.specs.Simple.{new_app};
ghost use Rattle.clap.specs.Simple.{App};
ghost use Rattle.command_line.specs.Commands.{IsApp, command_of, commands, listed, program_with, table_of, verb_names, with_commands, without_commands};

use crate::words::arguments::Groups;
use crate::words::overview::PROGRAM_HELP;
use crate::words::parser::{Ties, with_arguments};
use clap::Command;
use std::alloc::{AllocError, Global};

/// The program's name, by which it is installed.
pub const PROGRAM: &str = "poke_batch";

/// The program's version.
pub const VERSION: &str = "0.1.0";

/// The most steps that a mapping may take if no limit is given.
pub const DEFAULT_LIMIT: u64 = 1_000_000_000;

/// The most steps of the attempt at one place if nothing else is requested.
pub const ATTEMPT_LIMIT: u64 = 1_000_000;

/// The most elements that are shown of an array if nothing else is requested.
pub const SHOWN_ELEMENTS: u64 = 16;

/// The most levels of parts that are shown of a value if nothing else is requested.
pub const SHOWN_LEVELS: u64 = 6;

const PROGRAM_SHORT_HELP: &str = "\
PICKLE is a path, - for standard input, or +NAME for a pickle that `formats` lists.
`poke_batch COMMAND -h` lists the options of a command, `--help` also explains them.";

/// A command, and the texts of its help.
#[derive(Clone, Copy)]
pub struct Verb {
    /// Its name.
    pub name: &'static str,
    /// What it does, in a sentence.
    pub about: &'static str,
    /// Its usage, where the parser can't say which arguments may be left out.
    pub usage: Option<&'static str>,
    /// What follows its arguments in the long help.
    pub help: &'static str,
}

/// A table without arguments.
const NO_ARGUMENTS: Groups = Groups {
    mapping: &[],
    formats: &[],
    style: &[],
    others: &[],
    positionals: &[],
};

/// The commands, in the order in which help lists them.
const VERBS: &[Verb] = &[
    MAP, SHOW, EACH, RECORDS, FIND, IDENTIFY, BOUND, CHECK, TYPES, FORMATS, DUMP,
];

const MAP: Verb = Verb {
    name: "map",
    about: "Maps a type over a file and prints the value",
    usage: None,
    help: "\
OFFSET is a number, # and a unit: b for bits, B for bytes, or a number of bits, as 8#b, 1#B or 2#4.

Example:
  printf '\\001\\002\\003' > three.bin
  echo 'type P = struct { uint<8> a; uint<16> b; };' | poke_batch map - P three.bin

Exit status:
  0  the value was printed
  1  the mapping has a fault, or its value is rejected, which is reported with its place
  2  refused: the arguments, an offset, the pickle or the type's name
  3  memory, a file, standard input or an output failed",
};

const SHOW: Verb = Verb {
    name: "show",
    about: "Maps a type over a file and shows the value, or what a fault is about, to the eye",
    usage: Some("poke_batch show [OPTIONS] [PICKLE [TYPE]] <FILE>"),
    help: "\
Shows the value with its places, its numbers in decimal and hexadecimal, and its texts, and explains a fault. The form may
change with the version; programs read the output of map. A FILE alone is shown by the format that identify finds. OFFSET is a
number, # and a unit: b for bits, B for bytes, or a number of bits, as 8#b, 1#B or 2#4. Without --color, NO_COLOR in the
environment leaves colors out.

Examples:
  poke_batch show picture.png
  printf '\\001\\002\\003' > three.bin
  echo 'type P = struct { uint<8> a; uint<16> b; };' | poke_batch show - P three.bin

Exit status:
  0  the value was shown
  1  the mapping has a fault, or its value is rejected, which is reported with its place
  2  refused: the arguments, an offset, the pickle or the type's name
  3  memory, a file, standard input or an output failed",
};

const EACH: Verb = Verb {
    name: "each",
    about: "Maps a type over many files, one after the other, and prints a line for each",
    usage: None,
    help: "\
The options are those of map, for each file. Each file has a line: its name, a tab, the exit status of its mapping, a tab, and
the printed value or the line of its fault. In a name, \\, a tab, a line feed and other bytes outside ' ' to '~' are escaped, as \\\\,
\\t, \\n and \\x and two digits. A fault in one file stops nothing; the exit status is the greatest of all.

With --mode json each line is an object, with the lines of --why in it:
  {\"name\":\"a.bin\",\"status\":0,\"value\":1}
  {\"name\":\"b.bin\",\"status\":1,\"fault\":\"End\",\"at\":32}

Example:
  printf '\\001\\002\\003' > three.bin
  echo 'type P = struct { uint<8> a; uint<16> b; };' | poke_batch each - P three.bin

Exit status:
  0  each value was printed
  1  a mapping has a fault, which its line reports
  2  refused: the arguments, an offset, the pickle or the type's name
  3  memory, a file, standard input or an output failed",
};

const RECORDS: Verb = Verb {
    name: "records",
    about: "Maps a type again and again, each time from the end of the value before, and prints each value",
    usage: None,
    help: "\
The values are the elements that an array of TYPE without a bound has there. With --of PATH they are the elements of the array
at PATH in one value of TYPE, which is mapped up to that array. Without TYPE, or for -, the head of +NAME says the type and the
path. Each is printed when it is there, and then forgotten: a list of any length needs the memory of one record. A fault comes
after the lines before it. Where the list ends before FILE does, as a log that was cut off, the lines stand, and the run ends
with fault Left at the bit after them. The options are those of map, and --limit is the most steps of all records together.

Example:
  printf '\\001\\002\\003\\004' > four.bin
  echo 'type P = struct { uint<8> a; uint<8> b; };' | poke_batch records - P four.bin

Exit status:
  0  the list ends where FILE does, or as --count or --any-end say
  1  the list ends before that, or a record has a fault, which is reported with its place
  2  refused: the arguments, an offset, the pickle or the type's name
  3  memory, a file, standard input or an output failed",
};

const FIND: Verb = Verb {
    name: "find",
    about: "Tries a type at each byte of a file, and prints where it has a value",
    usage: Some("poke_batch find [OPTIONS] [PICKLE [TYPE]] <FILE>"),
    help: "\
Each place at which TYPE has a value has a line: the place, a tab, and the size of the value, both in bytes, as 0x1be, or where
they aren't whole bytes in bits, as 2228#b. With --get the parts of the value follow. Without TYPE, or for -, it is the type of
+NAME for the format inside other bytes. A FILE alone is searched for all installed formats that have a signature and such a
type, and each line also has the format and the byte order. An attempt that needs more than --attempt-limit steps is given up, and the search goes
on; the run then ends with fault Attempts.

With --mode json each line is an object, with the place and the size in bits:
  {\"at\":3568,\"bits\":128}

Examples:
  poke_batch find image.bin
  poke_batch find +png image.bin
  poke_batch show --byte 0x1be --inside +png image.bin

Exit status:
  0  the lines were printed
  1  no place has a value, which is fault NotFound, or steps didn't suffice
  2  refused: the arguments, an offset, the pickle or the type's name
  3  memory, a file, standard input or an output failed",
};

const IDENTIFY: Verb = Verb {
    name: "identify",
    about: "Finds the formats of files by the pickles that are installed, and prints a line for each file",
    usage: None,
    help: "\
The head of a pickle says by which type its files are identified, and in which byte orders. Each pickle is tried at the byte
that --byte names, and of those that fit the closest is printed. Each file has a line: its name, a tab, the exit status, a tab,
and the name of the format, the type of whole files and the byte order, with tabs between them, or the line of a fault. In a
name, \\, a tab, a line feed and other bytes outside ' ' to '~' are escaped, as \\\\, \\t, \\n and \\x and two digits. A fault in
one file stops nothing; the exit status is the greatest of all.

Examples:
  poke_batch identify unknown.bin
  find . -type f -print0 | poke_batch identify --files0-from -

Exit status:
  0  each file has a format
  1  a file has none of the formats, which its line reports as fault Unidentified
  2  refused: the arguments, an offset or a pickle
  3  memory, the folder, a file, standard input or an output failed",
};

const BOUND: Verb = Verb {
    name: "bound",
    about: "Prints the most steps and slots that mapping a type over so many bits takes",
    usage: None,
    help: "\
Example:
  echo 'type P = struct { uint<8> a; uint<16> b; };' | poke_batch bound - P 24

Exit status:
  0  the bounds were printed
  2  refused: the arguments, the pickle or the type's name
  3  memory, a file, standard input or an output failed",
};

const CHECK: Verb = Verb {
    name: "check",
    about: "Checks a pickle and prints the number of its types",
    usage: None,
    help: "\
With --mode json the answer is an object on standard output, also for a pickle that is refused:
  {\"accepted\":true}
  {\"refused\":\"Syntax\",\"byte\":4}
With --why it also has warnings, or the line, the column, a sentence and what to write instead.

Example:
  echo 'type P = struct { uint<8> a; uint<16> b; };' | poke_batch check -

Exit status:
  0  the pickle is accepted, and the number of its types was printed
  2  refused: the arguments or the pickle
  3  memory, a file, standard input or an output failed",
};

const TYPES: Verb = Verb {
    name: "types",
    about: "Prints the name, the kind and the least width of each type of a pickle",
    usage: None,
    help: "\
Each type that PICKLE declares has a line: its name, a tab, integer, offset, string, array, struct or union, a tab, and the
least width of its values as an offset, such as 24#b.

With --mode json each line is an object, with the name, the kind, the text of the declaration and the fields.

With --parts NAME the parts that values of that type can have are listed instead: what --get may name. Each line has a path,
a tab and a type. Elements are [*].

Examples:
  echo 'type P = struct { uint<8> a; uint<16> b; };' | poke_batch types -
  poke_batch types --parts Png +png

Exit status:
  0  the lines were printed
  2  refused: the arguments, the pickle, or the name of a type
  3  memory, a file, standard input or an output failed",
};

const FORMATS: Verb = Verb {
    name: "formats",
    about: "Prints the name, the type, the options and a sentence of each pickle that is installed",
    usage: None,
    help: "\
Each pickle has a line: its name, a tab, the type to map, a tab, the options to map it with, a tab, and a sentence. A pickle
that is named png is read by +png instead of a path. Without TYPE, that type and these options apply. The pickles are in
the folder that POKE_BATCH_PICKLES names, else in ../share/poke_batch/pickles from the program.

With --mode json each line is an object. inside is the type that --inside maps:
  {\"name\":\"png\",\"type\":\"Png\",\"endian\":\"big\",\"whole\":false,\"inside\":\"Embedded\",\"description\":\"A PNG image.\"}

Example:
  poke_batch map +png picture.png

Exit status:
  0  the lines were printed
  2  refused: the arguments
  3  memory, the folder, a file or an output failed",
};

const DUMP: Verb = Verb {
    name: "dump",
    about: "Prints the bytes of a file in hexadecimal digits and as text",
    usage: None,
    help: "\
OFFSET is a number, # and a unit: b for bits, B for bytes, or a number of bits, as 16#B or 2#4. BYTES is a number of bytes,
as 446 or 0x1be.

Example:
  printf 'Hello' > hello.bin
  poke_batch dump -n 16 hello.bin

Exit status:
  0  the bytes were printed
  2  refused: the arguments or an offset
  3  memory, a file or an output failed",
};

/// The commands, in the order in which help lists them.
pub fn verbs() -> &'static [Verb]
    ensures { verb_names result.now ≡ commands }
{
    VERBS
}

/// Whether a word is the name of a command.
pub fn is_command(word: &str) -> bool
    ensures { result ≡ list_any (λ name. bytes_eq name word.now) commands }
{
    has_name(verbs(), word)
}

// Whether one of the commands has a name.
fn has_name(verbs: &[Verb], name: &str) -> bool
    ensures { result ≡ list_any (λ verb. bytes_eq verb.name.now name.now) verbs.now }
{
    verbs.iter().any(|verb| verb.name == name)
}

/// The program with its commands. If one of them is named, only that one gets its arguments: to make those of all takes
/// longer than to map a short file.
pub fn program<'a>(
    alloc: Global,
    table: Groups,
    only: Option<&str>,
    ties: Ties,
) -> Result<Command<'a>, AllocError>
    ensures { IfOk result (λ program. ties ≡ Ties.Without →
        IsApp (program_with (option_map (λ name. name.now) only.entry) (table_of table)) program) }
{
    with_verbs(alloc, without_commands(alloc), verbs(), table, only, ties)
}

// The program with more commands.
fn with_verbs<'a>(
    alloc: Global,
    program: Command<'a>,
    verbs: &'static [Verb],
    table: Groups,
    only: Option<&str>,
    ties: Ties,
) -> Result<Command<'a>, AllocError>
    ensures { IfOk result (λ made. (app : App) → ties ≡ Ties.Without → IsApp app program.entry
        →
        IsApp
        (with_commands app (verb_names verbs.entry.now) (option_map (λ name. name.now) only.entry) (table_of table))
        made) }
{
    let mut program = program;
    for verb in verbs {
        program = program.subcommand(command(alloc, *verb, table, only, ties)?)?;
    }
    Ok(program)
}

fn without_commands<'a>(alloc: Global) -> Command<'a>
    ensures { IsApp without_commands result }
{
    Command::new(alloc, PROGRAM)
        .version(VERSION)
        .about("Maps the types of GNU poke pickles over files and prints the values")
        .after_help(PROGRAM_SHORT_HELP)
        .after_long_help(PROGRAM_HELP)
        .subcommand_required(true)
}

// A command, with its arguments if no other command alone has some.
fn command<'a>(
    alloc: Global,
    verb: Verb,
    table: Groups,
    only: Option<&str>,
    ties: Ties,
) -> Result<Command<'a>, AllocError>
    ensures { IfOk result (λ command. ties ≡ Ties.Without → IsApp (command_of verb.name.now
        (listed (option_map (λ name. name.now) only.entry) verb.name.now (table_of table))) command) }
{
    let table = listed(only, verb.name, table);
    with_arguments(alloc, new_command(alloc, verb), verb.name, table, ties)
}

// The arguments that a command has, which are none if another command alone has some.
fn listed(only: Option<&str>, command: &str, table: Groups) -> Groups
    ensures { table_of result ≡ listed (option_map (λ name. name.now) only.entry) command.now (table_of table) }
{
    match only {
        Some(name) => listed_if(name == command, table),
        None => table,
    }
}

// The arguments of a table, or none.
fn listed_if(kept: bool, table: Groups) -> Groups
    ensures { table_of result ≡ (if kept then table_of table else []) }
{
    if kept { table } else { NO_ARGUMENTS }
}

// A command without arguments.
fn new_command<'a>(alloc: Global, verb: Verb) -> Command<'a>
    ensures { IsApp (new_app verb.name.now) result }
{
    let command = Command::new(alloc, verb.name)
        .about(verb.about)
        .after_long_help(verb.help);
    match verb.usage {
        Some(usage) => command.override_usage(usage),
        None => command,
    }
}
