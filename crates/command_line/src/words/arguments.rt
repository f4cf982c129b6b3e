//! The arguments of the commands: each option and each positional argument once.
//!
//! `tools/options --write` writes the option overview of `--help`, the manual page's OPTIONS, the completions and the
//! tables of docs/COMMAND_LINE.md from the rows of all groups and the comments above them, and `tools/options --check`
//! compares them. A new option is a row here, and a row of the same group in specs/Commands.antt.
ghost use Rattle.command_line.specs.Commands.{AreRows, IsTable, table_of, mapping_options, format_options, style_options, other_options, positionals};

/// How an argument is given.
#[derive(Clone, Copy)]
pub enum Kind {
    /// `--name`.
    Flag,
    /// `--name VALUE`, at most once.
    Valued,
    /// `--name VALUE`, any number of times.
    Repeated,
    /// A word that must be given, by its place.
    Positional,
    /// The same, but it may be left out, or an argument before it. The ties say when.
    Omissible,
    /// Any number of words, by their place.
    Positionals,
}

/// What the value of an argument may be.
#[derive(Clone, Copy)]
pub enum Accepts {
    /// Any text that the command accepts.
    Text,
    /// An offset: a number, `#` and a unit.
    Offset,
    /// A number of bytes, after a `-` from the end of the file.
    Place,
    /// The path of a file or a folder.
    File,
    /// A number below 2^64.
    Number,
    /// One of these words.
    OneOf(&'static [&'static str]),
}

/// How an argument is tied to others. The parser knows of the first four ties.
#[derive(Clone, Copy)]
pub enum Tie {
    /// It isn't.
    Free,
    /// It excludes the other.
    Apart(&'static str),
    /// It requires the other.
    Needs(&'static str),
    /// Just one of both is given.
    Either(&'static str),
    /// It requires that the head of the pickle says the type.
    ByHead,
    /// It requires the other, or that the head of the pickle says the type.
    NeedsOrByHead(&'static str),
    /// It is TYPE, which is left out only beside an installed pickle.
    Typed,
    /// It is given after TYPE, which is left out only beside an installed pickle.
    Last,
    /// The same, unless one argument alone is a file.
    LastOrAlone,
}

/// An argument of some commands.
#[derive(Clone, Copy)]
pub struct Argument {
    /// The commands that have it.
    pub of: &'static [&'static str],
    /// Its name, for an option without the `--`.
    pub name: &'static str,
    /// The letter that is short for it.
    pub letter: Option<char>,
    /// How it is given.
    pub kind: Kind,
    /// What help calls its value, if it is an option with one.
    pub value: &'static str,
    /// What its value may be.
    pub accepts: Accepts,
    /// Its value if it isn't given.
    pub default: Option<&'static str>,
    /// What it excludes or requires.
    pub tie: Tie,
    /// Whether the short help leaves it out.
    pub is_rare: bool,
    /// The short sentence of help. The comment above a row is the long one, in Markdown.
    pub help: &'static str,
}

/// The arguments of all commands, in groups. Help lists them in this order.
#[derive(Clone, Copy)]
pub struct Groups {
    /// The options of mappings.
    pub mapping: &'static [Argument],
    /// The options of formats of files.
    pub formats: &'static [Argument],
    /// The options of printed values and answers.
    pub style: &'static [Argument],
    /// The options of many files, and of dumps.
    pub others: &'static [Argument],
    /// The positional arguments.
    pub positionals: &'static [Argument],
}

/// What an option with a value has if its row says nothing else.
const OPTION: Argument = Argument {
    of: &[],
    name: "",
    letter: None,
    kind: Kind::Valued,
    value: "",
    accepts: Accepts::Text,
    default: None,
    tie: Tie::Free,
    is_rare: false,
    help: "",
};

/// The same of a flag.
const FLAG: Argument = Argument {
    kind: Kind::Flag,
    ..OPTION
};

/// The same of a positional argument.
const POSITIONAL: Argument = Argument {
    kind: Kind::Positional,
    ..OPTION
};

/// The options of mappings, in the order in which help lists them.
const MAPPING: &[Argument] = &[
    // The value begins this far from the start of FILE.
    Argument {
        of: &["map", "show", "each", "records"],
        name: "at",
        value: "OFFSET",
        accepts: Accepts::Offset,
        default: Some("0#b"),
        help: "Where the value begins in FILE",
        ..OPTION
    },
    // The same in bytes, below 2^61: `446`, `0x1be` or, counted from the end of FILE, `-512`. A place before the first
    // byte of FILE is `refused offset`.
    Argument {
        of: &["map", "show", "each", "records"],
        name: "byte",
        value: "N",
        accepts: Accepts::Place,
        tie: Tie::Apart("at"),
        help: "The byte where the value begins, as 446, 0x1be or, from the end of FILE, -512 [default: 0]",
        ..OPTION
    },
    // TYPE is tried this far from the start of FILE first.
    Argument {
        of: &["find"],
        name: "at",
        value: "OFFSET",
        accepts: Accepts::Offset,
        default: Some("0#b"),
        help: "Where the search begins in FILE",
        ..OPTION
    },
    // The same in bytes, below 2^61: `446`, `0x1be` or, counted from the end of FILE, `-512`. A place before the first
    // byte of FILE is `refused offset`.
    Argument {
        of: &["find"],
        name: "byte",
        value: "N",
        accepts: Accepts::Place,
        tie: Tie::Apart("at"),
        help: "The byte where the search begins, as 446, 0x1be or, from the end of FILE, -512 [default: 0]",
        ..OPTION
    },
    // FILE ends for the mapping BYTES bytes after the byte that the value begins in, or where it ends anyway. The number is
    // `446` or `0x1be`. Places are still those in the whole FILE.
    Argument {
        of: &["map", "show", "each", "records", "find"],
        name: "length",
        value: "BYTES",
        is_rare: true,
        help: "After how many bytes from there FILE ends, as 446 or 0x1be [default: where it does]",
        ..OPTION
    },
    // Map the type of the format [inside other bytes](COOKBOOK.md#a-format-inside-other-bytes), which the head of +NAME
    // says, instead of the type of whole files. TYPE is left out or `-`.
    Argument {
        of: &["map", "show", "each"],
        name: "inside",
        tie: Tie::ByHead,
        is_rare: true,
        help: "Map the type of +NAME for the format inside other bytes [default: that of whole files]",
        ..FLAG
    },
    // The byte order of numbers whose field has neither `big` nor `little` before its type. Without the option it is the
    // one that the head of +NAME says, if TYPE is left out or `-`, and else big-endian.
    Argument {
        of: &["map", "show", "each", "records", "find"],
        name: "endian",
        value: "ORDER",
        accepts: Accepts::OneOf(&["big", "little"]),
        help: "The byte order [default: big, without TYPE that of the head]",
        ..OPTION
    },
    // The mapping takes at most N steps. If it needs more it ends with `fault Limit`. `auto` is 1,000,000,000, or 256 for
    // each byte of FILE if that is more, and [ends no mapping](OPERATORS.md#a-limit-that-fits) whose tighter bound is at
    // most that.
    Argument {
        of: &["map", "show", "each"],
        name: "limit",
        value: "N",
        default: Some("1000000000"),
        help: "The most steps of the mapping, or auto: the default, or 256 a byte if that is more",
        ..OPTION
    },
    // All records together take at most N steps. If they need more the list ends with `fault Limit` at the record where the
    // steps end. Without the option it is 1,000,000,000, or 256 for each byte of FILE from the start on if that is more.
    // `auto` also counts the bytes before the start.
    Argument {
        of: &["records"],
        name: "limit",
        value: "N",
        help: "The most steps of all records together [default: 1000000000, or 256 a byte if that is more]",
        ..OPTION
    },
    // Accept only a value that ends where FILE ends, or with `--length` where that ends it. Reject any other with
    // `fault Left`.
    Argument {
        of: &["map", "show", "each"],
        name: "whole",
        help: "Accept only a value that ends where FILE does [default: any end]",
        ..FLAG
    },
    // Accept only a value that is printed in at most N bytes, with the last line feed. Reject any other with
    // `fault Output`.
    Argument {
        of: &["map", "show", "each"],
        name: "max-output",
        value: "N",
        accepts: Accepts::Number,
        is_rare: true,
        help: "The most bytes of the printed value [default: any length]",
        ..OPTION
    },
    // The stored values take at most BYTES bytes, the values of attempts included. A mapping whose values would take more
    // ends with `fault Storage`. `records` stores one record at a time, after what is before the list. The page on operators
    // says [what is counted](OPERATORS.md#memory). It excludes `--slots`.
    Argument {
        of: &["map", "show", "each", "records"],
        name: "memory",
        value: "BYTES",
        accepts: Accepts::Number,
        tie: Tie::Apart("slots"),
        is_rare: true,
        help: "The most bytes that stored values may take [default: any number]",
        ..OPTION
    },
    // The stored values of the attempt at one start take at most BYTES bytes. An attempt whose values would take more is
    // given up, as by `--attempt-limit`. The page on operators says [what is counted](OPERATORS.md#memory). It excludes
    // `--slots`.
    Argument {
        of: &["find"],
        name: "memory",
        value: "BYTES",
        accepts: Accepts::Number,
        tie: Tie::Apart("slots"),
        is_rare: true,
        help: "The most bytes that stored values of one attempt may take [default: any number]",
        ..OPTION
    },
    // Reserve N slots of each kind before the mapping, which then allocates no more memory for values. A slot
    // [stores a part of a value](OPERATORS.md#memory): a node, a link to a part, a part of a value that isn't finished, or
    // a byte of a string. A mapping that needs more ends with `fault Slots`.
    Argument {
        of: &["map", "show", "each", "records", "find"],
        name: "slots",
        value: "N",
        accepts: Accepts::Number,
        is_rare: true,
        help: "The most slots of each kind, reserved before the mapping [default: any number]",
        ..OPTION
    },
    // Print the [part](#paths-and-parts) of the value at PATH, or the parts that a pattern leads to. If the option is
    // given [many times](#many-parts-and-tables), each part is printed as it is printed alone.
    Argument {
        of: &["map", "show"],
        name: "get",
        kind: Kind::Repeated,
        value: "PATH",
        help: "Print parts of the value: . or steps of .name, .place, [place], [*], [2:5], .* [default: .]",
        ..OPTION
    },
    // Print the [part](#paths-and-parts) of the value at PATH. If the option is given
    // [many times](#many-parts-and-tables), each part is a column, with tabs between them. In mode `json` the columns
    // are one object.
    Argument {
        of: &["each", "records"],
        name: "get",
        kind: Kind::Repeated,
        value: "PATH",
        help: "Print a part of the value, or many as columns: . or steps of .name, .place, [place] [default: .]",
        ..OPTION
    },
    // Print the [part](#paths-and-parts) of the value at PATH after its place and size. If the option is given
    // [many times](#many-parts-and-tables), each part is a column, with tabs between them. In mode `json` it is the member
    // `value`.
    Argument {
        of: &["find"],
        name: "get",
        kind: Kind::Repeated,
        value: "PATH",
        help: "Print a part of the value after its place and size: . or steps of .name, .place, [place] [default: none]",
        ..OPTION
    },
    // Read a FILE that has no length, such as a pipe, [into memory](#a-file-without-a-length) before it is mapped. If it
    // has more than BYTES bytes the run ends with `fault TooLong`. Without the option such a FILE is `fault Open`.
    Argument {
        of: &["map", "show", "each", "records", "find", "identify"],
        name: "spool",
        value: "BYTES",
        accepts: Accepts::Number,
        is_rare: true,
        help: "Read a FILE without a length, as a pipe, up to so many bytes [default: it isn't opened]",
        ..OPTION
    },
    // Show on standard error [how far](#progress) FILE was read, or of `each` and `identify` how many files are done, if
    // that is a terminal.
    Argument {
        of: &["map", "show", "each", "records", "find", "identify"],
        name: "progress",
        is_rare: true,
        help: "Show how much is done, if standard error is a terminal [default: no]",
        ..FLAG
    },
    // Print a [table](#many-parts-and-tables): a line for each part that PATTERN leads to, with a column for each
    // `--get`, a path from that part on, and tabs between the columns. The mode is `flat` or `json`, in which each line
    // is an object with the names as keys. `--get NAME=PATH` names a column, which is else named by its path.
    Argument {
        of: &["map"],
        name: "rows",
        value: "PATTERN",
        tie: Tie::Needs("get"),
        help: "Print a line for each part that PATTERN leads to, with a column for each --get",
        ..OPTION
    },
    // Print the names of the columns first, if columns are printed.
    Argument {
        of: &["records"],
        name: "header",
        is_rare: true,
        help: "Print the names of the columns first [default: no]",
        ..FLAG
    },
    // With `--rows`, print the names of the columns first.
    Argument {
        of: &["map"],
        name: "header",
        tie: Tie::Needs("rows"),
        is_rare: true,
        help: "With --rows, print the names of the columns first [default: no]",
        ..FLAG
    },
    // What a part that isn't there is: `fault NoSuchPart`, or with `empty` an empty column or line, in JSON `null`. With
    // `skip` a row that lacks one of its columns [is left out](#many-parts-and-tables).
    Argument {
        of: &["map"],
        name: "absent",
        value: "WHAT",
        accepts: Accepts::OneOf(&["fault", "empty", "skip"]),
        default: Some("fault"),
        is_rare: true,
        help: "What a part that isn't there is: a fault, an empty column or line, or no row",
        ..OPTION
    },
    // What a part that isn't there is: `fault NoSuchPart`, or with `empty` an empty column or line, in JSON `null`.
    Argument {
        of: &["show", "each", "records", "find"],
        name: "absent",
        value: "WHAT",
        accepts: Accepts::OneOf(&["fault", "empty"]),
        default: Some("fault"),
        is_rare: true,
        help: "What a part that isn't there is: a fault, or an empty column or line",
        ..OPTION
    },
    // Stop after N lines: the next record isn't mapped, and what follows may be anything.
    Argument {
        of: &["records"],
        name: "count",
        value: "N",
        accepts: Accepts::Number,
        help: "Stop after the lines of N records [default: where the list ends]",
        ..OPTION
    },
    // Map N records first, and print nothing for them.
    Argument {
        of: &["records"],
        name: "omit",
        value: "N",
        accepts: Accepts::Number,
        default: Some("0"),
        is_rare: true,
        help: "How many records are mapped first, and not printed",
        ..OPTION
    },
    // Accept a list that ends before FILE does. Without the option such a list ends with `fault Left` after its lines.
    Argument {
        of: &["records"],
        name: "any-end",
        help: "Accept a list that ends before FILE does [default: fault Left]",
        ..FLAG
    },
    // At last print on standard error where the next record would begin, and how many there were, those that weren't printed
    // too: `end 48#b records 3`. `--at 48#b` goes on from there. A run that maps nothing, since the pickle is refused or
    // FILE isn't opened, has no such line.
    Argument {
        of: &["records"],
        name: "report-end",
        is_rare: true,
        help: "Print at last where the next record would begin, and how many there were [default: no]",
        ..FLAG
    },
    // The records are the elements of the array at PATH in a value of TYPE, `.` for TYPE itself. The value is mapped up to that
    // array, and nothing after it. PATH leads through fields of structs.
    Argument {
        of: &["records"],
        name: "of",
        value: "PATH",
        help: "The records are those of the array at PATH in TYPE, as .packets [default: values of TYPE]",
        ..OPTION
    },
    // With `--of`, or a list that the head of +NAME says: go on at this bit of FILE, where a record of a list without a bound
    // ended, as `--report-end` says it.
    Argument {
        of: &["records"],
        name: "resume",
        value: "OFFSET",
        accepts: Accepts::Offset,
        tie: Tie::NeedsOrByHead("of"),
        is_rare: true,
        help: "With --of, where in FILE the list goes on [default: at its first record]",
        ..OPTION
    },
    // How far each start is from the one before: at least `1#b`.
    Argument {
        of: &["find"],
        name: "step",
        value: "OFFSET",
        accepts: Accepts::Offset,
        default: Some("1#B"),
        help: "How far each start is from the one before",
        ..OPTION
    },
    // Print the names of the columns first: `at` and `size`, with a FILE alone `format` and `endian`, and those of `--get`.
    Argument {
        of: &["find"],
        name: "header",
        is_rare: true,
        help: "Print the names of the columns first [default: no]",
        ..FLAG
    },
    // After a value go on at the first start that is at or after its end.
    Argument {
        of: &["find"],
        name: "apart",
        help: "After a value go on at or after its end [default: at the next start]",
        ..FLAG
    },
    // Stop after N lines.
    Argument {
        of: &["find"],
        name: "count",
        value: "N",
        accepts: Accepts::Number,
        help: "Stop after the lines of N values [default: at the end of FILE]",
        ..OPTION
    },
    // The attempt at one start takes at most N steps. One that needs more is given up, and the search goes on. At the end
    // the run then ends with `fault Attempts`, which says where the first of them began and how many there were.
    Argument {
        of: &["find"],
        name: "attempt-limit",
        value: "N",
        accepts: Accepts::Number,
        default: Some("1000000"),
        help: "The most steps of the attempt at one start",
        ..OPTION
    },
    // All attempts together take at most N steps. If they need more the search ends with `fault Limit` at the start where
    // the steps end, and `--at` goes on from there. Without the option it is 1,000,000,000, or 256 for each start if that is
    // more. `auto` is also at least 256 for each byte of FILE.
    Argument {
        of: &["find"],
        name: "limit",
        value: "N",
        is_rare: true,
        help: "The most steps of all attempts together [default: 1000000000, or 256 a start if that is more]",
        ..OPTION
    },
];

/// The options of formats of files.
const FORMATS: &[Argument] = &[
    // Print all formats that fit, in the line of the file, the closest first. After them come, by name, those that have no
    // signature and whose type of whole files maps FILE within 1,000,000,000 steps.
    Argument {
        of: &["identify"],
        name: "all",
        help: "Print all formats that fit, those without a signature too [default: the first]",
        ..FLAG
    },
    // Try the pickles in FOLDER, the files whose names end with `.pk`, instead of those that are installed.
    Argument {
        of: &["identify"],
        name: "in",
        value: "FOLDER",
        accepts: Accepts::File,
        help: "Try the pickles in FOLDER [default: those that are installed]",
        ..OPTION
    },
    // Look for the format at byte N of FILE, below 2^61: `446`, `0x1be` or, counted from the end of FILE, `-512`. A place
    // before the first byte of FILE is `refused offset`.
    Argument {
        of: &["identify"],
        name: "byte",
        value: "N",
        accepts: Accepts::Place,
        help: "The byte where the format begins, as 446, 0x1be or, from the end of FILE, -512 [default: 0]",
        ..OPTION
    },
    // FILE ends BYTES bytes after that byte, or where it ends anyway. The number is `446` or `0x1be`.
    Argument {
        of: &["identify"],
        name: "length",
        value: "BYTES",
        is_rare: true,
        help: "After how many bytes from there FILE ends, as 446 or 0x1be [default: where it does]",
        ..OPTION
    },
];

/// The options of printed values and answers.
const STYLE: &[Argument] = &[
    // Also print how many bytes the printed value has at most. It excludes `--memory`.
    Argument {
        of: &["bound"],
        name: "text",
        tie: Tie::Apart("memory"),
        help: "Print the most bytes of the printed value too",
        ..FLAG
    },
    // Also print tighter bounds on the steps and slots, on two lines of their own. It excludes `--text`.
    Argument {
        of: &["bound"],
        name: "tight",
        tie: Tie::Apart("text"),
        help: "Print tighter bounds on the steps and slots too",
        ..FLAG
    },
    // Also print how many bytes the stored values take at most, as `--memory` of `map` counts them. It excludes `--tight`.
    Argument {
        of: &["bound"],
        name: "memory",
        tie: Tie::Apart("tight"),
        help: "Print the most bytes that stored values take too",
        ..FLAG
    },
    // How the value is printed. `flat` prints one line. `tree` prints a line for each part of the value, indented.
    // `json` prints one line of JSON. `lines` prints a line for each part that has no parts inside: its path, its start,
    // its size and its value, with tabs between them. `raw` writes [the bytes](#the-bytes-of-a-part) of FILE that the value
    // takes, or with one `--get` a part of it.
    Argument {
        of: &["map"],
        name: "mode",
        value: "MODE",
        accepts: Accepts::OneOf(&["flat", "tree", "json", "lines", "raw"]),
        default: Some("flat"),
        help: "How the value is printed, or raw for the bytes that it takes",
        ..OPTION
    },
    // How each value is printed, as by `map`.
    Argument {
        of: &["records"],
        name: "mode",
        value: "MODE",
        accepts: Accepts::OneOf(&["flat", "tree", "json", "lines"]),
        default: Some("flat"),
        help: "How each value is printed",
        ..OPTION
    },
    // How the line of a value is printed. `flat` prints its start, its size and the columns, with tabs between them. `json`
    // prints an object, with the start and the size in bits.
    Argument {
        of: &["find"],
        name: "mode",
        value: "MODE",
        accepts: Accepts::OneOf(&["flat", "json"]),
        default: Some("flat"),
        help: "How the line of a value is printed",
        ..OPTION
    },
    // How the value is printed. `flat` prints it in the line of its file. `json` prints an object for each file instead.
    Argument {
        of: &["each"],
        name: "mode",
        value: "MODE",
        accepts: Accepts::OneOf(&["flat", "json"]),
        default: Some("flat"),
        help: "How the value is printed",
        ..OPTION
    },
    // With `--text`: the mode of the printed value.
    Argument {
        of: &["bound"],
        name: "mode",
        value: "MODE",
        accepts: Accepts::OneOf(&["flat", "tree", "json", "lines"]),
        tie: Tie::Needs("text"),
        help: "With --text, in this mode alone [default: in any]",
        ..OPTION
    },
    // How the answer is printed. `json` prints JSON objects on standard output, also for a pickle that is refused or
    // can't be read. `check` prints one object, such as `{"accepted":true}` or `{"refused":"Syntax","byte":4}`. With
    // `--why` it also has `warnings`, or the members `line`, `column`, `end`, `says` and `write`. `types` prints an object
    // for each type, with its name, its kind, the text of its declaration and its fields. `formats` prints an object for
    // each pickle, with what applies if TYPE is left out.
    Argument {
        of: &["check", "types", "formats"],
        name: "mode",
        value: "MODE",
        accepts: Accepts::OneOf(&["text", "json"]),
        default: Some("text"),
        help: "How the answer is printed",
        ..OPTION
    },
    // How the answer is printed. `json` prints an object instead of each line. That of a format also has the size that
    // its identifying type took, and the description of the pickle.
    Argument {
        of: &["identify"],
        name: "mode",
        value: "MODE",
        accepts: Accepts::OneOf(&["text", "json"]),
        default: Some("text"),
        help: "How the answer is printed",
        ..OPTION
    },
    // How numbers are printed. `digits` prints decimal digits without the type and the unit. `show` prints numbers in this
    // form alone, always without the type.
    Argument {
        of: &["map", "show", "each", "records", "find"],
        name: "numbers",
        value: "FORM",
        accepts: Accepts::OneOf(&["decimal", "hex", "digits"]),
        help: "How numbers are printed [default: decimal, in show with hexadecimal after it]",
        ..OPTION
    },
    // With `--text`: how numbers are printed.
    Argument {
        of: &["bound"],
        name: "numbers",
        value: "FORM",
        accepts: Accepts::OneOf(&["decimal", "hex", "digits"]),
        tie: Tie::Needs("text"),
        help: "With --text, for numbers in this form [default: decimal]",
        ..OPTION
    },
    // How an array of `char` is printed. `text` prints it as a string, without the zero bytes at its end. With `numbers`
    // `show` prints a dump of its bytes.
    Argument {
        of: &["map", "show", "each", "records", "find"],
        name: "chars",
        value: "FORM",
        accepts: Accepts::OneOf(&["numbers", "text"]),
        help: "How arrays of char are printed [default: numbers, in show text]",
        ..OPTION
    },
    // With `--text`: how an array of `char` is printed.
    Argument {
        of: &["bound"],
        name: "chars",
        value: "FORM",
        accepts: Accepts::OneOf(&["numbers", "text"]),
        tie: Tie::Needs("text"),
        help: "With --text, for arrays of char in this form [default: numbers]",
        ..OPTION
    },
    // Print at most N elements of each array, or `all`. Of an array of bytes `show` prints at most N lines.
    Argument {
        of: &["map", "show", "each", "records", "find"],
        name: "elements",
        value: "N",
        help: "The most elements that are printed of an array, or all [default: all, in show 16]",
        ..OPTION
    },
    // With `--text`: at most N elements of each array are printed, or `all`.
    Argument {
        of: &["bound"],
        name: "elements",
        value: "N",
        tie: Tie::Needs("text"),
        help: "With --text, for so many elements of an array, or all [default: all]",
        ..OPTION
    },
    // How a refusal or a fault is [printed](#streams-and-exit-statuses). `json` prints it as a JSON object, such as
    // `{"fault":"End","at":32}`.
    Argument {
        of: &["map", "each", "records", "find", "identify"],
        name: "faults",
        value: "FORM",
        accepts: Accepts::OneOf(&["text", "json"]),
        default: Some("text"),
        is_rare: true,
        help: "How a refusal or a fault is printed",
        ..OPTION
    },
    // Show at most N levels of parts below the value, or `all`. `..` replaces parts further down.
    Argument {
        of: &["show"],
        name: "depth",
        value: "N",
        default: Some("6"),
        help: "The most levels of parts below the value that are shown, or all",
        ..OPTION
    },
    // List the parts that values of the type NAME can have, instead of the types: what `--get` may name. Each part has a line:
    // its path, a tab, and its type in the words of `show`. In mode `json` it has an object.
    Argument {
        of: &["types"],
        name: "parts",
        value: "NAME",
        help: "List the parts that values of the type NAME can have",
        ..OPTION
    },
    // List at most N levels of parts below the value, or `all`.
    Argument {
        of: &["types"],
        name: "depth",
        value: "N",
        default: Some("6"),
        tie: Tie::Needs("parts"),
        help: "The most levels of parts below the value that are listed, or all",
        ..OPTION
    },
    // Show the size of each part after its place, in the same form: `0000000c` is 12 bytes, `00000001.4` is 12 bits.
    Argument {
        of: &["show"],
        name: "sizes",
        help: "Show the size of each part after its place [default: no]",
        ..FLAG
    },
    // Show the bytes of FILE that each part takes, after its place: the first eight, in hexadecimal, and `..` if there are
    // more. The bytes of the value are read into memory.
    Argument {
        of: &["show"],
        name: "bytes",
        help: "Show the first bytes of each part after its place [default: no]",
        ..FLAG
    },
    // Whether types are dimmed. With `auto` they are if standard output is a terminal and the environment has no NO_COLOR.
    Argument {
        of: &["show"],
        name: "color",
        value: "WHEN",
        accepts: Accepts::OneOf(&["auto", "always", "never"]),
        default: Some("auto"),
        help: "When colors are printed",
        ..OPTION
    },
    // Print more lines on standard error: [why](WHY.md#why-a-pickle-is-refused) the pickle or TYPE is refused, or
    // [which part](WHY.md#why-a-mapping-stops) stops a mapping and why. With `--mode json` of `each` the reasons of a
    // file are in its object, as the member `why`.
    Argument {
        of: &["map", "each", "records"],
        name: "why",
        help: "Explain why the pickle or TYPE is refused, or what stops a mapping [default: no]",
        ..FLAG
    },
    // Print more lines on standard error: [why](WHY.md#why-a-pickle-is-refused) the pickle or TYPE is refused.
    Argument {
        of: &["find", "bound", "types"],
        name: "why",
        help: "Explain why the pickle or TYPE is refused [default: no]",
        ..FLAG
    },
    // Print more lines on standard error: [why](WHY.md#why-a-pickle-is-refused) the pickle is refused, or
    // [what it says](WHY.md#what-an-accepted-pickle-cant-mean) and can't mean.
    Argument {
        of: &["check"],
        name: "why",
        help: "Explain why the pickle is refused, or what an accepted one can't mean [default: no]",
        ..FLAG
    },
    // Print more lines on standard error: why a FILE or the pickles aren't opened.
    Argument {
        of: &["identify"],
        name: "why",
        help: "Explain why FILE or the pickles aren't opened [default: no]",
        ..FLAG
    },
];

/// The options of many files, and of dumps.
const OTHERS: &[Argument] = &[
    // Write the line of a file before the next file is read.
    Argument {
        of: &["each", "identify"],
        name: "flush",
        help: "Write the line of a file before the next file is read [default: no]",
        ..FLAG
    },
    // Write each record before the next one is mapped.
    Argument {
        of: &["records"],
        name: "flush",
        is_rare: true,
        help: "Write each record before the next one is mapped [default: no]",
        ..FLAG
    },
    // Write each line before the search goes on.
    Argument {
        of: &["find"],
        name: "flush",
        is_rare: true,
        help: "Write each line before the search goes on [default: no]",
        ..FLAG
    },
    // Read the names of the files from PATH, or from standard input for `-`. A byte 0 ends each name, as `find -print0`
    // writes them. Then there is no FILE argument. While the next name isn't there yet, all lines so far are written.
    Argument {
        of: &["each", "identify"],
        name: "files0-from",
        value: "PATH",
        accepts: Accepts::File,
        help: "Read names of files from PATH, or standard input for -, each ended by a byte 0",
        ..OPTION
    },
    // The first byte to print, as an offset of whole bytes.
    Argument {
        of: &["dump"],
        name: "from",
        value: "OFFSET",
        accepts: Accepts::Offset,
        default: Some("0#B"),
        help: "The first byte, in whole bytes",
        ..OPTION
    },
    // The most bytes to print, as an offset of whole bytes.
    Argument {
        of: &["dump"],
        name: "size",
        value: "OFFSET",
        accepts: Accepts::Offset,
        default: Some("128#B"),
        help: "How much to dump at most, in whole bytes",
        ..OPTION
    },
    // The first byte to print, instead of `--from`.
    Argument {
        of: &["dump"],
        name: "skip",
        letter: Some('s'),
        value: "BYTES",
        tie: Tie::Apart("from"),
        help: "The first byte, as 446 or 0x1be",
        ..OPTION
    },
    // The most bytes to print, instead of `--size`. Without both, and with standard error on a terminal, a line says how
    // many bytes are left out.
    Argument {
        of: &["dump"],
        name: "length",
        letter: Some('n'),
        value: "BYTES",
        tie: Tie::Apart("size"),
        help: "How many bytes to dump at most",
        ..OPTION
    },
    // Leave out the line above the bytes.
    Argument {
        of: &["dump"],
        name: "no-ruler",
        help: "Leave out the line above the bytes [default: it is printed]",
        ..FLAG
    },
];

/// The positional arguments.
const POSITIONALS: &[Argument] = &[
    Argument {
        of: &["map", "each", "records", "bound", "check", "types"],
        name: "PICKLE",
        help: "The file of the pickle, - for standard input, or +NAME for one that is installed",
        ..POSITIONAL
    },
    Argument {
        of: &["show"],
        name: "PICKLE",
        kind: Kind::Omissible,
        help: "The file of the pickle, - or +NAME. Left out with TYPE, it is that of the format of FILE",
        ..POSITIONAL
    },
    Argument {
        of: &["find"],
        name: "PICKLE",
        kind: Kind::Omissible,
        help: "The file of the pickle, - or +NAME. Left out with TYPE, all installed formats are looked for",
        ..POSITIONAL
    },
    Argument {
        of: &["map", "show", "records", "find", "bound"],
        name: "TYPE",
        kind: Kind::Omissible,
        help: "The type to map. Left out or - after +NAME, it is that of the pickle's head",
        ..POSITIONAL
    },
    Argument {
        of: &["each"],
        name: "TYPE",
        kind: Kind::Omissible,
        tie: Tie::Typed,
        help: "The type to map. Left out or - after +NAME, it is that of the pickle's head",
        ..POSITIONAL
    },
    Argument {
        of: &["map", "records"],
        name: "FILE",
        kind: Kind::Omissible,
        tie: Tie::Last,
        help: "The file of the bytes",
        ..POSITIONAL
    },
    Argument {
        of: &["show", "find"],
        name: "FILE",
        kind: Kind::Omissible,
        tie: Tie::LastOrAlone,
        help: "The file of the bytes",
        ..POSITIONAL
    },
    Argument {
        of: &["dump"],
        name: "FILE",
        help: "The file of the bytes",
        ..POSITIONAL
    },
    Argument {
        of: &["each", "identify"],
        name: "FILE",
        kind: Kind::Positionals,
        tie: Tie::Either("files0-from"),
        help: "The files of the bytes",
        ..POSITIONAL
    },
    Argument {
        of: &["bound"],
        name: "BITS",
        kind: Kind::Omissible,
        accepts: Accepts::Number,
        tie: Tie::Last,
        help: "The size of a file in bits",
        ..POSITIONAL
    },
];

/// The arguments of all commands.
pub fn arguments() -> Groups
    ensures { IsTable (table_of result) }
{
    Groups {
        mapping: mapping_options(),
        formats: format_options(),
        style: style_options(),
        others: other_options(),
        positionals: positionals(),
    }
}

fn mapping_options() -> &'static [Argument]
    ensures { AreRows result.now mapping_options }
{
    MAPPING
}

fn format_options() -> &'static [Argument]
    ensures { AreRows result.now format_options }
{
    FORMATS
}

fn style_options() -> &'static [Argument]
    ensures { AreRows result.now style_options }
{
    STYLE
}

fn other_options() -> &'static [Argument]
    ensures { AreRows result.now other_options }
{
    OTHERS
}

fn positionals() -> &'static [Argument]
    ensures { AreRows result.now positionals }
{
    POSITIONALS
}
