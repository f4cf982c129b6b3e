//! Reads the arguments.
mod arguments;
mod bytes;
mod commands;
mod found;
mod line;
mod mapping;
mod overview;
mod parser;
mod selected;
mod shown;
mod style;
mod ties;
mod usage;

ghost use Rattle.std.specs.Prelude.{◌≡◌, ◌≢◌, ◌⊎◌, ℕ, List, [], Option, Some, codes, map, string_bytes, unwrap_or, None, MatchResult, IfOk, IfErr, IfSome, OnOk, true, false};
ghost use Rattle.clap.specs.Matches.{found_of, first_value};
ghost use Rattle.command_line.specs.Commanded.{Finds, Fails, AsksOf, AnswersIn, IsAskedBy, IsJobAskedBy, IsRefused, IsUnread, IsMisread, IsMisplaced, FailsTo, has_no_size};
ghost use Rattle.command_line.specs.Commands.{EntersCommand};
ghost use Rattle.command_line.specs.Ties.{keeps_ties};
ghost use Rattle.command_line.specs.Misread.{FailsFor, IsNoRaw, MisreadRequest, Misread, Misplaced};
ghost use Rattle.command_line.specs.Lines.{command_line};
ghost use Rattle.command_line.specs.Selects.{IsNoPathIfAny, Selects};
ghost use Rattle.command_line.specs.Words.{IsCheckOf, IsBareCheckOf, NamesMode, NamesModeIfAny};
ghost use Rattle.command_line.specs.Found.{word_in, NumberIfAny, NumberIn, HasTerms, no_terms, NamesFiles, IsNoExtent, NamesOrderIfAny, NamesOrderOrBig, after_type_in, file_in};
ghost use Rattle.command_line.specs.Found.{Asks, AsksList, AsksMappingOf, AsksRequest, AsksSearch, AsksValues, NamesStep, SeeksParts, SeeksSubject, Spools, asks_parts, type_in, is_raw, over_file, IsJobOf, HasHeader, IsListOver, IsSource, IsNoHeader, IsNoList, IsNoListExtent, IsNoRange, IsNoSearch, IsNoStep, IsNoBound, IsNoNumberIfAny, IsNoByteExtent};
ghost use Rattle.command_line.specs.OffsetWord.{IsOffsetWord};
ghost use Rattle.command_line.specs.Styles.{IsNoElementsIfAny};
ghost use Rattle.text_output.specs.Styles.{plain};
ghost use Rattle.command_line.specs.declared.words.WordFault.TheVariants.{Memory};

use crate::answer_form::AnswerForm;
use crate::fault_form::FaultForm;
use crate::identification::Identification;
use crate::limit::Limit;
use crate::numerals::whole_number;
use crate::request::{FileNames, Form, Over, RecordList, RecordsOf, Request, ValueSearch};
use crate::selection::{Choice, Selection};
use crate::start::Start;
use crate::subject::{BY_HEAD, HeadType, Subject, has_type, is_by_head};
use crate::terms::Terms;
use arguments::arguments;
use bit_space::Order;
use bytes::{bits_if_any, bits_of, byte_of, bytes_in, window_of};
use clap::ArgMatches;
use clap::error::ErrorKind;
use commands::{ATTEMPT_LIMIT, PROGRAM, SHOWN_LEVELS, is_command, program};
pub use commands::{Verb, verbs};
use found::{after_type, flag_of, number_if_any, number_of, type_word, word, word_if_any, word_of};
use line::{command_line, without_help_of_help};
use mapping::{
    MappingWords, grows_limit, mapping_words, shown_subject, subject_by_part, subject_of,
};
use parser::Ties;
use selected::{part_beside, path_if_any, selection_of};
use shown::shown_words;
use std::alloc::{AllocError, Global};
use style::{
    answer_of, beside_of, color_of, depth_of, faults_of, numbers_if_any, style_for_the_eye,
    style_of,
};
use text_output::mode::Mode;
use text_output::style::{Chars, Numbers, Style};
use thiserror::Error;
use ties::{has_words, is_given, keeps_ties, shows_file_alone};
use usage::without_wrong_tip;

/// The usage error for arguments that are wrong, but whose escaped forms clap accepts.
const WRONG_WORD: &str = "error: an argument has bytes that aren't printed\n";

/// The usage error for a list that goes on, and isn't inside a value.
const NO_LIST: &str =
    "error: --resume needs --of, or a PICKLE +NAME without a TYPE or with -: without them --at goes on\n\nFor more information, try '--help'.\n";

/// The usage error for names of columns in JSON, which has them in each object.
const NO_HEADER: &str =
    "error: --header prints flat: json has the names in each line\n\nFor more information, try '--help'.\n";

/// How messages name the argument for the path to a list.
const OF: &str = "--of <PATH>";

/// The usage error for places that don't move.
const NO_STEP: &str = "error: --step is at least 1#b\n\nFor more information, try '--help'.\n";

/// The usage error for parts of values of all formats.
const NO_PARTS: &str =
    "error: --get needs a PICKLE, whose TYPE has the part\n\nFor more information, try '--help'.\n";

/// The usage error for bytes of more than one part.
const NO_RAW: &str =
    "error: --mode raw writes the bytes of one part: --get takes one path, without --absent\n\nFor more information, try '--help'.\n";

/// The usage error for an option that is about the head of a pickle beside a type.
const NO_HEAD: &str =
    "error: --inside needs a PICKLE +NAME, without a TYPE or with -\n\nFor more information, try '--help'.\n";

/// The job that the arguments request.
#[derive(Debug, Drop, PartialEq, Eq)]
pub enum Job {
    /// Map a type over a file, from the bit `at` on.
    Map {
        at: u64,
        order: Order,
        limit: u64,
        mode: Mode,
        pickle: String,
        name: String,
        file: String,
    },
    /// Map a type over one file or many, as a request says. A file alone is shown by the format that it has. A map of one
    /// file has at least one term, a type that the pickle's head says, a start that is counted from the file's end, a
    /// place where the file ends, refusals and faults in JSON, or a limit on the bytes of a file without a length.
    Request(Request),
    /// Print the most steps and slots that a mapping of a type over `bits` bits takes. The type `-` of an installed pickle
    /// is the one that its head says.
    Bound {
        pickle: String,
        name: String,
        bits: u64,
    },
    /// Print the same, and tighter bounds. The type `-` is as above.
    TightBound {
        pickle: String,
        name: String,
        bits: u64,
    },
    /// Print the most steps and slots that a mapping of a type over `bits` bits takes, and the most bytes that its values
    /// take while it goes on. The type `-` is as above.
    MemoryBound {
        pickle: String,
        name: String,
        bits: u64,
    },
    /// Print the most steps and slots that a mapping of a type over `bits` bits takes, and the most bytes of its
    /// printed value in `mode`, or in every mode, in a style. The type `-` is as above.
    BoundText {
        pickle: String,
        name: String,
        bits: u64,
        mode: Option<Mode>,
        style: Style,
    },
    /// Check a pickle.
    Check {
        pickle: String,
    },
    /// Print the types that a pickle declares.
    Types {
        pickle: String,
    },
    /// Print the parts that values of a type of a pickle can have, to at most so many levels below the value, or to all.
    Parts {
        pickle: String,
        name: String,
        depth: Option<u64>,
    },
    /// Print the formats that files have.
    Identify(Identification),
    /// Print the pickles that are installed.
    Formats,
    /// Dump `size` bytes of a file, from the byte `from` on.
    Dump {
        from: u64,
        size: u64,
        ruler: bool,
        file: String,
    },
}

/// Why arguments aren't a job.
#[derive(Debug, Drop, PartialEq, Eq, Error)]
pub enum WordFault {
    /// A usage error. The text is its message.
    #[error("{0}")]
    Usage(String),
    /// The arguments request help or the version. The text is what to print.
    #[error("{0}")]
    Help(String),
    /// An argument isn't an offset, is 2^64 bits or more, or isn't whole bytes for an option that needs them.
    #[error("refused offset")]
    Offset,
    /// An allocation failed.
    #[error("fault Memory")]
    Memory,
}

impl From<AllocError> for WordFault {
    ghost from_gives = { λ _ fault. fault ≡ Memory };

    fn from(_error: AllocError) -> WordFault {
        WordFault::Memory
    }
}

/// A job, whether it explains a refusal or a fault, and how it answers.
#[derive(Debug, Drop, PartialEq, Eq)]
pub struct Asked {
    /// The job that is requested.
    pub job: Job,
    /// Whether `--why` was given.
    pub why: bool,
    /// Whether the job is a dump of which no size was given.
    pub default_size: bool,
    /// How a check, a list of types, the formats of files or the list of formats is printed. Other jobs have words.
    pub answer: AnswerForm,
}

/// Reads the arguments, without the program's name, as a job. Without arguments the job is a check of standard input,
/// `-`. [`read_asked`] also returns whether `--why` was given.
///
/// clap reads all arguments before any of them is read as a path or an offset, and offsets are judged last. The
/// commands, their options and their defaults are this project's own; `--help` prints them.
pub fn read_words(alloc: Global, words: Vec<String>) -> Result<Job, WordFault>
    ensures empty { words.items ≡ [] → MatchResult result (IsCheckOf (codes "-")) (λ fault. fault ≡ WordFault.Memory) }
    ensures asks { words.items ≢ [] → IfOk result (IsJobAskedBy (command_line (map string_bytes words.items))) }
    ensures fails { words.items ≢ [] → IfErr result (FailsTo (command_line (map string_bytes words.items))) }
{
    Ok(read_asked(alloc, words)?.job)
}

/// Reads the arguments, without the program's name, as a job, and whether `--why` is among them. Without arguments the
/// job is a check of standard input, `-`, without `--why`.
pub fn read_asked(alloc: Global, words: Vec<String>) -> Result<Asked, WordFault>
    ensures empty { words.items ≡ [] →
        MatchResult result (IsBareCheckOf (codes "-")) (λ fault. fault ≡ WordFault.Memory) }
    ensures asks { words.items ≢ [] → IfOk result (IsAskedBy (command_line (map string_bytes words.items))) }
    ensures fails { words.items ≢ [] → IfErr result (FailsTo (command_line (map string_bytes words.items))) }
{
    if words.is_empty() {
        let pickle = String::from_str(alloc, "-")?;
        return Ok(Asked {
            job: Job::Check { pickle },
            why: false,
            default_size: false,
            answer: AnswerForm::Text,
        });
    }
    let line = command_line(alloc, words.as_slice())?;
    let words = without_help_of_help(words.as_slice());
    match matches_of(alloc, line.as_slice()) {
        Ok(matches) => read_matches(alloc, &matches, words),
        Err(error) => Err(word_fault(alloc, &error, words)?),
    }
}

// What the parser finds in the words of a command line.
fn matches_of<'a>(alloc: Global, line: &'a [String]) -> Result<ArgMatches<'a>, clap::Error>
    ensures finds { IfOk result (Finds (map string_bytes line.entry.now)) }
    ensures fails { IfErr result (Fails (map string_bytes line.entry.now)) }
{
    let program = program(alloc, arguments(), command_in(line), Ties::Without)?;
    program.try_get_matches_from(line)
}

// The command that the first word after the program's name is, if it is one. The parser then looks at the arguments of
// no other command.
fn command_in<'a>(line: &'a [String]) -> Option<&'a str>
    ensures { IfSome result (λ name. EntersCommand (map string_bytes line.entry.now) name.now) }
{
    let word = line.get(1)?.as_str();
    match is_command(word) {
        true => Some(word),
        false => None,
    }
}

// The job of the command that was found.
fn read_matches(
    alloc: Global,
    matches: &ArgMatches<'_>,
    words: &[String],
) -> Result<Asked, WordFault>
    ensures asks { IfOk result (λ asked. (line : List (List ℕ)) → Finds line matches.now → IsAskedBy line asked) }
    ensures unread { IfErr result (λ fault. (line : List (List ℕ)) → Finds line matches.now → IsUnread line fault) }
{
    match matches.subcommand() {
        Some((command, found)) => read_tied(alloc, command, found, words),
        None => Err(WordFault::Usage(usage_of(alloc, words, Ties::With)?)),
    }
}

// The same, if the ties between the arguments are kept.
fn read_tied(
    alloc: Global,
    command: &str,
    found: &ArgMatches<'_>,
    words: &[String],
) -> Result<Asked, WordFault>
    ensures tied { OnOk result (keeps_ties command.now (found_of found.now) ≡ true) }
    ensures asks { IfOk result (AsksOf command.now (found_of found.now)) }
    ensures misread { IfErr result
        (FailsFor (IsMisread command.now (found_of found.now)) (IsMisplaced command.now (found_of found.now))) }
{
    if !keeps_ties(command, found) {
        return Err(WordFault::Usage(untied_usage(alloc, command, found, words)?));
    }
    read_found(alloc, command, found, words)
}

// The usage error for arguments that break a tie.
fn untied_usage(
    alloc: Global,
    command: &str,
    found: &ArgMatches<'_>,
    words: &[String],
) -> Result<String, AllocError> {
    if leaves_type_out(command, found) {
        usage_of(alloc, words, Ties::WithoutType)
    } else if leaves_pickle_out(command, found) {
        usage_of(alloc, words, Ties::WithoutPickle)
    } else {
        usage_of(alloc, words, Ties::With)
    }
}

// Whether the pickle and TYPE are left out among the arguments of a command.
fn leaves_pickle_out(command: &str, found: &ArgMatches<'_>) -> bool {
    matches!(command, "show" | "find") && (shows_file_alone(found) || !is_given(found, "PICKLE"))
}

// Whether TYPE is left out among the arguments of a command, which are enough without it.
fn leaves_type_out(command: &str, found: &ArgMatches<'_>) -> bool {
    match command {
        "map" | "show" | "records" | "find" => has_words(found, "FILE") && !is_given(found, "FILE"),
        "bound" => has_words(found, "BITS") && !is_given(found, "BITS"),
        "each" => !is_given(found, "TYPE") && has_type(word(found, "PICKLE"), None),
        _ => false,
    }
}

fn read_found(
    alloc: Global,
    command: &str,
    found: &ArgMatches<'_>,
    words: &[String],
) -> Result<Asked, WordFault>
    ensures asks { IfOk result (AsksOf command.now (found_of found.now)) }
    ensures misread { IfErr result
        (FailsFor (Misread command.now (found_of found.now)) (Misplaced command.now (found_of found.now))) }
{
    Ok(Asked {
        job: read_command(alloc, command, found, words)?,
        why: flag_of(found, "why"),
        default_size: has_no_size(command, found),
        answer: answer_form(command, found),
    })
}

// How a command answers that has the option `--mode` for that.
fn answer_form(command: &str, found: &ArgMatches<'_>) -> AnswerForm
    ensures { AnswersIn command.now (word_in (found_of found.now) (codes "mode")) result }
{
    match command {
        "check" | "types" | "formats" | "identify" => answer_of(word(found, "mode")),
        _ => AnswerForm::Text,
    }
}

// Whether a dump has no size among its arguments.
fn has_no_size(command: &str, found: &ArgMatches<'_>) -> bool
    ensures { result ≡ has_no_size command.now (found_of found.now) }
{
    command == "dump" && !is_given(found, "size") && !is_given(found, "length")
}

// The arguments after the program's name, which clap's messages print.
fn after_name<'a>(alloc: Global, words: &'a [String]) -> Result<Vec<&'a str>, AllocError> {
    let mut named = Vec::new(alloc);
    named.push(PROGRAM)?;
    for word in words {
        named.push(word.as_str())?;
    }
    Ok(named)
}

fn word_fault(alloc: Global, error: &clap::Error, words: &[String]) -> Result<WordFault, AllocError>
    ensures fault { IfOk result (λ fault. fault ≢ WordFault.Offset) }
    ensures refused { IfOk result (λ fault. (line : List (List ℕ)) → Fails line error.now → IsRefused line fault) }
{
    match error.kind() {
        ErrorKind::DisplayHelp | ErrorKind::DisplayVersion => {
            Ok(WordFault::Help(help_of(alloc, error, words)?))
        }
        ErrorKind::OutOfMemory => Ok(WordFault::Memory),
        _ => Ok(WordFault::Usage(usage_of(alloc, words, Ties::With)?)),
    }
}

// The text of help for arguments, by the program with ties.
fn help_of(alloc: Global, error: &clap::Error, words: &[String]) -> Result<String, AllocError> {
    let named = after_name(alloc, words)?;
    match program(alloc, arguments(), None, Ties::With)?.try_get_matches_from(named.as_slice()) {
        Ok(_matches) => text_of(alloc, error),
        Err(tied) => text_of(alloc, &tied),
    }
}

// The usage error for arguments. clap's message repeats some of them, and an argument with a line feed could pass for a
// line of the message. clap therefore reads the escaped arguments once more, and its message on those is printed. No
// option, command or value of an option has a backslash, so an argument that was wrong stays wrong.
fn usage_of(alloc: Global, words: &[String], ties: Ties) -> Result<String, AllocError> {
    let shown = shown_words(alloc, words)?;
    let named = after_name(alloc, shown.as_slice())?;
    match program(alloc, arguments(), None, ties)?.try_get_matches_from(named.as_slice()) {
        Ok(_matches) if has_option(words, "--inside") => String::from_str(alloc, NO_HEAD),
        Ok(_matches) if has_option(words, "--resume") => String::from_str(alloc, NO_LIST),
        Ok(_matches) => String::from_str(alloc, WRONG_WORD),
        Err(error) => without_wrong_tip(alloc, text_of(alloc, &error)?, words),
    }
}

// Whether an option is among the arguments, of which clap doesn't know what it needs.
fn has_option(words: &[String], option: &str) -> bool {
    words.iter().any(|word| word.as_str().starts_with(option))
}

fn text_of(alloc: Global, error: &clap::Error) -> Result<String, AllocError> {
    if error.kind() == ErrorKind::OutOfMemory {
        return Err(AllocError);
    }
    match format!(in alloc; "{error}") {
        Ok(text) => Ok(text),
        Err(_) => Err(AllocError),
    }
}

fn read_command(
    alloc: Global,
    command: &str,
    found: &ArgMatches<'_>,
    words: &[String],
) -> Result<Job, WordFault>
    ensures asks { IfOk result (Asks (found_of found.now)) }
    ensures command { IfOk result (IsJobOf (Some command.now)) }
    ensures misread { IfErr result
        (FailsFor (Misread command.now (found_of found.now)) (Misplaced command.now (found_of found.now))) }
{
    match command {
        "map" => read_map(alloc, found),
        "show" => read_show(alloc, found),
        "each" => read_each(alloc, found),
        "records" => read_records(alloc, found),
        "find" => read_find(alloc, found),
        "identify" => read_identify(alloc, found),
        "bound" => read_bound(alloc, found, words),
        "types" => read_types(alloc, found),
        "formats" => Ok(Job::Formats),
        "dump" => read_dump(alloc, found),
        _ => read_check(alloc, found),
    }
}

fn read_map(alloc: Global, found: &ArgMatches<'_>) -> Result<Job, WordFault>
    ensures asks { IfOk result (Asks (found_of found.now)) }
    ensures command { IfOk result (IsJobOf (Some (codes "map"))) }
    ensures offset { IfErr result (λ fault. fault ≡ WordFault.Offset → IsNoExtent (found_of found.now)) }
    ensures misread { IfErr result (FailsFor (MisreadRequest (found_of found.now) Choice.Parts
        ⊎ IsNoRaw (found_of found.now)) (IsNoExtent (found_of found.now))) }
{
    let terms = terms_of(alloc, found, Choice::Parts, Style::plain())?;
    let spool = spool_of(alloc, found)?;
    let file = file_of(alloc, found)?;
    let subject = subject_of(alloc, found, type_word(found, "FILE"))?;
    let mapping = mapping_words(alloc, found)?;
    let mode = mode_of(word(found, "mode"));
    let progress = flag_of(found, "progress");
    let raw = raw_of(alloc, found, &terms.selection)?;
    let is_plain = is_plain(raw, spool, mapping.window, progress, &terms);
    let faults = faults_of(word(found, "faults"));
    match (mapping.start, mapping.limit, subject, faults) {
        (Start::Bit(at), Limit::Steps(limit), Subject::Named { pickle, name }, FaultForm::Text)
            if is_plain => Ok(Job::Map {
            at,
            order: order_or_big(mapping.order),
            limit,
            mode,
            pickle,
            name,
            file,
        }),
        (_, _, subject, faults) => {
            let form = Form::Printed { mode, faults };
            let over = over_file(file, raw);
            Ok(Job::Request(request(found, mapping, spool, terms, form, subject, over)))
        }
    }
}

// The request to write values of a subject over something, in a form.
fn request(
    found: &ArgMatches<'_>,
    mapping: MappingWords,
    spool: Option<u64>,
    terms: Terms,
    form: Form,
    subject: Subject,
    over: Over,
) -> Request
    requires mapping { AsksMappingOf (found_of found.now) mapping }
    requires spools { Spools (found_of found.now) spool }
    requires values { AsksValues (found_of found.now) terms form subject over }
    ensures asks { AsksRequest (found_of found.now) result }
    ensures is { (result.form ≡ form) × (result.over ≡ over) }
{
    Request {
        start: mapping.start,
        window: mapping.window,
        order: mapping.order,
        limit: mapping.limit,
        spool,
        terms,
        form,
        progress: flag_of(found, "progress"),
        subject,
        over,
    }
}

// Whether the bytes of a part are requested as they are. They are those of one part, without a selection.
fn raw_of(
    alloc: Global,
    found: &ArgMatches<'_>,
    selection: &Option<Selection>,
) -> Result<bool, WordFault>
    ensures ok { IfOk result (λ raw. raw ≡ is_raw (found_of found.now)) }
    ensures one { IfOk result (λ raw. raw ≡ true → selection.now ≡ None) }
    ensures fault { IfErr result (λ fault. fault ≢ WordFault.Offset) }
    ensures misread { Selects (found_of found.now) Choice.Parts selection.now →
        IfErr result (FailsFor (IsNoRaw (found_of found.now)) ⊥) }
{
    let raw = is_raw(found);
    match selection {
        Some(_) if raw => Err(WordFault::Usage(String::from_str(alloc, NO_RAW)?)),
        _ => Ok(raw),
    }
}

// Whether the bytes of a part are requested as they are.
fn is_raw(found: &ArgMatches<'_>) -> bool
    ensures { result ≡ is_raw (found_of found.now) }
{
    word(found, "mode") == "raw"
}

// What is mapped over: a file whose value is printed, or whose bytes are written as they are.
fn over_file(file: String, raw: bool) -> Over
    ensures { result ≡ over_file file raw }
{
    if raw {
        Over::Bytes(file)
    } else {
        Over::File(file)
    }
}

// The file that is mapped: the last argument, before which the type may be left out, or the pickle too.
fn file_of(alloc: Global, found: &ArgMatches<'_>) -> Result<String, AllocError>
    ensures { IfOk result (λ file. string_bytes file ≡ file_in (found_of found.now)) }
{
    let file = after_type(found, "FILE").unwrap_or(word(found, "PICKLE"));
    String::from_str(alloc, file)
}

fn order_or_big(order: Option<Order>) -> Order
    ensures { (word : Option (List ℕ)) → NamesOrderIfAny word order → NamesOrderOrBig word result }
{
    order.unwrap_or(Order::Big)
}

fn read_show(alloc: Global, found: &ArgMatches<'_>) -> Result<Job, WordFault>
    ensures asks { IfOk result (Asks (found_of found.now)) }
    ensures command { IfOk result (IsJobOf (Some (codes "show"))) }
    ensures offset { IfErr result (λ fault. fault ≡ WordFault.Offset → IsNoExtent (found_of found.now)) }
    ensures misread { IfErr result
        (FailsFor (MisreadRequest (found_of found.now) Choice.Parts) (IsNoExtent (found_of found.now))) }
{
    let spool = spool_of(alloc, found)?;
    let terms = terms_of(alloc, found, Choice::Parts, style_for_the_eye())?;
    let depth = depth_of(alloc, found, Some(SHOWN_LEVELS))?;
    let file = file_of(alloc, found)?;
    let subject = shown_subject(alloc, found)?;
    let mapping = mapping_words(alloc, found)?;
    let form = Form::Shown {
        color: color_of(word(found, "color")),
        depth,
        numbers: numbers_if_any(found),
        beside: beside_of(found),
    };
    let over = Over::File(file);
    Ok(Job::Request(request(found, mapping, spool, terms, form, subject, over)))
}

fn read_each(alloc: Global, found: &ArgMatches<'_>) -> Result<Job, WordFault>
    ensures asks { IfOk result (Asks (found_of found.now)) }
    ensures command { IfOk result (IsJobOf (Some (codes "each"))) }
    ensures offset { IfErr result (λ fault. fault ≡ WordFault.Offset → IsNoExtent (found_of found.now)) }
    ensures misread { IfErr result
        (FailsFor (MisreadRequest (found_of found.now) Choice.Columns) (IsNoExtent (found_of found.now))) }
{
    let spool = spool_of(alloc, found)?;
    let terms = terms_of(alloc, found, Choice::Columns, Style::plain())?;
    let names = names_in(alloc, found)?;
    let subject = subject_of(alloc, found, found.get_str("TYPE"))?;
    let mapping = mapping_words(alloc, found)?;
    let over = Over::Files {
        names,
        flush: flag_of(found, "flush"),
    };
    let form = Form::Printed {
        mode: mode_of(word(found, "mode")),
        faults: faults_of(word(found, "faults")),
    };
    Ok(Job::Request(request(found, mapping, spool, terms, form, subject, over)))
}

fn read_records(alloc: Global, found: &ArgMatches<'_>) -> Result<Job, WordFault>
    ensures asks { IfOk result (Asks (found_of found.now)) }
    ensures command { IfOk result (IsJobOf (Some (codes "records"))) }
    ensures offset { IfErr result (λ fault. fault ≡ WordFault.Offset → IsNoListExtent (found_of found.now)) }
    ensures misread { IfErr result (FailsFor (MisreadRequest (found_of found.now) Choice.Columns
        ⊎ IsNoList (found_of found.now)) (IsNoListExtent (found_of found.now))) }
{
    let spool = spool_of(alloc, found)?;
    let terms = terms_of(alloc, found, Choice::Columns, Style::plain())?;
    let over = records_of(alloc, found)?;
    let name = type_word(found, "FILE");
    let subject = subject_by_part(alloc, found, name, HeadType::Records)?;
    let mapping = mapping_words(alloc, found)?;
    let form = Form::Printed {
        mode: mode_of(word(found, "mode")),
        faults: faults_of(word(found, "faults")),
    };
    Ok(Job::Request(request(found, mapping, spool, terms, form, subject, over)))
}

// The records of a list in a file.
fn records_of(alloc: Global, found: &ArgMatches<'_>) -> Result<Over, WordFault>
    ensures ok { IfOk result (IsListOver (found_of found.now)) }
    ensures offset { IfErr result (λ fault. fault ≡ WordFault.Offset → IsNoListExtent (found_of found.now)) }
    ensures misread { IfErr result (FailsFor (IsNoList (found_of found.now)) (IsNoListExtent (found_of found.now))) }
{
    let of = source_of(alloc, found)?;
    let list = list_of(alloc, found)?;
    let file = file_of(alloc, found)?;
    Ok(Over::Records { file, of, list })
}

// What the records of a list are: elements at the path that is given, or that the head of the pickle says, or values.
fn source_of(alloc: Global, found: &ArgMatches<'_>) -> Result<RecordsOf, WordFault>
    ensures ok { IfOk result (IsSource (found_of found.now) (first_value (found_of found.now) (codes "of"))) }
    ensures fault { IfErr result (λ fault. fault ≢ WordFault.Offset) }
    ensures misread { IfErr result (FailsFor (IsNoPathIfAny (first_value (found_of found.now) (codes "of"))) ⊥) }
{
    if let Some(path) = path_if_any(alloc, found, "of", OF)? {
        return Ok(RecordsOf::Path(path));
    }
    match is_by_head(word(found, "PICKLE"), type_word(found, "FILE")) {
        true => Ok(RecordsOf::Head),
        false => Ok(RecordsOf::Values),
    }
}

// Which records are printed, and how their list may end.
fn list_of(alloc: Global, found: &ArgMatches<'_>) -> Result<RecordList, WordFault>
    ensures ok { IfOk result (AsksList (found_of found.now)) }
    ensures offset { IfErr result (λ fault. fault ≡ WordFault.Offset → IsNoListExtent (found_of found.now)) }
    ensures misread { IfErr result (FailsFor (IsNoList (found_of found.now)) (IsNoListExtent (found_of found.now))) }
{
    Ok(RecordList {
        omit: number_of(alloc, found, "omit", "--omit <N>", 0)?,
        count: number_if_any(alloc, found, "count", "--count <N>")?,
        any_end: flag_of(found, "any-end"),
        flush: flag_of(found, "flush"),
        report_end: flag_of(found, "report-end"),
        header: header_of(alloc, found)?,
        grows: grows_limit(found),
        resume: bits_if_any(found, "resume")?,
    })
}

// Whether a line with the names of the columns comes first. JSON has none.
fn header_of(alloc: Global, found: &ArgMatches<'_>) -> Result<bool, WordFault>
    ensures ok { IfOk result (HasHeader (found_of found.now)) }
    ensures fault { IfErr result (λ fault. fault ≢ WordFault.Offset) }
    ensures misread { IfErr result (FailsFor (IsNoHeader (found_of found.now)) ⊥) }
{
    let header = flag_of(found, "header");
    if header && word(found, "mode") == "json" {
        return Err(WordFault::Usage(String::from_str(alloc, NO_HEADER)?));
    }
    Ok(header)
}

fn read_find(alloc: Global, found: &ArgMatches<'_>) -> Result<Job, WordFault>
    ensures asks { IfOk result (Asks (found_of found.now)) }
    ensures command { IfOk result (IsJobOf (Some (codes "find"))) }
    ensures offset { IfErr result (λ fault. fault ≡ WordFault.Offset →
        IsNoExtent (found_of found.now) ⊎ IsNoStep (found_of found.now)) }
    ensures misread { IfErr result (FailsFor (MisreadRequest (found_of found.now) Choice.Columns
        ⊎ (IsNoSearch (found_of found.now) ⊎ SeeksParts (found_of found.now)))
        (IsNoExtent (found_of found.now) ⊎ IsNoStep (found_of found.now))) }
{
    let spool = spool_of(alloc, found)?;
    let terms = terms_of(alloc, found, Choice::Columns, Style::plain())?;
    let search = search_of(alloc, found)?;
    let file = file_of(alloc, found)?;
    let subject = found_subject(alloc, found, &terms)?;
    let mapping = mapping_words(alloc, found)?;
    let over = Over::Search { file, search };
    let form = Form::Printed {
        mode: mode_of(word(found, "mode")),
        faults: faults_of(word(found, "faults")),
    };
    Ok(Job::Request(request(found, mapping, spool, terms, form, subject, over)))
}

// What is looked for: a type, or if one argument alone is the file, all formats, whose values have no parts in common.
fn found_subject(alloc: Global, found: &ArgMatches<'_>, terms: &Terms) -> Result<Subject, WordFault>
    ensures ok { IfOk result (SeeksSubject (found_of found.now) (type_in (found_of found.now) (codes "FILE"))) }
    ensures fault { IfErr result (λ fault. fault ≢ WordFault.Offset) }
    ensures misread { HasTerms (found_of found.now) Choice.Columns plain terms.now →
        IfErr result (FailsFor (SeeksParts (found_of found.now)) ⊥) }
{
    if !shows_file_alone(found) {
        let name = type_word(found, "FILE");
        return Ok(subject_by_part(alloc, found, name, HeadType::Inside)?);
    }
    if asks_parts(terms) {
        return Err(WordFault::Usage(String::from_str(alloc, NO_PARTS)?));
    }
    Ok(Subject::Identified)
}

// Whether parts of values are requested.
fn asks_parts(terms: &Terms) -> bool
    ensures { result ≡ asks_parts terms.now }
{
    terms.part.is_some() || terms.selection.is_some()
}

// At which places a type is tried, and which values are printed.
fn search_of(alloc: Global, found: &ArgMatches<'_>) -> Result<ValueSearch, WordFault>
    ensures ok { IfOk result (AsksSearch (found_of found.now)) }
    ensures offset { IfErr result (λ fault. fault ≡ WordFault.Offset → IsNoStep (found_of found.now)) }
    ensures misread { IfErr result (FailsFor (IsNoSearch (found_of found.now)) (IsNoStep (found_of found.now))) }
{
    Ok(ValueSearch {
        step: step_of(alloc, found)?,
        attempt_limit: number_of(
            alloc,
            found,
            "attempt-limit",
            "--attempt-limit <N>",
            ATTEMPT_LIMIT,
        )?,
        count: number_if_any(alloc, found, "count", "--count <N>")?,
        apart: flag_of(found, "apart"),
        flush: flag_of(found, "flush"),
        header: header_of(alloc, found)?,
        grows: grows_limit(found),
    })
}

// How many bits lie between two places.
fn step_of(alloc: Global, found: &ArgMatches<'_>) -> Result<u64, WordFault>
    ensures ok { IfOk result (NamesStep (word_in (found_of found.now) (codes "step"))) }
    ensures offset { IfErr result (λ fault. fault ≡ WordFault.Offset → IsNoStep (found_of found.now)) }
    ensures misread { IfErr result (FailsFor (IsOffsetWord (word_in (found_of found.now) (codes "step")) 0)
        (IsNoStep (found_of found.now))) }
{
    match bits_of(word(found, "step"))? {
        0 => Err(WordFault::Usage(String::from_str(alloc, NO_STEP)?)),
        step => Ok(step),
    }
}

fn read_identify(alloc: Global, found: &ArgMatches<'_>) -> Result<Job, WordFault>
    ensures asks { IfOk result (Asks (found_of found.now)) }
    ensures command { IfOk result (IsJobOf (Some (codes "identify"))) }
    ensures misread { IfErr result (FailsFor (IsNoNumberIfAny (first_value (found_of found.now) (codes "spool")))
        (IsNoByteExtent (found_of found.now))) }
{
    let spool = spool_of(alloc, found)?;
    let folder = word_if_any(alloc, found, "in")?;
    let names = names_in(alloc, found)?;
    let flush = flag_of(found, "flush");
    Ok(Job::Identify(Identification {
        start: byte_of(found)?,
        window: window_of(found)?,
        spool,
        all: flag_of(found, "all"),
        folder,
        faults: faults_of(word(found, "faults")),
        progress: flag_of(found, "progress"),
        names,
        flush,
    }))
}

// The most bytes that are read of a file without a length, if such a file is read.
fn spool_of(alloc: Global, found: &ArgMatches<'_>) -> Result<Option<u64>, WordFault>
    ensures ok { IfOk result (NumberIfAny (first_value (found_of found.now) (codes "spool"))) }
    ensures fault { IfErr result (λ fault. fault ≢ WordFault.Offset) }
    ensures misread { IfErr result (FailsFor (IsNoNumberIfAny (first_value (found_of found.now) (codes "spool"))) ⊥) }
{
    number_if_any(alloc, found, "spool", "--spool <BYTES>")
}

fn names_in(alloc: Global, found: &ArgMatches<'_>) -> Result<FileNames, AllocError>
    ensures { IfOk result (NamesFiles (found_of found.now)) }
{
    if let Some(path) = found.get_str("files0-from") {
        return Ok(FileNames::EndedByZero(String::from_str(alloc, path)?));
    }
    let names = copies(alloc, found.get_strs("FILE").unwrap_or(&[]))?;
    Ok(FileNames::Words(names))
}

fn copies(alloc: Global, words: &[&str]) -> Result<Vec<String>, AllocError>
    ensures { IfOk result (λ copies. map string_bytes copies.items ≡ map (λ word. word.now) words.now) }
{
    let mut copies = Vec::new(alloc);
    for word in words {
        copies.push(String::from_str(alloc, word)?)?;
    }
    Ok(copies)
}

// The terms that the options request. The style is what they don't request of it.
fn terms_of(
    alloc: Global,
    found: &ArgMatches<'_>,
    choice: Choice,
    style: Style,
) -> Result<Terms, WordFault>
    ensures terms { IfOk result (HasTerms (found_of found.now) choice style) }
    ensures path { IfErr result (λ fault. fault ≡ WordFault.Offset → ⊥) }
    ensures misread { IfErr result (FailsFor (MisreadRequest (found_of found.now) choice) ⊥) }
{
    let selection = selection_of(alloc, found, choice)?;
    Ok(Terms {
        whole: flag_of(found, "whole"),
        most_output: number_if_any(alloc, found, "max-output", "--max-output <N>")?,
        part: part_beside(alloc, found, &selection)?,
        most_slots: number_if_any(alloc, found, "slots", "--slots <N>")?,
        most_bytes: number_if_any(alloc, found, "memory", "--memory <BYTES>")?,
        style: style_of(alloc, found, style)?,
        look: None,
        selection,
    })
}

// Whether a mapping has nothing that a plain one lacks.
fn is_plain(
    raw: bool,
    spool: Option<u64>,
    window: Option<u64>,
    progress: bool,
    terms: &Terms,
) -> bool
    ensures { result ≡ true → (raw ≡ false) × (spool ≡ None) × (window ≡ None) × (progress ≡ false)
        × (terms.now ≡ no_terms) }
{
    !raw && spool.is_none() && window.is_none() && !progress && has_no_terms(terms)
}

fn has_no_terms(terms: &Terms) -> bool
    ensures { result ≡ true → terms.now ≡ no_terms }
{
    match terms {
        Terms {
            whole: false,
            most_output: None,
            part: None,
            most_slots: None,
            most_bytes: None,
            style: Style {
                numbers: Numbers::Decimal,
                chars: Chars::Numbers,
                elements: None,
            },
            look: None,
            selection: None,
        } => true,
        _ => false,
    }
}

// The mode that an argument names: the default, `flat`, for any but the three others.
fn mode_of(word: &str) -> Mode
    ensures { NamesMode word.now result }
{
    match word {
        "tree" => Mode::Tree,
        "json" => Mode::Json,
        "lines" => Mode::Lines,
        _ => Mode::Flat,
    }
}

fn read_bound(alloc: Global, found: &ArgMatches<'_>, words: &[String]) -> Result<Job, WordFault>
    ensures asks { IfOk result (Asks (found_of found.now)) }
    ensures command { IfOk result (IsJobOf (Some (codes "bound"))) }
    ensures usage { IfErr result (λ fault. (fault ≡ Memory) ⊎ IsNoBound (found_of found.now)) }
    ensures fault { IfErr result (λ fault. fault ≢ WordFault.Offset) }
    ensures misread { IfErr result (FailsFor (IsNoBound (found_of found.now)) ⊥) }
{
    let pickle = word_of(alloc, found, "PICKLE")?;
    let name = String::from_str(alloc, type_word(found, "BITS").unwrap_or(BY_HEAD))?;
    let bits = bits_in(alloc, found, words)?;
    if flag_of(found, "text") {
        return Ok(Job::BoundText {
            pickle,
            name,
            bits,
            mode: mode_in(found),
            style: style_of(alloc, found, Style::plain())?,
        });
    }
    if flag_of(found, "tight") {
        return Ok(Job::TightBound { pickle, name, bits });
    }
    if flag_of(found, "memory") {
        return Ok(Job::MemoryBound { pickle, name, bits });
    }
    Ok(Job::Bound { pickle, name, bits })
}

// The number of bits of a bound.
fn bits_in(alloc: Global, found: &ArgMatches<'_>, words: &[String]) -> Result<u64, WordFault>
    ensures ok { IfOk result (NumberIn (after_type_in (found_of found.now) (codes "BITS")) 0) }
    ensures err { IfErr result
        (λ fault. (fault ≡ Memory) ⊎ IsNoNumberIfAny (after_type_in (found_of found.now) (codes "BITS"))) }
    ensures fault { IfErr result (λ fault. fault ≢ WordFault.Offset) }
    ensures misread { IfErr result (FailsFor (IsNoNumberIfAny (after_type_in (found_of found.now) (codes "BITS"))) ⊥) }
{
    let Some(word) = after_type(found, "BITS") else {
        return Ok(0);
    };
    match whole_number(word.as_bytes()) {
        Some(bits) => Ok(bits),
        None => Err(WordFault::Usage(usage_of(alloc, words, Ties::With)?)),
    }
}

// The mode that is requested, if one is.
fn mode_in(found: &ArgMatches<'_>) -> Option<Mode>
    ensures { NamesModeIfAny (first_value (found_of found.now) (codes "mode")) result }
{
    match found.get_str("mode") {
        Some(word) => Some(mode_of(word)),
        None => None,
    }
}

fn read_check(alloc: Global, found: &ArgMatches<'_>) -> Result<Job, WordFault>
    ensures asks { IfOk result (Asks (found_of found.now)) }
    ensures check { IfOk result (IsCheckOf (word_in (found_of found.now) (codes "PICKLE"))) }
    ensures memory { IfErr result (λ fault. fault ≡ Memory) }
{
    Ok(Job::Check {
        pickle: word_of(alloc, found, "PICKLE")?,
    })
}

fn read_types(alloc: Global, found: &ArgMatches<'_>) -> Result<Job, WordFault>
    ensures asks { IfOk result (Asks (found_of found.now)) }
    ensures command { IfOk result (IsJobOf (Some (codes "types"))) }
    ensures misread { IfErr result (FailsFor (IsNoElementsIfAny (first_value (found_of found.now) (codes "depth"))) ⊥) }
{
    let pickle = word_of(alloc, found, "PICKLE")?;
    let Some(name) = found.get_str("parts") else {
        return Ok(Job::Types { pickle });
    };
    Ok(Job::Parts {
        pickle,
        name: String::from_str(alloc, name)?,
        depth: depth_of(alloc, found, Some(SHOWN_LEVELS))?,
    })
}

fn read_dump(alloc: Global, found: &ArgMatches<'_>) -> Result<Job, WordFault>
    ensures asks { IfOk result (Asks (found_of found.now)) }
    ensures command { IfOk result (IsJobOf (Some (codes "dump"))) }
    ensures offset { IfErr result (λ fault. fault ≡ WordFault.Offset → IsNoRange (found_of found.now)) }
    ensures misread { IfErr result (FailsFor ⊥ (IsNoRange (found_of found.now))) }
{
    let from = bytes_in(found, "skip", "from")?;
    let size = bytes_in(found, "length", "size")?;
    Ok(Job::Dump {
        from,
        size,
        ruler: !flag_of(found, "no-ruler"),
        file: word_of(alloc, found, "FILE")?,
    })
}
