//! The parts of a value that arguments request.
ghost use Rattle.std.specs.Prelude.{◌≡◌, ◌≢◌, ◌⊎◌, None, true, false, map, codes, IfOk, IfErr, OnOk};
ghost use Rattle.clap.specs.Matches.{found_of, first_value};
ghost use Rattle.command_line.specs.Paths.{steps_of, IsPath};
ghost use Rattle.command_line.specs.Patterns.{parts_of, IsPattern};
ghost use Rattle.command_line.specs.Misread.{FailsFor, AnyWord, IsNoPattern, IsNoOnePath, IsNoColumn, MisreadSelection, MisreadColumns, MisreadRows};
ghost use Rattle.command_line.specs.Selects.{IsNoPath, IsNoPathIfAny, PathIfAny, NamesAbsent, ArePatterns, AreColumns, IsOnePath, NamesRows, SelectsParts, IsRowOf, SelectsColumns, Selects, PartBeside, HasKeys, HasRows, IsColumn, are_distinct, begins_path, column_name, column_path, is_among, is_named, is_one_path, is_row};
ghost use Rattle.command_line.specs.declared.selection.Absent.TheVariants.{Skip};
ghost use Rattle.command_line.specs.declared.words.WordFault.TheVariants.{Offset};

use crate::path::{Path, PathFault, read_path};
use crate::pattern::{Pattern, read_pattern};
use crate::selection::{Absent, Choice, Column, Rows, Selection, Shape};
use crate::words::WordFault;
use crate::words::found::{flag_of, word};
use crate::words::usage::invalid_value;
use clap::ArgMatches;
use std::alloc::Global;

/// How messages name the option of a part, and that of rows.
const GET: &str = "--get <PATH>";

const ROWS: &str = "--rows <PATTERN>";

/// What is wrong with an argument that is no path.
const NO_PATH: &str = "not a path";

/// The usage error for two columns of one name in JSON.
const SAME_NAME: &str =
    "error: two columns have one name, and json has each once: --get <NAME=PATH> names one\n\nFor more information, try '--help'.\n";

/// The usage error for rows to leave out where none are printed.
const NO_ROWS: &str =
    "error: --absent skip leaves out rows, which --rows prints\n\nFor more information, try '--help'.\n";

/// The selection that the options request, if they request more than one part at most.
pub fn selection_of(
    alloc: Global,
    found: &ArgMatches<'_>,
    choice: Choice,
) -> Result<Option<Selection>, WordFault>
    ensures ok { IfOk result (Selects (found_of found.now) choice) }
    ensures fault { IfErr result (λ fault. fault ≢ Offset) }
    ensures misread { IfErr result (FailsFor (MisreadSelection (found_of found.now) choice) ⊥) }
{
    let absent = absent_of(word(found, "absent"));
    let words = found.get_strs("get").unwrap_or(&[]);
    match choice {
        Choice::Parts => match found.get_str("rows") {
            Some(pattern) => Ok(Some(Selection {
                shape: Shape::Rows(rows_of(alloc, found, pattern, words)?),
                absent,
            })),
            None => parts_of(alloc, words, absent),
        },
        Choice::Columns => {
            let header = flag_of(found, "header");
            columns_selection(alloc, word(found, "mode"), header, words, absent)
        }
    }
}

/// The path to the requested part, if there is one and no selection is requested.
pub fn part_beside(
    alloc: Global,
    found: &ArgMatches<'_>,
    selection: &Option<Selection>,
) -> Result<Option<Path>, WordFault>
    ensures part { IfOk result (PartBeside (first_value (found_of found.now) (codes "get")) selection.now) }
    ensures fault { IfErr result (λ fault. fault ≢ Offset) }
    ensures misread { IfErr result
        (FailsFor ((selection.now ≡ None) × IsNoPathIfAny (first_value (found_of found.now) (codes "get"))) ⊥) }
{
    match selection {
        Some(_) => Ok(None),
        None => path_if_any(alloc, found, "get", GET),
    }
}

/// The path that an argument is, if it was given. `place` is how messages name the argument.
pub fn path_if_any(
    alloc: Global,
    found: &ArgMatches<'_>,
    name: &str,
    place: &str,
) -> Result<Option<Path>, WordFault>
    ensures path { IfOk result (PathIfAny (first_value (found_of found.now) name.now)) }
    ensures fault { IfErr result (λ fault. fault ≢ Offset) }
    ensures misread { IfErr result (FailsFor (IsNoPathIfAny (first_value (found_of found.now) name.now)) ⊥) }
{
    match found.get_str(name) {
        Some(word) => Ok(Some(path_of(alloc, word, place)?)),
        None => Ok(None),
    }
}

// What an absent part is, as an argument names it: the default, a fault, for any other than `empty` and `skip`.
fn absent_of(word: &str) -> Absent
    ensures { NamesAbsent word.now result }
{
    match word {
        "empty" => Absent::Empty,
        "skip" => Absent::Skip,
        _ => Absent::Fault,
    }
}

// The parts to which the patterns lead that the arguments are. One path alone, whose absence is a fault, is no selection.
fn parts_of(alloc: Global, words: &[&str], absent: Absent) -> Result<Option<Selection>, WordFault>
    ensures ok { IfOk result (SelectsParts (map (λ word. word.now) words.now) absent) }
    ensures fault { IfErr result (λ fault. fault ≢ Offset) }
    ensures misread { IfErr result
        (FailsFor ((absent ≡ Skip) ⊎ AnyWord IsNoPattern (map (λ word. word.now) words.now)) ⊥) }
{
    check_rows(alloc, false, absent)?;
    if words.is_empty() {
        return Ok(None);
    }
    let patterns = patterns_of(alloc, words)?;
    if absent == Absent::Fault && is_one_path(patterns.as_slice()) {
        return Ok(None);
    }
    Ok(Some(Selection {
        shape: Shape::Parts(patterns),
        absent,
    }))
}

fn is_one_path(patterns: &[Pattern]) -> bool
    ensures { result ≡ is_one_path patterns.now }
{
    match patterns {
        [pattern] => pattern.is_path(),
        _ => false,
    }
}

// The columns of the value itself, which the arguments say. One alone that has no name and no header is a part.
fn columns_selection(
    alloc: Global,
    mode: &str,
    header: bool,
    words: &[&str],
    absent: Absent,
) -> Result<Option<Selection>, WordFault>
    ensures ok { IfOk result (SelectsColumns mode.now header (map (λ word. word.now) words.now) absent) }
    ensures fault { IfErr result (λ fault. fault ≢ Offset) }
    ensures misread { IfErr result
        (FailsFor (MisreadColumns mode.now absent (map (λ word. word.now) words.now)) ⊥) }
{
    check_rows(alloc, !words.is_empty(), absent)?;
    if is_row(header, words) {
        return Ok(Some(row_of(alloc, mode, words, absent)?));
    }
    match (words, absent) {
        ([word], Absent::Empty | Absent::Skip) => Ok(Some(Selection {
            shape: Shape::Parts(lone_path(alloc, word)?),
            absent,
        })),
        _ => Ok(None),
    }
}

// Refuses to leave out rows where none are printed.
fn check_rows(alloc: Global, has_rows: bool, absent: Absent) -> Result<(), WordFault>
    ensures ok { OnOk result (absent ≡ Skip → has_rows ≡ true) }
    ensures fault { IfErr result (λ fault. fault ≢ Offset) }
    ensures misread { IfErr result (FailsFor ((absent ≡ Skip) × (has_rows ≡ false)) ⊥) }
{
    if has_rows || absent != Absent::Skip {
        return Ok(());
    }
    Err(WordFault::Usage(String::from_str(alloc, NO_ROWS)?))
}

// Whether a row is printed, in place of one part: of many columns, or of one that has a name or is below a header.
fn is_row(header: bool, words: &[&str]) -> bool
    ensures { result ≡ is_row header (map (λ word. word.now) words.now) }
{
    match words {
        [] => false,
        [word] => header || is_named(word),
        _ => true,
    }
}

// One row, the value itself, with the columns that the arguments say.
fn row_of(alloc: Global, mode: &str, words: &[&str], absent: Absent) -> Result<Selection, WordFault>
    ensures ok { IfOk result (IsRowOf (map (λ word. word.now) words.now) absent) }
    ensures keys { IfOk result (λ row. HasKeys mode.now (map (λ word. word.now) words.now)) }
    ensures fault { IfErr result (λ fault. fault ≢ Offset) }
    ensures misread { IfErr result
        (FailsFor (MisreadColumns mode.now absent (map (λ word. word.now) words.now)) ⊥) }
{
    let rows = Rows {
        pattern: Pattern::root(alloc),
        columns: columns_of(alloc, words)?,
        header: false,
    };
    check_names(alloc, mode, words)?;
    Ok(Selection {
        shape: Shape::Rows(rows),
        absent,
    })
}

// The path that an argument is, as the one pattern.
fn lone_path(alloc: Global, word: &str) -> Result<Vec<Pattern>, WordFault>
    ensures ok { IfOk result (λ patterns. IsOnePath word.now patterns.items) }
    ensures fault { IfErr result (λ fault. fault ≢ Offset) }
    ensures misread { IfErr result (FailsFor (IsNoOnePath word.now) ⊥) }
{
    let patterns = patterns_of(alloc, &[word])?;
    if is_one_path(patterns.as_slice()) {
        return Ok(patterns);
    }
    Err(WordFault::Usage(invalid_value(alloc, word, GET, NO_PATH)?))
}

// The rows that the options request, where the printed value has a mode that has rows.
fn rows_of(
    alloc: Global,
    found: &ArgMatches<'_>,
    pattern: &str,
    words: &[&str],
) -> Result<Rows, WordFault>
    ensures ok { IfOk result (NamesRows (found_of found.now) pattern.now (map (λ word. word.now) words.now)) }
    ensures fault { IfErr result (λ fault. fault ≢ Offset) }
    ensures misread { IfErr result
        (FailsFor (MisreadRows (found_of found.now) pattern.now (map (λ word. word.now) words.now)) ⊥) }
{
    let header = flag_of(found, "header");
    check_mode(alloc, word(found, "mode"), header)?;
    let pattern = pattern_of(alloc, pattern, ROWS, "not a pattern")?;
    let columns = columns_of(alloc, words)?;
    check_names(alloc, word(found, "mode"), words)?;
    Ok(Rows {
        pattern,
        columns,
        header,
    })
}

// Refuses two columns of one name in JSON.
fn check_names(alloc: Global, mode: &str, words: &[&str]) -> Result<(), WordFault>
    ensures ok { OnOk result (HasKeys mode.now (map (λ word. word.now) words.now)) }
    ensures fault { IfErr result (λ fault. fault ≢ Offset) }
    ensures misread { IfErr result (FailsFor (¬ (HasKeys mode.now (map (λ word. word.now) words.now))) ⊥) }
{
    if mode != "json" || are_distinct(words) {
        return Ok(());
    }
    Err(WordFault::Usage(String::from_str(alloc, SAME_NAME)?))
}

// Whether no two arguments say columns of one name.
fn are_distinct(words: &[&str]) -> bool
    ensures { result ≡ are_distinct (map (λ word. word.now) words.now) }
{
    let mut rest = words;
    while let [word, others @ ..] = rest {
        if is_among(word, others) {
            return false;
        }
        rest = others;
    }
    true
}

// Whether an argument says a column that has the name of one of others.
fn is_among(word: &str, others: &[&str]) -> bool
    ensures { result ≡ is_among word.now (map (λ other. other.now) others.now) }
{
    let (name, _) = split_column(word);
    let mut rest = others;
    while let [other, more @ ..] = rest {
        let (others_name, _) = split_column(other);
        if name == others_name {
            return true;
        }
        rest = more;
    }
    false
}

// Refuses a mode that has no rows, or no header.
fn check_mode(alloc: Global, mode: &str, header: bool) -> Result<(), WordFault>
    ensures ok { OnOk result (HasRows mode.now header) }
    ensures fault { IfErr result (λ fault. fault ≢ Offset) }
    ensures misread { IfErr result (FailsFor (¬ (HasRows mode.now header)) ⊥) }
{
    let why = match mode {
        "tree" | "lines" | "raw" => "--rows prints flat or json",
        "json" if header => "--header prints flat",
        _ => return Ok(()),
    };
    Err(WordFault::Usage(invalid_value(alloc, mode, "--mode <MODE>", why)?))
}

fn patterns_of(alloc: Global, words: &[&str]) -> Result<Vec<Pattern>, WordFault>
    ensures ok { IfOk result (λ patterns. ArePatterns (map (λ word. word.now) words.now) patterns.items) }
    ensures fault { IfErr result (λ fault. fault ≢ Offset) }
    ensures misread { IfErr result (FailsFor (AnyWord IsNoPattern (map (λ word. word.now) words.now)) ⊥) }
{
    let mut patterns = Vec::new(alloc);
    for word in words {
        let pattern = pattern_of(alloc, word, GET, NO_PATH)?;
        match patterns.push(pattern) {
            Ok(()) => {}
            Err(_) => return Err(WordFault::Memory),
        }
    }
    Ok(patterns)
}

fn columns_of(alloc: Global, words: &[&str]) -> Result<Vec<Column>, WordFault>
    ensures ok { IfOk result (λ columns. AreColumns (map (λ word. word.now) words.now) columns.items) }
    ensures fault { IfErr result (λ fault. fault ≢ Offset) }
    ensures misread { IfErr result (FailsFor (AnyWord IsNoColumn (map (λ word. word.now) words.now)) ⊥) }
{
    let mut columns = Vec::new(alloc);
    for word in words {
        let column = column_of(alloc, word)?;
        match columns.push(column) {
            Ok(()) => {}
            Err(_) => return Err(WordFault::Memory),
        }
    }
    Ok(columns)
}

// The column that an argument says: its path, or its name, `=` and its path.
fn column_of(alloc: Global, word: &str) -> Result<Column, WordFault>
    ensures ok { IfOk result (IsColumn word.now) }
    ensures fault { IfErr result (λ fault. fault ≢ Offset) }
    ensures misread { IfErr result (FailsFor (IsNoColumn word.now) ⊥) }
{
    let (name, path) = split_column(word);
    let path = path_of(alloc, path, GET)?;
    Ok(Column {
        name: String::from_str(alloc, name)?,
        path,
    })
}

// The name of a column, which is the path if it has no other, and the text of its path.
fn split_column(word: &str) -> (&str, &str)
    ensures name { result.0.now ≡ column_name word.now }
    ensures path { result.1.now ≡ column_path word.now }
{
    if begins_path(word) {
        return (word, word);
    }
    match word.split_once('=') {
        Some((name, path)) => (name, path),
        None => (word, word),
    }
}

// Whether an argument for a column has its name, before the first `=`.
fn is_named(word: &str) -> bool
    ensures { result ≡ is_named word.now }
{
    !begins_path(word) && word.split_once('=').is_some()
}

// Whether a text begins as a path does, or with a `=`, before which there is no name.
fn begins_path(word: &str) -> bool
    ensures { result ≡ begins_path word.now }
{
    match word.as_bytes() {
        [] => true,
        [first, ..] => matches!(*first, b'.' | b'[' | b'^' | b'='),
    }
}

// The pattern that an argument is. `place` is how messages name the argument, and `why` what they say of another.
fn pattern_of(alloc: Global, word: &str, place: &str, why: &str) -> Result<Pattern, WordFault>
    ensures ok { IfOk result (λ pattern. IsPattern word.now (parts_of pattern.steps.items)) }
    ensures fault { IfErr result (λ fault. fault ≢ Offset) }
    ensures misread { IfErr result (FailsFor (IsNoPattern word.now) ⊥) }
{
    match read_pattern(alloc, word.as_bytes()) {
        Ok(pattern) => Ok(pattern),
        Err(PathFault::Form) => Err(WordFault::Usage(invalid_value(alloc, word, place, why)?)),
        Err(PathFault::Memory) => Err(WordFault::Memory),
    }
}

// The path that an argument is. `place` is how messages name the argument.
fn path_of(alloc: Global, word: &str, place: &str) -> Result<Path, WordFault>
    ensures path { IfOk result (λ path. IsPath word.now (steps_of path.steps.items)) }
    ensures fault { IfErr result (λ fault. fault ≢ Offset) }
    ensures misread { IfErr result (FailsFor (IsNoPath word.now) ⊥) }
{
    match read_path(alloc, word.as_bytes()) {
        Ok(path) => Ok(path),
        Err(PathFault::Form) => Err(WordFault::Usage(invalid_value(alloc, word, place, NO_PATH)?)),
        Err(PathFault::Memory) => Err(WordFault::Memory),
    }
}
