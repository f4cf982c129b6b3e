//! Why arguments are a usage error, where clap's message doesn't say what to write.
use crate::offset_reasons::tell_signed;
use crate::reason_text::{add, add_word};
use command_line::path::{PathFault, read_path};
use command_line::pattern::read_pattern;
use command_line::words::verbs;
use pickle_source::near::nearest;
use poke_batch::write::{WriteFault, put};
use std::alloc::{AllocError, Global};
use std::io::Write;

/// The name of the command that prints help.
const HELP: &[u8] = b"help";

/// What begins clap's tip to write `--` before a word.
const TIP: &str = "\n  tip: to pass '";

/// Adds what to write instead of a command that there isn't, a word that is no path, or an offset with a sign, to a text.
pub fn tell_usage(alloc: Global, words: &[String], text: &mut Vec<u8>) -> Result<(), AllocError> {
    if let Some(first) = words.first() {
        tell_command(alloc, first.as_str(), text)?;
    }
    let patterns = takes_patterns(words);
    for (place, word) in words.iter().enumerate() {
        let next = words.get(place.saturating_add(1));
        if let Some(path) = path_in(word.as_str(), next) {
            tell_path(alloc, path, patterns, text)?;
        }
        if word.as_str() == "--json" {
            add(text, &["  --json: write --mode json\n"])?;
        }
    }
    tell_signed(words, text)
}

/// Writes the message of a usage error. If it is explained, clap's tip to write `--` before a word is left out: the word
/// would then be where no such word belongs.
pub fn put_usage<E: Write>(text: &str, explained: bool, err: &mut E) -> Result<(), WriteFault> {
    if explained {
        if let Some((front, tip)) = text.split_once(TIP) {
            if let Some((_, back)) = tip.split_once('\n') {
                put(err, front.as_bytes())?;
                return put(err, back.as_bytes());
            }
        }
    }
    put(err, text.as_bytes())
}

// Adds which command has a near name, if the first argument is none.
fn tell_command(alloc: Global, word: &str, text: &mut Vec<u8>) -> Result<(), AllocError> {
    let names = command_names(alloc)?;
    let word = word.as_bytes();
    if word.first() == Some(&b'-') || names.contains(&word) {
        return Ok(());
    }
    if let Some(near) = nearest(alloc, word, names.as_slice())? {
        add(text, &["  is "])?;
        text.extend_from_slice(near)?;
        add(text, &[" meant?\n"])?;
    }
    Ok(())
}

// The names of the commands, with the one that the parser adds.
fn command_names(alloc: Global) -> Result<Vec<&'static [u8]>, AllocError> {
    let mut names = Vec::new(alloc);
    for verb in verbs() {
        names.push(verb.name.as_bytes())?;
    }
    names.push(HELP)?;
    Ok(names)
}

// The value of `--get`, if an argument is that option.
fn path_in<'a>(word: &'a str, next: Option<&'a String>) -> Option<&'a str> {
    let rest = word.strip_prefix("--get")?;
    if rest.is_empty() {
        return Some(next?.as_str());
    }
    rest.strip_prefix('=')
}

// Whether `--get` accepts a pattern: that of `map` and of `show`, unless it is the column of a row.
fn takes_patterns(words: &[String]) -> bool {
    let prints_parts = words
        .first()
        .is_some_and(|word| word.as_str() == "map" || word.as_str() == "show");
    prints_parts && !words.iter().any(|word| word.starts_with("--rows"))
}

// Adds the form of a path or pattern, if a word isn't one.
fn tell_path(
    alloc: Global,
    word: &str,
    patterns: bool,
    text: &mut Vec<u8>,
) -> Result<(), AllocError> {
    if !is_no_path(alloc, word, patterns)? {
        return Ok(());
    }
    add(text, &["  --get "])?;
    add_word(text, word)?;
    add(text, &[": a path is . or steps of .name, .0 and [0]"])?;
    if patterns {
        add(text, &[", or for many parts [*], [2:5] and .*"])?;
    }
    let mut dotted = String::from_str(alloc, ".")?;
    dotted.push_str(word)?;
    if !is_no_path(alloc, dotted.as_str(), patterns)? {
        add(text, &["; write ", dotted.as_str()])?;
    }
    add(text, &["\n"])
}

// Whether a word doesn't have the form of a path or, if that may be there, of a pattern.
fn is_no_path(alloc: Global, word: &str, patterns: bool) -> Result<bool, AllocError> {
    let word = word.as_bytes();
    let fault = if patterns {
        read_pattern(alloc, word).err()
    } else {
        read_path(alloc, word).err()
    };
    match fault {
        None => Ok(false),
        Some(PathFault::Form) => Ok(true),
        Some(PathFault::Memory) => Err(AllocError),
    }
}
