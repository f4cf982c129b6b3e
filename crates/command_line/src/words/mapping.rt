//! What a mapping is given, as arguments request it.
ghost use Rattle.std.specs.Prelude.{◌≡◌, ◌≢◌, IfOk, IfErr, codes, option_map};
ghost use Rattle.clap.specs.Matches.{found_of, first_value};
ghost use Rattle.command_line.specs.Found.{NamesLimitIn, NamesOrder, AsksOrder, AsksSubject, AsksPart, ShowsSubject, AsksMappingOf, GrowsLimit, type_in, IsNoExtent, IsNoLimitIfAny};
ghost use Rattle.command_line.specs.Misread.{FailsFor};
ghost use Rattle.command_line.specs.Subjects.{is_inside};
ghost use Rattle.command_line.specs.declared.words.WordFault.TheVariants.{Offset};

use crate::limit::Limit;
use crate::start::Start;
use crate::subject::{HeadType, Subject, is_by_head};
use crate::words::WordFault;
use crate::words::bytes::{start_of, window_of};
use crate::words::commands::DEFAULT_LIMIT;
use crate::words::found::{flag_of, number_of_word, type_word, word, word_of};
use crate::words::ties::shows_file_alone;
use bit_space::Order;
use clap::ArgMatches;
use std::alloc::{AllocError, Global};

/// What every command that maps is given, over one file or many.
#[derive(Clone, Copy)]
pub struct MappingWords {
    /// Where the mapping starts.
    pub start: Start,
    /// After how many bytes from there the file ends, if that is given.
    pub window: Option<u64>,
    /// The byte order of the run, if one is given.
    pub order: Option<Order>,
    /// The most steps of each mapping.
    pub limit: Limit,
}

/// What the arguments of a command that maps request beside the type and the file.
pub fn mapping_words(alloc: Global, found: &ArgMatches<'_>) -> Result<MappingWords, WordFault>
    ensures asks { IfOk result (AsksMappingOf (found_of found.now)) }
    ensures offset { IfErr result (λ fault. fault ≡ Offset → IsNoExtent (found_of found.now)) }
    ensures misread { IfErr result (FailsFor (IsNoLimitIfAny (first_value (found_of found.now) (codes "limit")))
        (IsNoExtent (found_of found.now))) }
{
    Ok(MappingWords {
        order: order_of(found),
        limit: limit_of(alloc, found)?,
        start: start_of(found)?,
        window: window_of(found)?,
    })
}

/// What is mapped: the type that `name` is, the argument for it, or one that the head of the pickle says.
pub fn subject_of(
    alloc: Global,
    found: &ArgMatches<'_>,
    name: Option<&str>,
) -> Result<Subject, AllocError>
    ensures { IfOk result (AsksSubject (found_of found.now) (option_map (λ name. name.now) name.entry)) }
{
    let pickle = word_of(alloc, found, "PICKLE")?;
    if is_by_head(&pickle, name) {
        let part = head_type(flag_of(found, "inside"));
        return Ok(Subject::ByHead { pickle, part });
    }
    let name = String::from_str(alloc, name.unwrap_or(""))?;
    Ok(Subject::Named { pickle, name })
}

/// What is shown: what is mapped, or if one argument alone is the file, the format that it has.
pub fn shown_subject(alloc: Global, found: &ArgMatches<'_>) -> Result<Subject, AllocError>
    ensures { IfOk result (ShowsSubject (found_of found.now) (type_in (found_of found.now) (codes "FILE"))) }
{
    if shows_file_alone(found) {
        return Ok(Subject::Identified);
    }
    subject_of(alloc, found, type_word(found, "FILE"))
}

/// What is looked for or listed: the type that `name` is, the argument for it, or this one of the pickle's head.
pub fn subject_by_part(
    alloc: Global,
    found: &ArgMatches<'_>,
    name: Option<&str>,
    part: HeadType,
) -> Result<Subject, AllocError>
    ensures { IfOk result (AsksPart (found_of found.now) part (option_map (λ name. name.now) name.entry)) }
{
    let pickle = word_of(alloc, found, "PICKLE")?;
    if is_by_head(&pickle, name) {
        return Ok(Subject::ByHead { pickle, part });
    }
    let name = String::from_str(alloc, name.unwrap_or(""))?;
    Ok(Subject::Named { pickle, name })
}

fn head_type(inside: bool) -> HeadType
    ensures { is_inside result ≡ inside }
{
    match inside {
        true => HeadType::Inside,
        false => HeadType::Documented,
    }
}

// The byte order that is given, if one is.
fn order_of(found: &ArgMatches<'_>) -> Option<Order>
    ensures { AsksOrder (found_of found.now) result }
{
    match found.get_str("endian") {
        Some(word) => Some(named_order(word)),
        None => None,
    }
}

// The byte order that an argument names: `little`, or big-endian for any other.
fn named_order(word: &str) -> Order
    ensures { NamesOrder word.now result }
{
    match word {
        "little" => Order::Little,
        _ => Order::Big,
    }
}

// The most steps of a mapping.
fn limit_of(alloc: Global, found: &ArgMatches<'_>) -> Result<Limit, WordFault>
    ensures ok { IfOk result (NamesLimitIn (first_value (found_of found.now) (codes "limit"))) }
    ensures fault { IfErr result (λ fault. fault ≢ Offset) }
    ensures misread { IfErr result (FailsFor (IsNoLimitIfAny (first_value (found_of found.now) (codes "limit"))) ⊥) }
{
    let Some(word) = found.get_str("limit") else {
        return Ok(Limit::Steps(DEFAULT_LIMIT));
    };
    if word == "auto" {
        return Ok(Limit::Auto);
    }
    Ok(Limit::Steps(number_of_word(alloc, word, "--limit <N>")?))
}

/// Whether the limit of steps of all records or attempts together grows with the file: no number is given.
pub fn grows_limit(found: &ArgMatches<'_>) -> bool
    ensures { GrowsLimit (found_of found.now) result }
{
    match found.get_str("limit") {
        Some(word) => word == "auto",
        None => true,
    }
}
