//! How a printed value looks, as arguments request it.
ghost use Rattle.std.specs.Prelude.{◌≡◌, ◌≢◌, ◌⊎◌, IfOk, IfErr, codes};
ghost use Rattle.clap.specs.Matches.{found_of, first_value};
ghost use Rattle.command_line.specs.Styles.{NamesNumbers, NamesNumbersOr, NamesNumbersIfAny, NamesChars, NamesCharsOr, NamesElements, NamesElementsOr, IsNoElements, IsNoElementsIfAny, NamesAnswer, NamesColor, NamesFaults};
ghost use Rattle.command_line.specs.Found.{NamesStyle, ShowsBeside, for_the_eye};
ghost use Rattle.command_line.specs.Misread.{FailsFor};
ghost use Rattle.command_line.specs.declared.words.WordFault.TheVariants.{Offset, Memory};

use crate::answer_form::AnswerForm;
use crate::color::Color;
use crate::fault_form::FaultForm;
use crate::numerals::whole_number;
use crate::words::WordFault;
use crate::words::commands::SHOWN_ELEMENTS;
use crate::words::found::flag_of;
use crate::words::usage::invalid_value;
use clap::ArgMatches;
use std::alloc::Global;
use text_output::style::{Beside, Chars, Numbers, Style};

/// The style of values that are shown to the eye, if the options request nothing else.
pub fn style_for_the_eye() -> Style
    ensures { result ≡ for_the_eye }
{
    Style {
        chars: Chars::Text,
        elements: Some(SHOWN_ELEMENTS),
        ..Style::plain()
    }
}

/// The style that the options request. What they don't request is as in the default.
pub fn style_of(alloc: Global, found: &ArgMatches<'_>, default: Style) -> Result<Style, WordFault>
    ensures style { IfOk result (NamesStyle (found_of found.now) default) }
    ensures usage { IfErr result
        (λ fault. (fault ≡ Memory) ⊎ IsNoElementsIfAny (first_value (found_of found.now) (codes "elements"))) }
    ensures fault { IfErr result (λ fault. fault ≢ Offset) }
    ensures misread { IfErr result
        (FailsFor (IsNoElementsIfAny (first_value (found_of found.now) (codes "elements"))) ⊥) }
{
    Ok(Style {
        numbers: numbers_or(found, default.numbers),
        chars: chars_or(found, default.chars),
        elements: match found.get_str("elements") {
            Some(word) => most_of(alloc, word, "--elements <N>")?,
            None => default.elements,
        },
    })
}

/// The most levels of parts that are shown, as the options request it. Without a request there are `most_levels`.
pub fn depth_of(
    alloc: Global,
    found: &ArgMatches<'_>,
    most_levels: Option<u64>,
) -> Result<Option<u64>, WordFault>
    ensures depth { IfOk result (NamesElementsOr most_levels (first_value (found_of found.now) (codes "depth"))) }
    ensures fault { IfErr result (λ fault. fault ≢ Offset) }
    ensures misread { IfErr result (FailsFor (IsNoElementsIfAny (first_value (found_of found.now) (codes "depth"))) ⊥) }
{
    match found.get_str("depth") {
        Some(word) => most_of(alloc, word, "--depth <N>"),
        None => Ok(most_levels),
    }
}

/// When colors are printed, as an argument names it: `auto`, the default, for any other than `always` and `never`.
pub fn color_of(word: &str) -> Color
    ensures { NamesColor word.now result }
{
    match word {
        "always" => Color::Always,
        "never" => Color::Never,
        _ => Color::Auto,
    }
}

/// How a refusal or a fault is written, as an argument names it: in words, the default, for any other than `json`.
pub fn faults_of(word: &str) -> FaultForm
    ensures { NamesFaults word.now result }
{
    match word {
        "json" => FaultForm::Json,
        _ => FaultForm::Text,
    }
}

/// How an answer about a pickle is printed, as an argument names it: in words, the default, for any other than `json`.
pub fn answer_of(word: &str) -> AnswerForm
    ensures { NamesAnswer word.now result }
{
    match word {
        "json" => AnswerForm::Json,
        _ => AnswerForm::Text,
    }
}

fn numbers_or(found: &ArgMatches<'_>, default: Numbers) -> Numbers
    ensures { NamesNumbersOr default (first_value (found_of found.now) (codes "numbers")) result }
{
    match found.get_str("numbers") {
        Some(word) => numbers_of(word),
        None => default,
    }
}

fn chars_or(found: &ArgMatches<'_>, default: Chars) -> Chars
    ensures { NamesCharsOr default (first_value (found_of found.now) (codes "chars")) result }
{
    match found.get_str("chars") {
        Some(word) => chars_of(word),
        None => default,
    }
}

/// The form of numbers that the options request, if they request one.
pub fn numbers_if_any(found: &ArgMatches<'_>) -> Option<Numbers>
    ensures { NamesNumbersIfAny (first_value (found_of found.now) (codes "numbers")) result }
{
    match found.get_str("numbers") {
        Some(word) => Some(numbers_of(word)),
        None => None,
    }
}

/// What is shown beside each part, as the options request it.
pub fn beside_of(found: &ArgMatches<'_>) -> Beside
    ensures { ShowsBeside (found_of found.now) result }
{
    Beside {
        sizes: flag_of(found, "sizes"),
        bytes: flag_of(found, "bytes"),
    }
}

// The form of numbers that an argument names: decimal, the default, for any other than `hex` and `digits`.
fn numbers_of(word: &str) -> Numbers
    ensures { NamesNumbers word.now result }
{
    match word {
        "hex" => Numbers::Hexadecimal,
        "digits" => Numbers::Digits,
        _ => Numbers::Decimal,
    }
}

// The form of arrays of `char` that an argument names: numbers, the default, for any other than `text`.
fn chars_of(word: &str) -> Chars
    ensures { NamesChars word.now result }
{
    match word {
        "text" => Chars::Text,
        _ => Chars::Numbers,
    }
}

// The most elements or levels that the argument of an option names.
fn most_of(alloc: Global, word: &str, option: &str) -> Result<Option<u64>, WordFault>
    ensures ok { IfOk result (NamesElements word.now) }
    ensures usage { IfErr result (λ fault. (fault ≡ Memory) ⊎ IsNoElements word.now) }
    ensures fault { IfErr result (λ fault. fault ≢ Offset) }
    ensures misread { IfErr result (FailsFor (IsNoElements word.now) ⊥) }
{
    if word == "all" {
        return Ok(None);
    }
    match whole_number(word.as_bytes()) {
        Some(most) => Ok(Some(most)),
        None => {
            let why = "neither a number below 2^64 nor all";
            Err(WordFault::Usage(invalid_value(alloc, word, option, why)?))
        }
    }
}
