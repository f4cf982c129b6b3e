//! The type that a job maps: the one that is named, or one that the head of the pickle says.
ghost use Rattle.std.specs.Prelude.{◌≡◌, IfOk, None, OnErr, Some, option_copied};
ghost use Rattle.jobs.specs.Chosen.{bound_type, chosen, chosen_type, first_order, head_type, list_path, with_options};

use bit_space::Order;
use command_line::subject::{BY_HEAD, HeadType, Subject, names_installed};
use pickle_heads::{Inside, head_of};

/// The name of a type, and the options that a head gives with it.
#[derive(Clone, Copy)]
pub struct Chosen<'a> {
    pub name: &'a [u8],
    /// The byte order of the run.
    pub order: Option<Order>,
    /// Whether a value must end where its file does.
    pub whole: bool,
}

/// Why the head of a pickle doesn't say the type that is requested.
#[derive(Clone, Copy)]
pub enum NoType<'a> {
    /// It says none for whole files.
    Unsaid,
    /// It says nothing about the format inside other bytes.
    UnsaidInside,
    /// It says that there is none inside other bytes, and why.
    Nothing(&'a [u8]),
    /// It says nothing about a list of records.
    UnsaidRecords,
}

/// The type that a request maps, by its pickle.
pub fn choose<'a>(subject: &'a Subject, pickle: &'a [u8]) -> Result<Chosen<'a>, NoType<'a>>
    ensures ok { IfOk result (λ found. chosen subject.now pickle.now ≡ Some (chosen_type found)) }
    ensures err { OnErr result (chosen subject.now pickle.now ≡ None) }
{
    match subject {
        Subject::Named { name, .. } => Ok(Chosen {
            name: name.as_bytes(),
            order: None,
            whole: false,
        }),
        Subject::ByHead { part, .. } => match head_type(*part, pickle) {
            Ok(name) => Ok(with_options(name, *part, pickle)),
            Err(missing) => Err(missing),
        },
        Subject::Identified => Err(NoType::Unsaid),
    }
}

// A type with the options of the head of its pickle. Inside other bytes a value ends before they do.
fn with_options<'a>(name: &'a [u8], part: HeadType, pickle: &'a [u8]) -> Chosen<'a>
    ensures { chosen_type result ≡ with_options pickle.now part name.now }
{
    let options = head_of(b"", pickle).options;
    Chosen {
        name,
        order: options.order,
        whole: options.whole && part == HeadType::Documented,
    }
}

/// The path from a value of the type with the list of records to that list, as the head of a pickle says it.
pub fn list_path(pickle: &[u8]) -> Option<&[u8]>
    ensures { option_copied result ≡ list_path pickle.now }
{
    match head_of(b"", pickle).records {
        Some(records) => Some(records.path),
        None => None,
    }
}

// The type that the head of a pickle says.
fn head_type<'a>(part: HeadType, pickle: &'a [u8]) -> Result<&'a [u8], NoType<'a>>
    ensures ok { IfOk result (λ name. head_type part pickle.now ≡ Some name.now) }
    ensures err { OnErr result (head_type part pickle.now ≡ None) }
{
    let head = head_of(b"", pickle);
    match part {
        HeadType::Documented => head.main.ok_or(NoType::Unsaid),
        HeadType::Inside => match head.inside {
            Some(Inside::Type(name)) => Ok(name),
            Some(Inside::Nothing(reason)) => Err(NoType::Nothing(reason)),
            None => Err(NoType::UnsaidInside),
        },
        HeadType::Records => match head.records {
            Some(records) => Ok(records.of),
            None => Err(NoType::UnsaidRecords),
        },
    }
}

/// The type of a bound, by the arguments for its pickle and for the type.
pub fn bound_type<'a>(word: &str, name: &'a [u8], pickle: &'a [u8]) -> Result<&'a [u8], NoType<'a>>
    ensures ok { IfOk result (λ found. bound_type word.now name.now pickle.now ≡ Some found.now) }
    ensures err { OnErr result (bound_type word.now name.now pickle.now ≡ None) }
{
    if name == BY_HEAD.as_bytes() && names_installed(word) {
        return head_type(HeadType::Documented, pickle);
    }
    Ok(name)
}

/// The byte order of a run: the one that is given, or else that of the head, or else big-endian.
pub fn first_order(given: Option<Order>, head: Option<Order>) -> Order
    ensures { result ≡ first_order given head }
{
    given.or(head).unwrap_or(Order::Big)
}
