//! The head of a pickle.

ghost use Rattle.std.specs.Prelude.{◌≡◌, ◌≤◌, [], ◌∷◌, length, option_copied, option_map, codes};
ghost use Rattle.pickle_heads.specs.Texts.{after};
ghost use Rattle.pickle_heads.specs.Options.{given_or_none};
ghost use Rattle.pickle_heads.specs.Identified.{identified_said, identified_in};
ghost use Rattle.pickle_heads.specs.Inside.{inside_said, inside_in};
ghost use Rattle.pickle_heads.specs.Records.{list_said, records_in};
ghost use Rattle.pickle_heads.specs.Heads.{read, pickle_in, sentence_of, main_of, options_of, identified_of, form_of, inside_of, records_of, fault_of, orders_for, both_from, mark_place, type_in, options_in, is_main, is_odd, fault_in, later_fault_in};

use crate::fault::HeadFault;
use crate::identified::{Identified, Orders, read_identified};
use crate::inside::{Inside, read_inside};
use crate::lines::{Lines, lines_of};
use crate::options::{Options, options_of, read_options};
use crate::records::{Records, is_pickle_name, read_records};
use crate::texts::{after, is_name};
use bit_space::Order;

/// What comes between the type and the options of a head.
const MARK: &[u8] = b", options: ";

/// What the head of a pickle says. A line that isn't there, or isn't in its form, says nothing.
#[derive(Clone, Copy, Debug, Drop, PartialEq, Eq)]
pub struct Head<'a> {
    /// What the pickle is for. Empty if the head doesn't say it.
    pub sentence: &'a [u8],
    /// The type to map, as it is written.
    pub main: Option<&'a [u8]>,
    /// The options to map it with.
    pub options: Options<'a>,
    /// What its files are identified by.
    pub identified: Option<Identified<'a>>,
    /// The pickle of another format, of which this one is a closer form.
    pub form_of: Option<&'a [u8]>,
    /// What maps the format among other bytes.
    pub inside: Option<Inside<'a>>,
    /// The list that the format ends with.
    pub records: Option<Records<'a>>,
    /// The first line that isn't in its form.
    pub fault: Option<HeadFault>,
}

impl Head<'_> {
    /// The byte orders in which the identifying type is tried: those of its line. If it has none, the order of the
    /// options, and big-endian if these have none.
    pub fn orders(&self) -> &'static [Order]
        ensures { result.now ≡ orders_for (option_map identified_said self.now.identified) self.now.options.order }
    {
        match self.identified {
            Some(Identified::By(_, Orders::One(order))) => one(order),
            Some(Identified::By(_, Orders::Both(first))) => both(first),
            _ => one(self.options.order.unwrap_or(Order::Big)),
        }
    }
}

fn one(order: Order) -> &'static [Order]
    ensures { result.now ≡ order ∷ [] }
{
    match order {
        Order::Big => &[Order::Big],
        Order::Little => &[Order::Little],
    }
}

fn both(first: Order) -> &'static [Order]
    ensures { result.now ≡ both_from first }
{
    match first {
        Order::Big => &[Order::Big, Order::Little],
        Order::Little => &[Order::Little, Order::Big],
    }
}

/// Reads the head of the pickle with a name.
pub fn head_of<'a>(name: &[u8], pickle: &'a [u8]) -> Head<'a>
    ensures sentence { result.sentence.now ≡ sentence_of name.now pickle.now }
    ensures main { option_copied result.main ≡ main_of pickle.now }
    ensures options { result.options.text.now ≡ options_of pickle.now }
    ensures order { result.options.order ≡ (given_or_none result.options.text.now).order }
    ensures whole { result.options.whole ≡ (given_or_none result.options.text.now).whole }
    ensures identified { option_map identified_said result.identified ≡ identified_of pickle.now }
    ensures form_of { option_copied result.form_of ≡ form_of pickle.now }
    ensures inside { option_map inside_said result.inside ≡ inside_of pickle.now }
    ensures records { option_map list_said result.records ≡ records_of pickle.now }
    ensures fault { result.fault ≡ fault_of pickle.now }
{
    let lines = lines_of(pickle);
    Head {
        sentence: sentence_in(name, lines.title).unwrap_or(b""),
        main: type_of(lines.main),
        options: options_of(options_in(lines.main.unwrap_or(b""))),
        identified: identified_in(lines.identified),
        form_of: form_in(lines.form),
        inside: inside_in(lines.inside),
        records: records_in(lines.records),
        fault: fault_in(&lines),
    }
}

// The sentence of the first line of the pickle with a name.
fn sentence_in<'a>(name: &[u8], title: &'a [u8]) -> Option<&'a [u8]>
    ensures { option_copied result ≡ read (after (codes ": ")) (read (after name.now) (after (codes "// ") title.now)) }
{
    let rest = after(title, b"// ")?;
    let rest = after(rest, name)?;
    after(rest, b": ")
}

// The text before the mark in the line `main`.
fn type_of(line: Option<&[u8]>) -> Option<&[u8]>
    ensures { option_copied result ≡ option_map type_in (option_copied line.entry) }
{
    let text = line?;
    Some(type_in(text))
}

fn type_in(text: &[u8]) -> &[u8]
    ensures { result.now ≡ type_in text.now }
{
    &text[..mark_place(text)]
}

// The text after the mark in the line `main`.
fn options_in(text: &[u8]) -> &[u8]
    ensures { result.now ≡ options_in text.now }
{
    let end = (mark_place(text) + MARK.len()).min(text.len());
    &text[end..]
}

// The place of the first mark, or the length.
fn mark_place(text: &[u8]) -> usize
    ensures place { result ≡ mark_place text.now }
    ensures within { result ≤ length text.now }
{
    for place in 0..text.len() {
        if after(&text[place..], MARK).is_some() {
            return place;
        }
    }
    text.len()
}

fn identified_in(line: Option<&[u8]>) -> Option<Identified<'_>>
    ensures { option_map identified_said result ≡ read identified_in (option_copied line.entry) }
{
    read_identified(line?)
}

fn form_in(line: Option<&[u8]>) -> Option<&[u8]>
    ensures { option_copied result ≡ read pickle_in (option_copied line.entry) }
{
    let text = line?;
    if is_pickle_name(text) {
        Some(text)
    } else {
        None
    }
}

fn inside_in(line: Option<&[u8]>) -> Option<Inside<'_>>
    ensures { option_map inside_said result ≡ read inside_in (option_copied line.entry) }
{
    read_inside(line?)
}

fn records_in(line: Option<&[u8]>) -> Option<Records<'_>>
    ensures { option_map list_said result ≡ read records_in (option_copied line.entry) }
{
    read_records(line?)
}

// The first line that isn't in its form.
fn fault_in(lines: &Lines<'_>) -> Option<HeadFault>
    ensures { result ≡ fault_in (option_copied lines.now.main) (option_copied lines.now.identified)
        (option_copied lines.now.form) (option_copied lines.now.inside) (option_copied lines.now.records)
        lines.now.misplaced }
{
    if is_odd(lines.main) {
        Some(HeadFault::Main)
    } else if lines.identified.is_some() && identified_in(lines.identified).is_none() {
        Some(HeadFault::Identified)
    } else if lines.form.is_some() && form_in(lines.form).is_none() {
        Some(HeadFault::Form)
    } else {
        later_fault_in(lines)
    }
}

// The same, among the last lines.
fn later_fault_in(lines: &Lines<'_>) -> Option<HeadFault>
    ensures { result ≡ later_fault_in (option_copied lines.now.inside) (option_copied lines.now.records)
        lines.now.misplaced }
{
    if lines.inside.is_some() && inside_in(lines.inside).is_none() {
        Some(HeadFault::Inside)
    } else if lines.records.is_some() && records_in(lines.records).is_none() {
        Some(HeadFault::Records)
    } else if lines.misplaced {
        Some(HeadFault::Order)
    } else {
        None
    }
}

// Whether the line `main` is there, and not in its form.
fn is_odd(line: Option<&[u8]>) -> bool
    ensures { result ≡ is_odd (option_copied line.entry) }
{
    match line {
        Some(text) => !is_main(text),
        None => false,
    }
}

fn is_main(text: &[u8]) -> bool
    ensures { result ≡ is_main text.now }
{
    is_name(type_in(text)) && read_options(options_in(text)).is_some()
}
