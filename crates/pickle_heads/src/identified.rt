//! What the files of a format are identified by.

ghost use Rattle.std.specs.Prelude.{◌≡◌, option_map};
ghost use Rattle.pickle_heads.specs.Identified.{identified_said, identified_in, orders_in};

use crate::texts::{same, split_name};
use bit_space::Order;

/// What the files of a format are identified by.
#[derive(Clone, Copy, Debug, Drop, PartialEq, Eq)]
pub enum Identified<'a> {
    /// By no type: too many other files would be mapped too.
    Nothing,
    /// By a type with this name, which maps them from their start.
    By(&'a [u8], Orders),
}

/// The byte orders that a line names.
#[derive(Clone, Copy, Debug, Drop, PartialEq, Eq)]
pub enum Orders {
    /// None: the order of the options.
    OfOptions,
    /// One alone.
    One(Order),
    /// Both, this one first.
    Both(Order),
}

/// Reads the text of the line `Identified by`. The result is `None` if it isn't in its form.
pub fn read_identified(text: &[u8]) -> Option<Identified<'_>>
    ensures { option_map identified_said result ≡ identified_in text.now }
{
    let (name, rest) = split_name(text)?;
    if same(name, b"nothing") {
        return if rest.is_empty() {
            Some(Identified::Nothing)
        } else {
            None
        };
    }
    let orders = read_orders(rest)?;
    Some(Identified::By(name, orders))
}

// Reads the orders after the name of a type.
fn read_orders(text: &[u8]) -> Option<Orders>
    ensures { result ≡ orders_in text.now }
{
    if text.is_empty() {
        Some(Orders::OfOptions)
    } else if same(text, b", little") {
        Some(Orders::One(Order::Little))
    } else if same(text, b", big") {
        Some(Orders::One(Order::Big))
    } else if same(text, b", little, big") {
        Some(Orders::Both(Order::Little))
    } else if same(text, b", big, little") {
        Some(Orders::Both(Order::Big))
    } else {
        None
    }
}
