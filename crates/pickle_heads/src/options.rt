//! The options of a head.

ghost use Rattle.std.specs.Prelude.{◌≡◌};
ghost use Rattle.pickle_heads.specs.Options.{given_in, given_with, order_named, given_or_none};

use crate::texts::{after, before, same};
use bit_space::Order;

/// The options to map the type of a head with.
#[derive(Clone, Copy, Debug, Drop, PartialEq, Eq)]
pub struct Options<'a> {
    /// As the head has them. Empty if it has none.
    pub text: &'a [u8],
    /// The byte order, if `--endian` is there.
    pub order: Option<Order>,
    /// Whether `--whole` is there.
    pub whole: bool,
}

/// What options give.
#[derive(Clone, Copy, Debug, Drop, PartialEq, Eq)]
pub struct Given {
    pub order: Option<Order>,
    pub whole: bool,
}

/// The options with a text. A text that isn't in the form of options gives nothing.
pub fn options_of(text: &[u8]) -> Options<'_>
    ensures text { result.text.now ≡ text.now }
    ensures order { result.order ≡ (given_or_none result.text.now).order }
    ensures whole { result.whole ≡ (given_or_none result.text.now).whole }
{
    match read_options(text) {
        Some(Given { order, whole }) => Options { text, order, whole },
        None => Options {
            text,
            order: None,
            whole: false,
        },
    }
}

/// Reads options: an order, `--whole`, both with a blank between, or nothing.
pub fn read_options(text: &[u8]) -> Option<Given>
    ensures { result ≡ given_in text.now }
{
    if text.is_empty() {
        return Some(Given {
            order: None,
            whole: false,
        });
    }
    if same(text, b"--whole") {
        return Some(Given {
            order: None,
            whole: true,
        });
    }
    match after(text, b"--whole ") {
        Some(rest) => read_order(rest, true),
        None => match before(text, b" --whole") {
            Some(rest) => read_order(rest, true),
            None => read_order(text, false),
        },
    }
}

// What the option of an order gives, beside `--whole`.
fn read_order(text: &[u8], whole: bool) -> Option<Given>
    ensures { result ≡ given_with whole (order_named text.now) }
{
    if same(text, b"--endian little") {
        return Some(Given {
            order: Some(Order::Little),
            whole,
        });
    }
    if same(text, b"--endian big") {
        return Some(Given {
            order: Some(Order::Big),
            whole,
        });
    }
    None
}
