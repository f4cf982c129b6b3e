//! What is printed of a format that fits a file.

ghost use Rattle.std.specs.Prelude.{◌≡◌, slice_get};
ghost use Rattle.identity_text.specs.Columns.{name_in, name_of, sentence_of, shown, told, type_of};

use bit_space::Order;
use identification::{Documented, Fit, Format};

/// What is printed of a format that fits.
#[derive(Clone, Copy)]
pub struct Row<'a> {
    /// The name of the format.
    pub name: &'a [u8],
    /// The name of its documented type.
    pub type_name: &'a [u8],
    /// What it is, in a sentence.
    pub sentence: &'a [u8],
    /// The byte order in which it fits.
    pub order: Order,
    /// The size of the value by which it fits, in bits.
    pub size: u64,
}

/// That of one among all formats.
pub fn row_of<'a>(formats: &'a [Format], fit: &Fit) -> Row<'a>
    ensures { told result ≡ shown formats.now fit.now }
{
    Row {
        name: name_at(formats, fit.place),
        type_name: type_at(formats, fit.place),
        sentence: sentence_at(formats, fit.place),
        order: fit.order,
        size: fit.measured.size,
    }
}

// The name of the format at a place.
fn name_at(formats: &[Format], place: usize) -> &[u8]
    ensures { result.now ≡ name_of (slice_get formats.now place) }
{
    match formats.get(place) {
        Some(format) => &format.name,
        None => &[],
    }
}

// The name of its documented type.
fn type_at(formats: &[Format], place: usize) -> &[u8]
    ensures { result.now ≡ type_of (slice_get formats.now place) }
{
    match formats.get(place) {
        Some(format) => name_in(&format.documented),
        None => &[],
    }
}

fn name_in(documented: &Option<Documented>) -> &[u8]
    ensures { result.now ≡ name_in documented.now }
{
    match documented {
        Some(documented) => &documented.name,
        None => &[],
    }
}

// The sentence that says what it is.
fn sentence_at(formats: &[Format], place: usize) -> &[u8]
    ensures { result.now ≡ sentence_of (slice_get formats.now place) }
{
    match formats.get(place) {
        Some(format) => &format.sentence,
        None => &[],
    }
}
