//! Arrays of chars as texts.
ghost use Rattle.std.specs.Prelude.{◌≡◌, ◌≤◌, ◌%◌, take, get_or, unsigned_abs};
ghost use Rattle.pickle_meaning.specs.Values.{members_of, member_count};
ghost use Rattle.value_store.specs.Labels.{number_of};
ghost use Rattle.value_store.specs.Owners.{owner_of};
ghost use Rattle.value_store.specs.Refs.{value_shown};
ghost use Rattle.value_store.specs.Scalars.{scalar_label};
ghost use Rattle.value_text.specs.CharTexts.{chars_in, trimmed};

use value_store::scalar::Scalar;
use value_store::value::Members;

/// How many elements there are without the zero bytes at the end.
pub fn trimmed_len(elements: Members<'_>) -> usize
    ensures most { result ≤ member_count (members_of (value_shown (owner_of elements.entry))) }
    ensures text { let chars = chars_in (members_of (value_shown (owner_of elements.entry))) in
        take result chars ≡ trimmed chars }
{
    let mut end = 0;
    for place in 0..elements.len() {
        if char_at(elements, place) != 0 {
            end = place + 1;
        }
    }
    end
}

/// The byte that the element at a place is; 0 where none is.
pub fn char_at(elements: Members<'_>, place: usize) -> u8
    ensures { result ≡ get_or (chars_in (members_of (value_shown (owner_of elements.entry)))) place 0 }
{
    match elements.scalar(place) {
        Some(number) => char_of(number),
        None => 0,
    }
}

// The byte that an element is.
#[inline(always)]
fn char_of(element: Scalar) -> u8
    ensures { result ≡ unsigned_abs (number_of (scalar_label element)) % 256 }
{
    match element {
        Scalar::Integer(number, _) => (number.unsigned_abs() % 256) as u8,
        Scalar::Offset(magnitude, ..) => (magnitude.unsigned_abs() % 256) as u8,
    }
}
