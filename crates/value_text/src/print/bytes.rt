//! Lays out bytes and short texts.
ghost use Rattle.std.specs.Prelude.{◌≡◌, ◌+◌, ◌≤◌, [], ◌∷◌, ◌++◌, length, codes, take};
ghost use Rattle.value_text.specs.ValueText.{comma};
ghost use Rattle.value_text.specs.JsonParts.{plain_key};

/// The capacity of a line, in bytes.
pub const LINE_ROOM: usize = 512;

/// The most bytes of a short text. Most names are short.
pub const SHORT: usize = 16;

/// A buffer that is filled from the front. How many bytes are in it is passed by value, because a register is faster
/// than a field.
pub type Bytes = [u8; LINE_ROOM];

/// Lays out a byte, and returns the place after it.
#[inline(always)]
pub fn push(bytes: &mut Bytes, at: usize, byte: u8) -> usize
    requires { at + 1 ≤ LINE_ROOM }
    ensures text { take result bytes.new ≡ take at bytes.old ++ byte ∷ [] }
    ensures len { result ≡ at + 1 }
{
    bytes[at] = byte;
    at + 1
}

/// Lays out what is before a member with a short name, and returns the place after it.
#[inline(always)]
pub fn push_name(bytes: &mut Bytes, at: usize, first: bool, name: &[u8]) -> usize
    requires short { length name.now ≤ SHORT }
    requires room { at + length name.now + 2 ≤ LINE_ROOM }
    ensures text { take result bytes.new ≡ take at bytes.old ++ (comma first ++ (name.now ++ codes "=")) }
    ensures len { result ≤ LINE_ROOM }
{
    let at = push_comma(bytes, at, first);
    let at = push_short(bytes, at, name);
    push(bytes, at, b'=')
}

/// Lays out what is before a field of JSON whose name is short and plain, and returns the place after it.
#[inline(always)]
pub fn push_key(bytes: &mut Bytes, at: usize, first: bool, name: &[u8]) -> usize
    requires short { length name.now ≤ SHORT }
    requires room { at + length name.now + 4 ≤ LINE_ROOM }
    ensures text { take result bytes.new ≡ take at bytes.old ++ plain_key first name.now }
    ensures len { result ≤ LINE_ROOM }
{
    let at = push_comma(bytes, at, first);
    let at = push(bytes, at, b'"');
    let at = push_short(bytes, at, name);
    let at = push(bytes, at, b'"');
    push(bytes, at, b':')
}

/// Lays out a comma, but not before the first, and returns the place after it.
#[inline(always)]
pub fn push_comma(bytes: &mut Bytes, at: usize, first: bool) -> usize
    requires { at + 1 ≤ LINE_ROOM }
    ensures text { take result bytes.new ≡ take at bytes.old ++ comma first }
    ensures len { result ≤ at + 1 }
{
    if first { at } else { push(bytes, at, b',') }
}

/// Lays out a short text, and returns the place after it. It has no loop over the bytes, and no call.
#[inline(always)]
pub fn push_short(bytes: &mut Bytes, at: usize, text: &[u8]) -> usize
    requires short { length text.now ≤ SHORT }
    requires room { at + length text.now ≤ LINE_ROOM }
    ensures text { take result bytes.new ≡ take at bytes.old ++ text.now }
    ensures len { result ≡ at + length text.now }
{
    if text.len() >= 8 {
        push_ends::<8>(bytes, at, text)
    } else if text.len() >= 4 {
        push_ends::<4>(bytes, at, text)
    } else if text.len() >= 2 {
        push_ends::<2>(bytes, at, text)
    } else {
        push_first(bytes, at, text)
    }
}

// Lays out the first N bytes of a text and its last N, which may overlap.
#[inline(always)]
fn push_ends<const N: usize>(bytes: &mut Bytes, at: usize, text: &[u8]) -> usize
    requires least { N ≤ length text.now }
    requires most { length text.now ≤ N + N }
    requires room { at + length text.now ≤ LINE_ROOM }
    ensures text { take result bytes.new ≡ take at bytes.old ++ text.now }
    ensures len { result ≡ at + length text.now }
{
    let end = at + text.len();
    match (text.first_chunk::<N>(), text.last_chunk::<N>()) {
        (Some(first), Some(last)) => {
            let (first, last) = (*first, *last);
            write(bytes, at, first);
            write(bytes, end - N, last);
            end
        }
        _ => unreachable!(),
    }
}

#[inline(always)]
fn write<const N: usize>(bytes: &mut Bytes, at: usize, piece: [u8; N])
    requires { at + N ≤ LINE_ROOM }
    ensures { take (at + N) bytes.new ≡ take at bytes.old ++ piece.entry }
{
    bytes[at..at + N].copy_from_slice(&piece);
}

// Lays out a text of at most one byte.
#[inline(always)]
fn push_first(bytes: &mut Bytes, at: usize, text: &[u8]) -> usize
    requires short { length text.now ≤ 1 }
    requires room { at + length text.now ≤ LINE_ROOM }
    ensures text { take result bytes.new ≡ take at bytes.old ++ text.now }
    ensures len { result ≡ at + length text.now }
{
    match text.first() {
        Some(byte) => push(bytes, at, *byte),
        None => at,
    }
}
