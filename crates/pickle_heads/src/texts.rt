//! Texts in the lines of a head.

ghost use Rattle.std.specs.Prelude.{◌≡◌, ◌≤◌, ◌==◌, length, option_copied, option_map};
ghost use Rattle.std.specs.List.{list_all, position_or_len, prefix_len};
ghost use Rattle.std.specs.Str.{bytes_eq};
ghost use Rattle.pickle_heads.specs.Texts.{first_line, after_line, after, before, is_word, is_letter, begins_name, is_name, name_of};

/// The first line of a text, without its line feed, and the text after it.
pub fn split_line(text: &[u8]) -> (&[u8], &[u8])
    ensures line { result.0.now ≡ first_line text.now }
    ensures rest { result.1.now ≡ after_line text.now }
{
    let size = line_length(text);
    let next = (size + 1).min(text.len());
    (&text[..size], &text[next..])
}

// The bytes before the first line feed.
fn line_length(text: &[u8]) -> usize
    ensures size { result ≡ position_or_len (λ b. b == 10) text.now }
    ensures within { result ≤ length text.now }
{
    text.iter().take_while(|byte| **byte != b'\n').count()
}

/// The text after a prefix, if it begins with that.
pub fn after<'a>(text: &'a [u8], prefix: &[u8]) -> Option<&'a [u8]>
    ensures { option_copied result ≡ after prefix.now text.now }
{
    text.strip_prefix(prefix)
}

/// The text before a suffix, if it ends with that.
pub fn before<'a>(text: &'a [u8], suffix: &[u8]) -> Option<&'a [u8]>
    ensures { option_copied result ≡ before suffix.now text.now }
{
    text.strip_suffix(suffix)
}

/// Whether the bytes are the same.
pub fn same(text: &[u8], other: &[u8]) -> bool
    ensures { result ≡ bytes_eq text.now other.now }
{
    text == other
}

/// Whether a byte may be in a name.
pub fn is_word(byte: u8) -> bool
    ensures { result ≡ is_word byte }
{
    byte.is_ascii_alphanumeric() || byte == b'_'
}

/// Whether a name may begin with a byte.
pub fn is_letter(byte: u8) -> bool
    ensures { result ≡ is_letter byte }
{
    byte.is_ascii_alphabetic() || byte == b'_'
}

fn begins_name(text: &[u8]) -> bool
    ensures { result ≡ begins_name text.now }
{
    !text.is_empty() && is_letter(text[0])
}

/// The name that a text begins with, and the text after it.
pub fn split_name(text: &[u8]) -> Option<(&[u8], &[u8])>
    ensures { option_map (λ x. (x.0.now, x.1.now)) result ≡ name_of text.now }
{
    if !begins_name(text) {
        return None;
    }
    let size = word_length(text);
    Some((&text[..size], &text[size..]))
}

// The bytes at the front that may be in a name.
fn word_length(text: &[u8]) -> usize
    ensures size { result ≡ prefix_len is_word text.now }
    ensures within { result ≤ length text.now }
{
    text.iter().take_while(|byte| is_word(**byte)).count()
}

/// Whether a text is a name: letters, digits and `_`, of which the first isn't a digit.
pub fn is_name(text: &[u8]) -> bool
    ensures { result ≡ is_name text.now }
{
    begins_name(text) && are_words(text)
}

fn are_words(text: &[u8]) -> bool
    ensures { result ≡ list_all is_word text.now }
{
    text.iter().all(|byte| is_word(*byte))
}
