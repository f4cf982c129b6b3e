//! The lines of a head.

ghost use Rattle.std.specs.Prelude.{◌≡◌, option_copied};
ghost use Rattle.pickle_heads.specs.Texts.{first_line, after_line};
ghost use Rattle.pickle_heads.specs.Lines.{said, past, main_text, identified_text, form_text, inside_text, records_text, is_misplaced, begins_as_one};

use crate::texts::{after, split_line};

/// What the lines begin with. The line of the sentence begins with the name of the pickle.
const MAIN: &[u8] = b"// main: ";

const IDENTIFIED: &[u8] = b"// Identified by: ";

const FORM: &[u8] = b"// Form of: ";

const INSIDE: &[u8] = b"// Inside: ";

const RECORDS: &[u8] = b"// Records: ";

/// The lines of a head: each without what it begins with.
#[derive(Clone, Copy, Drop)]
pub struct Lines<'a> {
    /// The first line, whole.
    pub title: &'a [u8],
    pub main: Option<&'a [u8]>,
    pub identified: Option<&'a [u8]>,
    pub form: Option<&'a [u8]>,
    pub inside: Option<&'a [u8]>,
    pub records: Option<&'a [u8]>,
    /// Whether another line that begins so is after these.
    pub misplaced: bool,
}

/// The lines of the head of a pickle. No byte after them and the line that follows is read.
pub fn lines_of(pickle: &[u8]) -> Lines<'_>
    ensures title { result.title.now ≡ first_line pickle.now }
    ensures main { option_copied result.main ≡ main_text pickle.now }
    ensures identified { option_copied result.identified ≡ identified_text pickle.now }
    ensures form { option_copied result.form ≡ form_text pickle.now }
    ensures inside { option_copied result.inside ≡ inside_text pickle.now }
    ensures records { option_copied result.records ≡ records_text pickle.now }
    ensures misplaced { result.misplaced ≡ is_misplaced pickle.now }
{
    let (title, rest) = split_line(pickle);
    let (second, rest) = split_line(rest);
    let (identified, rest) = take_line(rest, IDENTIFIED);
    let (form, rest) = take_line(rest, FORM);
    let (inside, rest) = take_line(rest, INSIDE);
    let (records, rest) = take_line(rest, RECORDS);
    Lines {
        title,
        main: after(second, MAIN),
        identified,
        form,
        inside,
        records,
        misplaced: begins_as_one(rest),
    }
}

// The first line without a prefix, and the text after that line. Where it doesn't begin so, it is left in the text.
fn take_line<'a>(text: &'a [u8], prefix: &[u8]) -> (Option<&'a [u8]>, &'a [u8])
    ensures said { option_copied result.0 ≡ said prefix.now text.now }
    ensures rest { result.1.now ≡ past prefix.now text.now }
{
    let (line, rest) = split_line(text);
    match after(line, prefix) {
        Some(found) => (Some(found), rest),
        None => (None, text),
    }
}

fn begins_as_one(text: &[u8]) -> bool
    ensures { result ≡ begins_as_one text.now }
{
    let (line, _) = split_line(text);
    after(line, IDENTIFIED).is_some()
        || after(line, FORM).is_some()
        || after(line, INSIDE).is_some()
        || after(line, RECORDS).is_some()
}
