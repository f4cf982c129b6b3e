//! A sentence about some tokens.

use pickle_source::note::Note;
use pickle_source::script::{Script, TokenRange};
use pickle_source::text::Text;

/// A note about some tokens. `help` says what to write instead.
pub fn note_about(script: &Script<'_>, part: TokenRange, sentence: Text, help: Text) -> Note {
    let (at, behind) = script.bounds(part);
    Note {
        at,
        length: behind.saturating_sub(at),
        sentence: sentence.into_bytes(),
        help: Some(help.into_bytes()),
    }
}
