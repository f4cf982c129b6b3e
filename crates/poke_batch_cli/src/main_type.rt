//! The type and the options that the head of an installed pickle says.
use crate::files::read_pickle_of;
use crate::installed::{names_installed, pickle_path};
use crate::reason_text::add;
use jobs::FileFault;
use pickle_heads::head_of;
use std::io::Input;
use std::rt::{Env, Files};

/// If the arguments name an installed pickle and not its type to map, adds the type and the options that its head says.
pub fn tell_main<R: Files + Env + Input + AllocGlobal>(
    rt: &R,
    words: &[String],
    text: &mut Vec<u8>,
) -> Result<(), FileFault> {
    let Some(word) = words.iter().find(|word| names_installed(word.as_str())) else {
        return Ok(());
    };
    let path = pickle_path(rt, word.as_str())?;
    let pickle = read_pickle_of(rt, path.as_str())?;
    let head = head_of(b"", &pickle);
    let main = head.main.unwrap_or(b"");
    if main.is_empty() || words.iter().any(|word| word.as_bytes() == main) {
        return Ok(());
    }
    add(text, &["  without a TYPE, that of ", word.as_str(), " is "])?;
    text.extend_from_slice(main)?;
    if !head.options.text.is_empty() {
        add(text, &[", with "])?;
        text.extend_from_slice(head.options.text)?;
    }
    Ok(add(text, &["\n"])?)
}
