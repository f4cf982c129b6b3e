//! The braces around a token.

use pickle_source::script::Script;

/// Whether a `{` is that of an integral struct.
pub fn is_integral(script: &Script<'_>, brace: usize) -> bool {
    !matches!(script.text_before(brace), b"struct" | b"union")
}

/// The `{` of the innermost braces around a token, if they are those of an integral struct.
pub fn integral_brace(script: &Script<'_>, token: usize) -> Option<usize> {
    match brace_around(script, token) {
        Some(brace) if is_integral(script, brace) => Some(brace),
        _ => None,
    }
}

/// The `{` of the innermost braces around a token.
pub fn brace_around(script: &Script<'_>, token: usize) -> Option<usize> {
    let mut depth: usize = 0;
    for back in 0..token {
        let before = (token - back).saturating_sub(1);
        match script.text(before) {
            b"}" => depth = depth.saturating_add(1),
            b"{" if depth == 0 => return Some(before),
            b"{" => depth = depth.saturating_sub(1),
            _ => {}
        }
    }
    None
}
