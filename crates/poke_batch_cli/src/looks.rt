//! The colors of a job that shows a value to the eye.
use command_line::color::Color;
use command_line::request::Form;
use poke_batch::words::{Asked, Job};
use std::env;
use std::io::IsTerminal;
use std::rt::Env;

/// The environment variable that requests no colour, if it is there and isn't empty.
const NO_COLOR: &str = "NO_COLOR";

/// Settles whether a job that shows a value has colors. Such a job explains a fault too.
pub fn settle_colors<R: Env + AllocGlobal, O: IsTerminal>(rt: &R, out: &O, asked: &mut Asked) {
    let Job::Request(request) = &mut asked.job else {
        return;
    };
    if let Form::Shown { color, .. } = &mut request.form {
        *color = if has_colors(rt, out, *color) {
            Color::Always
        } else {
            Color::Never
        };
        asked.why = true;
    }
}

fn has_colors<R: Env + AllocGlobal, O: IsTerminal>(rt: &R, out: &O, color: Color) -> bool {
    match color {
        Color::Always => true,
        Color::Never => false,
        Color::Auto => out.is_terminal() && !wants_no_color(rt),
    }
}

fn wants_no_color<R: Env + AllocGlobal>(rt: &R) -> bool {
    match env::var(rt, NO_COLOR) {
        Ok(value) => !value.is_empty(),
        Err(_) => false,
    }
}
