//! The terms under which a mapped value is accepted, and how it is printed.

ghost use Rattle.std.specs.Prelude.{◌≡◌, false, None};
ghost use Rattle.text_output.specs.Styles.{plain};

use crate::path::Path;
use crate::selection::Selection;
use text_output::style::{Look, Style};

/// What a mapped value must meet before it is printed, and how it looks then. Every value meets [`Terms::none`].
#[derive(Debug, Drop, PartialEq, Eq)]
pub struct Terms {
    /// Whether the value must end with the file's last bit.
    pub whole: bool,
    /// The most bytes of the printed value, the line feed at its end included. `None` is no limit.
    pub most_output: Option<u64>,
    /// The path to the part that is printed. `None` prints the value itself.
    pub part: Option<Path>,
    /// The most slots of each kind that the mapping may fill. They are reserved before it starts. `None` is no limit.
    pub most_slots: Option<u64>,
    /// The most bytes that the stored values may take, as docs/OPERATORS.md counts them. `None` is no limit.
    pub most_bytes: Option<u64>,
    /// How the printed value looks.
    pub style: Style,
    /// If it is given, the value is shown to the eye, and has no mode and no style.
    pub look: Option<Look>,
    /// What is printed of the parts of that part. `None` prints it whole.
    pub selection: Option<Selection>,
}

impl Terms {
    /// Terms that every value meets, and the plain style.
    pub fn none() -> Terms
        ensures { result ≡ record {
          whole = false;
          most_output = None;
          part = None;
          most_slots = None;
          most_bytes = None;
          style = plain;
          look = None;
          selection = None;
        } }
    {
        Terms {
            whole: false,
            most_output: None,
            part: None,
            most_slots: None,
            most_bytes: None,
            style: Style::plain(),
            look: None,
            selection: None,
        }
    }
}
