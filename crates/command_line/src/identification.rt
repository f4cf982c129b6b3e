//! Files of which the formats are requested.

use crate::fault_form::FaultForm;
use crate::request::FileNames;
use crate::start::Start;

/// Files whose formats are requested.
#[derive(Debug, Drop, PartialEq, Eq)]
pub struct Identification {
    /// Where the format is looked for in each file.
    pub start: Start,
    /// After how many bytes the file ends, counted from the byte that the start is in. `None` is the file's end, which it
    /// isn't beyond.
    pub window: Option<u64>,
    /// The most bytes of a file without a length that are read into memory. `None` opens no such file.
    pub spool: Option<u64>,
    /// Whether all formats that fit are requested.
    pub all: bool,
    /// The folder of the pickles. `None` is that of `+NAME`.
    pub folder: Option<String>,
    /// How a refusal or a fault is written.
    pub faults: FaultForm,
    /// Whether a terminal shows how much is done.
    pub progress: bool,
    /// Where the names of the files are.
    pub names: FileNames,
    /// Whether each line is written at once.
    pub flush: bool,
}
