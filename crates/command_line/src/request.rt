//! A mapping that requests more than a plain one does.

ghost use Rattle.std.specs.Prelude.{◌≡◌, option_map};
ghost use Rattle.command_line.specs.Found.{file_over};
ghost use Rattle.command_line.specs.Requests.{faults_in};

use crate::color::Color;
use crate::fault_form::FaultForm;
use crate::limit::Limit;
use crate::path::Path;
use crate::start::Start;
use crate::subject::Subject;
use crate::terms::Terms;
use bit_space::Order;
use text_output::mode::Mode;
use text_output::style::{Beside, Numbers};

/// A type to map, what it is mapped over, and how each value is accepted and written.
#[derive(Debug, Drop, PartialEq, Eq)]
pub struct Request {
    /// Where the mapping starts in each file.
    pub start: Start,
    /// After how many bytes the file ends, counted from the byte that the mapping starts in. `None` is the file's end,
    /// which it isn't beyond.
    pub window: Option<u64>,
    /// The byte order of the run. `None` is the one that the head of the pickle says, if the subject is by the head, and
    /// else big-endian.
    pub order: Option<Order>,
    /// The most steps of each mapping.
    pub limit: Limit,
    /// The most bytes of a file without a length that are read into memory. `None` opens no such file.
    pub spool: Option<u64>,
    /// What each value must meet, and how it looks.
    pub terms: Terms,
    /// How each value is written.
    pub form: Form,
    /// Whether a terminal shows how much is done.
    pub progress: bool,
    /// What is mapped.
    pub subject: Subject,
    /// What it is mapped over.
    pub over: Over,
}

impl Request {
    /// How a refusal or a fault is written. To the eye that is in words.
    pub fn faults(&self) -> FaultForm
        ensures { result ≡ faults_in self.now.form }
    {
        match self.form {
            Form::Printed { faults, .. } => faults,
            Form::Shown { .. } => FaultForm::Text,
        }
    }
}

/// How a value is written.
#[derive(Clone, Copy, Debug, Drop, PartialEq, Eq)]
pub enum Form {
    /// Printed in a mode, for programs, which also read a refusal or a fault.
    Printed {
        mode: Mode,
        faults: FaultForm,
    },
    /// Shown to the eye, with so many levels of parts below the value at most. `None` shows all levels. Numbers are in the
    /// form that is given or, with `None`, in two.
    Shown {
        color: Color,
        depth: Option<u64>,
        numbers: Option<Numbers>,
        beside: Beside,
    },
}

/// What a type is mapped over.
#[derive(Debug, Drop, PartialEq, Eq)]
pub enum Over {
    /// The file of this name.
    File(String),
    /// The file of this name, of which the bytes of the requested part are written as they are.
    Bytes(String),
    /// One file after another, with a line for each. With `flush` each line is written at once.
    Files {
        names: FileNames,
        flush: bool,
    },
    /// The records of a list in the file of this name, one after another.
    Records {
        file: String,
        of: RecordsOf,
        list: RecordList,
    },
    /// The places in the file of this name at which the type has a value.
    Search {
        file: String,
        search: ValueSearch,
    },
}

impl Over {
    /// The name of the file, if it is one alone.
    pub fn file(&self) -> Option<&str>
        ensures { option_map (λ name. name.now) result ≡ file_over self.now }
    {
        match self {
            Over::File(file)
            | Over::Bytes(file)
            | Over::Records { file, .. }
            | Over::Search { file, .. } => Some(file.as_str()),
            Over::Files { .. } => None,
        }
    }
}

/// What the records of a list are.
#[derive(Debug, Drop, PartialEq, Eq)]
pub enum RecordsOf {
    /// Values of the type, each from the end of the one before.
    Values,
    /// The elements of the array at this path in a value of the type.
    Path(Path),
    /// Those of the array at the path that the head of the pickle says.
    Head,
}

/// Which records of a list are printed, and how the list may end.
#[derive(Clone, Copy, Debug, Drop, PartialEq, Eq)]
pub struct RecordList {
    /// How many records are mapped first, and not printed.
    pub omit: u64,
    /// After how many printed records the list stops. `None` goes on to its end.
    pub count: Option<u64>,
    /// Whether the list may end before the file does.
    pub any_end: bool,
    /// Whether each record is written at once.
    pub flush: bool,
    /// Whether a line says at last where the list is then, and how many records there were.
    pub report_end: bool,
    /// Whether a line with the names of the columns comes first, if columns are printed.
    pub header: bool,
    /// Whether the limit of steps, that of all records together, grows with the file, since no number is given.
    pub grows: bool,
    /// The bit where a list inside a value goes on. `None` is its start.
    pub resume: Option<u64>,
}

/// At which places a type is tried, and which values are printed.
#[derive(Clone, Copy, Debug, Drop, PartialEq, Eq)]
pub struct ValueSearch {
    /// How many bits lie between two places.
    pub step: u64,
    /// The most steps of the attempt at one place.
    pub attempt_limit: u64,
    /// After how many printed values the search stops. `None` goes on to the file's end.
    pub count: Option<u64>,
    /// Whether the next place after a value is at or after its end.
    pub apart: bool,
    /// Whether each line is written at once.
    pub flush: bool,
    /// Whether a line with the names of the columns comes first.
    pub header: bool,
    /// Whether the limit of steps, that of all attempts together, grows with the number of places, since no number is
    /// given.
    pub grows: bool,
}

/// Where the names of many files are.
#[derive(Debug, Drop, PartialEq, Eq)]
pub enum FileNames {
    /// In the arguments.
    Words(Vec<String>),
    /// In the file of this name, or in standard input for `-`. Each name ends with a byte 0.
    EndedByZero(String),
}
