//! Which records of a list are written, and how far a list was mapped.

ghost use Rattle.std.specs.Prelude.{◌≡◌, ◌<◌};
ghost use Rattle.records.specs.Records.{ask_at, first_of, goes_on, is_counted, is_written, starts_apart};

use command_line::ask::Ask;
use text_output::mode::Mode;

/// Which records of a list are written, and how the list may end.
#[derive(Clone, Copy, Debug, Drop, PartialEq, Eq)]
pub struct Listing {
    /// How many records are mapped first, and not written.
    pub omit: u64,
    /// After how many written records the list stops. `None` goes on to its end.
    pub count: Option<u64>,
    /// Whether the list may end before the file does.
    pub any_end: bool,
    /// Whether each record is written at once.
    pub flush: bool,
}

impl Listing {
    /// Whether a list that was mapped so far has no more records to map, since enough were written.
    pub fn is_counted(&self, count: u64) -> bool
        ensures { result ≡ is_counted self.now count }
    {
        match self.count {
            Some(most) => u128::from(count) >= u128::from(self.omit) + u128::from(most),
            None => false,
        }
    }

    /// Whether a record is mapped next, in a file of so many bits: it isn't counted out, and the file goes on.
    pub fn goes_on(&self, progress: Progress, bits: u64) -> bool
        ensures { result ≡ goes_on self.now progress bits }
    {
        !self.is_counted(progress.count) && progress.place < bits
    }

    /// Whether a record is written that has so many before it.
    pub fn is_written(&self, before: u64) -> bool
        ensures { result ≡ is_written self.now before }
    {
        before >= self.omit
    }

    /// Whether a blank line is written before a record that has so many before it: in modes with many lines a value, there
    /// is one between two values.
    pub fn starts_apart(&self, mode: Mode, before: u64) -> bool
        ensures { result ≡ starts_apart self.now mode before }
    {
        before > self.omit && matches!(mode, Mode::Tree | Mode::Lines)
    }
}

/// How far a list was mapped.
#[derive(Clone, Copy, Debug, Drop, PartialEq, Eq)]
pub struct Progress {
    /// The bit where the next record would begin.
    pub place: u64,
    /// How many records there were, those that weren't written too.
    pub count: u64,
    /// How many steps are left.
    pub left: u64,
}

impl Progress {
    /// That of a list of which nothing was mapped.
    pub fn first(ask: &Ask<'_>) -> Progress
        ensures { result ≡ first_of ask.now }
    {
        Progress {
            place: ask.start,
            count: 0,
            left: ask.limit,
        }
    }

    /// What the mapping of the next record is given. The list takes a step for each record itself.
    pub fn ask_for<'a>(&self, ask: &Ask<'a>) -> Ask<'a>
        requires { 0 < self.now.left }
        ensures { result ≡ ask_at self.now ask.now }
    {
        Ask {
            name: ask.name,
            start: self.place,
            order: ask.order,
            limit: self.left - 1,
            mode: ask.mode,
        }
    }
}
