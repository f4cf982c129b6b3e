//! Where a type is tried, and how far a search is.

ghost use Rattle.std.specs.Prelude.{◌≡◌, ◌<◌, ◌≤◌, ◌+◌, ◌*◌, ◌^◌, true};
ghost use Rattle.searches.specs.Passed.{PassesSome, after_starts};
ghost use Rattle.searches.specs.Starts.{IsFew, after_stop, after_value, allowed, ask_at, first_of, given_count, given_more, goes_on, is_counted, natural_end, next_start, start_after, way_over};

use command_line::ask::Ask;
use first_numbers::sieve::Stretch;
use pickle_map::MapFaultKind;
use run_parts::outcome::Outcome;

/// Where a type is tried, and which values are written.
#[derive(Clone, Copy, Debug, Drop, PartialEq, Eq)]
pub struct Search {
    /// How many bits lie between two starts, at least 1.
    pub step: u64,
    /// The most steps of one attempt.
    pub attempt_limit: u64,
    /// After how many values the search stops. `None` goes on to the file's end.
    pub count: Option<u64>,
    /// Whether the next start after a value is at or after its end.
    pub apart: bool,
    /// Whether each line is written at once.
    pub flush: bool,
}

/// Attempts that their own limit ended, or the weight of their values.
#[derive(Clone, Copy, Debug, Drop, PartialEq, Eq)]
pub struct GivenUp {
    /// The bit at which the first of them began.
    pub first: u64,
    /// How many there were.
    pub count: u64,
}

/// How far a search is.
#[derive(Clone, Copy, Debug, Drop, PartialEq, Eq)]
pub struct Reach {
    /// The bit at which the next attempt begins.
    pub place: u64,
    /// How many values were found.
    pub found: u64,
    /// How many steps are left.
    pub left: u64,
    /// The attempts that were given up, if there are any.
    pub given_up: Option<GivenUp>,
}

impl Reach {
    /// That of a search that tried no start.
    pub(crate) fn first(ask: &Ask<'_>) -> Reach
        ensures { result ≡ first_of ask.now }
    {
        Reach {
            place: ask.start,
            found: 0,
            left: ask.limit,
            given_up: None,
        }
    }

    /// What the next attempt is given.
    pub(crate) fn ask_for<'a>(&self, search: Search, ask: &Ask<'a>) -> Ask<'a>
        ensures { result ≡ ask_at search self.now ask.now }
    {
        Ask {
            name: ask.name,
            start: self.place,
            order: ask.order,
            limit: search.allowed(self.left),
            mode: ask.mode,
        }
    }
}

impl Search {
    /// Whether enough values were found.
    pub(crate) fn is_counted(&self, found: u64) -> bool
        ensures { result ≡ is_counted self.now found }
    {
        match self.count {
            Some(most) => found >= most,
            None => false,
        }
    }

    /// Whether a start is tried next, in a file of so many bits: more values are wanted, and the file goes on.
    pub(crate) fn goes_on(&self, at: Reach, bits: u64) -> bool
        ensures { result ≡ goes_on self.now at bits }
    {
        !self.is_counted(at.found) && at.place < bits
    }

    /// The most steps of an attempt when so many are left.
    pub(crate) fn allowed(&self, left: u64) -> u64
        ensures { result ≡ allowed self.now left }
    {
        self.attempt_limit.min(left)
    }

    /// The start after one, in a file of so many bits: the file's end at most.
    pub(crate) fn next_start(&self, place: u64, bits: u64) -> u64
        ensures { result ≡ next_start self.now place bits }
    {
        (u128::from(place) + u128::from(self.step)).min(u128::from(bits)) as u64
    }

    /// The start after one at which a value was found that ends at a bit.
    fn start_after(&self, place: u64, end: u64, bits: u64) -> u64
        requires step { 0 < self.now.step }
        requires forward { place ≤ end }
        ensures is { result ≡ start_after self.now place end bits }
        // With `apart` it is the first of the steps at or after the value's end, unless the file ends before.
        ensures after { self.now.apart ≡ true → end ≤ bits → end ≤ result }
        ensures first { self.now.apart ≡ true → place < end → result < end + self.now.step }
    {
        if self.apart {
            let over = way_over(self.step, end - place);
            (u128::from(place) + over).min(u128::from(bits)) as u64
        } else {
            self.next_start(place, bits)
        }
    }

    /// How far a search is after a value that ends at a bit, and took so many steps.
    pub(crate) fn after_value(&self, at: Reach, end: u64, steps: u64, bits: u64) -> Reach
        requires step { 0 < self.now.step }
        requires forward { at.place ≤ end }
        requires steps { steps ≤ at.left }
        requires few { IsFew at }
        requires inside { at.place < bits }
        ensures { result ≡ after_value self.now at end steps bits }
    {
        Reach {
            place: self.start_after(at.place, end, bits),
            found: at.found + 1,
            left: at.left - steps,
            given_up: at.given_up,
        }
    }

    /// How far a search is after an attempt that was stopped after so many steps. With `most_bytes` one whose values
    /// weigh too much is given up. `None` ends the search.
    pub(crate) fn after_stop(
        &self,
        most_bytes: Option<u64>,
        at: Reach,
        kind: MapFaultKind,
        steps: u64,
        bits: u64,
    ) -> Option<Reach>
        requires steps { steps ≤ at.left }
        requires few { IsFew at }
        requires inside { at.place < bits }
        ensures { result ≡ after_stop self.now most_bytes at kind steps bits }
    {
        let given_up = match kind {
            MapFaultKind::Device => return None,
            MapFaultKind::Memory if most_bytes.is_none() => return None,
            MapFaultKind::Limit if self.attempt_limit > at.left => return None,
            MapFaultKind::Memory | MapFaultKind::Limit => Some(given_more(at.given_up, at.place)),
            _ => at.given_up,
        };
        Some(Reach {
            place: self.next_start(at.place, bits),
            found: at.found,
            left: at.left - steps,
            given_up,
        })
    }

    /// How far a search is after as many starts of a stretch as are in the file, and as it has the steps for.
    pub(crate) fn past_stretch(&self, at: Reach, stretch: Stretch, bits: u64) -> Reach
        requires step { 0 < self.now.step }
        requires inside { at.place < bits }
        ensures { PassesSome self.now at stretch bits result }
    {
        let places = (bits - at.place).div_ceil(self.step);
        let count = stretch.count.min(places);
        let passed = most_paid(count, stretch.miss.steps, at.left);
        self.after_starts(at, passed, stretch.miss.steps, bits)
    }

    // How far a search is after so many starts, each of which took so many steps.
    fn after_starts(&self, at: Reach, count: u64, steps: u64, bits: u64) -> Reach
        requires paid { count * steps ≤ at.left }
        ensures { result ≡ after_starts self.now at count steps bits }
    {
        let way = u128::from(count) * u128::from(self.step);
        Reach {
            place: (u128::from(at.place) + way).min(u128::from(bits)) as u64,
            found: at.found,
            left: at.left - count * steps,
            given_up: at.given_up,
        }
    }

    /// How a search ends that doesn't go on.
    pub(crate) fn natural_end(&self, at: Reach) -> Outcome
        ensures { result ≡ natural_end self.now at }
    {
        match at.given_up {
            Some(given) => Outcome::Attempts {
                first: given.first,
                count: given.count,
            },
            None if at.found == 0 && !self.is_counted(at.found) => Outcome::NotFound,
            None => Outcome::Done,
        }
    }
}

// How many of `count` starts can be paid, each of which takes so many steps, when so many are left.
fn most_paid(count: u64, steps: u64, left: u64) -> u64
    ensures few { result ≤ count }
    ensures paid { result * steps ≤ left }
{
    if steps == 0 {
        count
    } else {
        count.min(left / steps)
    }
}

// How far the first of the steps is that is at or after a distance, and after 0.
fn way_over(step: u64, distance: u64) -> u128
    requires { 0 < step }
    ensures is { result ≡ way_over step distance }
    ensures far { distance ≤ result }
    ensures near { 0 < distance → result < distance + step }
    ensures small { result ≤ distance + step }
{
    if distance == 0 {
        return u128::from(step);
    }
    u128::from(distance).div_ceil(u128::from(step)) * u128::from(step)
}

// One more attempt was given up, at a bit.
fn given_more(given_up: Option<GivenUp>, place: u64) -> GivenUp
    requires { given_count given_up + 1 < 2 ^ 64 }
    ensures { result ≡ given_more given_up place }
{
    match given_up {
        Some(given) => GivenUp {
            first: given.first,
            count: given.count + 1,
        },
        None => GivenUp {
            first: place,
            count: 1,
        },
    }
}
