//! Starts at which a type has no value, as its first numbers show.

ghost use Rattle.std.specs.Prelude.{◌≡◌, ◌+◌, ◌*◌, ◌^◌, ◌<◌, ◌≤◌, ℕ, true, IfOk, IfSome};
ghost use Rattle.bit_space.specs.SpaceView.{Keeps, SpaceView};
ghost use Rattle.pickle_types.specs.TypeTable.{IsInTable, type_named};
ghost use Rattle.pickle_types.specs.Types.{PokeType};
ghost use Rattle.first_numbers.specs.Held.{HoldsLayout, IsSoundFirst, IsSoundLayout};
ghost use Rattle.first_numbers.specs.Layouts.{layout as layout_of};
ghost use Rattle.first_numbers.specs.Reads.{IsMissed};
ghost use Rattle.first_numbers.specs.Screens.{AreMissed, AreMisses, IsClear, IsCovered, IsMiss, IsScreen, IsSieve, MissesIn, PassesOver, ScreensIn, unread};
ghost use Rattle.first_numbers.specs.declared.number.First.{First};
ghost use Rattle.bit_space.specs.declared.order.Order.{Order};

use crate::layouts::Layout;
use crate::nodes::type_layout;
use crate::number::First;
use crate::screen::{RUN, Screen};
use bit_space::{Order, Space};
use pickle_types::table::{Table, TypeId};
use std::alloc::{AllocError, Global};

/// What is known of the starts of a type in a file.
#[derive(Drop)]
pub struct Sieve<'a> {
    pub layout: Layout<'a>,
    /// The byte order around the type.
    pub order: Order,
    /// What one byte says of a start, if the first numbers are of that kind.
    pub screen: Option<Screen>,
    /// The same of another byte.
    pub second: Option<Screen>,
    pub clear: Clear,
}

/// Starts that are surely missed: each byte from one on and before another.
#[derive(Clone, Copy, Drop)]
pub struct Clear {
    pub from: u64,
    pub to: u64,
    /// The steps up to the fault at each of them.
    pub steps: u64,
    /// Whether the byte `to` was looked at, and isn't surely one of them.
    pub is_open: bool,
}

/// A Constraint fault that is known without a mapping.
#[derive(Clone, Copy, Drop)]
pub struct Miss {
    /// Where it is, in bits from the start.
    pub distance: u64,
    /// The steps up to it.
    pub steps: u64,
}

/// Starts at each of which a type has the same fault.
#[derive(Clone, Copy, Drop)]
pub struct Stretch {
    /// How many there are.
    pub count: u64,
    pub miss: Miss,
}

impl<'a> Sieve<'a> {
    /// What is known of the starts of a type before the file is read. The layout is stored in memory that is allocated
    /// for it.
    pub fn of(
        alloc: Global,
        table: &'a Table,
        id: TypeId,
        order: Order,
    ) -> Result<Sieve<'a>, AllocError>
        requires known { IsInTable table.now id }
        ensures { IfOk result (λ sieve. (space : SpaceView) → IsSieve (type_named table.now id) space order sieve) }
    {
        let layout = type_layout(alloc, table, id)?;
        Ok(Sieve {
            screen: layout_screen(&layout, order),
            second: second_screen(&layout, order),
            layout,
            order,
            clear: Clear {
                from: 0,
                to: 0,
                steps: 0,
                is_open: false,
            },
        })
    }

    /// The fault of the type at a start, if all its first numbers are in the space and fail, and that takes no more
    /// steps than are allowed. `None` says nothing: one of them may hold, or a read may have failed.
    #[inline(always)]
    pub fn missed<S: Space>(&mut self, start: u64, allowed: u64, space: &mut S) -> Option<Miss>
        requires sound { IsSoundLayout self.old.layout }
        ensures after { (type : PokeType) (order : Order) → IsSieve type (S.view space.old) order self.old →
            IsSieve type (S.view space.new) order self.new }
        ensures missed { (type : PokeType) (order : Order) → IsSieve type (S.view space.old) order self.old →
            IfSome result (IsMiss type (S.view space.old) order start allowed) }
        ensures keeps { Keeps (S.view space.old) (S.view space.new) }
    {
        if self.is_covered(start, space) {
            return covered_miss(&self.layout, self.clear, allowed);
        }
        read_miss(&self.layout, self.order, start, allowed, space)
    }

    /// The starts from one on, each so many bits after the one before, that the screen shows to be missed. It is read at
    /// the first of them if that isn't known. `None` says nothing.
    #[inline(always)]
    pub fn missed_stretch<S: Space>(
        &mut self,
        start: u64,
        step: u64,
        allowed: u64,
        space: &mut S,
    ) -> Option<Stretch>
        requires step { 0 < step }
        ensures after { (type : PokeType) (order : Order) → IsSieve type (S.view space.old) order self.old →
            IsSieve type (S.view space.new) order self.new }
        ensures missed { (type : PokeType) (order : Order) → IsSieve type (S.view space.old) order self.old →
            IfSome result (AreMisses type (S.view space.old) order start step allowed) }
        ensures keeps { Keeps (S.view space.old) (S.view space.new) }
    {
        if !self.is_covered(start, space) {
            return None;
        }
        let miss = covered_miss(&self.layout, self.clear, allowed)?;
        Some(Stretch {
            count: self.clear.count_from(start, step),
            miss,
        })
    }

    /// The starts from one on, each so many bits after the one before, at which all first numbers fail in the same steps.
    /// They are read if that isn't known, up to 512 at once. `None` says nothing.
    #[inline(always)]
    pub fn failing_stretch<S: Space>(
        &mut self,
        start: u64,
        step: u64,
        allowed: u64,
        space: &mut S,
    ) -> Option<Stretch>
        requires sound { IsSoundLayout self.old.layout }
        requires step { 0 < step }
        ensures after { (type : PokeType) (order : Order) → IsSieve type (S.view space.old) order self.old →
            IsSieve type (S.view space.new) order self.new }
        ensures missed { (type : PokeType) (order : Order) → IsSieve type (S.view space.old) order self.old →
            IfSome result (AreMisses type (S.view space.old) order start step allowed) }
        ensures keeps { Keeps (S.view space.old) (S.view space.new) }
    {
        self.read_run(start, space);
        let miss = covered_miss(&self.layout, self.clear, allowed)?;
        Some(Stretch {
            count: self.clear.count_from(start, step),
            miss,
        })
    }

    // Reads the starts from one on at which all first numbers fail, if it is at a byte and nothing is known of it.
    #[inline(never)]
    fn read_run<S: Space>(&mut self, start: u64, space: &mut S)
        requires sound { IsSoundLayout self.old.layout }
        ensures after { (type : PokeType) (order : Order) → IsSieve type (S.view space.old) order self.old →
            IsSieve type (S.view space.new) order self.new }
        ensures keeps { Keeps (S.view space.old) (S.view space.new) }
    {
        if self.clear.has(start) {
            return;
        }
        let at = start / 8;
        if start % 8 != 0 || (self.clear.is_open && at == self.clear.to) {
            return;
        }
        if let Layout::Tests(first) = &self.layout {
            self.clear = failing_run(first, self.order, &self.screen, &self.second, at, space);
        }
    }

    /// The fault of the type at a start, if the screen showed it before, and it takes no more steps than are allowed.
    /// Nothing is read. `None` says nothing.
    #[inline(always)]
    pub fn known_miss(&self, start: u64, allowed: u64) -> Option<Miss>
        ensures few { IfSome result (λ miss. miss.steps ≤ allowed) }
        ensures missed { (type : PokeType) (space : SpaceView) (order : Order) → IsSieve type space order self.now →
            IfSome result (IsMiss type space order start allowed) }
    {
        if self.clear.has(start) {
            covered_miss(&self.layout, self.clear, allowed)
        } else {
            None
        }
    }

    // Whether a start is surely missed, as the screen shows. If that isn't known, the screen is read there.
    #[inline(always)]
    fn is_covered<S: Space>(&mut self, start: u64, space: &mut S) -> bool
        ensures after { (type : PokeType) (order : Order) → IsSieve type (S.view space.old) order self.old →
            IsSieve type (S.view space.new) order self.new }
        ensures covered { (type : PokeType) (order : Order) → IsSieve type (S.view space.old) order self.old →
            result ≡ true → IsCovered self.new.layout (S.view space.old) order start self.new.clear.steps }
        ensures same { (self.new.layout ≡ self.old.layout) × (self.new.order ≡ self.old.order) }
        ensures keeps { Keeps (S.view space.old) (S.view space.new) }
    {
        match &self.screen {
            Some(screen) => self.clear.covers(screen, start, space),
            None => false,
        }
    }
}

impl Clear {
    /// Whether a start is one of these.
    #[inline(always)]
    fn has(&self, start: u64) -> bool
        ensures { result ≡ true → IsClear self.now start }
    {
        if start % 8 != 0 {
            return false;
        }
        let at = start / 8;
        self.from <= at && at < self.to
    }

    /// How many of the starts from one on, each so many bits after the one before, are among these.
    fn count_from(&self, start: u64, step: u64) -> u64
        requires { 0 < step }
        ensures { (k : ℕ) → k < result → IsClear self.now (start + k * step) }
    {
        if !self.has(start) || step % 8 != 0 {
            return 0;
        }
        (self.to - start / 8).div_ceil(step / 8)
    }

    /// Whether a start is surely missed. If it isn't known, the screen is read there.
    #[inline(always)]
    fn covers<S: Space>(&mut self, screen: &Screen, start: u64, space: &mut S) -> bool
        ensures after { (held : First) (order : Order) → IsScreen held order screen.now →
            AreMissed held (S.view space.old) order self.old.from self.old.to self.old.steps →
            AreMissed held (S.view space.old) order self.new.from self.new.to self.new.steps }
        ensures covers { (held : First) (order : Order) → IsScreen held order screen.now →
            AreMissed held (S.view space.old) order self.old.from self.old.to self.old.steps →
            result ≡ true → IsMissed held (S.view space.old) order start self.new.steps self.new.steps }
        ensures keeps { Keeps (S.view space.old) (S.view space.new) }
    {
        if self.has(start) {
            return true;
        }
        if start % 8 != 0 {
            return false;
        }
        let at = start / 8;
        if self.is_open && at == self.to {
            return false;
        }
        let run = screen.missed_run(at, RUN, space);
        *self = Clear {
            from: at,
            to: at + run,
            steps: screen.steps,
            is_open: run < RUN,
        };
        at < self.to
    }
}

// The fault at a start that is surely missed.
#[inline(always)]
fn covered_miss(layout: &Layout<'_>, clear: Clear, allowed: u64) -> Option<Miss>
    ensures few { IfSome result (λ miss. miss.steps ≤ allowed) }
    ensures missed { (space : SpaceView) (order : Order) (start : ℕ) →
        IsCovered layout.now space order start clear.steps →
        IfSome result (MissesIn layout.now space order start allowed) }
{
    match layout {
        Layout::Tests(first) if clear.steps <= allowed => Some(Miss {
            distance: first.fault,
            steps: clear.steps,
        }),
        _ => None,
    }
}

// The starts at bytes from one on at which all first numbers fail in the same steps, up to the next multiple of 512.
fn failing_run<S: Space>(
    first: &First<'_>,
    order: Order,
    screen: &Option<Screen>,
    second: &Option<Screen>,
    at: u64,
    space: &mut S,
) -> Clear
    requires sound { IsSoundFirst first.now }
    requires near { 8 * at < 2 ^ 64 }
    ensures missed { IfSome screen.now (IsScreen first.now order) → IfSome second.now (IsScreen first.now order) →
        AreMissed first.now (S.view space.old) order result.from result.to result.steps }
    ensures keeps { Keeps (S.view space.old) (S.view space.new) }
{
    let end = at - at % RUN + RUN;
    let steps = likely_steps(first, order, screen, at, space);
    let mut to = at;
    while to < end {
        let more = failing_count(first, order, screen, second, steps, to, end - to, space);
        if more == 0 {
            return Clear {
                from: at,
                to,
                steps,
                is_open: true,
            };
        }
        to += more;
    }
    Clear {
        from: at,
        to,
        steps,
        is_open: false,
    }
}

// The steps in which the first numbers of a type are likely to fail from a byte on.
fn likely_steps<S: Space>(
    first: &First<'_>,
    order: Order,
    screen: &Option<Screen>,
    at: u64,
    space: &mut S,
) -> u64
    requires sound { IsSoundFirst first.now }
    requires near { 8 * at < 2 ^ 64 }
    ensures keeps { Keeps (S.view space.old) (S.view space.new) }
{
    match screen {
        Some(screen) => screen.steps,
        None => first
            .missed_steps(order, 8 * at, u64::MAX, space)
            .unwrap_or(0),
    }
}

// How many starts, one at each byte from one on, are surely missed in so many steps. At most so many are looked at. 0
// says nothing.
fn failing_count<S: Space>(
    first: &First<'_>,
    order: Order,
    screen: &Option<Screen>,
    second: &Option<Screen>,
    steps: u64,
    at: u64,
    most: u64,
    space: &mut S,
) -> u64
    requires sound { IsSoundFirst first.now }
    requires near { 8 * at < 2 ^ 64 }
    ensures missed { IfSome screen.now (IsScreen first.now order) → IfSome second.now (IsScreen first.now order) →
        AreMissed first.now (S.view space.old) order at (at + result) steps }
    ensures end { at + result < 2 ^ 64 }
    ensures keeps { Keeps (S.view space.old) (S.view space.new) }
{
    let count = screened_count(screen, steps, at, most, space);
    if count > 0 {
        return count;
    }
    let other = screened_count(second, steps, at, 1, space);
    if other > 0 {
        return other;
    }
    one_failing(first, order, steps, at, space)
}

// How many of them a screen rules out, if there is one.
fn screened_count<S: Space>(
    screen: &Option<Screen>,
    steps: u64,
    at: u64,
    most: u64,
    space: &mut S,
) -> u64
    ensures missed { (held : First) (order : Order) → IfSome screen.now (IsScreen held order) →
        AreMissed held (S.view space.old) order at (at + result) steps }
    ensures end { at + result < 2 ^ 64 }
    ensures keeps { Keeps (S.view space.old) (S.view space.new) }
{
    match screen {
        Some(screen) => ruled_count(screen, steps, at, most, space),
        None => 0,
    }
}

// How many of them a screen rules out in these steps.
fn ruled_count<S: Space>(screen: &Screen, steps: u64, at: u64, most: u64, space: &mut S) -> u64
    ensures missed { (held : First) (order : Order) → IsScreen held order screen.now →
        AreMissed held (S.view space.old) order at (at + result) steps }
    ensures end { at + result < 2 ^ 64 }
    ensures keeps { Keeps (S.view space.old) (S.view space.new) }
{
    if screen.steps == steps {
        return screen.missed_run(at, most, space);
    }
    0
}

// 1 if the first numbers at a byte are read and fail in so many steps.
fn one_failing<S: Space>(first: &First<'_>, order: Order, steps: u64, at: u64, space: &mut S) -> u64
    requires sound { IsSoundFirst first.now }
    requires near { 8 * at < 2 ^ 64 }
    ensures missed { AreMissed first.now (S.view space.old) order at (at + result) steps }
    ensures few { result ≤ 1 }
    ensures keeps { Keeps (S.view space.old) (S.view space.new) }
{
    match first.missed_steps(order, 8 * at, steps, space) {
        Some(taken) if taken == steps => 1,
        _ => 0,
    }
}

// The fault at a start at which the first numbers of a type are read.
#[inline(never)]
fn read_miss<S: Space>(
    layout: &Layout<'_>,
    order: Order,
    start: u64,
    allowed: u64,
    space: &mut S,
) -> Option<Miss>
    requires sound { IsSoundLayout layout.now }
    ensures missed { IfSome result (MissesIn layout.now (S.view space.old) order start allowed) }
    ensures keeps { Keeps (S.view space.old) (S.view space.new) }
{
    match layout {
        Layout::Tests(first) => {
            let steps = first.missed_steps(order, start, allowed, space)?;
            Some(Miss {
                distance: first.fault,
                steps,
            })
        }
        Layout::Number(_) | Layout::Fixed { .. } | Layout::Loose => None,
    }
}

// The screen of a type.
fn layout_screen(layout: &Layout<'_>, order: Order) -> Option<Screen>
    requires sound { IsSoundLayout layout.now }
    ensures { (space : SpaceView) → PassesOver layout.now result space order unread }
{
    match layout {
        Layout::Tests(first) => Screen::of(first, order),
        Layout::Number(_) | Layout::Fixed { .. } | Layout::Loose => None,
    }
}

// The second screen of a type.
fn second_screen(layout: &Layout<'_>, order: Order) -> Option<Screen>
    requires sound { IsSoundLayout layout.now }
    ensures { ScreensIn layout.now result order }
{
    match layout {
        Layout::Tests(first) => Screen::second_of(first, order),
        Layout::Number(_) | Layout::Fixed { .. } | Layout::Loose => None,
    }
}
