//! What is printed of a mapped value under terms.

ghost use Rattle.std.specs.Prelude.{◌≡◌, ◌≤◌, Some, IfOk, IfErr};
ghost use Rattle.bit_space.specs.SpaceView.{Keeps};
ghost use Rattle.value_store.specs.Refs.{value_shown};
ghost use Rattle.pickle_meaning.specs.Values.{start_of, end_of};
ghost use Rattle.poke_batch.specs.RunsUnder.{SaysIt, is_left, shows_bytes, bytes_taken, AreTaken, AreBeside};
ghost use Rattle.poke_batch.specs.TypeRuns.{IsUnread, TellsValue, lent_bytes, run_kept_saying, run_saying, run_text_saying, taken_bytes};
ghost use Rattle.run_parts.specs.Outcomes.{EndsAs};
ghost use Rattle.value_text.specs.ShowParts.{bytes_lent};

use crate::draft::{DraftFault, gather, print_under};
use crate::part::part_at;
use crate::presence::has_selected;
use crate::type_run::TypeRun;
use bit_space::{DeviceFault, Space};
use pickle_map::ValueRef;
use run_parts::outcome::{Failure, Outcome};
use run_parts::tell::answer;
use std::alloc::{AllocError, Global};
use std::io::Write;
use text_output::style::Look;
use text_output::write::put;
use value_text::print::show::{FileBytes, byte_after};
use value_text::typed::{Typed, Types};

/// The bytes that a part takes of its file.
#[derive(Drop)]
pub struct TakenBytes {
    /// The place of the first of them in the file.
    pub from: u64,
    pub bytes: Vec<u8>,
}

impl TakenBytes {
    /// The same bytes, lent.
    fn lend(&self) -> FileBytes<'_>
        ensures { bytes_lent result ≡ taken_bytes self.now }
    {
        FileBytes {
            from: self.from,
            bytes: self.bytes.as_slice(),
        }
    }
}

impl TypeRun<'_> {
    /// Writes the printed value, mapped from a space, if it meets the terms. Otherwise the outcome is the first term that
    /// it fails to meet. If the look has the bytes of parts, those of the requested part are read from the space.
    pub fn tell_value<S: Space, O: Write>(
        &self,
        value: ValueRef<'_>,
        space: &mut S,
        out: &mut O,
    ) -> Outcome
        requires { start_of (value_shown value) ≤ end_of (value_shown value) }
        ensures tells { EndsAs
            (TellsValue self.now (S.view space.old) (S.view space.new) (value_shown value.entry)) result
            (O.contents out.old) (O.contents out.new) }
        ensures keeps { Keeps (S.view space.old) (S.view space.new) }
    {
        let bits = 8 * u128::from(space.len());
        if !shows_bytes(self.terms.look) {
            return self.tell_beside(value, None, bits, out);
        }
        match self.take_bytes(value, space) {
            Ok(taken) => self.tell_beside(value, Some(taken.lend()), bits, out),
            Err(failure) => Outcome::Failed(failure),
        }
    }

    /// Whether a value that ends there must end with the last of so many bits, and doesn't.
    pub fn is_left(&self, end: u128, bits: u128) -> bool
        ensures { result ≡ is_left self.now.terms.now.whole end bits }
    {
        self.terms.whole && end < bits
    }

    /// The bytes that the requested part of a value takes, if it is there.
    fn take_bytes<S: Space>(
        &self,
        value: ValueRef<'_>,
        space: &mut S,
    ) -> Result<TakenBytes, Failure>
        ensures ok { IfOk result (λ taken. AreBeside (S.view space.old) self.now.terms.now (value_shown value.entry)
            (taken_bytes taken)) }
        ensures err { IfErr result (IsUnread (S.view space.old) (S.view space.new)) }
        ensures keeps { Keeps (S.view space.old) (S.view space.new) }
    {
        let types = Types::new(self.table);
        let whole = Typed::new(value, &types, Some(self.id.node()));
        match part_at(whole, &self.terms.part) {
            Some(part) => bytes_of(self.alloc, part.value(), space),
            None => Ok(TakenBytes {
                from: 0,
                bytes: Vec::new(self.alloc),
            }),
        }
    }

    /// Writes the printed value, mapped from a file of so many bits, if it meets the terms, beside bytes of the file if they
    /// are given.
    fn tell_beside<O: Write>(
        &self,
        value: ValueRef<'_>,
        file: Option<FileBytes<'_>>,
        bits: u128,
        out: &mut O,
    ) -> Outcome
        requires { start_of (value_shown value) ≤ end_of (value_shown value) }
        ensures { EndsAs (SaysIt (run_saying self.now (lent_bytes file.entry) bits (value_shown value.entry))) result
            (O.contents out.old) (O.contents out.new) }
    {
        let end = u128::from(value.start()) + u128::from(value.size());
        if self.is_left(end, bits) {
            Outcome::Left(end)
        } else {
            self.tell_kept(value, file, out)
        }
    }

    /// Writes the requested part of a value that ends where it must.
    fn tell_kept<O: Write>(
        &self,
        value: ValueRef<'_>,
        file: Option<FileBytes<'_>>,
        out: &mut O,
    ) -> Outcome
        ensures { EndsAs (SaysIt (run_kept_saying self.now (lent_bytes file.entry) (value_shown value.entry))) result
            (O.contents out.old) (O.contents out.new) }
    {
        let types = Types::new(self.table);
        let whole = Typed::new(value, &types, Some(self.id.node()));
        let Some(part) = part_at(whole, &self.terms.part) else {
            return Outcome::NoSuchPart;
        };
        if has_selected(part, &self.terms.selection) {
            self.tell_text(part, file, out)
        } else {
            Outcome::NoSuchPart
        }
    }

    /// Writes the printed value if it has no more bytes than the most.
    fn tell_text<O: Write>(
        &self,
        value: Typed<'_>,
        file: Option<FileBytes<'_>>,
        out: &mut O,
    ) -> Outcome
        ensures { let most = self.now.terms.now.most_output in
            EndsAs (SaysIt (run_text_saying self.now (lent_bytes file.entry) most value.entry)) result
            (O.contents out.old) (O.contents out.new) }
    {
        match self.terms.most_output {
            None => answer(print_under(value, self.ask.mode, self.terms, file, out)),
            Some(most) => self.tell_short(value, file, most, out),
        }
    }

    /// The same with a most: the text is gathered first.
    fn tell_short<O: Write>(
        &self,
        value: Typed<'_>,
        file: Option<FileBytes<'_>>,
        most: u64,
        out: &mut O,
    ) -> Outcome
        ensures { EndsAs (SaysIt (run_text_saying self.now (lent_bytes file.entry) (Some most) value.entry)) result
            (O.contents out.old) (O.contents out.new) }
    {
        match gather(self.alloc, value, self.ask.mode, self.terms, file, most) {
            Ok(text) => answer(put(out, &text)),
            Err(DraftFault::TooLong) => Outcome::Output(self.ask.start),
            Err(DraftFault::Memory) => Outcome::Failed(Failure::Memory),
        }
    }
}

/// The bytes that a part takes.
fn bytes_of<S: Space>(
    alloc: Global,
    part: ValueRef<'_>,
    space: &mut S,
) -> Result<TakenBytes, Failure>
    ensures ok { IfOk result
        (λ taken. AreTaken (S.view space.old) (value_shown part.entry) (taken_bytes taken)) }
    ensures err { IfErr result (IsUnread (S.view space.old) (S.view space.new)) }
    ensures keeps { Keeps (S.view space.old) (S.view space.new) }
{
    let from = part.start() / 8;
    let count = bytes_taken(space.len(), part);
    let mut bytes = Vec::new(alloc);
    match bytes.resize(count as usize, 0) {
        Ok(()) => {}
        Err(AllocError) => return Err(Failure::Memory),
    }
    if count == 0 {
        return Ok(TakenBytes { from, bytes });
    }
    match space.read_at(from, &mut bytes) {
        Ok(()) => Ok(TakenBytes { from, bytes }),
        Err(DeviceFault) => Err(Failure::Device),
    }
}

// How many bytes a part takes of a file of such a length.
fn bytes_taken(len: u64, part: ValueRef<'_>) -> u64
    ensures { result ≡ bytes_taken len (value_shown part.entry) }
{
    let after = byte_after(part.start(), part.size()).min(u128::from(len)) as u64;
    after.saturating_sub(part.start() / 8)
}

// Whether a look shows the bytes of parts.
fn shows_bytes(look: Option<Look>) -> bool
    ensures { result ≡ shows_bytes look }
{
    match look {
        Some(look) => look.beside.bytes,
        None => false,
    }
}
