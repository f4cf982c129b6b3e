//! The parts that a mapping had met when it stopped, shown to the eye.

ghost use Rattle.bit_space.specs.SpaceView.{Keeps};

use crate::cause::{Cause, Fault};
use crate::indent::{Indented, digits_of};
use crate::way::{Joint, WayStep, part_of, say_element};
use bit_space::Space;
use pickle_map::mapper::stop::Stop;
use pickle_map::{Store, ValueRef};
use pickle_source::text::Text;
use pickle_types::view::Shape;
use poke_batch::style::Look;
use poke_batch::type_run::TypeRun;
use std::alloc::{AllocError, Global};
use text_output::style::Beside;
use value_store::names::title;
use value_text::print::print_shown;
use value_text::print::show::{FileBytes, Sight, byte_after};
use value_text::typed::{Typed, Types};

/// What the lines are printed from: a mapping that stopped, whose store still has the frames around the part with the
/// fault.
#[derive(Clone, Copy)]
struct Stopped<'a> {
    alloc: Global,
    types: &'a Types<'a>,
    /// The node of the type that was mapped.
    root: usize,
    /// The bit where the mapping began.
    start: u64,
    store: &'a Store,
    fault: &'a Fault,
    look: Look,
}

/// The bytes of a file from one on up to another.
#[derive(Clone, Copy)]
struct Extent {
    from: u64,
    after: u128,
}

impl Extent {
    /// The bytes that a value takes, and those of an extent before it.
    fn with(before: Option<Extent>, value: ValueRef<'_>) -> Extent {
        let from = value.start() / 8;
        let after = byte_after(value.start(), value.size());
        match before {
            Some(extent) => Extent {
                from: extent.from.min(from),
                after: extent.after.max(after),
            },
            None => Extent { from, after },
        }
    }

    /// Reads the bytes of the file that are in the extent. `None` if a read fails.
    fn read<S: Space>(self, alloc: Global, space: &mut S) -> Result<Option<Vec<u8>>, AllocError>
        ensures keeps { Keeps (S.view space.old) (S.view space.new) }
    {
        let after = self.after.min(u128::from(space.len())) as u64;
        let mut bytes = Vec::new(alloc);
        if after <= self.from {
            return Ok(Some(bytes));
        }
        bytes.resize((after - self.from) as usize, 0)?;
        match space.read_at(self.from, &mut bytes) {
            Ok(()) => Ok(Some(bytes)),
            Err(_) => Ok(None),
        }
    }
}

/// A value that was unfinished when the mapping stopped.
#[derive(Clone, Copy)]
struct Frame {
    /// The node of its type.
    node: usize,
    /// How many of its parts were finished.
    count: usize,
    /// Its number among the frames of the store, counted from the innermost.
    level: usize,
}

/// The lines on what the mapping of a run had met before the part with its fault: a line for each value around that part,
/// which says that the value is unfinished, then the lines of the parts of that value that were finished. The last
/// line is that of the part with the fault. If the look has the bytes of parts, these are read from the space.
pub fn met_lines<S: Space>(
    run: &TypeRun<'_>,
    store: &Store,
    fault: &Fault,
    look: Look,
    space: &mut S,
) -> Result<Vec<u8>, AllocError>
    ensures keeps { Keeps (S.view space.old) (S.view space.new) }
{
    let types = Types::new(run.table);
    let stopped = Stopped {
        alloc: run.alloc,
        types: &types,
        root: run.id.node(),
        start: run.ask.start,
        store,
        fault,
        look,
    };
    let Some(extent) = stopped.extent() else {
        return stopped.say(None);
    };
    match extent.read(run.alloc, space)? {
        Some(bytes) => {
            let file = FileBytes {
                from: extent.from,
                bytes: bytes.as_slice(),
            };
            stopped.say(Some(file))
        }
        None => stopped.say(None),
    }
}

impl Stopped<'_> {
    /// The lines, with bytes of the file beside the parts if they are given.
    fn say(self, file: Option<FileBytes<'_>>) -> Result<Vec<u8>, AllocError> {
        let mut text = Text::new(self.alloc);
        for depth in 0..=self.fault.way.steps().len() {
            text = self.say_value(text, depth, file)?;
        }
        Ok(text.into_bytes())
    }

    /// The bytes of the file that the parts take which are shown, if the look has them.
    fn extent(self) -> Option<Extent> {
        if !self.look.beside.bytes {
            return None;
        }
        let mut extent = None;
        for depth in 0..=self.fault.way.steps().len() {
            if let Some(frame) = self.frame(depth) {
                extent = self.extent_with(extent, frame);
            }
        }
        extent
    }

    /// An extent, and the bytes that the shown parts of a frame take.
    fn extent_with(self, before: Option<Extent>, frame: Frame) -> Option<Extent> {
        let mut extent = before;
        for place in self.first_shown(frame)..frame.count {
            if let Some(stored) = self.store.part(frame.level, place) {
                let value = ValueRef::new(stored, self.types.nodes());
                extent = Some(Extent::with(extent, value));
            }
        }
        extent
    }

    /// Adds the lines of the value at a depth of the path to the part with the fault. At the last depth that is the
    /// part.
    fn say_value(
        self,
        text: Text,
        depth: usize,
        file: Option<FileBytes<'_>>,
    ) -> Result<Text, AllocError> {
        let text = say_margin(self.say_place(text, depth)?, self.look.beside, depth)?.say(b" ")?;
        let name = self.name_cell(depth)?;
        let Some(frame) = self.frame(depth) else {
            return text.say(name.as_slice())?.say(b" = ?\n");
        };
        let label = self.say_title(Text::new(self.alloc).say(name.as_slice())?, frame.node)?;
        let mark: &[u8] = if label.len() == 0 {
            b" unfinished\n"
        } else {
            b", unfinished\n"
        };
        let text = text.say(label.into_bytes().as_slice())?.say(mark)?;
        self.say_parts(text, frame, depth.saturating_add(1), file)
    }

    /// Adds the name of the type of a node to the text, if it has one.
    fn say_title(self, text: Text, node: usize) -> Result<Text, AllocError> {
        let name = match u32::try_from(node) {
            Ok(of) => title(self.types.nodes(), of),
            Err(_) => None,
        };
        match name {
            Some(name) => text.say(b" ")?.say(name),
            None => Ok(text),
        }
    }

    /// Adds the place of the value at a depth to the text, if it is known where that value starts.
    fn say_place(self, text: Text, depth: usize) -> Result<Text, AllocError> {
        let bit = match self.fault.stop {
            _ if depth == 0 => Some(u128::from(self.start)),
            Stop::Fault(_, at) if self.frame(depth).is_none() => Some(at),
            _ => None,
        };
        match bit {
            Some(bit) => text.say(digits_of(self.alloc, bit)?.as_slice()),
            None => text.say(b"          "),
        }
    }

    /// The name of the value at a depth, with a blank before it: empty for the whole value and a nameless part.
    fn name_cell(self, depth: usize) -> Result<Vec<u8>, AllocError> {
        match self.step_to(depth) {
            Some(step) => self.part_cell(step),
            None => Ok(Vec::new(self.alloc)),
        }
    }

    /// The name of the part to which a step leads, with a blank before it.
    fn part_cell(self, step: WayStep) -> Result<Vec<u8>, AllocError> {
        let text = Text::new(self.alloc);
        let text = match part_of(self.types.nodes(), step) {
            Some(part) => match part.joint {
                Joint::Element => say_element(text.say(b" ")?, step.place as u64)?,
                Joint::Named(name) => text.say(b" ")?.say(name)?,
                Joint::Nameless => text,
            },
            None => text,
        };
        Ok(text.into_bytes())
    }

    /// The step that leads to the value at a depth.
    fn step_to(self, depth: usize) -> Option<WayStep> {
        self.fault.way.steps().get(depth.checked_sub(1)?).copied()
    }

    /// The frame of the value at a depth, if it was unfinished.
    fn frame(self, depth: usize) -> Option<Frame> {
        let steps = self.fault.way.steps();
        let outgrown = matches!(self.fault.cause, Cause::Outgrown(_, _));
        let Some(step) = steps.get(depth) else {
            return if outgrown { self.outgrown(depth) } else { None };
        };
        let above = steps.len().saturating_sub(depth);
        Some(Frame {
            node: step.node,
            count: step.place,
            level: above
                .saturating_add(usize::from(outgrown))
                .saturating_sub(1),
        })
    }

    /// The frame of an array whose elements end after its size: all of them were finished.
    fn outgrown(self, depth: usize) -> Option<Frame> {
        let node = match self.step_to(depth) {
            Some(step) => part_of(self.types.nodes(), step)?.node,
            None => self.root,
        };
        Some(Frame {
            node,
            count: self.store.count(0),
            level: 0,
        })
    }

    /// Adds the lines of the finished parts of a frame to the text. Of an array's elements those are the last.
    fn say_parts(
        self,
        text: Text,
        frame: Frame,
        depth: usize,
        file: Option<FileBytes<'_>>,
    ) -> Result<Text, AllocError> {
        let mut text = text;
        let first = self.first_shown(frame);
        for place in first..frame.count {
            if place == first && 0 < first {
                text = say_margin(text.say(b"          ")?, self.look.beside, depth)?;
                text = text.say(b"  ..+")?.say_number(first)?.say(b"\n")?;
            }
            text = self.say_part(text, frame, place, depth, file)?;
        }
        Ok(text)
    }

    /// The place of the first part of a frame that is shown. A union has no finished alternative.
    fn first_shown(self, frame: Frame) -> usize {
        match self.types.nodes().get(frame.node) {
            Some(node) => match (&node.shape, self.look.elements) {
                (Shape::Union { .. }, _) => frame.count,
                (Shape::Array(_, _), Some(most)) => { frame.count.saturating_sub(most as usize) }
                _ => 0,
            },
            None => frame.count,
        }
    }

    /// Adds the lines of the part at a place of a frame to the text, if the value has that part.
    fn say_part(
        self,
        text: Text,
        frame: Frame,
        place: usize,
        depth: usize,
        file: Option<FileBytes<'_>>,
    ) -> Result<Text, AllocError> {
        let nodes = self.types.nodes();
        let step = WayStep {
            node: frame.node,
            place,
        };
        let (Some(part), Some(stored)) = (part_of(nodes, step), self.store.part(frame.level, place))
        else {
            return Ok(text);
        };
        let value = Typed::new(ValueRef::new(stored, nodes), self.types, Some(part.node));
        let mut shown = Vec::new(self.alloc);
        let sight = Sight {
            look: look_below(self.look, depth),
            file,
        };
        if print_shown(value, sight, &mut shown).is_err() {
            return Err(AllocError);
        }
        let name = self.part_cell(step)?;
        let lines = Indented::new(self.alloc, depth, name.as_slice(), self.look.beside).indent(
            shown.as_slice(),
        )?;
        text.say(lines.as_slice())
    }
}

/// The look of a part at a depth: of its own parts, those that are too deep in the whole value are left out.
fn look_below(look: Look, depth: usize) -> Look {
    let left = match look.depth {
        Some(most) => Some(most.saturating_sub(depth as u64)),
        None => None,
    };
    Look {
        depth: left,
        ..look
    }
}

/// Adds what a line that is no part has after its place to the text: blanks instead of a size and bytes if these are
/// shown, and two blanks for each of some values.
fn say_margin(text: Text, beside: Beside, depth: usize) -> Result<Text, AllocError> {
    let mut text = text;
    if beside.sizes {
        text = text.say(b"           ")?;
    }
    if beside.bytes {
        text = text.say(b"                   ")?;
    }
    for _ in 0..depth {
        text = text.say(b"  ")?;
    }
    Ok(text)
}
