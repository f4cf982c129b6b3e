//! Lines of a shown value, indented below the value that it is a part of.

use std::alloc::{AllocError, Global};
use text_output::style::Beside;

/// Which column of a shown line comes next.
#[derive(Clone, Copy, PartialEq, Eq)]
enum Column {
    /// A digit of the place, or what comes after the last.
    Place,
    /// The second of the two columns for the bit.
    Bit,
    /// The blank before the size.
    BeforeSize,
    /// A digit of the size, or what comes after the last. The first may be a blank: then there is no size.
    Size { is_first: bool },
    /// One of so many blanks instead of a size.
    NoSize(u8),
    /// The second of the two columns for the bits of the size.
    SizeBit,
    /// One of so many columns of bytes.
    Bytes(u8),
    /// The blank before the name.
    Blank,
    Rest,
}

/// How many columns the bytes of a part have.
const BYTE_COLUMNS: u8 = 19;

/// Lines that are given a depth and, on the first of them, a name.
#[derive(Drop)]
pub struct Indented<'a> {
    lines: Vec<u8>,
    depth: usize,
    /// The name on the first line, with a blank before it. Empty after that line.
    name: &'a [u8],
    /// What the lines have between place and name.
    beside: Beside,
    column: Column,
}

impl<'a> Indented<'a> {
    /// No lines yet.
    pub fn new(alloc: Global, depth: usize, name: &'a [u8], beside: Beside) -> Indented<'a> {
        Indented {
            lines: Vec::new(alloc),
            depth,
            name,
            beside,
            column: Column::Place,
        }
    }

    /// Indents the lines of a value that is shown by itself.
    pub fn indent(self, shown: &[u8]) -> Result<Vec<u8>, AllocError> {
        let mut indented = self;
        for byte in shown {
            indented.add(*byte)?;
        }
        Ok(indented.lines)
    }

    fn add(&mut self, byte: u8) -> Result<(), AllocError> {
        self.lines.push(byte)?;
        match self.column {
            Column::Place if byte == b' ' || byte == b'.' => self.column = Column::Bit,
            Column::Place => {}
            Column::Bit => self.end_place()?,
            Column::BeforeSize => self.column = Column::Size { is_first: true },
            Column::Size { is_first: true } if byte == b' ' => self.column = Column::NoSize(9),
            Column::Size { .. } if byte == b' ' || byte == b'.' => self.column = Column::SizeBit,
            Column::Size { .. } => self.column = Column::Size { is_first: false },
            Column::NoSize(left) if 1 < left => self.column = Column::NoSize(left - 1),
            Column::NoSize(_) | Column::SizeBit => self.end_size()?,
            Column::Bytes(left) if 1 < left => self.column = Column::Bytes(left - 1),
            Column::Bytes(_) => self.end_bytes()?,
            Column::Blank => {
                self.lines.extend_from_slice(self.name)?;
                self.name = b"";
                self.column = Column::Rest;
            }
            Column::Rest if byte == b'\n' => self.column = Column::Place,
            Column::Rest => {}
        }
        Ok(())
    }

    /// Goes on after the place.
    fn end_place(&mut self) -> Result<(), AllocError> {
        if self.beside.sizes {
            self.column = Column::BeforeSize;
            return Ok(());
        }
        self.end_size()
    }

    /// Goes on after the size, or where it would be.
    fn end_size(&mut self) -> Result<(), AllocError> {
        if self.beside.bytes {
            self.column = Column::Bytes(BYTE_COLUMNS);
            return Ok(());
        }
        self.end_bytes()
    }

    /// Goes on after the bytes, or where they would be.
    fn end_bytes(&mut self) -> Result<(), AllocError> {
        for _ in 0..self.depth {
            self.lines.extend_from_slice(b"  ")?;
        }
        self.column = Column::Blank;
        Ok(())
    }
}

/// The place of a bit as a line begins with it: at least eight hexadecimal digits for the byte, and two columns for the
/// bit in it.
pub fn digits_of(alloc: Global, bit: u128) -> Result<Vec<u8>, AllocError> {
    let byte = bit >> 3;
    let digits = format!(in alloc; "{byte:08x}")?;
    let mut place = Vec::from_slice(alloc, digits.as_bytes())?;
    match bit & 7 {
        0 => place.extend_from_slice(b"  ")?,
        within => place.extend_from_slice(&[b'.', b'0' + within as u8])?,
    }
    Ok(place)
}
