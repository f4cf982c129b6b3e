//! Dumps of bytes.

use bit_space::MemSpace;
use poke_batch::{DumpFault, dump};
use std::alloc::Global;
use std::io;
use std::io::Write;
use std::test::Fail;
use tests_kit::devices::Shifting;
use tests_kit::rows::{holds, same, same_bytes};
use tests_kit::text::{bytes_of, hex_of};

const RULER: &str = "76543210  0011 2233 4455 6677 8899 aabb ccdd eeff  0123456789ABCDEF\n";

// A writer that accepts so many bytes, at most `step` at a time, and then returns errors, or only one if `once` is set.
#[derive(Drop)]
struct Limited {
    taken: Vec<u8>,
    room: usize,
    step: usize,
    once: bool,
}

impl Write for Limited {
    fn write(&mut self, buf: &[u8]) -> io::Result<usize> {
        if self.room == 0 {
            if self.once {
                self.room = usize::MAX;
            }
            return Err(io::Error::from(io::ErrorKind::Other));
        }
        let count = buf.len().min(self.room).min(self.step);
        self.taken.extend_from_slice(&buf[..count])?;
        self.room -= count;
        Ok(count)
    }

    fn flush(&mut self) -> io::Result<()> {
        Ok(())
    }
}

/// The first byte, the most bytes and the file's bytes in hexadecimal digits; then the lines.
const DUMPS: &str =
    r#"16 1 3031323334353637383961626364656667 ==> 00000010: 67                                       g`0a
0 16 3031323334353637383961626364656667 ==> 00000000: 3031 3233 3435 3637 3839 6162 6364 6566  0123456789abcdef`0a
17 128 3031323334353637383961626364656667 ==> 
18446744073709551615 18446744073709551615 3031323334353637383961626364656667 ==> 
0 128 48656c6c6f ==> 00000000: 4865 6c6c 6f                             Hello`0a"#;

fn expect(alloc: Global, line: &str) -> Result<(), Fail> {
    let (asked, told) = line.split_once(" ==>").ok_or("no arrow")?;
    let (from, rest) = asked.split_once(' ').ok_or("no size")?;
    let (size, digits) = rest.split_once(' ').ok_or("no bytes")?;
    let (from, size) = (from.parse::<u64>()?, size.parse::<u64>()?);
    let lines = bytes_of(alloc, told.trim_start())?;
    let mut space = MemSpace::new(hex_of(alloc, digits)?)?;
    let mut plain = Vec::new(alloc);
    dump(&mut space, from, size, false, &mut plain)?;
    same_bytes(&plain, &lines, line)?;
    let mut expected = RULER.as_bytes().to_vec(alloc)?;
    expected.extend_from_slice(&lines)?;
    let mut ruled = Vec::new(alloc);
    dump(&mut space, from, size, true, &mut ruled)?;
    same_bytes(&ruled, &expected, line)
}

#[test]
fn dumps(rt: HostRuntime) -> Result<(), Fail> {
    for line in DUMPS.lines() {
        expect(rt.alloc(), line)?;
    }
    Ok(())
}

#[test]
fn reads_each_line_once(rt: HostRuntime) -> Result<(), Fail> {
    let first = "00000000: 0101 0101 0101 0101 0101 0101 0101 0101  ................\n";
    let until_failure = format!(in rt.alloc(); "{RULER}{first}")?;
    for (row, failing, outcome, reads) in [
        ("no read fails", 0, Ok(()), 3),
        ("the second read fails", 2, Err(DumpFault::Device), 2),
    ] {
        let mut space = Shifting {
            len: 40,
            reads: 0,
            failing,
            failures: 0,
        };
        let mut text = Vec::new(rt.alloc());
        let result = dump(&mut space, 0, 128, true, &mut text);
        same(result, outcome, row)?;
        same(space.reads, reads, row)?;
        let is_cut = text.as_slice() == until_failure.as_bytes();
        same(is_cut, failing == 2, row)?;
    }
    Ok(())
}

#[test]
fn tells_places_above_4_gib(rt: HostRuntime) -> Result<(), Fail> {
    let mut space = Shifting {
        len: (1 << 32) + 1,
        reads: 0,
        failing: 0,
        failures: 0,
    };
    let mut text = Vec::new(rt.alloc());
    dump(&mut space, (1 << 32) - 16, 128, false, &mut text)?;
    let expected = "fffffff0: 0101 0101 0101 0101 0101 0101 0101 0101  ................\n\
100000000: 02                                       .\n";
    same_bytes(&text, expected.as_bytes(), "the last two lines")
}

#[test]
fn stops_where_the_writer_does(rt: HostRuntime) -> Result<(), Fail> {
    let alloc = rt.alloc();
    let line = "00000000: 4865 6c6c 6f                             Hello\n";
    let text = format!(in alloc; "{RULER}{line}")?;
    let mut space = MemSpace::new(hex_of(alloc, "48656c6c6f")?)?;
    for (step, once) in [(1, false), (7, false), (4096, false), (4096, true)] {
        for room in 0..=text.len() {
            let mut writer = Limited {
                taken: Vec::new(alloc),
                room,
                step,
                once,
            };
            let result = dump(&mut space, 0, 128, true, &mut writer);
            let whole = room == text.len();
            let wanted = if whole { Ok(()) } else { Err(DumpFault::Write) };
            same(result, wanted, line)?;
            holds(
                Some(writer.taken.as_slice()) == text.as_bytes().get(..room),
                line,
            )?;
        }
    }
    Ok(())
}
