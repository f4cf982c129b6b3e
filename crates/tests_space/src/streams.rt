//! Streams that are read into memory, and no further than they may be.

use bit_space::Space;
use spool::{Source, StreamFault, read_stream};
use std::test::Fail;
use tests_kit::rows::{same, same_bytes};
use tests_kit::streams::{Blanks, OneByOne};

#[test]
fn reads_byte_by_byte_up_to_an_error(rt: HostRuntime) -> Result<(), Fail> {
    let mut reader = OneByOne {
        bytes: b"abc",
        reads: 0,
        failing: 0,
    };
    let mut source = Source::Memory(read_stream(rt.alloc(), &mut reader, 3)?);
    same(source.len(), 3, "bytes")?;
    let mut read = [0; 2];
    source.read_at(1, &mut read)?;
    same_bytes(&read, b"bc", "the last two bytes")?;
    reader = OneByOne {
        bytes: b"abc",
        reads: 0,
        failing: 2,
    };
    assert!(rt; read_stream(rt.alloc(), &mut reader, 3).err() == Some(StreamFault::Device));
    same(reader.reads, 2, "reads")
}

#[test]
fn reads_one_byte_more_than_it_may(rt: HostRuntime) -> Result<(), Fail> {
    let too_long = Err(StreamFault::TooLong);
    for (given, most, read) in [
        (Some(0), 0, Ok(0)),
        (Some(1), 0, too_long),
        (Some(8191), 8192, Ok(8191)),
        (Some(8192), 8192, Ok(8192)),
        (Some(8193), 8192, too_long),
        (None, 20_000, too_long),
        (Some(5), u64::MAX, Ok(5)),
    ] {
        let mut reader = Blanks { left: given };
        let space = read_stream(rt.alloc(), &mut reader, most);
        assert!(rt; space.map(|space| space.len()) == read);
    }
    Ok(())
}

#[test]
fn a_long_stream_is_left_after_one_byte_more(rt: HostRuntime) -> Result<(), Fail> {
    let mut reader = Blanks { left: Some(9000) };
    assert!(rt; read_stream(rt.alloc(), &mut reader, 8500).err() == Some(StreamFault::TooLong));
    assert!(rt; reader.left == Some(499));
    Ok(())
}
