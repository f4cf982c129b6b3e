//! Pickles are read to their end, and no further.

use poke_batch::{PickleFault, read_pickle};
use std::test::Fail;
use tests_kit::rows::{same, same_bytes};
use tests_kit::streams::{Blanks, OneByOne};

#[test]
fn reads_byte_by_byte_up_to_an_error(rt: HostRuntime) -> Result<(), Fail> {
    let mut reader = OneByOne {
        bytes: b"abc",
        reads: 0,
        failing: 0,
    };
    let pickle = read_pickle(rt.alloc(), &mut reader)?;
    same_bytes(&pickle, b"abc", "all bytes")?;
    reader = OneByOne {
        bytes: b"abc",
        reads: 0,
        failing: 2,
    };
    let fault = read_pickle(rt.alloc(), &mut reader).err();
    same(fault, Some(PickleFault::Read), "the second read")?;
    same(reader.reads, 2, "reads")
}

#[test]
fn reads_one_byte_too_many(rt: HostRuntime) -> Result<(), Fail> {
    let blanks = vec![in rt.alloc(); b' '; 1_048_577]?;
    for (given, read) in [
        (Some(0), 0),
        (Some(8192), 8192),
        (Some(1_048_576), 1_048_576),
        (Some(1_048_577), 1_048_577),
        (Some(1_048_578), 1_048_577),
        (None, 1_048_577),
    ] {
        let mut reader = Blanks { left: given };
        let pickle = read_pickle(rt.alloc(), &mut reader)?;
        assert!(rt; Some(pickle.as_slice()) == blanks.get(..read));
    }
    Ok(())
}
