//! A file that exists, a file that is cut short, and paths that name no file.

use crate::reading::{big, little, reads};
use bit_space::{BitFault, FileSpace, Meter, OpenFault, Space};
use std::test::Fail;
use std::{fs, process};
use tests_kit::rows::same;

#[test]
fn files(rt: HostRuntime) -> Result<(), Fail> {
    let id = process::id(rt.process());
    let path = format!(in rt.alloc(); "/tmp/tests_space-{id}")?;
    let path = path.as_str();
    fs::write(&rt, path, [1u8, 2, 3].as_slice())?;
    let mut meter = Meter::new(100);
    let mut space = FileSpace::open(&rt, path).ok().ok_or("open")?;
    same(space.len(), 3, "bytes")?;
    reads(&rt, &mut space, &mut meter, big(0, 24), Ok(0x010203));
    reads(&rt, &mut space, &mut meter, little(4, 12), Ok(0x210));
    reads(&rt, &mut space, &mut meter, big(8, 24), Err(BitFault::End));
    // It is the same file, cut to one byte.
    fs::write(&rt, path, [1u8].as_slice())?;
    same(space.len(), 3, "bytes after the cut")?;
    same(space.failures(), 0, "failures")?;
    reads(
        &rt,
        &mut space,
        &mut meter,
        big(0, 16),
        Err(BitFault::Device),
    );
    same(space.failures(), 1, "failures after a read past the cut")?;
    reads(&rt, &mut space, &mut meter, big(0, 8), Ok(1));
    same(space.failures(), 1, "failures after a read before the cut")?;
    same(meter.steps(), 5, "steps")?;
    fs::remove_file(&rt, path)?;
    for other in [path, "/", "/dev/zero"] {
        let fault = FileSpace::open(&rt, other).err();
        same(fault, Some(OpenFault::NotOpened), other)?;
    }
    Ok(())
}
