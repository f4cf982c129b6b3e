//! Spaces that are cut at a length, their failures, and where windows end.

use crate::counted::{Counted, Counts};
use crate::reading::{big, little, memory, numbered, reads};
use bit_space::{BitFault, Meter, Paged, Space};
use spool::{Window, window_end};
use std::test::Fail;
use tests_kit::devices::{Failing, Shifting};
use tests_kit::rows::{same, same_bytes};

#[test]
fn a_window_has_the_first_bytes(rt: HostRuntime) -> Result<(), Fail> {
    let bytes = memory(rt.alloc(), &[0x12, 0x34, 0x56, 0x78]).ok_or("memory")?;
    let mut window = Window::new(bytes, 3);
    let mut found = [0; 2];
    same(window.len(), 3, "bytes")?;
    assert!(rt; window.read_at(1, &mut found).is_ok());
    same_bytes(&found, &[0x34, 0x56], "the last two bytes")?;
    assert!(rt; window.read_at(3, &mut []).is_ok());
    Ok(())
}

#[test]
fn a_number_past_the_cut_is_past_the_end(rt: HostRuntime) -> Result<(), Fail> {
    let bytes = memory(rt.alloc(), &[0x12, 0x34, 0x56, 0x78]).ok_or("memory")?;
    let mut window = Window::new(bytes, 3);
    let mut meter = Meter::new(10);
    reads(&rt, &mut window, &mut meter, big(4, 16), Ok(0x2345));
    reads(&rt, &mut window, &mut meter, little(8, 16), Ok(0x5634));
    reads(
        &rt,
        &mut window,
        &mut meter,
        big(12, 16),
        Err(BitFault::End),
    );
    Ok(())
}

/// A cut at the end of a space or past it.
#[test]
fn a_long_window_is_the_space(rt: HostRuntime) -> Result<(), Fail> {
    for end in [4, 5, u64::MAX] {
        let bytes = memory(rt.alloc(), &[0x12, 0x34, 0x56, 0x78]).ok_or("memory")?;
        let mut window = Window::new(bytes, end);
        let mut meter = Meter::new(1);
        same(window.len(), 4, "bytes")?;
        reads(&rt, &mut window, &mut meter, big(0, 32), Ok(0x1234_5678));
    }
    Ok(())
}

#[test]
fn an_empty_window(rt: HostRuntime) -> Result<(), Fail> {
    let bytes = memory(rt.alloc(), &[0x12]).ok_or("memory")?;
    let mut window = Window::new(bytes, 0);
    let mut meter = Meter::new(1);
    same(window.len(), 0, "bytes")?;
    reads(&rt, &mut window, &mut meter, big(0, 1), Err(BitFault::End));
    Ok(())
}

/// The read of the space below that fails is the one that fails in the window, and the next one gives its bytes.
#[test]
fn failures_in_a_window(rt: HostRuntime) -> Result<(), Fail> {
    let bytes = numbered(rt.alloc(), 100).ok_or("memory")?;
    let mut window = Window::new(Failing::new(&bytes, 2)?, 50);
    let mut meter = Meter::new(10);
    reads(&rt, &mut window, &mut meter, big(80, 24), Ok(0x0a_0b0c));
    reads(
        &rt,
        &mut window,
        &mut meter,
        big(160, 24),
        Err(BitFault::Device),
    );
    reads(&rt, &mut window, &mut meter, big(160, 24), Ok(0x14_1516));
    Ok(())
}

/// A page that reaches past the cut is read up to the cut.
#[test]
fn pages_of_a_window_end_at_the_cut(rt: HostRuntime) -> Result<(), Fail> {
    let counts = Counts::new();
    let space = Shifting {
        len: 1 << 40,
        reads: 0,
        failing: 0,
        failures: 0,
    };
    let counted = Counted {
        inner: space,
        counts: &counts,
    };
    let mut paged = Paged::new(rt.alloc(), Window::new(counted, 5000))?;
    let mut meter = Meter::new(10);
    same(paged.len(), 5000, "bytes")?;
    reads(&rt, &mut paged, &mut meter, big(8 * 4999, 8), Ok(1));
    reads(&rt, &mut paged, &mut meter, big(8 * 4096, 8), Ok(1));
    reads(
        &rt,
        &mut paged,
        &mut meter,
        big(8 * 5000, 8),
        Err(BitFault::End),
    );
    same(counts.reads.get(), 1, "reads")
}

/// The bit at which a window begins, its bytes, those of the space, and where it ends.
const ENDS: [(u64, Option<u64>, u64, u64); 10] = [
    (0, None, 100, 100),
    (400, None, 100, 100),
    (0, Some(10), 100, 10),
    (7, Some(10), 100, 10),
    (8, Some(10), 100, 11),
    (400, Some(50), 100, 100),
    (400, Some(51), 100, 100),
    (800, Some(0), 100, 100),
    (u64::MAX, Some(u64::MAX), (1 << 60) - 1, (1 << 60) - 1),
    (0, Some(5), 0, 0),
];

#[test]
fn ends_of_windows(rt: HostRuntime) -> Result<(), Fail> {
    for (start, count, len, end) in ENDS {
        let row = format!(in rt.alloc(); "{count:?} bytes from bit {start} on, of {len}")?;
        same(window_end(start, count, len), end, row.as_str())?;
    }
    Ok(())
}
