//! The bytes and the reads of pages, allocation failures, and reads that fail.

use crate::counted::{Counted, Counts};
use crate::reading::{big, memory, numbered, reads, reads_numbered};
use bit_space::{BitFault, MemSpace, Meter, Paged, Space};
use std::alloc::Global;
use std::test::Fail;
use tests_kit::devices::Failing;
use tests_kit::rows::same;

/// Pages over bytes, one read of which fails, counted from 1.
fn pages<'a>(
    alloc: Global,
    bytes: &'a [u8],
    failing: u64,
    counts: &'a Counts,
) -> Result<Paged<Counted<'a, Failing<'a>>>, Fail> {
    let inner = Failing::new(bytes, failing)?;
    Ok(Paged::new(alloc, Counted { inner, counts })?)
}

#[test]
fn pages_give_the_bytes(rt: HostRuntime) -> Result<(), Fail> {
    let mut bytes = vec![in rt.alloc(); 0u8; 4095]?;
    bytes.push(0x12)?;
    bytes.push(0x34)?;
    let mut paged = Paged::new(rt.alloc(), MemSpace::new(bytes)?)?;
    same(paged.len(), 4097, "bytes")?;
    let mut meter = Meter::new(1);
    reads(&rt, &mut paged, &mut meter, big(32760, 16), Ok(4660));
    same(meter.steps(), 1, "steps")
}

#[test]
fn pages_are_kept(rt: HostRuntime) -> Result<(), Fail> {
    let bytes = numbered(rt.alloc(), 8192).ok_or("memory")?;
    let mut meter = Meter::new(8192);
    let counts = Counts::new();
    let mut paged = pages(rt.alloc(), &bytes, 0, &counts)?;
    for at in 0..8192 {
        reads_numbered(&rt, &mut paged, &mut meter, at);
    }
    same(counts.reads.get(), 2, "reads")
}

/// Pages that are read one after another, and the reads of the space below up to then.
const SEVENTEEN: [(u32, u32, u64); 5] = [
    (0, 16, 16),
    (0, 1, 16),
    (16, 17, 17),
    (0, 1, 17),
    (1, 2, 18),
];

#[test]
fn sixteen_pages_are_kept(rt: HostRuntime) -> Result<(), Fail> {
    let bytes = numbered(rt.alloc(), 17 * 4096).ok_or("memory")?;
    let mut meter = Meter::new(20);
    let counts = Counts::new();
    let mut paged = pages(rt.alloc(), &bytes, 0, &counts)?;
    for (first, end, reads) in SEVENTEEN {
        for page in first..end {
            reads_numbered(&rt, &mut paged, &mut meter, 4096 * page);
        }
        same(counts.reads.get(), reads, "reads")?;
    }
    Ok(())
}

#[test]
fn pages_across(rt: HostRuntime) -> Result<(), Fail> {
    let bytes = numbered(rt.alloc(), 10_000).ok_or("memory")?;
    let mut paged = Paged::new(rt.alloc(), memory(rt.alloc(), &bytes).ok_or("memory")?)?;
    let mut found = vec![in rt.alloc(); 0u8; 9000]?;
    same(paged.len(), 10_000, "bytes")?;
    assert!(rt; paged.read_at(900, found.as_mut_slice()).is_ok());
    assert!(rt; Some(found.as_slice()) == bytes.as_slice().get(900..9900));
    assert!(rt; paged.read_at(10_000, &mut []).is_ok());
    Ok(())
}

#[test]
fn memory_gives_its_bytes(rt: HostRuntime) -> Result<(), Fail> {
    let bytes = numbered(rt.alloc(), 10_000).ok_or("memory")?;
    let mut plain = memory(rt.alloc(), &bytes).ok_or("memory")?;
    let mut found = vec![in rt.alloc(); 0u8; 9000]?;
    same(plain.len(), 10_000, "bytes")?;
    assert!(rt; plain.read_at(900, found.as_mut_slice()).is_ok());
    assert!(rt; Some(found.as_slice()) == bytes.as_slice().get(900..9900));
    Ok(())
}

/// The numbers are the same where an allocation fails meanwhile.
#[test]
fn pages_without_memory(rt: HostRuntime) -> Result<(), Fail> {
    let Some(bytes) = numbered(rt.alloc(), 9000) else {
        return Ok(());
    };
    let counts = Counts::new();
    let inner = Failing::new(&bytes, 0)?;
    let space = Counted {
        inner,
        counts: &counts,
    };
    let Ok(mut paged) = Paged::new(rt.alloc(), space) else {
        return Ok(());
    };
    let mut meter = Meter::new(100_000);
    for at in [0, 1, 4095, 4096, 8999, 0, 8191, 8192] {
        reads_numbered(&rt, &mut paged, &mut meter, at);
    }
    assert!(rt; counts.reads.get() <= 4);
    Ok(())
}

#[test]
fn failures_under_pages(rt: HostRuntime) -> Result<(), Fail> {
    let bytes = numbered(rt.alloc(), 9000).ok_or("memory")?;
    for failing in 1..=3 {
        let mut meter = Meter::new(1000);
        let counts = Counts::new();
        let mut paged = pages(rt.alloc(), &bytes, u64::from(failing), &counts)?;
        for read in 1..=3 {
            let at: u32 = 4100 * (read - 1);
            if read == failing {
                let bits = big(8 * u64::from(at), 8);
                reads(&rt, &mut paged, &mut meter, bits, Err(BitFault::Device));
                same(counts.failures.get(), 1, "failures at the read that fails")?;
            }
            reads_numbered(&rt, &mut paged, &mut meter, at);
        }
        same(meter.steps(), 4, "steps")?;
        same(counts.failures.get(), 1, "failures")?;
    }
    Ok(())
}
