//! Values that were computed elsewhere, refusals, and one read for a number.

use crate::reading::{big, little, memory, numbered, reads};
use bit_space::{BitFault, Meter, Order, Space, read_number};
use std::test::Fail;
use tests_kit::devices::{Failing, Shifting};
use tests_kit::rows::same;

/// Bit position, width, and the big-endian and the little-endian number, worked out from the groups.
const NUMBERS: [(u64, u8, u64, u64); 44] = [
    (0, 1, 0x0, 0x0),
    (3, 1, 0x1, 0x1),
    (5, 1, 0x0, 0x0),
    (0, 3, 0x0, 0x0),
    (1, 3, 0x1, 0x1),
    (4, 3, 0x1, 0x1),
    (2, 4, 0x4, 0x4),
    (3, 4, 0x9, 0x9),
    (5, 4, 0x4, 0x4),
    (3, 7, 0x48, 0x48),
    (6, 7, 0x46, 0x46),
    (1, 8, 0x24, 0x24),
    (4, 8, 0x23, 0x23),
    (7, 8, 0x1a, 0x1a),
    (8, 8, 0x34, 0x34),
    (0, 9, 0x24, 0x12),
    (4, 9, 0x46, 0x23),
    (5, 9, 0x8d, 0x146),
    (1, 12, 0x246, 0x624),
    (6, 12, 0x8d1, 0x18d),
    (7, 12, 0x1a2, 0x21a),
    (2, 15, 0x2468, 0x6848),
    (7, 15, 0xd15, 0x151a),
    (0, 16, 0x1234, 0x3412),
    (3, 16, 0x91a2, 0xa291),
    (5, 16, 0x468a, 0x8a46),
    (0, 17, 0x2468, 0x3412),
    (1, 17, 0x48d1, 0x16824),
    (4, 17, 0x468a, 0x4523),
    (2, 24, 0x48d159, 0x59d148),
    (3, 24, 0x91a2b3, 0xb3a291),
    (5, 24, 0x468acf, 0xcf8a46),
    (3, 31, 0x48d159e2, 0x62b3a291),
    (6, 31, 0x468acf13, 0x139e158d),
    (1, 33, 0x48d159e2, 0xf1ac6824),
    (4, 33, 0x468acf13, 0x189674523),
    (7, 33, 0x3456789a, 0x4d3c2b1a),
    (0, 40, 0x123456789a, 0x9a78563412),
    (4, 40, 0x23456789ab, 0xab89674523),
    (5, 40, 0x468acf1357, 0x5713cf8a46),
    (6, 63, 0x468acf13579bde0b, 0xbbc37af269e158d),
    (7, 63, 0xd159e26af37bc16, 0x16786f5e4d3c2b1a),
    (2, 64, 0x48d159e26af37bc1, 0xc17bf36ae259d148),
    (7, 64, 0x1a2b3c4d5e6f782d, 0x2d786f5e4d3c2b1a),
];

#[test]
fn numbers_at_any_bit(rt: HostRuntime) -> Result<(), Fail> {
    let bytes = [
        0x12, 0x34, 0x56, 0x78, 0x9a, 0xbc, 0xde, 0xf0, 0x5a, 0xc3, 0x0f, 0xe1, 0x2d, 0x96, 0x4b,
        0x87,
    ];
    let mut space = memory(rt.alloc(), &bytes).ok_or("memory")?;
    let mut meter = Meter::new(88);
    for (pos, width, as_big, as_little) in NUMBERS {
        reads(&rt, &mut space, &mut meter, big(pos, width), Ok(as_big));
        reads(
            &rt,
            &mut space,
            &mut meter,
            little(pos, width),
            Ok(as_little),
        );
    }
    same(meter.steps(), 88, "steps")
}

#[test]
fn numbers_worked_by_hand(rt: HostRuntime) -> Result<(), Fail> {
    let mut meter = Meter::new(6);
    let mut space = memory(rt.alloc(), &[0x34, 0x12]).ok_or("memory")?;
    reads(&rt, &mut space, &mut meter, big(0, 12), Ok(833));
    reads(&rt, &mut space, &mut meter, little(0, 12), Ok(308));
    let mut space = memory(rt.alloc(), &[0x12, 0x34]).ok_or("memory")?;
    reads(&rt, &mut space, &mut meter, little(0, 16), Ok(13330));
    reads(&rt, &mut space, &mut meter, big(0, 16), Ok(4660));
    let bytes = [0x01, 0x23, 0x45, 0x67, 0x89, 0xab, 0xcd, 0xef, 0x01];
    let mut space = memory(rt.alloc(), &bytes).ok_or("memory")?;
    let wanted = Ok(1_311_768_467_463_790_320);
    reads(&rt, &mut space, &mut meter, big(4, 64), wanted);
    Ok(())
}

/// Bit position and width, why no number is read, and the steps that are then taken.
const REFUSED: [(u64, u8, BitFault, u64); 4] = [
    (1, 16, BitFault::End, 2),
    (u64::MAX, 64, BitFault::End, 3),
    (0, 16, BitFault::Limit, 3),
    (u64::MAX, 64, BitFault::Limit, 3),
];

#[test]
fn refuses_in_order(rt: HostRuntime) -> Result<(), Fail> {
    let mut space = memory(rt.alloc(), &[0xff, 0xfe]).ok_or("memory")?;
    let mut meter = Meter::new(3);
    reads(&rt, &mut space, &mut meter, big(0, 16), Ok(0xfffe));
    for (pos, width, fault, steps) in REFUSED {
        reads(&rt, &mut space, &mut meter, big(pos, width), Err(fault));
        same(meter.steps(), steps, "steps")?;
    }
    let mut empty = memory(rt.alloc(), &[]).ok_or("memory")?;
    same(empty.len(), 0, "bytes of an empty space")?;
    let mut meter = Meter::new(1);
    reads(
        &rt,
        &mut empty,
        &mut meter,
        little(0, 1),
        Err(BitFault::End),
    );
    Ok(())
}

#[test]
fn counts_to_its_limit(rt: HostRuntime) -> Result<(), Fail> {
    let mut meter = Meter::new(1);
    assert!(rt; meter.tick().is_ok());
    assert!(rt; meter.made() < meter.steps());
    meter.note_made();
    for row in ["after a tick", "after another"] {
        same(meter.steps(), 1, row)?;
        same(meter.made(), 1, row)?;
        same(meter.limit(), 1, row)?;
        assert!(rt; meter.tick().is_err());
    }
    Ok(())
}

#[test]
fn reads_once(rt: HostRuntime) -> Result<(), Fail> {
    let mut meter = Meter::new(100);
    let mut space = Shifting {
        len: 16,
        reads: 0,
        failing: 0,
        failures: 0,
    };
    reads(
        &rt,
        &mut space,
        &mut meter,
        big(4, 64),
        Ok(0x1010_1010_1010_1010),
    );
    reads(
        &rt,
        &mut space,
        &mut meter,
        big(4, 64),
        Ok(0x2020_2020_2020_2020),
    );
    let mut space = Failing::new(&[1, 2, 3], 0)?;
    reads(&rt, &mut space, &mut meter, little(3, 17), Ok(0x1008));
    same(space.reads, 1, "reads")?;
    reads(
        &rt,
        &mut space,
        &mut meter,
        little(9, 16),
        Err(BitFault::End),
    );
    same(space.reads, 1, "reads, one of them past the end")
}

#[test]
fn fails_at_one_read(rt: HostRuntime) -> Result<(), Fail> {
    let bytes = numbered(rt.alloc(), 9000).ok_or("memory")?;
    for failing in 1..=4u64 {
        let mut meter = Meter::new(1000);
        let mut space = Failing::new(&bytes, failing)?;
        for read in 1..=5u64 {
            let number = read_number(&mut space, 4088 * 8, 64, Order::Big, &mut meter);
            let row = format!(in rt.alloc(); "read {read}, where read {failing} fails")?;
            same(number.is_err(), read == failing, row.as_str())?;
            same(space.failures, u64::from(read >= failing), row.as_str())?;
            same(meter.steps(), read, row.as_str())?;
        }
    }
    Ok(())
}
