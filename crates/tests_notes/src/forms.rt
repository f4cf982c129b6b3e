//! Rows of times and addresses. Before the arrow is the scale and the number, or the bytes; after it the text.

use named_text::{Scale, Text, guid_text, ipv4_text, ipv6_text, mac_text, time_text, uuid_text};
use std::test::Fail;
use tests_kit::rows::same_bytes;

/// Limits of the calendar: before 1970, leap days, the ends of years and of the range.
static TIMES: [(Scale, i64, &str); 25] = [
    (Scale::Seconds, 0, "1970-01-01T00:00:00Z"),
    (Scale::Seconds, 1_700_000_000, "2023-11-14T22:13:20Z"),
    (Scale::Seconds, -1, "1969-12-31T23:59:59Z"),
    (Scale::Seconds, -86_401, "1969-12-30T23:59:59Z"),
    (Scale::Seconds, 951_782_400, "2000-02-29T00:00:00Z"),
    (Scale::Seconds, 951_868_799, "2000-02-29T23:59:59Z"),
    (Scale::Seconds, 951_868_800, "2000-03-01T00:00:00Z"),
    (Scale::Seconds, 1_709_164_800, "2024-02-29T00:00:00Z"),
    (Scale::Seconds, -2_203_977_600, "1900-02-28T00:00:00Z"),
    (Scale::Seconds, -2_203_891_200, "1900-03-01T00:00:00Z"),
    (Scale::Seconds, 4_294_967_295, "2106-02-07T06:28:15Z"),
    (Scale::Seconds, 253_402_300_799, "9999-12-31T23:59:59Z"),
    (Scale::Seconds, 253_402_300_800, "253402300800"),
    (Scale::Seconds, -62_167_219_200, "0000-01-01T00:00:00Z"),
    (Scale::Seconds, -62_167_219_201, "-62167219201"),
    (Scale::Seconds, -377_705_116_801, "-377705116801"),
    (
        Scale::Seconds,
        -9_223_372_036_854_775_808,
        "-9223372036854775808",
    ),
    (
        Scale::Milliseconds,
        1_700_000_000_007,
        "2023-11-14T22:13:20.007Z",
    ),
    (Scale::Milliseconds, -1, "1969-12-31T23:59:59.999Z"),
    (
        Scale::Microseconds,
        1_700_000_000_123_456,
        "2023-11-14T22:13:20.123456Z",
    ),
    (Scale::Microseconds, -1, "1969-12-31T23:59:59.999999Z"),
    (Scale::FileTime, 0, "1601-01-01T00:00:00.0000000Z"),
    (
        Scale::FileTime,
        116_444_736_000_000_001,
        "1970-01-01T00:00:00.0000001Z",
    ),
    (Scale::FileTime, -1, "1600-12-31T23:59:59.9999999Z"),
    (
        Scale::FileTime,
        2_650_467_744_000_000_000,
        "2650467744000000000",
    ),
];

#[test]
fn times_as_text() -> Result<(), Fail> {
    for (scale, number, told) in TIMES.as_slice() {
        same(time_text(*scale, i128::from(*number)), told)?;
    }
    same(
        time_text(Scale::Seconds, i128::from(u64::MAX)),
        "18446744073709551615",
    )
}

fn same(found: Text, told: &str) -> Result<(), Fail> {
    same_bytes(found.as_slice(), told.as_bytes(), told)
}

#[test]
fn addresses_as_text() -> Result<(), Fail> {
    same(ipv4_text(&[127, 0, 0, 1]), "127.0.0.1")?;
    same(ipv4_text(&[255, 10, 99, 100]), "255.10.99.100")?;
    same(
        mac_text(&[0, 0x1b, 0x21, 0x3c, 0x9d, 0xf8]),
        "00:1b:21:3c:9d:f8",
    )?;
    let bytes = [
        0xc1, 0x2a, 0x73, 0x28, 0xf8, 0x1f, 0x11, 0xd2, 0xba, 0x4b, 0x00, 0xa0, 0xc9, 0x3e, 0xc9,
        0x3b,
    ];
    same(uuid_text(&bytes), "c12a7328-f81f-11d2-ba4b-00a0c93ec93b")?;
    let bytes = [
        0x28, 0x73, 0x2a, 0xc1, 0x1f, 0xf8, 0xd2, 0x11, 0xba, 0x4b, 0x00, 0xa0, 0xc9, 0x3e, 0xc9,
        0x3b,
    ];
    same(guid_text(&bytes), "c12a7328-f81f-11d2-ba4b-00a0c93ec93b")
}

/// Addresses of RFC 5952, by their groups.
const ADDRESSES: [([u16; 8], &str); 12] = [
    ([0x2001, 0xdb8, 0, 0, 0, 0, 2, 1], "2001:db8::2:1"),
    ([0x2001, 0xdb8, 0, 1, 1, 1, 1, 1], "2001:db8:0:1:1:1:1:1"),
    ([0x2001, 0, 0, 1, 0, 0, 0, 1], "2001:0:0:1::1"),
    ([0x2001, 0xdb8, 0, 0, 1, 0, 0, 1], "2001:db8::1:0:0:1"),
    (
        [0x2001, 0xdb8, 0, 0, 0, 0, 0xabcd, 0xef01],
        "2001:db8::abcd:ef01",
    ),
    ([0, 0, 0, 0, 0, 0, 0, 0], "::"),
    ([0, 0, 0, 0, 0, 0, 0, 1], "::1"),
    ([1, 0, 0, 0, 0, 0, 0, 0], "1::"),
    ([0, 0, 1, 0, 0, 0, 0, 0], "0:0:1::"),
    ([0, 0, 1, 2, 3, 4, 0, 0], "::1:2:3:4:0:0"),
    (
        [0xfe80, 0, 0, 0, 0x10, 0x200, 0x3000, 0xf],
        "fe80::10:200:3000:f",
    ),
    (
        [
            0xffff, 0xffff, 0xffff, 0xffff, 0xffff, 0xffff, 0xffff, 0xffff,
        ],
        "ffff:ffff:ffff:ffff:ffff:ffff:ffff:ffff",
    ),
];

#[test]
fn ipv6_addresses_as_text() -> Result<(), Fail> {
    for (groups, told) in ADDRESSES {
        let mut bytes = [0; 16];
        for (place, group) in groups.iter().enumerate() {
            bytes[2 * place] = (*group >> 8) as u8;
            bytes[2 * place + 1] = (*group & 0xff) as u8;
        }
        same(ipv6_text(&bytes), told)?;
    }
    Ok(())
}
