//! The examples of the libraries' module documents.

use named_text::{Scale, ipv4_text, time_text};
use std::test::Fail;
use value_notes::{Note, read_note};

#[test]
fn names_a_number(rt: HostRuntime) -> Result<(), Fail> {
    let text = b"3 \"x86\", 0x3e \"x86-64\", 0xfe00..0xfeff \"processor\"";
    if let Note::Values(names) = read_note(rt.alloc(), text)? {
        assert_eq!(rt; names.name_of(62), Some(b"x86-64".as_slice()));
    }
    Ok(())
}

#[test]
fn shows_a_time(rt: HostRuntime) {
    assert_eq!(rt;
        time_text(Scale::Seconds, 1_700_000_000).as_slice(),
        b"2023-11-14T22:13:20Z".as_slice()
    );
    assert_eq!(rt;
        ipv4_text(&[127, 0, 0, 1]).as_slice(),
        b"127.0.0.1".as_slice()
    );
}
