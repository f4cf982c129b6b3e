//! The examples of the libraries' module documents.

use bit_space::Order;
use pickle_heads::head_of;
use pickle_syntax::{lex, parse};
use std::test::Fail;

#[test]
fn parses_a_pickle(rt: HostRuntime) -> Result<(), Fail> {
    let alloc = rt.alloc();
    let tokens = lex(alloc, b"type Pair = struct { byte a; byte b; };")?;
    let pickle = parse(alloc, &tokens)?;
    assert_eq!(rt; pickle.declarations.len(), 1);

    let tokens = lex(alloc, b"type Pair = struct { byte a }")?;
    assert!(rt; parse(alloc, &tokens).is_err());
    Ok(())
}

#[test]
fn reads_a_head(rt: HostRuntime) -> Result<(), Fail> {
    let pickle =
        b"// can: A capture.\n// main: Capture, options: --endian little\n// Identified by: Signature, big\n";
    let head = head_of(b"can", pickle);
    assert_eq!(rt; head.sentence, b"A capture.".as_slice());
    assert_eq!(rt; head.main, Some(b"Capture".as_slice()));
    assert_eq!(rt; head.options.order, Some(Order::Little));
    assert_eq!(rt; head.orders(), [Order::Big].as_slice());
    assert_eq!(rt; head.fault, None);
    Ok(())
}
