//! Which pickles are accepted, and how the others are refused.

use poke_batch::{Status, run_check};
use std::alloc::Global;
use std::test::Fail;
use tests_kit::rows::{holds, same, same_bytes};
use tests_kit::text::bytes_of;

/// Pickles that are accepted.
const ACCEPTED: &str = r#" ==> types 0
 // no type ==> types 0
type P = struct { uint<8> a; }; type Q = struct {}; ==> types 2
type E = struct { byte v : v != 0; }; type A = struct { E[] es; byte z; }; ==> types 2
type A = byte; type B = A; type C = B[2]; ==> types 3
type P = struct { uint<8> a; uint<16> b; }; ==> types 1
type P=struct{uint<8>a;uint<16>b;}; ==> types 1
`09 type`0d`0aP`0c= struct`0a{ uint< 8 > a ; uint<`0a16>b; } ; `0a ==> types 1
type P = struct {}; ==> types 1
type P = struct { uint<008> a; uint<0000000000000000000000064> b; }; ==> types 1
type _9 = struct { uint<8> _; uint<8> __; uint<8> a0; }; ==> types 1
type bits = struct { uint<8> bit; uint<8> uint; uint<8> offset; }; ==> types 1
type P = struct { uint<8> P; }; ==> types 1
type int128 = struct { uint<24> a; uint<32> b; uint<40> c; uint<48> d; uint<56> e; }; ==> types 1
type Long0123456789 = struct { uint<8> a; uint<8> A; }; ==> types 1
type P = struct { uint<8> ; }; ==> types 1
type P = struct { uint<12> a; }; ==> types 1
type P = struct { uint<0x8> a; }; ==> types 1
type P = struct { uint<8B> a; }; ==> types 1
type P = struct { uint<8> a : a == 1; }; ==> types 1
type P = struct { /* a */ uint<8> a; }; ==> types 1
type P = pinned struct { uint<8> a; }; ==> types 1
type P = byte; ==> types 1"#;

/// Pickles that are refused, and where.
const REFUSED: &str = r#"type P = struct { uint<8> a; } ==> Syntax at byte 30
typeP = struct { uint<8> a; }; ==> Syntax at byte 0
type P = structs { uint<8> a; }; ==> Syntax at byte 17
type P = struct { uint<8> a; };; ==> Syntax at byte 31
type P = struct { uint<8> a };`20 ==> Syntax at byte 28
type P = struct { uint<8> a; uint<16> a; }; ==> DuplicateField in type 1
type P = struct { uint<0> a; }; ==> Width in type 1
type P = struct { uint<72> a; }; ==> Width in type 1
type P = struct { uint<18446744073709551624> a; }; ==> BadNumber at byte 23
type P = struct { uint<> a; }; ==> Syntax at byte 23
type P = struct { uint<8 8> a; }; ==> Syntax at byte 25
type P = struct { uint <8> a; }; ==> Syntax at byte 23
type P = struct { xuint<8> a; }; ==> Syntax at byte 23
type P = struct { uint<8> 9a; }; ==> BadNumber at byte 26
type P = struct { uint<8> a-b; }; ==> Syntax at byte 27
type 9P = struct {}; ==> BadNumber at byte 5
type uint64 = struct {}; ==> DuplicateType in type 1
type struct = struct {}; ==> Syntax at byte 5
type P = struct { uint<8> if; }; ==> Syntax at byte 28
type A = byte $; ==> BadByte at byte 14
type A = byte; /* x ==> Unclosed at byte 15
type A = byte[256UB]; ==> BadNumber at byte 14
type A = byte ==> Syntax at byte 13
type A = byte[0b2]; ==> BadNumber at byte 14
type A = byte['ab']; ==> BadByte at byte 14
type A = struct { string s : s == "a ==> Unclosed at byte 34
type A = byte[1 2]; ==> Syntax at byte 16
type A = byte[1 + ]; ==> Syntax at byte 18
type A = struct { B x; }; ==> UnknownType in type 1
type A = byte; type A = bit; ==> DuplicateType in type 2
type A = struct { byte x : y; }; ==> UnknownName in type 1
type A = struct { byte x; bit x; }; ==> DuplicateField in type 1
type A = struct { byte x : "a"; }; ==> Mismatch in type 1
type A = uint<65>; ==> Width in type 1
type A = struct uint<8> { uint<4> a; }; ==> IntegralWidths in type 1
type A = union { byte; }; ==> NotHere in type 1
type A = struct { big byte[] x; }; ==> NotHere in type 1
type A = union {}; ==> NotHere in type 1
type A = pinned struct { byte a @ 0#B; }; ==> NotHere in type 1
type A = struct { byte x; byte y : x + 1#B; }; ==> Mismatch in type 1
type A = struct { byte x : x'length; }; ==> Mismatch in type 1
type A = union { byte a; byte b : a == 1; }; ==> UnknownName in type 1
type A = struct { byte n; }; type D = struct { byte k : n == 1; }; ==> UnknownName in type 2
type A = offset<uint<8>,0>; ==> Width in type 1
type A = B; type B = byte; ==> UnknownType in type 1
type A = struct { A a; }; ==> UnknownType in type 1
type nibble = struct {}; ==> DuplicateType in type 1
type byte = byte; ==> DuplicateType in type 1
type A = byte[2][3]; ==> Syntax at byte 16
`80 ==> BadByte at byte 0"#;

/// Pickles that are as deep or as long as they may be, and those just beyond.
const LIMITS: &str = r#"type P = struct {«0..1024 uint<8> a~;»}; ==> types 1
type P = struct {«0..1025 uint<8> a~;»}; ==> TooMany
type P = struct {«0..2 uint<8> a~;»};«0..1048535  » ==> types 1
type P = struct {«0..2 uint<8> a~;»};«0..1048536  » ==> TooLong at byte 1048576
type A = byte[«0..63 (»1«0..63 )»]; ==> types 1
type A = byte[«0..64 (»1«0..64 )»]; ==> TooDeep
type A = byte[«0..63 -»1]; ==> types 1
type A = byte[«0..64 -»1]; ==> TooDeep
type A = «0..63 struct { »struct {}«0..63 ; }»; ==> types 1
type A = «0..64 struct { »struct {}«0..64 ; }»; ==> TooDeep
type T1 = byte[];«1..63 type T^ = T~[];» ==> types 63
type T1 = byte[];«1..64 type T^ = T~[];» ==> TooDeep in type 64
«0..4096 type T~ = byte;» ==> types 4096
«0..4097 type T~ = byte;» ==> TooMany
«0..30 type A = byte;»type B byte; ==> Syntax at byte 427
type A = struct {«0..1000  byte;»}; type B = struct {«0..1000  byte;»} x; ==> Syntax at byte 12039
«0..70 type T~ = byte;»type A = uint<65>; ==> Width in type 71"#;

fn expect(alloc: Global, pickle: &[u8], told: &str) -> Result<(), Fail> {
    let mut out = Vec::new(alloc);
    let mut err = Vec::new(alloc);
    let status = run_check(alloc, pickle, &mut out, &mut err);
    let (written, empty, line, wanted) = if told.starts_with("types ") {
        (&out, &err, format!(in alloc; "{told}\n")?, Status::Done)
    } else {
        (
            &err,
            &out,
            format!(in alloc; "refused {told}\n")?,
            Status::Refused,
        )
    };
    same_bytes(written, line.as_bytes(), told)?;
    holds(empty.is_empty(), told)?;
    same(status, wanted, told)
}

#[test]
fn counts_types_or_refuses(rt: HostRuntime) -> Result<(), Fail> {
    for table in [ACCEPTED, REFUSED, LIMITS] {
        for line in table.lines() {
            let (text, told) = line.split_once(" ==> ").ok_or("no arrow")?;
            let pickle = bytes_of(rt.alloc(), text)?;
            expect(rt.alloc(), &pickle, told)?;
        }
    }
    Ok(())
}
