//! Pickles, bytes and texts to try the calls with.

/// A pickle, the bytes over which its type T is mapped, and the printed value.
#[derive(Clone, Copy)]
pub struct Sample<'a> {
    pub pickle: &'a [u8],
    pub bytes: &'a [u8],
    pub text: &'a [u8],
}

/// Two integers.
pub const PAIR: &[u8] = b"type T = struct { uint<8> a; uint<16> b; };";

/// A type with a constraint that always holds, its check in JSON, and the same without memory for its note.
pub const ALWAYS: &[u8] = b"type T = struct { byte n : n < 256; };";

pub const WARNED: &[u8] =
    b"{\"accepted\":true,\"warnings\":[{\"line\":1,\"column\":28,\"end\":35,\"says\":\"`n < 256` always holds: `n` is from 0 to 255\",\"write\":\"leave it out\"}]}\n";

pub const UNWARNED: &[u8] = b"{\"accepted\":true,\"warnings\":null}\n";

/// Arrays, unions, integers and texts.
pub const MIXED: Sample<'_> = Sample {
    pickle: b"type U = union { byte a : a == 1; string s; }; type T = struct { U[3] us; byte z; };",
    bytes: b"\x01ab\x00\x01\x05",
    text: b"T {us=[U {a=1UB},U {s=\"ab\"},U {a=1UB}],z=5UB}\n",
};

/// An array whose last element is tried and rolled back.
pub const ELEMENTS: Sample<'_> = Sample {
    pickle: b"type E = struct { byte v : v != 0; }; type T = struct { E[] es; byte z; };",
    bytes: b"\x05\x06\x00",
    text: b"T {es=[E {v=5UB},E {v=6UB}],z=0UB}\n",
};

/// Elements whose first alternative is rolled back.
pub const UNIONS: Sample<'_> = Sample {
    pickle: b"type U = union { ushort a : a == 1; byte b; }; type T = U[];",
    bytes: b"\x02\x03\x04",
    text: b"[U {b=2UB},U {b=3UB}]\n",
};

/// Two arrays of many elements: the links of the first change places with its elements, those of the second move.
pub const ARRAYS: Sample<'_> = Sample {
    pickle: b"type T = struct { byte[9] a; byte[9] b; };",
    bytes: b"\x01\x02\x03\x04\x05\x06\x07\x08\x09\x09\x08\x07\x06\x05\x04\x03\x02\x01",
    text: b"T {a=[1UB,2UB,3UB,4UB,5UB,6UB,7UB,8UB,9UB],b=[9UB,8UB,7UB,6UB,5UB,4UB,3UB,2UB,1UB]}\n",
};

/// An array that takes 16 bytes where it is packed. Its bound is 7 slots.
pub const WIDE: Sample<'_> = Sample {
    pickle: b"type E = struct { string s; }; type Strings = E[7]; type T = uint<64>[];",
    bytes: b"\x00\x00\x00\x00\x00\x00\x00\x01\x00\x00\x00\x00\x00\x00\x00\x02",
    text: b"[1UL,2UL]\n",
};

/// Seven strings.
pub const LETTERS: &[u8] = b"a\0b\0c\0d\0e\0f\0g\0";

/// A text that is stored by an alternative that is rolled back, and then by the next alternative.
pub const LONG_PICKLE: &[u8] = b"type T = union { string a : 0 != 0; string b; };";
