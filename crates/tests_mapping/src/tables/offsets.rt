//! Offsets, and arithmetic with them.

pub const TABLE: &str =
    r#"type T = struct { offset<uint<8>,B> len; byte[len] data : data'size == len; offset<int<16>,4> o; };
  T 0 big 02aabbfffe | 16 6 | T {len=2UB#B,data=[170UB,187UB],o=-2H#4}

type T = struct { little offset<uint<16>,B> o; };
  T 0 big 0200 | 3 2 | T {o=2UH#B}

type T = offset<int<12>,3>;
  T 0 big fff0 | 1 1 | (int<12>) -1#3
  T 5 big fff0 | 1 0 | fault End at 5#b

type T = offset<ulong,4294967295>;
  T 0 big ffffffffffffffff | 1 1 | 18446744073709551615UL#4294967295

type T = offset<bit,b>;
  T 0 big 80 | 1 1 | (uint<1>) 1#b

type T = offset<int,1>;
  T 0 big ffffffff | 1 1 | -1#b

type T = offset<int,8>;
  T 0 little 01000000 | 1 1 | 1#B

type T = struct { byte a : 3#b + 1#B == 11#b && 17#b / 1#B == 2 && 17#b % 1#B == 1#b; };
  T 0 big 00 | 28 2 | T {a=0UB}

type T = struct { byte a : (a#B as offset<uint<8>,b>) == 16#b; };
  T 0 big 02 | 10 2 | T {a=2UB}
  T 0 big 20 | 10 1 | fault Constraint at 0#b

type T = struct { byte a : (-17#b as offset<int<8>,B>) == -2#B; };
  T 0 big 00 | 12 2 | T {a=0UB}

type T = struct { byte a : (300#b as offset<uint<8>,b>) == 44#b; };
  T 0 big 00 | 10 2 | T {a=0UB}

type W = offset<int<8>,4>; type T = struct { byte a : (17#b as W) == 1#B + 8#b; };
  T 0 big 00 | 13 2 | T {a=0UB}

type T = struct { byte a : 3#B % 2#B == 1#B; };
  T 0 big 00 | 11 2 | T {a=0UB}

type T = struct { byte a : -3#B % 2#B == -1#B; };
  T 0 big 00 | 13 2 | T {a=0UB}

type T = struct { byte a : 100B#B % 101B#B == 100#B; };
  T 0 big 00 | 11 2 | T {a=0UB}

type T = struct { byte a : 100B#B + 20B#B > 0#b; };
  T 0 big 00 | 11 2 | T {a=0UB}

type T = struct { byte a : 100B#B + 20B#b > 0#b; };
  T 0 big 00 | 9 1 | fault Overflow at 0#b

type T = struct { byte a : 100B#12 - 100B#8 == 100B#4; };
  T 0 big 00 | 11 2 | T {a=0UB}

type T = struct { byte a : -8#b / 1UB#B == 4294967295U; };
  T 0 big 00 | 11 2 | T {a=0UB}

type T = struct { byte a : 7#b / 8#b == 0 && -17#b / 1#B == -2; };
  T 0 big 00 | 20 2 | T {a=0UB}

type T = struct { byte a : 1#B / 0#b == 1; };
  T 0 big 00 | 9 1 | fault Zero at 0#b

type T = struct { byte a : 1#B % 0#B == 0#B; };
  T 0 big 00 | 9 1 | fault Zero at 0#b

type T = struct { byte a : (0x7fffffffffffffff#B / 1#b) > 0; };
  T 0 big 00 | 10 1 | fault Overflow at 0#b

type T = struct { byte a : 2 * 3#B == 48#b && 3#B * 2 == 48#b; };
  T 0 big 00 | 18 2 | T {a=0UB}

type T = struct { byte a : -1 * 255UB#B == 4294967041U#B; };
  T 0 big 00 | 11 2 | T {a=0UB}

type T = struct { byte a : 64B * 2B#4 == 0#b; };
  T 0 big 00 | 8 1 | fault Overflow at 0#b

type T = struct { offset<int<8>,B> o : -o > 0#b; };
  T 0 big ff | 8 2 | T {o=-1B#B}
  T 0 big 80 | 6 1 | fault Overflow at 0#b

type T = struct { offset<int<8>,B> o : +o <= 8#b && o < 1#8 + 1#b; };
  T 0 big 01 | 16 2 | T {o=1B#B}
  T 0 big 02 | 9 1 | fault Constraint at 0#b

type T = struct { byte a : (a == 0 ? 1#B : 2#B) == 8#b; };
  T 0 big 00 | 13 2 | T {a=0UB}
  T 0 big 01 | 13 1 | fault Constraint at 0#b

type T = struct { uint<12> x; uint<4> y : x'size == 12#b && y'size == 4#b; };
  T 0 big 1234 | 16 3 | T {x=(uint<12>) 291,y=4UN}"#;
