//! Integers of all widths, in both byte orders and at any bit.

pub const TABLE: &str = r#"type P = struct { uint<8> a; uint<16> b; };
  P 0 big 010203 | 5 3 | P {a=1UB,b=515UH}
  P 0 little 010203 | 5 3 | P {a=1UB,b=770UH}
  P 0 big 0102 | 5 1 | fault End at 8#b
  P 0 big | 3 0 | fault End at 0#b
  P 4 big 01020304 | 5 3 | P {a=16UB,b=8240UH}

type T = struct { little uint<12> x; uint<4> y; };
  T 0 big 3412 | 5 3 | T {x=(uint<12>) 308,y=2UN}
  T 0 little 3412 | 5 3 | T {x=(uint<12>) 308,y=2UN}

type T = struct { big uint<12> x; uint<4> y; };
  T 0 big 3412 | 5 3 | T {x=(uint<12>) 833,y=2UN}
  T 0 little 3412 | 5 3 | T {x=(uint<12>) 833,y=2UN}

type T = struct { little int<12> x; uint<4> y; };
  T 0 big ffff | 5 3 | T {x=(int<12>) -1,y=15UN}

type T = struct { big ushort a; little ushort b; ushort c; };
  T 0 little 010203040506 | 7 4 | T {a=258UH,b=1027UH,c=1541UH}
  T 0 big 010203040506 | 7 4 | T {a=258UH,b=1027UH,c=1286UH}

// predeclared types
  byte 4 big 1234 | 1 1 | 35UB
  byte 16 big 1234 | 1 0 | fault End at 16#b
  byte 17 big 1234 | 0 0 | fault End at 17#b
  byte 18446744073709551615 big 1234 | 0 0 | fault End at 18446744073709551615#b
  bit 0 big 80 | 1 1 | (uint<1>) 1
  bit 1 big 80 | 1 1 | (uint<1>) 0
  nibble 4 big 8f | 1 1 | 15UN
  char 0 big 41 | 1 1 | 65UB
  short 0 big 8000 | 1 1 | -32768H
  ushort 0 big 1234 | 1 1 | 4660UH
  ushort 0 little 1234 | 1 1 | 13330UH
  int 0 big ffffffff | 1 1 | -1
  uint 0 big ffffffff | 1 1 | 4294967295U
  uint 0 little 01020304 | 1 1 | 67305985U
  long 0 big ffffffffffffffff | 1 1 | -1L
  long 0 big 8000000000000000 | 1 1 | -9223372036854775808L
  ulong 0 big ffffffffffffffff | 1 1 | 18446744073709551615UL
  int8 0 big 80 | 1 1 | -128B
  int16 0 big fffe | 1 1 | -2H
  int32 0 big 7fffffff | 1 1 | 2147483647
  int64 0 little feffffffffffffff | 1 1 | -2L
  uint8 0 big ff | 1 1 | 255UB
  uint16 0 little 0001 | 1 1 | 256UH
  uint32 0 big 80000000 | 1 1 | 2147483648U
  uint64 4 big 0123456789abcdef01 | 1 1 | 1311768467463790320UL
  uint64 4 little 0123456789abcdef01 | 1 1 | 17356517385562371090UL
  uint64 7 big 010000000000000001 | 1 1 | 9223372036854775808UL
  uint64 8 big 010000000000000001 | 1 1 | 1UL
  uint64 9 big 010000000000000001 | 1 0 | fault End at 9#b

type T = int<1>;
  T 0 big 80 | 1 1 | (int<1>) -1

type T = uint<9>;
  T 0 big 0180 | 1 1 | (uint<9>) 3
  T 0 little 0180 | 1 1 | (uint<9>) 257

type T = int<9>;
  T 0 little 0180 | 1 1 | (int<9>) -255

type T = uint<12>;
  T 4 big 1234 | 1 1 | (uint<12>) 564
  T 4 little 1234 | 1 1 | (uint<12>) 1059

type T = uint<17>;
  T 7 big 018001 | 1 1 | (uint<17>) 98305
  T 7 little 018001 | 1 1 | (uint<17>) 65728
  T 8 big 018001 | 1 0 | fault End at 8#b

type T = int<63>;
  T 1 big 7fffffffffffffff | 1 1 | (int<63>) -1
  T 1 big 3fffffffffffffff | 1 1 | (int<63>) 4611686018427387903"#;
