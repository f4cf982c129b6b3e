//! Expressions on integers: their types, their order, and their faults.

pub const TABLE: &str = r#"type T = struct { int<8> a : a + 100B > 0; };
  T 0 big 1b | 8 2 | T {a=27B}
  T 0 big 64 | 7 1 | fault Overflow at 0#b

type T = struct { byte a : 1 << 32; };
  T 0 big 00 | 6 1 | fault Index at 0#b

type T = struct { byte a : 1 << 31; };
  T 0 big 00 | 6 1 | fault Overflow at 0#b

type T = struct { byte a : 1U << 31; };
  T 0 big 00 | 6 2 | T {a=0UB}

type T = struct { byte a : 1 << -1; };
  T 0 big 00 | 7 1 | fault Index at 0#b

type T = struct { byte a : a << 7; };
  T 0 big 01 | 6 2 | T {a=1UB}
  T 0 big 02 | 6 1 | fault Constraint at 0#b

type T = struct { byte a : a >> 8; };
  T 0 big 02 | 6 1 | fault Index at 0#b

type T = struct { byte a : (0b << 8) == 0; };
  T 0 big 00 | 8 1 | fault Index at 0#b

type T = struct { byte a : -5 >> 1 == -3; };
  T 0 big 00 | 10 2 | T {a=0UB}

type T = struct { int<32> a : a < 1U; };
  T 0 big ffffffff | 6 1 | fault Constraint at 0#b
  T 0 big 00000000 | 6 2 | T {a=0}

type T = struct { byte a : -1B > 0U; };
  T 0 big 00 | 7 2 | T {a=0UB}

type T = struct { byte a : 10 - 4 - 3 == a; };
  T 0 big 03 | 10 2 | T {a=3UB}
  T 0 big 09 | 10 1 | fault Constraint at 0#b

type T = struct { byte a : 7 % a == 0; };
  T 0 big 00 | 7 1 | fault Zero at 0#b
  T 0 big 07 | 8 2 | T {a=7UB}

type T = struct { byte a : a != 0 && 7 % a == 1; };
  T 0 big 00 | 7 1 | fault Constraint at 0#b
  T 0 big 03 | 12 2 | T {a=3UB}

type T = struct { byte a : a == 0 || 6 / a; };
  T 0 big 00 | 7 2 | T {a=0UB}
  T 0 big 07 | 10 1 | fault Constraint at 0#b

type T = struct { byte a : 0x7fffffff + 1 > 0; };
  T 0 big 00 | 7 1 | fault Overflow at 0#b

type T = struct { byte a : 0xffffffffffffffffU + 1 == 0; };
  T 0 big 00 | 8 2 | T {a=0UB}

type T = struct { byte a : 0x7fffffffffffffff + 1; };
  T 0 big 00 | 6 1 | fault Overflow at 0#b

type T = struct { byte a : 0xffffffffffffffffU * 0xffffffffffffffffU == 1; };
  T 0 big 00 | 8 2 | T {a=0UB}

type T = struct { byte a : 0x7fffffffffffffff * 0x7fffffffffffffff > 0; };
  T 0 big 00 | 7 1 | fault Overflow at 0#b

type T = struct { byte a : -8 / 8U == 536870911U; };
  T 0 big 00 | 9 2 | T {a=0UB}

type T = struct { byte a : -7 % 3 == -1 && 7 % -3 == 1 && -7 / 2 == -3; };
  T 0 big 00 | 25 2 | T {a=0UB}

type T = struct { long a : a / -1; };
  T 0 big 8000000000000000 | 7 1 | fault Overflow at 0#b
  T 0 big 0000000000000007 | 7 2 | T {a=7L}

type T = struct { int<8> a : a % -1B; };
  T 0 big 80 | 7 1 | fault Constraint at 0#b

type T = struct { int<8> a : -a; };
  T 0 big 80 | 5 1 | fault Overflow at 0#b
  T 0 big 7f | 5 2 | T {a=127B}

type T = struct { byte a : -a == 255; };
  T 0 big 01 | 7 2 | T {a=1UB}

type T = struct { byte a : -1UN == 15 && ~0UB == 255 && ~0 == -1; };
  T 0 big 00 | 18 2 | T {a=0UB}

type T = struct { byte a : !a << 20 == 1048576; };
  T 0 big 00 | 9 2 | T {a=0UB}

type T = struct { byte a : (6 & 3) == 2 && (6 | 3) == 7 && (6 ^ 3) == 5; };
  T 0 big 00 | 23 2 | T {a=0UB}

type T = struct { byte a : (-1 & 0xffUB) == 255U; };
  T 0 big 00 | 10 2 | T {a=0UB}

type T = struct { byte a : (2 && 4) == 1 && (0 || 2) == 1; };
  T 0 big 00 | 16 2 | T {a=0UB}

type T = struct { byte a : !(a == 1) && ((a < 9) || a > 20); };
  T 0 big 01 | 9 1 | fault Constraint at 0#b
  T 0 big 05 | 15 2 | T {a=5UB}
  T 0 big 0c | 18 1 | fault Constraint at 0#b
  T 0 big 1e | 18 2 | T {a=30UB}

type T = struct { byte a : a && !(a * 2 == 6); };
  T 0 big 00 | 5 1 | fault Constraint at 0#b
  T 0 big 03 | 12 1 | fault Constraint at 0#b
  T 0 big 04 | 12 2 | T {a=4UB}

type T = struct { byte a : (7 % a == 1) || a == 0; };
  T 0 big 00 | 9 1 | fault Zero at 0#b
  T 0 big 02 | 10 2 | T {a=2UB}
  T 0 big 05 | 13 1 | fault Constraint at 0#b

type T = struct { byte f; byte x if f == 1; byte y : !(f == 9) && x == y; };
  T 0 big 0005 | 17 2 | fault Absent at 8#b
  T 0 big 010505 | 19 4 | T {f=1UB,x=5UB,y=5UB}

type T = struct { byte f; byte x if !f || (f > 3 && f < 5); byte y; };
  T 0 big 000506 | 10 4 | T {f=0UB,x=5UB,y=6UB}
  T 0 big 0205 | 14 3 | T {f=2UB,y=5UB}
  T 0 big 040506 | 18 4 | T {f=4UB,x=5UB,y=6UB}

type T = struct { byte a : (a ? -1 : 1U) == 4294967295U; };
  T 0 big 01 | 10 2 | T {a=1UB}
  T 0 big 00 | 9 1 | fault Constraint at 0#b

type T = struct { byte a : a ? 1 : 1 / a; };
  T 0 big 01 | 6 2 | T {a=1UB}
  T 0 big 00 | 8 1 | fault Zero at 0#b

type T = struct { byte a : (0 ? 1 : 1 ? 2 : 3) == 2; };
  T 0 big 00 | 11 2 | T {a=0UB}

type T = struct { byte a : (a as int<8>) == -1; };
  T 0 big ff | 9 2 | T {a=255UB}

type T = struct { byte a : -1 as uint<4> == 15; };
  T 0 big 00 | 8 2 | T {a=0UB}

type W = uint<4>; type T = struct { byte a : (a as W) == 15; };
  T 0 big 3f | 8 2 | T {a=63UB}
  T 0 big 3e | 8 1 | fault Constraint at 0#b

type T = struct { byte a : a == 'A' || a == '\'' || a == '\x7f'; };
  T 0 big 41 | 8 2 | T {a=65UB}
  T 0 big 27 | 11 2 | T {a=39UB}
  T 0 big 7f | 14 2 | T {a=127UB}
  T 0 big 7e | 14 1 | fault Constraint at 0#b

type T = struct { byte a : 0x1F == 31 && 0o17 == 15 && 0b11 == 3 && 1_000 == 1000 && 0b == 0; };
  T 0 big 00 | 22 2 | T {a=0UB}

type T = struct { byte a : ((a)) == 2 * (3 + 4); };
  T 0 big 0e | 13 2 | T {a=14UB}

type T = struct { byte a : a; };
  T 0 big 02 | 4 2 | T {a=2UB}
  T 0 big 00 | 4 1 | fault Constraint at 0#b

type T = struct { byte a : 1 < 2 == 2 > 1 != 0; };
  T 0 big 00 | 12 2 | T {a=0UB}"#;
