//! Arrays by count, by size and without a bound.

pub const TABLE: &str =
    r#"type E = struct { byte v : v != 0; }; type A = struct { E[] es; byte z; };
  A 0 big 050600 | 26 8 | A {es=[E {v=5UB},E {v=6UB}],z=0UB}
  A 0 big 0506 | 19 5 | fault End at 16#b

type T = byte[];
  T 0 big | 1 1 | []
  T 8 big 01 | 1 1 | []
  T 9 big 01 | 0 0 | fault End at 9#b

type T = uint<16>[];
  T 0 big 000102 | 5 2 | [1UH]

type T = uint<16>[3#B];
  T 0 big 00010002 | 7 2 | fault Bounds at 0#b
  T 0 big 000100 | 7 1 | fault End at 16#b

type N = struct { byte x if 0; }; type T = N[3];
  T 0 big 00 | 6 1 | fault NoBits at 0#b

type N = struct { byte x if 0; }; type T = N[];
  T 0 big 00 | 5 1 | fault NoBits at 0#b
  T 0 big | 1 1 | []

type N = struct { byte x if 0; }; type T = N[0x4000000000000000];
  T 0 big 00 | 6 1 | fault NoBits at 0#b

type N = struct { byte x if 0; }; type T = N[2#B];
  T 0 big 00 | 7 1 | fault NoBits at 0#b

type N = struct { byte x if 0; }; type T = N[0#B];
  T 0 big 00 | 3 1 | []

type N = struct {}; type T = N[3];
  T 0 big 00 | 4 1 | fault NoBits at 0#b

type N = struct {}; type T = N[];
  T 0 big 00 | 3 1 | fault NoBits at 0#b
  T 0 big | 1 1 | []

type Z = byte[0]; type T = Z[2];
  T 0 big 01 | 5 1 | fault NoBits at 0#b

type U = union { byte a : a == 1; struct {} b; }; type T = U[];
  T 0 big 0102 | 17 5 | fault NoBits at 8#b

type R = byte[2]; type T = R[];
  T 0 big 010203 | 15 5 | [[1UB,2UB]]

type T = byte[0 - 1];
  T 0 big 01 | 4 0 | fault Bounds at 0#b

type T = byte[-1#B];
  T 0 big 01 | 4 0 | fault Bounds at 0#b

type T = byte[0x4000000000000000];
  T 0 big 01 | 6 1 | fault End at 8#b

type T = byte[0xffffffffffffffffU#4294967295];
  T 0 big 01 | 7 1 | fault End at 8#b

type T = byte[0#B];
  T 0 big | 3 1 | []

type T = byte[0b];
  T 0 big 01 | 2 1 | []

type T = byte[10 - 4 - 3];
  T 0 big 01020304 | 12 4 | [1UB,2UB,3UB]

type T = byte[12#b];
  T 0 big 0000 | 7 2 | fault Bounds at 0#b

type T = nibble[12#b];
  T 0 big 1234 | 9 4 | [1UN,2UN,3UN]

type T = struct { byte x; }[2];
  T 0 big 0102 | 10 5 | [struct {x=1UB},struct {x=2UB}]

type T = struct { byte n; byte[1 / n] d; };
  T 0 big 0000 | 8 1 | fault Zero at 8#b

type T = struct { byte n; byte[n - 3] d; };
  T 0 big 01 | 10 1 | fault End at 8#b

type T = struct { int<8> n; byte[n - 3] d; };
  T 0 big 01 | 8 1 | fault Bounds at 8#b
  T 0 big 0409 | 10 4 | T {n=4B,d=[9UB]}

type E = struct { byte a : 6 / a; }; type T = E[];
  T 0 big 0200 | 15 3 | fault Zero at 8#b
  T 0 big 0207 | 15 4 | [E {a=2UB}]

type B = byte[12#b]; type T = B[];
  T 0 big 0000 | 9 2 | fault Bounds at 0#b

type T = struct { byte[2] xs; byte y : xs[1] == y && xs'length == 2 && xs'size == 16#b; };
  T 0 big 010202 | 26 5 | T {xs=[1UB,2UB],y=2UB}

type T = struct { byte n; byte[2] xs : xs[n] == 0; };
  T 0 big 020000 | 14 4 | fault Index at 8#b
  T 0 big 010500 | 15 5 | T {n=1UB,xs=[5UB,0UB]}

type T = struct { byte[2] xs : xs[-1] == 0; };
  T 0 big 0000 | 13 3 | fault Index at 0#b

type T = struct { byte[1] x if 0; byte y : x[1 / 0] == 0; };
  T 0 big 00 | 8 1 | fault Absent at 0#b

type R = byte[2]; type T = struct { R[2] rs : rs[1][0] == 3 && (rs[0])[1] == 2; };
  T 0 big 01020304 | 34 8 | T {rs=[[1UB,2UB],[3UB,4UB]]}"#;
