//! The most steps and slots that mappings can take.

pub const TABLE: &str = r#"type P = struct { uint<8> a; uint<16> b; };
  bound P 24 | Done | steps 5`0aslots 5
  bound ulong 0 | Done | steps 1`0aslots 1

type S = string; type T = S[]; type N = struct {}; type Z = N[3];
  bound S 24 | Done | steps 5`0aslots 5
  bound S 25 | Done | steps 5`0aslots 5
  bound T 24 | Done | steps 25`0aslots 25
  bound N 24 | Done | steps 1`0aslots 1
  bound Z 16 | Done | steps 36`0aslots 35

type P = struct { byte x; }; type T = struct { P p; byte y : y == p.x ? 1 : 0; };
  bound T 16 | Done | steps 14`0aslots 7

type T1 = byte[]; type T2 = T1[]; type T3 = T2[];
  bound T1 24 | Done | steps 9`0aslots 9
  bound T2 24 | Done | steps 251`0aslots 251
  bound T3 24 | Done | steps 6301`0aslots 6301

type T = struct { string s : s == "h\x69"; };
  bound T 24 | Done | steps 12`0aslots 7

type T = union { string a : 0 != 0; string b; };
  bound T 8008 | Done | steps 2012`0aslots 1005

type R = struct { byte far @ 1#B; byte n @ 0#B; }; type T = R[2];
  bound T 32 | Done | steps 52`0aslots 31

type O = pinned struct { byte a; ushort b if 0; nibble c; }; type T = O[3#B];
  bound T 24 | Done | steps 39`0aslots 33

type Q = struct { byte a; ushort b if 0; nibble c; }; type T = Q[];
  bound T 24 | Done | steps 28`0aslots 25

type G = struct uint<16> { uint<4> hi : hi != 0; uint<12> lo; }; type T = G[];
  bound T 33 | Done | steps 28`0aslots 19

type O = offset<ushort,B>; type T = O[];
  bound T 24 | Done | steps 5`0aslots 5

type E = struct { byte v : v != 0; }; type A = struct { E[] es; byte z; };
  bound A 24 | Done | steps 33`0aslots 21

type T1 = byte[]; type T2 = T1[]; type T3 = T2[]; type T4 = T3[];
  bound T3 24 | Done | steps 6301`0aslots 6301
  bound T4 1099511627776 | Done | steps more than 2^128-1`0aslots more than 2^128-1

type U = union { ushort a : a == 1; byte b; }; type T = U[];
  bound T 24 | Done | steps 37`0aslots 17
  bound byte 24 | Done | steps 1`0aslots 1

type S = string;
  bound S 25 | Done | steps 5`0aslots 5


  bound T 24 | Refused | refused NoSuchType

type T
  bound T 24 | Refused | refused Syntax at byte 6

type T = U;
  bound T 24 | Refused | refused UnknownType in type 1

type T1 = struct { byte a; byte b; };«1..63 type T^ = struct { T~ a; T~ b; };»
  bound T63 24 | Done | steps 36893488147419103229`0aslots 36893488147419103229"#;
