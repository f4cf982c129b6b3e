//! Structs: their constraints, conditions and labels, pinned and inline ones, and what their expressions see.

pub const TABLE: &str =
    r#"type SixteenLetters16 = struct { byte sixteen_letters_; byte seventeen_letters; byte _; };
  SixteenLetters16 0 big 010203 | 7 4 | SixteenLetters16 {sixteen_letters_=1UB,seventeen_letters=2UB,_=3UB}

type SeventeenLetters1 = struct { byte a : a == 1; };
  SeventeenLetters1 0 big 01 | 6 2 | SeventeenLetters1 {a=1UB}

type P = struct {};
  P 0 big | 1 1 | P {}
  P 8 big | 0 0 | fault End at 8#b

type E = struct { byte v : v != 0; };
  E 0 big 05 | 6 2 | E {v=5UB}
  E 0 big 00 | 6 1 | fault Constraint at 0#b

type T = struct { byte; byte b : b > 3; };
  T 0 big 0104 | 8 3 | T {1UB,b=4UB}
  T 0 big 0103 | 8 2 | fault Constraint at 8#b

type P = struct { byte x; }; type T = struct { P p; byte y : y == p.x ? 1 : 0; };
  T 0 big 0202 | 13 4 | T {p=P {x=2UB},y=2UB}
  T 0 big 0203 | 13 3 | fault Constraint at 8#b

type P = struct { byte x; }; type Q = P; type T = struct { Q q; };
  Q 0 big 01 | 3 2 | P {x=1UB}
  T 0 big 01 | 5 3 | T {q=P {x=1UB}}

type T = struct { byte n; byte back @ 0#B; byte next; };
  T 0 big 0708 | 9 4 | T {n=7UB,back=7UB,next=8UB}

type R = struct { byte far @ 1#B; byte n @ 0#B; }; type T = R[2];
  T 0 big 01020304 | 22 7 | [R {far=2UB,n=1UB},R {far=4UB,n=3UB}]

type R = struct { byte a @ 2#B; byte b @ 0#B; }; type T = struct { R r; byte c : r'size == 3#B; };
  T 0 big 01020304 | 18 5 | T {r=R {a=3UB,b=1UB},c=4UB}

type T = struct { byte[0] e @ 9#B; };
  T 0 big 0000000000000000 | 4 0 | fault End at 72#b

type T = struct { byte[0] e @ 8#B; };
  T 0 big 0000000000000000 | 6 2 | T {e=[]}

type T = struct { byte[0] e @ -1#B; };
  T 0 big 0000000000000000 | 5 0 | fault Bounds at 0#b
  T 8 big 0000000000000000 | 5 0 | fault Bounds at 8#b

type Z = struct { byte[0] e @ 1#B; }; type T = Z[2];
  T 0 big 0000 | 16 5 | [Z {e=[]},Z {e=[]}]
  T 0 big 00 | 14 2 | fault End at 16#b

type T = struct { byte a @ 0xffffffffffffffffU#4294967295; };
  T 0 big 00 | 4 0 | fault End at 79228162495817593515539431425#b
  T 8 big 00 | 4 0 | fault End at 79228162495817593515539431433#b

type T = struct { offset<byte,B> at; byte v @ at; byte w; };
  T 0 big 02000708 | 8 4 | T {at=2UB#B,v=7UB,w=8UB}

type T = struct { byte b : b == 1 @ 1#B; };
  T 0 big 0001 | 8 2 | T {b=1UB}
  T 0 big 0002 | 8 1 | fault Constraint at 8#b

type T = struct { byte b : 1 / 0 @ -1#B if 0; };
  T 0 big | 3 1 | T {}

type T = struct { byte a; byte b if 1 / a; };
  T 8 big 000000 | 7 1 | fault Zero at 8#b

type T = struct { byte a; byte b @ (1 / a)#B; };
  T 8 big 000000 | 9 1 | fault Zero at 8#b

type T = struct { byte a; byte b : b / a; };
  T 8 big 000001 | 8 2 | fault Zero at 16#b

type T = struct { byte f; byte x if f == 1; byte y; };
  T 0 big 0005 | 9 3 | T {f=0UB,y=5UB}
  T 0 big 010506 | 10 4 | T {f=1UB,x=5UB,y=6UB}

type T = struct { byte f; byte x if f == 1; byte y : x == y; };
  T 0 big 0005 | 11 2 | fault Absent at 8#b
  T 0 big 010505 | 13 4 | T {f=1UB,x=5UB,y=5UB}

type T = pinned struct { uint<16> w; byte hi; };
  T 0 big 1234 | 5 3 | T {w=4660UH,hi=18UB}

type T = pinned struct { uint<16> w; struct { byte; byte lo : lo != w; } s; };
  T 0 big 1234 | 12 5 | T {w=4660UH,s=struct {18UB,lo=52UB}}
  T 8 big ff1234 | 12 5 | T {w=4660UH,s=struct {18UB,lo=52UB}}
  T 0 big 0034 | 12 3 | fault Constraint at 8#b

type T = struct { byte n; struct { byte[n] d; byte; } body; };
  T 0 big 010506 | 12 6 | T {n=1UB,body=struct {d=[5UB],6UB}}
  T 0 big 0105 | 12 3 | fault End at 16#b
  T 0 big 01 | 10 1 | fault End at 8#b
  T 0 big | 3 0 | fault End at 0#b

type T = struct { byte n; struct { byte n; byte[n] d; } body; };
  T 0 big 050109 | 12 6 | T {n=5UB,body=struct {n=1UB,d=[9UB]}}

type T = struct { byte n; struct { byte[n] d; byte n; } body; };
  T 0 big 010203 | 12 6 | T {n=1UB,body=struct {d=[2UB],n=3UB}}

type T = struct { byte n; struct { byte n if 0; byte[n] d; } body; };
  T 0 big 0102 | 10 1 | fault Absent at 8#b"#;
