//! Structs that are read as one integer.

pub const TABLE: &str =
    r#"type TheTwoHalvesOfOneByte = struct uint<8> { uint<4> the_upper_four_bits; uint<4> the_lower_four_bits; };
  TheTwoHalvesOfOneByte 0 big 12 | 5 3 | TheTwoHalvesOfOneByte {the_upper_four_bits=1UN,the_lower_four_bits=2UN}

type G = struct uint<16> { uint<4> hi; uint<12> lo; }; type T = struct { little G g; };
  T 0 big 3412 | 7 4 | T {g=G {hi=1UN,lo=(uint<12>) 564}}
  T 0 big 34 | 3 0 | fault End at 0#b
  G 0 big 1234 | 5 3 | G {hi=1UN,lo=(uint<12>) 564}
  G 0 little 3412 | 5 3 | G {hi=1UN,lo=(uint<12>) 564}

type G = struct uint<8> { uint<4> hi : hi != 0; uint<4> lo; }; type T = struct { G[] gs; byte z; };
  T 0 big 1205 | 21 7 | T {gs=[G {hi=1UN,lo=2UN}],z=5UB}

type I = struct uint<8> { uint<4> a; int<4> b : b < 0; }; type T = struct int<16> { I i; int<8> c; };
  T 0 big 1ffe | 12 5 | T {i=I {a=1UN,b=-1N},c=-2B}
  T 0 little fe1f | 12 5 | T {i=I {a=1UN,b=-1N},c=-2B}
  T 0 big 1f | 1 0 | fault End at 0#b
  T 8 big 001000 | 10 2 | fault Constraint at 8#b

type T = struct { little struct uint<16> { uint<4> a; uint<12> b; } g; };
  T 0 big 3412 | 7 4 | T {g=struct {a=1UN,b=(uint<12>) 564}}

type T = struct uint<16> { struct uint<12> { uint<4> a; uint<8> b; } i : i'size == 12#b && i.b'size == 8#b; uint<4> c; };
  T 0 big 1234 | 21 5 | T {i=struct {a=1UN,b=35UB},c=4UN}

type I = struct uint<8> { uint<4> a; uint<4> b : a / b; }; type T = struct uint<16> { byte c; I i; };
  T 8 big 000510 | 12 3 | fault Zero at 8#b
  T 8 big 000511 | 12 5 | T {c=5UB,i=I {a=1UN,b=1UN}}
  T 8 big 000501 | 12 3 | fault Constraint at 8#b

type T = struct uint<8> { int<4> a; int<4> b : a - b; };
  T 0 big 81 | 8 2 | fault Overflow at 0#b

type T = struct uint<8> { uint<4> a; uint<4> b : a << b; };
  T 0 big 12 | 8 3 | T {a=1UN,b=2UN}
  T 0 big 14 | 8 2 | fault Index at 0#b

type T = struct uint<8> { offset<uint<4>,B> o; int<4> n; };
  T 0 big 2f | 5 3 | T {o=2UN#B,n=-1N}

type T = struct uint<12> { uint<4> a; uint<8> b; };
  T 0 little 3412 | 5 3 | T {a=1UN,b=52UB}
  T 4 little 1234 | 5 3 | T {a=4UN,b=35UB}
  T 4 big 1234 | 5 3 | T {a=2UN,b=52UB}
  T 8 big 1234 | 1 0 | fault End at 8#b

type T = struct { byte n; struct uint<8> { uint<4> a : a == n; uint<4> b; } g; };
  T 0 big 0221 | 12 5 | T {n=2UB,g=struct {a=2UN,b=1UN}}
  T 0 big 0231 | 10 2 | fault Constraint at 8#b

type T = struct uint<8> { uint<4> a; struct uint<4> { uint<2> b : b == a; uint<2> c; } i; };
  T 0 big 15 | 12 5 | T {a=1UN,i=struct {b=(uint<2>) 1,c=(uint<2>) 1}}

type T = struct uint<64> { uint<1> a; int<63> b; };
  T 0 big ffffffffffffffff | 5 3 | T {a=(uint<1>) 1,b=(int<63>) -1}"#;
