//! Mappings, from bytes to text.

pub const TABLE: &str = r#"type P = struct { uint<8> a; uint<16> b; };
  map P 0 big 1000000000 010203 | Done | P {a=1UB,b=515UH}
  map P 0 little 1000000000 010203 | Done | P {a=1UB,b=770UH}
  map P 8 big 1000000000 01020304 | Done | P {a=2UB,b=772UH}
  map P 0 big 1000000000 0102 | Fault | fault End at 8#b
  map P 0 big 1000000000 | Fault | fault End at 0#b
  map P 8 big 1000000000 | Fault | fault End at 8#b
  map P 18446744073709551608 big 1000000000 01 | Fault | fault End at 18446744073709551608#b
  map P 0 big 4 010203 | Fault | fault Limit at 0#b
  map P 0 big 5 010203 | Done | P {a=1UB,b=515UH}
  map P 8 big 0 01020304 | Fault | fault Limit at 8#b
  map Q 0 big 1000000000 010203 | Refused | refused NoSuchType
  map byte 4 big 1000000000 010203 | Done | 16UB
  map P 4 big 1000000000 010203 | Fault | fault End at 12#b

type P = byte;
  map P 0 big 1000000000 | Fault | fault End at 0#b

type P = struct {};
  map P 0 big 1000000000 | Done | P {}
  map P 8 big 1000000000 | Fault | fault End at 8#b

type T = struct { uint<24> a; uint<32> b; uint<40> c; uint<64> d; };
  map T 0 big 1000000000 010203800000000000000100ffffffffffffffff | Done | T {a=(uint<24>) 66051,b=2147483648U,c=(uint<40>) 256,d=18446744073709551615UL}

type N = uint<16>;`0atype U = union { N n : n <= 256; struct { byte count; string[count] words; } list; };`0atype M = struct { U[2] us; int<8> last : last < 0; offset<uint<8>,B> o; };`0a
  map M 0 big 1000000000 010002610062632200ff07 | Done | M {us=[U {n=256UH},U {list=struct {count=2UB,words=["a","bc\""]}}],last=-1B,o=7UB#B}
  map M 0 big 1000000000 01000261006263 | Fault | fault End at 40#b
  map M 0 big 1000000000 010002000007 | Fault | fault Constraint at 40#b
  map M 0 big 1000000000 0100020000ff | Fault | fault End at 48#b

type U = union {«0..1023  byte a~ : a~ == 1;» byte last; };
  check | Done | types 1
  map U 0 big 1000000000 01 | Done | U {a0=1UB}
  map U 0 big 5118 02 | Done | U {last=2UB}
  map U 0 big 5117 02 | Fault | fault Limit at 0#b

type T = struct { string s : s == "«0..2000 a»"; };
  map T 0 big 1000000000 «0..2000 61»00 | Done | T {s="«0..2000 a»"}
  map T 0 big 1000000000 «0..1999 61»6200 | Fault | fault Constraint at 0#b

«0..1000 type T~ = struct { uint<8> first : first >= 0 && first <= 255; uint<16>[first] second; };»
  check | Done | types 1000
  map T999 0 big 1000000000 010002 | Done | T999 {first=1UB,second=[2UH]}
  map T1000 0 big 1000000000 010002 | Refused | refused NoSuchType"#;
