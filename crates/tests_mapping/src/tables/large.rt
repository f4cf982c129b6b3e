//! Values of many parts, and values far from the start of a file.

pub const TABLE: &str = r#"type T = byte[];
  T 0 big «0..8190 01»1234 | 16385 8193 | [«0..8190 1UB,»18UB,52UB]

type E = struct { byte x; }; type T = E[];
  T 0 big «0..60000 07» | 240001 120001 | [«0..59999 E {x=7UB},»E {x=7UB}]

type T = string;
  T 0 big «0..20000 61»00 | 20002 20001 | "«0..20000 a»"
  T 0 big «0..20000 61» | 20002 20000 | fault End at 0#b

type T = struct { byte n; byte[n] e; };
  ushort 160000 big «0..20000 00»1234 | 1 1 | 4660UH
  ushort 160004 big «0..20000 00»012340 | 1 1 | 4660UH
  ushort 160008 big «0..20000 00»1234 | 1 0 | fault End at 160008#b
  T 160000 big «0..20000 00»010203 | 8 4 | T {n=1UB,e=[2UB]}"#;
