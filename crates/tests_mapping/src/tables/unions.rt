//! Unions: which alternative matches, and which faults they pass on.

pub const TABLE: &str =
    r#"type OneOfTheseTwoAlternatives = union { byte the_first_alternative : the_first_alternative == 1; ushort the_second_alternative; };
  OneOfTheseTwoAlternatives 0 big 01 | 6 2 | OneOfTheseTwoAlternatives {the_first_alternative=1UB}
  OneOfTheseTwoAlternatives 0 big 0203 | 8 3 | OneOfTheseTwoAlternatives {the_second_alternative=515UH}

type T = union { byte a : a == 1; uint<16> b; };
  T 0 big 01 | 6 2 | T {a=1UB}
  T 0 big 02 | 8 1 | fault End at 0#b
  T 0 big 0203 | 8 3 | T {b=515UH}

type T = union { byte a : 1 / a == 1; byte b; };
  T 0 big 00 | 7 1 | fault Zero at 0#b

type U = union { byte a : a == 1; byte b : b == 2; }; type T = struct { U[] us; byte rest; };
  T 0 big 010203 | 36 10 | T {us=[U {a=1UB},U {b=2UB}],rest=3UB}
  U 0 big 03 | 11 2 | fault Constraint at 0#b
  U 8 big 0003 | 11 2 | fault Constraint at 8#b

type T = struct { byte tag; union { byte a : tag == 1; ushort b; } u; };
  T 0 big 0105 | 10 4 | T {tag=1UB,u=union {a=5UB}}
  T 0 big 020007 | 12 5 | T {tag=2UB,u=union {b=7UH}}

type T = struct { union { byte a : a == 1; byte b; } u; byte c : u.a == 1; };
  T 0 big 0101 | 14 4 | T {u=union {a=1UB},c=1UB}
  T 0 big 0201 | 15 4 | fault Absent at 8#b

type U = union { ushort a : a == 1; byte b; }; type T = U[];
  T 0 big 020304 | 23 7 | [U {b=2UB},U {b=3UB}]

type T = union { string a : 0 != 0; string b; };
  T 0 big 616200 | 14 7 | T {b="ab"}
  T 0 big 6162 | 6 2 | fault End at 0#b

type T = union { struct { byte x : x == 1; } p; byte q; };
  T 0 big 01 | 8 3 | T {p=struct {x=1UB}}
  T 0 big 02 | 10 3 | T {q=2UB}

type P = struct { byte x; }; type T = union { P p : p.x == 1; byte b; };
  T 0 big 01 | 9 3 | T {p=P {x=1UB}}
  T 0 big 02 | 11 4 | T {b=2UB}

type T = union { union { byte a : a == 1; byte b : b == 2; } p; byte q; };
  T 0 big 02 | 13 4 | T {p=union {b=2UB}}
  T 0 big 03 | 15 4 | T {q=3UB}

type T = union { byte[0 - 1] a; byte b; };
  T 0 big 01 | 6 0 | fault Bounds at 0#b

type T = union { struct {} e; byte b; };
  T 0 big 01 | 3 2 | T {e=struct {}}

type T = union { little ushort a; };
  T 0 big 0100 | 3 2 | T {a=1UH}

type T = union { byte[2] two : two[1] == 2; byte one; };
  T 0 big 0102 | 13 4 | T {two=[1UB,2UB]}
  T 0 big 0103 | 15 5 | T {one=1UB}

type T = struct { union { byte a : a == 1; ushort b; } u; byte c : u'size == 16#b; };
  T 0 big 000709 | 17 5 | T {u=union {b=7UH},c=9UB}

type T = struct { byte n; union { struct { byte x : x == n; } a; byte b; } u; };
  T 0 big 0202 | 12 5 | T {n=2UB,u=union {a=struct {x=2UB}}}
  T 0 big 0203 | 14 5 | T {n=2UB,u=union {b=3UB}}"#;
