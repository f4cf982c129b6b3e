//! Strings at any bit, and their comparisons with text literals.

pub const TABLE: &str = r#"type T = string;
  T 0 big 61225c0a0907ff00 | 9 8 | "a\"\\\n\t\x07\xff"
  T 0 big 2027207e7f1f00 | 8 7 | " ' ~\x7f\x1f"
  T 0 big 610062 | 3 2 | "a"
  T 0 big 6162 | 4 2 | fault End at 0#b
  T 0 big 00 | 2 1 | ""
  T 0 big | 2 0 | fault End at 0#b
  T 8 big 61 | 2 0 | fault End at 8#b
  T 9 big 61 | 0 0 | fault End at 9#b
  T 4 big 068000 | 3 2 | "h"
  T 4 little 068000 | 3 2 | "h"
  T 4 big 0680 | 3 1 | fault End at 4#b
  T 4 big 0000 | 2 1 | ""

type T = struct { string s : s == "hi"; string[] rest; byte t if rest'length == 2; };
  T 0 big 6869006100620063 | 31 11 | T {s="hi",rest=["a","b"],t=99UB}
  T 0 big 6869006100 | 22 7 | T {s="hi",rest=["a"]}

type T = struct { string s : s == "h\x69"; };
  T 0 big 686900 | 11 4 | T {s="hi"}
  T 0 big 686f00 | 11 3 | fault Constraint at 0#b
  T 0 big 68696900 | 12 4 | fault Constraint at 0#b
  T 0 big 6869 | 6 2 | fault End at 0#b

type T = struct { string s : "h\x69" != (s); };
  T 0 big 686f00 | 12 4 | T {s="ho"}
  T 0 big 686900 | 12 3 | fault Constraint at 0#b

type T = struct { string s : s == ""; };
  T 0 big 00 | 7 2 | T {s=""}
  T 0 big 6100 | 8 2 | fault Constraint at 0#b

type T = struct { string s : s'size == 3#B; };
  T 0 big 616200 | 11 4 | T {s="ab"}

type T = string[];
  T 0 big 610062 | 9 4 | ["a"]
  T 0 big 6100 | 5 3 | ["a"]

type T = string[2];
  T 0 big 610000 | 9 4 | ["a",""]

type T = string[3#B];
  T 0 big 616200 | 8 4 | ["ab"]

type T = string[2#B];
  T 0 big 616200 | 8 3 | fault Bounds at 0#b

type T = struct { union { byte a : a == 1; string c; } u; byte d : "ab" == u.c; };
  T 0 big 0105 | 14 3 | fault Absent at 8#b
  T 0 big 61020005 | 21 6 | fault Constraint at 24#b
  T 0 big 61620005 | 21 7 | T {u=union {c="ab"},d=5UB}"#;
