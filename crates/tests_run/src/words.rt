//! The arguments of command lines. An argument `""` is empty.

use poke_batch::{WordFault, read_words};
use std::alloc::Global;
use std::test::Fail;
use tests_kit::rows::same_text;
use tests_kit::text::bytes_of;

/// Arguments, and the job that they request.
const JOBS: &str = r#" ==> Check { pickle: "-" }
check - ==> Check { pickle: "-" }
check p ==> Check { pickle: "p" }
types p ==> Types { pickle: "p" }
types --parts T p ==> Parts { pickle: "p", name: "T", depth: Some(6) }
types --parts T --depth 0 --mode json p ==> Parts { pickle: "p", name: "T", depth: Some(0) }
types --depth all p --parts T ==> Parts { pickle: "p", name: "T", depth: None }
formats ==> Formats
formats --mode json ==> Formats
bound p T 25 ==> Bound { pickle: "p", name: "T", bits: 25 }
bound p T 4294967321 ==> Bound { pickle: "p", name: "T", bits: 4294967321 }
bound p T 18446744073709551615 ==> Bound { pickle: "p", name: "T", bits: 18446744073709551615 }
bound --text p T 25 ==> BoundText { pickle: "p", name: "T", bits: 25, mode: None, style: Style { numbers: Decimal, chars: Numbers, elements: None } }
bound p --text T --mode tree 25 ==> BoundText { pickle: "p", name: "T", bits: 25, mode: Some(Tree), style: Style { numbers: Decimal, chars: Numbers, elements: None } }
bound --text --numbers hex --chars text p T 25 ==> BoundText { pickle: "p", name: "T", bits: 25, mode: None, style: Style { numbers: Hexadecimal, chars: Text, elements: None } }
bound --text --elements 3 p T 25 ==> BoundText { pickle: "p", name: "T", bits: 25, mode: None, style: Style { numbers: Decimal, chars: Numbers, elements: Some(3) } }
bound --text --elements all p T 25 ==> BoundText { pickle: "p", name: "T", bits: 25, mode: None, style: Style { numbers: Decimal, chars: Numbers, elements: None } }
bound --tight p T 25 ==> TightBound { pickle: "p", name: "T", bits: 25 }
bound --memory p T 26 ==> MemoryBound { pickle: "p", name: "T", bits: 26 }
dump f ==> Dump { from: 0, size: 128, ruler: true, file: "f" }
dump - ==> Dump { from: 0, size: 128, ruler: true, file: "-" }
dump --from 2#4 --size=16#b --no-ruler f ==> Dump { from: 1, size: 2, ruler: false, file: "f" }
map --at 4#b p T f ==> Map { at: 4, order: Big, limit: 1000000000, mode: Flat, pickle: "p", name: "T", file: "f" }
map p T f ==> Map { at: 0, order: Big, limit: 1000000000, mode: Flat, pickle: "p", name: "T", file: "f" }
map p --endian=little T --at=2#B f --limit 7 --mode flat ==> Map { at: 16, order: Little, limit: 7, mode: Flat, pickle: "p", name: "T", file: "f" }
map --limit 18446744073709551615 -- p T f ==> Map { at: 0, order: Big, limit: 18446744073709551615, mode: Flat, pickle: "p", name: "T", file: "f" }
map --mode tree p T f ==> Map { at: 0, order: Big, limit: 1000000000, mode: Tree, pickle: "p", name: "T", file: "f" }
map --mode json p T f ==> Map { at: 0, order: Big, limit: 1000000000, mode: Json, pickle: "p", name: "T", file: "f" }
map --mode=lines p T f ==> Map { at: 0, order: Big, limit: 1000000000, mode: Lines, pickle: "p", name: "T", file: "f" }
map --slots 7 p T f ==> Request(Request { start: Bit(0), window: None, order: None, limit: Steps(1000000000), spool: None, terms: Terms { whole: false, most_output: None, part: None, most_slots: Some(7), most_bytes: None, style: Style { numbers: Decimal, chars: Numbers, elements: None }, look: None, selection: None }, form: Printed { mode: Flat, faults: Text }, progress: false, subject: Named { pickle: "p", name: "T" }, over: File("f") })
map --memory 64000000 p T f ==> Request(Request { start: Bit(0), window: None, order: None, limit: Steps(1000000000), spool: None, terms: Terms { whole: false, most_output: None, part: None, most_slots: None, most_bytes: Some(64000000), style: Style { numbers: Decimal, chars: Numbers, elements: None }, look: None, selection: None }, form: Printed { mode: Flat, faults: Text }, progress: false, subject: Named { pickle: "p", name: "T" }, over: File("f") })
each --memory 0 p T f g ==> Request(Request { start: Bit(0), window: None, order: None, limit: Steps(1000000000), spool: None, terms: Terms { whole: false, most_output: None, part: None, most_slots: None, most_bytes: Some(0), style: Style { numbers: Decimal, chars: Numbers, elements: None }, look: None, selection: None }, form: Printed { mode: Flat, faults: Text }, progress: false, subject: Named { pickle: "p", name: "T" }, over: Files { names: Words(["f", "g"]), flush: false } })
show --memory=18446744073709551615 p T f ==> Request(Request { start: Bit(0), window: None, order: None, limit: Steps(1000000000), spool: None, terms: Terms { whole: false, most_output: None, part: None, most_slots: None, most_bytes: Some(18446744073709551615), style: Style { numbers: Decimal, chars: Text, elements: Some(16) }, look: None, selection: None }, form: Shown { color: Auto, depth: Some(6), numbers: None, beside: Beside { sizes: false, bytes: false } }, progress: false, subject: Named { pickle: "p", name: "T" }, over: File("f") })
map --spool 4096 p T f ==> Request(Request { start: Bit(0), window: None, order: None, limit: Steps(1000000000), spool: Some(4096), terms: Terms { whole: false, most_output: None, part: None, most_slots: None, most_bytes: None, style: Style { numbers: Decimal, chars: Numbers, elements: None }, look: None, selection: None }, form: Printed { mode: Flat, faults: Text }, progress: false, subject: Named { pickle: "p", name: "T" }, over: File("f") })
map --limit auto p T f ==> Request(Request { start: Bit(0), window: None, order: None, limit: Auto, spool: None, terms: Terms { whole: false, most_output: None, part: None, most_slots: None, most_bytes: None, style: Style { numbers: Decimal, chars: Numbers, elements: None }, look: None, selection: None }, form: Printed { mode: Flat, faults: Text }, progress: false, subject: Named { pickle: "p", name: "T" }, over: File("f") })
map --progress p T f ==> Request(Request { start: Bit(0), window: None, order: None, limit: Steps(1000000000), spool: None, terms: Terms { whole: false, most_output: None, part: None, most_slots: None, most_bytes: None, style: Style { numbers: Decimal, chars: Numbers, elements: None }, look: None, selection: None }, form: Printed { mode: Flat, faults: Text }, progress: true, subject: Named { pickle: "p", name: "T" }, over: File("f") })
each --mode json p T f ==> Request(Request { start: Bit(0), window: None, order: None, limit: Steps(1000000000), spool: None, terms: Terms { whole: false, most_output: None, part: None, most_slots: None, most_bytes: None, style: Style { numbers: Decimal, chars: Numbers, elements: None }, look: None, selection: None }, form: Printed { mode: Json, faults: Text }, progress: false, subject: Named { pickle: "p", name: "T" }, over: Files { names: Words(["f"]), flush: false } })
each p T f g ==> Request(Request { start: Bit(0), window: None, order: None, limit: Steps(1000000000), spool: None, terms: Terms { whole: false, most_output: None, part: None, most_slots: None, most_bytes: None, style: Style { numbers: Decimal, chars: Numbers, elements: None }, look: None, selection: None }, form: Printed { mode: Flat, faults: Text }, progress: false, subject: Named { pickle: "p", name: "T" }, over: Files { names: Words(["f", "g"]), flush: false } })
each --progress --spool 0 p T f g ==> Request(Request { start: Bit(0), window: None, order: None, limit: Steps(1000000000), spool: Some(0), terms: Terms { whole: false, most_output: None, part: None, most_slots: None, most_bytes: None, style: Style { numbers: Decimal, chars: Numbers, elements: None }, look: None, selection: None }, form: Printed { mode: Flat, faults: Text }, progress: true, subject: Named { pickle: "p", name: "T" }, over: Files { names: Words(["f", "g"]), flush: false } })
each --files0-from - --whole p T ==> Request(Request { start: Bit(0), window: None, order: None, limit: Steps(1000000000), spool: None, terms: Terms { whole: true, most_output: None, part: None, most_slots: None, most_bytes: None, style: Style { numbers: Decimal, chars: Numbers, elements: None }, look: None, selection: None }, form: Printed { mode: Flat, faults: Text }, progress: false, subject: Named { pickle: "p", name: "T" }, over: Files { names: EndedByZero("-"), flush: false } })
map --whole p T f ==> Request(Request { start: Bit(0), window: None, order: None, limit: Steps(1000000000), spool: None, terms: Terms { whole: true, most_output: None, part: None, most_slots: None, most_bytes: None, style: Style { numbers: Decimal, chars: Numbers, elements: None }, look: None, selection: None }, form: Printed { mode: Flat, faults: Text }, progress: false, subject: Named { pickle: "p", name: "T" }, over: File("f") })
map --max-output 5 p T f ==> Request(Request { start: Bit(0), window: None, order: None, limit: Steps(1000000000), spool: None, terms: Terms { whole: false, most_output: Some(5), part: None, most_slots: None, most_bytes: None, style: Style { numbers: Decimal, chars: Numbers, elements: None }, look: None, selection: None }, form: Printed { mode: Flat, faults: Text }, progress: false, subject: Named { pickle: "p", name: "T" }, over: File("f") })
map --limit +5 p T f ==> Map { at: 0, order: Big, limit: 5, mode: Flat, pickle: "p", name: "T", file: "f" }
map --limit=+007 p T f ==> Map { at: 0, order: Big, limit: 7, mode: Flat, pickle: "p", name: "T", file: "f" }
map --max-output +5 p T f ==> Request(Request { start: Bit(0), window: None, order: None, limit: Steps(1000000000), spool: None, terms: Terms { whole: false, most_output: Some(5), part: None, most_slots: None, most_bytes: None, style: Style { numbers: Decimal, chars: Numbers, elements: None }, look: None, selection: None }, form: Printed { mode: Flat, faults: Text }, progress: false, subject: Named { pickle: "p", name: "T" }, over: File("f") })
map --slots +5 p T f ==> Request(Request { start: Bit(0), window: None, order: None, limit: Steps(1000000000), spool: None, terms: Terms { whole: false, most_output: None, part: None, most_slots: Some(5), most_bytes: None, style: Style { numbers: Decimal, chars: Numbers, elements: None }, look: None, selection: None }, form: Printed { mode: Flat, faults: Text }, progress: false, subject: Named { pickle: "p", name: "T" }, over: File("f") })
map --memory +5 p T f ==> Request(Request { start: Bit(0), window: None, order: None, limit: Steps(1000000000), spool: None, terms: Terms { whole: false, most_output: None, part: None, most_slots: None, most_bytes: Some(5), style: Style { numbers: Decimal, chars: Numbers, elements: None }, look: None, selection: None }, form: Printed { mode: Flat, faults: Text }, progress: false, subject: Named { pickle: "p", name: "T" }, over: File("f") })
map --spool +5 p T f ==> Request(Request { start: Bit(0), window: None, order: None, limit: Steps(1000000000), spool: Some(5), terms: Terms { whole: false, most_output: None, part: None, most_slots: None, most_bytes: None, style: Style { numbers: Decimal, chars: Numbers, elements: None }, look: None, selection: None }, form: Printed { mode: Flat, faults: Text }, progress: false, subject: Named { pickle: "p", name: "T" }, over: File("f") })
map --elements +1 p T f ==> Request(Request { start: Bit(0), window: None, order: None, limit: Steps(1000000000), spool: None, terms: Terms { whole: false, most_output: None, part: None, most_slots: None, most_bytes: None, style: Style { numbers: Decimal, chars: Numbers, elements: Some(1) }, look: None, selection: None }, form: Printed { mode: Flat, faults: Text }, progress: false, subject: Named { pickle: "p", name: "T" }, over: File("f") })
show --depth +2 p T f ==> Request(Request { start: Bit(0), window: None, order: None, limit: Steps(1000000000), spool: None, terms: Terms { whole: false, most_output: None, part: None, most_slots: None, most_bytes: None, style: Style { numbers: Decimal, chars: Text, elements: Some(16) }, look: None, selection: None }, form: Shown { color: Auto, depth: Some(2), numbers: None, beside: Beside { sizes: false, bytes: false } }, progress: false, subject: Named { pickle: "p", name: "T" }, over: File("f") })
bound p T +5 ==> Bound { pickle: "p", name: "T", bits: 5 }
bound p T +18446744073709551615 ==> Bound { pickle: "p", name: "T", bits: 18446744073709551615 }
bound --text --elements +1 p T 25 ==> BoundText { pickle: "p", name: "T", bits: 25, mode: None, style: Style { numbers: Decimal, chars: Numbers, elements: Some(1) } }
map --get . p T f ==> Request(Request { start: Bit(0), window: None, order: None, limit: Steps(1000000000), spool: None, terms: Terms { whole: false, most_output: None, part: Some(Path { steps: [] }), most_slots: None, most_bytes: None, style: Style { numbers: Decimal, chars: Numbers, elements: None }, look: None, selection: None }, form: Printed { mode: Flat, faults: Text }, progress: false, subject: Named { pickle: "p", name: "T" }, over: File("f") })
map --get .a[2].0 p T f ==> Request(Request { start: Bit(0), window: None, order: None, limit: Steps(1000000000), spool: None, terms: Terms { whole: false, most_output: None, part: Some(Path { steps: [Field([97]), Element(2), Place(0)] }), most_slots: None, most_bytes: None, style: Style { numbers: Decimal, chars: Numbers, elements: None }, look: None, selection: None }, form: Printed { mode: Flat, faults: Text }, progress: false, subject: Named { pickle: "p", name: "T" }, over: File("f") })
map --get .a --get [2] p T f ==> Request(Request { start: Bit(0), window: None, order: None, limit: Steps(1000000000), spool: None, terms: Terms { whole: false, most_output: None, part: None, most_slots: None, most_bytes: None, style: Style { numbers: Decimal, chars: Numbers, elements: None }, look: None, selection: Some(Selection { shape: Parts([Pattern { steps: [Exact(Field([97]))] }, Pattern { steps: [Exact(Element(2))] }]), absent: Fault }) }, form: Printed { mode: Flat, faults: Text }, progress: false, subject: Named { pickle: "p", name: "T" }, over: File("f") })
map --get .a[*].* --absent empty p T f ==> Request(Request { start: Bit(0), window: None, order: None, limit: Steps(1000000000), spool: None, terms: Terms { whole: false, most_output: None, part: None, most_slots: None, most_bytes: None, style: Style { numbers: Decimal, chars: Numbers, elements: None }, look: None, selection: Some(Selection { shape: Parts([Pattern { steps: [Exact(Field([97])), Elements(Span { from: None, end: None }), Fields] }]), absent: Empty }) }, form: Printed { mode: Flat, faults: Text }, progress: false, subject: Named { pickle: "p", name: "T" }, over: File("f") })
map --rows [1:] --get .a --get . --header p T f ==> Request(Request { start: Bit(0), window: None, order: None, limit: Steps(1000000000), spool: None, terms: Terms { whole: false, most_output: None, part: None, most_slots: None, most_bytes: None, style: Style { numbers: Decimal, chars: Numbers, elements: None }, look: None, selection: Some(Selection { shape: Rows(Rows { pattern: Pattern { steps: [Elements(Span { from: Some(1), end: None })] }, columns: [Column { name: ".a", path: Path { steps: [Field([97])] } }, Column { name: ".", path: Path { steps: [] } }], header: true }), absent: Fault }) }, form: Printed { mode: Flat, faults: Text }, progress: false, subject: Named { pickle: "p", name: "T" }, over: File("f") })
each --get .a --get .0 p T f ==> Request(Request { start: Bit(0), window: None, order: None, limit: Steps(1000000000), spool: None, terms: Terms { whole: false, most_output: None, part: None, most_slots: None, most_bytes: None, style: Style { numbers: Decimal, chars: Numbers, elements: None }, look: None, selection: Some(Selection { shape: Rows(Rows { pattern: Pattern { steps: [] }, columns: [Column { name: ".a", path: Path { steps: [Field([97])] } }, Column { name: ".0", path: Path { steps: [Place(0)] } }], header: false }), absent: Fault }) }, form: Printed { mode: Flat, faults: Text }, progress: false, subject: Named { pickle: "p", name: "T" }, over: Files { names: Words(["f"]), flush: false } })
map --absent fault --get .a p T f ==> Request(Request { start: Bit(0), window: None, order: None, limit: Steps(1000000000), spool: None, terms: Terms { whole: false, most_output: None, part: Some(Path { steps: [Field([97])] }), most_slots: None, most_bytes: None, style: Style { numbers: Decimal, chars: Numbers, elements: None }, look: None, selection: None }, form: Printed { mode: Flat, faults: Text }, progress: false, subject: Named { pickle: "p", name: "T" }, over: File("f") })
map --get .a --get .b p T f ==> Request(Request { start: Bit(0), window: None, order: None, limit: Steps(1000000000), spool: None, terms: Terms { whole: false, most_output: None, part: None, most_slots: None, most_bytes: None, style: Style { numbers: Decimal, chars: Numbers, elements: None }, look: None, selection: Some(Selection { shape: Parts([Pattern { steps: [Exact(Field([97]))] }, Pattern { steps: [Exact(Field([98]))] }]), absent: Fault }) }, form: Printed { mode: Flat, faults: Text }, progress: false, subject: Named { pickle: "p", name: "T" }, over: File("f") })
map --mode tree --get .a[*].0 --get [2:5] p T f ==> Request(Request { start: Bit(0), window: None, order: None, limit: Steps(1000000000), spool: None, terms: Terms { whole: false, most_output: None, part: None, most_slots: None, most_bytes: None, style: Style { numbers: Decimal, chars: Numbers, elements: None }, look: None, selection: Some(Selection { shape: Parts([Pattern { steps: [Exact(Field([97])), Elements(Span { from: None, end: None }), Exact(Place(0))] }, Pattern { steps: [Elements(Span { from: Some(2), end: Some(5) })] }]), absent: Fault }) }, form: Printed { mode: Tree, faults: Text }, progress: false, subject: Named { pickle: "p", name: "T" }, over: File("f") })
map --get .* --absent empty p T f ==> Request(Request { start: Bit(0), window: None, order: None, limit: Steps(1000000000), spool: None, terms: Terms { whole: false, most_output: None, part: None, most_slots: None, most_bytes: None, style: Style { numbers: Decimal, chars: Numbers, elements: None }, look: None, selection: Some(Selection { shape: Parts([Pattern { steps: [Fields] }]), absent: Empty }) }, form: Printed { mode: Flat, faults: Text }, progress: false, subject: Named { pickle: "p", name: "T" }, over: File("f") })
map --absent empty --get .a p T f ==> Request(Request { start: Bit(0), window: None, order: None, limit: Steps(1000000000), spool: None, terms: Terms { whole: false, most_output: None, part: None, most_slots: None, most_bytes: None, style: Style { numbers: Decimal, chars: Numbers, elements: None }, look: None, selection: Some(Selection { shape: Parts([Pattern { steps: [Exact(Field([97]))] }]), absent: Empty }) }, form: Printed { mode: Flat, faults: Text }, progress: false, subject: Named { pickle: "p", name: "T" }, over: File("f") })
map --rows [7:] --get .a --header p T f ==> Request(Request { start: Bit(0), window: None, order: None, limit: Steps(1000000000), spool: None, terms: Terms { whole: false, most_output: None, part: None, most_slots: None, most_bytes: None, style: Style { numbers: Decimal, chars: Numbers, elements: None }, look: None, selection: Some(Selection { shape: Rows(Rows { pattern: Pattern { steps: [Elements(Span { from: Some(7), end: None })] }, columns: [Column { name: ".a", path: Path { steps: [Field([97])] } }], header: true }), absent: Fault }) }, form: Printed { mode: Flat, faults: Text }, progress: false, subject: Named { pickle: "p", name: "T" }, over: File("f") })
map --rows [:7] --get .a --get .b --mode json --absent empty p T f ==> Request(Request { start: Bit(0), window: None, order: None, limit: Steps(1000000000), spool: None, terms: Terms { whole: false, most_output: None, part: None, most_slots: None, most_bytes: None, style: Style { numbers: Decimal, chars: Numbers, elements: None }, look: None, selection: Some(Selection { shape: Rows(Rows { pattern: Pattern { steps: [Elements(Span { from: None, end: Some(7) })] }, columns: [Column { name: ".a", path: Path { steps: [Field([97])] } }, Column { name: ".b", path: Path { steps: [Field([98])] } }], header: false }), absent: Empty }) }, form: Printed { mode: Json, faults: Text }, progress: false, subject: Named { pickle: "p", name: "T" }, over: File("f") })
map --rows [:7] --get .a --get .b --mode json --absent skip p T f ==> Request(Request { start: Bit(0), window: None, order: None, limit: Steps(1000000000), spool: None, terms: Terms { whole: false, most_output: None, part: None, most_slots: None, most_bytes: None, style: Style { numbers: Decimal, chars: Numbers, elements: None }, look: None, selection: Some(Selection { shape: Rows(Rows { pattern: Pattern { steps: [Elements(Span { from: None, end: Some(7) })] }, columns: [Column { name: ".a", path: Path { steps: [Field([97])] } }, Column { name: ".b", path: Path { steps: [Field([98])] } }], header: false }), absent: Skip }) }, form: Printed { mode: Json, faults: Text }, progress: false, subject: Named { pickle: "p", name: "T" }, over: File("f") })
each --get .a --get .b p T f ==> Request(Request { start: Bit(0), window: None, order: None, limit: Steps(1000000000), spool: None, terms: Terms { whole: false, most_output: None, part: None, most_slots: None, most_bytes: None, style: Style { numbers: Decimal, chars: Numbers, elements: None }, look: None, selection: Some(Selection { shape: Rows(Rows { pattern: Pattern { steps: [] }, columns: [Column { name: ".a", path: Path { steps: [Field([97])] } }, Column { name: ".b", path: Path { steps: [Field([98])] } }], header: false }), absent: Fault }) }, form: Printed { mode: Flat, faults: Text }, progress: false, subject: Named { pickle: "p", name: "T" }, over: Files { names: Words(["f"]), flush: false } })
each --get .a p T f ==> Request(Request { start: Bit(0), window: None, order: None, limit: Steps(1000000000), spool: None, terms: Terms { whole: false, most_output: None, part: Some(Path { steps: [Field([97])] }), most_slots: None, most_bytes: None, style: Style { numbers: Decimal, chars: Numbers, elements: None }, look: None, selection: None }, form: Printed { mode: Flat, faults: Text }, progress: false, subject: Named { pickle: "p", name: "T" }, over: Files { names: Words(["f"]), flush: false } })
each --get .a --absent empty p T f ==> Request(Request { start: Bit(0), window: None, order: None, limit: Steps(1000000000), spool: None, terms: Terms { whole: false, most_output: None, part: None, most_slots: None, most_bytes: None, style: Style { numbers: Decimal, chars: Numbers, elements: None }, look: None, selection: Some(Selection { shape: Parts([Pattern { steps: [Exact(Field([97]))] }]), absent: Empty }) }, form: Printed { mode: Flat, faults: Text }, progress: false, subject: Named { pickle: "p", name: "T" }, over: Files { names: Words(["f"]), flush: false } })
map --numbers hex p T f ==> Request(Request { start: Bit(0), window: None, order: None, limit: Steps(1000000000), spool: None, terms: Terms { whole: false, most_output: None, part: None, most_slots: None, most_bytes: None, style: Style { numbers: Hexadecimal, chars: Numbers, elements: None }, look: None, selection: None }, form: Printed { mode: Flat, faults: Text }, progress: false, subject: Named { pickle: "p", name: "T" }, over: File("f") })
map --chars text p T f ==> Request(Request { start: Bit(0), window: None, order: None, limit: Steps(1000000000), spool: None, terms: Terms { whole: false, most_output: None, part: None, most_slots: None, most_bytes: None, style: Style { numbers: Decimal, chars: Text, elements: None }, look: None, selection: None }, form: Printed { mode: Flat, faults: Text }, progress: false, subject: Named { pickle: "p", name: "T" }, over: File("f") })
map --elements 0 p T f ==> Request(Request { start: Bit(0), window: None, order: None, limit: Steps(1000000000), spool: None, terms: Terms { whole: false, most_output: None, part: None, most_slots: None, most_bytes: None, style: Style { numbers: Decimal, chars: Numbers, elements: Some(0) }, look: None, selection: None }, form: Printed { mode: Flat, faults: Text }, progress: false, subject: Named { pickle: "p", name: "T" }, over: File("f") })
map --elements 18446744073709551615 p T f ==> Request(Request { start: Bit(0), window: None, order: None, limit: Steps(1000000000), spool: None, terms: Terms { whole: false, most_output: None, part: None, most_slots: None, most_bytes: None, style: Style { numbers: Decimal, chars: Numbers, elements: Some(18446744073709551615) }, look: None, selection: None }, form: Printed { mode: Flat, faults: Text }, progress: false, subject: Named { pickle: "p", name: "T" }, over: File("f") })
map --numbers decimal --chars numbers --elements all p T f ==> Map { at: 0, order: Big, limit: 1000000000, mode: Flat, pickle: "p", name: "T", file: "f" }
map --byte 446 p T f ==> Map { at: 3568, order: Big, limit: 1000000000, mode: Flat, pickle: "p", name: "T", file: "f" }
map --byte=0x1Be p T f ==> Map { at: 3568, order: Big, limit: 1000000000, mode: Flat, pickle: "p", name: "T", file: "f" }
map --byte 2305843009213693951 p T f ==> Map { at: 18446744073709551608, order: Big, limit: 1000000000, mode: Flat, pickle: "p", name: "T", file: "f" }
map --byte -512 p T f ==> Request(Request { start: BytesFromEnd(512), window: None, order: None, limit: Steps(1000000000), spool: None, terms: Terms { whole: false, most_output: None, part: None, most_slots: None, most_bytes: None, style: Style { numbers: Decimal, chars: Numbers, elements: None }, look: None, selection: None }, form: Printed { mode: Flat, faults: Text }, progress: false, subject: Named { pickle: "p", name: "T" }, over: File("f") })
map --byte -0x200 p T f ==> Request(Request { start: BytesFromEnd(512), window: None, order: None, limit: Steps(1000000000), spool: None, terms: Terms { whole: false, most_output: None, part: None, most_slots: None, most_bytes: None, style: Style { numbers: Decimal, chars: Numbers, elements: None }, look: None, selection: None }, form: Printed { mode: Flat, faults: Text }, progress: false, subject: Named { pickle: "p", name: "T" }, over: File("f") })
map --byte -0 p T f ==> Request(Request { start: BytesFromEnd(0), window: None, order: None, limit: Steps(1000000000), spool: None, terms: Terms { whole: false, most_output: None, part: None, most_slots: None, most_bytes: None, style: Style { numbers: Decimal, chars: Numbers, elements: None }, look: None, selection: None }, form: Printed { mode: Flat, faults: Text }, progress: false, subject: Named { pickle: "p", name: "T" }, over: File("f") })
each --flush --byte -1 p T f ==> Request(Request { start: BytesFromEnd(1), window: None, order: None, limit: Steps(1000000000), spool: None, terms: Terms { whole: false, most_output: None, part: None, most_slots: None, most_bytes: None, style: Style { numbers: Decimal, chars: Numbers, elements: None }, look: None, selection: None }, form: Printed { mode: Flat, faults: Text }, progress: false, subject: Named { pickle: "p", name: "T" }, over: Files { names: Words(["f"]), flush: true } })
records p T f ==> Request(Request { start: Bit(0), window: None, order: None, limit: Steps(1000000000), spool: None, terms: Terms { whole: false, most_output: None, part: None, most_slots: None, most_bytes: None, style: Style { numbers: Decimal, chars: Numbers, elements: None }, look: None, selection: None }, form: Printed { mode: Flat, faults: Text }, progress: false, subject: Named { pickle: "p", name: "T" }, over: Records { file: "f", of: Values, list: RecordList { omit: 0, count: None, any_end: false, flush: false, report_end: false, header: false, grows: true, resume: None } } })
records --memory 5 p T f ==> Request(Request { start: Bit(0), window: None, order: None, limit: Steps(1000000000), spool: None, terms: Terms { whole: false, most_output: None, part: None, most_slots: None, most_bytes: Some(5), style: Style { numbers: Decimal, chars: Numbers, elements: None }, look: None, selection: None }, form: Printed { mode: Flat, faults: Text }, progress: false, subject: Named { pickle: "p", name: "T" }, over: Records { file: "f", of: Values, list: RecordList { omit: 0, count: None, any_end: false, flush: false, report_end: false, header: false, grows: true, resume: None } } })
records --omit 2 --count 0 --any-end --flush --report-end --byte -1 p T f ==> Request(Request { start: BytesFromEnd(1), window: None, order: None, limit: Steps(1000000000), spool: None, terms: Terms { whole: false, most_output: None, part: None, most_slots: None, most_bytes: None, style: Style { numbers: Decimal, chars: Numbers, elements: None }, look: None, selection: None }, form: Printed { mode: Flat, faults: Text }, progress: false, subject: Named { pickle: "p", name: "T" }, over: Records { file: "f", of: Values, list: RecordList { omit: 2, count: Some(0), any_end: true, flush: true, report_end: true, header: false, grows: true, resume: None } } })
records --mode lines +p T f ==> Request(Request { start: Bit(0), window: None, order: None, limit: Steps(1000000000), spool: None, terms: Terms { whole: false, most_output: None, part: None, most_slots: None, most_bytes: None, style: Style { numbers: Decimal, chars: Numbers, elements: None }, look: None, selection: None }, form: Printed { mode: Lines, faults: Text }, progress: false, subject: Named { pickle: "+p", name: "T" }, over: Records { file: "f", of: Values, list: RecordList { omit: 0, count: None, any_end: false, flush: false, report_end: false, header: false, grows: true, resume: None } } })
records --limit 7 p T f ==> Request(Request { start: Bit(0), window: None, order: None, limit: Steps(7), spool: None, terms: Terms { whole: false, most_output: None, part: None, most_slots: None, most_bytes: None, style: Style { numbers: Decimal, chars: Numbers, elements: None }, look: None, selection: None }, form: Printed { mode: Flat, faults: Text }, progress: false, subject: Named { pickle: "p", name: "T" }, over: Records { file: "f", of: Values, list: RecordList { omit: 0, count: None, any_end: false, flush: false, report_end: false, header: false, grows: false, resume: None } } })
records +p f ==> Request(Request { start: Bit(0), window: None, order: None, limit: Steps(1000000000), spool: None, terms: Terms { whole: false, most_output: None, part: None, most_slots: None, most_bytes: None, style: Style { numbers: Decimal, chars: Numbers, elements: None }, look: None, selection: None }, form: Printed { mode: Flat, faults: Text }, progress: false, subject: ByHead { pickle: "+p", part: Records }, over: Records { file: "f", of: Head, list: RecordList { omit: 0, count: None, any_end: false, flush: false, report_end: false, header: false, grows: true, resume: None } } })
records +p - f ==> Request(Request { start: Bit(0), window: None, order: None, limit: Steps(1000000000), spool: None, terms: Terms { whole: false, most_output: None, part: None, most_slots: None, most_bytes: None, style: Style { numbers: Decimal, chars: Numbers, elements: None }, look: None, selection: None }, form: Printed { mode: Flat, faults: Text }, progress: false, subject: ByHead { pickle: "+p", part: Records }, over: Records { file: "f", of: Head, list: RecordList { omit: 0, count: None, any_end: false, flush: false, report_end: false, header: false, grows: true, resume: None } } })
records --of .a p T f ==> Request(Request { start: Bit(0), window: None, order: None, limit: Steps(1000000000), spool: None, terms: Terms { whole: false, most_output: None, part: None, most_slots: None, most_bytes: None, style: Style { numbers: Decimal, chars: Numbers, elements: None }, look: None, selection: None }, form: Printed { mode: Flat, faults: Text }, progress: false, subject: Named { pickle: "p", name: "T" }, over: Records { file: "f", of: Path(Path { steps: [Field([97])] }), list: RecordList { omit: 0, count: None, any_end: false, flush: false, report_end: false, header: false, grows: true, resume: None } } })
records --of . --resume 16#b p T f ==> Request(Request { start: Bit(0), window: None, order: None, limit: Steps(1000000000), spool: None, terms: Terms { whole: false, most_output: None, part: None, most_slots: None, most_bytes: None, style: Style { numbers: Decimal, chars: Numbers, elements: None }, look: None, selection: None }, form: Printed { mode: Flat, faults: Text }, progress: false, subject: Named { pickle: "p", name: "T" }, over: Records { file: "f", of: Path(Path { steps: [] }), list: RecordList { omit: 0, count: None, any_end: false, flush: false, report_end: false, header: false, grows: true, resume: Some(16) } } })
records --resume 2#B +p f ==> Request(Request { start: Bit(0), window: None, order: None, limit: Steps(1000000000), spool: None, terms: Terms { whole: false, most_output: None, part: None, most_slots: None, most_bytes: None, style: Style { numbers: Decimal, chars: Numbers, elements: None }, look: None, selection: None }, form: Printed { mode: Flat, faults: Text }, progress: false, subject: ByHead { pickle: "+p", part: Records }, over: Records { file: "f", of: Head, list: RecordList { omit: 0, count: None, any_end: false, flush: false, report_end: false, header: false, grows: true, resume: Some(16) } } })
records --get n=.a p T f ==> Request(Request { start: Bit(0), window: None, order: None, limit: Steps(1000000000), spool: None, terms: Terms { whole: false, most_output: None, part: None, most_slots: None, most_bytes: None, style: Style { numbers: Decimal, chars: Numbers, elements: None }, look: None, selection: Some(Selection { shape: Rows(Rows { pattern: Pattern { steps: [] }, columns: [Column { name: "n", path: Path { steps: [Field([97])] } }], header: false }), absent: Fault }) }, form: Printed { mode: Flat, faults: Text }, progress: false, subject: Named { pickle: "p", name: "T" }, over: Records { file: "f", of: Values, list: RecordList { omit: 0, count: None, any_end: false, flush: false, report_end: false, header: false, grows: true, resume: None } } })
find p T f ==> Request(Request { start: Bit(0), window: None, order: None, limit: Steps(1000000000), spool: None, terms: Terms { whole: false, most_output: None, part: None, most_slots: None, most_bytes: None, style: Style { numbers: Decimal, chars: Numbers, elements: None }, look: None, selection: None }, form: Printed { mode: Flat, faults: Text }, progress: false, subject: Named { pickle: "p", name: "T" }, over: Search { file: "f", search: ValueSearch { step: 8, attempt_limit: 1000000, count: None, apart: false, flush: false, header: false, grows: true } } })
find --memory=0 p T f ==> Request(Request { start: Bit(0), window: None, order: None, limit: Steps(1000000000), spool: None, terms: Terms { whole: false, most_output: None, part: None, most_slots: None, most_bytes: Some(0), style: Style { numbers: Decimal, chars: Numbers, elements: None }, look: None, selection: None }, form: Printed { mode: Flat, faults: Text }, progress: false, subject: Named { pickle: "p", name: "T" }, over: Search { file: "f", search: ValueSearch { step: 8, attempt_limit: 1000000, count: None, apart: false, flush: false, header: false, grows: true } } })
find --step 3#b --apart --count 2 --attempt-limit 9 --flush --mode json --byte -1 p T f ==> Request(Request { start: BytesFromEnd(1), window: None, order: None, limit: Steps(1000000000), spool: None, terms: Terms { whole: false, most_output: None, part: None, most_slots: None, most_bytes: None, style: Style { numbers: Decimal, chars: Numbers, elements: None }, look: None, selection: None }, form: Printed { mode: Json, faults: Text }, progress: false, subject: Named { pickle: "p", name: "T" }, over: Search { file: "f", search: ValueSearch { step: 3, attempt_limit: 9, count: Some(2), apart: true, flush: true, header: false, grows: true } } })
find --limit 7 --length 5 +p f ==> Request(Request { start: Bit(0), window: Some(5), order: None, limit: Steps(7), spool: None, terms: Terms { whole: false, most_output: None, part: None, most_slots: None, most_bytes: None, style: Style { numbers: Decimal, chars: Numbers, elements: None }, look: None, selection: None }, form: Printed { mode: Flat, faults: Text }, progress: false, subject: ByHead { pickle: "+p", part: Inside }, over: Search { file: "f", search: ValueSearch { step: 8, attempt_limit: 1000000, count: None, apart: false, flush: false, header: false, grows: false } } })
find --limit 7 --length 5 f ==> Request(Request { start: Bit(0), window: Some(5), order: None, limit: Steps(7), spool: None, terms: Terms { whole: false, most_output: None, part: None, most_slots: None, most_bytes: None, style: Style { numbers: Decimal, chars: Numbers, elements: None }, look: None, selection: None }, form: Printed { mode: Flat, faults: Text }, progress: false, subject: Identified, over: Search { file: "f", search: ValueSearch { step: 8, attempt_limit: 1000000, count: None, apart: false, flush: false, header: false, grows: false } } })
find --get .a --numbers hex +p T f ==> Request(Request { start: Bit(0), window: None, order: None, limit: Steps(1000000000), spool: None, terms: Terms { whole: false, most_output: None, part: Some(Path { steps: [Field([97])] }), most_slots: None, most_bytes: None, style: Style { numbers: Hexadecimal, chars: Numbers, elements: None }, look: None, selection: None }, form: Printed { mode: Flat, faults: Text }, progress: false, subject: Named { pickle: "+p", name: "T" }, over: Search { file: "f", search: ValueSearch { step: 8, attempt_limit: 1000000, count: None, apart: false, flush: false, header: false, grows: true } } })
find --header --get .a p T f ==> Request(Request { start: Bit(0), window: None, order: None, limit: Steps(1000000000), spool: None, terms: Terms { whole: false, most_output: None, part: None, most_slots: None, most_bytes: None, style: Style { numbers: Decimal, chars: Numbers, elements: None }, look: None, selection: Some(Selection { shape: Rows(Rows { pattern: Pattern { steps: [] }, columns: [Column { name: ".a", path: Path { steps: [Field([97])] } }], header: false }), absent: Fault }) }, form: Printed { mode: Flat, faults: Text }, progress: false, subject: Named { pickle: "p", name: "T" }, over: Search { file: "f", search: ValueSearch { step: 8, attempt_limit: 1000000, count: None, apart: false, flush: false, header: true, grows: true } } })
map --mode raw p T f ==> Request(Request { start: Bit(0), window: None, order: None, limit: Steps(1000000000), spool: None, terms: Terms { whole: false, most_output: None, part: None, most_slots: None, most_bytes: None, style: Style { numbers: Decimal, chars: Numbers, elements: None }, look: None, selection: None }, form: Printed { mode: Flat, faults: Text }, progress: false, subject: Named { pickle: "p", name: "T" }, over: Bytes("f") })
map --faults json p T f ==> Request(Request { start: Bit(0), window: None, order: None, limit: Steps(1000000000), spool: None, terms: Terms { whole: false, most_output: None, part: None, most_slots: None, most_bytes: None, style: Style { numbers: Decimal, chars: Numbers, elements: None }, look: None, selection: None }, form: Printed { mode: Flat, faults: Json }, progress: false, subject: Named { pickle: "p", name: "T" }, over: File("f") })
each --faults json p T f ==> Request(Request { start: Bit(0), window: None, order: None, limit: Steps(1000000000), spool: None, terms: Terms { whole: false, most_output: None, part: None, most_slots: None, most_bytes: None, style: Style { numbers: Decimal, chars: Numbers, elements: None }, look: None, selection: None }, form: Printed { mode: Flat, faults: Json }, progress: false, subject: Named { pickle: "p", name: "T" }, over: Files { names: Words(["f"]), flush: false } })
show p T f ==> Request(Request { start: Bit(0), window: None, order: None, limit: Steps(1000000000), spool: None, terms: Terms { whole: false, most_output: None, part: None, most_slots: None, most_bytes: None, style: Style { numbers: Decimal, chars: Text, elements: Some(16) }, look: None, selection: None }, form: Shown { color: Auto, depth: Some(6), numbers: None, beside: Beside { sizes: false, bytes: false } }, progress: false, subject: Named { pickle: "p", name: "T" }, over: File("f") })
show --get .a --get .b p T f ==> Request(Request { start: Bit(0), window: None, order: None, limit: Steps(1000000000), spool: None, terms: Terms { whole: false, most_output: None, part: None, most_slots: None, most_bytes: None, style: Style { numbers: Decimal, chars: Text, elements: Some(16) }, look: None, selection: Some(Selection { shape: Parts([Pattern { steps: [Exact(Field([97]))] }, Pattern { steps: [Exact(Field([98]))] }]), absent: Fault }) }, form: Shown { color: Auto, depth: Some(6), numbers: None, beside: Beside { sizes: false, bytes: false } }, progress: false, subject: Named { pickle: "p", name: "T" }, over: File("f") })
show --get [*] --absent empty p T f ==> Request(Request { start: Bit(0), window: None, order: None, limit: Steps(1000000000), spool: None, terms: Terms { whole: false, most_output: None, part: None, most_slots: None, most_bytes: None, style: Style { numbers: Decimal, chars: Text, elements: Some(16) }, look: None, selection: Some(Selection { shape: Parts([Pattern { steps: [Elements(Span { from: None, end: None })] }]), absent: Empty }) }, form: Shown { color: Auto, depth: Some(6), numbers: None, beside: Beside { sizes: false, bytes: false } }, progress: false, subject: Named { pickle: "p", name: "T" }, over: File("f") })
show --numbers hex --sizes p T f ==> Request(Request { start: Bit(0), window: None, order: None, limit: Steps(1000000000), spool: None, terms: Terms { whole: false, most_output: None, part: None, most_slots: None, most_bytes: None, style: Style { numbers: Hexadecimal, chars: Text, elements: Some(16) }, look: None, selection: None }, form: Shown { color: Auto, depth: Some(6), numbers: Some(Hexadecimal), beside: Beside { sizes: true, bytes: false } }, progress: false, subject: Named { pickle: "p", name: "T" }, over: File("f") })
show --numbers decimal --chars numbers --bytes p T f ==> Request(Request { start: Bit(0), window: None, order: None, limit: Steps(1000000000), spool: None, terms: Terms { whole: false, most_output: None, part: None, most_slots: None, most_bytes: None, style: Style { numbers: Decimal, chars: Numbers, elements: Some(16) }, look: None, selection: None }, form: Shown { color: Auto, depth: Some(6), numbers: Some(Decimal), beside: Beside { sizes: false, bytes: true } }, progress: false, subject: Named { pickle: "p", name: "T" }, over: File("f") })
show --spool=7 p T f ==> Request(Request { start: Bit(0), window: None, order: None, limit: Steps(1000000000), spool: Some(7), terms: Terms { whole: false, most_output: None, part: None, most_slots: None, most_bytes: None, style: Style { numbers: Decimal, chars: Text, elements: Some(16) }, look: None, selection: None }, form: Shown { color: Auto, depth: Some(6), numbers: None, beside: Beside { sizes: false, bytes: false } }, progress: false, subject: Named { pickle: "p", name: "T" }, over: File("f") })
show --color always --elements all --endian little --byte -8 p T f ==> Request(Request { start: BytesFromEnd(8), window: None, order: Some(Little), limit: Steps(1000000000), spool: None, terms: Terms { whole: false, most_output: None, part: None, most_slots: None, most_bytes: None, style: Style { numbers: Decimal, chars: Text, elements: None }, look: None, selection: None }, form: Shown { color: Always, depth: Some(6), numbers: None, beside: Beside { sizes: false, bytes: false } }, progress: false, subject: Named { pickle: "p", name: "T" }, over: File("f") })
show --color never --elements 3 p T f ==> Request(Request { start: Bit(0), window: None, order: None, limit: Steps(1000000000), spool: None, terms: Terms { whole: false, most_output: None, part: None, most_slots: None, most_bytes: None, style: Style { numbers: Decimal, chars: Text, elements: Some(3) }, look: None, selection: None }, form: Shown { color: Never, depth: Some(6), numbers: None, beside: Beside { sizes: false, bytes: false } }, progress: false, subject: Named { pickle: "p", name: "T" }, over: File("f") })
dump -s 0x1b0 -n 80 f ==> Dump { from: 432, size: 80, ruler: true, file: "f" }
map +p f ==> Request(Request { start: Bit(0), window: None, order: None, limit: Steps(1000000000), spool: None, terms: Terms { whole: false, most_output: None, part: None, most_slots: None, most_bytes: None, style: Style { numbers: Decimal, chars: Numbers, elements: None }, look: None, selection: None }, form: Printed { mode: Flat, faults: Text }, progress: false, subject: ByHead { pickle: "+p", part: Documented }, over: File("f") })
map +p - f ==> Request(Request { start: Bit(0), window: None, order: None, limit: Steps(1000000000), spool: None, terms: Terms { whole: false, most_output: None, part: None, most_slots: None, most_bytes: None, style: Style { numbers: Decimal, chars: Numbers, elements: None }, look: None, selection: None }, form: Printed { mode: Flat, faults: Text }, progress: false, subject: ByHead { pickle: "+p", part: Documented }, over: File("f") })
map +p - ==> Request(Request { start: Bit(0), window: None, order: None, limit: Steps(1000000000), spool: None, terms: Terms { whole: false, most_output: None, part: None, most_slots: None, most_bytes: None, style: Style { numbers: Decimal, chars: Numbers, elements: None }, look: None, selection: None }, form: Printed { mode: Flat, faults: Text }, progress: false, subject: ByHead { pickle: "+p", part: Documented }, over: File("-") })
map +p T ==> Request(Request { start: Bit(0), window: None, order: None, limit: Steps(1000000000), spool: None, terms: Terms { whole: false, most_output: None, part: None, most_slots: None, most_bytes: None, style: Style { numbers: Decimal, chars: Numbers, elements: None }, look: None, selection: None }, form: Printed { mode: Flat, faults: Text }, progress: false, subject: ByHead { pickle: "+p", part: Documented }, over: File("T") })
map --whole --endian big +p f ==> Request(Request { start: Bit(0), window: None, order: Some(Big), limit: Steps(1000000000), spool: None, terms: Terms { whole: true, most_output: None, part: None, most_slots: None, most_bytes: None, style: Style { numbers: Decimal, chars: Numbers, elements: None }, look: None, selection: None }, form: Printed { mode: Flat, faults: Text }, progress: false, subject: ByHead { pickle: "+p", part: Documented }, over: File("f") })
show +p f ==> Request(Request { start: Bit(0), window: None, order: None, limit: Steps(1000000000), spool: None, terms: Terms { whole: false, most_output: None, part: None, most_slots: None, most_bytes: None, style: Style { numbers: Decimal, chars: Text, elements: Some(16) }, look: None, selection: None }, form: Shown { color: Auto, depth: Some(6), numbers: None, beside: Beside { sizes: false, bytes: false } }, progress: false, subject: ByHead { pickle: "+p", part: Documented }, over: File("f") })
show --inside --byte 0x40 +p f ==> Request(Request { start: Bit(512), window: None, order: None, limit: Steps(1000000000), spool: None, terms: Terms { whole: false, most_output: None, part: None, most_slots: None, most_bytes: None, style: Style { numbers: Decimal, chars: Text, elements: Some(16) }, look: None, selection: None }, form: Shown { color: Auto, depth: Some(6), numbers: None, beside: Beside { sizes: false, bytes: false } }, progress: false, subject: ByHead { pickle: "+p", part: Inside }, over: File("f") })
map --inside +p - f ==> Request(Request { start: Bit(0), window: None, order: None, limit: Steps(1000000000), spool: None, terms: Terms { whole: false, most_output: None, part: None, most_slots: None, most_bytes: None, style: Style { numbers: Decimal, chars: Numbers, elements: None }, look: None, selection: None }, form: Printed { mode: Flat, faults: Text }, progress: false, subject: ByHead { pickle: "+p", part: Inside }, over: File("f") })
map --at 4#b --length 0x1be p T f ==> Request(Request { start: Bit(4), window: Some(446), order: None, limit: Steps(1000000000), spool: None, terms: Terms { whole: false, most_output: None, part: None, most_slots: None, most_bytes: None, style: Style { numbers: Decimal, chars: Numbers, elements: None }, look: None, selection: None }, form: Printed { mode: Flat, faults: Text }, progress: false, subject: Named { pickle: "p", name: "T" }, over: File("f") })
map --length 0 +p f ==> Request(Request { start: Bit(0), window: Some(0), order: None, limit: Steps(1000000000), spool: None, terms: Terms { whole: false, most_output: None, part: None, most_slots: None, most_bytes: None, style: Style { numbers: Decimal, chars: Numbers, elements: None }, look: None, selection: None }, form: Printed { mode: Flat, faults: Text }, progress: false, subject: ByHead { pickle: "+p", part: Documented }, over: File("f") })
each --files0-from l +p ==> Request(Request { start: Bit(0), window: None, order: None, limit: Steps(1000000000), spool: None, terms: Terms { whole: false, most_output: None, part: None, most_slots: None, most_bytes: None, style: Style { numbers: Decimal, chars: Numbers, elements: None }, look: None, selection: None }, form: Printed { mode: Flat, faults: Text }, progress: false, subject: ByHead { pickle: "+p", part: Documented }, over: Files { names: EndedByZero("l"), flush: false } })
each --files0-from l +p - ==> Request(Request { start: Bit(0), window: None, order: None, limit: Steps(1000000000), spool: None, terms: Terms { whole: false, most_output: None, part: None, most_slots: None, most_bytes: None, style: Style { numbers: Decimal, chars: Numbers, elements: None }, look: None, selection: None }, form: Printed { mode: Flat, faults: Text }, progress: false, subject: ByHead { pickle: "+p", part: Documented }, over: Files { names: EndedByZero("l"), flush: false } })
each --inside --length 8 +p - f g ==> Request(Request { start: Bit(0), window: Some(8), order: None, limit: Steps(1000000000), spool: None, terms: Terms { whole: false, most_output: None, part: None, most_slots: None, most_bytes: None, style: Style { numbers: Decimal, chars: Numbers, elements: None }, look: None, selection: None }, form: Printed { mode: Flat, faults: Text }, progress: false, subject: ByHead { pickle: "+p", part: Inside }, over: Files { names: Words(["f", "g"]), flush: false } })
each +p f g ==> Request(Request { start: Bit(0), window: None, order: None, limit: Steps(1000000000), spool: None, terms: Terms { whole: false, most_output: None, part: None, most_slots: None, most_bytes: None, style: Style { numbers: Decimal, chars: Numbers, elements: None }, look: None, selection: None }, form: Printed { mode: Flat, faults: Text }, progress: false, subject: Named { pickle: "+p", name: "f" }, over: Files { names: Words(["g"]), flush: false } })
show f ==> Request(Request { start: Bit(0), window: None, order: None, limit: Steps(1000000000), spool: None, terms: Terms { whole: false, most_output: None, part: None, most_slots: None, most_bytes: None, style: Style { numbers: Decimal, chars: Text, elements: Some(16) }, look: None, selection: None }, form: Shown { color: Auto, depth: Some(6), numbers: None, beside: Beside { sizes: false, bytes: false } }, progress: false, subject: Identified, over: File("f") })
show - ==> Request(Request { start: Bit(0), window: None, order: None, limit: Steps(1000000000), spool: None, terms: Terms { whole: false, most_output: None, part: None, most_slots: None, most_bytes: None, style: Style { numbers: Decimal, chars: Text, elements: Some(16) }, look: None, selection: None }, form: Shown { color: Auto, depth: Some(6), numbers: None, beside: Beside { sizes: false, bytes: false } }, progress: false, subject: Identified, over: File("-") })
show +p/q ==> Request(Request { start: Bit(0), window: None, order: None, limit: Steps(1000000000), spool: None, terms: Terms { whole: false, most_output: None, part: None, most_slots: None, most_bytes: None, style: Style { numbers: Decimal, chars: Text, elements: Some(16) }, look: None, selection: None }, form: Shown { color: Auto, depth: Some(6), numbers: None, beside: Beside { sizes: false, bytes: false } }, progress: false, subject: Identified, over: File("+p/q") })
show + ==> Request(Request { start: Bit(0), window: None, order: None, limit: Steps(1000000000), spool: None, terms: Terms { whole: false, most_output: None, part: None, most_slots: None, most_bytes: None, style: Style { numbers: Decimal, chars: Text, elements: Some(16) }, look: None, selection: None }, form: Shown { color: Auto, depth: Some(6), numbers: None, beside: Beside { sizes: false, bytes: false } }, progress: false, subject: Identified, over: File("+") })
show ./+p ==> Request(Request { start: Bit(0), window: None, order: None, limit: Steps(1000000000), spool: None, terms: Terms { whole: false, most_output: None, part: None, most_slots: None, most_bytes: None, style: Style { numbers: Decimal, chars: Text, elements: Some(16) }, look: None, selection: None }, form: Shown { color: Auto, depth: Some(6), numbers: None, beside: Beside { sizes: false, bytes: false } }, progress: false, subject: Identified, over: File("./+p") })
show -- --at ==> Request(Request { start: Bit(0), window: None, order: None, limit: Steps(1000000000), spool: None, terms: Terms { whole: false, most_output: None, part: None, most_slots: None, most_bytes: None, style: Style { numbers: Decimal, chars: Text, elements: Some(16) }, look: None, selection: None }, form: Shown { color: Auto, depth: Some(6), numbers: None, beside: Beside { sizes: false, bytes: false } }, progress: false, subject: Identified, over: File("--at") })
show "" ==> Request(Request { start: Bit(0), window: None, order: None, limit: Steps(1000000000), spool: None, terms: Terms { whole: false, most_output: None, part: None, most_slots: None, most_bytes: None, style: Style { numbers: Decimal, chars: Text, elements: Some(16) }, look: None, selection: None }, form: Shown { color: Auto, depth: Some(6), numbers: None, beside: Beside { sizes: false, bytes: false } }, progress: false, subject: Identified, over: File("") })
show --at 4#b f ==> Request(Request { start: Bit(4), window: None, order: None, limit: Steps(1000000000), spool: None, terms: Terms { whole: false, most_output: None, part: None, most_slots: None, most_bytes: None, style: Style { numbers: Decimal, chars: Text, elements: Some(16) }, look: None, selection: None }, form: Shown { color: Auto, depth: Some(6), numbers: None, beside: Beside { sizes: false, bytes: false } }, progress: false, subject: Identified, over: File("f") })
show f --byte -8 --length 4 --endian little --limit 5 --spool 3 --progress ==> Request(Request { start: BytesFromEnd(8), window: Some(4), order: Some(Little), limit: Steps(5), spool: Some(3), terms: Terms { whole: false, most_output: None, part: None, most_slots: None, most_bytes: None, style: Style { numbers: Decimal, chars: Text, elements: Some(16) }, look: None, selection: None }, form: Shown { color: Auto, depth: Some(6), numbers: None, beside: Beside { sizes: false, bytes: false } }, progress: true, subject: Identified, over: File("f") })
show --whole --max-output 9 --slots 7 --get .a --elements all --depth 2 --color never f ==> Request(Request { start: Bit(0), window: None, order: None, limit: Steps(1000000000), spool: None, terms: Terms { whole: true, most_output: Some(9), part: Some(Path { steps: [Field([97])] }), most_slots: Some(7), most_bytes: None, style: Style { numbers: Decimal, chars: Text, elements: None }, look: None, selection: None }, form: Shown { color: Never, depth: Some(2), numbers: None, beside: Beside { sizes: false, bytes: false } }, progress: false, subject: Identified, over: File("f") })
identify f ==> Identify(Identification { start: Bit(0), window: None, spool: None, all: false, folder: None, faults: Text, progress: false, names: Words(["f"]), flush: false })
identify f g - ==> Identify(Identification { start: Bit(0), window: None, spool: None, all: false, folder: None, faults: Text, progress: false, names: Words(["f", "g", "-"]), flush: false })
identify -- --all ==> Identify(Identification { start: Bit(0), window: None, spool: None, all: false, folder: None, faults: Text, progress: false, names: Words(["--all"]), flush: false })
identify +png ==> Identify(Identification { start: Bit(0), window: None, spool: None, all: false, folder: None, faults: Text, progress: false, names: Words(["+png"]), flush: false })
identify --all f ==> Identify(Identification { start: Bit(0), window: None, spool: None, all: true, folder: None, faults: Text, progress: false, names: Words(["f"]), flush: false })
identify --in p/q f ==> Identify(Identification { start: Bit(0), window: None, spool: None, all: false, folder: Some("p/q"), faults: Text, progress: false, names: Words(["f"]), flush: false })
identify --in= f ==> Identify(Identification { start: Bit(0), window: None, spool: None, all: false, folder: Some(""), faults: Text, progress: false, names: Words(["f"]), flush: false })
identify --mode json f ==> Identify(Identification { start: Bit(0), window: None, spool: None, all: false, folder: None, faults: Text, progress: false, names: Words(["f"]), flush: false })
identify f --mode=text ==> Identify(Identification { start: Bit(0), window: None, spool: None, all: false, folder: None, faults: Text, progress: false, names: Words(["f"]), flush: false })
identify --byte 0x1be f ==> Identify(Identification { start: Bit(3568), window: None, spool: None, all: false, folder: None, faults: Text, progress: false, names: Words(["f"]), flush: false })
identify --byte -512 f ==> Identify(Identification { start: BytesFromEnd(512), window: None, spool: None, all: false, folder: None, faults: Text, progress: false, names: Words(["f"]), flush: false })
identify --byte=-0 f ==> Identify(Identification { start: BytesFromEnd(0), window: None, spool: None, all: false, folder: None, faults: Text, progress: false, names: Words(["f"]), flush: false })
identify --length 446 f ==> Identify(Identification { start: Bit(0), window: Some(446), spool: None, all: false, folder: None, faults: Text, progress: false, names: Words(["f"]), flush: false })
identify --length 0x0 f ==> Identify(Identification { start: Bit(0), window: Some(0), spool: None, all: false, folder: None, faults: Text, progress: false, names: Words(["f"]), flush: false })
identify --files0-from - ==> Identify(Identification { start: Bit(0), window: None, spool: None, all: false, folder: None, faults: Text, progress: false, names: EndedByZero("-"), flush: false })
identify --faults json f ==> Identify(Identification { start: Bit(0), window: None, spool: None, all: false, folder: None, faults: Json, progress: false, names: Words(["f"]), flush: false })
identify --spool 4096 f ==> Identify(Identification { start: Bit(0), window: None, spool: Some(4096), all: false, folder: None, faults: Text, progress: false, names: Words(["f"]), flush: false })
identify --spool +0 f ==> Identify(Identification { start: Bit(0), window: None, spool: Some(0), all: false, folder: None, faults: Text, progress: false, names: Words(["f"]), flush: false })
identify --flush f ==> Identify(Identification { start: Bit(0), window: None, spool: None, all: false, folder: None, faults: Text, progress: false, names: Words(["f"]), flush: true })
identify --progress f ==> Identify(Identification { start: Bit(0), window: None, spool: None, all: false, folder: None, faults: Text, progress: true, names: Words(["f"]), flush: false })
identify --why f ==> Identify(Identification { start: Bit(0), window: None, spool: None, all: false, folder: None, faults: Text, progress: false, names: Words(["f"]), flush: false })
identify --all --in d --mode json --byte 1 --length 2 --faults json --spool 3 --flush --progress --why --files0-from l ==> Identify(Identification { start: Bit(8), window: Some(2), spool: Some(3), all: true, folder: Some("d"), faults: Json, progress: true, names: EndedByZero("l"), flush: true })
map --endian little +p T f ==> Map { at: 0, order: Little, limit: 1000000000, mode: Flat, pickle: "+p", name: "T", file: "f" }
map p - f ==> Map { at: 0, order: Big, limit: 1000000000, mode: Flat, pickle: "p", name: "-", file: "f" }
map +p/q - f ==> Map { at: 0, order: Big, limit: 1000000000, mode: Flat, pickle: "+p/q", name: "-", file: "f" }
map - - f ==> Map { at: 0, order: Big, limit: 1000000000, mode: Flat, pickle: "-", name: "-", file: "f" }
bound +p 25 ==> Bound { pickle: "+p", name: "-", bits: 25 }
bound +p - 25 ==> Bound { pickle: "+p", name: "-", bits: 25 }
bound +p T 25 ==> Bound { pickle: "+p", name: "T", bits: 25 }
bound p - 25 ==> Bound { pickle: "p", name: "-", bits: 25 }
bound --text +p_-9 +25 ==> BoundText { pickle: "+p_-9", name: "-", bits: 25, mode: None, style: Style { numbers: Decimal, chars: Numbers, elements: None } }"#;

/// Arguments that aren't a job.
const WRONG: &str = r#"map --at 8 p T f ==> refused offset
map --at 18446744073709551616#b p T f ==> refused offset
dump --from 3#b f ==> refused offset
dump --size 4#b f ==> refused offset
dump --size "" f ==> refused offset
map --byte 8#b p T f ==> refused offset
map --byte 0x p T f ==> refused offset
map --byte +1 p T f ==> refused offset
map --byte --1 p T f ==> refused offset
map --byte -+1 p T f ==> refused offset
map --byte 0X10 p T f ==> refused offset
map --byte 0xfg p T f ==> refused offset
map --byte "" p T f ==> refused offset
map --byte - p T f ==> refused offset
map --byte 2305843009213693952 p T f ==> refused offset
each --byte -2305843009213693952 p T f ==> refused offset
records --byte 2305843009213693952 p T f ==> refused offset
dump -s 1#B f ==> refused offset
map --length 1#B p T f ==> refused offset
map --length -1 p T f ==> usage
each --length 0x p T f ==> refused offset
show --length 2305843009213693952 +p f ==> refused offset
dump -n -1 f ==> usage
dump -s 0 --from 0#B f ==> usage
dump -n 1 --size 1#B f ==> usage
bound --tight --text p T 25 ==> usage
records --mode raw p T f ==> usage
map --mode raw --absent empty --get .a p T f ==> usage
map --absent skip --get .a p T f ==> usage
map --absent skip --get .a --get .b p T f ==> usage
map --absent skip p T f ==> usage
records --absent skip p T f ==> usage
find --absent skip --header p T f ==> usage
each --absent skip --get .a --get .b p T f ==> usage
show --absent skip --get .a p T f ==> usage
map --mode raw --get .a --get .b p T f ==> usage
map --mode raw --get .* p T f ==> usage
map --mode raw --rows . --get .a p T f ==> usage
map --at 0#b --byte 0 p T f ==> usage
map --limit 18446744073709551616 p T f ==> usage
map --limit ++5 p T f ==> usage
map --limit + p T f ==> usage
map --limit +-5 p T f ==> usage
map --max-output ++5 p T f ==> usage
map --slots + p T f ==> usage
map --memory + p T f ==> usage
map --memory 18446744073709551616 p T f ==> usage
show --memory 0x5 p T f ==> usage
each --memory -1 p T f ==> usage
map --memory 5 --memory 5 p T f ==> usage
map --memory 5 --slots 5 p T f ==> usage
show --slots 5 --memory 5 p T f ==> usage
show --slots 5 --memory 5 f ==> usage
each --memory 5 --slots 5 p T f g ==> usage
records --memory 5 --slots 5 p T f ==> usage
records --memory -1 p T f ==> usage
find --slots 5 --memory 5 p T f ==> usage
find --memory 0x5 p T f ==> usage
find --memory 5 --slots 5 f ==> usage
identify --memory 5 f ==> usage
bound --memory 5 p T 25 ==> usage
map --spool +0x5 p T f ==> usage
bound p T ++5 ==> usage
bound p T + ==> usage
bound p T +18446744073709551616 ==> usage
map --elements -1 p T f ==> usage
map --elements ++1 p T f ==> usage
map --elements + p T f ==> usage
map --elements +all p T f ==> usage
show --depth ++1 p T f ==> usage
map --elements ALL p T f ==> usage
map --elements 18446744073709551616 p T f ==> usage
map --numbers octal p T f ==> usage
map --chars hex p T f ==> usage
map --flush p T f ==> usage
map --faults xml p T f ==> usage
show --faults json p T f ==> usage
check --faults json p ==> usage
bound --numbers hex p T 25 ==> usage
bound --chars text p T 25 ==> usage
bound --elements all p T 25 ==> usage
bound --text --numbers octal p T 25 ==> usage
bound --text --elements ++1 p T 25 ==> usage
map --at 8 --limit x p T f ==> usage
map --at -1#b p T f ==> usage
map --rows . --get [:3] p T f ==> usage
map --rows . p T f ==> usage
map --header --get .a p T f ==> usage
types --depth 2 p ==> usage
types --parts T --depth two p ==> usage
types --parts T --parts U p ==> usage
types --parts ==> usage
each --get .a[*] p T f ==> usage
records p T ==> usage
records p T f g ==> usage
records --whole p T f ==> usage
records --count x p T f ==> usage
records --omit -1 p T f ==> usage
records --of a p T f ==> usage
records --resume 8#b p T f ==> usage
records --header --mode json p T f ==> usage
find --header --mode json p T f ==> usage
each --mode json --get .a --get .b --get .a p T f ==> usage
find --mode json --get a=.a --get a=.b p T f ==> usage
map --mode json --rows . --get .a --get .a p T f ==> usage
records --get =.a p T f ==> usage
records --get n p T f ==> usage
records --get n=a p T f ==> usage
records --at 1#B --byte 1 p T f ==> usage
find p f ==> usage
find +p ==> usage
find --get .a f ==> usage
find p T f g ==> usage
find --step 0#b p T f ==> usage
find --step 0#B +p f ==> usage
find --step 2 p T f ==> refused offset
records --of .a --resume 8 p T f ==> refused offset
find --count x p T f ==> usage
find --attempt-limit -1 p T f ==> usage
find --mode tree p T f ==> usage
find --inside +p f ==> usage
find --at 1#B --byte 1 p T f ==> usage
records --inside +p T f ==> usage
show --rows [*] --get .b p T f ==> usage
show --numbers x p T f ==> usage
map --at 1#b --at 1#b p T f ==> usage
map --endian middle p T f ==> usage
map --mode leaf p T f ==> usage
map --max-output -1 p T f ==> usage
map --whole --whole p T f ==> usage
map --get a p T f ==> usage
map --at 8 --get a p T f ==> usage
show --at 8 --get a p T f ==> usage
show --at 8 --depth x p T f ==> usage
show --at 8 --elements x p T f ==> usage
each --at 8 --get a p T f ==> usage
each --byte x --elements x p T f ==> usage
map --color p T f ==> usage
map p T ==> usage
map +p ==> usage
map + ==> usage
map + f ==> usage
map ++p f ==> usage
map +p/q f ==> usage
map p f ==> usage
show +p ==> usage
show p f ==> usage
show ==> usage
show --depth 2 ==> usage
show --inside f ==> usage
show --inside - ==> usage
show --at 0#b --byte 0 f ==> usage
show --get a f ==> usage
show --limit x f ==> usage
show --at 8 --limit x f ==> usage
show --at 8 f ==> refused offset
show --byte x f ==> refused offset
show --length 1#B f ==> refused offset
map f ==> usage
map - ==> usage
each f ==> usage
bound 25 ==> usage
each +p ==> usage
each +p f ==> usage
identify ==> usage
identify --all ==> usage
identify --files0-from l f ==> usage
identify --at 0#b f ==> usage
identify --endian big f ==> usage
identify --inside f ==> usage
identify --mode flat f ==> usage
identify --faults xml f ==> usage
identify --in ==> usage
identify --in a --in b f ==> usage
identify --all --all f ==> usage
identify --byte 0 --byte 0 f ==> usage
identify --spool x f ==> usage
identify --spool 18446744073709551616 f ==> usage
identify --length -1 f ==> usage
identify --byte x --spool x f ==> usage
identify --byte x ==> usage
identify --byte 1#B f ==> refused offset
identify --byte - f ==> refused offset
identify --byte 2305843009213693952 f ==> refused offset
identify --length 1#B f ==> refused offset
identify --length 2305843009213693952 f ==> refused offset
identify --length "" --files0-from l ==> refused offset
map --all p T f ==> usage
each --in d p T f ==> usage
each --files0-from l p ==> usage
each --files0-from l +p - f ==> usage
each --files0-from l ==> usage
map --inside p T f ==> usage
map --inside +p T f ==> usage
map --inside p - f ==> usage
show --inside +p ==> usage
each --inside --files0-from l +p T ==> usage
map --inside --inside +p f ==> usage
map +p - f g ==> usage
map +p f --header ==> usage
bound +p ==> usage
bound +p T ==> usage
bound +p - ==> usage
bound p 25 ==> usage
bound +p x25 ==> usage
bound +p 18446744073709551616 ==> usage
bound +p 25 --mode tree ==> usage
bound --inside +p 25 ==> usage
dump --inside f ==> usage
show --at 0#b --byte 0 +p f ==> usage
map p T f g ==> usage
bound p T ==> usage
bound p T -1 ==> usage
bound --mode tree p T 25 ==> usage
bound --text --mode leaf p T 25 ==> usage
dump --no-ruler --no-ruler f ==> usage
check ==> usage
types ==> usage
types p T ==> usage
formats p ==> usage
formats --mode flat ==> usage
chec p ==> usage
- ==> usage
"" ==> usage"#;

/// Arguments that request help, and parts of its text.
const HELP: &str = "\
    --help ==> Exit status: & [default: 1000000000] & Example:\n\
    -h ==> Usage: & map & dump & +NAME\n\
    help --help ==> Exit status: & [default: 1000000000] & Example:\n\
    help bound -h ==> Exit status: & BITS & Example:\n\
    identify --help ==> Usage: poke_batch identify & --all & --in <FOLDER> & Exit status: & Examples:\n\
    identify -h ==> --files0-from <PATH> & --byte <N>\n\
    show --help ==> Usage: poke_batch show [OPTIONS] [PICKLE [TYPE]] <FILE> & Exit status: & Examples:\n\
    map --help ==> Usage: poke_batch map & [default: 0#b] & [default: big, without TYPE that of the head]\n\
    bound --help ==> Exit status: & BITS & Example:\n\
    check --help ==> Exit status: & PICKLE & Example:\n\
    dump --help ==> Exit status: & [default: 0#B] & [default: 128#B]";

fn words_of(alloc: Global, text: &str) -> Result<Vec<String>, Fail> {
    let mut words = Vec::new(alloc);
    for word in text.split_ascii_whitespace() {
        let word = if word == "\"\"" { "" } else { word };
        words.push(String::from_utf8(bytes_of(alloc, word)?)?)?;
    }
    Ok(words)
}

/// The job, the fault, or `usage` for a usage error.
fn answer(alloc: Global, words: &str) -> Result<String, Fail> {
    match read_words(alloc, words_of(alloc, words)?) {
        Ok(job) => Ok(format!(in alloc; "{job:?}")?),
        Err(WordFault::Usage(text)) => {
            let told = if text.is_empty() { "no usage" } else { "usage" };
            Ok(String::from_str(alloc, told)?)
        }
        Err(fault) => Ok(format!(in alloc; "{fault}")?),
    }
}

#[test]
fn reads_jobs_or_refuses_words(rt: HostRuntime) -> Result<(), Fail> {
    for table in [JOBS, WRONG] {
        for line in table.lines() {
            let (words, told) = line.split_once(" ==> ").ok_or("no arrow")?;
            let found = answer(rt.alloc(), words)?;
            same_text(found.as_str(), told, line)?;
        }
    }
    Ok(())
}

/// Those of the parts that a text lacks.
fn lacked_parts(alloc: Global, text: &str, parts: &str) -> Result<String, Fail> {
    let mut lacked = String::new(alloc);
    for part in parts.split(" & ") {
        if text.find(part).is_none() {
            lacked.push_str(part)?;
        }
    }
    Ok(lacked)
}

#[test]
fn helps(rt: HostRuntime) -> Result<(), Fail> {
    let alloc = rt.alloc();
    for line in HELP.lines() {
        let (words, parts) = line.split_once(" ==> ").ok_or("no arrow")?;
        let Err(WordFault::Help(text)) = read_words(alloc, words_of(alloc, words)?) else {
            return Err(Fail::from("no help"));
        };
        let lacked = lacked_parts(alloc, text.as_str(), parts)?;
        same_text(lacked.as_str(), "", line)?;
    }
    Ok(())
}
