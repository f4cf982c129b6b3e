//! What to write instead of what GNU poke or C has and a pickle of this program doesn't.

use crate::expected::Expected;
use crate::pattern::{Around, Pattern, is_reserved};

/// What to write for an enumeration.
const ENUM: &str =
    "enumerations are left out: write an integer with a constraint, as `byte kind : kind == 1 || kind == 2;`";

/// What to write for a line of C's preprocessor.
const PREPROCESSOR: &str = "there is no preprocessor: leave out this line";

/// What to write for a statement.
const STATEMENT: &str = "statements are left out: a pickle declares types alone";

/// What to write for the declarations of another file.
const LOAD: &str =
    "`$3` is left out: copy the declarations of that pickle to the front of this one";

/// What a name of a unit may be.
const UNITS: &str =
    "units are `b`, `B` and whole numbers of bits: 1 KB is 8000, 1 KiB 8192, 1 MB 8000000, 1 MiB 8388608";

/// What to write for a `;` that ends nothing.
const SEMICOLON: &str = "leave out this `;`";

/// How a comment is written.
const COMMENTS: &str = "comments are `/* .. */`, or `//` up to the end of the line";

/// Where a declaration begins: other files, and types without `type`.
static TYPE_STARTS: [Pattern; 9] = [
    Pattern {
        tokens: [b"", b"", b"load", b"", b"", b""],
        help: LOAD,
    },
    Pattern {
        tokens: [b"", b"", b"import", b"", b"", b""],
        help: LOAD,
    },
    Pattern {
        tokens: [b"", b"", b"include", b"", b"", b""],
        help: LOAD,
    },
    Pattern {
        tokens: [b"", b"", b"struct", b"NAME", b"{", b""],
        help: "write `type $4 = struct { .. };`",
    },
    Pattern {
        tokens: [b"", b"", b"union", b"NAME", b"{", b""],
        help: "write `type $4 = union { .. };`",
    },
    Pattern {
        tokens: [b"", b"", b"struct", b"", b"", b""],
        help: "write `type NAME = struct { .. };`",
    },
    Pattern {
        tokens: [b"", b"", b"union", b"", b"", b""],
        help: "write `type NAME = union { .. };`",
    },
    Pattern {
        tokens: [b"", b"", b"pinned", b"", b"", b""],
        help: "write `type NAME = pinned struct { .. };`",
    },
    Pattern {
        tokens: [b"", b"", b"{", b"", b"", b""],
        help: "write `type NAME = struct { .. };`",
    },
];

/// The same: declarations as in C, and signs that begin nothing.
static TYPEDEFS: [Pattern; 6] = [
    Pattern {
        tokens: [b"", b"", b"typedef", b"struct", b"", b""],
        help: "write `type NAME = struct { .. };`",
    },
    Pattern {
        tokens: [b"", b"", b"typedef", b"NAME", b"NAME", b";"],
        help: "write `type $5 = $4;`",
    },
    Pattern {
        tokens: [b"", b"", b"typedef", b"", b"", b""],
        help: "write `type NAME = TYPE;`",
    },
    Pattern {
        tokens: [b"", b"", b"enum", b"", b"", b""],
        help: ENUM,
    },
    Pattern {
        tokens: [b"", b"", b"}", b"", b"", b""],
        help: "this brace closes nothing",
    },
    Pattern {
        tokens: [b"", b"", b";", b"", b"", b""],
        help: SEMICOLON,
    },
];

/// The same: lines of C's preprocessor.
static DIRECTIVES: [Pattern; 8] = [
    Pattern {
        tokens: [b"", b"", b"#", b"define", b"", b""],
        help: "there is no `#define`: leave out this line, and write the number where `$5` is used",
    },
    Pattern {
        tokens: [b"", b"", b"#", b"include", b"", b""],
        help: "there is no `#include`: leave out this line, and copy the declarations of that file to its place",
    },
    Pattern {
        tokens: [b"", b"", b"#", b"if", b"", b""],
        help: PREPROCESSOR,
    },
    Pattern {
        tokens: [b"", b"", b"#", b"ifdef", b"", b""],
        help: PREPROCESSOR,
    },
    Pattern {
        tokens: [b"", b"", b"#", b"ifndef", b"", b""],
        help: PREPROCESSOR,
    },
    Pattern {
        tokens: [b"", b"", b"#", b"endif", b"", b""],
        help: PREPROCESSOR,
    },
    Pattern {
        tokens: [b"", b"", b"#", b"pragma", b"", b""],
        help: PREPROCESSOR,
    },
    Pattern {
        tokens: [b"", b"", b"#", b"", b"", b""],
        help: COMMENTS,
    },
];

/// Patterns for the first word of a declaration or field, instead of the refused token: words of GNU poke.
static POKE_OPENINGS: [Pattern; 8] = [
    Pattern {
        tokens: [b"", b"", b"var", b"NAME", b"=", b""],
        help: "variables are left out: write the value where `$0` is used",
    },
    Pattern {
        tokens: [b"", b"", b"var", b"", b"", b""],
        help: "variables are left out: write their value where it is used",
    },
    Pattern {
        tokens: [b"", b"", b"fun", b"", b"", b""],
        help: "functions are left out: write the expression where it is used",
    },
    Pattern {
        tokens: [b"", b"", b"method", b"", b"", b""],
        help: "methods are left out, and there is nothing like them: a pickle says only where values are",
    },
    Pattern {
        tokens: [b"", b"", b"computed", b"", b"", b""],
        help: "computed fields are left out: write the expression where the field is used",
    },
    Pattern {
        tokens: [b"", b"", b"assert", b"", b"", b""],
        help: "`assert` is left out: write a constraint after a field's name, as `byte b : b > a;`",
    },
    Pattern {
        tokens: [b"", b"", b"unit", b"", b"", b""],
        help: "`unit` declarations are left out: write a unit as its number of bits, as in `offset<uint<32>,4096>`",
    },
    Pattern {
        tokens: [b"", b"", b"immutable", b"", b"", b""],
        help: "`immutable` is left out: there is nothing like it",
    },
];

/// The same: words of C before a type, and conditions.
static C_OPENINGS: [Pattern; 5] = [
    Pattern {
        tokens: [b"", b"", b"const", b"", b"", b""],
        help: "there are no constants: write the number where it is used",
    },
    Pattern {
        tokens: [b"", b"", b"volatile", b"", b"", b""],
        help: "leave out `volatile`",
    },
    Pattern {
        tokens: [b"", b"", b"static", b"", b"", b""],
        help: "leave out `static`",
    },
    Pattern {
        tokens: [b"", b"", b"enum", b"", b"", b""],
        help: ENUM,
    },
    Pattern {
        tokens: [b"", b"", b"if", b"", b"", b""],
        help: "a condition comes after its field: `TYPE NAME if CONDITION;`",
    },
];

/// The same: integer types of C.
static C_INTEGERS: [Pattern; 13] = [
    Pattern {
        tokens: [b"", b"", b"unsigned", b"char", b"", b""],
        help: "write `uint<8>`",
    },
    Pattern {
        tokens: [b"", b"", b"unsigned", b"short", b"", b""],
        help: "write `uint<16>`",
    },
    Pattern {
        tokens: [b"", b"", b"unsigned", b"int", b"", b""],
        help: "write `uint<32>`",
    },
    Pattern {
        tokens: [b"", b"", b"unsigned", b"long", b"", b""],
        help: "write `uint<64>`",
    },
    Pattern {
        tokens: [b"", b"", b"signed", b"char", b"", b""],
        help: "write `int<8>`",
    },
    Pattern {
        tokens: [b"", b"", b"signed", b"short", b"", b""],
        help: "write `int<16>`",
    },
    Pattern {
        tokens: [b"", b"", b"signed", b"int", b"", b""],
        help: "write `int<32>`",
    },
    Pattern {
        tokens: [b"", b"", b"signed", b"long", b"", b""],
        help: "write `int<64>`",
    },
    Pattern {
        tokens: [b"", b"", b"unsigned", b"", b"", b""],
        help: "write the integer type alone, as `uint<32>` or `int<32>`",
    },
    Pattern {
        tokens: [b"", b"", b"signed", b"", b"", b""],
        help: "write the integer type alone, as `uint<32>` or `int<32>`",
    },
    Pattern {
        tokens: [b"", b"", b"long", b"long", b"NAME", b""],
        help: "write `int<64>`",
    },
    Pattern {
        tokens: [b"", b"", b"long", b"int", b"NAME", b""],
        help: "write `int<64>`",
    },
    Pattern {
        tokens: [b"", b"", b"short", b"int", b"NAME", b""],
        help: "write `int<16>`",
    },
];

/// The same: statements.
static STATEMENTS: [Pattern; 10] = [
    Pattern {
        tokens: [b"", b"", b"for", b"", b"", b""],
        help: STATEMENT,
    },
    Pattern {
        tokens: [b"", b"", b"while", b"", b"", b""],
        help: STATEMENT,
    },
    Pattern {
        tokens: [b"", b"", b"return", b"", b"", b""],
        help: STATEMENT,
    },
    Pattern {
        tokens: [b"", b"", b"print", b"", b"", b""],
        help: STATEMENT,
    },
    Pattern {
        tokens: [b"", b"", b"printf", b"", b"", b""],
        help: STATEMENT,
    },
    Pattern {
        tokens: [b"", b"", b"try", b"", b"", b""],
        help: STATEMENT,
    },
    Pattern {
        tokens: [b"", b"", b"raise", b"", b"", b""],
        help: STATEMENT,
    },
    Pattern {
        tokens: [b"", b"", b"until", b"", b"", b""],
        help: STATEMENT,
    },
    Pattern {
        tokens: [b"", b"", b"else", b"", b"", b""],
        help: STATEMENT,
    },
    Pattern {
        tokens: [b"", b"", b"switch", b"", b"", b""],
        help: STATEMENT,
    },
];

/// Tokens in a row, wherever they are: byte orders, products in types, and reserved words as names.
static ORDERS: [Pattern; 9] = [
    Pattern {
        tokens: [b"ORDER", b"endian", b"INTEGER", b"", b"", b""],
        help: "leave out `endian`: write `$1 $9`",
    },
    Pattern {
        tokens: [b"endian", b"NAME", b"NAME", b"", b"", b""],
        help: "leave out `endian`: a byte order is `big` or `little` alone",
    },
    Pattern {
        tokens: [b"", b"ORDER", b"-", b"endian", b"", b""],
        help: "leave out `-endian`: write `$2` alone",
    },
    Pattern {
        tokens: [b"", b"le", b"INTEGER", b"", b"", b""],
        help: "write `little $9`",
    },
    Pattern {
        tokens: [b"", b"be", b"INTEGER", b"", b"", b""],
        help: "write `big $9`",
    },
    Pattern {
        tokens: [b"INTEGER", b"NUMBER", b"*", b"NUMBER", b">", b""],
        help: "write the product as one number: the width in bits",
    },
    Pattern {
        tokens: [b",", b"NUMBER", b"*", b"NUMBER", b">", b""],
        help: "write the product as one number: the unit in bits",
    },
    Pattern {
        tokens: [b"OPEN", b"TYPE", b"RESERVED", b";", b"", b""],
        help: RESERVED_NAME,
    },
    Pattern {
        tokens: [b"TYPE", b"if", b";", b"", b"", b""],
        help: "`if` is a word of the language: choose another name for this field",
    },
];

/// The same: operators that are words.
static OPERATOR_WORDS: [Pattern; 10] = [
    Pattern {
        tokens: [b"APART", b"NAME", b"in", b"[", b"", b","],
        help: "`in` is left out: write `($2 == $5 || $2 == $7)`, and so on",
    },
    Pattern {
        tokens: [b"APART", b"NAME", b"in", b"[", b"", b"]"],
        help: "`in` is left out: write `$2 == $5`",
    },
    Pattern {
        tokens: [b"", b"", b"in", b"", b"", b""],
        help: "`in` is left out: write `(x == 1 || x == 2)`",
    },
    Pattern {
        tokens: [b"", b"", b"isa", b"", b"", b""],
        help: "`isa` is left out, and there is nothing like it",
    },
    Pattern {
        tokens: [b"", b"", b"and", b"", b"", b""],
        help: "write `&&`",
    },
    Pattern {
        tokens: [b"", b"", b"or", b"", b"", b""],
        help: "write `||`",
    },
    Pattern {
        tokens: [b"", b"", b"mod", b"", b"", b""],
        help: "write `%`",
    },
    Pattern {
        tokens: [b"", b"", b"not", b"", b"", b""],
        help: "write `!`",
    },
    Pattern {
        tokens: [b"", b"not", b"NAME", b"", b"", b""],
        help: "write `!$3`",
    },
    Pattern {
        tokens: [b"", b"not", b"", b"", b"", b""],
        help: "write `!(..)` for `not`",
    },
];

/// The same: statements, and operators that are left out.
static OPERATORS: [Pattern; 12] = [
    Pattern {
        tokens: [b"", b"", b"else", b"", b"", b""],
        help: STATEMENT,
    },
    Pattern {
        tokens: [b"", b"", b"for", b"", b"", b""],
        help: STATEMENT,
    },
    Pattern {
        tokens: [b"", b"", b"while", b"", b"", b""],
        help: STATEMENT,
    },
    Pattern {
        tokens: [b"", b"", b"unmap", b"", b"", b""],
        help: "it is left out: write a constraint after the field's name, as `byte b : b > 1;`",
    },
    Pattern {
        tokens: [b"", b"", b"where", b"", b"", b""],
        help: "it is left out: write a constraint after the field's name, as `byte b : b > 1;`",
    },
    Pattern {
        tokens: [b"", b"*", b"*", b"", b"", b""],
        help: "`**` is left out: write the product, or `1 << n` for powers of 2",
    },
    Pattern {
        tokens: [b"", b"/", b"^", b"", b"", b""],
        help: "`/^` is left out: write `(a + b - 1) / b`",
    },
    Pattern {
        tokens: [b"", b"<<", b".", b"", b"", b""],
        help: "write `<<`",
    },
    Pattern {
        tokens: [b"", b".", b">>", b"", b"", b""],
        help: "write `>>`",
    },
    Pattern {
        tokens: [b"", b"<", b">", b"", b"", b""],
        help: "write `!=`",
    },
    Pattern {
        tokens: [b"", b"sizeof", b"(", b"NAME", b")", b""],
        help: "`sizeof` is left out: for a field write `$4'size`, for a type its number of bits, as in `64#b`",
    },
    Pattern {
        tokens: [b"", b"sizeof", b"(", b"", b"", b""],
        help: "`sizeof` is left out: for a field write `NAME'size`, for a type its number of bits, as in `64#b`",
    },
];

/// The same: words before a type.
static TYPE_WORDS: [Pattern; 10] = [
    Pattern {
        tokens: [b"", b"type", b"=", b"", b"", b""],
        help: "write `type NAME = TYPE;`",
    },
    Pattern {
        tokens: [b"type", b"NAME", b"{", b"", b"", b""],
        help: "write `type $2 = struct { .. };`",
    },
    Pattern {
        tokens: [b"type", b"NAME", b"", b"", b"", b""],
        help: "write `type $2 = TYPE;`",
    },
    Pattern {
        tokens: [b"", b"enum", b"", b"", b"", b""],
        help: ENUM,
    },
    Pattern {
        tokens: [b"enum", b"", b"", b"", b"", b""],
        help: ENUM,
    },
    Pattern {
        tokens: [b"", b"packed", b"struct", b"", b"", b""],
        help: "leave out `packed`: nothing is aligned",
    },
    Pattern {
        tokens: [b"", b"struct", b"[", b"", b"", b""],
        help: "write `struct { .. }`, with braces",
    },
    Pattern {
        tokens: [b"", b"struct", b"(", b"", b"", b""],
        help: "write `struct { .. }`, with braces",
    },
    Pattern {
        tokens: [b"", b"union", b"[", b"", b"", b""],
        help: "write `union { .. }`, with braces",
    },
    Pattern {
        tokens: [b"", b"union", b"(", b"", b"", b""],
        help: "write `union { .. }`, with braces",
    },
];

/// The same: structs and unions with a name.
static TYPE_NAMES: [Pattern; 6] = [
    Pattern {
        tokens: [b"struct", b"NAME", b"[", b"", b"", b""],
        help: "write `struct { .. }`, or for one integer that is cut into fields `struct uint<32> { .. }`",
    },
    Pattern {
        tokens: [b"struct", b"NAME", b"NAME", b"", b"", b""],
        help: "leave out `struct`: write `$2 $3`",
    },
    Pattern {
        tokens: [b"struct", b"NAME", b"*", b"", b"", b""],
        help: POINTER,
    },
    Pattern {
        tokens: [b"", b"union", b"NAME", b"{", b"", b""],
        help: "write `union { .. }`, without the name: a field's name comes after the brace, as `union { .. } x;`",
    },
    Pattern {
        tokens: [b"", b"union", b"NAME", b"NAME", b"", b""],
        help: "leave out `union`: write `$3 $4`",
    },
    Pattern {
        tokens: [b"", b"union", b"INTEGER", b"", b"", b""],
        help: "a union is no integer: write `union { .. }`",
    },
];

/// The same: widths, bounds and fractions.
static WIDTHS: [Pattern; 9] = [
    Pattern {
        tokens: [b"", b"INTEGER", b"NAME", b">", b"", b""],
        help: "a width is a number, as in `uint<8>`; a number of elements may be a field, as in `byte[$3]`",
    },
    Pattern {
        tokens: [b"INTEGER", b"NUMBER", b">=", b"=", b"", b""],
        help: "separate the signs by a blank: write `$1$2> ==`",
    },
    Pattern {
        tokens: [b"INTEGER", b"NUMBER", b"NAME", b"", b"", b""],
        help: "is a `>` missing after `$2`?",
    },
    Pattern {
        tokens: [b"", b"bit", b"<", b"NUMBER", b">", b""],
        help: "write `uint<$4>`",
    },
    Pattern {
        tokens: [b"", b"bits", b"<", b"NUMBER", b">", b""],
        help: "write `uint<$4>`",
    },
    Pattern {
        tokens: [b"", b"string", b"<", b"NUMBER", b">", b""],
        help: "write `char[$4]`",
    },
    Pattern {
        tokens: [b"", b"[", b"*", b"]", b"", b""],
        help: "write `[]` for as many elements as there are",
    },
    Pattern {
        tokens: [b"", b"[", b".", b"", b"", b""],
        help: "write `[]` for as many elements as there are",
    },
    Pattern {
        tokens: [b"NUMBER", b".", b"NUMBER", b"", b"", b""],
        help: "there are no fractions: write whole numbers",
    },
];

/// The same: types after their names.
static TYPES_LAST: [Pattern; 9] = [
    Pattern {
        tokens: [b"OPEN", b"NAME", b"INTEGER", b"NUMBER", b">", b";"],
        help: "the type comes before the name: write `$9 $2;`",
    },
    Pattern {
        tokens: [b"OPEN", b"NAME", b"string", b";", b"", b""],
        help: "the type comes before the name: write `$9 $2;`",
    },
    Pattern {
        tokens: [b"NAME", b":", b"INTEGER", b"NUMBER", b">", b";"],
        help: "the type comes before the name: write `$9 $1;`",
    },
    Pattern {
        tokens: [b"int", b":", b"int<", b"NUMBER", b"", b""],
        help: "to compare `int` write `int < $4`, with a blank",
    },
    Pattern {
        tokens: [b"uint", b":", b"uint<", b"NUMBER", b"", b""],
        help: "to compare `uint` write `uint < $4`, with a blank",
    },
    Pattern {
        tokens: [b"NAME", b":", b"INTEGER", b"NUMBER", b";", b""],
        help: "the type comes before the name, with a `>` at its end: write `$3$4> $1;`",
    },
    Pattern {
        tokens: [b"NAME", b":", b"string", b";", b"", b""],
        help: "the type comes before the name: write `$9 $1;`",
    },
    Pattern {
        tokens: [b"NAME", b"=", b"ORDER", b"", b"", b""],
        help: "a declared type has no byte order: leave out `$3`, and write it where the type is used, as `$3 $1 x;`",
    },
    Pattern {
        tokens: [b"OPEN", b"NAME", b"=", b"", b"", b""],
        help: "computed fields are left out: write the expression where `$2` is used",
    },
];

/// The same: two suffixes, and units.
static UNIT_NAMES: [Pattern; 9] = [
    Pattern {
        tokens: [b"", b"]", b"[", b"", b"", b""],
        help: "a type has one array suffix: declare the inner array, as `type Row = byte[4];`, and write `Row[2]`",
    },
    Pattern {
        tokens: [b"", b"<", b"<", b"", b"", b""],
        help: "write a width as a number, as in `uint<8>`",
    },
    Pattern {
        tokens: [b"", b"#", b"byte", b"", b"", b""],
        help: "write `#B` for bytes",
    },
    Pattern {
        tokens: [b"", b"#", b"bytes", b"", b"", b""],
        help: "write `#B` for bytes",
    },
    Pattern {
        tokens: [b"", b"#", b"bit", b"", b"", b""],
        help: "write `#b` for bits",
    },
    Pattern {
        tokens: [b"", b"#", b"bits", b"", b"", b""],
        help: "write `#b` for bits",
    },
    Pattern {
        tokens: [b"", b"#", b"NAME", b"", b"", b""],
        help: UNITS,
    },
    Pattern {
        tokens: [b"", b",", b"NAME", b"", b"", b""],
        help: UNITS,
    },
    Pattern {
        tokens: [b"@", b"NUMBER", b"B", b"", b"", b""],
        help: "write `$2#B`",
    },
];

/// What to write for a field whose name is reserved.
const RESERVED_NAME: &str = "`$3` is a word of the language: choose another name for this field";

/// What to write for a pointer.
const POINTER: &str =
    "there are no pointers: write the place as an integer, as `uint<32> at;`, and what is there after it, as `byte x @ at#B;`";

/// Patterns for a refused token where an operand belongs.
static VALUES: [Pattern; 15] = [
    Pattern {
        tokens: [b"", b"", b"#", b"", b"", b""],
        help: "an offset has a magnitude: write `1#B`",
    },
    Pattern {
        tokens: [b"", b"", b"[", b"", b"", b""],
        help: "array literals are left out, and there is nothing like them: compare the elements one by one, as `a[0] == 1 && a[1] == 2`",
    },
    Pattern {
        tokens: [b"", b":", b":", b"", b"", b""],
        help: "leave out this `:`",
    },
    Pattern {
        tokens: [b"", b"", b"=", b"", b"", b""],
        help: "to compare write `==`",
    },
    Pattern {
        tokens: [b"", b"", b"&", b"", b"", b""],
        help: "nothing has an address here",
    },
    Pattern {
        tokens: [b"", b"", b".", b"", b"", b""],
        help: "a path begins with the name of a field",
    },
    Pattern {
        tokens: [b"", b"", b"'length", b"", b"", b""],
        help: "a path begins with the name of a field",
    },
    Pattern {
        tokens: [b"", b"", b"'size", b"", b"", b""],
        help: "a path begins with the name of a field",
    },
    Pattern {
        tokens: [b"", b"", b"INTEGER", b"", b"", b""],
        help: CONVERT,
    },
    Pattern {
        tokens: [b"", b"", b"offset<", b"", b"", b""],
        help: CONVERT,
    },
    Pattern {
        tokens: [b"", b"", b"struct", b"", b"", b""],
        help: CONVERT,
    },
    Pattern {
        tokens: [b"", b"", b"union", b"", b"", b""],
        help: CONVERT,
    },
    Pattern {
        tokens: [b"", b"", b"string", b"", b"", b""],
        help: CONVERT,
    },
    Pattern {
        tokens: [b"", b"", b"type", b"", b"", b""],
        help: TYPE_INSIDE,
    },
    Pattern {
        tokens: [b"", b"", b"RESERVED", b"", b"", b""],
        help: NO_NAME,
    },
];

/// What to write for a conversion as in C.
const CONVERT: &str = "a type comes after `as`: `x as uint<16>`";

/// What to write for `type` inside a type.
const TYPE_INSIDE: &str = "`type` is a reserved word; types are declared outside of other types";

/// What to write for a reserved word.
const NO_NAME: &str = "`$3` is a reserved word, and no name: choose another, as `$3_`";

/// Patterns for a refused token after an operand.
static OPERANDS: [Pattern; 9] = [
    Pattern {
        tokens: [b"", b"", b"=", b">", b"", b""],
        help: "`=>` is left out: write `!a || b`",
    },
    Pattern {
        tokens: [b"APART", b"NAME", b":", b":", b":", b"NAME"],
        help: "`:::` is left out: for two bytes write `($2 as uint<16> << 8 | $6)`",
    },
    Pattern {
        tokens: [b"APART", b"NAME", b":", b":", b"NAME", b""],
        help: "there is no `::`: for two bytes in a row write `($2 as uint<16> << 8 | $5)`",
    },
    Pattern {
        tokens: [b"", b"", b":", b":", b"", b""],
        help: "`:::` is left out: for two bytes write `(a as uint<16> << 8 | b)`",
    },
    Pattern {
        tokens: [b"", b"", b"=", b"", b"", b""],
        help: "to compare write `==`",
    },
    Pattern {
        tokens: [b"", b"", b"(", b"", b"", b""],
        help: "functions are left out: nothing is called",
    },
    Pattern {
        tokens: [b"", b"", b"{", b"", b"", b""],
        help: "struct literals are left out, and there is nothing like them: compare the fields one by one",
    },
    Pattern {
        tokens: [b"", b"", b":", b"", b"", b""],
        help: "trimming an array is left out, and there is nothing like it; in a choice write `c ? x : y`",
    },
    Pattern {
        tokens: [b"", b"", b"!", b"", b"", b""],
        help: "write `!=`, or `!(..)` before the operand",
    },
];

/// Patterns for a refused token after a type or a name, or where one belongs: values, constraints and bounds.
static FORMS: [Pattern; 10] = [
    Pattern {
        tokens: [b"", b"", b"#", b"", b"", b""],
        help: COMMENTS,
    },
    Pattern {
        tokens: [b"", b"}", b"__attribute__", b"", b"", b""],
        help: "leave it out: there are no gaps between fields",
    },
    Pattern {
        tokens: [b"", b"NAME", b"=", b"", b";", b""],
        help: "initial values are left out: write the value as a constraint, as `$8 : $2 == $4;`",
    },
    Pattern {
        tokens: [b"", b"", b"=", b"", b"", b""],
        help: "initial values are left out: write the value as a constraint, as `byte b : b == 1;`",
    },
    Pattern {
        tokens: [b"", b"NAME", b"==", b"", b"", b""],
        help: CONSTRAINT,
    },
    Pattern {
        tokens: [b"", b"NAME", b"!=", b"", b"", b""],
        help: CONSTRAINT,
    },
    Pattern {
        tokens: [b"", b"NAME", b"<=", b"", b"", b""],
        help: CONSTRAINT,
    },
    Pattern {
        tokens: [b"", b"NAME", b">=", b"", b"", b""],
        help: CONSTRAINT,
    },
    Pattern {
        tokens: [b"NAME", b"NAME", b"[", b"", b"]", b""],
        help: "the bound comes after the type: write `$1[$4] $2`",
    },
    Pattern {
        tokens: [b"", b"", b"[", b"", b"", b""],
        help: "the bound comes after the type: `byte[4] b`",
    },
];

/// The same: braces, and signs between fields.
static BRACES: [Pattern; 7] = [
    Pattern {
        tokens: [b"", b";", b";", b"", b"", b""],
        help: SEMICOLON,
    },
    Pattern {
        tokens: [b"", b"{", b";", b"", b"", b""],
        help: SEMICOLON,
    },
    Pattern {
        tokens: [b"NAME", b"=", b"{", b"", b"", b""],
        help: "write `type $1 = struct { .. };`",
    },
    Pattern {
        tokens: [b"NUMBER", b">", b"{", b"", b"", b""],
        help: "one integer that is cut into fields begins with `struct`: write `struct uint<$1> { .. }`",
    },
    Pattern {
        tokens: [b"", b"TYPE", b"{", b"", b"", b""],
        help: "one integer that is cut into fields begins with `struct`: write `struct $2 { .. }`",
    },
    Pattern {
        tokens: [b"", b"OPEN", b"{", b"", b"", b""],
        help: "write `struct { .. }`",
    },
    Pattern {
        tokens: [b"", b"", b",", b"", b"", b""],
        help: "write each declaration and each field separately, with a `;`",
    },
];

/// The same: `<`, pointers, calls and names.
static SIGNS: [Pattern; 10] = [
    Pattern {
        tokens: [b"", b"int", b"<", b"", b"", b""],
        help: NO_BLANK,
    },
    Pattern {
        tokens: [b"", b"uint", b"<", b"", b"", b""],
        help: NO_BLANK,
    },
    Pattern {
        tokens: [b"", b"offset", b"<", b"", b"", b""],
        help: NO_BLANK,
    },
    Pattern {
        tokens: [b"", b"", b"<", b"NUMBER", b"", b""],
        help: "only `int<`, `uint<` and `offset<` have a width: write `uint<$4>`",
    },
    Pattern {
        tokens: [b"", b"", b"<", b"", b"", b""],
        help: NO_BLANK,
    },
    Pattern {
        tokens: [b"", b"", b"*", b"", b"", b""],
        help: POINTER,
    },
    Pattern {
        tokens: [b"", b"", b"(", b"", b"", b""],
        help: "functions and calls are left out",
    },
    Pattern {
        tokens: [b"", b"}", b"NAME", b"", b"", b""],
        help: "the name of a type comes before it: `type $3 = struct { .. };`",
    },
    Pattern {
        tokens: [b"", b"", b"ORDER", b"NAME", b"", b""],
        help: "the byte order comes first: write `$3 $8 $4`",
    },
    Pattern {
        tokens: [b"", b"", b"RESERVED", b"", b"", b""],
        help: NO_NAME,
    },
];

/// What to write for a comparison without `:`.
const CONSTRAINT: &str = "a constraint comes after `:`: write `$8 : $2 $9;`";

/// What to write for `int <`.
const NO_BLANK: &str = "write `int<`, `uint<` and `offset<` without a blank before the `<`";

/// What to write instead of the token that is refused.
pub fn advice(around: Around<'_, '_>, expected: Expected) -> Option<&'static str> {
    let help = if expected.declaration {
        of_declaration(around)
    } else {
        None
    };
    let help = help.or(of_opening(around));
    match help.or(of_tokens(around)) {
        Some(help) => Some(help),
        None if expected.value => around.find(VALUES.as_slice()),
        None if expected.operator => behind_operand(around),
        None => behind_form(around, expected),
    }
}

/// The advice for where a declaration begins.
fn of_declaration(around: Around<'_, '_>) -> Option<&'static str> {
    around.find_in(&[
        TYPE_STARTS.as_slice(),
        TYPEDEFS.as_slice(),
        DIRECTIVES.as_slice(),
    ])
}

/// The advice for tokens in a row, wherever they are.
fn of_tokens(around: Around<'_, '_>) -> Option<&'static str> {
    match of_expression(around) {
        Some(help) => Some(help),
        None => of_type(around),
    }
}

fn of_expression(around: Around<'_, '_>) -> Option<&'static str> {
    around.find_in(&[
        ORDERS.as_slice(),
        OPERATOR_WORDS.as_slice(),
        OPERATORS.as_slice(),
    ])
}

fn of_type(around: Around<'_, '_>) -> Option<&'static str> {
    around.find_in(&[
        TYPE_WORDS.as_slice(),
        TYPE_NAMES.as_slice(),
        WIDTHS.as_slice(),
        TYPES_LAST.as_slice(),
        UNIT_NAMES.as_slice(),
    ])
}

/// The advice for the first word of a declaration or field, if it isn't the name of a declared type.
fn of_opening(around: Around<'_, '_>) -> Option<&'static str> {
    if around.script.declaring_token(around.opening()).is_some() {
        return None;
    }
    let first = Around {
        script: around.script,
        token: around.first,
        first: around.first,
    };
    first.find_in(&[
        POKE_OPENINGS.as_slice(),
        C_OPENINGS.as_slice(),
        C_INTEGERS.as_slice(),
        STATEMENTS.as_slice(),
    ])
}

/// The advice for a token after an operand.
fn behind_operand(around: Around<'_, '_>) -> Option<&'static str> {
    let labelled = (around.first..around.token).any(|before| {
        matches!(around.script.text(before), b"@" | b"if")
    });
    match around.token_text() {
        b":" | b"@" if labelled => {
            Some("the order is `TYPE NAME : CONSTRAINT @ LABEL if CONDITION;`")
        }
        _ => around.find(OPERANDS.as_slice()),
    }
}

/// The advice for a token after a type or a name, or where a type or a name must be.
fn behind_form(around: Around<'_, '_>, expected: Expected) -> Option<&'static str> {
    match around.token_text() {
        b":" if around.opening() == b"type".as_slice() => Some(
            "a type has no constraint of its own: write it after each field of the type, as `T x : x > 0;`",
        ),
        b"type" if expected.name => Some(TYPE_INSIDE),
        _ if expected.form || expected.name || !is_reserved(around.token_text()) => {
            around.find_in(&[FORMS.as_slice(), BRACES.as_slice(), SIGNS.as_slice()])
        }
        _ => None,
    }
}
