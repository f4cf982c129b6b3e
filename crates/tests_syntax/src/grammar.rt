//! Rows of the grammar. The result is after the arrow.

use pickle_syntax::token::Number;
use pickle_syntax::tree::{Expression, Form, Reference, Suffix, Target};
use pickle_syntax::{ParseFault, lex, parse};
use std::alloc::Global;
use std::test::Fail;
use tests_kit::rows::same_text;
use tests_kit::text::bytes_of;

/// Pickles with the number of their declarations, or the fault.
const PICKLES: &str = r#" ==> types 0
// nothing ==> types 0
type A = byte; ==> types 1
type A = byte; type A = A; ==> types 2
type A = byte ==> refused Syntax at byte 13
type A = byte`20`20`20 ==> refused Syntax at byte 16
type A = byte;; ==> refused Syntax at byte 14
type A = byte; type ==> refused Syntax at byte 19
A = byte; ==> refused Syntax at byte 0
type string = byte; ==> refused Syntax at byte 5
type A byte; ==> refused Syntax at byte 7
type A = byte[]; ==> types 1
type A = string[3]; ==> types 1
type A = byte[1 2]; ==> refused Syntax at byte 16
type A = byte[1 + ]; ==> refused Syntax at byte 18
type A = byte[1; ==> refused Syntax at byte 15
type A = byte[][]; ==> refused Syntax at byte 15
type A = byte[("a")]; ==> types 1
type A = int<8>; ==> types 1
type A = int<8; ==> refused Syntax at byte 14
type A = int<a>; ==> refused Syntax at byte 13
type A = uint<0x10>; ==> types 1
type A = uint<8UB>; ==> types 1
type A = offset<byte,0b>; ==> types 1
type A = offset<int<8>,B>; ==> types 1
type A = offset<byte,c>; ==> refused Syntax at byte 21
type A = offset<byte>; ==> refused Syntax at byte 20
type A = offset<offset<byte,b>,b>; ==> refused Syntax at byte 16
type A = struct byte { byte a; }; ==> types 1
type A = struct uint<8> { }; ==> types 1
type A = struct string { }; ==> refused Syntax at byte 16
type A = pinned struct { }; ==> types 1
type A = pinned struct byte { }; ==> refused Syntax at byte 23
type A = pinned union { }; ==> refused Syntax at byte 16
type A = union { }; ==> types 1
type A = union byte { }; ==> refused Syntax at byte 15
type A = struct { byte a }; ==> refused Syntax at byte 25
type A = struct { byte a; ==> refused Syntax at byte 25
type A = struct { big byte a; little byte b; byte; struct { } s; }; ==> types 1
type A = struct { big little byte a; }; ==> refused Syntax at byte 22
type A = struct { byte a : 1 @ 2 if 3; }; ==> types 1
type A = struct { byte : 1 @ 2 if 3; }; ==> types 1
type A = struct { byte a : a ? 1 : 2 @ 1; }; ==> types 1
type A = struct { byte a if 3 @ 2; }; ==> refused Syntax at byte 30
type A = struct { byte a @ 3 : 2; }; ==> refused Syntax at byte 29
type A = struct { byte a b; }; ==> refused Syntax at byte 25
type A = struct { byte x : a'lengthif 1; }; ==> types 1
type A = byte[a'lengthx]; ==> refused Syntax at byte 22
type A = struct { byte int; byte x if int<3; }; ==> refused Syntax at byte 38
type A = struct { byte int; byte x if int <3; }; ==> types 1
type A = byte[1 as int<8> == 1]; ==> types 1
type A = byte[1 as int<8>== 1]; ==> refused Syntax at byte 24
type A = byte[1 as int<8>>1]; ==> refused Syntax at byte 24
type A = byte[1 as offset<int<8>,8>]; ==> types 1
type A = byte[1 as string]; ==> refused Syntax at byte 19
type A = byte[1 as T[1]]; ==> refused Syntax at byte 20
type A = byte[1 as T.f]; ==> refused Syntax at byte 20
type A = byte[1 as T # b]; ==> refused Syntax at byte 21
type A = byte[as]; ==> refused Syntax at byte 14"#;

/// Pickles that are as deep as they may be, or deeper.
const DEEP: &str = r#"type A = byte[«0..63 (»1«0..63 )»]; ==> types 1
type A = byte[«0..64 (»1«0..64 )»]; ==> refused TooDeep
type A = byte[«0..63 -»1]; ==> types 1
type A = byte[«0..64 -»1]; ==> refused TooDeep
type A = byte[a«0..63 .f»]; ==> types 1
type A = byte[a«0..64 .f»]; ==> refused TooDeep
type A = byte[1«0..63  + 1»]; ==> types 1
type A = byte[1«0..64  + 1»]; ==> refused TooDeep
type A = byte[«0..63 a[»a«0..63 ]»]; ==> types 1
type A = byte[«0..64 a[»a«0..64 ]»]; ==> refused TooDeep
type A = byte[a«0..63  as offset<int<8>,b>»]; ==> types 1
type A = byte[«0..63 1 ? 1 : »1]; ==> types 1
type A = byte[«0..64 1 ? 1 : »1]; ==> refused TooDeep
type A = struct { byte a : «0..63 (»1«0..63 )» @ (1) if (1); }; ==> types 1
type A = struct { byte a : (1) @ (1) if «0..64 (»1«0..64 )»; }; ==> refused TooDeep
type A = «0..63 struct { »struct {}«0..63  a; }»; ==> types 1
type A = «0..64 struct { »struct {}«0..64  a; }»; ==> refused TooDeep
type A = «0..63 union { »byte«0..63  a; }»; ==> types 1
type A = «0..64 struct byte { »byte«0..64  a; }»; ==> refused TooDeep
type A = «0..62 struct { »byte[]«0..62  a; }»; ==> types 1
type A = «0..63 struct { »byte[]«0..63  a; }»; ==> refused TooDeep
type A = «0..31 struct { »byte[]«0..31  a; }[]»; ==> types 1
type A = «0..32 struct { »byte«0..32  a; }[]»; ==> refused TooDeep
«0..64 (» ==> refused Syntax at byte 0
type A = byte[«0..64 (» ==> refused Syntax at byte 78
type A = byte[«0..65 (» ==> refused TooDeep"#;

/// Pickles that are as long as they may be, or longer.
const LONG: &str = r#"«0..4096 type A = byte;» ==> types 4096
«0..4097 type A = byte;» ==> refused TooMany
type A = struct {«0..1024  byte;»}; ==> types 1
type A = struct {«0..1025  byte;»}; ==> refused TooMany
type A = struct byte {«0..1024  byte;»}; ==> types 1
type A = struct byte {«0..1025  byte;»}; ==> refused TooMany
type A = union {«0..1025  byte;»}; ==> refused TooMany
type A = pinned struct {«0..1025  byte;»}; ==> refused TooMany"#;

/// Faults after many tokens.
const FAR: &str = r#"«0..30 type A = byte;»type B byte; ==> refused Syntax at byte 427
type A = struct {«0..100  byte;» byte a b; }; ==> refused Syntax at byte 625
«0..100 type A = byte;»type ==> refused Syntax at byte 1404
«0..1500 type A = byte;»type B = ; ==> refused Syntax at byte 21009
type A = struct {«0..1000  byte;»}; type B = struct {«0..1000  byte;»} x; ==> refused Syntax at byte 12039
type A = byte[1«0..40  + 1» 2]; ==> refused Syntax at byte 176
type A = byte[(1)«0..62  + 1» )]; ==> refused Syntax at byte 266
«0..30 type A = byte;»type B = byte[«0..63 (»1«0..63 )»]; ==> types 31
«0..30 type A = byte;»type B = byte[«0..64 (»1«0..64 )»]; ==> refused TooDeep
type A = struct {«0..1024  byte;»}; type B = struct {«0..1024  byte;»}; ==> types 2
type A = struct {«0..1024  byte;»}; type B = struct {«0..1025  byte;»}; ==> refused TooMany"#;

/// Bounds of arrays, with all of their nodes in brackets.
const BOUNDS: &str = r#"10 - 4 - 3 ==> (Subtract (Subtract 10 4) 3)
10 - (4 - 3) ==> (Subtract 10 [(Subtract 4 3)])
a || b && c | d ^ e & f == g < h << i + j * k ==> (LogicalOr a (LogicalAnd b (BitOr c (BitXor d (BitAnd e (Equal f (Less g (ShiftLeft h (Add i (Multiply j k))))))))))
a * b + c << d < e == f & g ^ h | i && j || k ==> (LogicalOr (LogicalAnd (BitOr (BitXor (BitAnd (Equal (Less (ShiftLeft (Add (Multiply a b) c) d) e) f) g) h) i) j) k)
a != b == c ==> (Equal (NotEqual a b) c)
a <= b >= c > d ==> (Greater (GreaterEqual (LessEqual a b) c) d)
a >> b << c ==> (ShiftLeft (ShiftRight a b) c)
a / b % c * d ==> (Multiply (Remainder (Divide a b) c) d)
a ? b : c ? d : e ==> (a ? b : (c ? d : e))
a ? b ? c : d : e ==> (a ? (b ? c : d) : e)
a || b ? c : d ==> ((LogicalOr a b) ? c : d)
a || (b ? c : d) ==> (LogicalOr a [(b ? c : d)])
-a as R ==> ((Minus a) as R)
a # B as R ==> ((a # Byte) as R)
a as R as S ==> ((a as R) as S)
a * b as R ==> (Multiply a (b as R))
- ! ~ + a ==> (Minus (Not (Complement (Plus a))))
-a.b[c]'length # b ==> (Minus ((((a . b) at c) Length) # Bit))
a'size + 'x' ==> (Add (a Size) character 120)
"hi" + 1 ==> (Add hi 1)
1 as offset<uint<8>,b> ==> (1 as offset uint 8 Bit)
1 as int<16> ==> (1 as int 16)"#;

/// The number of declarations, or the fault and the byte of the pickle at which it is.
fn answer(alloc: Global, pickle: &[u8]) -> Result<String, Fail> {
    let tokens = lex(alloc, pickle)?;
    match parse(alloc, &tokens) {
        Ok(found) => Ok(format!(in alloc; "types {}", found.declarations.len())?),
        Err(fault @ ParseFault::Syntax(token)) => {
            let at = match tokens.span(token) {
                Some((start, _)) => start,
                None => pickle.len(),
            };
            Ok(format!(in alloc; "refused {} at byte {at}", fault.name())?)
        }
        Err(fault) => Ok(format!(in alloc; "{fault}")?),
    }
}

fn name_of(alloc: Global, name: &[u8]) -> Result<String, Fail> {
    let name = std::str::from_utf8(name)?;
    Ok(format!(in alloc; "{name}")?)
}

fn reference_of(alloc: Global, reference: &Reference) -> Result<String, Fail> {
    match reference {
        Reference::Int(Number { value, .. }) => Ok(format!(in alloc; "int {value}")?),
        Reference::Uint(Number { value, .. }) => Ok(format!(in alloc; "uint {value}")?),
        Reference::Named(name) => name_of(alloc, name),
    }
}

fn suffixed(alloc: Global, operand: &str, suffix: &Suffix) -> Result<String, Fail> {
    match suffix {
        Suffix::Select(name) => {
            let name = name_of(alloc, name)?;
            Ok(format!(in alloc; "({operand} . {name})")?)
        }
        Suffix::Attribute(attribute) => Ok(format!(in alloc; "({operand} {attribute:?})")?),
        Suffix::Unit(unit) => Ok(format!(in alloc; "({operand} # {unit:?})")?),
        Suffix::Convert(Target::Reference(reference)) => {
            let reference = reference_of(alloc, reference)?;
            Ok(format!(in alloc; "({operand} as {reference})")?)
        }
        Suffix::Convert(Target::Offset(reference, unit)) => {
            let reference = reference_of(alloc, reference)?;
            Ok(format!(in alloc; "({operand} as offset {reference} {unit:?})")?)
        }
    }
}

/// An expression with all of its nodes in brackets, operators first. A bracket of the pickle is printed as `[ ]`.
fn grouped(alloc: Global, expression: &Expression) -> Result<String, Fail> {
    match expression {
        Expression::Number(number) => Ok(format!(in alloc; "{}", number.value)?),
        Expression::Character(byte) => Ok(format!(in alloc; "character {byte}")?),
        Expression::Text(bytes) => name_of(alloc, bytes),
        Expression::Name(name) => name_of(alloc, name),
        Expression::Bracket(inner) => {
            let inner = grouped(alloc, inner)?;
            Ok(format!(in alloc; "[{inner}]")?)
        }
        Expression::Prefix(op, operand) => {
            let operand = grouped(alloc, operand)?;
            Ok(format!(in alloc; "({op:?} {operand})")?)
        }
        Expression::Infix(operation) => {
            let op = operation.op;
            let left = grouped(alloc, &operation.left)?;
            let right = grouped(alloc, &operation.right)?;
            Ok(format!(in alloc; "({op:?} {left} {right})")?)
        }
        Expression::Choice(selection) => {
            let condition = grouped(alloc, &selection.condition)?;
            let yes = grouped(alloc, &selection.yes)?;
            let no = grouped(alloc, &selection.no)?;
            Ok(format!(in alloc; "({condition} ? {yes} : {no})")?)
        }
        Expression::Index(element) => {
            let operand = grouped(alloc, &element.operand)?;
            let index = grouped(alloc, &element.index)?;
            Ok(format!(in alloc; "({operand} at {index})")?)
        }
        Expression::After(after) => {
            let operand = grouped(alloc, &after.operand)?;
            suffixed(alloc, operand.as_str(), &after.suffix)
        }
    }
}

/// The bound of the array that is the type of a pickle's only declaration.
fn bound_of(alloc: Global, bound: &str) -> Result<String, Fail> {
    let pickle = format!(in alloc; "type A = byte[{bound}];")?;
    let tokens = lex(alloc, pickle.as_bytes())?;
    let found = parse(alloc, &tokens)?;
    match found.declarations.as_slice() {
        [declaration] => match &declaration.form {
            Form::Array(_, Some(bound)) => grouped(alloc, bound),
            _ => Err(Fail::from("no bound")),
        },
        _ => Err(Fail::from("not one declaration")),
    }
}

#[test]
fn pickles_are_accepted_or_refused_at_a_token(rt: HostRuntime) -> Result<(), Fail> {
    let alloc = rt.alloc();
    for table in [PICKLES, DEEP, LONG, FAR] {
        for line in table.lines() {
            let (text, told) = line.split_once(" ==> ").ok_or("no arrow")?;
            let pickle = bytes_of(alloc, text)?;
            let found = answer(alloc, &pickle)?;
            same_text(found.as_str(), told, line)?;
        }
    }
    Ok(())
}

#[test]
fn operators_group_by_their_levels(rt: HostRuntime) -> Result<(), Fail> {
    let alloc = rt.alloc();
    for line in BOUNDS.lines() {
        let (bound, told) = line.split_once(" ==> ").ok_or("no arrow")?;
        let found = bound_of(alloc, bound)?;
        same_text(found.as_str(), told, line)?;
    }
    Ok(())
}
