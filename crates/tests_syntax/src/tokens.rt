//! Rows of tokens. After the arrow are the tokens, each with a blank after it, or the fault.

use pickle_syntax::lex;
use pickle_syntax::token::Kind;
use std::alloc::{AllocError, Global};
use std::test::Fail;
use tests_kit::rows::same_text;
use tests_kit::text::bytes_of;

/// Numbers, with and without suffixes.
const NUMBERS: &str = r#"0x1B ==> 27:i32
0x1BU ==> 27:u32
0x1UB ==> 1:u8
0x1BUB ==> 27:u8
0X1fuH ==> 31:u16
0o17 ==> 15:i32
0O17B ==> 15:i8
1__ ==> 1:i32
1_0 ==> 10:i32
1_U ==> 1:u32
1U_ ==> refused BadNumber at byte 0
0x1_ ==> 1:i32
0x_1 ==> refused BadNumber at byte 0
0b_1 ==> refused BadNumber at byte 0
0b1 ==> 1:i32
0B1 ==> 1:i32
0b1B ==> 1:i8
0b ==> 0:i8
0B ==> 0:i8
0bU ==> 0:u8
0uB ==> 0:u8
0bH ==> refused BadNumber at byte 0
0b2 ==> refused BadNumber at byte 0
0x ==> refused BadNumber at byte 0
0o ==> refused BadNumber at byte 0
0o8 ==> refused BadNumber at byte 0
0xg ==> refused BadNumber at byte 0
00x1 ==> refused BadNumber at byte 0
007 ==> 7:i32
5BU 5UB 5bu ==> 5:u8 5:u8 5:u8
5H 5L 5N 5ul ==> 5:i16 5:i64 5:i4 5:u64
a 5UU ==> refused BadNumber at byte 2
a 5BB ==> refused BadNumber at byte 2
a 5BH ==> refused BadNumber at byte 2
a 5BUB ==> refused BadNumber at byte 2
127B ==> 127:i8
128B ==> refused BadNumber at byte 0
7N 15UN ==> 7:i4 15:u4
8N ==> refused BadNumber at byte 0
32768H ==> refused BadNumber at byte 0
2147483647 ==> 2147483647:i32
0x80000000 ==> 2147483648:i64
4294967295U ==> 4294967295:u32
4294967296U ==> 4294967296:u64
9223372036854775807 ==> 9223372036854775807:i64
9223372036854775808 ==> refused BadNumber at byte 0
0xffffffffffffffff ==> refused BadNumber at byte 0
0xffffffffffffffffU ==> 18446744073709551615:u64
18446744073709551616U ==> refused BadNumber at byte 0
1`c3`a9 ==> refused BadByte at byte 1"#;

/// Characters, texts and attributes.
const TEXTS: &str = r#"''' ==> refused BadByte at byte 0
'' ==> refused BadByte at byte 0
'\' ==> refused BadByte at byte 0
'ab' ==> refused BadByte at byte 0
'`0a' ==> refused BadByte at byte 0
'\'' ==> '39'
'"' ==> '34'
'a' '\x4F' '\n' ==> '97' '79' '10'
"" ==> []
"'" "\'" ==> [39] [39]
"a\x41\n\t\\\"~" ==> [97, 65, 10, 9, 92, 34, 126]
 "a`09b" ==> refused BadByte at byte 3
 "a`0db" ==> refused BadByte at byte 3
 "a`7f" ==> refused BadByte at byte 3
 "a`0ab" ==> refused Unclosed at byte 1
 "a ==> refused Unclosed at byte 1
 "a\`0a" ==> refused BadByte at byte 3
 "a\ ==> refused BadByte at byte 3
 "a\x4 ==> refused BadByte at byte 3
 "a\x4g" ==> refused BadByte at byte 3
 "a\q`09`0a ==> refused BadByte at byte 3
 "a`09\q`0a ==> refused BadByte at byte 3
 "a`0a`09" ==> refused Unclosed at byte 1
a'lengthx ==> a 'Length x
a'lengthif 1 ==> a 'Length If 1:i32
a'size ==> a 'Size
a'sizE ==> refused BadByte at byte 1"#;

/// Blanks and comments.
const BLANKS: &str = r#" ==>
 `09`0a`0c`0d ==>
a`0b ==> refused BadByte at byte 1
a`00 ==> refused BadByte at byte 1
// c`0dbyte ==>
// c`0abyte ==> byte
a// ==> a
/*/ ==> refused Unclosed at byte 0
a /* * ==> refused Unclosed at byte 2
/**/ ==>
/* /* */ ==>
/* /* */ */ ==> Star Slash
/*/ `00`ff`0a*/a ==> a
a/b ==> a Slash b"#;

/// Words and signs.
const WORDS: &str =
    r#"type struct union pinned big little if as string ==> Type Struct Union Pinned Big Little If As String
types If _as a1_ ==> types If _as a1_
int uint offset length size b B ==> int uint offset length size b B
int<3 uint<3 offset<b ==> Int< 3:i32 Uint< 3:i32 Offset< b
int <3 ==> int Less 3:i32
xint<8 ==> xint Less 8:i32
a as int<8>== 1 ==> a As Int< 8:i32 GreaterEqual Assign 1:i32
int<8>>1 ==> Int< 8:i32 ShiftRight 1:i32
{ } ( ) [ ] ; , . : ? @ # = ==> OpenBrace CloseBrace OpenParen CloseParen OpenBracket CloseBracket Semicolon Comma Dot Colon Question At Hash Assign
+ - * / % ~ ! & | ^ < > ==> Plus Minus Star Slash Percent Tilde Bang And Or Caret Less Greater
== != <= >= << >> && || ==> EqualEqual BangEqual LessEqual GreaterEqual ShiftLeft ShiftRight AndAnd OrOr
<<=&&&=== ==> ShiftLeft Assign AndAnd And EqualEqual Assign"#;

/// Pickles, some of them too long.
const PICKLES: &str = r#"type A = byte $; ==> refused BadByte at byte 14
type A = byte; /* x ==> refused Unclosed at byte 15
type A = byte[256UB]; ==> refused BadNumber at byte 14
type A = byte[0b2]; ==> refused BadNumber at byte 14
type A = byte['ab']; ==> refused BadByte at byte 14
type A = struct { string s : s == "a ==> refused Unclosed at byte 34
type A = byte[0b]; ==> Type A Assign byte OpenBracket 0:i8 CloseBracket Semicolon
«0..1048576  » ==>
«0..1048577  » ==> refused TooLong at byte 1048576
«0..1048577 $» ==> refused TooLong at byte 1048576"#;

/// A token in a few letters: a number such as `27:i32`, a name as itself.
fn show(alloc: Global, kind: &Kind) -> Result<String, AllocError> {
    match kind {
        Kind::Word(word) => format!(in alloc; "{word:?}"),
        Kind::Name(name) => String::from_str(alloc, str::from_utf8(name).unwrap_or("?")),
        Kind::Opener(opener) => format!(in alloc; "{opener:?}<"),
        Kind::Number(n) => {
            let (value, width) = (n.value, n.width);
            let sign = if n.signed { "i" } else { "u" };
            format!(in alloc; "{value}:{sign}{width}")
        }
        Kind::Character(byte) => format!(in alloc; "'{byte}'"),
        Kind::Text(bytes) => format!(in alloc; "{bytes:?}"),
        Kind::Attribute(attribute) => format!(in alloc; "'{attribute:?}"),
        Kind::Sign(sign) => format!(in alloc; "{sign:?}"),
    }
}

/// The tokens, each with a blank after it, or the fault.
fn lexed(alloc: Global, bytes: &[u8]) -> Result<String, AllocError> {
    let tokens = match lex(alloc, bytes) {
        Ok(tokens) => tokens,
        Err(fault) => return format!(in alloc; " {fault}"),
    };
    let mut shown = String::new(alloc);
    for kind in tokens.kinds() {
        let token = show(alloc, kind)?;
        shown.push(' ')?;
        shown.push_str(&token)?;
    }
    Ok(shown)
}

#[test]
fn tokens_or_a_fault(rt: HostRuntime) -> Result<(), Fail> {
    let alloc = rt.alloc();
    for table in [NUMBERS, TEXTS, BLANKS, WORDS, PICKLES] {
        for line in table.lines() {
            let (text, told) = line.split_once(" ==>").ok_or("no arrow")?;
            let bytes = bytes_of(alloc, text)?;
            let found = lexed(alloc, &bytes)?;
            same_text(found.as_str(), told, line)?;
        }
    }
    Ok(())
}

#[test]
fn spans(rt: HostRuntime) -> Result<(), Fail> {
    let alloc = rt.alloc();
    let tokens = lex(alloc, b" type A = /* x */ \"a\\n\";\n")?;
    let mut shown = String::new(alloc);
    for i in 0..=tokens.len() {
        let span = format!(in alloc; "{:?} ", tokens.span(i))?;
        shown.push_str(&span)?;
    }
    let told = "Some((1, 5)) Some((6, 7)) Some((8, 9)) Some((18, 23)) Some((23, 24)) None ";
    same_text(shown.as_str(), told, "spans")
}
