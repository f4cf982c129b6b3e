//! Types of GNU poke, C or other languages, and what to write instead.

use pickle_source::script::bytes_between;

/// Names of types, with a blank between each two, and what to write instead of any of them.
#[derive(Clone, Copy)]
struct Foreign {
    names: &'static [u8],
    help: &'static str,
}

/// Types that are no integers of 8, 16, 32 or 64 bits.
static OTHERS: [Foreign; 7] = [
    Foreign {
        names: b"any void",
        help: "it is left out, and there is nothing like it: write `byte[n]` for bytes of any meaning",
    },
    Foreign {
        names: b"float double float32 float64 f32 f64 f4 f8 Float Double",
        help: "there are no floating point numbers: write `uint<32>` or `uint<64>` for their bits",
    },
    Foreign {
        names: b"bool boolean",
        help: "write an integer, as `byte` or `uint<1>`",
    },
    Foreign {
        names: b"str strz stringz String CString cstring",
        help: "write `string` for bytes up to a 0, or `char[n]`",
    },
    Foreign {
        names: b"off64 uoff64",
        help: "write `offset<int<64>,b>`",
    },
    Foreign {
        names: b"bits",
        help: "write `uint<N>` with the number of bits",
    },
    Foreign {
        names: b"u24",
        help: "write `uint<24>`",
    },
];

/// Integers of 8 and 16 bits.
static SHORT_INTEGERS: [Foreign; 8] = [
    Foreign {
        names: b"uint8_t u8 u1 BYTE UBYTE uchar __u8 Int8ub Int8ul",
        help: "write `uint<8>` or `byte`",
    },
    Foreign {
        names: b"uint16_t u16 u2 WORD word USHORT ushort_t __u16",
        help: "write `uint<16>`",
    },
    Foreign {
        names: b"int16_t i16 s16 s2",
        help: "write `int<16>`",
    },
    Foreign {
        names: b"uint16_le uint16le u16le u16_le u2le le16 __le16 Int16ul",
        help: "write `little uint<16>`",
    },
    Foreign {
        names: b"int16_le int16le i16le s2le Int16sl",
        help: "write `little int<16>`",
    },
    Foreign {
        names: b"uint16_be uint16be u16be u16_be u2be be16 __be16 Int16ub",
        help: "write `big uint<16>`",
    },
    Foreign {
        names: b"int16_be int16be i16be s2be Int16sb",
        help: "write `big int<16>`",
    },
    Foreign {
        names: b"int8_t i8 s8 s1 Int8sb Int8sl",
        help: "write `int<8>`",
    },
];

/// Integers of 32 bits.
static WORDS: [Foreign; 6] = [
    Foreign {
        names: b"uint32_t u32 u4 DWORD dword ULONG __u32 unsigned",
        help: "write `uint<32>`",
    },
    Foreign {
        names: b"int32_t i32 s32 s4 signed",
        help: "write `int<32>`",
    },
    Foreign {
        names: b"uint32_le uint32le u32le u32_le u4le le32 __le32 Int32ul",
        help: "write `little uint<32>`",
    },
    Foreign {
        names: b"int32_le int32le i32le s4le Int32sl",
        help: "write `little int<32>`",
    },
    Foreign {
        names: b"uint32_be uint32be u32be u32_be u4be be32 __be32 Int32ub",
        help: "write `big uint<32>`",
    },
    Foreign {
        names: b"int32_be int32be i32be s4be Int32sb",
        help: "write `big int<32>`",
    },
];

/// Integers of 64 bits.
static LONG_INTEGERS: [Foreign; 6] = [
    Foreign {
        names: b"uint64_t u64 QWORD qword ULONGLONG __u64 size_t usize",
        help: "write `uint<64>`",
    },
    Foreign {
        names: b"int64_t i64 s64 ssize_t off_t time_t isize",
        help: "write `int<64>`",
    },
    Foreign {
        names: b"uint64_le uint64le u64le u64_le u8le le64 __le64 Int64ul",
        help: "write `little uint<64>`",
    },
    Foreign {
        names: b"int64_le int64le i64le s8le Int64sl",
        help: "write `little int<64>`",
    },
    Foreign {
        names: b"uint64_be uint64be u64be u64_be u8be be64 __be64 Int64ub",
        help: "write `big uint<64>`",
    },
    Foreign {
        names: b"int64_be int64be i64be s8be Int64sb",
        help: "write `big int<64>`",
    },
];

/// What to write instead of a type that isn't predeclared.
pub fn of_foreign(word: &[u8]) -> Option<&'static str> {
    for table in [
        OTHERS.as_slice(),
        SHORT_INTEGERS.as_slice(),
        WORDS.as_slice(),
        LONG_INTEGERS.as_slice(),
    ] {
        if let Some(help) = help_of(table, word) {
            return Some(help);
        }
    }
    None
}

/// What a table says to write instead of a type.
fn help_of(table: &[Foreign], word: &[u8]) -> Option<&'static str> {
    for row in table {
        if has_word(row.names, word) {
            return Some(row.help);
        }
    }
    None
}

/// Whether a word is one of some words with blanks between them.
fn has_word(words: &[u8], word: &[u8]) -> bool {
    let mut rest = words;
    for _ in 0..words.len() {
        let end = rest
            .iter()
            .position(|byte| *byte == b' ')
            .unwrap_or(rest.len());
        if bytes_between(rest, 0, end) == word {
            return true;
        }
        rest = bytes_between(rest, end.saturating_add(1), rest.len());
    }
    false
}
