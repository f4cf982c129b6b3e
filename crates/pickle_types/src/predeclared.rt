//! The types that need no declaration.

use crate::integer::IntegerType;

/// The predeclared names, each with its integer type.
pub const PREDECLARED: [(&[u8], IntegerType); 18] = [
    (
        b"bit",
        IntegerType {
            width: 1,
            signed: false,
        },
    ),
    (
        b"nibble",
        IntegerType {
            width: 4,
            signed: false,
        },
    ),
    (
        b"byte",
        IntegerType {
            width: 8,
            signed: false,
        },
    ),
    (
        b"char",
        IntegerType {
            width: 8,
            signed: false,
        },
    ),
    (
        b"short",
        IntegerType {
            width: 16,
            signed: true,
        },
    ),
    (
        b"ushort",
        IntegerType {
            width: 16,
            signed: false,
        },
    ),
    (
        b"int",
        IntegerType {
            width: 32,
            signed: true,
        },
    ),
    (
        b"uint",
        IntegerType {
            width: 32,
            signed: false,
        },
    ),
    (
        b"long",
        IntegerType {
            width: 64,
            signed: true,
        },
    ),
    (
        b"ulong",
        IntegerType {
            width: 64,
            signed: false,
        },
    ),
    (
        b"int8",
        IntegerType {
            width: 8,
            signed: true,
        },
    ),
    (
        b"int16",
        IntegerType {
            width: 16,
            signed: true,
        },
    ),
    (
        b"int32",
        IntegerType {
            width: 32,
            signed: true,
        },
    ),
    (
        b"int64",
        IntegerType {
            width: 64,
            signed: true,
        },
    ),
    (
        b"uint8",
        IntegerType {
            width: 8,
            signed: false,
        },
    ),
    (
        b"uint16",
        IntegerType {
            width: 16,
            signed: false,
        },
    ),
    (
        b"uint32",
        IntegerType {
            width: 32,
            signed: false,
        },
    ),
    (
        b"uint64",
        IntegerType {
            width: 64,
            signed: false,
        },
    ),
];
