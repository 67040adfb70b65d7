//! Constants and strings, against gcc 12 on x86-64. A decimal constant without `u` from 2^63 on has the type `unsigned long long`
//! here, where gcc takes `__int128`.
use crate::fields::{sides, word};
use c_literals::{
    ConstantType, character_value, integer_constant, is_in_range, is_narrow, push_string,
};
use std::alloc::Global;

/// Integer constants, with their values and types.
const INTEGERS: &str = "0 => 0 int
1 => 1 int
2147483647 => 2147483647 int
2147483648 => 2147483648 long
4294967295 => 4294967295 long
4294967296 => 4294967296 long
9223372036854775807 => 9223372036854775807 long
017 => 15 int
0777 => 511 int
00 => 0 int
017777777777 => 2147483647 int
020000000000 => 2147483648 unsigned
037777777777 => 4294967295 unsigned
040000000000 => 4294967296 long
0777777777777777777777 => 9223372036854775807 long
01000000000000000000000 => 9223372036854775808 unsigned-long
01777777777777777777777 => 18446744073709551615 unsigned-long
0x7fffffff => 2147483647 int
0x80000000 => 2147483648 unsigned
0XFFFFFFFF => 4294967295 unsigned
0x100000000 => 4294967296 long
0x7fffffffffffffff => 9223372036854775807 long
0x8000000000000000 => 9223372036854775808 unsigned-long
0xFFFFFFFFFFFFFFFF => 18446744073709551615 unsigned-long
0xDeadBeef => 3735928559 unsigned
0xaBcDeF0123456789 => 12379813738877118345 unsigned-long
1u => 1 unsigned
4294967295U => 4294967295 unsigned
4294967296u => 4294967296 unsigned-long
0x10u => 16 unsigned
1l => 1 long
1L => 1 long
0x7fffffffffffffffL => 9223372036854775807 long
0x8000000000000000l => 9223372036854775808 unsigned-long
01ul => 1 unsigned-long
1LU => 1 unsigned-long
1Lu => 1 unsigned-long
1uL => 1 unsigned-long
1ll => 1 long-long
1LL => 1 long-long
0x8000000000000000LL => 9223372036854775808 unsigned-long-long
0xffffffffffffffffll => 18446744073709551615 unsigned-long-long
1ull => 1 unsigned-long-long
1llu => 1 unsigned-long-long
1LLU => 1 unsigned-long-long
1uLL => 1 unsigned-long-long
18446744073709551615u => 18446744073709551615 unsigned-long
18446744073709551615ull => 18446744073709551615 unsigned-long-long
18446744073709551615UL => 18446744073709551615 unsigned-long
9223372036854775808 => 9223372036854775808 unsigned-long-long
18446744073709551615l => 18446744073709551615 unsigned-long-long
9223372036854775808LL => 9223372036854775808 unsigned-long-long";

/// The type of a constant.
fn type_of(name: &str) -> ConstantType {
    match name {
        "int" => ConstantType::Int,
        "unsigned" => ConstantType::UnsignedInt,
        "long" => ConstantType::Long,
        "unsigned-long" => ConstantType::UnsignedLong,
        "long-long" => ConstantType::LongLong,
        _ => ConstantType::UnsignedLongLong,
    }
}

/// Whether the constant of a row is in range and has the row's value and type.
fn is_constant(row: &str) -> bool {
    let (constant, wanted) = sides(row);
    if !is_in_range(constant.as_bytes()) {
        return false;
    }
    let found = integer_constant(constant.as_bytes());
    let value = word(wanted, 0).parse::<u64>().ok();
    value == Some(found.value) && found.ty == type_of(word(wanted, 1))
}

#[test]
fn integers(rt: HostRuntime) {
    for row in INTEGERS.split('\n') {
        assert!(rt; is_constant(row), "{row}");
    }
}

/// Constants, and whether they are in range.
const RANGES: &str = "18446744073709551615 => yes
18446744073709551616 => no
0x0000FFFFFFFFFFFFFFFF => yes
0x10000000000000000 => no
01777777777777777777777 => yes
02000000000000000000000 => no";

/// String literals, and whether each character fits a byte.
const NARROW: &str = "\"\\377\" => yes
\"\\400\" => no
\"\\xFF\" => yes
\"a\\x100\" => no";

#[test]
fn ranges(rt: HostRuntime) {
    for row in RANGES.split('\n') {
        let (constant, within) = sides(row);
        assert!(rt;
            is_in_range(constant.as_bytes()) == (within == "yes"),
            "{row}"
        );
    }
    for row in NARROW.split('\n') {
        let (piece, narrow) = sides(row);
        assert!(rt; is_narrow(piece.as_bytes()) == (narrow == "yes"), "{row}");
    }
}

/// Character constants, and their values.
const CHARACTERS: &str = "'a' => 97
'0' => 48
' ' => 32
'\"' => 34
'\\'' => 39
'\\\"' => 34
'\\?' => 63
'\\\\' => 92
'\\a' => 7
'\\b' => 8
'\\f' => 12
'\\n' => 10
'\\r' => 13
'\\t' => 9
'\\v' => 11
'\\0' => 0
'\\7' => 7
'\\12' => 10
'\\012' => 10
'\\101' => 65
'\\177' => 127
'\\200' => -128
'\\377' => -1
'\\x41' => 65
'\\x7F' => 127
'\\x80' => -128
'\\xff' => -1
'\\xFF' => -1
'\\x0000041' => 65
'\\x9' => 9
'?' => 63";

/// Whether the constant of a row has the row's value.
fn is_character(row: &str) -> bool {
    let (constant, value) = sides(row);
    Some(character_value(constant.as_bytes())) == value.parse::<i8>().ok()
}

#[test]
fn characters(rt: HostRuntime) {
    for row in CHARACTERS.split('\n') {
        assert!(rt; is_character(row), "{row}");
    }
    assert!(rt; character_value(b"'\xE9'") == -23);
}

/// Adds what a string literal stands for, where it is narrow and there is memory.
fn is_pushed(text: &mut Vec<u8>, piece: &[u8]) -> bool {
    if !is_narrow(piece) {
        return false;
    }
    push_string(text, piece).is_ok()
}

/// Whether these bytes are the numbers that a text names, in order.
fn are_bytes(bytes: &[u8], numbers: &str) -> bool {
    if numbers.is_empty() {
        return bytes.is_empty();
    }
    for (at, number) in numbers.split(' ').enumerate() {
        if number.parse::<u8>().ok() != bytes.get(at).copied() {
            return false;
        }
    }
    bytes.len() == numbers.split(' ').count()
}

/// Whether the string literals of a row, side by side, stand for the row's bytes.
fn is_string(alloc: Global, row: &str) -> bool {
    let (pieces, bytes) = sides(row);
    let mut text = Vec::new(alloc);
    for piece in pieces.split(' ') {
        if !is_pushed(&mut text, piece.as_bytes()) {
            return false;
        }
    }
    are_bytes(text.as_slice(), bytes)
}

/// String literals side by side, and the bytes that they stand for.
const STRINGS: &str = "\"\" => 
\"a\" => 97
\"abc\" => 97 98 99
u8\"abc\" => 97 98 99
\"a\\\"b\" => 97 34 98
\"'\" => 39
\"\\'\" => 39
\"\\\\\" => 92
\"\\\\n\" => 92 110
\"\\\\\\\\\" => 92 92
\"a\\n\" => 97 10
\"\\0\" => 0
\"\\0001\" => 0 49
\"\\1234\" => 83 52
\"\\128\" => 10 56
\"\\18\" => 1 56
\"\\x41g\" => 65 103
\"\\x4\\x31\" => 4 49
\"\\xfFg\" => 255 103
\"\\377\\200\" => 255 128
\"\\a\\b\\f\\n\\r\\t\\v\\?\" => 7 8 12 10 13 9 11 63
\"\\x0041\" \"2\" => 65 50
\"ab\" \"cd\" \"ef\" => 97 98 99 100 101 102
\"\\1\" \"2\" => 1 50
u8\"\\x7f\" \"z\" => 127 122
\"\\\\x41\" => 92 120 52 49
\"a\\\\\" => 97 92
\"%d\\n\" => 37 100 10
\"\\101\\102C\" => 65 66 67
\"\\0\\0\" => 0 0
\"\u{e9}\" => 195 169";

#[test]
fn strings(rt: HostRuntime) {
    for row in STRINGS.split('\n') {
        assert!(rt; is_string(rt.alloc(), row), "{row}");
    }
}
