//! The words and signs that the tests ask for, by their terminals.
use crate::terminals::{BUILTIN_TYPE, FLOATING_TYPE, SIGNS, TYPE_NAME};

pub(crate) const WORD_CHAR: u32 = 3;

pub(crate) const WORD_DOUBLE: u32 = 8;

pub(crate) const WORD_ENUM: u32 = 10;

pub(crate) const WORD_FLOAT: u32 = 12;

pub(crate) const WORD_INT: u32 = 17;

pub(crate) const WORD_LONG: u32 = 18;

pub(crate) const WORD_SHORT: u32 = 22;

pub(crate) const WORD_SIGNED: u32 = 23;

pub(crate) const WORD_STRUCT: u32 = 26;

pub(crate) const WORD_UNION: u32 = 29;

pub(crate) const WORD_UNSIGNED: u32 = 30;

pub(crate) const WORD_VOID: u32 = 31;

pub(crate) const WORD_ATOMIC: u32 = 36;

pub(crate) const WORD_BOOL: u32 = 37;

pub(crate) const WORD_COMPLEX: u32 = 38;

pub(crate) const WORD_GENERIC: u32 = 39;

pub(crate) const WORD_IMAGINARY: u32 = 40;

pub(crate) const WORD_THREAD_LOCAL: u32 = 43;

pub(crate) const WORD_ASM: u32 = 44;

pub(crate) const RIGHT_BRACKET: u32 = SIGNS + 1;

pub(crate) const LEFT_PARENTHESIS: u32 = SIGNS + 2;

pub(crate) const RIGHT_PARENTHESIS: u32 = SIGNS + 3;

pub(crate) const LEFT_BRACE: u32 = SIGNS + 4;

pub(crate) const RIGHT_BRACE: u32 = SIGNS + 5;

pub(crate) const ASTERISK: u32 = SIGNS + 11;
/// The sign `&&`.
pub(crate) const BOTH: u32 = SIGNS + 28;

pub(crate) const COLON: u32 = SIGNS + 31;

pub(crate) const ELLIPSIS: u32 = SIGNS + 33;

pub(crate) const COMMA: u32 = SIGNS + 45;

/// The lists of type words that make a type (C11 6.7.2p2), each with all words that may be left out.
pub(crate) static TYPE_WORDS: [&[u32]; 22] = [
    &[WORD_VOID],
    &[WORD_CHAR],
    &[WORD_SIGNED, WORD_CHAR],
    &[WORD_UNSIGNED, WORD_CHAR],
    &[WORD_SIGNED, WORD_SHORT, WORD_INT],
    &[WORD_UNSIGNED, WORD_SHORT, WORD_INT],
    &[WORD_SIGNED, WORD_INT],
    &[WORD_UNSIGNED, WORD_INT],
    &[WORD_SIGNED, WORD_LONG, WORD_INT],
    &[WORD_UNSIGNED, WORD_LONG, WORD_INT],
    &[WORD_SIGNED, WORD_LONG, WORD_LONG, WORD_INT],
    &[WORD_UNSIGNED, WORD_LONG, WORD_LONG, WORD_INT],
    &[WORD_FLOAT],
    &[WORD_DOUBLE],
    &[WORD_LONG, WORD_DOUBLE],
    &[WORD_BOOL],
    &[FLOATING_TYPE],
    &[WORD_STRUCT],
    &[WORD_UNION],
    &[WORD_ENUM],
    &[TYPE_NAME],
    &[BUILTIN_TYPE],
];
