//! What the grammar sees of a token.
ghost use Rattle.c_grammar.specs.Terminals as spec;
ghost use Rattle.std.specs.Prelude.{◌≡◌, ◌<◌, ◌≤◌, ◌^◌, length, drop, true};

use crate::productions::{
    FLOATING_NAME, LIST_ARGUMENT_CALL, LIST_END_CALL, LIST_PAIR_CALL, TYPEDEF_NAME,
};
use crate::scopes::Scopes;
use c_lexer::{Token, TokenKind};

/// The terminal of the first punctuator; the others follow in the order of their positions.
pub(crate) const SIGNS: u32 = 45;
/// An identifier without a meaning of its own.
pub(crate) const PLAIN_NAME: u32 = 93;

pub(crate) const TYPE_NAME: u32 = 94;
/// The name of a floating type, a type word.
pub(crate) const FLOATING_TYPE: u32 = 95;

pub(crate) const TYPEOF_NAME: u32 = 96;
/// A name that begins with `__builtin_` and is no typedef name.
pub(crate) const BUILTIN_NAME: u32 = 97;

pub(crate) const INTEGER: u32 = 98;

pub(crate) const FLOATING: u32 = 99;

pub(crate) const CHARACTER: u32 = 100;

pub(crate) const STRING: u32 = 101;

pub(crate) const UNIT_END: u32 = 102;
/// Behind the last token.
pub(crate) const NOTHING: u32 = 103;

pub(crate) const WIDE_LITERAL: u32 = 104;
/// A character constant of several characters.
pub(crate) const LONG_CHARACTER: u32 = 105;

pub(crate) const WIDE_INTEGER: u32 = 106;

pub(crate) const THREAD_WORD: u32 = 107;
/// A typedef name that begins with `__builtin_`.
pub(crate) const BUILTIN_TYPE: u32 = 108;

/// A name that is called with two expressions: `__builtin_va_start` or `__builtin_va_copy`.
pub(crate) const LIST_PAIR: u32 = 109;
/// The name that is called with an expression and a type: `__builtin_va_arg`.
pub(crate) const LIST_ARGUMENT: u32 = 110;
/// The name `__builtin_va_end`.
pub(crate) const LIST_END: u32 = 111;

/// The bytes of a token, or none where it is no part of the text.
pub fn spelled<'a>(text: &'a [u8], token: Token) -> &'a [u8]
    ensures { result.now ≡ spec.spelled text.now token }
{
    let start = token.start as usize;
    let end = token.end as usize;
    if start <= end && end <= text.len() {
        &text[start..end]
    } else {
        &[]
    }
}

/// The terminal of a name that stands for an operation on variadic lists (C11 7.16.1).
#[tactic(auto, unfolding(crate::specs::Terminals::list_words))]
fn list_meaning(name: &[u8]) -> Option<u32>
    ensures { result ≡ spec.own_meaning spec.list_words name.now }
{
    if name == b"__builtin_va_start".as_slice() {
        return Some(LIST_PAIR);
    }
    if name == b"__builtin_va_copy".as_slice() {
        return Some(LIST_PAIR);
    }
    if name == b"__builtin_va_arg".as_slice() {
        return Some(LIST_ARGUMENT);
    }
    if name == b"__builtin_va_end".as_slice() {
        return Some(LIST_END);
    }
    None
}

/// The terminal of a word that is an identifier to the lexer and has a meaning of its own here.
#[tactic(auto, unfolding(crate::specs::Terminals::own_words))]
fn own_meaning(name: &[u8]) -> Option<u32>
    ensures { result ≡ spec.own_meaning spec.own_words name.now }
{
    if name == b"__int128".as_slice() {
        return Some(WIDE_INTEGER);
    }
    if name == b"__thread".as_slice() {
        return Some(THREAD_WORD);
    }
    if name == b"typeof".as_slice() {
        return Some(TYPEOF_NAME);
    }
    if name == b"__typeof".as_slice() {
        return Some(TYPEOF_NAME);
    }
    if name == b"__typeof__".as_slice() {
        return Some(TYPEOF_NAME);
    }
    if name == b"_Float32".as_slice() {
        return Some(FLOATING_TYPE);
    }
    if name == b"_Float64".as_slice() {
        return Some(FLOATING_TYPE);
    }
    if name == b"_Float128".as_slice() {
        return Some(FLOATING_TYPE);
    }
    if name == b"_Float32x".as_slice() {
        return Some(FLOATING_TYPE);
    }
    if name == b"_Float64x".as_slice() {
        return Some(FLOATING_TYPE);
    }
    None
}

/// Whether a name begins with `__builtin_`.
fn is_builtin(name: &[u8]) -> bool
    ensures { result ≡ spec.is_builtin name.now }
{
    name.len() >= 10 && &name[..10] == b"__builtin_".as_slice()
}

/// The terminal of an identifier.
#[tactic(auto, unfolding(crate::specs::Terminals::name_terminal))]
fn name_terminal(scopes: &Scopes, name: &[u8]) -> u32
    ensures { result ≡ spec.name_terminal scopes.now name.now }
{
    if let Some(terminal) = own_meaning(name) {
        return terminal;
    }
    let is_type = scopes.is_type(name);
    if is_builtin(name) {
        if is_type {
            BUILTIN_TYPE
        } else {
            list_meaning(name).unwrap_or(BUILTIN_NAME)
        }
    } else if is_type {
        TYPE_NAME
    } else {
        PLAIN_NAME
    }
}

/// A byte of a text, or 0 behind its end.
fn byte_at(text: &[u8], at: usize) -> u8
    ensures { result ≡ spec.byte_at text.now at }
{
    if at < text.len() { text[at] } else { 0 }
}

/// Whether a literal is wide, by its prefix (C11 6.4.4.4, 6.4.5).
#[tactic(auto, unfolding(crate::specs::Terminals::is_wide))]
fn is_wide(text: &[u8]) -> bool
    ensures { result ≡ spec.is_wide text.now }
{
    let first = byte_at(text, 0);
    first == b'L' || first == b'U' || (first == b'u' && byte_at(text, 1) != b'8')
}

fn is_octal(byte: u8) -> bool
    ensures { result ≡ spec.is_octal byte }
{
    b'0' <= byte && byte <= b'7'
}

fn is_hexadecimal(byte: u8) -> bool
    ensures { result ≡ spec.is_hexadecimal byte }
{
    (b'0' <= byte && byte <= b'9')
        || (b'A' <= byte && byte <= b'F')
        || (b'a' <= byte && byte <= b'f')
}

/// How many of the first bytes are octal digits.
fn leading_octal(text: &[u8]) -> usize
    ensures is { result ≡ spec.leading spec.is_octal text.now }
    ensures within { result ≤ length text.now }
{
    for (count, byte) in text.iter().enumerate() {
        if !is_octal(*byte) {
            return count;
        }
    }
    text.len()
}

/// How many of the first bytes are hexadecimal digits.
fn leading_hexadecimal(text: &[u8]) -> usize
    ensures is { result ≡ spec.leading spec.is_hexadecimal text.now }
    ensures within { result ≤ length text.now }
{
    for (count, byte) in text.iter().enumerate() {
        if !is_hexadecimal(*byte) {
            return count;
        }
    }
    text.len()
}

/// The bytes behind the first ones, and none behind the end.
fn behind(text: &[u8], count: usize) -> &[u8]
    ensures { result.now ≡ drop count text.now }
{
    if count <= text.len() {
        &text[count..]
    } else {
        &[]
    }
}

/// How many bytes the first character of a constant's content has (C11 6.4.4.4).
#[tactic(auto, unfolding(crate::specs::Terminals::character_length))]
fn character_length(text: &[u8]) -> usize
    requires { length text.now < 2 ^ 63 }
    ensures { result ≡ spec.character_length text.now }
{
    if byte_at(text, 0) != b'\\' {
        return 1;
    }
    let kind = byte_at(text, 1);
    if kind == b'x' {
        return 2 + leading_hexadecimal(behind(text, 2));
    }
    if !is_octal(kind) {
        return 2;
    }
    let digits = behind(text, 1);
    1 + leading_octal(&digits[..digits.len().min(3)])
}

/// Whether a character constant with its quotes has one character.
#[tactic(auto, unfolding(crate::specs::Terminals::has_one_character))]
fn has_one_character(text: &[u8]) -> bool
    ensures { result ≡ spec.has_one_character text.now }
{
    text.len() >= 2 && character_length(behind(text, 1)) == text.len() - 2
}

/// The terminal of a token of a kind, by its bytes.
fn of_kind(kind: TokenKind, scopes: &Scopes, bytes: &[u8]) -> u32
    ensures { result ≡ spec.terminal_of_kind kind scopes.now bytes.now }
{
    match kind {
        TokenKind::Identifier => name_terminal(scopes, bytes),
        TokenKind::Keyword(position) => u32::from(position),
        TokenKind::Punctuator(position) => SIGNS + u32::from(position),
        TokenKind::Integer => INTEGER,
        TokenKind::Floating => FLOATING,
        TokenKind::Character => {
            if is_wide(bytes) {
                WIDE_LITERAL
            } else if has_one_character(bytes) {
                CHARACTER
            } else {
                LONG_CHARACTER
            }
        }
        TokenKind::Text => { if is_wide(bytes) { WIDE_LITERAL } else { STRING } }
        TokenKind::End => UNIT_END,
    }
}

/// The terminal of the token at a place, or the one that stands for nothing behind the last token.
#[tactic(auto, unfolding(crate::specs::Terminals::terminal))]
pub fn terminal(text: &[u8], tokens: &[Token], scopes: &Scopes, place: usize) -> u32
    ensures is { result ≡ spec.terminal text.now tokens.now scopes.now place }
    ensures past { length tokens.now ≤ place → result ≡ spec.nothing }
{
    match tokens.get(place) {
        None => NOTHING,
        Some(token) => of_kind(token.kind, scopes, spelled(text, *token)),
    }
}

/// The terminal with which an operation on variadic lists begins.
fn list_name(production: u32) -> u32
    ensures { result ≡ spec.list_name production }
{
    match production {
        LIST_PAIR_CALL => LIST_PAIR,
        LIST_ARGUMENT_CALL => LIST_ARGUMENT,
        _ => LIST_END,
    }
}

/// Whether an identifier item of a row takes a token of the terminal.
pub(crate) fn takes_name(production: u32, terminal: u32) -> bool
    ensures { result ≡ spec.contains (spec.identifiers production) terminal }
{
    if production == FLOATING_NAME {
        return terminal == FLOATING_TYPE;
    }
    if production == TYPEDEF_NAME {
        return terminal == TYPE_NAME || terminal == BUILTIN_TYPE;
    }
    if LIST_PAIR_CALL <= production && production <= LIST_END_CALL {
        return terminal == list_name(production);
    }
    terminal == PLAIN_NAME
        || terminal == TYPE_NAME
        || terminal == TYPEOF_NAME
        || terminal == BUILTIN_NAME
        || terminal == BUILTIN_TYPE
        || (LIST_PAIR <= terminal && terminal <= LIST_END)
}

/// Whether an item of a production's row takes a token of the terminal.
#[tactic(auto, unfolding(crate::specs::Terminals::takes))]
pub fn takes(production: u32, kind: TokenKind, terminal: u32) -> bool
    ensures is { result ≡ spec.takes production kind terminal }
    ensures real { result ≡ true → terminal ≡ spec.nothing → ⊥ }
{
    if terminal == NOTHING {
        return false;
    }
    match kind {
        TokenKind::Identifier => takes_name(production, terminal),
        TokenKind::Keyword(position) => terminal == u32::from(position),
        TokenKind::Punctuator(position) => terminal == SIGNS + u32::from(position),
        TokenKind::Integer => terminal == INTEGER,
        TokenKind::Floating => terminal == FLOATING,
        TokenKind::Character => terminal == CHARACTER,
        TokenKind::Text => terminal == STRING,
        TokenKind::End => terminal == UNIT_END,
    }
}
