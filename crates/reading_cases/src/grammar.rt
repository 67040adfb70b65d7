//! Worked examples of names, type words and first tokens.
use c_grammar::looks::{chosen, refusal};
use c_grammar::notes::Notes;
use c_grammar::productions::{ASSIGNMENT, INIT, PARAMETER};
use c_grammar::terminals::terminal;
use c_grammar::{Item, Scopes, item};
use c_lexer::{Token, TokenKind};
use pta_base::{Kind, OutOfMemory};
use std::test::Fail;

// The terminals of a plain name and of `__int128`.
const PLAIN_NAME: u32 = 93;

const WIDE_INTEGER: u32 = 106;

/// Whether a name is a typedef name.
fn is_type(scopes: &Scopes, name: &[u8]) -> bool {
    scopes.is_type(name)
}

/// Declares a name, as a typedef name or not.
fn declare(scopes: &mut Scopes, name: &[u8], is_type: bool) -> Result<(), OutOfMemory> {
    scopes.declare(name, is_type)
}

// An inner declaration hides an outer one until its scope is left (C11 6.2.1p4).
#[test]
fn innermost_declaration(rt: HostRuntime) -> Result<(), Fail> {
    let mut scopes = Scopes::new(rt.alloc());
    assert!(rt; is_type(&scopes, b"__builtin_va_list"));
    assert!(rt; !is_type(&scopes, b"T"));
    declare(&mut scopes, b"T", true)?;
    scopes.enter()?;
    assert!(rt; is_type(&scopes, b"T"));
    declare(&mut scopes, b"T", false)?;
    declare(&mut scopes, b"__builtin_va_list", false)?;
    assert!(rt; !is_type(&scopes, b"T"));
    assert!(rt; !is_type(&scopes, b"__builtin_va_list"));
    assert!(rt; scopes.is_nested());
    scopes.leave();
    assert!(rt; is_type(&scopes, b"T"));
    assert!(rt; is_type(&scopes, b"__builtin_va_list"));
    assert!(rt; !scopes.is_nested());
    Ok(())
}

static SPANS: [(TokenKind, u32, u32, u32); 8] = [
    (TokenKind::Identifier, 0, 2, PLAIN_NAME),
    (TokenKind::Identifier, 3, 11, WIDE_INTEGER),
    (TokenKind::Text, 12, 17, 101),
    (TokenKind::Text, 18, 22, 104),
    (TokenKind::Character, 23, 26, 100),
    (TokenKind::Character, 27, 31, 105),
    (TokenKind::Character, 32, 39, 100),
    (TokenKind::Character, 40, 47, 105),
];

/// The terminal of a token of a kind over a span.
fn one_terminal(text: &[u8], kind: TokenKind, start: u32, end: u32, scopes: &Scopes) -> u32 {
    let tokens = [Token {
        kind,
        start,
        end,
        line: 1,
        column: 1,
    }];
    terminal(text, &tokens, scopes, 0)
}

// The terminals of a name, of `__int128`, of `u8"a"`, `L"a"`, `'a'`, `'ab'`, `'\x1fa'` and `'\1234'`.
#[test]
fn terminals(rt: HostRuntime) {
    let scopes = Scopes::new(rt.alloc());
    let text = b"ab __int128 u8\"a\" L\"a\" 'a' 'ab' '\\x1fa' '\\1234'";
    for (kind, start, end, want) in &SPANS {
        assert!(rt;
            one_terminal(text, *kind, *start, *end, &scopes) == *want,
            "at {start}"
        );
    }
}

// An initialiser is `{` with items, or an assignment.
#[test]
fn rows(rt: HostRuntime) {
    let choice = matches!(item(INIT, 0), Some(Item::Choice(_, ASSIGNMENT)));
    assert!(rt; choice);
    assert!(rt; item(INIT, 1).is_none());
    assert!(rt; item(258, 0).is_none());
    let notes = Notes::new(rt.alloc());
    assert!(rt; chosen(ASSIGNMENT, INIT, 103, 103, &notes).is_none());
    let refused = refusal(PARAMETER, PLAIN_NAME, 103);
    assert!(rt; matches!(refused, Some(Kind::OldParameters)));
}
