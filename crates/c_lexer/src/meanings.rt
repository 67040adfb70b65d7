//! What pieces mean for the list of tokens.
ghost use Rattle.c_lexer.specs.Meanings as spec;
ghost use Rattle.c_lexer.specs.Pieces.{piece_of, IsPiece};
ghost use Rattle.std.specs.Prelude.{◌≡◌, ◌<◌, map, nat_eq};
ghost use Rattle.std.specs.Cmp.Lexicographic.{pointwise};

use crate::TokenKind;
use crate::numbers::is_integer;
use crate::pieces::{Found, PieceKind};
use crate::punctuators::position_of;
use crate::quotes::Quote;
use crate::runs::Run;
use crate::spellings::{KEYWORDS, Spelling};

/// What a piece means: nothing, an attribute that is dropped with the parentheses behind it, or a token.
#[derive(Clone, Copy)]
pub enum Meaning {
    Nothing,
    Attribute,
    Token(TokenKind),
}

const ATTRIBUTE: &[u8] = b"__attribute__";

const EXTENSION: &[u8] = b"__extension__";

/// Whether two words are equal.
#[inline(always)]
fn is_same(a: &[u8], b: &[u8]) -> bool
    ensures { result ≡ pointwise nat_eq a.now b.now }
{
    if a.len() != b.len() {
        return false;
    }
    if 0 < a.len() && a[0] != b[0] {
        return false;
    }
    a == b
}

/// The position of a word in a table.
fn lookup(table: &[Spelling], word: &[u8]) -> Option<u8>
    ensures { result ≡ spec.lookup (map (λ e. (e.0.now, e.1)) table.now) word.now }
{
    for entry in table {
        if is_same(entry.0, word) {
            return Some(entry.1);
        }
    }
    None
}

/// What an identifier or keyword means.
#[tactic(auto, using(crate::proofs::Tables::keywords_are), unfolding(crate::specs::Meanings::word_meaning))]
fn word_meaning(word: &[u8]) -> Meaning
    ensures { result ≡ spec.word_meaning word.now }
{
    if ATTRIBUTE == word {
        return Meaning::Attribute;
    }
    if EXTENSION == word {
        return Meaning::Nothing;
    }
    match lookup(&KEYWORDS, word) {
        None => Meaning::Token(TokenKind::Identifier),
        Some(position) => Meaning::Token(TokenKind::Keyword(position)),
    }
}

/// What a number token means.
#[tactic(auto, unfolding(crate::specs::Meanings::number_meaning))]
fn number_meaning(word: &[u8]) -> Meaning
    ensures { result ≡ spec.number_meaning word.now }
{
    if is_integer(word) {
        return Meaning::Token(TokenKind::Integer);
    }
    Meaning::Token(TokenKind::Floating)
}

/// What a piece means.
pub fn meaning_of(text: &[u8], from: usize, found: Found) -> Meaning
    requires { IsPiece text.now (piece_of from found) }
    ensures { result ≡ spec.meaning text.now (piece_of from found) }
{
    match found.kind {
        PieceKind::Run(Run::White) | PieceKind::Run(Run::Line) => Meaning::Nothing,
        PieceKind::Run(Run::Name) => word_meaning(&text[from..found.end]),
        PieceKind::Run(Run::Number) => number_meaning(&text[from..found.end]),
        PieceKind::Sign(number) => Meaning::Token(TokenKind::Punctuator(position_of(number))),
        PieceKind::Literal(_, Quote::Character) => Meaning::Token(TokenKind::Character),
        PieceKind::Literal(_, Quote::Text) => Meaning::Token(TokenKind::Text),
    }
}
