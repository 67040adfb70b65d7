//! The pieces of a text.
ghost use Rattle.c_lexer.specs.Pieces.{Begins, IsPiece, NoLiteral, Stops, piece_of};
ghost use Rattle.c_lexer.specs.Quotes.{Opens};
ghost use Rattle.c_lexer.specs.Places.{begins_line};
ghost use Rattle.std.specs.Prelude.{◌≡◌, ◌<◌, length, true, false, MatchOption};
ghost use Rattle.c_lexer.specs.declared.runs.Run.TheVariants.{Line, Number};

use crate::bytes::{is_digit, is_letter, is_white};
use crate::punctuators::{punctuator_at, word_of};
use crate::quotes::{Prefix, Quote, inside_length, is_allowed, prefix_at, prefix_length, quote_at};
use crate::runs::{Run, run_end};

/// What a piece is.
#[derive(Clone, Copy)]
pub enum PieceKind {
    Run(Run),
    /// The number of a punctuator's spelling.
    Sign(usize),
    Literal(Prefix, Quote),
}

/// A piece and where it ends.
#[derive(Clone, Copy)]
pub struct Found {
    pub kind: PieceKind,
    pub end: usize,
}

/// The run that begins at a place.
#[inline(always)]
fn run_piece(run: Run, text: &[u8], from: usize) -> Found
    requires within { from < length text.now }
    requires begins { Begins run text.now from }
    requires plain { NoLiteral text.now from }
    ensures { IsPiece text.now (piece_of from result) }
{
    Found {
        kind: PieceKind::Run(run),
        end: run_end(run, text, from),
    }
}

/// Whether a number begins at a place.
#[inline(always)]
#[tactic(auto, unfolding(crate::specs::Bytes::is_digit))]
fn begins_number(text: &[u8], from: usize) -> bool
    requires { from < length text.now }
    ensures yes { result ≡ true → Begins Number text.now from }
    ensures no { result ≡ false → Begins Number text.now from → ⊥ }
{
    if is_digit(text[from]) {
        return true;
    }
    text[from] == b'.' && from + 1 < text.len() && is_digit(text[from + 1])
}

/// Whether a dropped line begins at a place, where `line` says whether only blanks stand before it on its line.
#[inline(always)]
fn begins_dropped(text: &[u8], from: usize, line: bool) -> bool
    requires within { from < length text.now }
    requires begins { line ≡ begins_line text.now from }
    ensures yes { result ≡ true → Begins Line text.now from }
    ensures no { result ≡ false → Begins Line text.now from → ⊥ }
{
    text[from] == b'#' && line
}

/// How a literal opens.
#[derive(Clone, Copy)]
struct Opening {
    prefix: Prefix,
    quote: Quote,
}

/// The opening of the literal at a place.
#[inline(always)]
fn opening_at(text: &[u8], from: usize) -> Option<Opening>
    requires { from < length text.now }
    ensures { MatchOption result ((p : Prefix) (q : Quote) → Opens text.now from p q → ⊥) (λ o. Opens text.now from o.prefix o.quote) }
{
    let prefix = prefix_at(text, from);
    match quote_at(text, from + prefix_length(prefix)) {
        None => None,
        Some(quote) => {
            if is_allowed(prefix, quote) {
                return Some(Opening { prefix, quote });
            }
            None
        }
    }
}

/// The literal that stands at a place.
#[inline(always)]
fn literal_at(text: &[u8], from: usize) -> Option<Found>
    requires { from < length text.now }
    ensures { MatchOption result (NoLiteral text.now from) (λ p. IsPiece text.now (piece_of from p)) }
{
    match opening_at(text, from) {
        None => None,
        Some(opening) => {
            let at = from + prefix_length(opening.prefix);
            match inside_length(text, at) {
                None => None,
                Some(count) => Some(Found {
                    kind: PieceKind::Literal(opening.prefix, opening.quote),
                    end: at + count + 2,
                }),
            }
        }
    }
}

/// The piece that begins at a place where no literal stands, where `line` says whether only blanks stand before it on its line.
#[inline(always)]
fn plain_piece_at(text: &[u8], from: usize, line: bool) -> Option<Found>
    requires within { from < length text.now }
    requires begins { line ≡ begins_line text.now from }
    requires plain { NoLiteral text.now from }
    ensures { MatchOption result (Stops text.now from) (λ p. IsPiece text.now (piece_of from p)) }
{
    let first = text[from];
    if is_white(first) {
        return Some(run_piece(Run::White, text, from));
    }
    if is_letter(first) {
        return Some(run_piece(Run::Name, text, from));
    }
    if begins_number(text, from) {
        return Some(run_piece(Run::Number, text, from));
    }
    if begins_dropped(text, from, line) {
        return Some(run_piece(Run::Line, text, from));
    }
    match punctuator_at(text, from) {
        Some(sign) => Some(Found {
            kind: PieceKind::Sign(sign),
            end: from + word_of(sign).len(),
        }),
        None => None,
    }
}

/// The piece that begins at a place, where `line` says whether only blanks stand before it on its line.
pub fn piece_at(text: &[u8], from: usize, line: bool) -> Option<Found>
    requires within { from < length text.now }
    requires begins { line ≡ begins_line text.now from }
    ensures { MatchOption result (Stops text.now from) (λ p. IsPiece text.now (piece_of from p)) }
{
    match literal_at(text, from) {
        Some(found) => Some(found),
        None => plain_piece_at(text, from, line),
    }
}
