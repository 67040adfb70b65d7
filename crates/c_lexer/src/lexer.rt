//! Cuts a text into its tokens.
ghost use Rattle.c_lexer.specs.Cut.{IsTokens, IsFault, Bars, IsQuote};
ghost use Rattle.c_lexer.specs.States.{IsState, Reached, IsPending, PendingWithin, NeedWithin, pushed};
ghost use Rattle.c_lexer.specs.Meanings.{IsGood};
ghost use Rattle.c_lexer.specs.Pieces.{piece_of, Stops};
ghost use Rattle.c_lexer.specs.Places.{IsPlace, begins_line};
ghost use Rattle.std.specs.Prelude.{◌≡◌, ◌+◌, ◌<◌, ◌≤◌, ◌^◌, [], ◌∷◌, ◌++◌, List, length, true, false, MatchResult, IfOk, IfErr, OnOk};
ghost use Rattle.c_lexer.specs.declared.Token.{Token};
ghost use Rattle.c_lexer.specs.declared.LexFault.TheVariants.{OutOfMemory, TooLong};

use crate::flaws::flaw;
use crate::groups::{Need, Pending, is_met, need_after};
use crate::meanings::{Meaning, meaning_of};
use crate::pieces::{Found, piece_at};
use crate::places::{Place, first_place, place_behind};
use crate::{LexFault, Token, TokenKind, Tokens};
use std::alloc::Global;

/// The number of bytes that a text may have.
const LONGEST: usize = 1 << 24;

/// Whether a byte is a quote.
fn is_quote(byte: u8) -> bool
    ensures yes { result ≡ true → IsQuote byte }
    ensures no { result ≡ false → IsQuote byte → ⊥ }
{
    byte == b'"' || byte == b'\''
}

/// The fault at a place where nothing stands.
fn stop_fault(text: &[u8], at: usize) -> LexFault
    requires stops { Stops text.now at }
    requires short { length text.now ≤ 2 ^ 24 }
    ensures { Bars text.now at result }
{
    if is_quote(text[at]) {
        return LexFault::Unended(at as u32);
    }
    LexFault::BadByte(at as u32)
}

/// The piece that begins at a place, or why no piece without a flaw does.
fn good_piece(text: &[u8], at: usize, line: bool) -> Result<Found, LexFault>
    requires within { at < length text.now }
    requires begins { line ≡ begins_line text.now at }
    requires short { length text.now ≤ 2 ^ 24 }
    ensures { MatchResult result (λ found. IsGood text.now (piece_of at found)) (λ fault. Bars text.now at fault) }
{
    match piece_at(text, at, line) {
        None => Err(stop_fault(text, at)),
        Some(found) => match flaw(text, at, found) {
            None => Ok(found),
            Some(fault) => Err(fault),
        },
    }
}

/// What follows from a piece: the attribute that is pending behind it, and the token that it is.
#[derive(Clone, Copy)]
struct Taken {
    pending: Option<Pending>,
    token: Option<TokenKind>,
}

/// The token of a kind with its span.
fn token(kind: TokenKind, start: usize, end: usize, place: Place) -> Token
    requires { (start ≤ 2 ^ 24) × (end ≤ 2 ^ 24) }
    ensures { result ≡ record { kind = kind; start = start; end = end; line = place.line; column = place.column } }
{
    Token {
        kind,
        start: start as u32,
        end: end as u32,
        line: place.line,
        column: place.column,
    }
}

/// Takes a piece where no attribute is pending.
fn take_plain(text: &[u8], at: usize, found: Found) -> Taken
    requires good { IsGood text.now (piece_of at found) }
    requires short { length text.now ≤ 2 ^ 24 }
    ensures taken { (ts : List Token) → Reached text.now at ts
        → IsState text.now found.end (pushed text.now ts result.token at found.end) result.pending }
    ensures few { PendingWithin result.pending found.end }
{
    match meaning_of(text, at, found) {
        Meaning::Nothing => Taken {
            pending: None,
            token: None,
        },
        Meaning::Attribute => Taken {
            pending: Some(Pending {
                start: at as u32,
                need: Need::Opening,
            }),
            token: None,
        },
        Meaning::Token(kind) => Taken {
            pending: None,
            token: Some(kind),
        },
    }
}

/// Takes a piece where an attribute is pending.
fn take_pending(
    text: &[u8],
    at: usize,
    found: Found,
    pending: Pending,
) -> Result<Option<Pending>, LexFault>
    requires good { IsGood text.now (piece_of at found) }
    requires short { length text.now ≤ 2 ^ 24 }
    requires few { (pending.start ≤ at) × NeedWithin pending.need at }
    ensures taken { (ts : List Token) → IsPending text.now at ts pending
        → MatchResult result (λ next. IsState text.now found.end ts next) (λ fault. IsFault text.now fault) }
    ensures few { IfOk result (λ next. PendingWithin next found.end) }
{
    match need_after(pending.need, found.kind) {
        None => Err(LexFault::Unended(pending.start)),
        Some(need) => {
            if is_met(need) {
                return Ok(None);
            }
            Ok(Some(Pending {
                start: pending.start,
                need,
            }))
        }
    }
}

/// Takes a piece.
fn take(text: &[u8], at: usize, found: Found, pending: Option<Pending>) -> Result<Taken, LexFault>
    requires good { IsGood text.now (piece_of at found) }
    requires short { length text.now ≤ 2 ^ 24 }
    requires few { PendingWithin pending at }
    ensures taken { (ts : List Token) → IsState text.now at ts pending
        → MatchResult result (λ taken. IsState text.now found.end (pushed text.now ts taken.token at found.end) taken.pending)
        (λ fault. IsFault text.now fault) }
    ensures few { IfOk result (λ taken. PendingWithin taken.pending found.end) }
{
    match pending {
        None => Ok(take_plain(text, at, found)),
        Some(attribute) => match take_pending(text, at, found, attribute) {
            Ok(next) => Ok(Taken {
                pending: next,
                token: None,
            }),
            Err(fault) => Err(fault),
        },
    }
}

/// The first fault, where no piece without a flaw begins at a place.
fn first_fault(text: &[u8], at: usize, fault: LexFault, pending: Option<Pending>) -> LexFault
    requires barred { Bars text.now at fault }
    requires short { length text.now ≤ 2 ^ 24 }
    ensures { (ts : List Token) → IsState text.now at ts pending → IsFault text.now result }
{
    match pending {
        None => fault,
        Some(attribute) => LexFault::Unended(attribute.start),
    }
}

/// Adds a token.
fn push_token(list: &mut Vec<Token>, token: Token) -> Result<(), LexFault>
    ensures ok { OnOk result (list.new.items ≡ list.old.items ++ token ∷ []) }
    ensures err { IfErr result (λ fault. fault ≡ OutOfMemory) }
{
    match list.push(token) {
        Ok(()) => Ok(()),
        Err(_) => Err(LexFault::OutOfMemory),
    }
}

/// Adds the token of a kind that a piece is, if it is one.
fn push_taken(
    list: &mut Vec<Token>,
    kind: Option<TokenKind>,
    at: usize,
    end: usize,
    text: &[u8],
    place: Place,
) -> Result<(), LexFault>
    requires within { (at < end) × (end ≤ length text.now) }
    requires short { length text.now ≤ 2 ^ 24 }
    requires place { IsPlace text.now at place }
    ensures ok { OnOk result (list.new.items ≡ pushed text.now list.old.items kind at end) }
    ensures err { IfErr result (λ fault. fault ≡ OutOfMemory) }
{
    match kind {
        None => Ok(()),
        Some(kind) => push_token(list, token(kind, at, end, place)),
    }
}

/// The tokens of a text that is short enough, or its first fault.
fn list_tokens(alloc: Global, text: &[u8]) -> Result<Vec<Token>, LexFault>
    requires { length text.now ≤ 2 ^ 24 }
    ensures tokens { MatchResult result (λ list. IsTokens text.now list.items) (λ fault. IsFault text.now fault) }
    ensures few { IfOk result (λ list. length list.items ≤ length text.now + 1) }
{
    let mut list = Vec::new(alloc);
    let mut at = 0;
    let mut place = first_place();
    let mut pending = None;
    while at < text.len() {
        let found = match good_piece(text, at, place.begins_line) {
            Ok(found) => found,
            Err(fault) => return Err(first_fault(text, at, fault, pending)),
        };
        let taken = match take(text, at, found, pending) {
            Ok(taken) => taken,
            Err(fault) => return Err(fault),
        };
        push_taken(&mut list, taken.token, at, found.end, text, place)?;
        place = place_behind(text, at, found.end, place);
        pending = taken.pending;
        at = found.end;
    }
    match pending {
        None => {
            push_token(&mut list, token(TokenKind::End, at, at, place))?;
            Ok(list)
        }
        Some(attribute) => Err(LexFault::Unended(attribute.start)),
    }
}

/// The tokens of a preprocessed unit with their spans (C11 5.1.1.2, 6.4), or the first place where no token stands.
///
/// The text is cut from its start into white space, dropped lines (a `#` before which only spaces and tabs stand on its line),
/// dropped words (`__extension__`, and `__attribute__` with its balanced parentheses) and tokens, each the longest run of bytes
/// that can stand there. The tokens stand in the order of the text, and one `End` stands last, at the text's end.
///
/// # Errors
///
/// `TooLong` exactly where the text has more than 2^24 bytes. `BadByte`, `Unended` and `BadNumber` hold the byte offset of the
/// first place where none of these stands. `OutOfMemory` where memory runs out.
pub fn tokens<'a>(alloc: Global, text: &'a [u8]) -> Result<Tokens<'a>, LexFault>
    ensures tokens { MatchResult result (λ t. (t.text.now ≡ text.now) × IsTokens text.now t.list.items) (λ fault. IsFault text.now fault) }
    ensures few { IfOk result (λ t. length t.list.items ≤ length text.now + 1) }
    ensures long { 2 ^ 24 < length text.now → result ≡ Err TooLong }
{
    if LONGEST < text.len() {
        return Err(LexFault::TooLong);
    }
    let list = list_tokens(alloc, text)?;
    Ok(Tokens { text, list })
}
