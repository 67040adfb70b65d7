//! The flaws of pieces: numbers that are no constants, and what is wrong in literals.
ghost use Rattle.c_lexer.specs.Meanings.{Flaw, LiteralFlaw};
ghost use Rattle.c_lexer.specs.Pieces.{piece_of, IsPiece};
ghost use Rattle.std.specs.Prelude.{◌≡◌, ◌+◌, ◌-◌, ◌<◌, ◌≤◌, ◌^◌, length, true, false, MatchOption};
ghost use Rattle.c_lexer.specs.declared.quotes.Quote.TheVariants.{Character};
ghost use Rattle.c_lexer.specs.declared.LexFault.{LexFault};

use crate::LexFault;
use crate::escapes::first_bad;
use crate::numbers::{is_floating, is_integer};
use crate::pieces::{Found, PieceKind};
use crate::quotes::{Quote, is_wide, prefix_length};
use crate::runs::Run;

/// The flaw of a closed literal with so many bytes between its quotes.
fn literal_flaw(wide: bool, kind: Quote, text: &[u8], quote: usize, size: usize) -> Option<LexFault>
    requires within { quote + size + 2 ≤ length text.now }
    requires short { length text.now ≤ 2 ^ 24 }
    ensures { MatchOption result ((f : LexFault) → LiteralFlaw wide kind text.now quote size f → ⊥)
        (λ f. LiteralFlaw wide kind text.now quote size f) }
{
    if is_character(kind) && size == 0 {
        return Some(LexFault::Unended(quote as u32));
    }
    match first_bad(wide, text, quote + 1, size) {
        None => None,
        Some(count) => Some(LexFault::BadByte((quote + 1 + count) as u32)),
    }
}

/// Whether a quote is that of a character constant.
fn is_character(kind: Quote) -> bool
    ensures yes { result ≡ true → kind ≡ Character }
    ensures no { result ≡ false → kind ≡ Character → ⊥ }
{
    match kind {
        Quote::Character => true,
        Quote::Text => false,
    }
}

/// The flaw of a piece.
pub fn flaw(text: &[u8], from: usize, found: Found) -> Option<LexFault>
    requires piece { IsPiece text.now (piece_of from found) }
    requires short { length text.now ≤ 2 ^ 24 }
    ensures { MatchOption result ((f : LexFault) → Flaw text.now (piece_of from found) f → ⊥)
        (λ f. Flaw text.now (piece_of from found) f) }
{
    match found.kind {
        PieceKind::Run(Run::Number) => {
            let run = &text[from..found.end];
            if is_integer(run) || is_floating(run) {
                return None;
            }
            Some(LexFault::BadNumber(from as u32))
        }
        PieceKind::Literal(prefix, quote) => {
            let at = from + prefix_length(prefix);
            literal_flaw(is_wide(prefix), quote, text, at, found.end - at - 2)
        }
        _ => None,
    }
}
