//! Dropped attributes: `__attribute__` with the balanced parentheses behind it.
ghost use Rattle.c_lexer.specs.Cut as spec;
ghost use Rattle.c_lexer.specs.States.{NeedWithin};
ghost use Rattle.c_lexer.specs.Pieces.{kind_of, Numbered};
ghost use Rattle.c_lexer.specs.declared.groups.Need.TheVariants.{Opening, Closings};
ghost use Rattle.std.specs.Prelude.{◌≡◌, ◌≤◌, ◌^◌, true, false};

use crate::pieces::PieceKind;
use crate::punctuators::position_of;
use crate::runs::Run;

/// What the group behind an attribute still needs: its opening parenthesis, or so many closing ones.
#[derive(Clone, Copy)]
pub enum Need {
    Opening,
    Closings(u32),
}

/// An attribute that began at a place and whose group isn't closed yet.
#[derive(Clone, Copy)]
pub struct Pending {
    pub start: u32,
    pub need: Need,
}

/// What an attribute needs behind a piece at which its opening parenthesis is needed.
fn opening_after(kind: PieceKind) -> Option<Need>
    requires { Numbered kind }
    ensures { result ≡ spec.need_after Opening (kind_of kind) }
{
    match kind {
        PieceKind::Run(Run::White) | PieceKind::Run(Run::Line) => Some(Need::Opening),
        PieceKind::Run(Run::Name) | PieceKind::Run(Run::Number) | PieceKind::Literal(_, _) => None,
        PieceKind::Sign(number) => {
            if position_of(number) == 2 {
                return Some(Need::Closings(1));
            }
            None
        }
    }
}

/// What an attribute needs behind a piece at which so many closing parentheses are needed.
fn closings_after(count: u32, kind: PieceKind) -> Option<Need>
    requires numbered { Numbered kind }
    requires few { count ≤ 2 ^ 24 }
    ensures { result ≡ spec.need_after (Closings count) (kind_of kind) }
{
    match kind {
        PieceKind::Run(_) | PieceKind::Literal(_, _) => Some(Need::Closings(count)),
        PieceKind::Sign(number) => {
            let position = position_of(number);
            if position == 2 {
                return Some(Need::Closings(count + 1));
            }
            if position == 3 {
                return Some(Need::Closings(count.saturating_sub(1)));
            }
            Some(Need::Closings(count))
        }
    }
}

/// What an attribute needs behind a piece.
pub fn need_after(need: Need, kind: PieceKind) -> Option<Need>
    requires numbered { Numbered kind }
    requires few { NeedWithin need (2 ^ 24) }
    ensures { result ≡ spec.need_after need (kind_of kind) }
{
    match need {
        Need::Opening => opening_after(kind),
        Need::Closings(count) => closings_after(count, kind),
    }
}

/// Whether nothing more is needed.
pub fn is_met(need: Need) -> bool
    ensures yes { result ≡ true → need ≡ Closings 0 }
    ensures no { result ≡ false → need ≡ Closings 0 → ⊥ }
{
    match need {
        Need::Opening => false,
        Need::Closings(count) => count == 0,
    }
}
