//! Lines and columns.
ghost use Rattle.c_lexer.specs.Places.{IsPlace};
ghost use Rattle.std.specs.Prelude.{◌≡◌, ◌+◌, ◌<◌, ◌≤◌, ◌^◌, ◌&&◌, ℕ, List, length};
ghost use Rattle.c_lexer.specs.Bytes as spec;

use crate::bytes::is_blank;

/// The line and the column of a place, and whether only blanks stand before it on its line.
#[derive(Clone, Copy)]
pub struct Place {
    pub line: u32,
    pub column: u32,
    pub begins_line: bool,
}

/// The place of a text's first byte.
pub fn first_place() -> Place
    ensures { (text : List ℕ) → IsPlace text 0 result }
{
    Place {
        line: 1,
        column: 1,
        begins_line: true,
    }
}

/// Whether only blanks stand before a place, where a byte more is no line feed.
#[inline(always)]
fn stays_blank(byte: u8, place: Place) -> bool
    ensures { result ≡ (spec.is_blank byte && place.begins_line) }
{
    is_blank(byte) && place.begins_line
}

/// The place behind one byte more.
#[inline(always)]
fn place_after(text: &[u8], at: usize, place: Place) -> Place
    requires within { at < length text.now }
    requires short { length text.now ≤ 2 ^ 24 }
    requires stands { IsPlace text.now at place }
    ensures { IsPlace text.now (at + 1) result }
{
    let byte = text[at];
    if byte == b'\n' {
        return Place {
            line: place.line + 1,
            column: 1,
            begins_line: true,
        };
    }
    Place {
        line: place.line,
        column: place.column + 1,
        begins_line: stays_blank(byte, place),
    }
}

/// The place behind the bytes up to an end.
#[inline(always)]
pub fn place_behind(text: &[u8], from: usize, end: usize, place: Place) -> Place
    requires within { (from ≤ end) × (end ≤ length text.now) }
    requires short { length text.now ≤ 2 ^ 24 }
    requires stands { IsPlace text.now from place }
    ensures { IsPlace text.now end result }
{
    let mut place = place;
    for at in from..end {
        place = place_after(text, at, place);
    }
    place
}
