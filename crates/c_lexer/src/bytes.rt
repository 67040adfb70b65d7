//! The classes of bytes.
ghost use Rattle.c_lexer.specs.Bytes as spec;
ghost use Rattle.std.specs.Prelude.{◌≡◌};

/// Letters and the underscore.
#[inline(always)]
#[tactic(auto, unfolding(crate::specs::Bytes::is_letter))]
pub fn is_letter(c: u8) -> bool
    ensures { result ≡ spec.is_letter c }
{
    (b'a' <= c && c <= b'z') || (b'A' <= c && c <= b'Z') || c == b'_'
}

/// The ten digits.
#[inline(always)]
#[tactic(auto, unfolding(crate::specs::Bytes::is_digit))]
pub fn is_digit(c: u8) -> bool
    ensures { result ≡ spec.is_digit c }
{
    b'0' <= c && c <= b'9'
}

/// The eight octal digits.
#[tactic(auto, unfolding(crate::specs::Bytes::is_octal_digit))]
pub fn is_octal_digit(c: u8) -> bool
    ensures { result ≡ spec.is_octal_digit c }
{
    b'0' <= c && c <= b'7'
}

/// The digits, and the letters from `a` to `f` in both cases.
#[tactic(auto, unfolding(crate::specs::Bytes::is_hexadecimal_digit))]
pub fn is_hexadecimal_digit(c: u8) -> bool
    ensures { result ≡ spec.is_hexadecimal_digit c }
{
    (b'0' <= c && c <= b'9') || (b'a' <= c && c <= b'f') || (b'A' <= c && c <= b'F')
}

/// White space: tab, line feed, vertical tab, form feed, carriage return and space.
#[inline(always)]
#[tactic(auto, unfolding(crate::specs::Bytes::is_white))]
pub fn is_white(c: u8) -> bool
    ensures { result ≡ spec.is_white c }
{
    (9 <= c && c <= 13) || c == b' '
}

/// Space and tab, which may stand before the `#` of a dropped line.
#[inline(always)]
#[tactic(auto, unfolding(crate::specs::Bytes::is_blank))]
pub fn is_blank(c: u8) -> bool
    ensures { result ≡ spec.is_blank c }
{
    c == b' ' || c == b'\t'
}
