//! Digits of constants and escapes (C11 6.4.4.1, 6.4.4.4).
ghost use Rattle.std.specs.Prelude.{◌≡◌, ◌≤◌, ◌^◌, min};
ghost use Rattle.c_lexer.specs.Bytes as bytes;
ghost use Rattle.c_lexer.specs.Numbers as numbers;
ghost use Rattle.c_lexer.specs.Numbers.{value_on};
ghost use Rattle.c_literals.specs.Digits.{base_seen};

/// The bases of constants.
#[derive(Clone, Copy)]
pub enum Radix {
    Octal,
    Decimal,
    Hexadecimal,
}

/// Whether a byte is a digit of a base.
#[tactic(auto, unfolding(c_lexer::specs::Bytes::is_digit, c_lexer::specs::Bytes::is_octal_digit, c_lexer::specs::Bytes::is_hexadecimal_digit))]
fn is_digit_of(radix: Radix, byte: u8) -> bool
    ensures { result ≡ numbers.is_digit_of (base_seen radix) byte }
{
    match radix {
        Radix::Octal => b'0' <= byte && byte <= b'7',
        Radix::Decimal => b'0' <= byte && byte <= b'9',
        Radix::Hexadecimal => {
            (b'0' <= byte && byte <= b'9')
                || (b'a' <= byte && byte <= b'f')
                || (b'A' <= byte && byte <= b'F')
        }
    }
}

/// The number of a base's digits.
fn size_of(radix: Radix) -> u8
    ensures { result ≡ numbers.radix (base_seen radix) }
{
    match radix {
        Radix::Octal => 8,
        Radix::Decimal => 10,
        Radix::Hexadecimal => 16,
    }
}

/// What a digit is worth; 0 to 15 for the digits of each base.
#[tactic(auto, unfolding(c_lexer::specs::Bytes::digit_value))]
fn digit_value(byte: u8) -> u8
    ensures { result ≡ bytes.digit_value byte }
{
    if b'a' <= byte {
        byte - 87
    } else if b'A' <= byte {
        byte - 55
    } else {
        byte.saturating_sub(b'0')
    }
}

/// How many digits stand first.
pub fn digit_count(radix: Radix, run: &[u8]) -> usize
    ensures { result ≡ numbers.digit_count (base_seen radix) run.now }
{
    run.iter()
        .take_while(|byte| is_digit_of(radix, **byte))
        .count()
}

/// What digits are worth, or the limit where they are worth more.
pub fn value_up_to(radix: Radix, digits: &[u8], limit: u128) -> u128
    requires { limit ≤ 2 ^ 64 }
    ensures { result ≡ min (value_on (numbers.radix (base_seen radix)) 0 digits.now) limit }
{
    let mut value: u128 = 0;
    for digit in digits {
        value = value * size_of(radix) as u128 + digit_value(*digit) as u128;
        if limit <= value {
            return limit;
        }
    }
    value
}
