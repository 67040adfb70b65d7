//! Escape sequences (C11 6.4.4.4).
ghost use Rattle.std.specs.Prelude.{◌≡◌, min};
ghost use Rattle.c_senses.specs.Literals as spec;

use crate::digits::{Radix, digit_count, value_up_to};
use crate::parts::{behind_first, byte_at};

/// What an escape stands for, 256 where that is over 255, and how many bytes it takes behind its backslash.
#[derive(Clone, Copy)]
pub struct Escape {
    pub value: u16,
    pub length: usize,
}

/// The byte that a letter behind a backslash stands for.
fn simple_escape(letter: u8) -> u8
    ensures { result ≡ spec.simple_escape letter }
{
    match letter {
        b'a' => 7,
        b'b' => 8,
        b'f' => 12,
        b'n' => 10,
        b'r' => 13,
        b't' => 9,
        b'v' => 11,
        _ => letter,
    }
}

/// The escape whose backslash stands before these bytes.
pub fn escape_before(behind: &[u8]) -> Escape
    ensures value { result.value ≡ min (spec.escape_byte behind.now) 256 }
    ensures length { result.length ≡ spec.escape_length behind.now }
{
    let octal = digit_count(Radix::Octal, behind);
    if 0 < octal {
        let length = octal.min(3);
        let value = value_up_to(Radix::Octal, &behind[..length], 256) as u16;
        return Escape { value, length };
    }
    if byte_at(behind, 0) == b'x' {
        let digits = behind_first(behind, 1);
        let count = digit_count(Radix::Hexadecimal, digits);
        let value = value_up_to(Radix::Hexadecimal, &digits[..count], 256) as u16;
        return Escape {
            value,
            length: 1 + count,
        };
    }
    Escape {
        value: u16::from(simple_escape(byte_at(behind, 0))),
        length: 1,
    }
}
