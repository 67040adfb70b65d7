//! Character constants (C11 6.4.4.4).
ghost use Rattle.std.specs.Prelude.{◌≡◌};
ghost use Rattle.c_senses.specs.Literals as spec;
ghost use Rattle.c_senses.specs.Literals.{value_of_character};

use crate::elements::first_element;
use crate::parts::between_quotes;

/// A byte as a `char`, which is signed; 0 for what is no byte.
fn char_value(byte: u16) -> i8
    ensures { result ≡ spec.char_value byte }
{
    if byte < 128 {
        byte as i8
    } else if byte < 256 {
        (byte as i16 - 256) as i8
    } else {
        0
    }
}

/// The value of a character constant, from its bytes (C11 6.4.4.4p10): that of its first byte or escape as a `char`, -128 to 127. It
/// takes any bytes; without a byte between the quotes the value is 0, and so it is for an escape over 255.
pub fn character_value(constant: &[u8]) -> i8
    ensures { result ≡ value_of_character constant.now }
{
    match first_element(between_quotes(b'\'', constant)) {
        Some(element) => char_value(element.value),
        None => 0,
    }
}
