//! String literals (C11 6.4.5).
ghost use Rattle.std.specs.Prelude.{◌≡◌, ◌<◌, ◌↔◌, ◌++◌, IsTrue, OnOk, OnErr, length, take};
ghost use Rattle.c_senses.specs.Literals.{bytes_of, bytes_of_string};
ghost use Rattle.c_literals.specs.Laws.{AreBytes};

use crate::elements::first_element;
use crate::parts::between_quotes;
use std::alloc::AllocError;

/// Appends what stands between the quotes of a string literal.
fn push_inside(text: &mut Vec<u8>, inside: &[u8]) -> Result<(), AllocError>
    requires { AreBytes (bytes_of inside.now) }
    ensures ok { OnOk result (text.new.items ≡ text.old.items ++ bytes_of inside.now) }
    ensures err { OnErr result (take (length text.old.items) text.new.items ≡ text.old.items) }
{
    let mut rest = inside;
    while let Some(element) = first_element(rest) {
        text.push(element.value as u8)?;
        rest = element.behind;
    }
    Ok(())
}

/// Appends the bytes that a string literal stands for, without the closing zero (C11 6.4.5p6), from the literal's bytes with its
/// prefix and its quotes. The bytes of literals side by side are appended one after another (C11 5.1.1.2, phase 6). The literal has no
/// escape over 255, which the tokens of a text keep (`laws::literals_fit`) and `is_narrow` tests. Want of memory leaves the text as
/// it was.
pub fn push_string(text: &mut Vec<u8>, literal: &[u8]) -> Result<(), AllocError>
    requires { AreBytes (bytes_of_string literal.now) }
    ensures ok { OnOk result (text.new.items ≡ text.old.items ++ bytes_of_string literal.now) }
    ensures err { OnErr result (text.new.items ≡ text.old.items) }
{
    let before = text.len();
    match push_inside(text, between_quotes(b'"', literal)) {
        Ok(()) => Ok(()),
        Err(fault) => {
            text.truncate(before);
            Err(fault)
        }
    }
}

/// Whether a string literal, of any bytes, has no escape over 255: whether all that it stands for are bytes.
pub fn is_narrow(literal: &[u8]) -> bool
    ensures { IsTrue result ↔ AreBytes (bytes_of_string literal.now) }
{
    let mut rest = between_quotes(b'"', literal);
    while let Some(element) = first_element(rest) {
        if 255 < element.value {
            return false;
        }
        rest = element.behind;
    }
    true
}
