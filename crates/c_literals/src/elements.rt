//! The bytes and escapes between the quotes of a literal (C11 6.4.4.4).
ghost use Rattle.std.specs.Prelude.{◌≡◌, [], MatchOption};
ghost use Rattle.c_literals.specs.Elements.{IsElement};

use crate::escapes::escape_before;
use crate::parts::behind_first;

/// What a byte or an escape stands for, 256 where that is over 255, and the bytes behind it.
#[derive(Clone, Copy)]
pub struct Element<'a> {
    pub value: u16,
    pub behind: &'a [u8],
}

/// The first byte or escape between the quotes of a literal.
pub fn first_element(inside: &[u8]) -> Option<Element>
    ensures { MatchOption result (inside.now ≡ []) (λ e. IsElement inside.now e.value e.behind.now) }
{
    let [byte, behind @ ..] = inside else {
        return None;
    };
    if *byte == b'\\' {
        let escape = escape_before(behind);
        return Some(Element {
            value: escape.value,
            behind: behind_first(behind, escape.length),
        });
    }
    Some(Element {
        value: u16::from(*byte),
        behind,
    })
}
