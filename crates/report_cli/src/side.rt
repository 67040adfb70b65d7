// What is read beside the units, and all that is asked of their program.

use crate::form::Form;
use pta_base::Text;

/// A text that is read beside the units: its name, and its text as far as it was read.
#[derive(Clone, Copy, Drop)]
pub(crate) struct SideText<'a> {
    pub(crate) name: &'a str,
    pub(crate) text: &'a [u8],
}

/// What is read beside the units: nothing, a script of questions, with whether they go over a desk, or the words of a run of at most so
/// many steps.
#[derive(Clone, Copy, Drop)]
pub(crate) enum Side<'a> {
    Nothing,
    Questions(SideText<'a>, bool),
    Words(u32, SideText<'a>),
}

/// What is asked of units: the names of the functions at which their program is entered, none where that is `main`, what is read beside
/// them, and what is printed of them where that is nothing.
#[derive(Clone, Copy, Drop)]
pub(crate) struct Asked<'a> {
    pub(crate) entries: &'a [Text],
    pub(crate) side: Side<'a>,
    pub(crate) form: Form,
}

/// The limit on the bytes of a text beside the units.
pub(crate) const MOST: usize = 16_777_216;
