// A text that is written piece by piece.

use std::alloc::Global;
use std::test::Fail;

/// The text, and whether something of it could not be written.
#[derive(Drop)]
pub(crate) struct Page {
    alloc: Global,
    pub(crate) text: String,
    pub(crate) lacks: bool,
}

impl Page {
    /// The empty text.
    pub(crate) fn new(alloc: Global) -> Page {
        Page {
            alloc,
            text: String::new(alloc),
            lacks: false,
        }
    }

    /// Adds some words.
    pub(crate) fn say(&mut self, words: &str) {
        if self.text.push_str(words).is_err() {
            self.lacks = true;
        }
    }

    /// Adds a number.
    pub(crate) fn number(&mut self, number: i128) {
        match format!(in self.alloc; "{}", number) {
            Ok(digits) => self.say(digits.as_str()),
            Err(_) => self.lacks = true,
        }
    }

    /// The whole text, where all of it could be written.
    pub(crate) fn whole(self) -> Result<String, Fail> {
        let Page {
            alloc: _alloc,
            text,
            lacks,
        } = self;
        if lacks {
            return Err(Fail::new("not all is written"));
        }
        Ok(text)
    }
}
