//! What a production notes of what it has read.
ghost use Rattle.c_grammar.specs.Notes as spec;
ghost use Rattle.c_grammar.specs.Notes.{noted, Noted};
ghost use Rattle.std.specs.Prelude.{◌≡◌, ◌++◌, ◌∷◌, [], OnOk};

use crate::productions::*;
use crate::scopes::Declared;
use pta_base::OutOfMemory;
use std::alloc::Global;

/// What a declarator makes of its name.
#[derive(Clone, Copy, Debug, PartialEq, Eq)]
pub enum Shape {
    /// No name has been read.
    Nameless,
    /// The name stands alone.
    Bare,
    /// A parameter list follows the name, at the name's own level.
    Listed,
    /// A function, whatever stands around it.
    Function,
    /// Anything else.
    Other,
}

/// What a production has noted of the tokens and productions that it has read.
#[derive(Drop)]
pub struct Notes {
    pub(crate) typedef_seen: bool,
    pub(crate) name: Option<u32>,
    pub(crate) pointer: bool,
    pub(crate) shape: Shape,
    pub(crate) word: Option<u32>,
    pub(crate) words: Vec<u32>,
    pub(crate) parameters: Vec<Declared>,
}

/// Whether a row takes a type word.
fn names_type(row: u32) -> bool
    ensures { result ≡ spec.names_type row }
{
    (JUST_VOID <= row && row <= JUST_BOOL)
        || row == FLOATING_NAME
        || row == TYPEDEF_NAME
        || row == JUST_STRUCT
        || row == JUST_UNION
        || row == ENUM
}

/// What a suffix makes of the name before it.
fn shape_after(suffix: Shape, shape: Shape) -> Shape
    ensures { result ≡ spec.shape_after suffix shape }
{
    match shape {
        Shape::Bare => match suffix {
            Shape::Listed => Shape::Listed,
            _ => Shape::Other,
        },
        Shape::Listed => Shape::Other,
        Shape::Nameless => Shape::Nameless,
        Shape::Function => Shape::Function,
        Shape::Other => Shape::Other,
    }
}

/// What a declarator is to what stands around it.
fn shape_closed(pointer: bool, shape: Shape) -> Shape
    ensures { result ≡ spec.shape_closed pointer shape }
{
    match shape {
        Shape::Bare => { if pointer { Shape::Other } else { Shape::Bare } }
        Shape::Listed => Shape::Function,
        Shape::Nameless => Shape::Nameless,
        Shape::Function => Shape::Function,
        Shape::Other => Shape::Other,
    }
}

impl Notes {
    /// Nothing has been read.
    pub fn new(alloc: Global) -> Notes
        ensures { noted result ≡ spec.no_notes }
    {
        Notes {
            typedef_seen: false,
            name: None,
            pointer: false,
            shape: Shape::Nameless,
            word: None,
            words: Vec::new(alloc),
            parameters: Vec::new(alloc),
        }
    }

    /// What a production begins with, where `self` is what its user has noted.
    #[tactic(auto, unfolding(crate::specs::Notes::notes_begin))]
    pub fn begin(&self, alloc: Global, production: u32) -> Notes
        ensures { noted result ≡ spec.notes_begin production (noted self.now) }
    {
        let mut notes = Notes::new(alloc);
        if production == REST {
            notes.typedef_seen = self.typedef_seen;
        }
        notes
    }

    /// Notes a token that a row takes, by its place and its terminal.
    #[tactic(auto, unfolding(crate::specs::Notes::notes_token))]
    pub fn token(&mut self, row: u32, place: u32, first: u32)
        ensures { noted self.new ≡ spec.notes_token row place first (noted self.old) }
    {
        if row == JUST_IDENT {
            self.name = Some(place);
            self.shape = Shape::Bare;
        } else if row == STAR {
            self.pointer = true;
        } else if row == LIST_SUFFIX {
            self.shape = Shape::Listed;
        } else if row == ENUMERATOR {
            self.name = Some(place);
        } else if row == JUST_TYPEDEF {
            self.typedef_seen = true;
        } else if names_type(row) {
            self.word = Some(first);
        }
    }

    /// Notes a production that was used, by what that production has noted.
    #[tactic(auto, unfolding(crate::specs::Notes::notes_after))]
    pub fn after(&mut self, production: u32, inner: Notes) -> Result<(), OutOfMemory>
        ensures { OnOk result (noted self.new ≡ spec.notes_after production (noted inner) (noted self.old)) }
    {
        match production {
            STORAGE => {
                self.typedef_seen = self.typedef_seen || inner.typedef_seen;
                Ok(())
            }
            SPECS => {
                self.typedef_seen = inner.typedef_seen;
                Ok(())
            }
            TYPE => self.add_word(inner.word),
            STRUCT | ENUM => {
                self.word = inner.word;
                Ok(())
            }
            DECLARATOR | EITHER => {
                self.name = inner.name;
                self.shape = shape_closed(inner.pointer, inner.shape);
                self.parameters = inner.parameters;
                Ok(())
            }
            SUFFIX => {
                self.close_suffix(inner);
                Ok(())
            }
            _ => Ok(()),
        }
    }

    /// Adds the word of a type specifier.
    fn add_word(&mut self, word: Option<u32>) -> Result<(), OutOfMemory>
        ensures { OnOk result (noted self.new ≡ spec.with_word word (noted self.old)) }
    {
        if let Some(word) = word {
            self.words.push(word)?;
        }
        Ok(())
    }

    /// Notes a suffix behind the name.
    fn close_suffix(&mut self, inner: Notes)
        ensures { noted self.new ≡ spec.with_suffix (noted inner) (noted self.old) }
    {
        let shape = self.shape;
        self.shape = shape_after(inner.shape, shape);
        if shape == Shape::Bare {
            self.parameters = inner.parameters;
        }
    }
}
